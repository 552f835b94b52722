//! The driven run of the tool: the lines of each seat in a thread of its own.

ghost use Rattle.std.specs.Prelude.{◌≡◌, ◌≤◌, ◌+◌, ◌∷◌, [], codes, false, true, length, Err, None, Some, IfErr, IfOk, IfSome, MatchResult};
ghost use Rattle.std.specs.Io.KnownBytes.{Keeps};
ghost use Rattle.acta_script.specs.Reading.{seated_of};
ghost use Rattle.acta_words.specs.Text.{text_of};
ghost use Rattle.acta_locked.specs.declared.run.DriveError.TheVariants.{Memory};
ghost use Rattle.acta_tool.specs.Driving.{AnswersOne, MayWrite, book_lines, script_of, scripts_of, task_of, task_on, unless_too_long};
ghost use Rattle.acta_io.specs.Models.{of_either};
ghost use Rattle.acta_io.specs.Outcome.{FailsBy, IsUnreadTooLong, KeepsUnread, WritesBy, reason_of};
ghost use Rattle.acta_tool.specs.Outcome.{is_drive};
ghost use Rattle.acta_io.specs.Input.{parsed_in};
ghost use Rattle.acta_io.specs.Reports.{stop_line};
ghost use Rattle.acta_tool.specs.inside.Reports.{MayComeOf};
ghost use Rattle.acta_io.specs.inside.Reports.{output_of};

use crate::args::{Args, Command};
use crate::rendering::render_book;
use acta_io::{
    ModelError, Outcome, Report, SeatedLines, Sink, Source, read_lines, read_model, read_within,
    refuse_by, refuse_line, refuse_model, write_report,
};
use acta_locked::{Book, DriveError, Driven, Front, OpenGate, Script, Watched, drive_watched};
use acta_machine::Handle;
use acta_script::Seated;
use acta_table::Model;
use std::alloc::{AllocError, Allocator};
use std::sync::Wait;
use std::thread::Threads;

// The events of a seat's lines, in order.
fn script_of<A: Allocator + Copy>(
    alloc: A,
    parsed: &[Seated<A>],
    seat: u8,
) -> Result<Script<A>, AllocError>
    ensures { IfOk result (λ script. script ≡ script_of parsed.now seat) }
{
    let mut events = Vec::new(alloc);
    for one in parsed {
        if one.seat != seat {
            continue;
        }
        events.push(one.event.copy()?)?;
    }
    Ok(Script::of(events))
}

// The scripts of the seats, from 1.
fn scripts_of<A: Allocator + Copy>(
    alloc: A,
    workers: u8,
    parsed: &[Seated<A>],
) -> Result<Vec<Script<A>, A>, AllocError>
    ensures { IfOk result (λ scripts. scripts.items ≡ scripts_of workers parsed.now) }
{
    let mut scripts = Vec::new(alloc);
    for k in 0..workers {
        scripts.push(script_of(alloc, parsed, k + 1)?)?;
    }
    Ok(scripts)
}

// The output for the book of a driven run, and for the fronts that were judged meanwhile.
fn report_book<A: Handle>(
    alloc: A,
    book: &Book<A>,
    fronts: &[Front<A>],
) -> Result<Report<A>, DriveError>
    ensures reported { IfOk result (λ report. output_of report ≡ record { is_refused = false; text = text_of (book_lines book.now fronts.now) }) }
    ensures memory { IfErr result (λ e. e ≡ Memory) }
{
    let mut text = Vec::new(alloc);
    render_book(alloc, book, fronts, &mut text)?;
    Ok(Report {
        text,
        is_refused: false,
    })
}

// The output for a driven run of the scripts.
fn drive_scripts<A: Handle + Send + Sync, R: Threads + Wait + Sync>(
    rt: &R,
    alloc: A,
    model: Model<A>,
    scripts: &[Script<A>],
    turns: u8,
) -> Result<Report<A>, DriveError>
    ensures { MayComeOf (unless_too_long (record { model = model; scripts = scripts.now; turns = turns })) result }
{
    match drive_watched(rt, alloc, model, scripts, &OpenGate, turns) {
        Ok(watched) => {
            let Watched { driven, fronts } = watched;
            let Driven { book, reports } = driven;
            drop(reports);
            let reported = report_book(alloc, &book, fronts.as_slice());
            drop(fronts);
            drop(book);
            reported
        }
        Err(e) => match e {
            DriveError::TooManyEvents => Ok(refuse_by(alloc, b"drive fault 3")?),
            _ => Err(e),
        },
    }
}

// The output for a driven run of the parsed lines.
fn drive_parsed<A: Handle + Send + Sync, R: Threads + Wait + Sync>(
    rt: &R,
    alloc: A,
    workers: u8,
    turns: u8,
    model: Model<A>,
    parsed: &[Seated<A>],
) -> Result<Report<A>, DriveError>
    ensures { MayComeOf (unless_too_long (record { model = model; scripts = scripts_of workers parsed.now; turns = turns })) result }
{
    match scripts_of(alloc, workers, parsed) {
        Ok(scripts) => drive_scripts(rt, alloc, model, scripts.as_slice(), turns),
        Err(_) => Err(DriveError::Memory),
    }
}

// The output for the lines on a model.
fn drive_lines<A: Handle + Send + Sync, R: Threads + Wait + Sync>(
    rt: &R,
    alloc: A,
    workers: u8,
    turns: u8,
    model: Model<A>,
    input: &[u8],
) -> Result<Report<A>, DriveError>
    ensures { MayComeOf (task_on workers turns model (parsed_in (seated_of model workers) input.now)) result }
{
    let lines = SeatedLines {
        alloc,
        model: &model,
        seats: workers,
    };
    let read = read_lines(alloc, &lines, input)?;
    match read.stop {
        Some(stop) => Ok(refuse_line(alloc, stop)?),
        None => drive_parsed(rt, alloc, workers, turns, model, read.parsed.as_slice()),
    }
}

// The output for the bytes of a model and of an input.
fn answer<A: Handle + Send + Sync, R: Threads + Wait + Sync>(
    rt: &R,
    alloc: A,
    workers: u8,
    turns: u8,
    model: &[u8],
    input: &[u8],
) -> Result<Report<A>, DriveError>
    ensures { MayComeOf (task_of {A = A} workers turns (of_either model.now) input.now) result }
{
    match read_model(alloc, model) {
        Ok(model) => drive_lines(rt, alloc, workers, turns, model, input),
        Err(ModelError::Fault(fault)) => Ok(refuse_model(alloc, fault)?),
        Err(ModelError::Memory) => Err(DriveError::Memory),
    }
}

/// Reads the whole input as lines `SEAT EVENT`, and submits each seat's events, in order, from a thread of its own. Then
/// writes at once the entries of the book, a line for each front that a judging thread made, and the debts. If the model or
/// a line is faulty, or there are more than 65,536 lines, only that is written. `Unread` and `Unwritten` are returned as by
/// `run_tool`. Returns `Err` if the threads have no result; then nothing is written. Not promised: the order in which the
/// book has the threads' events, and termination.
pub fn drive_tool<A: Handle + Send + Sync, R: Threads + Wait + Sync, S: Source, W: Sink>(
    rt: &R,
    alloc: A,
    args: &Args<'_>,
    model: &[u8],
    input: &mut S,
    output: &mut W,
) -> Result<Outcome, DriveError>
    requires { is_drive args.now.command ≡ true }
    ensures answers { IfSome (S.remaining input.old) (λ bytes. AnswersOne result (MayWrite A args.now.command model.now bytes) (W.contents output.old) (W.contents output.new)) }
    ensures unread { MatchResult result (λ outcome. KeepsUnread outcome (W.contents output.old) (W.contents output.new)) (λ _. Keeps (W.contents output.old) (W.contents output.new)) }
    ensures written { MatchResult result (λ outcome. WritesBy outcome (W.has_failed output.old) (W.has_failed output.new)) (λ _. W.has_failed output.new ≡ W.has_failed output.old) }
    ensures reads { S.reads input.new ≤ S.reads input.old + 16777217 }
    ensures failed { MatchResult result (λ outcome. FailsBy (reason_of outcome) (S.has_failed input.old) (S.has_failed input.new)) (λ _. S.has_failed input.new ≡ S.has_failed input.old) }
    ensures too_long { MatchResult result (λ outcome. IsUnreadTooLong model.now (S.remaining input.old) (reason_of outcome)) (λ _. IsUnreadTooLong model.now (S.remaining input.old) None) }
{
    let Command::Drive { workers, turns } = args.command else {
        unreachable!()
    };
    let bytes = match read_within(alloc, model, input) {
        Ok(bytes) => bytes,
        Err(reason) => return Ok(Outcome::Unread(reason)),
    };
    match answer(rt, alloc, workers, turns, model, bytes.as_slice()) {
        Ok(report) => Ok(write_report(&report, output)),
        Err(e) => Err(e),
    }
}
