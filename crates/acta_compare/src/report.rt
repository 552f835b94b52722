//! The report for the bytes of two models and of an input.

ghost use Rattle.std.specs.Prelude.{◌≡◌, ◌≤◌, ◌+◌, true, ◌||◌, is_some, map, IfOk, IfSome};
ghost use Rattle.acta_io.specs.Outcome.{AnswersBy, FailsBy, IsUnreadTooLong, KeepsUnread, WritesBy, reason_of};
ghost use Rattle.acta_io.specs.Input.{parsed_in};
ghost use Rattle.acta_io.specs.inside.Reports.{output_of};
ghost use Rattle.acta_script.specs.Reading.{program_line_of};
ghost use Rattle.acta_explore.specs.Ends.{AreAllEnds};
ghost use Rattle.acta_explore.specs.Outcomes.{outcome};
ghost use Rattle.acta_compare.specs.Answers.{IsAnswer, IsAnswerOn, IsAnswerTo, IsAnswerWith, IsOfPrograms, longer};
ghost use Rattle.acta_io.specs.Models.{of_either};

use crate::answers::explain_answers;
use crate::args::{Asked, Compared};
use crate::ends::{Ends, explain_only};
use crate::side::Side;
use acta_args::ModelName;
use acta_explore::{ExploreError, Explored, Watch, explore};
use acta_io::{
    BadLine, MOST_SEATS, ModelError, NoModel, Outcome, ProgramLines, ReadFault, Report, Sink,
    Source, read_lines, read_model, read_within, refuse_model, write_report,
};
use acta_machine::Handle;
use acta_programs::explain_incomplete;
use acta_prose::{Prose, name_text, put, put_model_name};
use acta_script::ProgramLine;
use acta_table::Model;
use std::alloc::AllocError;

// A report that refuses the input, with the name of a model before it.
fn with_name<A: Handle>(
    alloc: A,
    name: ModelName<'_>,
    refused: &Report<A>,
) -> Result<Report<A>, AllocError>
    ensures { IfOk result (λ report. report.is_refused ≡ true) }
{
    let prose = put_model_name(Prose::new(alloc), name).put(": ");
    let prose = prose.put(name_text(refused.text.as_slice()));
    Ok(Report {
        text: prose.done()?.into_bytes(),
        is_refused: true,
    })
}

// The report that the bytes of the second model are not a model.
fn refuse_other<A: Handle>(
    alloc: A,
    name: ModelName<'_>,
    fault: NoModel,
) -> Result<Report<A>, AllocError>
    ensures { IfOk result (λ report. report.is_refused ≡ true) }
{
    let refused = refuse_model(alloc, fault)?;
    with_name(alloc, name, &refused)
}

// The report that the search for the ends on a model was given up after this many points and ends.
fn give_up<A: Handle>(
    alloc: A,
    name: ModelName<'_>,
    most: u32,
    points: u64,
    ends: usize,
) -> Result<Report<A>, AllocError>
    ensures { IfOk result (λ report. report.is_refused ≡ true) }
{
    let incomplete = explain_incomplete(alloc, most, points, ends)?;
    with_name(alloc, name, &incomplete)
}

// Adds that the model can't read this line, if this is its faulty line.
fn put_stop<A: Handle>(
    prose: Prose<A>,
    side: &Side<'_, A>,
    stop: Option<BadLine>,
    line: usize,
) -> Prose<A> {
    match stop {
        Some(bad) if bad.line == line => {
            let prose = put!(prose; "line ", line, ": ");
            let prose = put_model_name(prose, side.name);
            put!(prose; " can't read it: ", bad.fault, "\n")
        }
        _ => prose,
    }
}

// Whether one of the models can't read a line.
fn has_stop(stop: Option<BadLine>, other: Option<BadLine>) -> bool
    ensures { result ≡ (is_some stop || is_some other) }
{
    stop.is_some() || other.is_some()
}

// The number of the first line that a model can't read.
fn first_line(stop: Option<BadLine>, other: Option<BadLine>) -> usize {
    match (stop, other) {
        (Some(one), Some(two)) => one.line.min(two.line),
        (Some(one), None) => one.line,
        (None, Some(two)) => two.line,
        (None, None) => 0,
    }
}

// The report that the programs can't be compared, since a model can't read a line.
fn refuse_lines<A: Handle>(
    alloc: A,
    one: &Side<'_, A>,
    other: &Side<'_, A>,
    stop: Option<BadLine>,
    second: Option<BadLine>,
) -> Result<Report<A>, AllocError>
    ensures { IfOk result (λ report. report.is_refused ≡ true) }
{
    let line = first_line(stop, second);
    let prose = put_stop(Prose::new(alloc), one, stop, line);
    let prose = put_stop(prose, other, second, line);
    Ok(Report {
        text: prose.done()?.into_bytes(),
        is_refused: true,
    })
}

// The report on programs whose ends on the first model were all found.
fn compare_found<A: Handle, W: Watch>(
    alloc: A,
    most: u32,
    one: &Ends<'_, A>,
    other: &Side<'_, A>,
    input: &[u8],
    lines: &[ProgramLine<A>],
    watch: &mut W,
) -> Result<Report<A>, AllocError>
    requires all { AreAllEnds one.now.lines.now one.now.side.now.model.now one.now.explored.now.ends }
    requires outcomes { one.now.explored.now.outcomes ≡ map (outcome one.now.lines.now) one.now.explored.now.ends }
    ensures { IfOk result (λ report. IsOfPrograms most one.now.side.now.model.now one.now.lines.now other.now.model.now lines.now (output_of report)) }
{
    let found = explore(alloc, other.model, lines, most, watch);
    watch.end();
    match found {
        Ok(explored) => {
            let second = Ends {
                side: other,
                lines,
                explored: &explored,
            };
            explain_only(alloc, one, &second, input)
        }
        Err(ExploreError::TooMany { points, ends }) => {
            give_up(alloc, other.name, most, points, ends)
        }
        Err(ExploreError::Memory) => Err(AllocError),
    }
}

// The report on programs that both models can read.
fn compare_programs<A: Handle, W: Watch>(
    alloc: A,
    most: u32,
    one: &Side<'_, A>,
    other: &Side<'_, A>,
    input: &[u8],
    lines: &[ProgramLine<A>],
    others: &[ProgramLine<A>],
    watch: &mut W,
) -> Result<Report<A>, AllocError>
    ensures { IfOk result (λ report. IsOfPrograms most one.now.model.now lines.now other.now.model.now others.now (output_of report)) }
{
    let found = explore(alloc, one.model, lines, most, watch);
    watch.end();
    match found {
        Ok(explored) => {
            let first = Ends {
                side: one,
                lines,
                explored: &explored,
            };
            compare_found(alloc, most, &first, other, input, others, watch)
        }
        Err(ExploreError::TooMany { points, ends }) => {
            give_up(alloc, one.name, most, points, ends)
        }
        Err(ExploreError::Memory) => Err(AllocError),
    }
}

// The report on the programs of an input.
fn compare_ends<A: Handle, W: Watch>(
    alloc: A,
    most: u32,
    one: &Side<'_, A>,
    other: &Side<'_, A>,
    input: &[u8],
    watch: &mut W,
) -> Result<Report<A>, AllocError>
    ensures { IfOk result (λ report. IsAnswerTo most one.now.model.now other.now.model.now (parsed_in (program_line_of one.now.model.now 16) input.now) (parsed_in (program_line_of other.now.model.now 16) input.now) (output_of report)) }
{
    let reader = ProgramLines {
        alloc,
        model: one.model,
        seats: MOST_SEATS,
    };
    let read = read_lines(alloc, &reader, input)?;
    let reader = ProgramLines {
        alloc,
        model: other.model,
        seats: MOST_SEATS,
    };
    let second = read_lines(alloc, &reader, input)?;
    if has_stop(read.stop, second.stop) {
        return refuse_lines(alloc, one, other, read.stop, second.stop);
    }
    compare_programs(
        alloc,
        most,
        one,
        other,
        input,
        read.parsed.as_slice(),
        second.parsed.as_slice(),
        watch,
    )
}

// The report on two models.
fn compare_on<A: Handle, W: Watch>(
    alloc: A,
    compared: Compared,
    one: &Side<'_, A>,
    other: &Side<'_, A>,
    input: &[u8],
    watch: &mut W,
) -> Result<Report<A>, AllocError>
    ensures { IfOk result (λ report. IsAnswerOn compared one.now.model.now other.now.model.now input.now (output_of report)) }
{
    match compared {
        Compared::Answers => explain_answers(alloc, one, other, input),
        Compared::Ends(most) => compare_ends(alloc, most, one, other, input, watch),
    }
}

// The report on a model and the bytes of a second one.
fn compare_with<A: Handle, W: Watch>(
    alloc: A,
    asked: Asked<'_>,
    model: &Model<A>,
    other: &[u8],
    input: &[u8],
    watch: &mut W,
) -> Result<Report<A>, AllocError>
    ensures { IfOk result (λ report. IsAnswerWith asked.entry.compared model.now (of_either other.now) input.now (output_of report)) }
{
    match read_model(alloc, other) {
        Ok(second) => {
            let one = Side {
                name: asked.model,
                model,
            };
            let two = Side {
                name: asked.other,
                model: &second,
            };
            compare_on(alloc, asked.compared, &one, &two, input, watch)
        }
        Err(ModelError::Fault(fault)) => refuse_other(alloc, asked.other, fault),
        Err(ModelError::Memory) => Err(AllocError),
    }
}

/// The report for the bytes of two models and of an input. It refuses the input if a model is faulty, if a model can't read
/// a line of programs, or if a search finds more points than allowed.
pub fn compared<A: Handle, W: Watch>(
    alloc: A,
    asked: Asked<'_>,
    model: &[u8],
    other: &[u8],
    input: &[u8],
    watch: &mut W,
) -> Result<Report<A>, AllocError>
    ensures { IfOk result (λ report. IsAnswer A asked.entry.compared model.now other.now input.now (output_of report)) }
{
    match read_model(alloc, model) {
        Ok(first) => compare_with(alloc, asked, &first, other, input, watch),
        Err(ModelError::Fault(fault)) => refuse_model(alloc, fault),
        Err(ModelError::Memory) => Err(AllocError),
    }
}

// The longer of the bytes of two models; the first if they are equally long.
fn longer<'a>(model: &'a [u8], other: &'a [u8]) -> &'a [u8]
    ensures { result.now ≡ longer model.now other.now }
{
    if model.len() < other.len() {
        other
    } else {
        model
    }
}

/// Reads the whole input, and writes at once where the models of these bytes differ on it. Returns `Unread` and `Unwritten`
/// as the other commands do: if the input can't be read, nothing is written.
pub fn compare_tool<A: Handle, W: Watch, S: Source, K: Sink>(
    alloc: A,
    asked: Asked<'_>,
    model: &[u8],
    other: &[u8],
    input: &mut S,
    output: &mut K,
    watch: &mut W,
) -> Outcome
    ensures answers { IfSome (S.remaining input.old) (λ bytes. AnswersBy result (IsAnswer A asked.entry.compared model.now other.now bytes) (K.contents output.old) (K.contents output.new)) }
    ensures unread { KeepsUnread result (K.contents output.old) (K.contents output.new) }
    ensures written { WritesBy result (K.has_failed output.old) (K.has_failed output.new) }
    ensures reads { S.reads input.new ≤ S.reads input.old + 16777217 }
    ensures failed { FailsBy (reason_of result) (S.has_failed input.old) (S.has_failed input.new) }
    ensures too_long { IsUnreadTooLong (longer model.now other.now) (S.remaining input.old) (reason_of result) }
{
    let longest = longer(model, other);
    let bytes = match read_within(alloc, longest, input) {
        Ok(bytes) => bytes,
        Err(reason) => return Outcome::Unread(reason),
    };
    match compared(alloc, asked, model, other, bytes.as_slice(), watch) {
        Ok(report) => write_report(&report, output),
        Err(_) => Outcome::Unread(ReadFault::Memory),
    }
}
