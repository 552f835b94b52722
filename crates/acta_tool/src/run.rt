//! The run of the tool over any reader and writer.

ghost use Rattle.std.specs.Prelude.{◌≡◌, ◌≤◌, ◌<◌, ◌+◌, ◌++◌, ◌⊎◌, false, length, vec_len, IfOk, IfErr, IfSome, MatchResult, None, Some};
ghost use Rattle.acta_script.specs.Reading.{event_of};
ghost use Rattle.acta_io.specs.Outcome.{Answers, FailsBy, IsUnreadTooLong, KeepsUnread, WritesBy, reason_of};
ghost use Rattle.acta_tool.specs.Outcome.{input_of, is_drive, reads_input};
ghost use Rattle.acta_tool.specs.Output.{output_on, run_on, reported, reported_last, tool_output};
ghost use Rattle.acta_io.specs.Input.{parsed_in};
ghost use Rattle.acta_words.specs.Text.{text_of};
ghost use Rattle.acta_io.specs.declared.source.ReadFault.TheVariants.{TooMuch as too_much};
ghost use Rattle.acta_io.specs.inside.Reports.{output_of};

use crate::args::{Args, Command};
use crate::debugging::debug_model;
use crate::judging::judge_model;
use crate::models::read_model_for;
use crate::rendering::{render_end, render_events};
use crate::serializing::serial_model;
use crate::tracing::trace_model;
use acta_image::write_image;
use acta_io::{
    BadLine, EventLines, MOST_BYTES, ModelError, Outcome, ReadFault, Report, Sink, Source,
    read_lines, read_within, refuse_model, write_report,
};
use acta_lang::print_model;
use acta_machine::{Handle, Machine, Run};
use acta_table::Model;
use std::alloc::{AllocError, Allocator};
use std::thread::Threads;

// The output of a run, which `stop` may have stopped: the answers and the debts, or only the kept events.
fn render_run<A: Handle>(
    alloc: A,
    is_kept: bool,
    run: &Run<A>,
    stop: Option<BadLine>,
) -> Result<Vec<u8, A>, AllocError>
    ensures { IfOk result (λ text. text.items ≡
        text_of (reported is_kept run.now.answers run.now.machine) ++ text_of (reported_last is_kept run.now.machine stop)) }
{
    let mut text = Vec::new(alloc);
    render_events(alloc, is_kept, run, &mut text)?;
    render_end(alloc, is_kept, &run.machine, stop, &mut text)?;
    Ok(text)
}

// The output of a run of the events of the input.
fn run_model<A: Handle>(
    alloc: A,
    is_kept: bool,
    model: Model<A>,
    input: &[u8],
) -> Result<Report<A>, AllocError>
    ensures { IfOk result (λ report. output_of report ≡ run_on is_kept model (parsed_in (event_of model) input.now)) }
{
    let lines = EventLines {
        alloc,
        model: &model,
    };
    let read = read_lines(alloc, &lines, input)?;
    let run = Machine::run(alloc, model, read.parsed.as_slice())?;
    let reported = render_run(alloc, is_kept, &run, read.stop);
    drop(run);
    Ok(Report {
        text: reported?,
        is_refused: read.stop.is_some(),
    })
}

// The output of a command on a model.
fn report_model<A: Handle + Send + Sync, R: Threads + Sync>(
    rt: &R,
    alloc: A,
    command: Command,
    model: Model<A>,
    input: &[u8],
) -> Result<Report<A>, AllocError>
    requires { is_drive command ≡ false }
    ensures { IfOk result (λ report. output_of report ≡ output_on command model input.now) }
{
    let text = match command {
        Command::Assemble => write_image(alloc, &model)?,
        Command::CheckImage => print_model(alloc, &model)?,
        Command::Upgrade => write_image(alloc, &model)?,
        Command::Run { kept } => return run_model(alloc, kept, model, input),
        Command::Trace => return trace_model(alloc, model, input),
        Command::Judge => return judge_model(rt, alloc, &model, input),
        Command::Debug => return debug_model(alloc, model, input),
        Command::Serial => return serial_model(alloc, model, input),
        Command::Drive { .. } => unreachable!(),
    };
    Ok(Report {
        text,
        is_refused: false,
    })
}

// The output for the bytes of a model and of an input.
fn answer<A: Handle + Send + Sync, R: Threads + Sync>(
    rt: &R,
    alloc: A,
    command: Command,
    model: &[u8],
    input: &[u8],
) -> Result<Report<A>, AllocError>
    requires { is_drive command ≡ false }
    ensures { IfOk result (λ report. output_of report ≡ tool_output A command model.now input.now) }
{
    match read_model_for(alloc, command, model) {
        Ok(model) => report_model(rt, alloc, command, model, input),
        Err(ModelError::Fault(fault)) => refuse_model(alloc, fault),
        Err(ModelError::Memory) => Err(AllocError),
    }
}

// The input, if the command reads it and neither it nor the model is too long.
fn read_input<A: Allocator, S: Source>(
    alloc: A,
    command: Command,
    model: &[u8],
    input: &mut S,
) -> Result<Vec<u8, A>, ReadFault>
    ensures bytes { IfOk result (λ v. IfSome (input_of command (S.remaining input.old)) (λ xs. v.items ≡ xs)) }
    ensures too_long { MatchResult result (λ _. IsUnreadTooLong model.now (input_of command (S.remaining input.old)) None) (λ e. IsUnreadTooLong model.now (input_of command (S.remaining input.old)) (Some e)) }
    ensures reads { S.reads input.new ≤ S.reads input.old + 16777217 }
    ensures failed { MatchResult result (λ _. FailsBy None (S.has_failed input.old) (S.has_failed input.new)) (λ e. FailsBy (Some e) (S.has_failed input.old) (S.has_failed input.new)) }
    ensures untouched { reads_input command ≡ false → input.new ≡ input.old }
{
    match command {
        Command::Assemble | Command::CheckImage | Command::Upgrade => {
            if model.len() > MOST_BYTES {
                Err(ReadFault::TooMuch)
            } else {
                Ok(Vec::new(alloc))
            }
        }
        Command::Run { .. }
        | Command::Trace
        | Command::Judge
        | Command::Debug
        | Command::Serial
        | Command::Drive { .. } => read_within(alloc, model, input),
    }
}

/// Reads the whole input, if the command reads it, runs the command on the model in the bytes, and writes the output at
/// once. Returns `Unread`, with nothing written, with `Device` if a read fails, with `TooMuch` if the model or the input is
/// over 16,777,216 bytes or the input doesn't end, and with `Memory` if memory runs out. Returns `Unwritten` if a write
/// fails. For `drive` use `drive_tool`.
pub fn run_tool<A: Handle + Send + Sync, R: Threads + Sync, S: Source, W: Sink>(
    rt: &R,
    alloc: A,
    args: &Args<'_>,
    model: &[u8],
    input: &mut S,
    output: &mut W,
) -> Outcome
    requires { is_drive args.now.command ≡ false }
    ensures answers { IfSome (input_of args.now.command (S.remaining input.old)) (λ bytes. Answers result (tool_output A args.now.command model.now bytes) (W.contents output.old) (W.contents output.new)) }
    ensures unread { KeepsUnread result (W.contents output.old) (W.contents output.new) }
    ensures written { WritesBy result (W.has_failed output.old) (W.has_failed output.new) }
    ensures reads { S.reads input.new ≤ S.reads input.old + 16777217 }
    ensures failed { FailsBy (reason_of result) (S.has_failed input.old) (S.has_failed input.new) }
    ensures too_long { IsUnreadTooLong model.now (input_of args.now.command (S.remaining input.old)) (reason_of result) }
    ensures untouched { reads_input args.now.command ≡ false → input.new ≡ input.old }
{
    let bytes = match read_input(alloc, args.command, model, input) {
        Ok(bytes) => bytes,
        Err(reason) => return Outcome::Unread(reason),
    };
    match answer(rt, alloc, args.command, model, bytes.as_slice()) {
        Ok(report) => write_report(&report, output),
        Err(_) => Outcome::Unread(ReadFault::Memory),
    }
}
