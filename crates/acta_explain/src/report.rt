//! The report for the bytes of a model and of an input.

ghost use Rattle.std.specs.Prelude.{◌≡◌, ◌≤◌, ◌+◌, true, false, Ok, IfOk, IfSome};
ghost use Rattle.acta_io.specs.Outcome.{FailsBy, IsUnreadTooLong, KeepsUnread, WritesBy, reason_of};
ghost use Rattle.acta_io.specs.Models.{of_either};
ghost use Rattle.acta_io.specs.Refusals.{EndsAs, refuses};

use crate::images::put_image_fault;
use crate::judged::explain_judged;
use crate::run::{explain_run, explain_script, explain_seated};
use crate::texts::put_text_fault;
use acta_args::ModelName;
use acta_io::{
    LineKind, ModelError, NoModel, Outcome, ReadFault, Report, Sink, Source, read_model,
    read_within, refuse_model, write_report,
};
use acta_machine::Handle;
use acta_prose::{Prose, name_text, put, put_lines, put_model_name, report_of};
use acta_table::Model;
use std::alloc::{AllocError, Global};
use std::thread::Threads;

/// The report on bytes that are not a model: the line that all commands write, and the description of the fault.
pub fn explain_no_model<A: Handle>(
    alloc: A,
    name: ModelName<'_>,
    bytes: &[u8],
    fault: NoModel,
) -> Result<Report<A>, AllocError>
    ensures { IfOk result (λ report. report.is_refused ≡ true) }
{
    let prose = Prose::new(alloc);
    let words = match fault {
        NoModel::Text(fault) => {
            let prose = put_model_name(put!(prose; fault.code.name(), ", at "), name);
            put_text_fault(prose, alloc, bytes)
        }
        NoModel::Image(fault) => {
            let prose = put_model_name(put!(prose; fault.name(), " in "), name);
            put_image_fault(prose, alloc, bytes)
        }
    };
    let words = words.done()?;
    let report = refuse_model(alloc, fault)?;
    let prose = Prose::new(alloc).put(name_text(report.text.as_slice()));
    report_of(put_lines(prose, words.as_str()), true)
}

// The report on a model.
fn explain_on<A: Handle + Send + Sync, R: Threads + Sync>(
    rt: &R,
    alloc: A,
    kind: LineKind,
    model: Model<A>,
    input: &[u8],
) -> Result<Report<A>, AllocError>
    ensures { IfOk result (λ report. report.is_refused ≡ refuses kind (Ok model) input.now) }
{
    match kind {
        LineKind::Events => explain_run(alloc, model, input),
        LineKind::Kept => explain_judged(rt, alloc, &model, input),
        LineKind::Seated => explain_seated(alloc, model, input),
        LineKind::Script => explain_script(alloc, model, input),
    }
}

/// The report for the bytes of a model with this name and of an input with lines of this kind. It refuses the input if the
/// model or a line is faulty, or if there are more kept lines than can be judged.
pub fn explain<A: Handle + Send + Sync, R: Threads + Sync>(
    rt: &R,
    alloc: A,
    kind: LineKind,
    name: ModelName<'_>,
    model: &[u8],
    input: &[u8],
) -> Result<Report<A>, AllocError>
    ensures { IfOk result (λ report. report.is_refused ≡ refuses {A = A} kind (of_either model.now) input.now) }
{
    match read_model(alloc, model) {
        Ok(model) => explain_on(rt, alloc, kind, model, input),
        Err(ModelError::Fault(fault)) => explain_no_model(alloc, name, model, fault),
        Err(ModelError::Memory) => Err(AllocError),
    }
}

/// Reads the whole input, and writes at once the report that explains it on the model of these bytes and this name. Returns
/// `Unread` and `Unwritten` as the other commands do: if the input can't be read, nothing is written.
pub fn explain_tool<A: Handle + Send + Sync, R: Threads + Sync, S: Source, W: Sink>(
    rt: &R,
    alloc: A,
    kind: LineKind,
    name: ModelName<'_>,
    model: &[u8],
    input: &mut S,
    output: &mut W,
) -> Outcome
    ensures status { IfSome (S.remaining input.old) (λ bytes. EndsAs result (refuses {A = A} kind (of_either model.now) bytes)) }
    ensures unread { KeepsUnread result (W.contents output.old) (W.contents output.new) }
    ensures written { WritesBy result (W.has_failed output.old) (W.has_failed output.new) }
    ensures reads { S.reads input.new ≤ S.reads input.old + 16777217 }
    ensures failed { FailsBy (reason_of result) (S.has_failed input.old) (S.has_failed input.new) }
    ensures too_long { IsUnreadTooLong model.now (S.remaining input.old) (reason_of result) }
{
    let bytes = match read_within(alloc, model, input) {
        Ok(bytes) => bytes,
        Err(reason) => return Outcome::Unread(reason),
    };
    match explain(rt, alloc, kind, name, model, bytes.as_slice()) {
        Ok(report) => write_report(&report, output),
        Err(_) => Outcome::Unread(ReadFault::Memory),
    }
}

/// Writes words, and reads nothing. Returns `Unwritten` if a write fails.
pub fn write_words<W: Sink>(words: String, output: &mut W) -> Outcome {
    let report: Report<Global> = Report {
        text: words.into_bytes(),
        is_refused: false,
    };
    write_report(&report, output)
}
