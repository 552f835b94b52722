//! The report for the bytes of a model and of a history.

ghost use Rattle.std.specs.Prelude.{◌≡◌, ◌≤◌, ◌+◌, false, IfOk, IfSome};
ghost use Rattle.acta_io.specs.Outcome.{AnswersBy, FailsBy, IsUnreadTooLong, KeepsUnread, WritesBy, reason_of};
ghost use Rattle.acta_io.specs.inside.Reports.{output_of};
ghost use Rattle.acta_serialize.specs.Answers.{IsAnswer, IsAnswerOn, IsOfHistory, SaysNone};

use crate::answers::{write_none, write_order, write_undecided};
use crate::args::Asked;
use crate::reasons::History;
use acta_io::{
    KeptLines, ModelError, NonBlankLine, Outcome, ReadFault, Report, Sink, Source, read_lines,
    read_model, read_within, refuse_by, refuse_line, refuse_model, write_report,
};
use acta_machine::Handle;
use acta_order::{Cause, Order, OrderFault, serial_order_of};
use acta_table::{Kept, Model};
use std::alloc::AllocError;

// The report that no order is serial.
fn explain_none<A: Handle>(
    alloc: A,
    model: &Model<A>,
    lines: &[NonBlankLine<'_>],
    kept: &[Kept<A>],
    cause: &Cause<A>,
) -> Result<Report<A>, AllocError>
    ensures { IfOk result (λ report. SaysNone (output_of report)) }
{
    let history = History {
        alloc,
        model,
        kept,
        lines,
    };
    write_none(alloc, &history, cause)
}

// The report on a history.
fn serialize<A: Handle>(
    alloc: A,
    asked: Asked<'_>,
    model: &Model<A>,
    lines: &[NonBlankLine<'_>],
    kept: &[Kept<A>],
) -> Result<Report<A>, AllocError>
    ensures { IfOk result (λ report. IsOfHistory asked.entry.orders asked.entry.most model.now kept.now (output_of report)) }
{
    match serial_order_of(alloc, model, kept, asked.orders, u64::from(asked.most)) {
        Ok(Order::Found(order)) => write_order(alloc, order.as_slice()),
        Ok(Order::NoOrder(cause)) => explain_none(alloc, model, lines, kept, &cause),
        Err(OrderFault::TooMany) => write_undecided(alloc, asked.most),
        Err(OrderFault::TooLong) => refuse_by(alloc, b"serialize fault 1"),
        Err(OrderFault::Memory) => Err(AllocError),
    }
}

// The report on a model.
fn serialize_on<A: Handle>(
    alloc: A,
    asked: Asked<'_>,
    model: &Model<A>,
    input: &[u8],
) -> Result<Report<A>, AllocError>
    ensures { IfOk result (λ report. IsAnswerOn asked.entry.orders asked.entry.most model.now input.now (output_of report)) }
{
    let read = read_lines(alloc, &KeptLines { alloc, model }, input)?;
    match read.stop {
        Some(stop) => refuse_line(alloc, stop),
        None => serialize(
            alloc,
            asked,
            model,
            read.lines.as_slice(),
            read.parsed.as_slice(),
        ),
    }
}

/// The report for the bytes of a model and of a history's kept lines.
pub fn serialized<A: Handle>(
    alloc: A,
    asked: Asked<'_>,
    model: &[u8],
    input: &[u8],
) -> Result<Report<A>, AllocError>
    ensures { IfOk result (λ report. IsAnswer A asked.entry.orders asked.entry.most model.now input.now (output_of report)) }
{
    match read_model(alloc, model) {
        Ok(model) => serialize_on(alloc, asked, &model, input),
        Err(ModelError::Fault(fault)) => refuse_model(alloc, fault),
        Err(ModelError::Memory) => Err(AllocError),
    }
}

/// Reads the whole input, and writes at once a serial order of its kept lines on the model of these bytes, or that there is
/// none. Returns `Unread` and `Unwritten` as the other commands do: if the input can't be read, nothing is written.
pub fn serialize_tool<A: Handle, S: Source, K: Sink>(
    alloc: A,
    asked: Asked<'_>,
    model: &[u8],
    input: &mut S,
    output: &mut K,
) -> Outcome
    ensures answers { IfSome (S.remaining input.old) (λ bytes. AnswersBy result (IsAnswer A asked.entry.orders asked.entry.most model.now bytes) (K.contents output.old) (K.contents output.new)) }
    ensures unread { KeepsUnread result (K.contents output.old) (K.contents output.new) }
    ensures written { WritesBy result (K.has_failed output.old) (K.has_failed output.new) }
    ensures reads { S.reads input.new ≤ S.reads input.old + 16777217 }
    ensures failed { FailsBy (reason_of result) (S.has_failed input.old) (S.has_failed input.new) }
    ensures too_long { IsUnreadTooLong model.now (S.remaining input.old) (reason_of result) }
{
    let bytes = match read_within(alloc, model, input) {
        Ok(bytes) => bytes,
        Err(reason) => return Outcome::Unread(reason),
    };
    match serialized(alloc, asked, model, bytes.as_slice()) {
        Ok(report) => write_report(&report, output),
        Err(_) => Outcome::Unread(ReadFault::Memory),
    }
}
