//! The answers as lines.

ghost use Rattle.std.specs.Prelude.{◌≡◌, ◌∷◌, [], codes, false, IfOk};
ghost use Rattle.acta_words.specs.Text.{text_of};
ghost use Rattle.acta_order.specs.Orders.{numbers_of};
ghost use Rattle.acta_io.specs.Reports.{refused_by};
ghost use Rattle.acta_io.specs.inside.Reports.{output_of};
ghost use Rattle.acta_serialize.specs.Answers.{SaysNone, order_line, undecided_line};

use crate::reasons::{History, explain_cause};
use acta_io::{Report, refuse_by};
use acta_machine::Handle;
use acta_order::Cause;
use acta_table::TxnId;
use acta_words::{push_line, push_natural, push_word};
use std::alloc::{AllocError, Allocator};

// The line of a serial order.
fn order_line<A: Allocator>(alloc: A, order: &[TxnId]) -> Result<Vec<u8, A>, AllocError>
    ensures { IfOk result (λ line. line.items ≡ order_line (numbers_of order.now)) }
{
    let mut line = Vec::new(alloc);
    line.extend_from_slice(b"order")?;
    for t in order {
        push_natural(&mut line, u64::from(t.0))?;
    }
    Ok(line)
}

/// The report on a serial order.
pub(crate) fn write_order<A: Allocator + Copy>(
    alloc: A,
    order: &[TxnId],
) -> Result<Report<A>, AllocError>
    ensures { IfOk result (λ report. output_of report ≡ record { is_refused = false; text = text_of (order_line (numbers_of order.now) ∷ []) }) }
{
    let line = order_line(alloc, order)?;
    let mut text = Vec::new(alloc);
    push_line(&mut text, line.as_slice())?;
    Ok(Report {
        text,
        is_refused: false,
    })
}

/// The report that no order is serial, and why.
pub(crate) fn write_none<A: Handle>(
    alloc: A,
    history: &History<'_, A>,
    cause: &Cause<A>,
) -> Result<Report<A>, AllocError>
    ensures { IfOk result (λ report. SaysNone (output_of report)) }
{
    let why = explain_cause(alloc, history, cause)?;
    let mut text = Vec::new(alloc);
    push_line(&mut text, b"no serial order")?;
    text.extend_from_slice(why.as_bytes())?;
    Ok(Report {
        text,
        is_refused: false,
    })
}

// The line that the search was given up after this many states.
fn undecided_line<A: Allocator>(alloc: A, most: u32) -> Result<Vec<u8, A>, AllocError>
    ensures { IfOk result (λ line. line.items ≡ undecided_line most) }
{
    let mut line = Vec::new(alloc);
    line.extend_from_slice(b"not decided after")?;
    push_natural(&mut line, u64::from(most))?;
    push_word(&mut line, b"states")?;
    Ok(line)
}

/// The report if the search was given up after this many states.
pub(crate) fn write_undecided<A: Allocator + Copy>(
    alloc: A,
    most: u32,
) -> Result<Report<A>, AllocError>
    ensures { IfOk result (λ report. output_of report ≡ refused_by (undecided_line most)) }
{
    let line = undecided_line(alloc, most)?;
    refuse_by(alloc, line.as_slice())
}
