//! Reports: the output, before it is written.

ghost use Rattle.std.specs.Prelude.{◌≡◌, ◌∷◌, [], false, true, IfOk, None};
ghost use Rattle.acta_words.specs.Text.{text_of};
ghost use Rattle.acta_io.specs.Outcome.{Answers, WritesBy, reason_of};
ghost use Rattle.acta_io.specs.Reports.{refused_model, stop_line};
ghost use Rattle.acta_io.specs.inside.Reports.{output_of};

use crate::faults::{push_no_model, push_stop};
use crate::input::BadLine;
use crate::models::NoModel;
use crate::outcome::Outcome;
use crate::sink::Sink;
use acta_words::push_line;
use std::alloc::{AllocError, Allocator};

/// The output, and whether the input was refused.
#[derive(Drop)]
pub struct Report<A: Allocator> {
    pub text: Vec<u8, A>,
    pub is_refused: bool,
}

// A refusal with this text.
fn refusal<A: Allocator>(text: Vec<u8, A>) -> Report<A>
    ensures { output_of result ≡ record { is_refused = true; text = text.items } }
{
    Report {
        text,
        is_refused: true,
    }
}

/// The report on bytes that are not a model.
pub fn refuse_model<A: Allocator>(alloc: A, fault: NoModel) -> Result<Report<A>, AllocError>
    ensures { IfOk result (λ report. output_of report ≡ refused_model fault) }
{
    let mut text = Vec::new(alloc);
    push_no_model(&mut text, fault)?;
    Ok(refusal(text))
}

/// The report on a faulty line.
pub fn refuse_line<A: Allocator>(alloc: A, stop: BadLine) -> Result<Report<A>, AllocError>
    ensures { IfOk result (λ report. output_of report ≡ record { is_refused = true; text = text_of (stop_line stop ∷ []) }) }
{
    let mut text = Vec::new(alloc);
    push_stop(&mut text, stop)?;
    Ok(refusal(text))
}

/// A refusal with this line alone.
pub fn refuse_by<A: Allocator>(alloc: A, line: &[u8]) -> Result<Report<A>, AllocError>
    ensures { IfOk result (λ report. output_of report ≡ record { is_refused = true; text = text_of (line.now ∷ []) }) }
{
    let mut text = Vec::new(alloc);
    push_line(&mut text, line)?;
    Ok(refusal(text))
}

/// Writes a report in one go.
pub fn write_report<A: Allocator, W: Sink>(report: &Report<A>, output: &mut W) -> Outcome
    ensures answers { Answers result (output_of report.now) (W.contents output.old) (W.contents output.new) }
    ensures written { WritesBy result (W.has_failed output.old) (W.has_failed output.new) }
    ensures read { reason_of result ≡ None }
{
    if output.put(report.text.as_slice()).is_err() {
        Outcome::Unwritten
    } else if report.is_refused {
        Outcome::Refused
    } else {
        Outcome::Done
    }
}
