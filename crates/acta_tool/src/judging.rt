//! The command `judge`: the verdict on the kept items of an input.

ghost use Rattle.std.specs.Prelude.{◌≡◌, ◌∷◌, [], false, None, IfOk};
ghost use Rattle.acta_script.specs.Reading.{kept_of};
ghost use Rattle.acta_words.specs.Text.{text_of};
ghost use Rattle.acta_tool.specs.Output.{judge_on, judged_on, verdict_lines};
ghost use Rattle.acta_io.specs.Input.{parsed_in};
ghost use Rattle.acta_io.specs.inside.Reports.{output_of};

use crate::rendering::render_verdict;
use acta_io::{KeptLines, Report, read_lines, refuse_by, refuse_line};
use acta_judge::{JudgeError, Verdict, judge};
use acta_machine::Handle;
use acta_table::{Kept, Model};
use std::alloc::{AllocError, Allocator};
use std::thread::Threads;

// The output for a verdict.
fn report_verdict<A: Allocator + Copy>(
    alloc: A,
    verdict: &Verdict<A>,
) -> Result<Report<A>, AllocError>
    ensures { IfOk result (λ report. output_of report ≡ record { is_refused = false; text = text_of (verdict_lines verdict.now) }) }
{
    let mut text = Vec::new(alloc);
    render_verdict(alloc, verdict, &mut text)?;
    Ok(Report {
        text,
        is_refused: false,
    })
}

// The output for kept items.
fn judge_kept<A: Handle + Send + Sync, R: Threads + Sync>(
    rt: &R,
    alloc: A,
    model: &Model<A>,
    kept: &[Kept<A>],
) -> Result<Report<A>, AllocError>
    ensures { IfOk result (λ report. output_of report ≡ judged_on model.now kept.now None) }
{
    match judge(rt, alloc, model, kept) {
        Ok(verdict) => report_verdict(alloc, &verdict),
        Err(JudgeError::TooLong) => refuse_by(alloc, b"judge fault 1"),
        Err(JudgeError::Memory) => Err(AllocError),
    }
}

/// The output for the kept lines of the input.
pub fn judge_model<A: Handle + Send + Sync, R: Threads + Sync>(
    rt: &R,
    alloc: A,
    model: &Model<A>,
    input: &[u8],
) -> Result<Report<A>, AllocError>
    ensures { IfOk result (λ report. output_of report ≡ judge_on model.now (parsed_in (kept_of model.now) input.now)) }
{
    let lines = KeptLines { alloc, model };
    let read = read_lines(alloc, &lines, input)?;
    match read.stop {
        Some(stop) => refuse_line(alloc, stop),
        None => judge_kept(rt, alloc, model, read.parsed.as_slice()),
    }
}
