//! The lines of one end.

ghost use Rattle.std.specs.Prelude.{◌≡◌, ◌++◌, OnOk};
ghost use Rattle.acta_words.specs.Text.{text_of};
ghost use Rattle.acta_explore.specs.inside.Shown.{shown};
ghost use Rattle.acta_ends.specs.EndLines.{end_lines};

use crate::lines::{push_choices, push_order, push_returns};
use crate::states::{push_debts, push_statuses, push_values};
use crate::waits::{push_head, push_waits};
use acta_explore::{Outcome, Step};
use acta_script::ProgramLine;
use acta_table::Model;
use std::alloc::{AllocError, Allocator};

/// Writes the lines of the end with this number: how the programs ended, and the steps of the first order that leads to
/// it.
pub(crate) fn push_end<A: Allocator>(
    text: &mut Vec<u8, A>,
    model: &Model<A>,
    lines: &[ProgramLine<A>],
    numbers: &[usize],
    number: usize,
    outcome: &Outcome<A>,
    steps: &[Step],
) -> Result<(), AllocError>
    ensures { OnOk result (text.new.items ≡ text.old.items ++ text_of (end_lines model.now lines.now numbers.now number (shown outcome.now) steps.now)) }
{
    push_head(text, number, outcome)?;
    push_waits(text, numbers, outcome.waits.as_slice())?;
    push_statuses(text, outcome.statuses.as_slice())?;
    push_values(text, model, outcome.values.as_slice())?;
    push_debts(text, outcome.debts.as_slice())?;
    push_choices(text, lines, numbers, outcome.lines.as_slice())?;
    push_returns(text, numbers, outcome.lines.as_slice())?;
    push_order(text, lines, numbers, steps)?;
    Ok(())
}
