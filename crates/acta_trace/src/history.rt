//! The history of a machine, as lines.

ghost use Rattle.std.specs.Prelude.{◌≡◌, ◌++◌, map, IfOk, OnOk};
ghost use Rattle.acta_script.specs.Writing.{kept_line};
ghost use Rattle.acta_trace.specs.Lines.{event_line_in};
ghost use Rattle.acta_words.specs.Text.{text_of};

use acta_machine::{Handle, Machine};
use acta_script::{write_event, write_kept};
use acta_table::{Kept, Model};
use acta_words::push_line;
use std::alloc::AllocError;

/// Adds the kept lines of the history: its events with their returns.
pub fn push_kept_lines<A: Handle>(
    alloc: A,
    machine: &Machine<A>,
    text: &mut Vec<u8, A>,
) -> Result<(), AllocError>
    ensures { OnOk result (text.new.items ≡ text.old.items ++ text_of (map (kept_line machine.now.model) machine.now.kept)) }
{
    for kept in machine.history() {
        let line = write_kept(alloc, machine.model(), kept)?;
        push_line(text, line.as_slice())?;
    }
    Ok(())
}

// The event line of a kept item.
fn event_line_of<A: Handle>(
    alloc: A,
    model: &Model<A>,
    kept: &Kept<A>,
) -> Result<Vec<u8, A>, AllocError>
    ensures { IfOk result (λ line. line.items ≡ event_line_in model.now kept.now) }
{
    write_event(alloc, model, &kept.event)
}

/// Adds the event lines of the history.
pub fn push_event_lines<A: Handle>(
    alloc: A,
    machine: &Machine<A>,
    text: &mut Vec<u8, A>,
) -> Result<(), AllocError>
    ensures { OnOk result (text.new.items ≡ text.old.items ++ text_of (map (event_line_in machine.now.model) machine.now.kept)) }
{
    for kept in machine.history() {
        let line = event_line_of(alloc, machine.model(), kept)?;
        push_line(text, line.as_slice())?;
    }
    Ok(())
}
