//! A model tried on an input.

ghost use Rattle.std.specs.Prelude.{◌≡◌, length, IfOk, OnOk};
ghost use Rattle.acta_machine.specs.Table.{run_state};
ghost use Rattle.acta_io.specs.Input.{line_numbers};
ghost use Rattle.acta_words.specs.Text.{lines_of};
ghost use Rattle.acta_compare.specs.Seen.{events_in, seen_in};
ghost use Rattle.acta_compare.specs.inside.Lines.{seen_at, seen_from, state_at, state_from};

use crate::seen::Seen;
use acta_machine::{Handle, Machine};
use acta_script::{LineError, read_event};
use acta_table::Model;
use acta_words::{Lines, has_words};
use std::alloc::AllocError;

/// A model's answers to the lines of an input that have a word, and its machine after the last.
#[derive(Drop)]
pub struct Trial<A: Handle> {
    pub seen: Vec<Seen, A>,
    pub machine: Machine<A>,
}

// The machine's answer to the line, if it has a word. A line that the model can't read leaves the machine unchanged.
fn see<A: Handle>(
    alloc: A,
    machine: &mut Machine<A>,
    line: &[u8],
) -> Result<Option<Seen>, AllocError>
    ensures seen { IfOk result (λ seen. seen ≡ seen_at machine.old line.now) }
    ensures machine { OnOk result (machine.new ≡ state_at machine.old line.now) }
{
    if !has_words(line) {
        return Ok(None);
    }
    match read_event(alloc, machine.model(), line) {
        Ok(event) => Ok(Some(Seen::of(machine.take(&event)?))),
        Err(LineError::Fault(fault)) => Ok(Some(Seen::Unread(fault))),
        Err(LineError::Memory) => Err(AllocError),
    }
}

// The machine's answers to the lines of the input, one after another.
fn see_all<A: Handle>(
    alloc: A,
    machine: &mut Machine<A>,
    input: &[u8],
) -> Result<Vec<Seen, A>, AllocError>
    ensures seen { IfOk result (λ seen. seen.items ≡ seen_from machine.old (lines_of input.now)) }
    ensures machine { OnOk result (machine.new ≡ state_from machine.old (lines_of input.now)) }
{
    let mut seen = Vec::new(alloc);
    let mut lines = Lines::of(input);
    while let Some(line) = lines.next() {
        let Some(one) = see(alloc, machine, line)? else {
            continue;
        };
        seen.push(one)?;
    }
    Ok(seen)
}

impl<A: Handle> Trial<A> {
    /// Tries a model on an input: the lines that it can read are taken in order.
    pub fn of(alloc: A, model: &Model<A>, input: &[u8]) -> Result<Trial<A>, AllocError>
        ensures seen { IfOk result (λ trial. trial.seen.items ≡ seen_in model.now input.now) }
        ensures each { IfOk result (λ trial. length trial.seen.items ≡ length (line_numbers input.now)) }
        ensures machine { IfOk result (λ trial. trial.machine ≡ run_state model.now (events_in model.now input.now)) }
    {
        let mut machine = Machine::new(alloc, model.copy()?)?;
        let seen = see_all(alloc, &mut machine, input)?;
        Ok(Trial { seen, machine })
    }
}
