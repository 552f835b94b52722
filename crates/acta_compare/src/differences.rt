//! The lines at which two models answer differently.

ghost use Rattle.std.specs.Prelude.{◌≡◌, length, IfOk, slice_get};
ghost use Rattle.acta_machine.specs.Table.{run_state};
ghost use Rattle.acta_io.specs.Input.{line_numbers};
ghost use Rattle.acta_compare.specs.Differences.{Differs, compared, compared_lines};
ghost use Rattle.acta_compare.specs.Seen.{events_in};
ghost use Rattle.acta_compare.specs.Selected.{Selects};

use crate::seen::Seen;
use crate::trial::Trial;
use acta_io::numbers_of_lines;
use acta_machine::Handle;
use acta_table::Model;
use std::alloc::{AllocError, Allocator};

/// The answers of two models to the line with this number.
#[derive(Clone, Copy, PartialEq, Eq, Debug)]
pub struct Difference {
    pub line: usize,
    pub one: Seen,
    pub other: Seen,
}

// The answers of both models to the line at this place, from 0, among those that have a word.
fn compared_at(numbers: &[usize], one: &[Seen], other: &[Seen], place: usize) -> Option<Difference>
    ensures { result ≡ slice_get (compared numbers.now one.now other.now) place }
{
    Some(Difference {
        line: *numbers.get(place)?,
        one: *one.get(place)?,
        other: *other.get(place)?,
    })
}

// The lines at which the answers of two models differ; `numbers` has the number of each line.
fn differing<A: Allocator>(
    alloc: A,
    numbers: &[usize],
    one: &[Seen],
    other: &[Seen],
) -> Result<Vec<Difference, A>, AllocError>
    ensures { IfOk result (λ found. Selects Differs (compared numbers.now one.now other.now) found.items) }
{
    let mut found = Vec::new(alloc);
    for place in 0..numbers.len() {
        let Some(line) = compared_at(numbers, one, other, place) else {
            break;
        };
        if !line.one.is_same(line.other) {
            found.push(line)?;
        }
    }
    Ok(found)
}

/// Two models tried on the same input.
#[derive(Drop)]
pub struct Comparison<A: Handle> {
    /// How many lines have a word.
    pub lines: usize,
    /// The lines at which the answers differ, in order, with both answers.
    pub differences: Vec<Difference, A>,
    pub one: Trial<A>,
    pub other: Trial<A>,
}

impl<A: Handle> Comparison<A> {
    /// Tries both models on the input.
    pub fn of(
        alloc: A,
        model: &Model<A>,
        other: &Model<A>,
        input: &[u8],
    ) -> Result<Comparison<A>, AllocError>
        ensures lines { IfOk result (λ c. c.lines ≡ length (line_numbers input.now)) }
        ensures differences { IfOk result (λ c. Selects Differs (compared_lines model.now other.now input.now) c.differences.items) }
        ensures one { IfOk result (λ c. c.one.machine ≡ run_state model.now (events_in model.now input.now)) }
        ensures other { IfOk result (λ c. c.other.machine ≡ run_state other.now (events_in other.now input.now)) }
    {
        let numbers = numbers_of_lines(alloc, input)?;
        let one = Trial::of(alloc, model, input)?;
        let other = Trial::of(alloc, other, input)?;
        let differences = differing(
            alloc,
            numbers.as_slice(),
            one.seen.as_slice(),
            other.seen.as_slice(),
        )?;
        Ok(Comparison {
            lines: numbers.len(),
            differences,
            one,
            other,
        })
    }
}
