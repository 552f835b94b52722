//! The ends on only one of two models.

ghost use Rattle.std.specs.Prelude.{◌≡◌, ◌↔◌, length, IfOk, IsTrue};
ghost use Rattle.std.specs.List.{Contains, range_with_len};
ghost use Rattle.acta_explore.specs.inside.Shown.{shown};
ghost use Rattle.acta_compare.specs.OnlyIn.{HasOutcomes, IsOnlyIn};
ghost use Rattle.acta_compare.specs.Selected.{Selects};

use acta_explore::{Explored, Outcome};
use acta_machine::Handle;
use std::alloc::AllocError;

// Whether an end has this outcome.
fn has_outcome<A: Handle>(explored: &Explored<A>, outcome: &Outcome<A>) -> bool
    requires { HasOutcomes explored.now }
    ensures { IsTrue result ↔ Contains explored.now.outcomes (shown outcome.now) }
{
    for place in 0..explored.len() {
        let Some(one) = explored.outcome(place) else {
            break;
        };
        if one == outcome {
            return true;
        }
    }
    false
}

/// The places, from 0, of the ends of the first whose outcome no end of the second has, in order.
pub fn only_in<A: Handle>(
    alloc: A,
    explored: &Explored<A>,
    other: &Explored<A>,
) -> Result<Vec<usize, A>, AllocError>
    requires one { HasOutcomes explored.now }
    requires other { HasOutcomes other.now }
    ensures { IfOk result (λ places. Selects (IsOnlyIn explored.now.outcomes other.now.outcomes) (range_with_len 0 (length explored.now.ends)) places.items) }
{
    let mut places = Vec::new(alloc);
    for place in 0..explored.len() {
        let Some(outcome) = explored.outcome(place) else {
            break;
        };
        if !has_outcome(other, outcome) {
            places.push(place)?;
        }
    }
    Ok(places)
}
