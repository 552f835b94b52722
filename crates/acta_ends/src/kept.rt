//! The ends for which a condition holds.

ghost use Rattle.std.specs.Prelude.{◌≡◌, IfOk};
ghost use Rattle.acta_ends.specs.Conditions.{holds_at, kept_places};

use crate::condition::Condition;
use acta_explore::Explored;
use acta_machine::Handle;
use std::alloc::AllocError;

/// Whether there is an end at this place, from 0, and the condition holds for it.
pub(crate) fn is_kept<A: Handle>(
    explored: &Explored<A>,
    condition: &Condition<A>,
    place: usize,
) -> bool
    ensures { result ≡ holds_at condition.now explored.now.outcomes place }
{
    match explored.outcome(place) {
        Some(outcome) => condition.holds(outcome),
        None => false,
    }
}

/// The places, from 0, of the ends for which the condition holds, in order.
pub fn kept_ends<A: Handle>(
    alloc: A,
    explored: &Explored<A>,
    condition: &Condition<A>,
) -> Result<Vec<usize, A>, AllocError>
    ensures { IfOk result (λ places. places.items ≡ kept_places condition.now explored.now) }
{
    (0..explored.len())
        .filter(|place| is_kept(explored, condition, *place))
        .collect(alloc)
}
