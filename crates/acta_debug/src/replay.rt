//! Replays: a machine takes the events of a history, or finds that a list is not one.

ghost use Rattle.std.specs.Prelude.{◌≡◌, ◌≤◌, ℕ, length, Decides, Err, IfNone, IfOk, IfSome, IsOkUnless, OnOk};
ghost use Rattle.acta_table.specs.declared.answer.Answer.TheVariants.{Admitted};
ghost use Rattle.acta_table.specs.declared.limits.TheConstants.{MOST_EVENTS};
ghost use Rattle.acta_machine.specs.Places.{FollowsPlaces};
ghost use Rattle.acta_machine.specs.Table.{after_all, fresh};
ghost use Rattle.acta_debug.specs.Histories.{IsFirstOther, IsHistory, events_in, state_at};
ghost use Rattle.acta_debug.specs.inside.Shown.{AreFronts};
ghost use Rattle.acta_debug.specs.declared.errors.NewError.TheVariants as new;

use crate::errors::NewError;
use crate::recording::Recording;
use acta_machine::{Handle, Machine};
use acta_table::{Answer, Kept, Model, Ret};
use std::alloc::AllocError;

/// Lets the machine take the events of the items, in order. On `Err` some may have been taken.
pub fn take_events<A: Handle>(machine: &mut Machine<A>, items: &[Kept<A>]) -> Result<(), AllocError>
    requires { FollowsPlaces machine.old }
    ensures machine { OnOk result (machine.new ≡ after_all machine.old (events_in items.now)) }
    ensures follows { OnOk result (FollowsPlaces machine.new) }
{
    for item in items {
        machine.take(&item.event)?;
    }
    Ok(())
}

// Whether the answer admits an event at this place, with this return.
fn is_admitted(answer: Answer, place: u32, ret: Option<Ret>) -> bool
    ensures { Decides result (answer ≡ Admitted place ret) }
{
    answer == (Answer::Admitted { place, ret })
}

// Lets a new recording take the events of the items, in order, up to the first that is not admitted with the return of
// its item. Returns the place of that item, from 1, or `None` if all were kept. On `Err` some may have been taken.
fn first_other_on<A: Handle>(
    recording: &mut Recording<A>,
    items: &[Kept<A>],
) -> Result<Option<u32>, AllocError>
    requires { recording.old ≡ fresh recording.old.model }
    ensures history { IfOk result (λ other. IfNone other (IsHistory recording.old.model items.now)) }
    ensures few { IfOk result (λ other. IfNone other (length items.now ≤ MOST_EVENTS)) }
    ensures other { IfOk result (λ other. IfSome other (IsFirstOther recording.old.model items.now)) }
    ensures kept { IfOk result (λ other. IfNone other (recording.new ≡ record { model = recording.old.model; kept = items.now })) }
    ensures taken { IfOk result (λ other. IfSome other (λ place. recording.new ≡ state_at recording.old.model items.now place)) }
{
    let mut place = 1;
    for item in items {
        let answer = recording.take(&item.event)?;
        if !is_admitted(answer, place, item.ret) {
            return Ok(Some(place));
        }
        place = recording.machine().history().len() as u32 + 1;
    }
    Ok(None)
}

/// The checkpoints along the items, if they are a history. Otherwise `NotAHistory` has the first place, from 1, that
/// does not fit. Returns `Memory` if memory runs out.
pub fn accepted<A: Handle>(
    alloc: A,
    model: &Model<A>,
    items: &[Kept<A>],
) -> Result<Vec<Machine<A>, A>, NewError>
    ensures only { OnOk result (IsHistory model.now items.now) }
    ensures few { OnOk result (length items.now ≤ MOST_EVENTS) }
    ensures fronts { IfOk result (λ checkpoints. AreFronts model.now items.now checkpoints.items) }
    ensures accepted { IsHistory model.now items.now → IsOkUnless result new.Memory }
    ensures other { (n : ℕ) → result ≡ Err (new.NotAHistory n) → IsFirstOther model.now items.now n }
{
    let mut recording = Recording::new(alloc, model.copy()?, items.len())?;
    match first_other_on(&mut recording, items) {
        Ok(None) => Ok(recording.checkpoints()?),
        Ok(Some(place)) => {
            drop(recording);
            Err(NewError::NotAHistory(place))
        }
        Err(error) => {
            drop(recording);
            Err(NewError::from(error))
        }
    }
}
