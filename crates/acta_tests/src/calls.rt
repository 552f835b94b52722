//! The functions with the strongest contracts, each wrapped in a function without one: tests compare results when they run.

use acta_axioms::{Places, SerialItem, Walk};
use acta_deps::Deps;
use acta_machine::{Handle, Machine, Permit, Reason, Run, SerialError};
use acta_table::{Answer, Event, Items, Kept, MOST_EVENTS, Model, Owed, TxnId};
use std::alloc::AllocError;

/// A machine on a copy of the model.
pub fn new_machine<A: Handle>(alloc: A, model: &Model<A>) -> Result<Machine<A>, AllocError> {
    Machine::new(alloc, model.copy()?)
}

/// A run on a copy of the model.
pub fn run_on<A: Handle>(
    alloc: A,
    model: &Model<A>,
    events: &[Event<A>],
) -> Result<Run<A>, AllocError> {
    Machine::run(alloc, model.copy()?, events)
}

/// The machine's answer to the event.
pub fn take<A: Handle>(machine: &mut Machine<A>, event: &Event<A>) -> Result<Answer, AllocError> {
    machine.take(event)
}

/// Why the machine would refuse the event.
pub fn why<A: Handle>(
    machine: &Machine<A>,
    event: &Event<A>,
) -> Result<Option<Reason>, AllocError> {
    machine.why(event)
}

/// A chain of waiting transactions from this one on that ends in a cycle.
pub fn waits_for_cycle<A: Handle>(
    machine: &Machine<A>,
    t: TxnId,
) -> Result<Option<Items<TxnId, A>>, AllocError> {
    machine.waits_for_cycle(t)
}

/// A copy of the machine.
pub fn copy_of<A: Handle>(machine: &Machine<A>) -> Result<Machine<A>, AllocError> {
    machine.copy()
}

/// A copy of the table of dependencies.
pub fn copy_of_deps<A: Handle>(deps: &Deps<A>) -> Result<Deps<A>, AllocError> {
    deps.copy()
}

/// The permits in force.
pub fn permits_of<A: Handle>(machine: &Machine<A>) -> Result<Vec<Permit, A>, AllocError> {
    machine.permits()
}

/// The machine's debts.
pub fn owed_by<A: Handle>(machine: &Machine<A>) -> Result<Vec<Owed, A>, AllocError> {
    machine.owed()
}

/// The machine's committed operations in serial order.
pub fn serial_of<A: Handle>(machine: &Machine<A>) -> Result<Items<SerialItem, A>, SerialError> {
    machine.serial()
}

/// A walk before its first step, on a list that is no longer than a history may be.
pub fn walk_of<'a, A: Handle>(
    alloc: A,
    model: &'a Model<A>,
    kept: &'a [Kept<A>],
) -> Result<Walk<'a, A>, AllocError> {
    if kept.len() > MOST_EVENTS {
        return Err(AllocError);
    }
    Walk::of(alloc, model, kept)
}

/// The places of such a list.
pub fn places_of<'a, A: Handle>(
    alloc: A,
    model: &'a Model<A>,
    kept: &'a [Kept<A>],
) -> Result<Places<'a, A>, AllocError> {
    if kept.len() > MOST_EVENTS {
        return Err(AllocError);
    }
    Places::of(alloc, model, kept)
}
