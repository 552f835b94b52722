//! The faults at the place that a walk has reached, axiom by axiom.

ghost use Rattle.std.specs.Prelude.{◌≡◌, ◌++◌, not, map, filter, OnOk};
ghost use Rattle.acta_table.specs.Sets.{numbers_of, is_named};
ghost use Rattle.acta_axioms.specs.declared.fault.Axiom.TheVariants.{PartiesInProgress, Responsible, HandsWhole, Conflict};
ghost use Rattle.acta_axioms.specs.Operations.{access_set};
ghost use Rattle.acta_axioms.specs.Faults.{faults_at, faults_of, has_number, transferred_unheld, idle_party, in_conflict, kept_back};
ghost use Rattle.acta_judge.specs.inside.Places.{faults_by, out_of_course, out_of_model, badly_transferred, badly_operated, too_late};

use crate::places::{
    begun_again, ended_again, ended_unbegun, idle, ill_formed, not_allowed, not_in_time,
    operated_idle, party, refuses, wants_whole, without_heir, wrong_return,
};
use crate::reporting::Breach;
use acta_axioms::{Axiom, Fault, Handle, Walk};
use acta_table::{Event, Kept, OpNo, OpSet, TxnId};
use std::alloc::AllocError;

// A possible breach of the axiom at this place.
fn breach(broken: Axiom, place: u32) -> Breach
    ensures { result ≡ record { broken = broken; place = place } }
{
    Breach { broken, place }
}

// Begins, ends and operations of a transaction with the wrong status.
fn report_course<'a, A: Handle>(
    walk: &Walk<'a, A>,
    place: u32,
    event: &Event<A>,
    faults: &mut Vec<Fault, A>,
) -> Result<(), AllocError>
    ensures { OnOk result (faults.new.items ≡ faults.old.items ++ (faults_by place (out_of_course walk.now.front event.now))) }
{
    breach(Axiom::BegunOnce, place).report_any(begun_again(walk, event), faults)?;
    breach(Axiom::EndedAfterBegun, place).report_any(ended_unbegun(walk, event), faults)?;
    breach(Axiom::EndedOnce, place).report_any(ended_again(walk, event), faults)?;
    breach(Axiom::OperatesInProgress, place).report_any(operated_idle(walk, event), faults)
}

// Events that the model lacks or does not allow.
fn report_model<'a, A: Handle>(
    walk: &Walk<'a, A>,
    place: u32,
    event: &Event<A>,
    faults: &mut Vec<Fault, A>,
) -> Result<(), AllocError>
    ensures { OnOk result (faults.new.items ≡ faults.old.items ++ (faults_by place (out_of_model walk.now.model walk.now.front event.now))) }
{
    breach(Axiom::FormOfEvent, place).report_any(ill_formed(walk.model(), event), faults)?;
    breach(Axiom::Allowed, place).report_any(not_allowed(walk, event), faults)
}

// Parties that are not in progress.
fn report_party<'a, A: Handle>(
    walk: &Walk<'a, A>,
    place: u32,
    event: &Event<A>,
    faults: &mut Vec<Fault, A>,
) -> Result<(), AllocError>
    ensures { OnOk result (faults.new.items ≡ faults.old.items ++ (faults_of PartiesInProgress place (idle_party walk.now.front event.now))) }
{
    let breach = breach(Axiom::PartiesInProgress, place);
    let (one, other) = party(event);
    breach.report_any(idle(walk, one), faults)?;
    breach.report_any(idle(walk, other), faults)
}

// The operations of the set that the transaction does not hold in progress.
fn report_unheld<'a, A: Handle>(
    walk: &Walk<'a, A>,
    breach: Breach,
    t: TxnId,
    ops: &[OpNo],
    faults: &mut Vec<Fault, A>,
) -> Result<(), AllocError>
    ensures { OnOk result (faults.new.items ≡ faults.old.items ++ (faults_of breach.broken breach.place (filter (λ o. not (has_number (map (λ q. q.number) (access_set walk.now.model walk.now.front t.0)) o)) (numbers_of ops.now)))) }
{
    for op in ops {
        if !walk.holds(t, *op) {
            breach.report(u64::from(op.0), faults)?;
        }
    }
    Ok(())
}

// The operations to be transferred that the acting transaction does not hold in progress.
fn report_transferred<'a, A: Handle>(
    walk: &Walk<'a, A>,
    place: u32,
    event: &Event<A>,
    faults: &mut Vec<Fault, A>,
) -> Result<(), AllocError>
    ensures { OnOk result (faults.new.items ≡ faults.old.items ++ (faults_of Responsible place (transferred_unheld walk.now.model walk.now.front event.now))) }
{
    match event {
        Event::Split(t, _, _, ops) | Event::Delegate(t, _, ops) => {
            report_unheld(
                walk,
                breach(Axiom::Responsible, place),
                *t,
                ops.as_slice(),
                faults,
            )
        }
        _ => Ok(()),
    }
}

// The held operations that are not in the set.
fn report_unnamed<A: Handle>(
    breach: Breach,
    held: &[OpNo],
    ops: &OpSet<A>,
    faults: &mut Vec<Fault, A>,
) -> Result<(), AllocError>
    ensures { OnOk result (faults.new.items ≡ faults.old.items ++ (faults_of breach.broken breach.place (filter (λ o. not (is_named ops.now o)) (numbers_of held.now)))) }
{
    for op in held {
        if !ops.has_number(op.0 as usize) {
            breach.report(u64::from(op.0), faults)?;
        }
    }
    Ok(())
}

// The operations that the transaction holds in progress and that are not in the set.
fn report_left<'a, A: Handle>(
    walk: &Walk<'a, A>,
    breach: Breach,
    t: TxnId,
    ops: &OpSet<A>,
    faults: &mut Vec<Fault, A>,
) -> Result<(), AllocError>
    ensures { OnOk result (faults.new.items ≡ faults.old.items ++ (faults_of breach.broken breach.place (filter (λ o. not (is_named ops.now o)) (map (λ q. q.number) (access_set walk.now.model walk.now.front t.0))))) }
{
    let held = walk.access_set(t)?;
    report_unnamed(breach, held.as_slice(), ops, faults)
}

// The operations that a transaction keeps back although it has to transfer all.
fn report_kept_back<'a, A: Handle>(
    walk: &Walk<'a, A>,
    place: u32,
    event: &Event<A>,
    faults: &mut Vec<Fault, A>,
) -> Result<(), AllocError>
    ensures { OnOk result (faults.new.items ≡ faults.old.items ++ (faults_of HandsWhole place (kept_back walk.now.model walk.now.front event.now))) }
{
    match event {
        Event::Split(t, _, _, ops) | Event::Delegate(t, _, ops) if wants_whole(walk, *t) => {
            report_left(walk, breach(Axiom::HandsWhole, place), *t, ops, faults)
        }
        _ => Ok(()),
    }
}

// Faults of the parties of an event, and of the operations that it transfers.
fn report_transfer<'a, A: Handle>(
    walk: &Walk<'a, A>,
    place: u32,
    event: &Event<A>,
    faults: &mut Vec<Fault, A>,
) -> Result<(), AllocError>
    ensures { OnOk result (faults.new.items ≡ faults.old.items ++ (faults_by place (badly_transferred walk.now.model walk.now.front event.now))) }
{
    report_party(walk, place, event, faults)?;
    report_transferred(walk, place, event, faults)?;
    report_kept_back(walk, place, event, faults)
}

// The operations that an operation conflicts with, if its transaction's class refuses conflicts.
fn report_conflicts<'a, A: Handle>(
    walk: &Walk<'a, A>,
    place: u32,
    event: &Event<A>,
    faults: &mut Vec<Fault, A>,
) -> Result<(), AllocError>
    ensures { OnOk result (faults.new.items ≡ faults.old.items ++ (faults_of Conflict place (in_conflict walk.now.model walk.now.front event.now))) }
{
    match event {
        Event::Operate(t, object, op) if refuses(walk, *t) => {
            let ops = walk.conflicting(*t, *object, op)?;
            breach(Axiom::Conflict, place).report_each(ops.as_slice(), faults)
        }
        _ => Ok(()),
    }
}

// Conflicts, and returns that are not due.
fn report_operation<'a, A: Handle>(
    walk: &Walk<'a, A>,
    place: u32,
    item: &Kept<A>,
    faults: &mut Vec<Fault, A>,
) -> Result<(), AllocError>
    ensures { OnOk result (faults.new.items ≡ faults.old.items ++ (faults_by place (badly_operated walk.now.model walk.now.front item.now.ret item.now.event))) }
{
    report_conflicts(walk, place, &item.event, faults)?;
    let by = wrong_return(walk, item)?;
    breach(Axiom::Return, place).report_any(by, faults)
}

// A commit without an heir, and a form event that comes too late.
fn report_lateness<'a, A: Handle>(
    walk: &Walk<'a, A>,
    place: u32,
    event: &Event<A>,
    faults: &mut Vec<Fault, A>,
) -> Result<(), AllocError>
    ensures { OnOk result (faults.new.items ≡ faults.old.items ++ (faults_by place (too_late walk.now.model walk.now.front event.now))) }
{
    breach(Axiom::Heir, place).report_any(without_heir(walk, event), faults)?;
    breach(Axiom::FormedInTime, place).report_any(not_in_time(walk, event), faults)
}

/// Adds the faults of the item at the place that the walk has reached.
pub(crate) fn report_item<'a, A: Handle>(
    walk: &Walk<'a, A>,
    item: &Kept<A>,
    faults: &mut Vec<Fault, A>,
) -> Result<(), AllocError>
    ensures { OnOk result (faults.new.items ≡ faults.old.items ++ (faults_at walk.now.model (record { before = walk.now.front; kept = item.now }))) }
{
    let place = walk.front().len() as u32 + 1;
    let event = &item.event;
    report_course(walk, place, event, faults)?;
    report_model(walk, place, event, faults)?;
    report_transfer(walk, place, event, faults)?;
    report_operation(walk, place, item, faults)?;
    report_lateness(walk, place, event, faults)
}
