//! Whether a refused event can be admitted later, derived from the reason for the refusal.

ghost use Rattle.std.specs.Prelude.{◌≡◌, if◌then◌else◌, option_map, IfOk, IfSome};
ghost use Rattle.acta_machine.specs.Changes.{summary_of};
ghost use Rattle.acta_machine.specs.Reasons.{refusal_of, IsSo};
ghost use Rattle.acta_machine.specs.Table.{refusal_in};
ghost use Rattle.acta_deps.specs.Statuses.{has_ended};
ghost use Rattle.acta_hope.specs.Hopes.{HasForce, Holds, IsWhy, MayBeUnreported};
ghost use Rattle.acta_hope.specs.Parts.{IsOfBlockingEdge, IsOfBegun, IsOfClash, IsOfConflict, IsOfEdges, IsOfHeld, IsOfLeftOut, holds_on, is_no_operation, is_wd, exempts_none};

use crate::releases::{class_of, may_do};
use acta_machine::{BlockingEdge, Clash, Handle, Machine, NumberedOp, Reason};
use acta_table::{Dep, Event, EventKind, Fate, MOST_EVENTS, OpNo, Rule, Scope, Status, TxnId};
use std::alloc::AllocError;

/// What must happen before a refused event can be admitted.
#[derive(Clone, Copy, PartialEq, Eq, Debug)]
pub enum Hope {
    /// No later events let the machine admit it.
    Never,
    /// It can be admitted only once the transaction has begun.
    OnceBegun(TxnId),
    /// It can be admitted only once the transaction holds the operation in progress.
    OnceHeld(TxnId, OpNo),
    /// It can be admitted only once the transaction has committed or aborted.
    OnceDecided(TxnId),
    /// It can be admitted only once the transaction has committed.
    OnceCommitted(TxnId),
    /// It can be admitted only once the transaction has aborted.
    OnceAborted(TxnId),
    /// It can be admitted only once the operation no longer blocks it: the operation has ended, the acting transaction or
    /// one that its class exempts holds it, or its holder has permitted the acting transaction to work on the object.
    OnceFree(OpNo),
    /// It can be admitted only once the transaction no longer holds the operation in progress.
    OnceReleased(TxnId, OpNo),
    /// It can be admitted only once at least one of the present conflicting holders is no longer one.
    OnceFewer,
    /// Nothing is known.
    Unknown,
}

// The hope if a transaction with this status has to be in progress.
fn once_begun(txn: TxnId, status: Status) -> Hope
    ensures { IsOfBegun txn status result }
{
    match status {
        Status::NotBegun => Hope::OnceBegun(txn),
        Status::InProgress => Hope::Unknown,
        Status::Committed | Status::Aborted | Status::Joined => Hope::Never,
    }
}

// The hope if the acting transaction has to hold the operation in progress.
fn once_held<A: Handle>(event: &Event<A>, number: OpNo) -> Hope
    ensures { IsOfHeld event.now number result }
{
    match event.acting() {
        Some(txn) => Hope::OnceHeld(txn, number),
        None => Hope::Unknown,
    }
}

// The hope if the acting transaction may not hold the operation in progress.
fn once_released<A: Handle>(event: &Event<A>, number: OpNo) -> Hope
    ensures { IsOfLeftOut event.now number result }
{
    match event.acting() {
        Some(txn) => Hope::OnceReleased(txn, number),
        None => Hope::Unknown,
    }
}

fn has_ended(status: Status) -> bool
    ensures { result ≡ has_ended status }
{
    !matches!(status, Status::NotBegun | Status::InProgress)
}

// `Never` if `is_over`, otherwise the given hope.
fn never_or(is_over: bool, hope: Hope) -> Hope
    ensures { result ≡ (if is_over then Hope.Never else hope) }
{
    if is_over { Hope::Never } else { hope }
}

// The hope if an edge in force blocks the event.
fn blocked(blocking_edge: &BlockingEdge) -> Hope
    ensures { IsOfBlockingEdge blocking_edge.now result }
{
    let i = blocking_edge.by.edge.i;
    let is_over = has_ended(blocking_edge.i);
    let is_late = has_ended(blocking_edge.j);
    match blocking_edge.rule {
        Rule::BeginDep => Hope::OnceBegun(i),
        Rule::SerialDep => never_or(is_over, Hope::OnceDecided(i)),
        Rule::TerminationDep => never_or(is_over, Hope::OnceDecided(i)),
        Rule::BeginOnCommit => never_or(is_over, Hope::OnceCommitted(i)),
        Rule::BeginOnAbort => never_or(is_over, Hope::OnceAborted(i)),
        Rule::OwesAbort => never_or(is_over, Hope::Unknown),
        Rule::OwesCommit => never_or(is_over, Hope::Unknown),
        Rule::CommitOrder => never_or(is_late, Hope::Unknown),
        Rule::Unpayable => never_or(is_late, Hope::Unknown),
        Rule::WeakBegin => Hope::Never,
        _ => Hope::Unknown,
    }
}

fn is_wd(kind: Dep) -> bool
    ensures { result ≡ is_wd kind }
{
    matches!(kind, Dep::Wd)
}

// The hope if a transaction would owe both a commit and an abort; `i` is the status of the transaction on which it depends
// by the abort's edge. By WD a transaction owes no abort if it commits before the other aborts.
fn owes_both(clash: &Clash, i: Status) -> Hope
    ensures { IsOfClash clash.now i result }
{
    if is_wd(clash.abort.edge.kind) && !has_ended(i) {
        Hope::OnceCommitted(clash.commit.edge.j)
    } else {
        Hope::Never
    }
}

// Whether the transaction has begun, and its class allows no event that gives up or permits its operations.
fn holds_on<A: Handle>(machine: &Machine<A>, holder: TxnId) -> bool
    ensures { result ≡ holds_on machine.now.model (summary_of machine.now.model machine.now.kept) holder.0 }
{
    !matches!(machine.status(holder), Status::NotBegun)
        && !may_do(machine, holder, EventKind::Commit)
        && !may_do(machine, holder, EventKind::Abort)
        && !may_do(machine, holder, EventKind::Join)
        && !may_do(machine, holder, EventKind::Delegate)
        && !may_do(machine, holder, EventKind::Split)
        && !may_do(machine, holder, EventKind::Permit)
}

// Whether the class of the transaction exempts none of its ancestors.
fn exempts_none<A: Handle>(machine: &Machine<A>, txn: TxnId) -> bool
    ensures { result ≡ exempts_none machine.now.model (summary_of machine.now.model machine.now.kept) txn.0 }
{
    match class_of(machine, txn) {
        Some(class) => matches!(class.scope, Scope::Others),
        None => true,
    }
}

// The hope if an operation blocks the event.
fn in_conflict<A: Handle>(machine: &Machine<A>, event: &Event<A>, op: &NumberedOp) -> Hope
    ensures { IsOfConflict machine.now.model (summary_of machine.now.model machine.now.kept) event.now op.now result }
{
    match event {
        Event::Operate(txn, _, _)
            if exempts_none(machine, *txn) && holds_on(machine, op.held.holder) => { Hope::Never }
        _ => Hope::OnceFree(op.number),
    }
}

// The hope if the event would exceed the limit of edges in force.
fn too_many_edges<A: Handle>(event: &Event<A>) -> Hope
    ensures { IsOfEdges event.now result }
{
    match event {
        Event::Operate(_, _, _) => Hope::OnceFewer,
        _ => Hope::Never,
    }
}

// Whether no history can have an operation of this number.
fn is_no_operation(number: OpNo) -> bool
    ensures { result ≡ is_no_operation number.0 }
{
    number.0 == 0 || number.0 as usize > MOST_EVENTS
}

/// The hope for an event that the machine refuses for this reason.
pub fn hope_of<A: Handle>(machine: &Machine<A>, event: &Event<A>, reason: &Reason) -> Hope
    requires { IsWhy machine.now event.now reason.now }
    ensures hope { Holds machine.now event.now result }
    ensures reported { result ≡ Hope.Unknown → MayBeUnreported reason.now }
{
    match *reason {
        Reason::Full
        | Reason::Form(_)
        | Reason::AlreadyBegun { .. }
        | Reason::NotInModel(_)
        | Reason::FormTooLate { .. } => Hope::Never,
        Reason::NotInProgress { txn, status } => once_begun(txn, status),
        Reason::PartnerNotInProgress { txn, status } => once_begun(txn, status),
        Reason::NoHeir { parent, status } => once_begun(parent, status),
        Reason::NotResponsible(op) => {
            match op.held.fate {
                Fate::InProgress => once_held(event, op.number),
                Fate::Committed | Fate::Aborted => Hope::Never,
            }
        }
        Reason::BadSet { number, .. } => {
            if is_no_operation(number) {
                Hope::Never
            } else {
                once_held(event, number)
            }
        }
        Reason::Blocked(blocking_edge) => blocked(&blocking_edge),
        Reason::Clash(clash) => owes_both(&clash, machine.status(clash.abort.edge.i)),
        Reason::EdgesFull => too_many_edges(event),
        Reason::PartialDelegation(op) => once_released(event, op.number),
        Reason::Conflict(op) => in_conflict(machine, event, &op),
    }
}

/// Why the machine would refuse the event next, with the hope for it; `None` if the machine would admit it. Returns `Err` if
/// memory runs out.
pub fn why_and_hope<A: Handle>(
    machine: &Machine<A>,
    event: &Event<A>,
) -> Result<Option<(Reason, Hope)>, AllocError>
    ensures refusal { IfOk result (λ reported. option_map (λ pair. refusal_of pair.0) reported ≡ refusal_in machine.now event.now) }
    ensures so { IfOk result (λ reported. IfSome reported (λ pair. IsSo machine.now.model (summary_of machine.now.model machine.now.kept) event.now pair.0)) }
    ensures force { IfOk result (λ reported. IfSome reported (λ pair. HasForce machine.now event.now pair.0)) }
    ensures hope { IfOk result (λ reported. IfSome reported (λ pair. Holds machine.now event.now pair.1)) }
    ensures reported { IfOk result (λ reported. IfSome reported (λ pair. pair.1 ≡ Hope.Unknown → MayBeUnreported pair.0)) }
{
    match machine.why(event)? {
        Some(reason) => {
            let hope = hope_of(machine, event, &reason);
            Ok(Some((reason, hope)))
        }
        None => Ok(None),
    }
}
