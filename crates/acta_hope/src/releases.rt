//! How the holder of an operation can give it up, so that it no longer blocks an event.

ghost use Rattle.std.specs.Prelude.{◌≡◌, true, option_map};
ghost use Rattle.acta_machine.specs.Changes.{summary_of};
ghost use Rattle.acta_machine.specs.Families.{ancestors_of, class_of, heir_of};
ghost use Rattle.acta_machine.specs.Rules.{txn_may};
ghost use Rattle.acta_machine.specs.Table.{operations_in};
ghost use Rattle.acta_sets.specs.Operations.{is_among, operation_at};
ghost use Rattle.acta_hope.specs.Releases.{IsReleased, frees_at_commit, is_exempt, may_be_released, may_release};

use acta_machine::{Handle, Machine};
use acta_sets::HeldOp;
use acta_table::{AtCommit, Class, Event, EventKind, OpNo, Scope, TxnId};

/// A way in which a holder gives up an operation or permits another transaction.
#[derive(Clone, Copy, PartialEq, Eq, Debug)]
pub enum Release {
    /// It commits.
    Commit,
    /// It aborts.
    Abort,
    /// It delegates the operation to the blocked transaction.
    Delegate,
    /// It joins that transaction.
    Join,
    /// It permits that transaction to work on the object.
    Permit,
}

/// The class that the transaction began with.
pub(crate) fn class_of<A: Handle>(machine: &Machine<A>, t: TxnId) -> Option<&Class<A>>
    ensures { option_map (λ class. class.now) result ≡ class_of machine.now.model (summary_of machine.now.model machine.now.kept) t.0 }
{
    let class = machine.class(t)?;
    machine.model().class(class)
}

/// Whether the class of the transaction has the event in its `may`.
pub(crate) fn may_do<A: Handle>(machine: &Machine<A>, t: TxnId, kind: EventKind) -> bool
    ensures { result ≡ txn_may machine.now.model (summary_of machine.now.model machine.now.kept) t.0 kind }
{
    match class_of(machine, t) {
        Some(class) => class.may.has(kind),
        None => false,
    }
}

/// The heir of the transaction's operations when it commits: its parent, if its class commits to parents. Otherwise `None`:
/// the operations are committed.
pub fn heir<A: Handle>(machine: &Machine<A>, t: TxnId) -> Option<TxnId>
    ensures { result ≡ heir_of machine.now.model (summary_of machine.now.model machine.now.kept) t.0 }
{
    match class_of(machine, t) {
        Some(class) => match class.at_commit {
            AtCommit::ToParent => machine.parent(t),
            AtCommit::Keeps => None,
        },
        None => None,
    }
}

/// Whether `u` is an ancestor of `t`: its parent, or an ancestor of its parent.
pub fn is_ancestor<A: Handle>(machine: &Machine<A>, t: TxnId, u: TxnId) -> bool
    ensures { result ≡ is_among (ancestors_of (summary_of machine.now.model machine.now.kept) t.0) u }
{
    let mut next = machine.parent(t);
    for _ in 0..machine.history().len() {
        let Some(parent) = next else {
            return false;
        };
        if parent.0 == u.0 {
            return true;
        }
        next = machine.parent(parent);
    }
    false
}

// Whether an operation of `u` never blocks `t`: `u` is `t`, or an ancestor that the class of `t` exempts.
fn is_exempt<A: Handle>(machine: &Machine<A>, t: TxnId, u: TxnId) -> bool
    ensures { result ≡ is_exempt machine.now.model (summary_of machine.now.model machine.now.kept) t.0 u }
{
    if u.0 == t.0 {
        return true;
    }
    match class_of(machine, t) {
        Some(class) => match class.scope {
            Scope::NonAncestors => is_ancestor(machine, t, u),
            Scope::Others => false,
        },
        None => false,
    }
}

// Whether after a commit of the holder its operations no longer block `t`.
fn frees_at_commit<A: Handle>(machine: &Machine<A>, t: TxnId, holder: TxnId) -> bool
    ensures { result ≡ frees_at_commit machine.now.model (summary_of machine.now.model machine.now.kept) t.0 holder.0 }
{
    match heir(machine, holder) {
        Some(parent) => is_exempt(machine, t, parent),
        None => true,
    }
}

// Whether the holder may release its operations in this way for `t`.
fn may_release<A: Handle>(machine: &Machine<A>, t: TxnId, holder: TxnId, release: Release) -> bool
    ensures { result ≡ may_release machine.now.model (summary_of machine.now.model machine.now.kept) t.0 holder.0 release }
{
    match release {
        Release::Commit => {
            may_do(machine, holder, EventKind::Commit) && frees_at_commit(machine, t, holder)
        }
        Release::Abort => may_do(machine, holder, EventKind::Abort),
        Release::Delegate => may_do(machine, holder, EventKind::Delegate),
        Release::Join => may_do(machine, holder, EventKind::Join),
        Release::Permit => may_do(machine, holder, EventKind::Permit),
    }
}

/// The operation with this number, with its holder and its fate. `None` if there is none.
pub fn operation_at<A: Handle>(machine: &Machine<A>, number: OpNo) -> Option<HeldOp>
    ensures { result ≡ operation_at (operations_in machine.now) number.0 }
{
    let place = (number.0 as usize).checked_sub(1)?;
    machine.operations().get(place).copied()
}

/// Whether the class of the operation's holder allows this release. If so, the operation no longer blocks the event right
/// after the holder's release is admitted. `false` if the event is not an operation, or if there is no operation with this
/// number.
pub fn is_released<A: Handle>(
    machine: &Machine<A>,
    event: &Event<A>,
    number: OpNo,
    release: Release,
) -> bool
    ensures may { result ≡ may_be_released machine.now event.now number release }
    ensures gone { result ≡ true → IsReleased machine.now event.now number release }
{
    let Event::Operate(t, _, _) = event else {
        return false;
    };
    match operation_at(machine, number) {
        Some(op) => may_release(machine, *t, op.holder, release),
        None => false,
    }
}
