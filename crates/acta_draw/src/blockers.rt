//! The parts of a picture that a refused event points to: the operation, the edges or the transaction that its reason names.

use acta_machine::Reason;
use acta_table::{Event, OpNo, TxnId};
use acta_trace::Steps;
use std::alloc::Allocator;

/// A part of a history that the reason of a refusal names.
#[derive(Clone, Copy, PartialEq, Eq, Debug)]
pub enum Blocker {
    /// The operation of this number.
    Operation(OpNo),
    /// The edge of this number.
    Edge(u32),
    /// The start of this transaction.
    Start(TxnId),
    /// The end of this transaction.
    End(TxnId),
}

impl Blocker {
    /// The number of the step that did the operation, formed the edge, or began or ended the transaction.
    pub fn step<A: Allocator>(self, steps: &Steps<A>) -> Option<usize> {
        match self {
            Blocker::Operation(op) => steps.operation(op),
            Blocker::Edge(number) => steps.edge(number),
            Blocker::Start(t) => steps.begin_of(t),
            Blocker::End(t) => steps.end_of(t),
        }
    }
}

/// The blockers of an event that was refused for this reason: two edges for a clash, and at most one blocker for another
/// reason.
pub fn blockers_of<A: Allocator>(event: &Event<A>, reason: Reason) -> [Option<Blocker>; 2] {
    let blocker = match reason {
        Reason::NotResponsible(op) | Reason::PartialDelegation(op) | Reason::Conflict(op) => {
            Blocker::Operation(op.number)
        }
        Reason::Blocked(blocking_edge) => Blocker::Edge(blocking_edge.by.number),
        Reason::Clash(clash) => {
            return [
                Some(Blocker::Edge(clash.commit.number)),
                Some(Blocker::Edge(clash.abort.number)),
            ];
        }
        Reason::AlreadyBegun { txn, .. } => Blocker::Start(txn),
        Reason::FormTooLate { txn, .. }
            if matches!(event, Event::Form(kind, _, _) if kind.is_begin_kind()) => {
            // (the kind limits when the transaction begins)
            Blocker::Start(txn)
        }
        Reason::FormTooLate { txn, .. }
        | Reason::NotInProgress { txn, .. }
        | Reason::PartnerNotInProgress { txn, .. } => Blocker::End(txn),
        Reason::NoHeir { parent, .. } => Blocker::End(parent),
        Reason::Full
        | Reason::Form(_)
        | Reason::NotInModel(_)
        | Reason::BadSet { .. }
        | Reason::EdgesFull => return [None, None],
    };
    [Some(blocker), None]
}
