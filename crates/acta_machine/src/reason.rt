//! Why an event is refused.

ghost use Rattle.std.specs.Prelude.{◌≡◌};
ghost use Rattle.acta_machine.specs.Reasons.{refusal_of};

use acta_deps::{Block, BlockingEdge, Clash};
use acta_objects::FormFault;
use acta_sets::HeldOp;
use acta_table::{ClassId, EventKind, OpNo, Refusal, Rule, Status, TxnId};

/// A permission of the model's classes that an event needs but lacks.
#[derive(Clone, Copy, PartialEq, Eq, Debug)]
pub enum Lack {
    /// The class does not allow starts by such an event.
    Start {
        class: ClassId,
        kind: EventKind,
    },
    /// The transaction's class does not allow it to do such an event, or it has none.
    Doing {
        txn: TxnId,
        class: Option<ClassId>,
        kind: EventKind,
    },
    /// No class of the model may form edges.
    Forming,
}

/// An operation with its number.
#[derive(Clone, Copy, PartialEq, Eq, Debug)]
pub struct NumberedOp {
    pub number: OpNo,
    pub held: HeldOp,
}

/// Why an event is refused: the lowest rule that it breaks, and the part of the machine's state that breaks it.
#[derive(Clone, Copy, PartialEq, Eq, Debug)]
pub enum Reason {
    /// The history has as many events as it may.
    Full,
    /// The form of the event is wrong: one of the rules from `BadNumber` to `SameTransaction`.
    Form(FormFault),
    /// The transaction that does the event is not in progress; its status.
    NotInProgress { txn: TxnId, status: Status },
    /// The transaction that the event starts has begun before; its status.
    AlreadyBegun { txn: TxnId, status: Status },
    /// The classes do not allow the event.
    NotInModel(Lack),
    /// The transaction that is joined, delegated to or permitted is not in progress; its status.
    PartnerNotInProgress { txn: TxnId, status: Status },
    /// The acting transaction does not hold an operation that the event names in progress: the lowest.
    NotResponsible(NumberedOp),
    /// An operation that must be transferred is not named: the lowest.
    PartialDelegation(NumberedOp),
    /// The event names an operation that does not exist: the lowest number, and how many operations there are.
    BadSet { number: OpNo, operations: usize },
    /// The lowest operation that conflicts with the event, and whose holder is not exempt.
    Conflict(NumberedOp),
    /// One of the edge's transactions has already begun or ended; its status.
    FormTooLate { txn: TxnId, status: Status },
    /// More edges would be in force than there may be.
    EdgesFull,
    /// An edge in force blocks the event: one of the rules from `BeginDep` to `Unpayable`.
    Blocked(BlockingEdge),
    /// A transaction would owe both a commit and an abort, by these edges.
    Clash(Clash),
    /// The parent, which would inherit the operations, is not in progress; its status.
    NoHeir { parent: TxnId, status: Status },
}

impl Reason {
    /// The broken rule, with the number that the rule names.
    pub fn refusal(self) -> Refusal
        ensures { result ≡ refusal_of self }
    {
        match self {
            Reason::Full => Refusal::of(Rule::Full),
            Reason::Form(fault) => fault.refusal(),
            Reason::NotInProgress { txn, .. } => {
                Refusal::by(Rule::NotInProgress, u32::from(txn.0))
            }
            Reason::AlreadyBegun { txn, .. } => Refusal::by(Rule::AlreadyBegun, u32::from(txn.0)),
            Reason::NotInModel(_) => Refusal::of(Rule::NotInModel),
            Reason::PartnerNotInProgress { txn, .. } => {
                Refusal::by(Rule::PartnerNotInProgress, u32::from(txn.0))
            }
            Reason::NotResponsible(op) => Refusal::by(Rule::NotResponsible, op.number.0),
            Reason::PartialDelegation(op) => Refusal::by(Rule::PartialDelegation, op.number.0),
            Reason::BadSet { number, .. } => Refusal::by(Rule::BadSet, number.0),
            Reason::Conflict(op) => Refusal::by(Rule::Conflict, op.number.0),
            Reason::FormTooLate { txn, .. } => Refusal::by(Rule::FormTooLate, u32::from(txn.0)),
            Reason::EdgesFull => Refusal::of(Rule::EdgesFull),
            Reason::Blocked(blocking_edge) => Block::Edge(blocking_edge).refusal(),
            Reason::Clash(clash) => Block::Clash(clash).refusal(),
            Reason::NoHeir { parent, .. } => Refusal::by(Rule::NoHeir, u32::from(parent.0)),
        }
    }
}
