//! What an event is on the lanes: a mark on the lane of the transaction that does it, perhaps one on the lane of its partner,
//! and a tie between the two.

use crate::canvas::Ink;
use acta_prose::first_named;
use acta_table::{Event, LAST_TXN, OpNo, TxnId};
use acta_trace::Step;
use std::alloc::Allocator;

/// A mark on a lane.
#[derive(Clone, Copy, PartialEq, Eq, Debug)]
pub enum Mark {
    /// The transaction starts.
    Start,
    /// It does this operation.
    Operation(OpNo),
    /// It does something else, or comes to depend.
    Point,
    /// Something is done to it, and it goes on.
    Met,
    /// It commits, and has ended.
    Committed,
    /// It aborts, and has ended.
    Aborted,
    /// It joins another, and has ended.
    Joined,
    /// An event of it is refused.
    Refused,
    /// It owes an event.
    Owes,
}

impl Mark {
    /// How the mark looks: its character and colour in a text, and its class in an SVG. The number of an operation follows the
    /// character.
    pub fn look(self) -> (char, Ink, &'static str) {
        match self {
            Mark::Start => ('o', Ink::Plain, "start"),
            Mark::Operation(_) => ('*', Ink::Plain, "operation"),
            Mark::Point => ('*', Ink::Plain, "point"),
            Mark::Met => ('|', Ink::Faint, "met"),
            Mark::Committed => ('C', Ink::Good, "committed"),
            Mark::Aborted => ('A', Ink::Bad, "aborted"),
            Mark::Joined => ('J', Ink::Plain, "joined"),
            Mark::Refused => ('x', Ink::Bad, "cross"),
            Mark::Owes => ('!', Ink::Bad, "owes"),
        }
    }
}

/// How two lanes are tied to one another, from the transaction that does the event to the other.
#[derive(Clone, Copy, PartialEq, Eq, Debug)]
pub enum Tie {
    /// The first starts the second.
    Starts,
    /// The first transfers operations to the second.
    Hands,
    /// The first permits the second something.
    Permits,
    /// The first depends on the second.
    Depends,
}

/// A mark, and on whose lane it is.
#[derive(Clone, Copy, PartialEq, Eq, Debug)]
pub struct Marked {
    pub txn: TxnId,
    pub mark: Mark,
}

/// What an event is on the lanes.
#[derive(Clone, Copy, PartialEq, Eq, Debug)]
pub struct Figure {
    pub actor: Marked,
    /// The partner, and how the two are tied.
    pub partner: Option<(Marked, Tie)>,
}

// A mark that is tied to no other lane.
fn alone(txn: TxnId, mark: Mark) -> Figure {
    Figure {
        actor: Marked { txn, mark },
        partner: None,
    }
}

// A mark that is tied to the lane of a partner.
fn tied(txn: TxnId, mark: Mark, tie: Tie, partner: TxnId) -> Figure {
    let other = match tie {
        Tie::Starts => Mark::Start,
        Tie::Hands | Tie::Permits | Tie::Depends => Mark::Met,
    };
    Figure {
        actor: Marked { txn, mark },
        partner: Some((
            Marked {
                txn: partner,
                mark: other,
            },
            tie,
        )),
    }
}

/// What a step is on the lanes. A refused event is a cross on the lane of the transaction that was to do it. `heir` is the
/// parent to which a commit transfers what its child held.
pub fn figure_of<A: Allocator>(step: &Step<A>, heir: Option<TxnId>) -> Figure {
    if !step.is_admitted() {
        return alone(first_named(&step.event), Mark::Refused);
    }
    match &step.event {
        Event::Begin(t, _) => alone(*t, Mark::Start),
        Event::Spawn(t, u, _) => tied(*t, Mark::Point, Tie::Starts, *u),
        Event::Split(t, u, _, _) => tied(*t, Mark::Point, Tie::Starts, *u),
        Event::Join(t, u) => tied(*t, Mark::Joined, Tie::Hands, *u),
        Event::Delegate(t, u, _) => tied(*t, Mark::Point, Tie::Hands, *u),
        Event::Permit(t, u, _) => tied(*t, Mark::Point, Tie::Permits, *u),
        Event::Form(_, j, i) => tied(*j, Mark::Point, Tie::Depends, *i),
        Event::Operate(t, _, _) => match step.op {
            Some(op) => alone(*t, Mark::Operation(op)),
            None => alone(*t, Mark::Point),
        },
        Event::Commit(t) => match heir {
            Some(parent) => tied(*t, Mark::Committed, Tie::Hands, parent),
            None => alone(*t, Mark::Committed),
        },
        Event::Abort(t) => alone(*t, Mark::Aborted),
    }
}

/// Whether a transaction can have this number, and so a lane.
pub fn has_lane(t: TxnId) -> bool {
    1 <= t.0 && t.0 <= LAST_TXN
}
