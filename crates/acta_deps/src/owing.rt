//! Notes on which edges transactions owe by. They are hints: whoever uses one looks at the edge again, so nothing rests on
//! them but speed. With a note, a change need not go over all the edges of a transaction that depends on many.

ghost use Rattle.std.specs.Prelude.{◌≡◌, map};

use crate::debt::debt_by;
use crate::edge_list::EdgeList;
use acta_table::{Edge, Status, TxnId, lengthen};
use std::alloc::{AllocError, Allocator};

/// For each transaction, the number of an edge by which it owed an event when that was noted, or 0.
pub(crate) type Notes<A> = Vec<u16, A>;

/// Makes room for a note on each transaction that depends by one of the edges.
pub(crate) fn make_room<A: Allocator>(
    notes: &mut Notes<A>,
    edges: &[Edge],
) -> Result<(), AllocError> {
    for e in edges {
        lengthen(notes, e.j.0 as usize + 1, 0)?;
    }
    Ok(())
}

// The status of a transaction.
fn status_in(statuses: &[Status], t: TxnId) -> Status {
    match statuses.get(t.0 as usize) {
        Some(status) => *status,
        None => Status::NotBegun,
    }
}

// Notes the edge with this number, if its dependent transaction owes by it.
fn note_edge<A: Allocator>(notes: &mut Notes<A>, statuses: &[Status], edges: &[Edge], number: u16) {
    let Some(e) = edges.get((number as usize).saturating_sub(1)) else {
        return;
    };
    if debt_by(e.kind, status_in(statuses, e.i), status_in(statuses, e.j)).is_some()
        && let Some(noted) = notes.get_mut(e.j.0 as usize)
    {
        *noted = number;
    }
}

/// Notes the edges on `t` by which transactions owe.
pub(crate) fn note<A: Allocator>(
    notes: &mut Notes<A>,
    statuses: &[Status],
    edges: &EdgeList<A>,
    t: TxnId,
) {
    let places = edges.by_i();
    let mut place = places.last(t);
    while place > 0 {
        note_edge(notes, statuses, edges.as_slice(), place);
        place = places.before(place);
    }
}
