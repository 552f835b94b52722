//! Edges that are formed in a table of dependencies, each allocation refused in turn. By their kinds nothing is owed.

use crate::expecting::made;
use crate::refused::{Setting, at_least, refuse};
use crate::shown::{of_deps, put};
use acta_deps::Deps;
use acta_machine::Handle;
use acta_table::{Dep, Edge, LAST_TXN, MOST_EDGES, Status, TxnId};
use refusing::{Case, Refusing};
use std::alloc::{AllocError, Allocator};
use std::process::Abort;

const CD_OF_2: Edge = Edge {
    kind: Dep::Cd,
    j: TxnId(2),
    i: TxnId(1),
};

const CD_OF_4: Edge = Edge {
    kind: Dep::Cd,
    j: TxnId(4),
    i: TxnId(1),
};

const CD_OF_5: Edge = Edge {
    kind: Dep::Cd,
    j: TxnId(5),
    i: TxnId(16_383),
};

const TD_OF_3: Edge = Edge {
    kind: Dep::Td,
    j: TxnId(3),
    i: TxnId(1),
};

const TD_OF_1: Edge = Edge {
    kind: Dep::Td,
    j: TxnId(1),
    i: TxnId(3),
};

// Forms three edges, if there is room for them. Returns how many are new.
fn form_three<A: Handle>(deps: &mut Deps<A>) -> Result<usize, AllocError> {
    let edges = [CD_OF_2, CD_OF_4, CD_OF_5];
    let lacking = deps.lacks(&edges);
    if lacking <= MOST_EDGES.saturating_sub(deps.edges().len()) {
        deps.form(&edges)
    } else {
        Ok(0)
    }
}

// Forms the first of these and two more, one of which is named twice. Returns how many are new.
fn form_more<A: Handle>(deps: &mut Deps<A>) -> Result<usize, AllocError> {
    let edges = [TD_OF_3, CD_OF_2, TD_OF_1, TD_OF_3];
    let lacking = deps.lacks(&edges);
    if lacking <= MOST_EDGES.saturating_sub(deps.edges().len()) {
        deps.form(&edges)
    } else {
        Ok(0)
    }
}

// The transaction starts, if it may.
fn start<A: Handle>(deps: &mut Deps<A>, t: TxnId) -> Result<(), AllocError> {
    if t.0 == 0 || LAST_TXN < t.0 {
        return Ok(());
    }
    deps.make_room(t)?;
    let refusal = deps.may_start(t);
    if refusal.is_none() && deps.status(t) == Status::NotBegun {
        deps.started(t);
    }
    Ok(())
}

// A table in which two transactions have started, and which has three edges or none, gets more edges.
#[derive(Drop)]
struct Forming<'a, 's, R, A: Handle> {
    on: &'a Setting<'s, R, A>,
    has_edges: bool,
}

impl<'a, 's, R: Abort, A: Handle> Case for Forming<'a, 's, R, A> {
    type State = Deps<A>;

    type Answer = usize;

    fn start(&self) -> Deps<A> {
        let mut deps = Deps::new(self.on.alloc);
        for t in [1, 3] {
            made(self.on.rt, start(&mut deps, TxnId(t)), "a start");
        }
        if self.has_edges {
            made(self.on.rt, form_three(&mut deps), "edges");
        }
        deps
    }

    fn call(&self, deps: &mut Deps<A>) -> Option<usize> {
        form_more(deps).ok()
    }

    fn describe(&self, answer: &usize, deps: &Deps<A>) -> String {
        let mut text = String::new(self.on.other);
        put(self.on.rt, &mut text, answer);
        for edge in deps.edges() {
            put(self.on.rt, &mut text, &(edge.kind, edge.j.0, edge.i.0));
        }
        text
    }

    fn read(&self, deps: &Deps<A>) -> String {
        of_deps(self.on.rt, self.on.other, deps)
    }
}

// Edges after three or none, each allocation refused. Returns how many were.
fn refuse_edges<'a, 's, R: Abort, A: Handle, B: Allocator>(
    on: &'a Setting<'s, R, A>,
    heap: &Refusing<B>,
    has_edges: bool,
    due: &str,
) -> u64 {
    refuse(on.rt, heap, &Forming { on, has_edges }, due)
}

// A list has room for four edges of a transaction. After three, the second edge of transaction 1 allocates, and the first
// is taken back where that is refused. One of the edges is named twice.
fn refuse_all<R: Abort, A: Handle, B: Allocator>(on: &Setting<'_, R, A>, heap: &Refusing<B>) {
    let due = " 3 (Td, 3, 1) (Cd, 2, 1) (Td, 1, 3)";
    let refused = refuse_edges(&*on, heap, false, due);
    at_least(on.rt, refused, 4, due);
    let due = " 2 (Cd, 2, 1) (Cd, 4, 1) (Cd, 5, 16383) (Td, 3, 1) (Td, 1, 3)";
    let refused = refuse_edges(&*on, heap, true, due);
    at_least(on.rt, refused, 2, due);
}

#[test]
fn edges_that_are_formed(rt: HostRuntime) {
    let heap = Refusing::new(rt.alloc());
    let on = Setting {
        rt: &rt,
        alloc: &heap,
        other: rt.alloc(),
    };
    refuse_all(&on, &heap);
}
