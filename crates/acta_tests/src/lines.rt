//! What a line of ancestors holds.

use crate::expecting::{holds, made};
use acta_machine::Handle;
use acta_table::{MOST_EVENTS, ObjId, Op, TxnId};
use acta_values::Store;
use std::process::Abort;

const PARENT: TxnId = TxnId(1);

const CHILD: TxnId = TxnId(2);

const OTHER: TxnId = TxnId(3);

// One more write of t, if there is room.
fn write<A: Handle>(rt: &impl Abort, store: &mut Store<A>, t: TxnId) {
    if store.operations().operations().len() < MOST_EVENTS {
        made(
            rt,
            store.add(t, ObjId(0), Op::Write(t.0 as i32)),
            "an operation",
        );
    }
}

// Whether nothing that t and its ancestors don't hold conflicts with a write.
fn is_clear<A: Handle>(store: &Store<A>, t: TxnId) -> bool {
    store.is_clear(t, ObjId(0), &Op::Write(7))
}

// A child passes by what its parent wrote, and another transaction doesn't. After a join with the other, neither does the child.
#[test]
fn children_pass_by_their_parents(rt: HostRuntime) {
    let mut store = made(&rt, Store::new(rt.alloc(), &[]), "a store");
    store.enter(CHILD, Some(PARENT));
    write(&rt, &mut store, PARENT);
    write(&rt, &mut store, CHILD);
    holds(&rt, is_clear(&store, CHILD), "the child");
    holds(&rt, !is_clear(&store, PARENT), "the parent");
    holds(&rt, !is_clear(&store, OTHER), "another");
    made(
        &rt,
        store.transfer_all(PARENT, OTHER),
        "what the parent wrote",
    );
    holds(&rt, !is_clear(&store, CHILD), "the child after a join");
    drop(store);
}
