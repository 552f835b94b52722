//! The greatest number of operations in a table.

use crate::expecting::{holds, made, same};
use acta_machine::Handle;
use acta_sets::OpTable;
use acta_table::{MOST_EVENTS, ObjId, Op, TxnId};
use std::collections::BTreeSet;
use std::process::Abort;

const ONE: TxnId = TxnId(1);

const THREE: TxnId = TxnId(3);

// One more operation of t, if there is room.
fn add<A: Handle>(rt: &impl Abort, table: &mut OpTable<A>, t: TxnId, op: Op) {
    if table.operations().len() < MOST_EVENTS {
        made(rt, table.add(t, ObjId(0), op), "an operation");
    }
}

// One more addition by 1, unless it conflicts, or there is no room.
fn add_one<A: Handle>(rt: &impl Abort, table: &mut OpTable<A>, exempts: &BTreeSet<u16, A>) {
    let op = Op::Add(1);
    let against = table.first_conflict(ONE, exempts, ObjId(0), &op);
    holds(rt, against.is_none(), "what stands against it");
    add(rt, table, ONE, op);
}

// Whether 3 finds the first of these against it, and 1 finds none.
fn stands_first<A: Handle>(table: &OpTable<A>, exempts: &BTreeSet<u16, A>) -> bool {
    table.first_conflict(THREE, exempts, ObjId(0), &Op::Get) == Some(1)
        && !table.has_conflict(ONE, exempts, ObjId(0), &Op::Get)
}

// One transaction adds as often as a history has room for, less one: none of its additions has a conflict, and the first
// conflicts with a `get` of another.
#[test]
fn adds_without_end(rt: HostRuntime) {
    let mut table = OpTable::new(rt.alloc());
    let exempts = BTreeSet::new(rt.alloc());
    for _ in 1..MOST_EVENTS {
        add_one(&rt, &mut table, &exempts);
    }
    same(&rt, &table.operations().len(), &65_535, "additions");
    holds(
        &rt,
        stands_first(&table, &exempts),
        "what stands against another",
    );
}
