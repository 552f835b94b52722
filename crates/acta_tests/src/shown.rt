//! The answers of a value's readers, as text: equal answers have equal texts. Items are as `Debug` prints them, each after a
//! space.

use crate::calls::{copy_of_deps, owed_by, permits_of, serial_of};
use crate::expecting::made;
use acta_axioms::Walk;
use acta_debug::Debugger;
use acta_deps::Deps;
use acta_locked::{Book, Entry};
use acta_machine::{Handle, Machine};
use acta_objects::ObjectState;
use acta_sets::{OpTable, Permits};
use acta_table::{Event, Items, Kept, ObjId, Op, OpNo, OpSet, Status, TxnId};
use std::alloc::{Allocator, Global};
use std::collections::BTreeSet;
use std::fmt::Debug;
use std::process::Abort;

/// The transactions in questions: those of the histories, the last possible one, and two that don't exist.
pub const TXNS: [TxnId; 9] = [
    TxnId(0),
    TxnId(1),
    TxnId(2),
    TxnId(3),
    TxnId(4),
    TxnId(5),
    TxnId(6),
    TxnId(16_383),
    TxnId(65_535),
];

// The objects in questions: those of the models, and one that they lack.
const OBJECTS: [ObjId; 5] = [ObjId(0), ObjId(1), ObjId(2), ObjId(3), ObjId(4)];

// Operations of each kind of object.
const OPERATIONS: [(ObjId, Op); 8] = [
    (ObjId(0), Op::Read),
    (ObjId(0), Op::Write(5)),
    (ObjId(1), Op::Get),
    (ObjId(1), Op::Add(1)),
    (ObjId(2), Op::Get),
    (ObjId(3), Op::Has(3)),
    (ObjId(3), Op::Size),
    (ObjId(4), Op::Read),
];

// How a transaction may end.
const STATUSES: [Status; 5] = [
    Status::NotBegun,
    Status::InProgress,
    Status::Committed,
    Status::Aborted,
    Status::Joined,
];

/// Adds a value.
pub fn put<T: Debug>(rt: &impl Abort, text: &mut String, value: &T) {
    made(rt, write!(text, " {value:?}"), "a text");
}

/// Adds the value of an object; nothing if there is no such object.
pub fn put_value<A: Allocator>(rt: &impl Abort, text: &mut String, value: Option<&ObjectState<A>>) {
    match value {
        Some(ObjectState::Register(value)) => put(rt, text, value),
        Some(ObjectState::Counter(value)) => put(rt, text, value),
        Some(ObjectState::Elements(members)) => {
            for member in members.items() {
                put(rt, text, member);
            }
        }
        None => {}
    }
}

// Adds the operations that an event names.
fn put_named<A: Allocator>(rt: &impl Abort, text: &mut String, ops: &OpSet<A>) {
    put(rt, text, &ops.as_slice());
}

// Adds an event.
fn put_event<A: Allocator>(rt: &impl Abort, text: &mut String, event: &Event<A>) {
    put(rt, text, &event.kind());
    match event {
        Event::Begin(t, class) => put(rt, text, &(*t, *class)),
        Event::Spawn(t, u, class) => put(rt, text, &(*t, *u, *class)),
        Event::Split(t, u, class, ops) => {
            put(rt, text, &(*t, *u, *class));
            put_named(rt, text, ops);
        }
        Event::Join(t, u) => put(rt, text, &(*t, *u)),
        Event::Delegate(t, u, ops) => {
            put(rt, text, &(*t, *u));
            put_named(rt, text, ops);
        }
        Event::Form(kind, j, i) => put(rt, text, &(*kind, *j, *i)),
        Event::Operate(t, object, op) => put(rt, text, &(*t, *object, *op)),
        Event::Commit(t) | Event::Abort(t) => put(rt, text, t),
        Event::Permit(t, u, object) => put(rt, text, &(*t, *u, *object)),
    }
}

// Adds kept items.
fn put_items<A: Allocator>(rt: &impl Abort, text: &mut String, items: &[Kept<A>]) {
    for item in items {
        put_event(rt, text, &item.event);
        put(rt, text, &item.ret);
    }
}

// Adds the transactions of a chain, if there is one.
fn put_chain<A: Allocator>(rt: &impl Abort, text: &mut String, chain: Option<&Items<TxnId, A>>) {
    put(rt, text, &chain.map(|it| it.as_slice()));
}

// Adds what a machine answers about a transaction.
fn put_txn<A: Handle>(rt: &impl Abort, text: &mut String, machine: &Machine<A>, t: TxnId) {
    put(
        rt,
        text,
        &(machine.status(t), machine.class(t), machine.parent(t)),
    );
    let access = made(rt, machine.access_set(t), "an access set");
    put(rt, text, &access.as_slice());
    let others = made(rt, machine.conflict_set(t), "a conflict set");
    put(rt, text, &others.as_slice());
    let chain = made(rt, machine.waits_for_cycle(t), "a chain");
    put_chain(rt, text, chain.as_ref());
}

// Adds the lists that a machine keeps.
fn put_lists<A: Handle>(rt: &impl Abort, text: &mut String, machine: &Machine<A>) {
    put_items(rt, text, machine.history());
    put(rt, text, &machine.operations());
    put(rt, text, &machine.edges());
    let view = made(rt, machine.view_set(), "a view");
    put(rt, text, &view.as_slice());
    let owed = made(rt, owed_by(machine), "debts");
    put(rt, text, &owed.as_slice());
    let permits = made(rt, permits_of(machine), "permits");
    put(rt, text, &permits.as_slice());
}

// Adds the values of a machine's objects.
fn put_values<A: Handle>(rt: &impl Abort, text: &mut String, machine: &Machine<A>) {
    for object in OBJECTS {
        let value = made(rt, machine.value(object), "a value");
        put_value(rt, text, value.as_ref());
        put(rt, text, &object);
    }
}

// Adds a machine's serial order, or why there is none.
fn put_serial<A: Handle>(rt: &impl Abort, text: &mut String, machine: &Machine<A>) {
    match serial_of(machine) {
        Ok(order) => put(rt, text, &order.as_slice()),
        Err(error) => put(rt, text, &error),
    }
}

/// The answers of a machine.
pub fn of_machine<A: Handle>(rt: &impl Abort, other: Global, machine: &Machine<A>) -> String {
    let mut text = String::new(other);
    put_lists(rt, &mut text, machine);
    for t in TXNS {
        put_txn(rt, &mut text, machine, t);
    }
    put_values(rt, &mut text, machine);
    put_serial(rt, &mut text, machine);
    text
}

// Adds what a walk answers about a transaction.
fn put_walked_txn<A: Handle>(rt: &impl Abort, text: &mut String, walk: &Walk<'_, A>, t: TxnId) {
    put(rt, text, &(walk.course(t), walk.parent(t)));
    put(rt, text, &walk.class(t).map(|it| it.name.as_slice()));
    for number in 0..8u32 {
        put(rt, text, &walk.holds(t, OpNo(number)));
    }
    let access = made(rt, walk.access_set(t), "an access set");
    put(rt, text, &access.as_slice());
    let others = made(rt, walk.conflict_set(t), "a conflict set");
    put(rt, text, &others.as_slice());
}

// Adds what a walk answers about an operation of each transaction.
fn put_walked_op<A: Handle>(
    rt: &impl Abort,
    text: &mut String,
    walk: &Walk<'_, A>,
    (object, op): (ObjId, &Op),
) {
    let value = made(rt, walk.value(object), "a value");
    put_value(rt, text, value.as_ref());
    put(rt, text, &made(rt, walk.return_due(object, op), "a return"));
    for t in TXNS {
        let against = made(rt, walk.conflicting(t, object, op), "conflicts");
        put(rt, text, &against.as_slice());
    }
}

/// The answers of a walk.
pub fn of_walk<A: Handle>(rt: &impl Abort, other: Global, walk: &Walk<'_, A>) -> String {
    let mut text = String::new(other);
    put(rt, &mut text, &(walk.front().len(), walk.ahead().len()));
    put(rt, &mut text, &walk.operations());
    put(rt, &mut text, &walk.edges());
    for t in TXNS {
        put_walked_txn(rt, &mut text, walk, t);
    }
    for (object, op) in OPERATIONS {
        put_walked_op(rt, &mut text, walk, (object, &op));
    }
    text
}

/// The arguments of questions to a table of operations: exempt transactions, permits, and named operations.
#[derive(Drop)]
pub struct Question<A: Handle> {
    exempt: BTreeSet<u16, A>,
    permits: Permits<A>,
    named: OpSet<A>,
}

impl<A: Handle> Question<A> {
    /// Transaction 3 is exempt, 1 permits 2 the first object, and operations 1 and 4 are named.
    pub fn new(rt: &impl Abort, alloc: A) -> Question<A> {
        let mut exempt = BTreeSet::new(alloc);
        made(rt, exempt.insert(3), "a set");
        let mut permits = Permits::new(alloc);
        made(rt, permits.give(TxnId(1), TxnId(2), ObjId(0)), "a permit");
        let named = made(rt, OpSet::of(alloc, &[OpNo(1), OpNo(4)]), "a set");
        Question {
            exempt,
            permits,
            named,
        }
    }

    // Adds what the table answers about an operation of a transaction.
    fn put_op(
        &self,
        rt: &impl Abort,
        text: &mut String,
        table: &OpTable<A>,
        t: TxnId,
        (object, op): (ObjId, &Op),
    ) {
        let first = table.first_conflict(t, &self.exempt, object, op);
        let has = table.has_conflict(t, &self.exempt, object, op);
        put(
            rt,
            text,
            &(first, has, table.is_held_against(t, object, op)),
        );
        let holders = table.holders_against(t, &self.exempt, object, op);
        for holder in made(rt, holders, "holders").iter() {
            put(rt, text, holder);
        }
    }

    // Adds what the table answers about a transaction.
    fn put_txn(&self, rt: &impl Abort, text: &mut String, table: &OpTable<A>, t: TxnId) {
        let access = made(rt, table.access_set(t), "an access set");
        put(rt, text, &access.as_slice());
        let others = table.conflict_set(t, &[TxnId(3)], &self.permits);
        put(rt, text, &made(rt, others, "a conflict set").as_slice());
        put(rt, text, &table.held(t));
        put(rt, text, &table.first_left_out(t, &self.named));
        for (object, op) in OPERATIONS {
            self.put_op(rt, text, table, t, (object, &op));
        }
    }

    /// The answers of the table.
    pub fn of_table(&self, rt: &impl Abort, other: Global, table: &OpTable<A>) -> String {
        let mut text = String::new(other);
        put(rt, &mut text, &table.operations());
        let view = made(rt, table.view_set(), "a view");
        put(rt, &mut text, &view.as_slice());
        for number in 0..16u32 {
            put(rt, &mut text, &table.operation(OpNo(number)));
        }
        for t in TXNS {
            self.put_txn(rt, &mut text, table, t);
        }
        text
    }
}

// Adds what a table of dependencies answers about a transaction.
fn put_dependent<A: Handle>(rt: &impl Abort, text: &mut String, deps: &mut Deps<A>, t: TxnId) {
    put(rt, text, &deps.status(t));
    let chain = made(rt, deps.waits_for_cycle(t), "a chain");
    put_chain(rt, text, chain.as_ref());
    for status in STATUSES {
        put(rt, text, &deps.block(t, status));
    }
    put(rt, text, &(deps.may_start(t), deps.may_commit(t)));
    put(rt, text, &(deps.may_abort(t), deps.may_join(t)));
}

/// The answers of a table of dependencies.
pub fn of_deps<A: Handle>(rt: &impl Abort, other: Global, deps: &Deps<A>) -> String {
    let mut text = String::new(other);
    put(rt, &mut text, &deps.edges());
    let owed = made(rt, deps.owed(), "debts");
    put(rt, &mut text, &owed.as_slice());
    let mut asked = made(rt, copy_of_deps(deps), "a copy");
    for t in TXNS {
        put_dependent(rt, &mut text, &mut asked, t);
    }
    drop(asked);
    text
}

// Adds the transactions that permit a transaction to work on an object, as each reader returns them.
fn put_permitters<A: Handle>(
    rt: &impl Abort,
    text: &mut String,
    permits: &Permits<A>,
    (t, object): (TxnId, ObjId),
) {
    let permitters = made(rt, permits.permitters(t, object), "permitters");
    put(rt, text, &permitters.as_slice());
    for h in TXNS {
        put(rt, text, &permits.has(h, t, object));
    }
}

// Adds the answers of a table of permits, and those after each transaction has ended.
fn put_permits<A: Handle>(rt: &impl Abort, text: &mut String, permits: &Permits<A>) {
    for t in TXNS {
        let given = made(rt, permits.given_to(t), "permits");
        put(rt, text, &given.as_slice());
        for object in OBJECTS {
            put_permitters(rt, text, permits, (t, object));
        }
    }
}

/// The answers of a table of permits, and those after each transaction has ended.
pub fn of_permits<A: Handle>(rt: &impl Abort, other: Global, permits: &Permits<A>) -> String {
    let mut text = String::new(other);
    put_permits(rt, &mut text, permits);
    for t in TXNS {
        let mut later = made(rt, permits.copy(), "a copy");
        later.ended(t);
        put_permits(rt, &mut text, &later);
    }
    text
}

/// Adds the entries of a book or a report.
pub fn put_entries<A: Allocator>(rt: &impl Abort, text: &mut String, entries: &[Entry<A>]) {
    for entry in entries {
        put(rt, text, &(entry.number, entry.seat, entry.answer));
        put_event(rt, text, &entry.event);
    }
}

/// The answers of a book.
pub fn of_book<A: Handle>(rt: &impl Abort, other: Global, book: &Book<A>) -> String {
    let mut text = of_machine(rt, other, book.machine());
    put_entries(rt, &mut text, book.entries());
    text
}

/// The answers of a debugger.
pub fn of_debugger<A: Handle>(rt: &impl Abort, other: Global, debugger: &Debugger<A>) -> String {
    let mut text = of_machine(rt, other, debugger.machine());
    put(rt, &mut text, &(debugger.at(), debugger.last()));
    text
}
