//! Changes of a table of operations, each allocation refused in turn. A line has an event, and the operations after it:
//! who holds each, with `c` or `a` where it has committed or aborted.

ghost use Rattle.std.specs.Prelude.{◌≡◌};
ghost use Rattle.acta_sets.specs.Operations.{is_held_in, are_held};

use crate::expecting::made;
use crate::models::{PARTING, event_of, model_of};
use crate::refused::{Setting, asked_and_answer, at_least, refuse};
use crate::shown::Question;
use acta_machine::Handle;
use acta_sets::OpTable;
use acta_table::{Event, Fate, MOST_EVENTS, ObjId, Op, OpNo, OpSet, TxnId};
use refusing::{Case, Refusing};
use std::alloc::{AllocError, Allocator};
use std::process::Abort;

// Whether the transaction holds the operation of this number in progress.
fn holds_one<A: Handle>(table: &OpTable<A>, t: TxnId, op: OpNo) -> bool
    ensures { result ≡ is_held_in t.0 table.now op }
{
    match table.operation(op) {
        Some(item) => item.is_held(t),
        None => false,
    }
}

// Whether the transaction holds all named operations in progress.
fn holds_all<A: Handle>(table: &OpTable<A>, t: TxnId, ops: &OpSet<A>) -> bool
    ensures { result ≡ are_held t.0 ops.now table.now }
{
    ops.as_slice().iter().all(|op| holds_one(table, t, *op))
}

// Adds an operation, if there is room.
fn add<A: Handle>(table: &mut OpTable<A>, t: TxnId, ob: ObjId, op: Op) -> Result<(), AllocError> {
    if table.operations().len() < MOST_EVENTS {
        table.add(t, ob, op)?;
    }
    Ok(())
}

// Transfers the named operations, if the transaction holds them all.
fn move_to<A: Handle>(
    table: &mut OpTable<A>,
    from: TxnId,
    ops: &OpSet<A>,
    u: TxnId,
) -> Result<(), AllocError> {
    if holds_all(table, from, ops) {
        table.move_to(from, ops, u)?;
    }
    Ok(())
}

// Changes the table as the event does.
fn change<A: Handle>(table: &mut OpTable<A>, event: &Event<A>) -> Result<(), AllocError> {
    match event {
        Event::Operate(t, ob, op) => add(table, *t, *ob, *op)?,
        Event::Delegate(t, u, ops) => move_to(table, *t, ops, *u)?,
        Event::Join(t, u) => table.transfer_all(*t, *u)?,
        Event::Commit(t) => table.end_all(*t, Fate::Committed),
        Event::Abort(t) => table.end_all(*t, Fate::Aborted),
        _ => {}
    }
    Ok(())
}

// The mark of an operation that has ended.
fn mark_of(fate: Fate) -> &'static str {
    match fate {
        Fate::InProgress => "",
        Fate::Committed => "c",
        Fate::Aborted => "a",
    }
}

// A table that was changed as the events before do is changed as one more does.
#[derive(Drop)]
struct Changing<'a, 's, R, A: Handle> {
    on: &'a Setting<'s, R, A>,
    before: &'a [Event<A>],
    event: &'a Event<A>,
}

impl<'a, 's, R: Abort, A: Handle> Case for Changing<'a, 's, R, A> {
    type State = OpTable<A>;

    type Answer = ();

    fn start(&self) -> OpTable<A> {
        let mut table = OpTable::new(self.on.alloc);
        for event in self.before {
            made(self.on.rt, change(&mut table, event), "a change");
        }
        table
    }

    fn call(&self, table: &mut OpTable<A>) -> Option<()> {
        change(table, self.event).ok()
    }

    fn describe(&self, _answer: &(), table: &OpTable<A>) -> String {
        let mut text = String::new(self.on.other);
        for item in table.operations() {
            let (holder, mark) = (item.holder.0, mark_of(item.fate));
            made(self.on.rt, write!(text, " {holder}{mark}"), "a text");
        }
        text
    }

    fn read(&self, table: &OpTable<A>) -> String {
        let question = Question::new(self.on.rt, self.on.alloc);
        question.of_table(self.on.rt, self.on.other, table)
    }
}

// One change more, each allocation refused. Returns how many were.
fn refuse_change<'a, 's, R: Abort, A: Handle, B: Allocator>(
    on: &'a Setting<'s, R, A>,
    heap: &Refusing<B>,
    (before, event): (&'a [Event<A>], &'a Event<A>),
    due: &str,
) -> u64 {
    refuse(on.rt, heap, &Changing { on, before, event }, due)
}

// The changes of the lines, one after another. Returns how many allocations were refused.
fn refuse_changes<R: Abort, A: Handle, B: Allocator>(
    on: &Setting<'_, R, A>,
    heap: &Refusing<B>,
    lines: &str,
) -> u64 {
    let model = model_of(on.rt, on.alloc, PARTING);
    let (mut before, mut refused) = (Vec::new(on.alloc), 0u64);
    for line in lines.lines() {
        let (parsed, due) = asked_and_answer(on.rt, line);
        let event = event_of(on.rt, on.alloc, &model, parsed);
        let more = refuse_change(&*on, heap, (before.as_slice(), &event), due);
        refused = refused.wrapping_add(more);
        made(on.rt, before.push(event), line);
    }
    drop(before);
    drop(model);
    refused
}

const CHANGES: &str = "\
do 1 x write 5 -- 1
do 1 s insert 3 -- 1 1
do 2 n add 7 -- 1 1 2
delegate 1 2 1 -- 2 1 2
do 1 x read -- 2 1 2 1
delegate 1 3 2,4 -- 2 3 2 3
delegate 3 3 2 -- 2 3 2 3
join 3 2 -- 2 2 2 2
join 3 2 -- 2 2 2 2
do 4 n get -- 2 2 2 2 4
abort 4 -- 2 2 2 2 4a
commit 2 -- 2c 2c 2c 2c 4a
do 2 x write 1 -- 2c 2c 2c 2c 4a 2
join 2 5 -- 2c 2c 2c 2c 4a 5";

// The list of a transaction's operations has room for eight inline, so that the ninth operation allocates.
const MANY: &str = "\
do 1 n add 1 -- 1
do 1 n add 1 -- 1 1
do 1 n add 1 -- 1 1 1
do 1 n add 1 -- 1 1 1 1
do 1 n add 1 -- 1 1 1 1 1
do 1 n add 1 -- 1 1 1 1 1 1
do 1 n add 1 -- 1 1 1 1 1 1 1
do 1 n add 1 -- 1 1 1 1 1 1 1 1
do 1 n add 1 -- 1 1 1 1 1 1 1 1 1
delegate 1 2 1,2,3,4,5,6,7,8,9 -- 2 2 2 2 2 2 2 2 2
do 1 n get -- 2 2 2 2 2 2 2 2 2 1
join 2 1 -- 1 1 1 1 1 1 1 1 1 1
abort 1 -- 1a 1a 1a 1a 1a 1a 1a 1a 1a 1a";

fn refuse_all<R: Abort, A: Handle, B: Allocator>(on: &Setting<'_, R, A>, heap: &Refusing<B>) {
    at_least(on.rt, refuse_changes(on, heap, CHANGES), 15, CHANGES);
    at_least(on.rt, refuse_changes(on, heap, MANY), 15, MANY);
}

#[test]
fn changes_of_a_table_of_operations(rt: HostRuntime) {
    let heap = Refusing::new(rt.alloc());
    let on = Setting {
        rt: &rt,
        alloc: &heap,
        other: rt.alloc(),
    };
    refuse_all(&on, &heap);
}
