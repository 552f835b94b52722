//! Steps of walks and questions to walks, each allocation refused in turn.

use crate::calls::walk_of;
use crate::expecting::made;
use crate::models::{FOLLOWING, LENDING, TRUSTING, event_of, items_of, model_of};
use crate::refused::{Setting, asked_and_answer, at_least, refuse};
use crate::shown::{of_walk, put, put_value};
use acta_axioms::Walk;
use acta_machine::Handle;
use acta_table::{Kept, Model, ObjId, Op, TxnId};
use refusing::{Case, Refusing};
use std::alloc::{AllocError, Allocator};
use std::process::Abort;

// A walk that has taken so many items of the list.
fn walked<'a, A: Handle>(
    rt: &impl Abort,
    alloc: A,
    model: &'a Model<A>,
    kept: &'a [Kept<A>],
    steps: usize,
) -> Walk<'a, A> {
    let mut walk = made(rt, walk_of(alloc, model, kept), "a walk");
    for _ in 0..steps {
        made(rt, walk.step(), "a step");
    }
    walk
}

// A walk before the last item of a list takes that item.
#[derive(Drop)]
struct Stepping<'a, 's, R, A: Handle> {
    on: &'a Setting<'s, R, A>,
    model: &'a Model<A>,
    kept: &'a [Kept<A>],
}

impl<'a, 's, R: Abort, A: Handle> Case for Stepping<'a, 's, R, A> {
    type State = Walk<'a, A>;

    type Answer = ();

    fn start(&self) -> Walk<'a, A> {
        let steps = self.kept.len().saturating_sub(1);
        walked(self.on.rt, self.on.alloc, self.model, self.kept, steps)
    }

    fn call(&self, walk: &mut Walk<'a, A>) -> Option<()> {
        walk.step().ok()
    }

    fn describe(&self, _answer: &(), walk: &Walk<'a, A>) -> String {
        self.read(walk)
    }

    fn read(&self, walk: &Walk<'a, A>) -> String {
        of_walk(self.on.rt, self.on.other, walk)
    }
}

// One step to the last item, each allocation refused. Returns how many were.
fn refuse_step<'a, 's, R: Abort, A: Handle, B: Allocator>(
    on: &'a Setting<'s, R, A>,
    heap: &Refusing<B>,
    model: &'a Model<A>,
    kept: &'a [Kept<A>],
    due: &str,
) -> u64 {
    refuse(on.rt, heap, &Stepping { on, model, kept }, due)
}

// The answers of a walk that has taken all items of the list.
fn at_end<R: Abort, A: Handle>(
    on: &Setting<'_, R, A>,
    model: &Model<A>,
    kept: &[Kept<A>],
) -> String {
    let walk = walked(on.rt, on.alloc, model, kept, kept.len());
    let text = of_walk(on.rt, on.other, &walk);
    drop(walk);
    text
}

// A walk takes the events of the lines one after another, each allocation of each step refused. Returns how many were.
fn refuse_steps<R: Abort, A: Handle, B: Allocator>(
    on: &Setting<'_, R, A>,
    heap: &Refusing<B>,
    model: &str,
    lines: &str,
) -> u64 {
    let model = model_of(on.rt, on.alloc, model);
    let (mut kept, mut refused) = (Vec::new(on.alloc), 0u64);
    for line in lines.lines() {
        let event = event_of(on.rt, on.alloc, &model, line);
        made(on.rt, kept.push(Kept { event, ret: None }), line);
        let due = at_end(&*on, &model, kept.as_slice());
        let more = refuse_step(&*on, heap, &model, kept.as_slice(), due.as_str());
        refused = refused.wrapping_add(more);
    }
    drop(kept);
    drop(model);
    refused
}

const DEPENDING: &str = "\
begin 1 loose
begin 2 loose
spawn 2 3 loose
do 1 x write 5
do 2 x read
do 3 x read
delegate 1 2 1
form CD 7 8
commit 2";

const PARTS: &str = "\
begin 1 part
do 1 x write 5
split 1 2 part 1
join 1 2
abort 2";

const KINDS: &str = "\
begin 1 loose
do 1 x write 5
do 1 x write 6
do 1 n add 5
do 1 n add 6
do 1 s insert 3
do 1 s remove 3
do 1 s insert 4
do 1 s has 4
abort 1";

// Permits before their parties begin, among the same, and after one of them has ended.
const PERMITS: &str = "\
permit 1 2 x
begin 1 loose
begin 2 loose
do 1 x write 5
do 2 x read
permit 1 2 x
permit 2 1 n
permit 3 1 n
permit 3 2 n
commit 1
permit 1 2 m
permit 4 2 m";

fn refuse_all_steps<R: Abort, A: Handle, B: Allocator>(on: &Setting<'_, R, A>, heap: &Refusing<B>) {
    for (model, lines, least) in [
        (LENDING, DEPENDING, 15u64),
        (LENDING, KINDS, 15),
        (FOLLOWING, PARTS, 10),
        (TRUSTING, PERMITS, 15),
    ] {
        at_least(on.rt, refuse_steps(on, heap, model, lines), least, lines);
    }
}

#[test]
fn steps_of_walks(rt: HostRuntime) {
    let heap = Refusing::new(rt.alloc());
    let on = Setting {
        rt: &rt,
        alloc: &heap,
        other: rt.alloc(),
    };
    refuse_all_steps(&on, &heap);
}

// Questions to a walk to the end of a list.
#[derive(Drop)]
struct Asking<'a, 's, R, A: Handle> {
    on: &'a Setting<'s, R, A>,
    model: &'a Model<A>,
    kept: &'a [Kept<A>],
    call: &'a str,
}

// Adds how many items are ahead of a new walk, or in front of a copy.
fn put_made<R: Abort, A: Handle>(
    asking: &Asking<'_, '_, R, A>,
    text: &mut String,
    walk: &Walk<'_, A>,
) -> Result<(), AllocError> {
    let items = if asking.call == "new" {
        walk_of(asking.on.alloc, asking.model, asking.kept)?
            .ahead()
            .len()
    } else {
        walk.copy()?.front().len()
    };
    put(asking.on.rt, text, &items);
    Ok(())
}

// Adds the value of an object.
fn put_state<A: Handle>(
    rt: &impl Abort,
    text: &mut String,
    walk: &Walk<'_, A>,
    object: ObjId,
) -> Result<(), AllocError> {
    let value = walk.value(object)?;
    put_value(rt, text, value.as_ref());
    Ok(())
}

// Adds a set of operations that the walk answers.
fn put_set<A: Handle>(
    rt: &impl Abort,
    text: &mut String,
    walk: &Walk<'_, A>,
    call: &str,
) -> Result<(), AllocError> {
    let (t, n) = (TxnId(3), ObjId(1));
    let ops = match call {
        "access set" => walk.access_set(TxnId(1))?,
        "conflict set" => walk.conflict_set(t)?,
        "conflicts of a get" => walk.conflicting(t, n, &Op::Get)?,
        _ => walk.conflicting(t, n, &Op::Add(1))?,
    };
    put(rt, text, &ops.as_slice());
    Ok(())
}

// Adds the return that is due of a `get`.
fn put_return<A: Handle>(
    rt: &impl Abort,
    text: &mut String,
    walk: &Walk<'_, A>,
) -> Result<(), AllocError> {
    let due = walk.return_due(ObjId(1), &Op::Get)?;
    put(rt, text, &due);
    Ok(())
}

// Adds what the walk answers.
fn put_answer<R: Abort, A: Handle>(
    asking: &Asking<'_, '_, R, A>,
    text: &mut String,
    walk: &Walk<'_, A>,
) -> Result<(), AllocError> {
    let rt = asking.on.rt;
    match asking.call {
        "new" | "copy" => put_made(asking, text, walk),
        "value" => put_state(rt, text, walk, ObjId(3)),
        "no value" => put_state(rt, text, walk, ObjId(4)),
        "return" => put_return(rt, text, walk),
        _ => put_set(rt, text, walk, asking.call),
    }
}

impl<'a, 's, R: Abort, A: Handle> Case for Asking<'a, 's, R, A> {
    type State = Walk<'a, A>;

    type Answer = String;

    fn start(&self) -> Walk<'a, A> {
        walked(
            self.on.rt,
            self.on.alloc,
            self.model,
            self.kept,
            self.kept.len(),
        )
    }

    fn call(&self, walk: &mut Walk<'a, A>) -> Option<String> {
        let mut text = String::new(self.on.other);
        put_answer(self, &mut text, walk).ok()?;
        Some(text)
    }

    fn describe(&self, answer: &String, _walk: &Walk<'a, A>) -> String {
        made(
            self.on.rt,
            String::from_str(self.on.other, answer.as_str()),
            "a text",
        )
    }

    fn read(&self, walk: &Walk<'a, A>) -> String {
        of_walk(self.on.rt, self.on.other, walk)
    }
}

// The last transaction is spawned by the second, and depends on the first, which has operations on two objects.
const ITEMS: &str = "\
begin 1 loose
begin 2 loose
spawn 2 3 loose
do 1 s insert 3 = yes
do 1 n add 5 = done
do 2 n add 7 = done
do 3 n get = 12
permit 3 1 n
do 1 n add -2 = done";

const ANSWERS: &str = "\
new -- 9
copy -- 9
access set -- [OpNo(1), OpNo(2), OpNo(5)]
conflict set -- [OpNo(1), OpNo(2), OpNo(5)]
conflicts of a get -- [OpNo(2), OpNo(5)]
conflicts of an add -- []
value -- 3
no value --
return -- Some(Value(10))";

// Questions to a walk, each allocation refused. Returns how many were.
fn refuse_answer<'a, 's, R: Abort, A: Handle, B: Allocator>(
    on: &'a Setting<'s, R, A>,
    heap: &Refusing<B>,
    model: &'a Model<A>,
    (kept, call): (&'a [Kept<A>], &'a str),
    due: &str,
) -> u64 {
    let case = Asking {
        on,
        model,
        kept,
        call,
    };
    refuse(on.rt, heap, &case, due)
}

fn refuse_answers<R: Abort, A: Handle, B: Allocator>(on: &Setting<'_, R, A>, heap: &Refusing<B>) {
    let model = model_of(on.rt, on.alloc, LENDING);
    let (kept, mut refused) = (items_of(on.rt, on.alloc, &model, ITEMS), 0u64);
    for line in ANSWERS.lines() {
        let (call, due) = asked_and_answer(on.rt, line);
        let more = refuse_answer(&*on, heap, &model, (kept.as_slice(), call), due);
        refused = refused.wrapping_add(more);
    }
    at_least(on.rt, refused, 25, ANSWERS);
    drop(kept);
    drop(model);
}

#[test]
fn walks_that_are_asked(rt: HostRuntime) {
    let heap = Refusing::new(rt.alloc());
    let on = Setting {
        rt: &rt,
        alloc: &heap,
        other: rt.alloc(),
    };
    refuse_answers(&on, &heap);
}
