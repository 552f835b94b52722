//! Events that machines take, and questions to machines and models, each allocation refused in turn.

use crate::calls::{
    copy_of, new_machine, owed_by, permits_of, places_of, run_on, serial_of, take, waits_for_cycle,
    why,
};
use crate::expecting::made;
use crate::models::{PARTING, PERMITTING, event_of, events_of, model_of};
use crate::refused::{Setting, asked_and_answer, at_least, call_and_answer, refuse};
use crate::shown::{of_machine, put, put_value};
use acta_machine::{Handle, Machine, SerialError};
use acta_models::Standard;
use acta_script::answer_line;
use acta_table::{Answer, Event, Model, ObjId, TxnId};
use refusing::{Case, Refusing};
use std::alloc::{AllocError, Allocator};
use std::process::Abort;

// A machine that has taken these events.
fn machine_after<A: Handle>(
    rt: &impl Abort,
    alloc: A,
    model: &Model<A>,
    events: &[Event<A>],
) -> Machine<A> {
    let mut machine = made(rt, new_machine(alloc, model), "a machine");
    for event in events {
        made(rt, take(&mut machine, event), "an event");
    }
    machine
}

// A machine that has taken the events before takes one more.
#[derive(Drop)]
struct Taking<'a, 's, R, A: Handle> {
    on: &'a Setting<'s, R, A>,
    model: &'a Model<A>,
    before: &'a [Event<A>],
    event: &'a Event<A>,
}

impl<'a, 's, R: Abort, A: Handle> Case for Taking<'a, 's, R, A> {
    type State = Machine<A>;

    type Answer = Answer;

    fn start(&self) -> Machine<A> {
        machine_after(self.on.rt, self.on.alloc, self.model, self.before)
    }

    fn call(&self, machine: &mut Machine<A>) -> Option<Answer> {
        take(machine, self.event).ok()
    }

    fn describe(&self, answer: &Answer, _machine: &Machine<A>) -> String {
        let line = made(self.on.rt, answer_line(self.on.other, answer), "an answer");
        made(self.on.rt, String::from_utf8(line), "an answer")
    }

    fn read(&self, machine: &Machine<A>) -> String {
        let rt = self.on.rt;
        let mut text = of_machine(rt, self.on.other, machine);
        put(
            rt,
            &mut text,
            &made(rt, why(machine, self.event), "a reason"),
        );
        text
    }
}

// One event more, each allocation refused. Returns how many were.
fn refuse_event<'a, 's, R: Abort, A: Handle, B: Allocator>(
    on: &'a Setting<'s, R, A>,
    heap: &Refusing<B>,
    model: &'a Model<A>,
    (before, event): (&'a [Event<A>], &'a Event<A>),
    due: &str,
) -> u64 {
    let case = Taking {
        on,
        model,
        before,
        event,
    };
    refuse(on.rt, heap, &case, due)
}

// A machine takes the events of the lines one after another, each allocation of each refused. Returns how many were.
fn refuse_events<R: Abort, A: Handle, B: Allocator>(
    on: &Setting<'_, R, A>,
    heap: &Refusing<B>,
    model: &str,
    lines: &str,
) -> u64 {
    let model = model_of(on.rt, on.alloc, model);
    let (mut before, mut refused) = (Vec::new(on.alloc), 0u64);
    for line in lines.lines() {
        let (parsed, due) = call_and_answer(on.rt, line);
        let event = event_of(on.rt, on.alloc, &model, parsed);
        let more = refuse_event(&*on, heap, &model, (before.as_slice(), &event), due);
        refused = refused.wrapping_add(more);
        made(on.rt, before.push(event), line);
    }
    drop(before);
    drop(model);
    refused
}

// The history grows at the first event, the fifth and the ninth.
const FORMS: &str = "\
begin 1 try -- ok 1
form AD 2 1 -- ok 2
begin 2 try -- ok 3
abort 1 -- ok 4";

const PARTS: &str = "\
begin 1 part -- ok 1
begin 2 part -- ok 2
do 1 x write 5 -- ok 3 done
do 1 s insert 3 -- ok 4 yes
delegate 1 2 1,2 -- ok 5
do 1 n add 1 -- ok 6 done
split 1 4 part 3 -- ok 7
join 1 2 -- ok 8";

// What a transaction holds stands in a list with room for eight inside; a lock mode has a list too, and lists that meet
// by a delegation or a join are merged.
const LISTS: &str = "\
begin 1 part -- ok 1
begin 2 part -- ok 2
do 1 x write 1 -- ok 3 done
do 1 x write 2 -- ok 4 done
do 1 x write 3 -- ok 5 done
do 1 x write 4 -- ok 6 done
do 1 x write 5 -- ok 7 done
do 1 x write 6 -- ok 8 done
do 1 x write 7 -- ok 9 done
do 1 x write 8 -- ok 10 done
do 1 x write 9 -- ok 11 done
do 1 s insert 1 -- ok 12 yes
do 1 s insert 2 -- ok 13 yes
do 1 s has 1 -- ok 14 yes
do 1 s size -- ok 15 2
delegate 1 2 1,2,3,4,5,6,7,8,9,10,11,12,13 -- ok 16
do 1 n add 1 -- ok 17 done
do 2 n add 1 -- ok 18 done
do 1 n add 1 -- ok 19 done
delegate 2 1 1,2,3,4,5,6,7,8,9,10,11,12,13,15 -- ok 20
join 1 2 -- ok 21
commit 2 -- ok 22";

const SPAWNS: &str = "\
begin 1 top -- ok 1
spawn 1 2 sub -- ok 2
do 2 x write 5 -- ok 3 done
commit 2 -- ok 4";

// An operation that forms two edges, which are taken back if memory runs out for the operation.
const DEPENDING: &str = "\
begin 1 loose -- ok 1
begin 2 loose -- ok 2
do 1 x write 5 -- ok 3 done
do 1 x write 5 -- ok 4 done
do 1 x write 5 -- ok 5 done
do 1 x write 5 -- ok 6 done
do 2 x read -- ok 7 5";

const SPLITS: &str = "\
begin 1 part -- ok 1
do 1 x write 5 -- ok 2 done
do 1 n add 2 -- ok 3 done
split 1 2 part 2 -- ok 4
join 2 1 -- ok 5";

const ABORTS: &str = "\
begin 1 loose -- ok 1
begin 2 loose -- ok 2
do 1 x write 5 -- ok 3 done
do 1 s insert 3 -- ok 4 yes
do 2 x write 6 -- ok 5 done
do 2 s insert 3 -- ok 6 no
do 2 n add 7 -- ok 7 done
abort 1 -- ok 8
do 2 x read -- ok 9 6";

const PERMITS: &str = "\
begin 1 flat -- ok 1
begin 2 flat -- ok 2
do 1 x write 5 -- ok 3 done
permit 1 2 x -- ok 4
do 2 x read -- ok 5 5
permit 1 2 x -- ok 6
permit 1 2 n -- ok 7
permit 2 1 x -- ok 8
begin 4 flat -- ok 9
permit 4 2 x -- ok 10
permit 2 4 x -- ok 11
abort 2 -- ok 12
commit 1 -- ok 13";

fn refuse_all_events<R: Abort, A: Handle, B: Allocator>(
    on: &Setting<'_, R, A>,
    heap: &Refusing<B>,
) {
    for (model, lines, least) in [
        (Standard::Contingent.text(), FORMS, 5u64),
        (PARTING, PARTS, 20),
        (PARTING, LISTS, 30),
        (Standard::Nested.text(), SPAWNS, 10),
        (Standard::Recoverable.text(), DEPENDING, 12),
        (Standard::SplitJoin.text(), SPLITS, 10),
        (Standard::Recoverable.text(), ABORTS, 20),
        (PERMITTING, PERMITS, 15),
    ] {
        at_least(on.rt, refuse_events(on, heap, model, lines), least, lines);
    }
}

#[test]
fn events_that_machines_take(rt: HostRuntime) {
    let heap = Refusing::new(rt.alloc());
    let on = Setting {
        rt: &rt,
        alloc: &heap,
        other: rt.alloc(),
    };
    refuse_all_events(&on, &heap);
}

// Questions to a machine.
#[derive(Drop)]
struct Asking<'a, 's, R, A: Handle> {
    on: &'a Setting<'s, R, A>,
    model: &'a Model<A>,
    events: &'a [Event<A>],
    call: &'a str,
}

// Adds a set of operations that the machine answers.
fn put_set<A: Handle>(
    rt: &impl Abort,
    text: &mut String,
    machine: &Machine<A>,
    call: &str,
) -> Result<(), AllocError> {
    let ops = match call {
        "access set" => machine.access_set(TxnId(1))?,
        "conflict set of a top" => machine.conflict_set(TxnId(4))?,
        "conflict set of a descendant" => machine.conflict_set(TxnId(3))?,
        _ => machine.view_set()?,
    };
    put(rt, text, &ops.as_slice());
    Ok(())
}

// Adds the numbers of the operations in serial order; or that the machine is not strict.
fn put_order<A: Handle>(
    rt: &impl Abort,
    text: &mut String,
    machine: &Machine<A>,
) -> Result<(), AllocError> {
    match serial_of(machine) {
        Ok(order) => {
            for item in order.as_slice() {
                put(rt, text, &item.number);
            }
        }
        Err(SerialError::NotStrict) => put(rt, text, &SerialError::NotStrict),
        Err(SerialError::Memory) => return Err(AllocError),
    }
    Ok(())
}

// Adds the elements of the set.
fn put_elements<A: Handle>(
    rt: &impl Abort,
    text: &mut String,
    machine: &Machine<A>,
) -> Result<(), AllocError> {
    let value = machine.value(ObjId(3))?;
    put_value(rt, text, value.as_ref());
    Ok(())
}

// Adds the debts.
fn put_owed<A: Handle>(
    rt: &impl Abort,
    text: &mut String,
    machine: &Machine<A>,
) -> Result<(), AllocError> {
    let owed = owed_by(machine)?;
    put(rt, text, &owed.as_slice());
    Ok(())
}

// Adds the permits in force.
fn put_permits<A: Handle>(
    rt: &impl Abort,
    text: &mut String,
    machine: &Machine<A>,
) -> Result<(), AllocError> {
    let permits = permits_of(machine)?;
    put(rt, text, &permits.as_slice());
    Ok(())
}

// Adds whether transaction 1 waits in a cycle.
fn put_cycle<A: Handle>(
    rt: &impl Abort,
    text: &mut String,
    machine: &Machine<A>,
) -> Result<(), AllocError> {
    let cycle = waits_for_cycle(machine, TxnId(1))?;
    put(rt, text, &cycle.is_some());
    Ok(())
}

// Adds the place where transaction 1 starts, by the places of the history.
fn put_start<A: Handle>(
    rt: &impl Abort,
    alloc: A,
    text: &mut String,
    machine: &Machine<A>,
) -> Result<(), AllocError> {
    let places = places_of(alloc, machine.model(), machine.history())?;
    put(rt, text, &places.start(TxnId(1)));
    Ok(())
}

// Adds how many classes a copy of the model has.
fn put_classes<A: Handle>(
    rt: &impl Abort,
    text: &mut String,
    machine: &Machine<A>,
) -> Result<(), AllocError> {
    let model = machine.model().copy()?;
    put(rt, text, &model.classes().len());
    Ok(())
}

// Adds the answer of the machine, or of its history.
fn put_answer<A: Handle>(
    rt: &impl Abort,
    alloc: A,
    text: &mut String,
    machine: &Machine<A>,
    call: &str,
) -> Result<(), AllocError> {
    match call {
        "value" => put_elements(rt, text, machine),
        "owed" => put_owed(rt, text, machine),
        "permits" => put_permits(rt, text, machine),
        "cycle" => put_cycle(rt, text, machine),
        "places" => put_start(rt, alloc, text, machine),
        "model copy" => put_classes(rt, text, machine),
        "serial order" => put_order(rt, text, machine),
        _ => put_set(rt, text, machine, call),
    }
}

impl<'a, 's, R: Abort, A: Handle> Case for Asking<'a, 's, R, A> {
    type State = Machine<A>;

    type Answer = String;

    fn start(&self) -> Machine<A> {
        machine_after(self.on.rt, self.on.alloc, self.model, self.events)
    }

    fn call(&self, machine: &mut Machine<A>) -> Option<String> {
        let mut text = String::new(self.on.other);
        let (rt, alloc) = (self.on.rt, self.on.alloc);
        put_answer(rt, alloc, &mut text, machine, self.call).ok()?;
        Some(text)
    }

    fn describe(&self, answer: &String, _machine: &Machine<A>) -> String {
        made(
            self.on.rt,
            String::from_str(self.on.other, answer.as_str()),
            "a text",
        )
    }

    fn read(&self, machine: &Machine<A>) -> String {
        of_machine(self.on.rt, self.on.other, machine)
    }
}

// A transaction with a child and a grandchild, another, and one that has aborted before its child.
const FAMILY: &str = "\
begin 1 top
do 1 s insert 3
spawn 1 2 sub
spawn 2 3 sub
begin 4 top
do 4 n add 1
begin 5 top
spawn 5 6 sub
abort 5";

// Later questions, and their answers.
const ANSWERS: &str = "\
access set -- [OpNo(1)]
conflict set of a top -- [OpNo(1)]
conflict set of a descendant -- [OpNo(2)]
view set -- [OpNo(1), OpNo(2)]
value -- 3
owed -- [Owed { edge: EdgeNo(6), txn: TxnId(6), missing: Abort }]
cycle -- false
model copy -- 2
places -- Some(1)
serial order -- NotStrict";

// Machines that are made after them, with how many events each has, and whether it answers as the machine before.
const MACHINES: &str = "\
copy -- 9 true
run -- 9 true
new -- 0 false";

// Two transactions that commit in the other order than they begin, and a third that is in progress.
const CROSSED: &str = "\
begin 1 flat
begin 2 flat
begin 3 flat
do 1 n add 5
do 2 x write 1
do 2 n add 7
do 3 m add 9
commit 2
do 1 x read
commit 1";

const ORDER: &str = "serial order -- OpNo(2) OpNo(3) OpNo(1) OpNo(5)";

// A machine that is made of another, or of its model or its events.
#[derive(Drop)]
struct Making<'a, 's, R, A: Handle> {
    asking: Asking<'a, 's, R, A>,
}

impl<'a, 's, R: Abort, A: Handle> Case for Making<'a, 's, R, A> {
    type State = Machine<A>;

    type Answer = Machine<A>;

    fn start(&self) -> Machine<A> {
        self.asking.start()
    }

    fn call(&self, machine: &mut Machine<A>) -> Option<Machine<A>> {
        let asking = &self.asking;
        match asking.call {
            "copy" => copy_of(machine).ok(),
            "new" => new_machine(asking.on.alloc, asking.model).ok(),
            _ => Some(
                run_on(asking.on.alloc, asking.model, asking.events)
                    .ok()?
                    .machine,
            ),
        }
    }

    // How many events the new machine has, and whether it answers as the other.
    fn describe(&self, answer: &Machine<A>, machine: &Machine<A>) -> String {
        let mut text = String::new(self.asking.on.other);
        put(self.asking.on.rt, &mut text, &answer.history().len());
        let (found, due) = (self.read(answer), self.read(machine));
        put(
            self.asking.on.rt,
            &mut text,
            &(found.as_str() == due.as_str()),
        );
        text
    }

    fn read(&self, machine: &Machine<A>) -> String {
        self.asking.read(machine)
    }
}

// Questions to a machine, each allocation refused. Returns how many were.
fn refuse_answer<'a, 's, R: Abort, A: Handle, B: Allocator>(
    on: &'a Setting<'s, R, A>,
    heap: &Refusing<B>,
    model: &'a Model<A>,
    (events, call): (&'a [Event<A>], &'a str),
    due: &str,
) -> u64 {
    let asking = Asking {
        on,
        model,
        events,
        call,
    };
    if matches!(call, "copy" | "run" | "new") {
        refuse(on.rt, heap, &Making { asking }, due)
    } else {
        refuse(on.rt, heap, &asking, due)
    }
}

// Asks a machine the questions of the lines, each allocation refused. Returns how many were.
fn refuse_answers<R: Abort, A: Handle, B: Allocator>(
    on: &Setting<'_, R, A>,
    heap: &Refusing<B>,
    (model, events): (&str, &str),
    lines: &str,
) -> u64 {
    let model = model_of(on.rt, on.alloc, model);
    let (events, mut refused) = (events_of(on.rt, on.alloc, &model, events), 0u64);
    for line in lines.lines() {
        let (call, due) = asked_and_answer(on.rt, line);
        let more = refuse_answer(&*on, heap, &model, (events.as_slice(), call), due);
        refused = refused.wrapping_add(more);
    }
    drop(events);
    drop(model);
    refused
}

// Four events, the last of which may be a permit.
const WITHOUT: &str = "begin 1 flat\nbegin 2 flat\ndo 1 x write 5\nbegin 3 flat";

const WITH: &str = "begin 1 flat\nbegin 2 flat\ndo 1 x write 5\npermit 1 2 x";

const PERMITTED: &str = "permits -- [Permit { by: TxnId(1), to: TxnId(2), object: ObjId(0) }]";

fn refuse_all_answers<R: Abort, A: Handle, B: Allocator>(
    on: &Setting<'_, R, A>,
    heap: &Refusing<B>,
) {
    let family = (Standard::Nested.text(), FAMILY);
    let refused = refuse_answers(on, heap, family, ANSWERS);
    at_least(on.rt, refused, 10, "machines that are asked");
    let refused = refuse_answers(on, heap, family, MACHINES);
    at_least(on.rt, refused, 60, "machines that are made");
    let crossed = (Standard::Atomic.text(), CROSSED);
    let refused = refuse_answers(on, heap, crossed, ORDER);
    at_least(on.rt, refused, 4, "a serial order");
    let without = refuse_answers(on, heap, (PERMITTING, WITHOUT), "copy -- 4 true");
    let with = refuse_answers(on, heap, (PERMITTING, WITH), "copy -- 4 true");
    at_least(on.rt, with, without.wrapping_add(2), "a copy with permits");
    let permits = refuse_answers(on, heap, (PERMITTING, WITH), PERMITTED);
    at_least(on.rt, permits, 1, "permits");
}

#[test]
fn machines_that_are_asked(rt: HostRuntime) {
    let heap = Refusing::new(rt.alloc());
    let on = Setting {
        rt: &rt,
        alloc: &heap,
        other: rt.alloc(),
    };
    refuse_all_answers(&on, &heap);
}
