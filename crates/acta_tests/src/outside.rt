//! Events that name a class or an object that the model lacks, which no line can do: each with the machine's reason
//! beforehand, and its answer.

use crate::calls::{new_machine, take, why};
use crate::expecting::{expect_text, made, same};
use crate::models::{FAMILIES, SHARING, model_of};
use acta_machine::{Handle, Machine, Reason};
use acta_models::Standard;
use acta_script::answer_line;
use acta_table::{ClassId, Event, ObjId, Op, OpNo, OpSet, Status, TxnId};
use std::alloc::Allocator;
use std::process::Abort;

const ONE: TxnId = TxnId(1);

const TWO: TxnId = TxnId(2);

const KNOWN: ClassId = ClassId(0);

const LACKING: ClassId = ClassId(200);

const NOWHERE: ObjId = ObjId(200);

// A reason as `Debug` prints it.
fn spelled<A: Allocator + Copy>(rt: &impl Abort, alloc: A, reason: Option<Reason>) -> String<A> {
    match reason {
        Some(reason) => made(rt, format!(in alloc; "{reason:?}"), "a reason"),
        None => made(rt, format!(in alloc; "none"), "no reason"),
    }
}

// The machine gives this reason for a refusal of the event, and then this answer to the event.
fn answers<A: Handle>(
    rt: &impl Abort,
    alloc: A,
    machine: &mut Machine<A>,
    event: Event<A>,
    (reason, answer): (&str, &str),
) {
    let found = made(rt, why(machine, &event), reason);
    let text = spelled(rt, alloc, found);
    expect_text(rt, text.as_bytes(), reason, answer);
    let found = made(rt, take(machine, &event), answer);
    let line = made(rt, answer_line(alloc, &found), answer);
    expect_text(rt, line.as_slice(), answer, reason);
    drop(event);
}

const BAD_CLASS: (&str, &str) = ("Form(BadClass(ClassId(200)))", "no 3");

// Each kind of event that names a class. A bad number comes before the class, and AlreadyBegun after it.
fn of_no_class<A: Handle>(rt: &impl Abort, alloc: A, machine: &mut Machine<A>) {
    let ops = made(rt, OpSet::of(alloc, &[OpNo(1)]), "a set");
    answers(rt, alloc, machine, Event::Begin(TWO, LACKING), BAD_CLASS);
    answers(rt, alloc, machine, Event::Begin(ONE, LACKING), BAD_CLASS);
    answers(
        rt,
        alloc,
        machine,
        Event::Spawn(ONE, TWO, LACKING),
        BAD_CLASS,
    );
    answers(
        rt,
        alloc,
        machine,
        Event::Split(ONE, TWO, LACKING, ops),
        BAD_CLASS,
    );
    let due = ("Form(BadClass(ClassId(255)))", "no 3");
    answers(rt, alloc, machine, Event::Begin(TWO, ClassId(255)), due);
    let due = ("Form(BadNumber(16384))", "no 2 by 16384");
    answers(
        rt,
        alloc,
        machine,
        Event::Begin(TxnId(16_384), LACKING),
        due,
    );
}

const BAD_OBJECT: (&str, &str) = ("Form(BadObject(ObjId(200)))", "no 4");

// Each kind of event that names an object. NotInProgress and SameTransaction come after it.
fn on_no_object<A: Handle>(rt: &impl Abort, alloc: A, machine: &mut Machine<A>) {
    for op in [Op::Read, Op::Add(5), Op::Size] {
        answers(
            rt,
            alloc,
            machine,
            Event::Operate(ONE, NOWHERE, op),
            BAD_OBJECT,
        );
        answers(
            rt,
            alloc,
            machine,
            Event::Operate(TWO, NOWHERE, op),
            BAD_OBJECT,
        );
    }
    answers(
        rt,
        alloc,
        machine,
        Event::Permit(ONE, TWO, NOWHERE),
        BAD_OBJECT,
    );
    answers(
        rt,
        alloc,
        machine,
        Event::Permit(ONE, ONE, NOWHERE),
        BAD_OBJECT,
    );
    let due = ("Form(BadObject(ObjId(65535)))", "no 4");
    answers(
        rt,
        alloc,
        machine,
        Event::Operate(ONE, ObjId(65_535), Op::Read),
        due,
    );
}

// No event was admitted but the first, and nothing has a value.
fn has_begun_one<A: Handle>(rt: &impl Abort, machine: &Machine<A>) {
    same(rt, &machine.history().len(), &1, "the history");
    same(rt, &machine.status(TWO), &Status::NotBegun, "the second");
    let value = made(rt, machine.value(NOWHERE), "no value");
    same(rt, &value.is_none(), &true, "no value");
}

// All such events on a machine with one transaction begun.
fn name_badly<A: Handle>(rt: &impl Abort, alloc: A, text: &str) {
    let model = model_of(rt, alloc, text);
    let mut machine = made(rt, new_machine(alloc, &model), "a machine");
    answers(
        rt,
        alloc,
        &mut machine,
        Event::Begin(ONE, KNOWN),
        ("none", "ok 1"),
    );
    of_no_class(rt, alloc, &mut machine);
    on_no_object(rt, alloc, &mut machine);
    has_begun_one(rt, &machine);
    drop(machine);
    drop(model);
}

#[test]
fn of_classes_and_objects_that_a_model_lacks(rt: HostRuntime) {
    name_badly(&rt, rt.alloc(), Standard::Atomic.text());
    name_badly(&rt, rt.alloc(), FAMILIES);
    name_badly(&rt, rt.alloc(), SHARING);
}
