//! Searches through all orders of programs, each allocation refused in turn.

use crate::expecting::made;
use crate::exploring::programs_of;
use crate::models::{SHARING, model_of};
use crate::refused::{Setting, at_least, refuse};
use crate::shown::put;
use acta_explore::{Explored, Outcome, Value, explore};
use acta_machine::Handle;
use acta_models::Standard;
use acta_script::ProgramLine;
use acta_table::Model;
use refusing::{Case, Refusing};
use std::alloc::{Allocator, Global};
use std::process::Abort;

// Adds the value of an object.
fn put_held<A: Allocator>(rt: &impl Abort, text: &mut String, value: Option<&Value<A>>) {
    match value {
        Some(Value::Register(value)) => put(rt, text, value),
        Some(Value::Counter(value)) => put(rt, text, value),
        Some(Value::Elements(elements)) => {
            for element in elements {
                put(rt, text, element);
            }
        }
        None => {}
    }
}

// The outcome that a search answers.
fn rendered_of<A: Handle>(rt: &impl Abort, other: Global, outcome: &Outcome<A>) -> String {
    let mut text = String::new(other);
    for done in outcome.lines.as_slice() {
        put(rt, &mut text, done);
    }
    for wait in outcome.waits.as_slice() {
        put(rt, &mut text, &(wait.seat, wait.line));
        for rule in wait.rules.as_slice() {
            put(rt, &mut text, rule);
        }
    }
    for found in outcome.statuses.as_slice() {
        put(rt, &mut text, &(found.txn.0, found.status));
    }
    for object in 0..outcome.values.len() {
        put(rt, &mut text, &object);
        put_held(rt, &mut text, outcome.values[object].as_ref());
    }
    for debt in outcome.debts.as_slice() {
        let debt = (debt.kind.code(), debt.txn, debt.on, debt.missing());
        put(rt, &mut text, &debt);
    }
    text
}

// A search of programs, which starts from nothing.
#[derive(Drop)]
struct Searching<'a, 's, R, A: Handle> {
    on: &'a Setting<'s, R, A>,
    model: &'a Model<A>,
    programs: &'a [ProgramLine<A>],
}

impl<'a, 's, R: Abort, A: Handle> Case for Searching<'a, 's, R, A> {
    type State = ();

    type Answer = Explored<A>;

    fn start(&self) {}

    fn call(&self, _state: &mut ()) -> Option<Explored<A>> {
        explore(self.on.alloc, self.model, self.programs, 1_000, &mut ()).ok()
    }

    fn describe(&self, answer: &Explored<A>, _state: &()) -> String {
        let mut text = String::new(self.on.other);
        for place in 0..answer.len() {
            let outcome = answer.outcome(place).expect(self.on.rt, "an outcome");
            let rendered = rendered_of(self.on.rt, self.on.other, outcome);
            made(self.on.rt, text.push_str(rendered.as_str()), "a text");
            made(self.on.rt, text.push_str("\n"), "a text");
        }
        text
    }

    fn read(&self, _state: &()) -> String {
        String::new(self.on.other)
    }
}

// A search of the programs that the lines say, each allocation refused. Returns how many were.
fn refuse_search<R: Abort, A: Handle, B: Allocator>(
    on: &Setting<'_, R, A>,
    heap: &Refusing<B>,
    (model, lines): (&str, &str),
) -> u64 {
    let model = model_of(on.rt, on.alloc, model);
    let programs = programs_of(on.rt, on.alloc, &model, lines);
    let searching = Searching {
        on: &*on,
        model: &model,
        programs: programs.as_slice(),
    };
    let explored = searching.call(&mut ()).expect(on.rt, lines);
    let due = searching.describe(&explored, &());
    drop(explored);
    let refused = refuse(on.rt, heap, &searching, due.as_str());
    drop(programs);
    drop(model);
    refused
}

const WAITING: &str = "\
1 begin 1 flat
1 do 1 x write 1
2 begin 2 flat | abort 1";

const DEPENDING: &str = "\
1 begin 1 loose
1 do 1 s insert 3
1 begin 2 loose
1 do 2 s has 3
1 abort 1";

const PERMITTING: &str = "\
1 begin 1 part
1 do 1 n add 1
1 permit 1 2 n
2 begin 2 part";

fn refuse_all<R: Abort, A: Handle, B: Allocator>(on: &Setting<'_, R, A>, heap: &Refusing<B>) {
    for search in [
        (Standard::Atomic.text(), WAITING),
        (Standard::Recoverable.text(), DEPENDING),
        (SHARING, PERMITTING),
    ] {
        at_least(on.rt, refuse_search(on, heap, search), 100, search.1);
    }
}

#[test]
fn searches_of_programs(rt: HostRuntime) {
    let heap = Refusing::new(rt.alloc());
    let on = Setting {
        rt: &rt,
        alloc: &heap,
        other: rt.alloc(),
    };
    refuse_all(&on, &heap);
}
