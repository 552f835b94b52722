//! Calls that make a value or copy one, each allocation refused in turn.

use crate::expecting::made;
use crate::refused::{Setting, asked_and_answer, at_least, refuse};
use crate::shown::{put, put_value};
use acta_objects::{ObjectState, replay};
use acta_table::{
    Dep, Dependent, Event, Items, Kept, Kind, Op, OpNo, OpSet, StartEdge, StartEdges, TxnId,
};
use refusing::{Case, Refusing};
use std::alloc::{AllocError, Allocator};
use std::process::Abort;

// A call that starts from nothing.
#[derive(Drop)]
struct Making<'a, 's, R, A: Allocator> {
    on: &'a Setting<'s, R, A>,
    call: &'a str,
}

// A set with one element.
fn with_element<A: Allocator + Copy>(alloc: A) -> Result<ObjectState<A>, AllocError> {
    let mut set = ObjectState::new(alloc, &Kind::Elements);
    set.apply(&Op::Insert(3))?;
    Ok(set)
}

// A delegation that names four operations, one of them twice.
fn delegation<A: Allocator + Copy>(alloc: A) -> Result<Kept<A>, AllocError> {
    let ops = OpSet::of(alloc, &[OpNo(9), OpNo(2), OpNo(9), OpNo(0)])?;
    let event = Event::Delegate(TxnId(1), TxnId(2), ops);
    Ok(Kept { event, ret: None })
}

// How many operations a delegation names.
fn named_in<A: Allocator>(event: &Event<A>) -> usize {
    match event {
        Event::Delegate(_, _, ops) => ops.as_slice().len(),
        _ => 0,
    }
}

// Three edges of a start, one of them twice.
fn start_edges<A: Allocator + Copy>(alloc: A) -> Result<StartEdges<A>, AllocError> {
    let later = StartEdge {
        kind: Dep::Cd,
        dependent: Dependent::Starter,
    };
    let earlier = StartEdge {
        kind: Dep::Wd,
        dependent: Dependent::Started,
    };
    StartEdges::of(alloc, &[later, earlier, later])
}

// Adds the element of a copy of a set.
fn put_element<A: Allocator + Copy>(
    rt: &impl Abort,
    alloc: A,
    text: &mut String,
) -> Result<(), AllocError> {
    let copied = with_element(alloc)?.copy()?;
    put_value(rt, text, Some(&copied));
    Ok(())
}

// Adds the returns of a replay.
fn put_replay<A: Allocator + Copy>(
    rt: &impl Abort,
    alloc: A,
    text: &mut String,
) -> Result<(), AllocError> {
    let replayed = replay(alloc, &Kind::Elements, &[Op::Insert(3), Op::Has(3)])?;
    put(rt, text, &replayed.rets.as_slice());
    Ok(())
}

// Adds how many a copy of something has.
fn put_count<A: Allocator + Copy>(
    rt: &impl Abort,
    alloc: A,
    text: &mut String,
    call: &str,
) -> Result<(), AllocError> {
    let count = match call {
        "kept item" => named_in(&delegation(alloc)?.copy()?.event),
        "event" => named_in(&delegation(alloc)?.event.copy()?),
        "start edges" => start_edges(alloc)?.copy()?.as_slice().len(),
        _ => Items::of(Vec::from_slice(alloc, b"x")?)
            .copy()?
            .as_slice()
            .len(),
    };
    put(rt, text, &count);
    Ok(())
}

impl<'a, 's, R: Abort, A: Allocator + Copy> Case for Making<'a, 's, R, A> {
    type State = ();

    type Answer = String;

    fn start(&self) {}

    fn call(&self, _state: &mut ()) -> Option<String> {
        let mut text = String::new(self.on.other);
        let (rt, alloc) = (self.on.rt, self.on.alloc);
        let made = match self.call {
            "element" => put_element(rt, alloc, &mut text),
            "replay" => put_replay(rt, alloc, &mut text),
            _ => put_count(rt, alloc, &mut text, self.call),
        };
        made.ok()?;
        Some(text)
    }

    fn describe(&self, answer: &String, _state: &()) -> String {
        made(
            self.on.rt,
            String::from_str(self.on.other, answer.as_str()),
            "a text",
        )
    }

    fn read(&self, _state: &()) -> String {
        String::new(self.on.other)
    }
}

const CALLS: &str = "\
element -- 3
replay -- [Flag(true), Flag(true)]
kept item -- 3
event -- 3
start edges -- 2
items -- 1";

// A call, each allocation refused. Returns how many were.
fn refuse_call<'a, 's, R: Abort, A: Allocator + Copy, B: Allocator>(
    on: &'a Setting<'s, R, A>,
    heap: &Refusing<B>,
    call: &'a str,
    due: &str,
) -> u64 {
    refuse(on.rt, heap, &Making { on, call }, due)
}

fn refuse_calls<R: Abort, A: Allocator + Copy, B: Allocator>(
    on: &Setting<'_, R, A>,
    heap: &Refusing<B>,
) {
    for line in CALLS.lines() {
        let (call, due) = asked_and_answer(on.rt, line);
        let refused = refuse_call(&*on, heap, call, due);
        at_least(on.rt, refused, 2, line);
    }
}

#[test]
fn values_that_are_made_and_copied(rt: HostRuntime) {
    let heap = Refusing::new(rt.alloc());
    let on = Setting {
        rt: &rt,
        alloc: &heap,
        other: rt.alloc(),
    };
    refuse_calls(&on, &heap);
}
