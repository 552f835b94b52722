//! Two workers meet: both are in the middle of their scripts at once, and the book has the calls of both.

use crate::driving::books::{are_answered, are_parts};
use crate::driving::gates::{Meeting, Place};
use crate::driving::scripts::{ADDITIONS, driven, scripts};
use crate::expecting::{holds, made, same};
use acta_locked::{Driven, Entry};
use acta_machine::{Handle, Machine};
use acta_models::Standard;
use acta_objects::ObjectState;
use acta_table::ObjId;
use std::alloc::Allocator;
use std::process::Abort;
use std::sync::Wait;
use std::thread::Threads;

// The positions of the objects x, n and m in the model.
const X: ObjId = ObjId(0);

const N: ObjId = ObjId(1);

const M: ObjId = ObjId(2);

// The number that a register or a counter has.
fn number_in<A: Handle>(rt: &impl Abort, machine: &Machine<A>, object: ObjId) -> Option<i64> {
    match made(rt, machine.value(object), "a value") {
        Some(ObjectState::Register(value)) => Some(i64::from(value)),
        Some(ObjectState::Counter(value)) => Some(value),
        _ => None,
    }
}

// Drives the two scripts that the texts say, whose workers meet. The gate was shown what the book has, each report is
// its seat's part, and the answers are these lines.
fn meet<A: Handle + Send + Sync, R: Threads + Wait + Sync + Abort>(
    rt: &R,
    alloc: A,
    place: Place,
    texts: &[&str],
    lines: &str,
) -> Driven<A> {
    let scripts = scripts(rt, alloc, texts);
    let gate = Meeting::new(rt, alloc, place);
    let driven = driven(rt, alloc, Standard::Atomic, scripts.as_slice(), &gate);
    let entries = driven.book.entries();
    let has_parts = are_parts(entries, scripts.as_slice(), driven.reports.as_slice());
    holds(rt, gate.has_shown(entries) && has_parts, lines);
    are_answered(rt, alloc, entries, lines);
    driven
}

// Seat 1 adds to n and seat 2 to m. The book has their begins before their operations, and all are admitted.
fn add_both<A: Handle + Send + Sync, R: Threads + Wait + Sync + Abort>(rt: &R, alloc: A) {
    let lines = "ok 1\nok 2\nok 3 done\nok 4 done\n";
    let driven = meet(rt, alloc, Place::BeforeSecond, &ADDITIONS, lines);
    let machine = driven.book.machine();
    let found = (number_in(rt, machine, N), number_in(rt, machine, M));
    same(rt, &found, &(Some(5), Some(7)), "both add");
    drop(driven);
}

// The seat of the first of two writes, if the second is of the other seat.
fn first_writer<A: Allocator>(entries: &[Entry<A>]) -> Option<u8> {
    if entries.len() != 4 {
        return None;
    }
    match (entries[2].seat, entries[3].seat) {
        (1, 2) => Some(1),
        (2, 1) => Some(2),
        _ => None,
    }
}

// Two scripts that write to x.
const WRITES: [&str; 2] = [
    "begin 1 flat\ndo 1 x write 5",
    "begin 2 flat\ndo 2 x write 6",
];

// Both write to x: the first of the writes is admitted, the second is refused by it, and x has the value of the first.
fn write_both<A: Handle + Send + Sync, R: Threads + Wait + Sync + Abort>(rt: &R, alloc: A) {
    let lines = "ok 1\nok 2\nok 3 done\nno 14 by 1\n";
    let driven = meet(rt, alloc, Place::AfterFirst, &WRITES, lines);
    let first = first_writer(driven.book.entries()).expect(rt, "writes of both seats");
    let value = number_in(rt, driven.book.machine(), X);
    let due = i64::from(first).wrapping_add(4);
    same(rt, &value, &Some(due), "both write");
    drop(driven);
}

#[test]
fn two_workers_meet(rt: HostRuntime) {
    add_both(&rt, rt.alloc());
    write_both(&rt, rt.alloc());
}
