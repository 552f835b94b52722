//! Sixteen workers, who fill a book on a standard model: a machine of its own answers the book's events again, and
//! each part of the book answers its script.

use crate::driving::books::{are_parts, replayed};
use crate::driving::scripts::driven;
use crate::expecting::{holds, made};
use crate::models::model_of;
use acta_locked::{Driven, OpenGate, Script};
use acta_machine::Handle;
use acta_models::Standard;
use acta_table::{ClassId, Event, ObjId, Op, TxnId};
use std::alloc::Allocator;
use std::process::Abort;
use std::sync::Wait;
use std::thread::Threads;

// How many workers there are, with how many rounds of 16 calls each.
const WORKERS: u16 = 16;

const ROUNDS: u16 = 256;

// An operation: mostly additions, which are not in conflict, and else one that may be. A calm one conflicts with no
// other of these scripts.
fn operation<A: Allocator>(t: TxnId, is_calm: bool, mix: u16) -> Event<A> {
    let (x, n, m, s) = (ObjId(0), ObjId(1), ObjId(2), ObjId(3));
    let (object, op) = match mix % 13 {
        _ if is_calm => (m, Op::Add(3)),
        0 => (x, Op::Write(7)),
        1 => (x, Op::Read),
        2 => (n, Op::Get),
        3 => (s, Op::Insert(5)),
        4 => (s, Op::Size),
        5 => (x, Op::Get),
        _ => (n, Op::Add(3)),
    };
    Event::Operate(t, object, op)
}

// A step of a round. Each round has a transaction of its own, but the last, whose number is used again: it begins, in
// every other round operates, tries to commit, and then to abort. What else it does is refused: it begins twice, and
// commits and aborts where it has ended. From the calm round on no operation conflicts with another's.
fn step_of<A: Allocator>(seat: u16, round: u16, calm: u16, step: u16) -> Event<A> {
    let first = seat.wrapping_sub(1).wrapping_mul(255);
    let t = TxnId(first.wrapping_add(round % 255).wrapping_add(1));
    match step {
        4 if round % 2 == 0 => {
            operation(t, round >= calm, seat.wrapping_mul(7).wrapping_add(round))
        }
        8 | 10 | 12 | 14 => Event::Commit(t),
        9 | 11 | 13 | 15 => Event::Abort(t),
        _ => Event::Begin(t, ClassId(0)),
    }
}

// The script of a seat: 4,096 events.
fn script_of<A: Allocator + Copy>(rt: &impl Abort, alloc: A, seat: u16, calm: u16) -> Script<A> {
    let mut events = Vec::new(alloc);
    for round in 0..ROUNDS {
        for step in 0..16u16 {
            made(
                rt,
                events.push(step_of(seat, round, calm, step)),
                "a script",
            );
        }
    }
    Script::of(events)
}

fn all_scripts<A: Allocator + Copy>(rt: &impl Abort, alloc: A, calm: u16) -> Vec<Script<A>, A> {
    let mut scripts = Vec::new(alloc);
    for seat in 1..=WORKERS {
        made(
            rt,
            scripts.push(script_of(rt, alloc, seat, calm)),
            "scripts",
        );
    }
    scripts
}

// Whether the book is full, and each report is its seat's part.
fn is_full<A: Handle>(driven: &Driven<A>, scripts: &[Script<A>]) -> bool {
    let entries = driven.book.entries();
    entries.len() == 65_536 && are_parts(entries, scripts, driven.reports.as_slice())
}

// Asserts that some entries were refused and some were not.
fn are_some(rt: &impl Abort, refused: u32) {
    assert!(rt;
        8_192 < refused && refused < 65_536,
        "{refused} are refused"
    );
}

// A drive of all workers: the book is full, some of its entries were refused and some were not, and another machine
// gives their answers.
fn crowd<A: Handle + Send + Sync, R: Threads + Wait + Sync + Abort>(
    rt: &R,
    alloc: A,
    name: Standard,
    calm: u16,
) {
    let scripts = all_scripts(rt, alloc, calm);
    let driven = driven(rt, alloc, name, scripts.as_slice(), &OpenGate);
    holds(rt, is_full(&driven, scripts.as_slice()), "a full book");
    let model = model_of(rt, alloc, name.text());
    let refused = replayed(rt, alloc, model, driven.book.entries());
    are_some(rt, refused.expect(rt, "answers differ"));
    drop(driven);
}

#[test]
fn sixteen_flat_workers(rt: HostRuntime) {
    crowd(&rt, rt.alloc(), Standard::Atomic, ROUNDS);
}

#[test]
fn sixteen_nested_workers(rt: HostRuntime) {
    crowd(&rt, rt.alloc(), Standard::Nested, ROUNDS);
}

#[test]
fn sixteen_splitting_workers(rt: HostRuntime) {
    crowd(&rt, rt.alloc(), Standard::SplitJoin, ROUNDS);
}

#[test]
fn sixteen_contingent_workers(rt: HostRuntime) {
    crowd(&rt, rt.alloc(), Standard::Contingent, ROUNDS);
}

// A conflict forms an edge between transactions that both go on, and each end goes over the edges in force: so all
// rounds but the first two are calm.
#[test]
fn sixteen_recoverable_workers(rt: HostRuntime) {
    crowd(&rt, rt.alloc(), Standard::Recoverable, 2);
}
