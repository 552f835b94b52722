//! A thread that judges while two workers work: flags let it judge in the midst of their scripts, and in their midst it
//! holds no lock.

use crate::driving::scripts::{ADDITIONS, scripts};
use crate::expecting::{holds, made, same};
use crate::models::model_of;
use acta_locked::{DriveError, Entry, Front, Gate, OpenGate, Script, Watched, drive_watched};
use acta_machine::Handle;
use acta_models::Standard;
use std::alloc::Allocator;
use std::process::Abort;
use std::sync::Wait;
use std::sync::atomic::{AtomicU64, Ordering};
use std::thread;
use std::thread::Threads;

// How often a flag is looked at, before its wait runs out.
const TURNS: u32 = 10_000_000;

fn raise(flag: &AtomicU64) {
    flag.store(1, Ordering::SeqCst);
}

fn is_up(flag: &AtomicU64) -> bool {
    flag.load(Ordering::SeqCst) == 1
}

/// Seat 1 calls first when one front is judged, and its second call comes when two are; the thread that judges waits, in
/// its first turn, until seat 1 stands before its second call.
#[derive(Drop)]
struct Interleaved {
    second_call: AtomicU64,
    second_front: AtomicU64,
    first_front: AtomicU64,
    late: AtomicU64,
}

impl Interleaved {
    fn new() -> Interleaved {
        Interleaved {
            second_call: AtomicU64::new(0),
            second_front: AtomicU64::new(0),
            first_front: AtomicU64::new(0),
            late: AtomicU64::new(0),
        }
    }

    // Waits for the flag. If that takes too long, raises `late`.
    fn wait_for(&self, flag: &AtomicU64) -> bool {
        for _ in 0..TURNS {
            if is_up(flag) {
                return true;
            }
            thread::yield_now();
        }
        raise(&self.late);
        false
    }
}

impl<X> Gate<X> for Interleaved {
    fn before(&self, seat: u8, call: usize) -> bool {
        if seat != 1 {
            return true;
        }
        if call == 1 {
            return self.wait_for(&self.first_front);
        }
        raise(&self.second_call);
        self.wait_for(&self.second_front)
    }

    fn after(&self, _seat: u8, _call: usize, _entry: &X) -> bool {
        true
    }

    fn judged<A: Allocator>(&self, turn: u8, _front: &Front<A>) {
        if turn == 1 {
            raise(&self.first_front);
            self.wait_for(&self.second_call);
        }
        if turn == 2 {
            raise(&self.second_front);
        }
    }
}

// A watched drive of the scripts, in a function of its own, so that callers need not read all that is known of it.
fn watched<A: Handle + Send + Sync, R: Threads + Wait + Sync + Abort, G: Gate<Entry<A>> + Sync>(
    rt: &R,
    alloc: A,
    scripts: &[Script<A>],
    gate: &G,
    turns: u8,
) -> Result<Watched<A>, DriveError> {
    let model = model_of(rt, alloc, Standard::Atomic.text());
    drive_watched(rt, alloc, model, scripts, gate, turns)
}

// The length of the front at the place, whose verdict has no fault and no debt.
fn length_at<A: Allocator>(rt: &impl Abort, fronts: &[Front<A>], place: usize) -> usize {
    let front = fronts.get(place).expect(rt, "a front");
    let faults = front.verdict.faults.as_slice().len();
    let owed = front.verdict.owed.as_slice().len();
    holds(rt, faults == 0 && owed == 0, "a verdict that is empty");
    front.length
}

// Seat 2 may be anywhere meanwhile, so only bounds are known of the lengths.
fn watch_two<A: Handle + Send + Sync, R: Threads + Wait + Sync + Abort>(rt: &R, alloc: A) {
    let scripts = scripts(rt, alloc, &ADDITIONS);
    let gate = Interleaved::new();
    let watched = made(
        rt,
        watched(rt, alloc, scripts.as_slice(), &gate, 3),
        "a drive",
    );
    holds(rt, !is_up(&gate.late), "no wait that runs out");
    same(rt, &watched.driven.book.entries().len(), &4, "entries");
    let fronts = watched.fronts.as_slice();
    same(rt, &fronts.len(), &3, "fronts");
    let first = length_at(rt, fronts, 0);
    let second = length_at(rt, fronts, 1);
    let third = length_at(rt, fronts, 2);
    holds(rt, first <= 2 && first <= second, "the first front");
    holds(rt, 1 <= second && second <= 3, "the second front");
    holds(rt, second <= third && third <= 4, "the third front");
    drop(watched);
}

#[test]
fn a_front_in_the_midst_of_two_scripts(rt: HostRuntime) {
    watch_two(&rt, rt.alloc());
}

// With 0 turns there is no front; and the errors of a drive are also those of a watched one.
fn watch_none<A: Handle + Send + Sync, R: Threads + Wait + Sync + Abort>(rt: &R, alloc: A) {
    let scripts = scripts(rt, alloc, &ADDITIONS);
    let watched = made(
        rt,
        watched(rt, alloc, scripts.as_slice(), &OpenGate, 0),
        "a drive",
    );
    same(rt, &watched.fronts.as_slice().len(), &0, "fronts");
    same(rt, &watched.driven.book.entries().len(), &4, "entries");
    drop(watched);
}

#[test]
fn no_turn_and_no_worker(rt: HostRuntime) {
    watch_none(&rt, rt.alloc());
    let none = scripts(&rt, rt.alloc(), &[]);
    let blocked = watched(&rt, rt.alloc(), none.as_slice(), &OpenGate, 2).err();
    same(&rt, &blocked, &Some(DriveError::NoWorker), "no worker");
}
