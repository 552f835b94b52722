//! Gates of the tests: one at which two workers meet, and one that is false at some places.

use acta_locked::{Entry, Front, Gate};
use std::alloc::Allocator;
use std::sync::atomic::{AtomicU64, Ordering};
use std::sync::{Mutex, Wait};
use std::thread;

// How often a worker looks for the other, before it gives up.
const TURNS: u32 = 10_000_000;

// Raises a flag, and waits for the other; returns false if that is not raised in time.
fn meet(mine: &AtomicU64, other: &AtomicU64) -> bool {
    mine.store(1, Ordering::SeqCst);
    for _ in 0..TURNS {
        if other.load(Ordering::SeqCst) == 1 {
            return true;
        }
        thread::yield_now();
    }
    false
}

/// A gate at which two workers meet.
#[derive(Clone, Copy, PartialEq, Eq)]
pub enum Place {
    /// Before their second calls.
    BeforeSecond,
    /// After their first calls.
    AfterFirst,
}

/// A gate at which seats 1 and 2 meet, and which keeps the entries that it is shown.
#[derive(Drop)]
pub struct Meeting<'a, R: Wait, A: Allocator> {
    rt: &'a R,
    place: Place,
    first: AtomicU64,
    second: AtomicU64,
    shown: Mutex<Vec<Entry<A>, A>>,
}

impl<'a, R: Wait, A: Allocator + Copy> Meeting<'a, R, A> {
    /// A gate at which nobody has come yet.
    pub fn new(rt: &'a R, alloc: A, place: Place) -> Meeting<'a, R, A> {
        Meeting {
            rt,
            place,
            first: AtomicU64::new(0),
            second: AtomicU64::new(0),
            shown: Mutex::new(Vec::new(alloc)),
        }
    }

    // Raises the flag of the seat, and waits for the other's.
    fn meets(&self, seat: u8) -> bool {
        if seat == 1 {
            meet(&self.first, &self.second)
        } else {
            meet(&self.second, &self.first)
        }
    }

    /// Whether the gate was shown these entries, each once, and no others.
    pub fn has_shown(&self, entries: &[Entry<A>]) -> bool {
        let shown = self.shown.lock(self.rt);
        for entry in entries {
            let mut times = 0u64;
            for found in shown.iter() {
                if found.is_same(entry) {
                    times = times.wrapping_add(1);
                }
            }
            if times != 1 {
                return false;
            }
        }
        shown.len() == entries.len()
    }
}

impl<'a, R: Wait, A: Allocator + Copy> Gate<Entry<A>> for Meeting<'a, R, A> {
    fn before(&self, seat: u8, call: usize) -> bool {
        self.place != Place::BeforeSecond || call != 2 || self.meets(seat)
    }

    fn after(&self, seat: u8, call: usize, entry: &Entry<A>) -> bool {
        let Ok(kept) = entry.copy() else {
            return false;
        };
        if self.shown.lock(self.rt).push(kept).is_err() {
            return false;
        }
        self.place != Place::AfterFirst || call != 1 || self.meets(seat)
    }

    fn judged<B: Allocator>(&self, _turn: u8, _front: &Front<B>) {}
}

/// A call of the gate: before or after a call of a seat.
#[derive(Clone, Copy, PartialEq, Eq)]
pub struct Pass {
    pub seat: u8,
    pub call: usize,
    pub is_after: bool,
}

/// A gate that is false at these places, and true elsewhere.
#[derive(Drop)]
pub struct Shut<'a> {
    pub at: &'a [Pass],
}

impl<'a> Shut<'a> {
    fn is_open(&self, seat: u8, call: usize, is_after: bool) -> bool {
        let asked = Pass {
            seat,
            call,
            is_after,
        };
        !self.at.contains(&asked)
    }
}

impl<'a, X> Gate<X> for Shut<'a> {
    fn before(&self, seat: u8, call: usize) -> bool {
        self.is_open(seat, call, false)
    }

    fn after(&self, seat: u8, call: usize, _entry: &X) -> bool {
        self.is_open(seat, call, true)
    }

    fn judged<A: Allocator>(&self, _turn: u8, _front: &Front<A>) {}
}
