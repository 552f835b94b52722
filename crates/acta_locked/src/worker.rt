//! A worker's script, its gate and its report.

ghost use Rattle.std.specs.Prelude.{◌≡◌, ◌≤◌, ℕ, List, Err, Ok, false, true, length, map, IfErr, IfOk, OnErr};
ghost use Rattle.acta_locked.specs.declared.book.Entry.{Entry};
ghost use Rattle.acta_locked.specs.Desks.{IsReport, IsStopped, IsWhy};
ghost use Rattle.acta_locked.specs.Gates.{LetOn};

use crate::book::{Entry, TakeError};
use crate::desk::Desk;
use crate::watch::Front;
use acta_table::{Event, Items};
use std::alloc::Allocator;

/// Called around each call of a worker, outside the lock, with the seat and the number of the worker's call, from 1; X is
/// the type of the answers. A function may wait; returning false gives up.
pub trait Gate<X> {
    // The calls of a seat at which the gate may give up; unless stated, any.
    ghost may_stop: { Self → ℕ → ℕ → Type 0 } = { λ _ _ _. Unit {0} };

    // The calls of a seat before which the gate may return true; unless stated, any.
    ghost may_pass: { Self → ℕ → ℕ → Type 0 } = { λ _ _ _. Unit {0} };

    // The calls of a seat, with their answers, after which the gate may return true; unless stated, any.
    ghost may_go_on: { Self → ℕ → ℕ → X → Type 0 } = { λ _ _ _ _. Unit {0} };

    /// Called before the event is submitted.
    fn before(&self, seat: u8, call: usize) -> bool
        ensures stops { result ≡ false → may_stop self.now seat call }
        ensures passes { result ≡ true → may_pass self.now seat call };

    /// Called with the entry that the desk returned.
    fn after(&self, seat: u8, call: usize, entry: &X) -> bool
        ensures stops { result ≡ false → may_stop self.now seat call }
        ensures goes_on { result ≡ true → may_go_on self.now seat call entry.now };

    /// Called by the judging thread after each front, outside the lock, with the number of its turn, from 1. It may wait.
    fn judged<A: Allocator>(&self, turn: u8, front: &Front<A>);
}

/// A gate that always returns true, and never waits.
#[derive(Clone, Copy)]
pub struct OpenGate;

impl<X> Gate<X> for OpenGate {
    ghost may_stop = { λ _ _ _. ⊥ };

    fn before(&self, _seat: u8, _call: usize) -> bool {
        true
    }

    fn after(&self, _seat: u8, _call: usize, _entry: &X) -> bool {
        true
    }

    fn judged<A: Allocator>(&self, _turn: u8, _front: &Front<A>) {}
}

/// The events that one worker submits, in order.
#[derive(Drop)]
pub struct Script<A: Allocator> {
    events: Vec<Event<A>, A>,
}

impl<A: Allocator> std::marker::Model for Script<A> {
    ghost use Rattle.std.specs.Prelude.{List};
    ghost use Rattle.acta_table.specs.declared.event.Event.{Event};

    ghost Value = { List (Event A) };

    ghost view = { λ s. s.events.items };
}

impl<A: Allocator> Script<A> {
    /// The script of these events. Does not allocate.
    pub fn of(events: Vec<Event<A>, A>) -> Script<A>
        ensures { result ≡ events.items }
    {
        Script { events }
    }

    /// The events, in order.
    pub fn as_slice(&self) -> &[Event<A>]
        ensures { result.now ≡ self.now }
    {
        self.events.as_slice()
    }
}

/// A worker's result: its seat, and the entries of its calls, in order.
#[derive(Drop)]
pub struct Report<A: Allocator> {
    pub seat: u8,
    pub entries: Items<Entry<A>, A>,
}

/// Why a worker has no report.
#[derive(Clone, Copy, PartialEq, Eq, Debug)]
pub enum WorkError {
    /// The gate gave up at this seat.
    GaveUp(u8),
    /// The book had no room.
    BookFull,
    /// Memory ran out.
    Memory,
}

/// Runs one worker: submits the script's events at the desk, in order, and reports the entries returned. After an error the
/// desk has entries of the first events of the script, those returned before.
pub fn work<A: Allocator + Copy, D: Desk<Event<A>, Entry<A>>, G: Gate<Entry<A>>>(
    alloc: A,
    desk: &mut D,
    script: &Script<A>,
    gate: &G,
) -> Result<Report<A>, WorkError>
    ensures same_seat { D.seat_of desk.new ≡ D.seat_of desk.old }
    ensures report { IfOk result (λ report. IsReport D.seat_in D.event_in (D.seat_of desk.old) script.now report) }
    ensures answered { IfOk result (λ report. D.answered desk.old report.entries desk.new) }
    ensures gave_up { (seat : ℕ) → result ≡ Err (WorkError.GaveUp seat) → seat ≡ D.seat_of desk.old }
    ensures stopped { (seat : ℕ) → result ≡ Err (WorkError.GaveUp seat)
        → (k : ℕ) × (1 ≤ k) × (k ≤ length script.now) × G.may_stop gate.now seat k }
    ensures before { OnErr result (IsStopped D.seat_in D.event_in (D.answered desk.old) (D.seat_of desk.old) script.now desk.new) }
    ensures let_on { IfOk result (λ report.
        LetOn (G.may_pass gate.now (D.seat_of desk.old)) (G.may_go_on gate.now (D.seat_of desk.old)) 1 report.entries) }
    ensures gave { IfOk result (λ report. D.gave desk.old (map Ok report.entries) desk.new) }
    ensures why { IfErr result (IsWhy D.seat_in D.event_in (λ answers. D.gave desk.old answers desk.new)
        (G.may_stop gate.now (D.seat_of desk.old)) (G.may_pass gate.now (D.seat_of desk.old)) (G.may_go_on gate.now (D.seat_of desk.old))
        (D.seat_of desk.old) script.now) }
{
    let seat = desk.seat();
    let events = script.as_slice();
    let mut entries = Vec::new(alloc);
    if entries.reserve(events.len()).is_err() {
        return Err(WorkError::Memory);
    }
    for k in 0..events.len() {
        let Ok(event) = events[k].copy() else {
            return Err(WorkError::Memory);
        };
        if !gate.before(seat, k + 1) {
            return Err(WorkError::GaveUp(seat));
        }
        let entry = match desk.hand(event) {
            Ok(entry) => entry,
            Err(TakeError::BookFull) => return Err(WorkError::BookFull),
            Err(TakeError::Memory) => return Err(WorkError::Memory),
        };
        if !gate.after(seat, k + 1, &entry) {
            return Err(WorkError::GaveUp(seat));
        }
        if entries.push(entry).is_err() {
            return Err(WorkError::Memory);
        }
    }
    let entries = Items::of(entries);
    Ok(Report { seat, entries })
}
