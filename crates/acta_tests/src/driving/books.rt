//! What is asked of entries: whether they are equal, whether they are a seat's part of a book and answer its script, what
//! their answers are, and whether a machine of its own answers them again.

use crate::expecting::{made, same};
use acta_locked::{Book, Entry, Report, Script, TakeError};
use acta_machine::{Handle, Machine};
use acta_script::answer_line;
use acta_table::{Answer, Event, Model};
use std::alloc::Allocator;
use std::process::Abort;

/// Whether the two lists have the same entries, in order.
pub fn are_same<A: Allocator>(entries: &[Entry<A>], others: &[Entry<A>]) -> bool {
    if entries.len() != others.len() {
        return false;
    }
    for k in 0..entries.len() {
        if !entries[k].is_same(&others[k]) {
            return false;
        }
    }
    true
}

// Whether the entries of this seat are those of the report, in order, and their events are the script.
fn is_part<A: Allocator>(
    entries: &[Entry<A>],
    seat: u8,
    script: &Script<A>,
    report: &Report<A>,
) -> bool {
    let (events, reported) = (script.as_slice(), report.entries.as_slice());
    if report.seat != seat || reported.len() != events.len() {
        return false;
    }
    let mut next = 0;
    for entry in entries {
        if entry.seat == seat {
            if next >= events.len() || !entry.event.is_same(&events[next]) {
                return false;
            }
            if !entry.is_same(&reported[next]) {
                return false;
            }
            next += 1;
        }
    }
    next == events.len()
}

/// Whether each seat's report is its part of the entries and answers its script.
pub fn are_parts<A: Allocator>(
    entries: &[Entry<A>],
    scripts: &[Script<A>],
    reports: &[Report<A>],
) -> bool {
    if reports.len() != scripts.len() || scripts.len() > 16 {
        return false;
    }
    for k in 0..scripts.len() {
        if !is_part(entries, k as u8 + 1, &scripts[k], &reports[k]) {
            return false;
        }
    }
    true
}

/// The answers of the entries, a line each.
pub fn answers<A: Allocator, B: Allocator + Copy>(
    rt: &impl Abort,
    other: B,
    entries: &[Entry<A>],
) -> String<B> {
    let mut text = String::new(other);
    for entry in entries {
        let line = made(rt, answer_line(other, &entry.answer), "an answer");
        let line = made(rt, String::from_utf8(line), "an answer");
        made(rt, text.push_str(line.as_str()), "an answer");
        made(rt, text.push_str("\n"), "an answer");
    }
    text
}

/// The answers of the entries are these lines.
pub fn are_answered<A: Allocator + Copy>(
    rt: &impl Abort,
    alloc: A,
    entries: &[Entry<A>],
    due: &str,
) {
    same(
        rt,
        &answers(rt, alloc, entries).as_str(),
        &due,
        "the answers",
    );
}

// Whether the machine takes the event with this answer.
fn takes<A: Handle>(
    rt: &impl Abort,
    machine: &mut Machine<A>,
    event: &Event<A>,
    answer: &Answer,
) -> bool {
    made(rt, machine.take(event), "an event") == *answer
}

// The number of refused entries; `None` if the entries are not numbered from 1, or the machine answers an event otherwise
// than its entry.
fn replayed_on<A: Handle>(
    rt: &impl Abort,
    machine: &mut Machine<A>,
    entries: &[Entry<A>],
) -> Option<u32> {
    let (mut number, mut refused) = (0u32, 0u32);
    for entry in entries {
        number = number.wrapping_add(1);
        if !takes(rt, machine, &entry.event, &entry.answer) || entry.number != number {
            return None;
        }
        if matches!(entry.answer, Answer::Refused { .. }) {
            refused = refused.wrapping_add(1);
        }
    }
    Some(refused)
}

/// The same of a new machine on the model.
pub fn replayed<A: Handle>(
    rt: &impl Abort,
    alloc: A,
    model: Model<A>,
    entries: &[Entry<A>],
) -> Option<u32> {
    let mut machine = made(rt, Machine::new(alloc, model), "a machine");
    let refused = replayed_on(rt, &mut machine, entries);
    drop(machine);
    refused
}

/// Takes the event of the first seat, in a function of its own, so that callers need not read all that is known of the
/// entry.
pub fn taken<A: Handle>(book: &mut Book<A>, event: Event<A>) -> Result<Entry<A>, TakeError> {
    book.take(1, event)
}
