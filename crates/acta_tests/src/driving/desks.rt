//! One script at either desk: a worker with a book of its own and the one worker of a drive get the same entries.

use crate::driving::books::{are_answered, are_same};
use crate::driving::scripts::{driven, scripts};
use crate::expecting::{holds, made};
use crate::models::model_of;
use acta_locked::{Driven, Entry, OpenGate, PlainDesk, Report, Script, WorkError, work};
use acta_machine::Handle;
use acta_models::Standard;
use std::process::Abort;
use std::sync::Wait;
use std::thread::Threads;

/// Events, some of which are admitted and some refused.
pub const CALLS: &str = "\
begin 1 flat
begin 1 flat
do 1 x write 5
begin 2 flat
do 2 x write 6
do 2 n add 7
commit 3
commit 1
do 2 x read
abort 2
commit 2
";

/// Their answers.
pub const ANSWERS: &str = "\
ok 1
no 8 by 1
ok 2 done
ok 3
no 14 by 1
ok 4 done
no 7 by 3
ok 5
ok 6 5
ok 7
no 7 by 2
";

/// The report of the worker at the desk.
pub fn reported<A: Handle>(
    alloc: A,
    desk: &mut PlainDesk<A>,
    one: &Script<A>,
) -> Result<Report<A>, WorkError> {
    work(alloc, desk, one, &OpenGate)
}

/// A worker at a desk with a book of its own: the report is that of the first seat and has the book's entries, which
/// are answered as the lines say.
pub fn worked_alone<A: Handle>(rt: &impl Abort, alloc: A, one: &Script<A>) -> PlainDesk<A> {
    let model = model_of(rt, alloc, Standard::Atomic.text());
    let mut desk = made(rt, PlainDesk::new(alloc, 1, model), "a desk");
    let report = made(rt, reported(alloc, &mut desk, one), "a report");
    let entries = desk.book.entries();
    let is_so = report.seat == 1 && are_same(report.entries.as_slice(), entries);
    holds(rt, is_so, "the report of one worker");
    are_answered(rt, alloc, entries, ANSWERS);
    desk
}

// Whether the drive has one report, and its entries and the book's are these.
fn has_driven<A: Handle>(driven: &Driven<A>, entries: &[Entry<A>]) -> bool {
    let (found, reports) = (driven.book.entries(), driven.reports.as_slice());
    are_same(entries, found) && reports.len() == 1 && are_same(reports[0].entries.as_slice(), found)
}

// The script at either desk: the one worker of a drive gets the same as who works alone.
fn both<A: Handle + Send + Sync, R: Threads + Wait + Sync + Abort>(rt: &R, alloc: A) {
    let scripts = scripts(rt, alloc, &[CALLS]);
    let one = scripts.as_slice().first().expect(rt, "a script");
    let desk = worked_alone(rt, alloc, one);
    let driven = driven(rt, alloc, Standard::Atomic, scripts.as_slice(), &OpenGate);
    holds(rt, has_driven(&driven, desk.book.entries()), "both desks");
    drop(driven);
    drop(desk);
}

#[test]
fn one_script_at_either_desk(rt: HostRuntime) {
    both(&rt, rt.alloc());
}
