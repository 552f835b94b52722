//! Tests of the judge: histories of machines have no fault, and long lists are judged. Verdicts on other histories are
//! tested by the program's cases.

pub mod limits;
pub mod lists;

use crate::calls::owed_by;
use crate::expecting::{made, same};
use acta_judge::{Verdict, judge};
use acta_machine::{Handle, Machine};
use acta_script::{fault_line, owed_line};
use acta_table::{Items, Owed};
use std::alloc::{Allocator, Global};
use std::process::Abort;
use std::thread::Threads;

// Adds the lines of debts.
fn put_debts(rt: &impl Abort, other: Global, text: &mut String, owed: &[Owed]) {
    for debt in owed {
        let line = made(rt, owed_line(other, debt), "a debt");
        let line = made(rt, String::from_utf8(line), "a debt");
        made(rt, text.push_str(line.as_str()), "a debt");
        made(rt, text.push_str("\n"), "a debt");
    }
}

/// The lines of a verdict.
pub fn lines_of<A: Allocator>(rt: &impl Abort, other: Global, verdict: &Verdict<A>) -> String {
    let mut text = String::new(other);
    for fault in verdict.faults.as_slice() {
        let line = fault_line(other, fault.broken.number(), fault.place, fault.by);
        let line = made(rt, String::from_utf8(made(rt, line, "a fault")), "a fault");
        made(rt, text.push_str(line.as_str()), "a fault");
        made(rt, text.push_str("\n"), "a fault");
    }
    put_debts(rt, other, &mut text, verdict.owed.as_slice());
    text
}

/// The verdict on the machine's history has no fault, and the machine's debts.
pub fn is_faultless<A: Handle + Send + Sync>(
    rt: &(impl Threads + Sync + Abort),
    (alloc, other): (A, Global),
    machine: &Machine<A>,
    title: &str,
) {
    let verdict = judge(rt, alloc, machine.model(), machine.history());
    let verdict = made(rt, verdict, title);
    let mut due = String::new(other);
    let owed = made(rt, owed_by(machine), title);
    put_debts(rt, other, &mut due, owed.as_slice());
    same(
        rt,
        &lines_of(rt, other, &verdict).as_str(),
        &due.as_str(),
        title,
    );
    drop(verdict);
}
