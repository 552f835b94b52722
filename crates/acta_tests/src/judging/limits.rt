//! The longest list that is judged, a longer one, and one with many faults.

use crate::expecting::{holds, made, same};
use crate::judging::lines_of;
use crate::models::model_of;
use acta_axioms::{Axiom, Fault};
use acta_judge::{JudgeError, Verdict, judge};
use acta_machine::Handle;
use acta_models::Standard;
use acta_table::{Dep, Event, Kept, TxnId};
use std::alloc::Allocator;
use std::process::Abort;
use std::thread::Threads;

// So many items with this event, which names no operation.
fn repeated<A: Allocator + Copy>(
    rt: &impl Abort,
    alloc: A,
    event: &Event<A>,
    times: u32,
) -> Vec<Kept<A>, A> {
    let mut items = Vec::new(alloc);
    for _ in 0..times {
        let event = made(rt, event.copy(), "an event");
        made(rt, items.push(Kept { event, ret: None }), "an item");
    }
    items
}

/// So many commits of transaction 1, which never begins.
pub fn commits<A: Allocator + Copy>(rt: &impl Abort, alloc: A, times: u32) -> Vec<Kept<A>, A> {
    repeated(rt, alloc, &Event::Commit(TxnId(1)), times)
}

/// Whether these are the faults of so many commits: each ends a transaction that has not begun, and then each but the
/// first ends it once more.
pub fn are_of_commits(faults: &[Fault], times: u32) -> bool {
    let (mut broken, mut place) = (Axiom::EndedAfterBegun, 0u32);
    let mut are_due = true;
    for fault in faults {
        place = place.wrapping_add(1);
        if place > times {
            (broken, place) = (Axiom::EndedOnce, 2);
        }
        are_due &= fault.broken == broken && fault.place == place && fault.by == 1;
    }
    are_due && broken == Axiom::EndedOnce && place == times
}

// The verdict on so many commits, or on one edge that is formed so often.
fn judged<A: Handle + Send + Sync>(
    rt: &(impl Threads + Sync + Abort),
    alloc: A,
    event: &Event<A>,
    times: u32,
) -> Result<Verdict<A>, JudgeError> {
    let model = model_of(rt, alloc, Standard::Contingent.text());
    let items = repeated(rt, alloc, event, times);
    judge(rt, alloc, &model, items.as_slice())
}

// A list has at most 65,536 items.
#[test]
fn long_lists(rt: HostRuntime) {
    let commit = Event::Commit(TxnId(1));
    let longer = judged(&rt, rt.alloc(), &commit, 65_537).err();
    same(&rt, &longer, &Some(JudgeError::TooLong), "one more");
    let form = Event::Form(Dep::Cd, TxnId(1), TxnId(2));
    let longest = made(&rt, judged(&rt, rt.alloc(), &form, 65_536), "the most");
    holds(
        &rt,
        lines_of(&rt, rt.alloc(), &longest).is_empty(),
        "the most",
    );
    let found = made(&rt, judged(&rt, rt.alloc(), &commit, 4_096), "commits");
    let are_due = are_of_commits(found.faults.as_slice(), 4_096);
    holds(&rt, are_due, "commits");
}
