//! Verdicts on lists, each allocation refused in turn.

use crate::expecting::holds;
use crate::judging::limits::{are_of_commits, commits};
use crate::judging::lines_of;
use crate::judging::lists::{Judged, by_model, with_two};
use crate::models::{Models, model_of};
use crate::refused::{MOST, at_least, is_over};
use acta_judge::{Cut, Verdict, judge, judge_in_parts};
use acta_machine::Handle;
use acta_models::Standard;
use acta_table::{Kept, Model};
use refusing::Refusing;
use std::alloc::{Allocator, Global};
use std::process::Abort;
use std::thread::Threads;

// The verdict on a list that is not too long, judged whole or in this many parts. `None` if memory ran out.
fn verdict_on<A: Handle + Send + Sync>(
    rt: &(impl Threads + Sync),
    alloc: A,
    model: &Model<A>,
    kept: &[Kept<A>],
    parts: usize,
) -> Option<Verdict<A>> {
    if parts == 0 {
        return judge(rt, alloc, model, kept).ok();
    }
    let cut = Cut {
        parts,
        places: 1,
        edges: 1,
    };
    judge_in_parts(rt, alloc, cut, model, kept).ok()
}

// The lines of the verdict.
fn lines_on<A: Handle + Send + Sync>(
    rt: &(impl Threads + Sync + Abort),
    (alloc, other): (A, Global),
    model: &Model<A>,
    kept: &[Kept<A>],
    parts: usize,
) -> Option<String> {
    let verdict = verdict_on(rt, alloc, model, kept, parts)?;
    Some(lines_of(rt, other, &verdict))
}

// The verdict on a list, each allocation refused. Returns how many were.
fn refuse_list<A: Handle + Send + Sync, B: Allocator>(
    rt: &(impl Threads + Sync + Abort),
    (heap, alloc, other): (&Refusing<B>, A, Global),
    model: &Model<A>,
    judged: &Judged<A>,
    parts: usize,
) -> u64 {
    let (kept, due) = (judged.items.as_slice(), judged.due.as_str());
    for nth in 1..MOST {
        heap.refuse(nth);
        let answer = lines_on(rt, (alloc, other), model, kept, parts);
        if is_over(rt, heap, answer, due) {
            return nth.wrapping_sub(1);
        }
    }
    rt.panic("a verdict makes too many allocations")
}

// Each of the lists on the model that the text means.
fn refuse_lists<A: Handle + Send + Sync, B: Allocator>(
    rt: &(impl Threads + Sync + Abort),
    (heap, alloc, other): (&Refusing<B>, A, Global),
    (model, lists): (&str, &str),
    parts: usize,
) {
    let models = Models::of(rt, alloc, model);
    for lines in lists.split("\n# ") {
        let judged = Judged::read(rt, alloc, &models.wider, lines);
        let refused = refuse_list(rt, (heap, alloc, other), &models.model, &judged, parts);
        at_least(rt, refused, 2, lines);
        drop(judged);
    }
    drop(models);
}

// Commits of a transaction that never began, of which each is faulty: the first allocations are refused, and then each
// of so many. Returns how many were.
fn refuse_commits<A: Handle + Send + Sync, B: Allocator>(
    rt: &(impl Threads + Sync + Abort),
    (heap, alloc): (&Refusing<B>, A),
    times: u32,
    (first, step): (u64, u64),
) -> u64 {
    let model = model_of(rt, alloc, Standard::Atomic.text());
    let kept = commits(rt, alloc, times);
    let mut nth = 0u64;
    for refused in 0..MOST {
        nth = nth.wrapping_add(if refused < first { 1 } else { step });
        heap.refuse(nth);
        let verdict = verdict_on(rt, alloc, &model, kept.as_slice(), 0);
        let was_refused = !heap.is_waiting();
        heap.refuse(0);
        holds(rt, verdict.is_none() == was_refused, "a verdict");
        if let Some(verdict) = verdict {
            let are_due = are_of_commits(verdict.faults.as_slice(), times);
            holds(rt, are_due, "a verdict");
            drop(verdict);
            drop(kept);
            drop(model);
            return refused;
        }
    }
    rt.panic("a verdict makes too many allocations")
}

// The lists with an allocator that threads may share, since they may share the one inside it.
fn refuse_shared_lists<B: Allocator + Send + Sync>(
    rt: &(impl Threads + Sync + Abort),
    (heap, other): (&Refusing<B>, Global),
    lists: (&str, &str),
    parts: usize,
) {
    refuse_lists(rt, (heap, heap, other), lists, parts);
}

#[test]
fn verdicts_on_lists(rt: HostRuntime) {
    let heap = Refusing::new(rt.alloc());
    for lists in by_model() {
        refuse_shared_lists(&rt, (&heap, rt.alloc()), lists, 0);
    }
    for lists in with_two() {
        refuse_shared_lists(&rt, (&heap, rt.alloc()), lists, 0);
        refuse_shared_lists(&rt, (&heap, rt.alloc()), lists, 3);
    }
}

// The commits with such an allocator.
fn refuse_shared_commits<B: Allocator + Send + Sync>(
    rt: &(impl Threads + Sync + Abort),
    heap: &Refusing<B>,
    times: u32,
    some: (u64, u64),
) -> u64 {
    refuse_commits(rt, (heap, heap), times, some)
}

#[test]
fn verdicts_on_many_faults(rt: HostRuntime) {
    let heap = Refusing::new(rt.alloc());
    let refused = refuse_shared_commits(&rt, &heap, 256, (MOST, 1));
    at_least(&rt, refused, 80, "256 commits");
    let refused = refuse_shared_commits(&rt, &heap, 4_096, (48, 128));
    at_least(&rt, refused, 50, "4,096 commits");
}
