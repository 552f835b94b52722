//! Each allocation of a call refused in turn. A case is a call, its initial state and the readers of that state: if an
//! allocation is refused, the call runs out of memory, the readers answer as before, and the same call then answers as it
//! does when nothing is refused.

mod books;
mod debuggers;
mod edges;
mod explorers;
mod judges;
mod machines;
mod permits;
mod shells;
mod tables;
mod values;
mod walks;

use crate::expecting::{expect_text, holds, made, parted};
use refusing::{Case, Refusing, refuse_each};
use std::alloc::{Allocator, Global};
use std::process::Abort;

/// The runtime of a test, memory that may be refused, and memory that never is.
#[derive(Drop)]
pub struct Setting<'a, R, A: Allocator> {
    pub rt: &'a R,
    pub alloc: A,
    pub other: Global,
}

/// Refuses each allocation of a case whose call answers `due`. Returns how many were refused.
pub fn refuse<B: Allocator, C: Case>(
    rt: &impl Abort,
    heap: &Refusing<B>,
    case: &C,
    due: &str,
) -> u64 {
    made(rt, refuse_each(heap, case, due), due)
}

/// More allocations than any call among threads makes.
pub const MOST: u64 = 4_000;

/// For a call in threads, which can't be a case: whether it answered `due` without a refused allocation, after
/// `heap.refuse(nth)`. If one was refused, it ran out of memory, or did without it and answered `due`.
pub fn is_over<B: Allocator>(
    rt: &impl Abort,
    heap: &Refusing<B>,
    answer: Option<String>,
    due: &str,
) -> bool {
    let was_refused = !heap.is_waiting();
    heap.refuse(0);
    holds(rt, was_refused || answer.is_some(), due);
    if let Some(text) = &answer {
        expect_text(rt, text.as_bytes(), due, due);
    }
    !was_refused
}

/// At least this many allocations were refused.
pub fn at_least(rt: &impl Abort, refused: u64, least: u64, calls: &str) {
    assert!(rt;
        refused >= least,
        "only {refused} refused allocations of {calls}"
    );
}

/// The question and the answer as `shown` has them, each part after a space.
pub fn asked_and_answer<'a>(rt: &impl Abort, line: &'a str) -> (&'a str, &'a str) {
    parted(rt, line, " --")
}

/// A call and its answer, on one line with `--` between them.
pub fn call_and_answer<'a>(rt: &impl Abort, line: &'a str) -> (&'a str, &'a str) {
    parted(rt, line, " -- ")
}
