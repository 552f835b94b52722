//! Assertions of the tests, each in a function of its own. A test that fails ends there without dropping anything, so
//! the function that asserts is proved sooner. (Each crate of tests has its own, since no library may abort.)

use refusing::{Case, Refusing, refuse_each};
use std::alloc::Allocator;
use std::fmt::Debug;
use std::process::Abort;

/// An upper bound on the allocations of any run.
pub const MOST: u64 = 10_000;

/// Returns the result of the call at this line. A call that fails ends the test.
pub fn made<T, E: Debug>(rt: &impl Abort, called: Result<T, E>, line: &str) -> T {
    called.expect(rt, line)
}

/// Returns the two parts of a line, before and after the first place of the word.
pub fn parted<'a>(rt: &impl Abort, line: &'a str, word: &str) -> (&'a str, &'a str) {
    line.split_once(word).expect(rt, line)
}

/// Asserts that the condition holds.
pub fn holds(rt: &impl Abort, is_so: bool, line: &str) {
    assert!(rt; is_so, "at {line}");
}

/// Asserts that the bytes are the expected ones.
pub fn expect_text(rt: &impl Abort, found: &[u8], due: &[u8], line: &str) {
    assert_eq!(rt; found, due, "at {line}");
}

/// Asserts that the number is the expected one.
pub fn counts(rt: &impl Abort, found: u64, due: u64, line: &str) {
    assert_eq!(rt; found, due, "at {line}");
}

/// Refuses each allocation of the call of a case, which answers `due`. Returns how many allocations were refused.
pub fn refuse<B: Allocator, C: Case>(
    rt: &impl Abort,
    heap: &Refusing<B>,
    case: &C,
    due: &str,
    line: &str,
) -> u64 {
    made(rt, refuse_each(heap, case, due), line)
}

/// Asserts that at least this many allocations were refused.
pub fn at_least(rt: &impl Abort, refused: u64, least: u64, calls: &str) {
    assert!(rt;
        refused >= least,
        "only {refused} refused allocations of {calls}"
    );
}
