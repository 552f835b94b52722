//! Expectations of tests, each in a function of its own. If one fails, the test ends, so that the caller has no early return
//! at which it would drop its values. (Each crate of tests has its own, since no library may abort.)

use std::fmt::Debug;
use std::process::Abort;

/// The result of the call at this line. A call that fails ends the test.
pub fn made<T, E: Debug>(rt: &impl Abort, called: Result<T, E>, line: &str) -> T {
    called.expect(rt, line)
}

/// The condition holds, at this line.
pub fn holds(rt: &impl Abort, is_so: bool, line: &str) {
    assert!(rt; is_so, "at {line}");
}

/// The value found is the expected one, at this line.
pub fn same<T: PartialEq + Debug>(rt: &impl Abort, found: &T, due: &T, line: &str) {
    assert_eq!(rt; *found, *due, "at {line}");
}

/// The bytes found are those of the expected text, at this line.
pub fn expect_text(rt: &impl Abort, found: &[u8], due: &str, line: &str) {
    same(rt, &found, &due.as_bytes(), line);
}

/// The parts of a line before and after the first of these words.
pub fn parted<'a>(rt: &impl Abort, line: &'a str, word: &str) -> (&'a str, &'a str) {
    line.split_once(word).expect(rt, line)
}

/// The number in a word.
pub fn number(rt: &impl Abort, word: &str) -> u32 {
    word.parse().ok().expect(rt, word)
}
