//! How a word of a faulty line is shown, and the column of a missing word.

use crate::prose::Prose;
use acta_words::word_span;
use std::alloc::Allocator;

// The most bytes of a word that are shown.
const MOST_SHOWN: usize = 40;

/// Adds the word: printable characters unchanged, others as a backslash and their number. Of a long word it adds the first
/// bytes.
pub fn put_shown<A: Allocator>(mut prose: Prose<A>, word: &[u8]) -> Prose<A> {
    for byte in word.iter().take(MOST_SHOWN) {
        prose = match *byte {
            b'\r' => prose.put("\\r"),
            b'\t' => prose.put("\\t"),
            b' '..=b'~' => prose.put(char::from(*byte)),
            byte => prose.put(format_args!("\\x{byte:02x}")),
        };
    }
    if word.len() > MOST_SHOWN {
        prose.put("..")
    } else {
        prose
    }
}

/// The column, from 1, of the missing word at this place: the one after the word before it. A missing first word has the
/// column of the line's first word.
pub fn column_of_missing(line: &[u8], place: usize) -> usize {
    match word_span(line, place.saturating_sub(1)) {
        Some(span) if place == 0 => span.from.saturating_add(1),
        Some(span) => span.to.saturating_add(1),
        None => 1,
    }
}
