//! Suggests a known word that is one letter off.

use std::alloc::{AllocError, Allocator};
use strsim::osa_distance;

// A longer word is never one letter off a known one.
const LONGEST: usize = 33;

/// The first of the known words that is one letter off: one letter is missing, added, different, or swapped with its
/// neighbour, or only the case differs. `None` for a known word.
pub fn nearest<'a, A: Allocator + Copy>(
    alloc: A,
    word: &[u8],
    known: &[&'a str],
) -> Result<Option<&'a str>, AllocError> {
    if word.len() > LONGEST {
        return Ok(None);
    }
    let Ok(word) = std::str::from_utf8(word) else {
        return Ok(None);
    };
    if known.contains(&word) {
        return Ok(None);
    }
    for one in known {
        if one.eq_ignore_ascii_case(word) {
            return Ok(Some(*one));
        }
    }
    for one in known {
        if one.len() > 1 && osa_distance(alloc, word, one)? == 1 {
            return Ok(Some(*one));
        }
    }
    Ok(None)
}
