//! Splits a line into words, which are separated by spaces or tabs. The first `#`, even inside a word, begins a
//! comment. Every other byte belongs to its word.

ghost use Rattle.std.specs.Prelude.{◌≡◌, ◌==◌, not, length, map, IfOk};
ghost use Rattle.std.specs.List.{before_first, list_any, position_or_len};
ghost use Rattle.acta_words.specs.Text.{is_blank, is_mark, words_of};

use std::alloc::{AllocError, Allocator};

// The length of the line without its comment.
fn comment_at(line: &[u8]) -> usize
    ensures { result ≡ position_or_len is_mark line.now }
{
    for (i, byte) in line.iter().enumerate() {
        if *byte == b'#' {
            return i;
        }
    }
    line.len()
}

/// Returns the line without its comment.
pub(crate) fn without_comment(line: &[u8]) -> &[u8]
    ensures { result.now ≡ before_first is_mark line.now }
{
    let at = comment_at(line);
    if at < line.len() { &line[..at] } else { line }
}

/// Returns the words of a line.
pub fn words_of<'a, A: Allocator + Copy>(
    alloc: A,
    line: &'a [u8],
) -> Result<Vec<&'a [u8], A>, AllocError>
    ensures { IfOk result (λ words. map (λ word. word.now) words.items ≡ words_of line.now) }
{
    without_comment(line)
        .split(|byte| *byte == b' ' || *byte == b'\t')
        .filter(|word| !word.is_empty())
        .collect(alloc)
}

fn has_inside(bytes: &[u8]) -> bool
    ensures { result ≡ list_any (λ b. not (is_blank b)) bytes.now }
{
    bytes.iter().any(|byte| *byte != b' ' && *byte != b'\t')
}

/// Returns whether the line has a word. Allocates nothing.
pub fn has_words(line: &[u8]) -> bool
    ensures { result ≡ not (length (words_of line.now) == 0) }
{
    has_inside(without_comment(line))
}
