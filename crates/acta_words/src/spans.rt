//! Locates the words of a line.

ghost use Rattle.std.specs.Prelude.{◌≡◌, ◌≤◌, not, length, drop, [], IfSome, IfNone};
ghost use Rattle.std.specs.List.{position_or_len};
ghost use Rattle.acta_words.specs.Spans.{IsSpanOf};
ghost use Rattle.acta_words.specs.Text.{is_blank, words_of};
ghost use Rattle.acta_words.specs.inside.NextSpans.{words_between, IsNextSpan};

use crate::words::without_comment;

/// The bytes of a line from `from` up to, but not including, `to`, counted from 0.
#[derive(Clone, Copy, PartialEq, Eq, Debug)]
pub struct Span {
    /// The first byte.
    pub from: usize,
    /// The byte after the last.
    pub to: usize,
}

fn is_blank(byte: u8) -> bool
    ensures { result ≡ is_blank byte }
{
    byte == b' ' || byte == b'\t'
}

// The number of leading blanks.
fn count_blanks(bytes: &[u8]) -> usize
    ensures count { result ≡ position_or_len (λ b. not (is_blank b)) bytes.now }
    ensures within { result ≤ length bytes.now }
{
    for (i, byte) in bytes.iter().enumerate() {
        if !is_blank(*byte) {
            return i;
        }
    }
    bytes.len()
}

// The length of the leading word.
fn word_length(bytes: &[u8]) -> usize
    ensures length { result ≡ position_or_len is_blank bytes.now }
    ensures within { result ≤ length bytes.now }
{
    for (i, byte) in bytes.iter().enumerate() {
        if is_blank(*byte) {
            return i;
        }
    }
    bytes.len()
}

fn bytes_from(bytes: &[u8], from: usize) -> &[u8]
    requires { from ≤ length bytes.now }
    ensures { result.now ≡ drop from bytes.now }
{
    &bytes[from..]
}

// The span of the first word at or after `at`. The bytes have no comment.
pub(crate) fn next_span(bytes: &[u8], at: usize) -> Option<Span>
    requires { at ≤ length bytes.now }
    ensures none { IfNone result (words_between (drop at bytes.now) ≡ []) }
    ensures some { IfSome result (IsNextSpan bytes.now at) }
{
    let from = at + count_blanks(bytes_from(bytes, at));
    let length = word_length(bytes_from(bytes, from));
    if length == 0 {
        return None;
    }
    Some(Span {
        from,
        to: from + length,
    })
}

/// Returns the span of the word with this number, counted from 0, or `None` if the line has too few words. Allocates
/// nothing.
pub fn word_span(line: &[u8], place: usize) -> Option<Span>
    ensures none { IfNone result (length (words_of line.now) ≤ place) }
    ensures some { IfSome result (IsSpanOf line.now place) }
{
    let bytes = without_comment(line);
    let mut at = 0;
    for _ in 0..place {
        at = next_span(bytes, at)?.to;
    }
    next_span(bytes, at)
}
