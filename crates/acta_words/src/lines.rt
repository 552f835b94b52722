//! Splits a text into lines, which end at line feeds.

ghost use Rattle.std.specs.Prelude.{◌≡◌, ◌≤◌, ◌+◌, ◌==◌, [], length, drop};
ghost use Rattle.std.specs.Iterator.{YieldsFirstRef, item_count};
ghost use Rattle.std.specs.List.{position_or_len};
ghost use Rattle.std.specs.Option.{option_map_or};
ghost use Rattle.acta_words.specs.Text.{is_line_feed, lines_left, lines_of};
ghost use Rattle.acta_words.specs.inside.LinesToCome.{lines_to_come};

/// The lines of a text, without their line feeds. Bytes after the last line feed form a line only if there are any. The
/// empty text is one empty line.
#[derive(Drop)]
pub struct Lines<'a> {
    rest: Option<&'a [u8]>,
}

impl<'a> Lines<'a> {
    /// Returns an iterator over the lines of the text.
    pub fn of(text: &'a [u8]) -> Lines<'a>
        ensures lines { lines_to_come result ≡ lines_of text.now }
        ensures count { length (lines_to_come result) ≤ length text.now + 1 }
    {
        Lines { rest: Some(text) }
    }

    /// Returns whether no line is left.
    pub fn is_over(&self) -> bool
        ensures { result ≡ (length (lines_to_come self.now) == 0) }
    {
        self.rest.is_none()
    }
}

// The length of the first line.
fn line_end(text: &[u8]) -> usize
    ensures at { result ≡ position_or_len is_line_feed text.now }
    ensures within { result ≤ length text.now }
{
    for (i, byte) in text.iter().enumerate() {
        if *byte == b'\n' {
            return i;
        }
    }
    text.len()
}

// The text after the line feed at `end`; empty if there is none.
fn behind(text: &[u8], end: usize) -> &[u8]
    requires { end ≤ length text.now }
    ensures { result.now ≡ drop (end + 1) text.now }
{
    if end < text.len() {
        &text[end + 1..]
    } else {
        &text[end..]
    }
}

// The text, or `None` if it is empty.
fn if_left(text: &[u8]) -> Option<&[u8]>
    ensures { option_map_or (λ left. lines_of left.now) result [] ≡ lines_left text.now }
{
    if text.is_empty() { None } else { Some(text) }
}

impl<'a> Iterator for Lines<'a> {
    type Item = &'a [u8];

    ghost next_gives = { YieldsFirstRef lines_to_come };

    ghost remaining = { item_count lines_to_come };

    fn next(&mut self) -> Option<&'a [u8]> {
        let text = self.rest?;
        let end = line_end(text);
        self.rest = if_left(behind(text, end));
        Some(&text[..end])
    }
}
