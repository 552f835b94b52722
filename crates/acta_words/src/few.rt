//! The words of a line, in an array: most lines have few words, and need no memory then.

ghost use Rattle.std.specs.Prelude.{◌≡◌, ◌<◌, ◌≤◌, ◌++◌, ◌∷◌, [], length, map, true, false, IfSome, IfNone};
ghost use Rattle.acta_words.specs.Text.{words_of};

use crate::spans::next_span;
use crate::words::without_comment;

// The most words that fit.
const MOST: usize = 8;

/// At most 8 words. Contracts see their list.
#[derive(Drop)]
pub struct FewWords<'a> {
    words: [&'a [u8]; MOST],
    count: usize,
}

impl<'a> std::marker::Model for FewWords<'a> {
    ghost use Rattle.std.specs.Prelude.{◌≤◌, ℕ, List, map, take};
    ghost use Rattle.acta_words.specs.declared.few.TheConstants.{MOST};

    ghost Value = { List (List ℕ) };

    ghost view = { λ few. map (λ word. word.now) (take few.count few.words) };

    ghost invariant = { λ few. few.count ≤ MOST };
}

impl<'a> FewWords<'a> {
    // No word.
    fn new() -> FewWords<'a>
        ensures { result ≡ [] }
    {
        FewWords {
            words: [b"".as_slice(); MOST],
            count: 0,
        }
    }

    // Appends a word, unless there are 8. Returns whether it fits.
    fn push(&mut self, word: &'a [u8]) -> bool
        ensures fits { result ≡ true → self.new ≡ self.old ++ word.now ∷ [] }
        ensures full { result ≡ false → 8 ≤ length self.old }
    {
        if self.count == MOST {
            return false;
        }
        self.words[self.count] = word;
        self.count += 1;
        true
    }

    /// The words.
    pub fn as_slice(&self) -> &[&'a [u8]]
        ensures { map (λ word. word.now) result.now ≡ self.now }
    {
        &self.words[..self.count]
    }
}

/// Returns the words of a line, or `None` if there are more than 8.
pub fn few_words(line: &[u8]) -> Option<FewWords<'_>>
    ensures few { IfSome result (λ words. words ≡ words_of line.now) }
    ensures many { IfNone result (8 < length (words_of line.now)) }
{
    let bytes = without_comment(line);
    let mut words = FewWords::new();
    let mut at = 0;
    while let Some(span) = next_span(bytes, at) {
        if !words.push(&bytes[span.from..span.to]) {
            return None;
        }
        at = span.to;
    }
    Some(words)
}
