//! Writes a line word by word, and a text line by line.

ghost use Rattle.std.specs.Prelude.{◌≡◌, ◌++◌, ◌∷◌, [], MatchResult, decimal};
ghost use Rattle.std.specs.Fmt.{signed_decimal};
ghost use Rattle.std.specs.Io.{StartsWith};
ghost use Rattle.acta_words.specs.Text.{text_of};

use itoa::Buffer;
use std::alloc::{AllocError, Allocator};

/// Appends a space and the word to the line. On `Err` part of this may have been appended.
pub fn push_word<A: Allocator>(line: &mut Vec<u8, A>, word: &[u8]) -> Result<(), AllocError>
    ensures { MatchResult result (λ _. line.new.items ≡ line.old.items ++ 32 ∷ word.now) (λ _. StartsWith line.new.items line.old.items) }
{
    line.push(b' ')?;
    line.extend_from_slice(word)
}

/// Appends a space and the digits of the number to the line. On `Err` part of this may have been appended.
pub fn push_natural<A: Allocator>(line: &mut Vec<u8, A>, number: u64) -> Result<(), AllocError>
    ensures { MatchResult result (λ _. line.new.items ≡ line.old.items ++ 32 ∷ decimal number) (λ _. StartsWith line.new.items line.old.items) }
{
    let mut digits = Buffer::new();
    push_word(line, digits.format(number).as_bytes())
}

/// Appends a space, a minus if the number is negative, and its digits to the line. On `Err` part of this may have been
/// appended.
pub fn push_integer<A: Allocator>(line: &mut Vec<u8, A>, value: i64) -> Result<(), AllocError>
    ensures { MatchResult result (λ _. line.new.items ≡ line.old.items ++ 32 ∷ signed_decimal value) (λ _. StartsWith line.new.items line.old.items) }
{
    let mut digits = Buffer::new();
    push_word(line, digits.format(value).as_bytes())
}

/// Appends the line and a line feed to the text. On `Err` part of this may have been appended.
pub fn push_line<A: Allocator>(text: &mut Vec<u8, A>, line: &[u8]) -> Result<(), AllocError>
    ensures { MatchResult result (λ _. text.new.items ≡ text.old.items ++ text_of (line.now ∷ [])) (λ _. StartsWith text.new.items text.old.items) }
{
    text.extend_from_slice(line)?;
    text.push(b'\n')?;
    Ok(())
}
