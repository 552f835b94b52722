//! Words shared by lines and conditions.

ghost use Rattle.std.specs.Prelude.{◌≡◌, ◌++◌, ◌∷◌, OnOk, get_or};
ghost use Rattle.acta_ends.specs.EndLines.{alternative_word, has_choice, number_word};

use acta_script::ProgramLine;
use acta_words::push_natural;
use itoa::Buffer;
use std::alloc::{AllocError, Allocator};

/// No seat waits, and there is no debt.
pub(crate) const COMPLETE: &[u8] = b"complete";

/// A seat waits.
pub(crate) const STUCK: &[u8] = b"stuck";

/// There is a debt.
pub(crate) const OWING: &[u8] = b"owing";

/// Before a test that must fail.
pub(crate) const NOT: &[u8] = b"not";

/// Between two tests.
pub(crate) const AND: &[u8] = b"and";

// The number in the input of the line at this position.
fn number_at(numbers: &[usize], line: usize) -> usize
    ensures { result ≡ get_or numbers.now line 0 }
{
    match numbers.get(line) {
        Some(number) => *number,
        None => 0,
    }
}

/// Writes a space and the number in the input of the line at this position.
pub(crate) fn push_number<A: Allocator>(
    text: &mut Vec<u8, A>,
    numbers: &[usize],
    line: usize,
) -> Result<(), AllocError>
    ensures { OnOk result (text.new.items ≡ text.old.items ++ 32 ∷ number_word numbers.now line) }
{
    push_natural(text, number_at(numbers, line) as u64)
}

/// Writes a byte and the number of an alternative, from 1.
pub(crate) fn push_alternative<A: Allocator>(
    text: &mut Vec<u8, A>,
    before: u8,
    alternative: usize,
) -> Result<(), AllocError>
    ensures { OnOk result (text.new.items ≡ text.old.items ++ before ∷ alternative_word alternative) }
{
    let mut digits = Buffer::new();
    text.push(before)?;
    // Nothing bounds an alternative here, so its number from 1 may need more than 64 bits.
    text.extend_from_slice(digits.format(alternative as u128 + 1).as_bytes())
}

/// Whether the line at this position has more than one alternative.
pub(crate) fn has_choice<A: Allocator>(lines: &[ProgramLine<A>], line: usize) -> bool
    ensures { result ≡ has_choice lines.now line }
{
    match lines.get(line) {
        Some(found) => found.alternatives.as_slice().len() > 1,
        None => false,
    }
}
