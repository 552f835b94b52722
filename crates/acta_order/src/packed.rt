ghost use Rattle.std.specs.Prelude.{◌≡◌, ◌+◌, ◌/◌, length, take, drop, IfOk, IfSome};
ghost use Rattle.acta_order.specs.Packed.{number_of, packed, with_bit};

use std::alloc::{AllocError, Allocator};

// The number with one bit more, if that fits a word.
fn with_bit(number: u64, bit: bool) -> Option<u64>
    ensures { IfSome result (λ n. n ≡ with_bit number bit) }
{
    let double = number.checked_mul(2)?;
    if bit {
        double.checked_add(1)
    } else {
        Some(double)
    }
}

// The number with these bits, the highest first, if it fits a word.
fn number_of(marks: &[bool]) -> Option<u64>
    ensures { IfSome result (λ n. n ≡ number_of marks.now) }
{
    let mut number = 0u64;
    for mark in marks {
        number = with_bit(number, *mark)?;
    }
    Some(number)
}

// The first 64 marks, and those after them.
fn split_word(marks: &[bool]) -> (&[bool], &[bool])
    ensures first { result.0.now ≡ take 64 marks.now }
    ensures behind { result.1.now ≡ drop 64 marks.now }
{
    if marks.len() < 64 {
        (marks, &[])
    } else {
        marks.split_at(64)
    }
}

/// Packs marks to words of 64 bits. The answer is never `None`, since 64 bits fit a word; this is not proved.
pub(crate) fn packed<A: Allocator>(
    alloc: A,
    marks: &[bool],
) -> Result<Option<Vec<u64, A>>, AllocError>
    ensures { IfOk result (λ words. IfSome words (λ words. words.items ≡ packed (length marks.now / 64 + 1) marks.now)) }
{
    let mut words = Vec::new(alloc);
    let mut left = marks;
    for _ in 0..marks.len() / 64 + 1 {
        let (first, behind) = split_word(left);
        let Some(word) = number_of(first) else {
            return Ok(None);
        };
        words.push(word)?;
        left = behind;
    }
    Ok(Some(words))
}
