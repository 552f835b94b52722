//! The words of statuses, and the elements of sets.

ghost use Rattle.std.specs.Prelude.{◌≡◌, ◌++◌, ◌∷◌, flat_map, OnOk};
ghost use Rattle.std.specs.Fmt.{signed_decimal};
ghost use Rattle.acta_script.specs.Writing.{elements_word, status_word};

use acta_table::Status;
use acta_words::{push_integer, push_word};
use std::alloc::{AllocError, Allocator};

/// The word of a status.
pub fn status_word(status: Status) -> &'static [u8]
    ensures { result.now ≡ status_word status }
{
    match status {
        Status::NotBegun => b"notbegun",
        Status::InProgress => b"inprogress",
        Status::Committed => b"committed",
        Status::Aborted => b"aborted",
        Status::Joined => b"joined",
    }
}

// Writes a byte and the number.
fn push_marked<A: Allocator>(
    line: &mut Vec<u8, A>,
    mark: u8,
    number: &i32,
) -> Result<(), AllocError>
    ensures { OnOk result (line.new.items ≡ line.old.items ++ mark ∷ signed_decimal number.now) }
{
    let at = line.len();
    push_integer(line, i64::from(*number))?;
    line[at] = mark;
    Ok(())
}

// Writes the numbers, each after a comma.
fn push_after<A: Allocator>(line: &mut Vec<u8, A>, numbers: &[i32]) -> Result<(), AllocError>
    ensures { OnOk result (line.new.items ≡ line.old.items ++ flat_map (λ n. 44 ∷ signed_decimal n) numbers.now) }
{
    for number in numbers {
        push_marked(line, b',', number)?;
    }
    Ok(())
}

/// Writes a space, and the elements of a set in braces, separated by commas.
pub fn push_elements<A: Allocator>(
    line: &mut Vec<u8, A>,
    elements: &[i32],
) -> Result<(), AllocError>
    ensures { OnOk result (line.new.items ≡ line.old.items ++ 32 ∷ elements_word elements.now) }
{
    let [first, others @ ..] = elements else {
        return push_word(line, b"{}");
    };
    line.push(b' ')?;
    push_marked(line, b'{', first)?;
    push_after(line, others)?;
    line.push(b'}')?;
    Ok(())
}
