//! Texts whose first words are promised.

ghost use Rattle.std.specs.Prelude.{IfOk};
ghost use Rattle.std.specs.Io.{StartsWith};

use std::alloc::{AllocError, Allocator};

/// The text that begins with the first words, with the rest after them.
pub fn begun<A: Allocator>(head: Vec<u8, A>, rest: &str) -> Result<Vec<u8, A>, AllocError>
    ensures { IfOk result (λ text. StartsWith text.items head.items) }
{
    let mut text = head;
    text.extend_from_slice(rest.as_bytes())?;
    Ok(text)
}
