//! From a text to its model, or to its first fault.

ghost use Rattle.std.specs.Prelude.{◌≡◌, Ok, IfOk, IfErr, IfSome, option_map};
ghost use Rattle.std.specs.Result.{result_err};
ghost use Rattle.acta_lang.specs.Diagnostics.{IsWhole, diagnosed, fault_of, reported};
ghost use Rattle.acta_lang.specs.Meaning.{IsWhy, meaning};

use crate::declare::declare_all;
use crate::diagnostic::{ReadError, TextDiagnostic};
use crate::fault::AsmError;
use acta_table::Model;
use std::alloc::{AllocError, Allocator};

/// Parses the text into a checked model. Returns `Fault` with the first faulty line and the lowest code there, or `Memory`
/// if memory runs out.
pub fn assemble<A: Allocator + Copy>(alloc: A, text: &[u8]) -> Result<Model<A>, AsmError>
    ensures ok { IfOk result (λ model. meaning text.now ≡ Ok model) }
    ensures fault { IfErr result (IsWhy {A = A} (meaning text.now)) }
{
    let draft = declare_all(alloc, text)?;
    let parts = draft.parts(alloc);
    drop(draft);
    match Model::check(parts?) {
        Ok(model) => Ok(model),
        Err(_) => unreachable!(),
    }
}

/// The diagnostic of the text's first fault: the line and code that `assemble` returns, the word at fault, what is expected
/// in its place, and the earlier lines involved. `None` if `assemble` accepts the text.
pub fn diagnose<A: Allocator + Copy>(
    alloc: A,
    text: &[u8],
) -> Result<Option<TextDiagnostic<'_>>, AllocError>
    ensures diagnostic { IfOk result (λ found. option_map reported found ≡ diagnosed A text.now) }
    ensures whole { IfOk result (λ found. IfSome found (λ d. IsWhole (reported d))) }
    ensures fault { IfOk result (λ found. option_map (λ d. fault_of (reported d)) found ≡ result_err (meaning {A = A} text.now)) }
{
    match declare_all(alloc, text) {
        Ok(_) => Ok(None),
        Err(ReadError::Memory) => Err(AllocError),
        Err(ReadError::Fault(found)) => Ok(Some(found)),
    }
}
