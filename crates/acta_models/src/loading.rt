//! The standard models, read from their texts.

ghost use Rattle.std.specs.Prelude.{◌≡◌, Ok, IfOk, map};
ghost use Rattle.acta_lang.specs.Canonical.{canonical};
ghost use Rattle.acta_lang.specs.Meaning.{meaning};
ghost use Rattle.acta_models.specs.Standards.{all_standards, text_of_standard};

use crate::texts::Standard;
use acta_lang::{AsmError, assemble};
use acta_table::Model;
use std::alloc::{AllocError, Allocator};

// Parses the text of a standard model.
fn load<A: Allocator + Copy>(alloc: A, name: Standard) -> Result<Model<A>, AllocError>
    ensures meant { IfOk result (λ model. meaning (text_of_standard name) ≡ Ok model) }
    ensures canonical { IfOk result (λ model. canonical model ≡ text_of_standard name) }
{
    match assemble(alloc, name.text().as_bytes()) {
        Ok(model) => Ok(model),
        Err(AsmError::Memory) => Err(AllocError),
        Err(AsmError::Fault(_)) => unreachable!(),
    }
}

/// The five standard models, in the order of `Standard::ALL`, parsed from their texts, which are canonical.
pub fn load_all<A: Allocator + Copy>(alloc: A) -> Result<Vec<Model<A>, A>, AllocError>
    ensures meant { IfOk result (λ models. map Ok models.items ≡ map (λ name. meaning (text_of_standard name)) all_standards) }
    ensures canonical { IfOk result (λ models. map canonical models.items ≡ map text_of_standard all_standards) }
    ensures order { Standard.ALL ≡ all_standards }
{
    let mut models = Vec::new(alloc);
    models.push(load(alloc, Standard::Atomic)?)?;
    models.push(load(alloc, Standard::Nested)?)?;
    models.push(load(alloc, Standard::SplitJoin)?)?;
    models.push(load(alloc, Standard::Recoverable)?)?;
    models.push(load(alloc, Standard::Contingent)?)?;
    Ok(models)
}
