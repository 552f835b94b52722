//! Reads a model from bytes: a text or an image.

ghost use Rattle.std.specs.Prelude.{◌≡◌, Ok, IfOk, IfErr};
ghost use Rattle.acta_image.specs.Reading.{loaded};
ghost use Rattle.acta_lang.specs.Meaning.{meaning};
ghost use Rattle.acta_io.specs.Models.{is_image, of_either, of_image, of_text};
ghost use Rattle.acta_io.specs.inside.Reports.{IsWhy};

use acta_image::{ImageFault, LoadError, load};
use acta_lang::{AsmError, AsmFault, assemble};
use acta_table::Model;
use std::alloc::Allocator;

/// Why bytes are not a model.
#[derive(Clone, Copy, Debug, PartialEq, Eq)]
pub enum NoModel {
    /// A line of the text is faulty.
    Text(AsmFault),
    /// The bytes are not an image.
    Image(ImageFault),
}

/// Why no model was read.
#[derive(Drop)]
pub enum ModelError {
    /// Memory ran out.
    Memory,
    /// The bytes are not a model.
    Fault(NoModel),
}

/// Reads a model's text. Returns `Fault` if it is faulty.
pub fn read_text<A: Allocator + Copy>(alloc: A, bytes: &[u8]) -> Result<Model<A>, ModelError>
    ensures ok { IfOk result (λ model. of_text (meaning bytes.now) ≡ Ok model) }
    ensures fault { IfErr result (IsWhy (of_text {A = A} (meaning bytes.now))) }
{
    match assemble(alloc, bytes) {
        Ok(model) => Ok(model),
        Err(AsmError::Fault(fault)) => Err(ModelError::Fault(NoModel::Text(fault))),
        Err(AsmError::Memory) => Err(ModelError::Memory),
    }
}

/// Reads a model's image. Returns `Fault` if it is faulty.
pub fn read_image<A: Allocator + Copy>(alloc: A, bytes: &[u8]) -> Result<Model<A>, ModelError>
    ensures ok { IfOk result (λ model. of_image (loaded bytes.now) ≡ Ok model) }
    ensures fault { IfErr result (IsWhy (of_image {A = A} (loaded bytes.now))) }
{
    match load(alloc, bytes) {
        Ok(model) => Ok(model),
        Err(LoadError::Fault(fault)) => Err(ModelError::Fault(NoModel::Image(fault))),
        Err(LoadError::Memory) => Err(ModelError::Memory),
    }
}

// Whether the bytes are taken as an image.
fn is_image(bytes: &[u8]) -> bool
    ensures { result ≡ is_image bytes.now }
{
    bytes.starts_with(b"ACTA")
}

/// Reads a model: an image if the bytes begin with `ACTA`, otherwise a text. Returns `Fault` if they are faulty.
pub fn read_model<A: Allocator + Copy>(alloc: A, bytes: &[u8]) -> Result<Model<A>, ModelError>
    ensures ok { IfOk result (λ model. of_either bytes.now ≡ Ok model) }
    ensures fault { IfErr result (IsWhy (of_either {A = A} bytes.now)) }
{
    if is_image(bytes) {
        read_image(alloc, bytes)
    } else {
        read_text(alloc, bytes)
    }
}
