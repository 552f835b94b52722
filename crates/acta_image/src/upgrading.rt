//! Converts an image of any version to the version that is written.

ghost use Rattle.std.specs.Prelude.{◌≡◌, Err, Ok, IfErr, IfOk, length};
ghost use Rattle.acta_image.specs.Claims.{IsWhy};
ghost use Rattle.acta_image.specs.declared.fault.ImageFault.{ImageFault};
ghost use Rattle.acta_image.specs.declared.fault.LoadError.TheVariants as error;
ghost use Rattle.acta_image.specs.Reading.{loaded, read_header, upgraded};

use crate::fault::LoadError;
use crate::loading::load;
use crate::writing::write_image;
use std::alloc::Allocator;

/// Converts an image of any version to the version that `write_image` writes, of the same model. Returns `Fault` with the
/// first fault of bytes that are not an image. Returns `Memory` if memory runs out, but only once the magic, the version and
/// the counts are found valid.
pub fn upgrade<A: Allocator + Copy>(alloc: A, bytes: &[u8]) -> Result<Vec<u8, A>, LoadError>
    ensures ok { IfOk result (λ image. upgraded A bytes.now ≡ Ok image.items) }
    ensures fault { IfErr result (IsWhy (upgraded A bytes.now)) }
    ensures early { (e : ImageFault) → read_header (length bytes.now) bytes.now ≡ Err e → result ≡ Err (error.Fault e) }
    ensures again { IfOk result (λ image. loaded {A = A} image.items ≡ loaded bytes.now) }
{
    let model = load(alloc, bytes)?;
    Ok(write_image(alloc, &model)?)
}
