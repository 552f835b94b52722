//! From an image to its model.

ghost use Rattle.std.specs.Prelude.{◌≡◌, Err, Ok, List, IfOk, IfErr, Some, ℕ, length, option_map, true};
ghost use Rattle.std.specs.Result.{result_err};
ghost use Rattle.acta_table.specs.declared.model.Parts.{Parts};
ghost use Rattle.acta_table.specs.Typed.{AreOfModel};
ghost use Rattle.acta_image.specs.Claims.{IsWhy};
ghost use Rattle.acta_image.specs.declared.fault.ImageFault.{ImageFault};
ghost use Rattle.acta_image.specs.declared.fault.ImageFault.TheVariants.{Version};
ghost use Rattle.acta_image.specs.declared.fault.LoadError.TheVariants as error;
ghost use Rattle.acta_image.specs.declared.version.ImageVersion.{ImageVersion};
ghost use Rattle.acta_image.specs.declared.diagnostic.Field.TheVariants as at;
ghost use Rattle.acta_image.specs.declared.diagnostic.ImageDiagnostic.{ImageDiagnostic};
ghost use Rattle.acta_image.specs.declared.diagnostic.ReadError.TheVariants as read_error;
ghost use Rattle.acta_image.specs.Reading.{diagnosed, field_or, finished, loaded, read_class, read_head, read_header, read_items, read_magic, read_object, read_parts, version_in, version_of};
ghost use Rattle.acta_image.specs.Spelling.{HasImageIn, image_in};
ghost use Rattle.acta_image.specs.inside.Gives.{Gives, is_fault};

use crate::diagnostic::{Field, ImageDiagnostic, ReadError};
use crate::fault::{ImageFault, LoadError};
use crate::fields::{
    at_commit, byte, extent, fault_at, kind, kinds_of, name, number, part, policy_bits, policy_of,
    scope, starts,
};
use crate::rows::edges;
use crate::version::ImageVersion;
use acta_table::{Class, Items, LONGEST_NAME, MOST_CLASSES, MOST_OBJECTS, Model, Object, Parts};
use std::alloc::{AllocError, Allocator};

// An object.
#[tactic(auto, unfolding(crate::specs::Reading::read_object))]
fn object<A: Allocator>(
    alloc: A,
    size: usize,
    bytes: &[u8],
) -> Result<(Object<A>, &[u8]), ReadError>
    ensures { Gives (λ x. (x.0, x.1.now)) result (read_object size bytes.now) }
{
    let (len, rest) = byte(Field::ObjectNameLength, size, 1, LONGEST_NAME as u8, bytes)?;
    let (name, rest) = name(Field::ObjectName, size, len, rest)?;
    let (code, rest) = byte(Field::ObjectKind, size, 0, 2, rest)?;
    let (kind, rest) = kind(size, code, rest)?;
    let name = Items::of(Vec::from_slice(alloc, name)?);
    Ok((Object { name, kind }, rest))
}

// The head of an image, after the magic: the version, and the numbers of classes and of objects.
#[derive(Clone, Copy)]
pub(crate) struct Head {
    pub(crate) version: ImageVersion,
    pub(crate) classes: u8,
    pub(crate) objects: u16,
}

// A class, of an image of this version.
#[tactic(auto, unfolding(crate::specs::Reading::read_class))]
fn class<A: Allocator + Copy>(
    alloc: A,
    version: ImageVersion,
    size: usize,
    bytes: &[u8],
) -> Result<(Class<A>, &[u8]), ReadError>
    ensures { Gives (λ x. (x.0, x.1.now)) result (read_class version size bytes.now) }
{
    let (len, rest) = byte(Field::ClassNameLength, size, 1, LONGEST_NAME as u8, bytes)?;
    let (name, rest) = name(Field::ClassName, size, len, rest)?;
    let (starts, rest) = starts(size, rest)?;
    let (may, rest) = number(Field::May, size, version.most_may(), rest)?;
    let (scope, rest) = scope(size, rest)?;
    let (code, rest) = byte(Field::Policy, size, 0, 1, rest)?;
    let (kinds, rest) = policy_bits(size, code, rest)?;
    let (at_commit, rest) = at_commit(size, rest)?;
    let (extent, rest) = extent(size, rest)?;
    let (spawn_edges, rest) = edges(alloc, Field::SpawnEdges, Field::SpawnEdge, size, rest)?;
    let (split_edges, rest) = edges(alloc, Field::SplitEdges, Field::SplitEdge, size, rest)?;
    let name = Items::of(Vec::from_slice(alloc, name)?);
    let class = Class {
        name,
        starts,
        may: kinds_of(may),
        scope,
        policy: policy_of(code, kinds),
        at_commit,
        extent,
        spawn_edges,
        split_edges,
    };
    Ok((class, rest))
}

// This many objects.
fn objects<A: Allocator + Copy>(
    alloc: A,
    size: usize,
    count: u16,
    bytes: &[u8],
) -> Result<(Items<Object<A>, A>, &[u8]), ReadError>
    ensures { Gives (λ x. (x.0, x.1.now)) result (read_items (read_object size) count bytes.now) }
{
    let mut objects = Vec::new(alloc);
    let mut rest = bytes;
    for _ in 0..count {
        let (object, behind) = object(alloc, size, rest)?;
        objects.push(object)?;
        rest = behind;
    }
    Ok((Items::of(objects), rest))
}

// This many classes, of an image of this version.
fn classes<A: Allocator + Copy>(
    alloc: A,
    version: ImageVersion,
    size: usize,
    count: u8,
    bytes: &[u8],
) -> Result<(Items<Class<A>, A>, &[u8]), ReadError>
    ensures { Gives (λ x. (x.0, x.1.now)) result (read_items (read_class version size) count bytes.now) }
{
    let mut classes = Vec::new(alloc);
    let mut rest = bytes;
    for _ in 0..count {
        let (class, behind) = class(alloc, version, size, rest)?;
        classes.push(class)?;
        rest = behind;
    }
    Ok((Items::of(classes), rest))
}

// The magic. A wrong byte is reported even if later ones are missing.
#[tactic(auto, unfolding(crate::specs::Reading::read_magic))]
fn magic(bytes: &[u8]) -> Result<(&[u8], &[u8]), ReadError>
    ensures field { Gives (λ x. (x.0.now, x.1.now)) result (read_magic bytes.now) }
    ensures sure { IfErr result (λ e. is_fault e ≡ true) }
{
    let begun = &bytes[..bytes.len().min(4)];
    if !b"ACTA".starts_with(begun) {
        return Err(fault_at(ImageFault::Magic, Field::Magic, 0, bytes));
    }
    if begun.len() < 4 {
        return Err(fault_at(ImageFault::Truncated, Field::Magic, 0, bytes));
    }
    Ok((begun, &bytes[4..]))
}

// The version.
fn version(size: usize, bytes: &[u8]) -> Result<(ImageVersion, &[u8]), ReadError>
    ensures field { Gives (λ x. (x.0, x.1.now)) result (field_or Version at.Version size 1 version_in bytes.now) }
    ensures sure { IfErr result (λ e. is_fault e ≡ true) }
{
    let (found, rest) = part(Field::Version, size, bytes, 1)?;
    match found[0] {
        1 => Ok((ImageVersion::One, rest)),
        2 => Ok((ImageVersion::Two, rest)),
        _ => Err(fault_at(ImageFault::Version, Field::Version, size, bytes)),
    }
}

// The magic and the head.
#[tactic(auto, unfolding(crate::specs::Reading::read_head))]
fn header(size: usize, bytes: &[u8]) -> Result<(Head, &[u8]), ReadError>
    ensures field { Gives (λ x. (x.0, x.1.now)) result (read_head size bytes.now) }
    ensures sure { IfErr result (λ e. is_fault e ≡ true) }
{
    let (_, rest) = magic(bytes)?;
    let (version, rest) = version(size, rest)?;
    let (classes, rest) = byte(Field::Classes, size, 1, MOST_CLASSES as u8, rest)?;
    let (objects, rest) = number(Field::Objects, size, MOST_OBJECTS as u16, rest)?;
    let head = Head {
        version,
        classes,
        objects,
    };
    Ok((head, rest))
}

// The objects and the classes.
#[tactic(auto, unfolding(crate::specs::Reading::read_parts))]
fn parts<A: Allocator + Copy>(alloc: A, bytes: &[u8]) -> Result<(Parts<A>, &[u8]), ReadError>
    ensures parts { Gives (λ x. (x.0, x.1.now)) result (read_parts (length bytes.now) bytes.now) }
    ensures early { (d : ImageDiagnostic) → read_head (length bytes.now) bytes.now ≡ Err d → result ≡ Err (read_error.Fault d) }
{
    let size = bytes.len();
    let (head, rest) = header(size, bytes)?;
    let (objects, rest) = objects(alloc, size, head.objects, rest)?;
    let (classes, rest) = classes(alloc, head.version, size, head.classes, rest)?;
    Ok((Parts { objects, classes }, rest))
}

// The model of the parts that were read from an image of this size; `rest` are the bytes left.
fn finish<A: Allocator>(size: usize, parts: Parts<A>, rest: &[u8]) -> Result<Model<A>, ReadError>
    ensures { Gives (λ m. m) result (finished size (parts, rest.now)) }
{
    if !rest.is_empty() {
        let offset = size.saturating_sub(rest.len());
        return Err(fault_at(ImageFault::Trailing(offset), Field::End, size, rest));
    }
    match Model::check(parts) {
        Ok(model) => Ok(model),
        Err(fault) => Err(fault_at(ImageFault::Model(fault), Field::End, size, &[])),
    }
}

// The model that the bytes encode.
#[tactic(auto, unfolding(crate::specs::Reading::diagnosed))]
fn read<A: Allocator + Copy>(alloc: A, bytes: &[u8]) -> Result<Model<A>, ReadError>
    ensures model { Gives (λ m. m) result (diagnosed bytes.now) }
    ensures early { (d : ImageDiagnostic) → read_head (length bytes.now) bytes.now ≡ Err d → result ≡ Err (read_error.Fault d) }
{
    let (parts, rest) = parts(alloc, bytes)?;
    finish(bytes.len(), parts, rest)
}

// Bytes that load as a model are its image in the version that they name, and the image of a model in a version loads as
// that model.
fn read_equivalent<A: Allocator>(alloc: &A, bytes: &[u8])
    ensures had { (m : Parts A) → loaded bytes.now ≡ Ok m → HasImageIn (version_of bytes.now) m }
    ensures spelled { (m : Parts A) → loaded bytes.now ≡ Ok m → image_in (version_of bytes.now) m ≡ bytes.now }
    ensures only { (version : ImageVersion) (m : Parts A) → AreOfModel m → HasImageIn version m → image_in version m ≡ bytes.now → loaded bytes.now ≡ Ok m }
{}

/// Reads the image of a model, of any version. Returns `Fault` with the first fault of bytes that are not an image. Returns
/// `Memory` if memory runs out, but only once the magic, the version and the counts are found valid.
#[tactic(auto, unfolding(crate::specs::Reading::loaded))]
pub fn load<A: Allocator + Copy>(alloc: A, bytes: &[u8]) -> Result<Model<A>, LoadError>
    ensures ok { IfOk result (λ model. loaded bytes.now ≡ Ok model) }
    ensures fault { IfErr result (IsWhy (loaded {A = A} bytes.now)) }
    ensures early { (e : ImageFault) → read_header (length bytes.now) bytes.now ≡ Err e → result ≡ Err (error.Fault e) }
    ensures had { IfOk result (λ model. HasImageIn (version_of bytes.now) model) }
    ensures spelled { IfOk result (λ model. image_in (version_of bytes.now) model ≡ bytes.now) }
    ensures only { (version : ImageVersion) (m : Parts A) → AreOfModel m → HasImageIn version m → image_in version m ≡ bytes.now → loaded bytes.now ≡ Ok m }
{
    read_equivalent(&alloc, bytes);
    match read(alloc, bytes) {
        Ok(model) => Ok(model),
        Err(ReadError::Memory) => Err(LoadError::Memory),
        Err(ReadError::Fault(found)) => Err(LoadError::Fault(found.fault)),
    }
}

/// The diagnostic of bytes that `load` rejects: the fault, its field and the field's offset. `None` if the bytes are an
/// image. Returns `Err` if memory runs out, but only once the magic, the version and the counts are found valid.
#[tactic(auto, unfolding(crate::specs::Reading::loaded))]
pub fn diagnose<A: Allocator + Copy>(
    alloc: A,
    bytes: &[u8],
) -> Result<Option<ImageDiagnostic>, AllocError>
    ensures diagnostic { IfOk result (λ found. found ≡ result_err (diagnosed {A = A} bytes.now)) }
    ensures fault { IfOk result (λ found. option_map (λ d. d.fault) found ≡ result_err (loaded {A = A} bytes.now)) }
    ensures early { (d : ImageDiagnostic) → read_head (length bytes.now) bytes.now ≡ Err d → result ≡ Ok (Some d) }
{
    match read(alloc, bytes) {
        Ok(_) => Ok(None),
        Err(ReadError::Memory) => Err(AllocError),
        Err(ReadError::Fault(found)) => Ok(Some(found)),
    }
}
