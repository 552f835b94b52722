//! The fields of fixed length. Each is read from the front of the remaining bytes of an image of known size, and returns its
//! value with the bytes after it, or its fault.

ghost use Rattle.std.specs.Prelude.{◌≡◌, ◌-◌, ◌≤◌, ◌<◌, ◌^◌, length, true, IfErr, IfOk};
ghost use Rattle.acta_image.specs.declared.fault.ImageFault.TheVariants.{BadField};
ghost use Rattle.acta_image.specs.declared.diagnostic.Field.TheVariants as at;
ghost use Rattle.acta_image.specs.declared.diagnostic.ReadError.TheVariants as error;
ghost use Rattle.acta_image.specs.Reading.{byte_in, commit_in, extent_in, fault_at, field, kind_in, name_by, number_to, offset_of, policy_in, scope_in, starts_in};
ghost use Rattle.acta_image.specs.inside.Gives.{Gives, is_fault, part_of, policy_by};

use crate::diagnostic::{Field, ImageDiagnostic, ReadError};
use crate::fault::ImageFault;
use acta_table::{AtCommit, DepKinds, Extent, Kind, Kinds, Policy, Scope, Starts, is_named_well};

/// The fault at the field with which these bytes begin, in an image of this size.
pub fn fault_at(fault: ImageFault, field: Field, size: usize, bytes: &[u8]) -> ReadError
    ensures { result ≡ error.Fault (fault_at fault field size bytes.now) }
{
    let offset = size.saturating_sub(bytes.len());
    ReadError::Fault(ImageDiagnostic {
        fault,
        field,
        offset,
    })
}

/// Splits off the first bytes, those of this field.
pub fn part(
    which: Field,
    size: usize,
    bytes: &[u8],
    len: usize,
) -> Result<(&[u8], &[u8]), ReadError>
    ensures field { Gives (λ x. (x.0.now, x.1.now)) result (part_of which size len bytes.now) }
    ensures sure { IfErr result (λ e. is_fault e ≡ true) }
{
    if bytes.len() < len {
        return Err(fault_at(ImageFault::Truncated, which, size, bytes));
    }
    Ok(bytes.split_at(len))
}

/// `BadField` at the field with which these bytes begin, in an image of this size.
pub fn bad(which: Field, size: usize, bytes: &[u8]) -> ReadError
    ensures { result ≡ error.Fault (fault_at (BadField (offset_of size bytes.now)) which size bytes.now) }
{
    let offset = size.saturating_sub(bytes.len());
    fault_at(ImageFault::BadField(offset), which, size, bytes)
}

/// A byte in the range from `least` to `most`.
pub fn byte(
    which: Field,
    size: usize,
    least: u8,
    most: u8,
    bytes: &[u8],
) -> Result<(u8, &[u8]), ReadError>
    ensures field { Gives (λ x. (x.0, x.1.now)) result (field which size 1 (byte_in least most) bytes.now) }
    ensures sure { IfErr result (λ e. is_fault e ≡ true) }
{
    let (found, rest) = part(which, size, bytes, 1)?;
    if least <= found[0] && found[0] <= most {
        Ok((found[0], rest))
    } else {
        Err(bad(which, size, bytes))
    }
}

/// A number of two bytes, at most `most`.
pub fn number(which: Field, size: usize, most: u16, bytes: &[u8]) -> Result<(u16, &[u8]), ReadError>
    ensures field { Gives (λ x. (x.0, x.1.now)) result (field which size 2 (number_to most) bytes.now) }
    ensures sure { IfErr result (λ e. is_fault e ≡ true) }
{
    let (found, rest) = part(which, size, bytes, 2)?;
    let number = u16::from_be_bytes([found[0], found[1]]);
    if number <= most {
        Ok((number, rest))
    } else {
        Err(bad(which, size, bytes))
    }
}

/// A name of this length.
pub fn name(which: Field, size: usize, len: u8, bytes: &[u8]) -> Result<(&[u8], &[u8]), ReadError>
    ensures field { Gives (λ x. (x.0.now, x.1.now)) result (field which size len name_by bytes.now) }
    ensures sure { IfErr result (λ e. is_fault e ≡ true) }
{
    let (found, rest) = part(which, size, bytes, usize::from(len))?;
    if is_named_well(found) {
        Ok((found, rest))
    } else {
        Err(bad(which, size, bytes))
    }
}

/// The first value of an object whose kind has this code.
pub fn kind(size: usize, code: u8, bytes: &[u8]) -> Result<(Kind, &[u8]), ReadError>
    ensures field { Gives (λ x. (x.0, x.1.now)) result (field at.FirstValue size 4 (kind_in code) bytes.now) }
    ensures sure { IfErr result (λ e. is_fault e ≡ true) }
{
    let which = Field::FirstValue;
    let (found, rest) = part(which, size, bytes, 4)?;
    let number = u32::from_be_bytes([found[0], found[1], found[2], found[3]]);
    if code == 0 {
        Ok((Kind::Register(number.cast_signed()), rest))
    } else if code == 1 {
        Ok((Kind::Counter(number.cast_signed()), rest))
    } else if number == 0 {
        Ok((Kind::Elements, rest))
    } else {
        Err(bad(which, size, bytes))
    }
}

/// How transactions may start.
pub fn starts(size: usize, bytes: &[u8]) -> Result<(Starts, &[u8]), ReadError>
    ensures field { Gives (λ x. (x.0, x.1.now)) result (field at.Starts size 1 starts_in bytes.now) }
    ensures sure { IfErr result (λ e. is_fault e ≡ true) }
{
    let (bits, rest) = byte(Field::Starts, size, 0, 7, bytes)?;
    let starts = Starts {
        begin: bits & 1 != 0,
        spawned: bits & 2 != 0,
        split: bits & 4 != 0,
    };
    Ok((starts, rest))
}

/// The set of kinds of event with these bits.
pub fn kinds_of(bits: u16) -> Kinds
    requires { bits < 2 ^ 9 }
    ensures { result ≡ bits }
{
    match Kinds::from_bits(bits) {
        Some(kinds) => kinds,
        None => unreachable!(),
    }
}

/// A scope.
pub fn scope(size: usize, bytes: &[u8]) -> Result<(Scope, &[u8]), ReadError>
    ensures field { Gives (λ x. (x.0, x.1.now)) result (field at.Scope size 1 scope_in bytes.now) }
    ensures sure { IfErr result (λ e. is_fault e ≡ true) }
{
    let (code, rest) = byte(Field::Scope, size, 0, 1, bytes)?;
    let scope = if code == 0 {
        Scope::Others
    } else {
        Scope::NonAncestors
    };
    Ok((scope, rest))
}

/// The bits of the kinds of a policy with this code: 0 if it refuses.
pub fn policy_bits(size: usize, code: u8, bytes: &[u8]) -> Result<(u16, &[u8]), ReadError>
    ensures field { Gives (λ x. (policy_by code x.0, x.1.now)) result (field at.PolicyKinds size 2 (policy_in code) bytes.now) }
    ensures small { IfOk result (λ x. x.0 ≤ 4095) }
    ensures none { code ≡ 0 → IfOk result (λ x. x.0 ≡ 0) }
    ensures sure { IfErr result (λ e. is_fault e ≡ true) }
{
    let most = if code == 0 { 0 } else { 4095 };
    number(Field::PolicyKinds, size, most, bytes)
}

/// The policy with this code and these bits.
pub fn policy_of(code: u8, bits: u16) -> Policy
    requires { bits ≤ 4095 }
    ensures { result ≡ policy_by code bits }
{
    if code == 0 {
        return Policy::Refuse;
    }
    match DepKinds::from_bits(bits) {
        Some(kinds) => Policy::Depend(kinds),
        None => unreachable!(),
    }
}

/// What a commit does.
pub fn at_commit(size: usize, bytes: &[u8]) -> Result<(AtCommit, &[u8]), ReadError>
    ensures field { Gives (λ x. (x.0, x.1.now)) result (field at.Commit size 1 commit_in bytes.now) }
    ensures sure { IfErr result (λ e. is_fault e ≡ true) }
{
    let (code, rest) = byte(Field::Commit, size, 0, 1, bytes)?;
    let at_commit = if code == 0 {
        AtCommit::Keeps
    } else {
        AtCommit::ToParent
    };
    Ok((at_commit, rest))
}

/// How much a delegation transfers.
pub fn extent(size: usize, bytes: &[u8]) -> Result<(Extent, &[u8]), ReadError>
    ensures field { Gives (λ x. (x.0, x.1.now)) result (field at.Delegation size 1 extent_in bytes.now) }
    ensures sure { IfErr result (λ e. is_fault e ≡ true) }
{
    let (code, rest) = byte(Field::Delegation, size, 0, 1, bytes)?;
    let extent = if code == 0 {
        Extent::Whole
    } else {
        Extent::Any
    };
    Ok((extent, rest))
}
