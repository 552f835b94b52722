//! Where an image is wrong: the fault and its field.

ghost use Rattle.std.specs.Prelude.{◌≡◌};
ghost use Rattle.acta_image.specs.declared.diagnostic.ReadError.TheVariants.{Memory};

use crate::fault::ImageFault;
use std::alloc::{AllocError, AllocFailed};

/// A field of an image. Each object and each class of an image has fields of its own.
#[derive(Clone, Copy, PartialEq, Eq, Debug)]
pub enum Field {
    /// The first four bytes.
    Magic,
    /// The version of the format, in one byte.
    Version,
    /// How many classes there are, in one byte.
    Classes,
    /// How many objects there are, in two bytes.
    Objects,
    /// The length of an object's name, in one byte.
    ObjectNameLength,
    /// An object's name.
    ObjectName,
    /// The code of an object's kind, in one byte.
    ObjectKind,
    /// An object's first value, in four bytes.
    FirstValue,
    /// The length of a class's name, in one byte.
    ClassNameLength,
    /// A class's name.
    ClassName,
    /// How the transactions of a class start, in one byte.
    Starts,
    /// What the transactions of a class may do, in two bytes.
    May,
    /// A class's scope, in one byte.
    Scope,
    /// The code of a class's policy, in one byte.
    Policy,
    /// The kinds of edges that a class's policy forms, in two bytes.
    PolicyKinds,
    /// What a commit does, in one byte.
    Commit,
    /// How much a delegation transfers, in one byte.
    Delegation,
    /// How many edges a spawn forms, in one byte.
    SpawnEdges,
    /// An edge that a spawn forms, in two bytes.
    SpawnEdge,
    /// How many edges a split forms, in one byte.
    SplitEdges,
    /// An edge that a split forms, in two bytes.
    SplitEdge,
    /// The end of the image, where the last field ends.
    End,
}

/// The first fault of bytes that are not an image, and its field.
#[derive(Clone, Copy, PartialEq, Eq, Debug)]
pub struct ImageDiagnostic {
    /// The fault, as `load` returns it.
    pub fault: ImageFault,
    /// The faulty field. For `Truncated` the first field that is incomplete, for `Trailing` and `Model` the end.
    pub field: Field,
    /// The offset of that field's first byte, from 0. For `Truncated` at most the number of bytes, for `Model` exactly that
    /// number.
    pub offset: usize,
}

/// Why reading failed.
#[derive(Debug, Drop)]
pub(crate) enum ReadError {
    /// Memory ran out.
    Memory,
    /// The bytes are not an image.
    Fault(ImageDiagnostic),
}

impl From<AllocError> for ReadError {
    ghost from_gives = { λ _ e. e ≡ Memory };

    fn from(_e: AllocError) -> ReadError {
        ReadError::Memory
    }
}

impl<T: Drop> From<AllocFailed<T>> for ReadError {
    ghost from_gives = { λ _ e. e ≡ Memory };

    fn from(_e: AllocFailed<T>) -> ReadError {
        ReadError::Memory
    }
}
