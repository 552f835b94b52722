//! Why bytes are not an image.

ghost use Rattle.std.specs.Prelude.{◌≡◌};
ghost use Rattle.acta_image.specs.Claims.{image_fault_number};
ghost use Rattle.acta_image.specs.declared.fault.LoadError.TheVariants.{Memory};

use acta_table::ModelFault;
use std::alloc::{AllocError, AllocFailed};

/// The first fault of an image, from left to right. An offset is that of the faulty field's first byte, from 0.
#[derive(Clone, Copy, PartialEq, Eq, Debug)]
pub enum ImageFault {
    /// One of the first four bytes differs from `ACTA`.
    Magic,
    /// The version is neither 1 nor 2.
    Version,
    /// The bytes end inside a field, or before one.
    Truncated,
    /// The field at this offset has a value that is not allowed.
    BadField(usize),
    /// Bytes are left after the last field; the first has this offset.
    Trailing(usize),
    /// All fields are valid, but together they are not a valid model.
    Model(ModelFault),
}

impl ImageFault {
    /// The number of the fault, from 1 to 6, as the program prints it.
    pub fn number(self) -> u8
        ensures { result ≡ image_fault_number self }
    {
        match self {
            ImageFault::Magic => 1,
            ImageFault::Version => 2,
            ImageFault::Truncated => 3,
            ImageFault::BadField(_) => 4,
            ImageFault::Trailing(_) => 5,
            ImageFault::Model(_) => 6,
        }
    }
}

/// Why a model was not loaded.
#[derive(Debug, Drop)]
pub enum LoadError {
    /// Memory ran out.
    Memory,
    /// The bytes are not an image.
    Fault(ImageFault),
}

impl From<AllocError> for LoadError {
    ghost from_gives = { λ _ e. e ≡ Memory };

    fn from(_e: AllocError) -> LoadError {
        LoadError::Memory
    }
}

impl<T: Drop> From<AllocFailed<T>> for LoadError {
    ghost from_gives = { λ _ e. e ≡ Memory };

    fn from(_e: AllocFailed<T>) -> LoadError {
        LoadError::Memory
    }
}
