//! The name of each fault of an image, and a sentence that explains it.

use crate::fault::ImageFault;
use std::error::Error;
use std::fmt;

impl ImageFault {
    /// The name of the fault.
    pub fn name(self) -> &'static str {
        match self {
            ImageFault::Magic => "Magic",
            ImageFault::Version => "Version",
            ImageFault::Truncated => "Truncated",
            ImageFault::BadField(_) => "BadField",
            ImageFault::Trailing(_) => "Trailing",
            ImageFault::Model(_) => "Model",
        }
    }

    /// A sentence that says when bytes have the fault.
    pub fn sentence(self) -> &'static str {
        match self {
            ImageFault::Magic => "One of the first four bytes differs from `ACTA`.",
            ImageFault::Version => "The version is neither 1 nor 2.",
            ImageFault::Truncated => "The bytes end inside or before a field.",
            ImageFault::BadField(_) => "The field at this offset has a value that isn't allowed.",
            ImageFault::Trailing(_) => "Bytes follow the last field, from this offset on.",
            ImageFault::Model(_) => { "All fields are valid, but the model has this fault." }
        }
    }
}

impl fmt::Display for ImageFault {
    fn fmt<W: fmt::Write>(&self, f: &mut fmt::Formatter<W>) -> fmt::Result {
        let name = self.name();
        let sentence = self.sentence();
        write!(f, "{name}: {sentence}")
    }
}

impl Error for ImageFault {}
