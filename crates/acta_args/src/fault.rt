//! Why a command line was rejected.

use std::alloc::AllocError;
use thiserror::Error;

/// Why a command line was rejected.
#[derive(Debug, Drop, Error)]
pub enum UsageFault {
    /// The words are not a command with its arguments; the text says what is wrong, and how to call the program.
    #[error("{0}")]
    Usage(clap::Error),
    /// No standard model has the name after the `@`.
    #[error("unknown model")]
    UnknownModel,
    /// A word is not UTF-8.
    #[error("a word is not UTF-8")]
    NotText,
    /// Memory ran out while reading the words or the model.
    #[error(transparent)]
    Memory(#[from(alloc)] AllocError),
}
