//! The binary image of a model. The encoding is canonical: within a version of the format, equal models have identical
//! images. `write_image` writes the current version; `load` reads any version field by field and returns the model, or the
//! first fault with the offset of its field; `diagnose` returns that fault with its field; `upgrade` converts an image of
//! any version to the current one.
//!
//! A call that allocates returns `Err` if memory runs out.
#![tactic(auto)]

mod codes;
mod diagnostic;
mod fault;
mod fields;
mod loading;
mod rows;
mod sentences;
mod upgrading;
mod version;
mod writing;

pub use diagnostic::{Field, ImageDiagnostic};
pub use fault::{ImageFault, LoadError};
pub use loading::{diagnose, load};
pub use upgrading::upgrade;
pub use version::ImageVersion;
pub use writing::write_image;
