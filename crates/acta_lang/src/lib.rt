//! The language of models. A text is read line by line into a draft of its objects and classes, up to the first faulty line;
//! a draft without a fault becomes a checked model. The diagnostic of a faulty line has the word at fault and what is
//! expected in its place. Each model has a canonical text, which parses to that model.
//!
//! A call that allocates returns `Err` if memory runs out.
#![tactic(auto)]

mod assembling;
mod class_forms;
mod class_lines;
mod codes;
mod declare;
mod diagnostic;
mod draft;
mod fault;
mod form;
mod line_forms;
mod names;
mod object_lines;
mod parsed;
mod parts;
mod places;
mod policy_forms;
mod printing;
mod sentences;
mod words;

pub use assembling::{assemble, diagnose};
pub use diagnostic::{ClassLines, Expected, TextDiagnostic};
pub use fault::{AsmError, AsmFault, Code};
pub use parts::PartLines;
pub use printing::print_model;
