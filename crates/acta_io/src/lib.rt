//! The input and output of the commands: the bytes of an input and of a model, read within their limits; the parsed lines of
//! an input, up to the first faulty one; what is written for a faulty line or model; and how a run ended. Readers and
//! writers are any that `std` knows, so that a contract can state which bytes were read and written.
//!
//! A call that takes an allocator returns `Err`, or `Memory` of its own error, if memory runs out.
#![tactic(auto)]

mod faults;
mod input;
mod models;
mod outcome;
mod reports;
mod sections;
mod sink;
mod source;

pub use faults::{push_no_model, push_stop};
pub use input::{
    BadLine, CommandLines, EventLines, Input, KeptLines, LineKind, LineReader, MOST_SEATS,
    NonBlankLine, ProgramLines, SeatedLines, non_blank_lines, numbers_of_lines, read_left,
    read_lines,
};
pub use models::{ModelError, NoModel, read_image, read_model, read_text};
pub use outcome::Outcome;
pub use reports::{Report, refuse_by, refuse_line, refuse_model, write_report};
pub use sections::{Script, read_script};
pub use sink::{Sink, Watched};
pub use source::{MOST_BYTES, Metered, ReadFault, Source, read_all, read_within};
