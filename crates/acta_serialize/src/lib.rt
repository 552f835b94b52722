//! The command `serialize`: finds a serial order of the committed transactions of a history, or explains why there is none.
//!
//! `acta_order` does the search. A call that allocates returns `Err` if memory runs out.
#![tactic(auto)]

mod answers;
mod args;
mod reasons;
mod report;

pub use args::{Asked, SerializeLine};
pub use report::{serialize_tool, serialized};
