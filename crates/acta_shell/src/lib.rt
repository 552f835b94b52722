//! The command `shell`: an interactive session on a model, in words.
//!
//! `acta_session` reads the lines and answers them. This crate adds the words: what an event formed, why one is refused,
//! what is wrong with a faulty line, and the remarks after the lines that answer a command. It decides nothing itself, but
//! puts the answers of the machine and of the crates above it into sentences. A call that allocates returns `Err`, or
//! `Unread(Memory)`, if memory runs out.
#![tactic(auto)]

mod args;
mod notes;
mod pictured;
mod remarks;
mod replies;
mod tool;
mod words;

pub use args::{Asked, ShellLine};
pub use tool::{NotingEnd, shell_tool};
pub use words::ShellWords;
