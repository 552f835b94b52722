//! The commands whose formats are specified: the parsing of their command lines, and their output for the bytes of a model
//! and of an input, over any reader and writer. The program that opens files and streams uses this crate.
//!
//! A function that drops a run, a debugger or a `clap` command calls `drop` before its other returns. An implicit drop drops
//! each part at each return, and each is proved there.
//!
//! A call that allocates returns `Err` if memory runs out.
#![tactic(auto)]

mod args;
mod debugging;
mod drive;
mod judging;
mod laws;
mod models;
mod rendering;
mod run;
mod serializing;
mod session;
mod status;
mod tracing;

pub use args::{Args, Command, parse};
pub use drive::drive_tool;
pub use laws::{images_are_upgraded, images_run_as_their_texts};
pub use models::read_model_for;
pub use run::run_tool;
pub use status::{Failure, exit_status};
