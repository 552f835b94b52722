//! The command line: the table of the commands, the parts from which each command's line is built, how `clap` reads its
//! words, the model that a word names, and the word that was perhaps meant. Each command declares its own arguments and
//! options.
//!
//! A call that allocates returns `Err`, or `Memory`, if memory runs out.
#![tactic(auto)]

mod commands;
mod fault;
mod meant;
mod models;
mod surface;

pub use commands::{COMMANDS, Listed, VERSION, is_command, refuse_words, turn_help};
pub use fault::UsageFault;
pub use meant::nearest;
pub use models::{ModelName, model_named};
pub use surface::{CommandLine, flag, model_arg, option, parse, program_name, usage, with_arg};
