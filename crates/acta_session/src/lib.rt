//! An interactive session on a model: each line is answered before the next is read.
//!
//! A line is an event, the question whether an event would be admitted, or a command, such as `undo`; after `explore` it is
//! a line of programs. `Shell` answers lines, and `converse` reads them from a console and shows the replies. The session
//! itself writes answers, places, the lines about the state and the help; the `Words` that its caller supplies add remarks to them. A
//! call that allocates returns `Err`, or `Unread(Memory)`, if memory runs out.
#![tactic(auto)]

mod console;
mod dialogue;
mod help;
mod moves;
mod remarks;
mod shell;
mod typed;
mod words;

pub use console::{Console, Streams};
pub use dialogue::converse;
pub use remarks::Remark;
pub use shell::{Reply, Shell};
pub use typed::Typed;
pub use words::{Before, Words};
