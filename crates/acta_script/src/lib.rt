//! Reads lines of events, kept items, seated events, program steps and commands, and writes lines of events, kept
//! items, answers, debts and faults. Words are separated by spaces or tabs, a `#` begins a comment, and written lines
//! have single spaces. A line of an event is one of
//!
//! ```text
//! begin T CLASS     spawn T C CLASS     split T U CLASS OPS
//! join T U          delegate T U OPS    form KIND J I
//! do T OBJECT OP    commit T            abort T
//! permit T U OBJECT
//! ```
//!
//! where `OP` is `read`, `get`, `size`, or `write`, `add`, `insert`, `remove`, `has` followed by an `INT`, and `OPS` is
//! `-` or numbers joined by commas. A kept line is an event, followed by `=` and `done`, `yes`, `no` or a number if
//! there is a return. A seated line is a seat, from 1, and an event. A line of a program is a seat and one or more
//! events, separated by the word `|`. An answer is `ok PLACE [RETURN]` or `no RULE [by N]`, a debt is
//! `owed EDGE TXN commit` or `.. abort`, and a fault in a history is `fault AXIOM PLACE BY`. Written lines have no line
//! feed. Reading a written event or kept item gives it back: a clause of `write_event` and `write_kept`. If a line
//! cannot be read, `diagnose_event`, `diagnose_kept`, `diagnose_seated` and `diagnose_command` tell which word is wrong
//! and what is expected there. Other crates write further lines with the words of statuses, sets, returns and missing events.
//!
//! A call that allocates returns `Err` if memory runs out.
#![tactic(auto)]

mod answers;
mod command_words;
mod commands;
mod diagnosis;
mod event_words;
mod fault;
mod kept;
mod laws;
mod names;
mod numbers;
mod op_kind;
mod op_sets;
mod operations;
mod programs;
mod reading;
mod returns;
mod seated;
mod sentences;
mod shell_lines;
mod shell_words;
mod states;
mod writing;

pub use answers::{answer_line, fault_line, missing_word, owed_line, push_answer};
pub use command_words::{BreakKind, CommandKind};
pub use commands::{BreakOn, DebugCommand, read_command};
pub use diagnosis::{
    Diagnostic, Expected, LinePart, WordPlace, diagnose_command, diagnose_event, diagnose_kept,
    diagnose_seated,
};
pub use event_words::{EVENT_KINDS, event_form, event_word};
pub use fault::{LineError, LineFault};
pub use kept::{read_kept, write_kept};
pub use names::object_name;
pub use op_kind::OpKind;
pub use programs::{ProgramLine, read_program_line};
pub use reading::read_event;
pub use returns::{RETURN_WORDS, parse_return, push_return};
pub use seated::{Seated, read_seated};
pub use shell_lines::{ShellCommand, ShellFault, ShellLine, Topic, read_shell_line};
pub use shell_words::{CAN_FORM, CAN_WORD, ShellKind};
pub use states::{push_elements, status_word};
pub use writing::{push_event, write_event};
