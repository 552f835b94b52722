//! A run as a list of steps: for each event its line, the answer, and what it formed. Also the history and the state of a
//! machine, as lines.
//!
//! Renderers of a run read its steps: a table of answers, a picture, a witness. This crate finds the step that a sentence
//! refers to, such as the line of an operation or of the event that ended a transaction. A call that allocates returns `Err`
//! if memory runs out.
#![tactic(auto)]

mod firsts;
mod history;
mod index;
mod state;
mod step;
mod steps;
mod trace;

pub use history::{push_event_lines, push_kept_lines};
pub use state::{
    is_edge_of, push_conflicts_line, push_debt_lines, push_edge_lines, push_held_line,
    push_owed_lines, push_permit_lines, push_state_lines, push_status_line, push_value_line,
};
pub use step::Step;
pub use steps::Steps;
pub use trace::{Trace, take_step};
