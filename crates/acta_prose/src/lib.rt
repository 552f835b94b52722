//! The sentences that the commands share: events and their answers, what an event formed or why it is refused, what can still
//! happen to a refused event, which transactions wait for one another, and where a faulty line is wrong.
//!
//! This crate decides nothing: the crates below say what is admitted, why an event is refused and whether there is hope. A
//! call that allocates returns `Err` if memory runs out.
#![tactic(auto)]

mod debts;
mod faults;
mod layout;
mod lines;
mod listing;
mod phrases;
mod prose;
mod reasons;
mod run_trace;
mod shown;
mod waits;

pub use debts::put_prospect;
pub use faults::{COMMENT, LineForm, Stop, fault_text, put_hint, put_lines, put_stop};
pub use layout::{Columns, digits, put_barred};
pub use lines::{LineIndex, LineText, StepText, put_words};
pub use listing::{first_listed, put_more};
pub use phrases::{
    allowing_word, class_at, first_named, name_text, operation_kind, put_edges, put_formed_edge,
    put_lacking, put_line, put_line_text, put_may, put_model_name, put_numbered_edge,
    put_operation, put_return, put_standing, put_starts,
};
pub use prose::{Prose, report_of};
pub use reasons::Refused;
pub use run_trace::{MOST_RENDERED, RunTrace, put_formed};
pub use shown::{column_of_missing, put_shown};
pub use waits::Waits;
