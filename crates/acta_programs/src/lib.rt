//! The command `explore`: the ways in which programs can end, for a reader or for another program.
//!
//! `acta_explore` does the search, and `acta_ends` writes the lines for other programs. For a reader each end is put into
//! words: the transactions and the objects, why each seat waits, the deadlocks among seats, the debts, and the first order
//! that leads there. `explain_from` does so for programs that continue from the state of a machine. A call that allocates
//! returns `Err` if memory runs out.
#![tactic(auto)]

mod answers;
mod args;
mod conditions;
mod ends;
mod from;
mod programs;
mod report;
mod texts;
mod totals;
mod waiting;

pub use args::{Asked, ExploreLine, Form, MOST_POINTS, most_option};
pub use ends::{EndCount, explain_incomplete, put_end};
pub use from::explain_from;
pub use programs::Programs;
pub use report::{explore_tool, explored};
pub use texts::begun;
pub use waiting::put_debts;
