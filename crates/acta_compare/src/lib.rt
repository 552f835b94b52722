//! The command `compare`: where two models differ on the same input.
//!
//! Both models answer the same event lines, or run the same programs in every order. Of event lines the words show the first
//! one with different answers, with the reasons for both, then the other lines that differ and the debts under only one
//! model. Of programs they show the ends on only one model. A call that allocates returns `Err` if memory runs out.
#![tactic(auto)]

mod answers;
mod args;
mod differences;
mod ends;
mod only;
mod owed;
mod report;
mod reported;
mod seen;
mod side;
mod trial;

pub use args::{Asked, CompareLine, Compared};
pub use differences::{Comparison, Difference};
pub use only::only_in;
pub use owed::owed_only;
pub use report::{compare_tool, compared};
pub use seen::Seen;
pub use trial::Trial;
