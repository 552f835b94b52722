//! The five standard models, one for each of ACTA's well-known kinds of transaction, as canonical texts in the program. All
//! have the objects `x` (a register), `n` and `m` (counters) and `s` (a set).
//!
//! A call that allocates returns `Err` if memory runs out.
#![tactic(auto)]

mod loading;
mod texts;

pub use loading::load_all;
pub use texts::{Standard, atomic, contingent, nested, recoverable, split_join};
