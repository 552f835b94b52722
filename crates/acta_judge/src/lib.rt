//! The judge: finds the faults of any history, legal or not, and the debts at its end. It checks each axiom at each place of
//! a walk through the history, and the formula of each edge once; it uses threads if the history is long. It depends on the
//! axioms only, never on a machine, so that the two can be checked against each other.
//!
//! A call that allocates returns `Err` if memory runs out.
#![tactic(auto)]

mod clashes;
mod cut;
mod edges;
mod formulas;
mod item_faults;
mod judging;
mod laws;
mod ordering;
mod parts;
mod places;
mod reporting;
mod verdict;

pub use cut::Cut;
pub use judging::{judge, judge_in_parts};
pub use laws::{
    ancestors_are_the_parent_and_its_own, met_axioms_leave_no_fault, no_fault_in_places,
};
pub use verdict::{JudgeError, Verdict};
