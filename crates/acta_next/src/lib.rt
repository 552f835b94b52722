//! Which events can happen next, for one transaction or for all in progress. A selection of events is tried on a machine,
//! and their event lines are listed as admitted or as refused.
//!
//! Functions that allocate return `Err` if memory runs out.
#![tactic(auto)]

mod candidates;
mod lists;
mod next;
mod unused;

pub use next::next_text;
