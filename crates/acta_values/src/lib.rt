//! The objects of a model and the operations on them, with holders, fates and current values. Each operation updates
//! its object's value, and an abort undoes its operations, without replay or copy.
//!
//! A call that allocates returns `Err` if memory runs out.
#![tactic(auto)]

mod conflicts;
mod live_set;
mod live_value;
mod store;
mod trail;
mod values;

pub use conflicts::{first_conflict, has_conflict, holders_against, is_well_formed, may_conflict};
pub use live_set::LiveSet;
pub use live_value::LiveValue;
pub use store::Store;
pub use trail::{Numbered, Trail};
pub use values::Values;
