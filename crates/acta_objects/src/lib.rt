//! Objects: their values, what an operation does and returns, and which operations conflict; and whether an event has
//! the form that its model requires. Conflict is defined by states and orders, after ACTA. For each of the three kinds
//! (register, counter, set) the table of conflicting pairs is proved equivalent to that definition.
//!
//! A call that allocates returns `Err` if memory runs out.
#![tactic(auto)]

mod forms;
mod kinds;
mod members;
mod replays;
mod state;

pub use forms::{FormFault, form_fault, form_refusal};
pub use kinds::{Counter, ElementSet, ObjectKind, Register};
pub use members::Members;
pub use replays::{Replayed, replay};
pub use state::{ObjectState, is_of_kind};
