//! The machine admits one event after another, or refuses it with the lowest rule that it breaks. Contracts see a
//! machine as its model and the history that it kept. Its state is a function of that history, and the machine's lists
//! represent it.
//!
//! A call that allocates returns `Err` if memory runs out.
#![tactic(auto)]

mod changes;
mod conflicts;
mod lowest;
mod machine;
mod machine_state;
mod reason;
mod refused;
mod rules;
mod serial;

pub use acta_deps::{BlockingEdge, Clash, NumberedEdge};
pub use acta_objects::FormFault;
pub use acta_sets::{Handle, HeldOp, Permit};
pub use machine::{Formed, Machine, Run};
pub use reason::{Lack, NumberedOp, Reason};
pub use serial::SerialError;
