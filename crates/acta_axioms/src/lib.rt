//! The meaning of a history by its places alone: what ACTA says of any list of kept items, legal or not. The
//! definitions are in `specs/`: where transactions start and end, the holder and fate of each operation, values by
//! replay, edges and debts, and which axiom each place breaks. A `Walk` goes through a history one item at a time and
//! answers questions about the state before its current place. `Places` answers questions about a whole history.
//!
//! A call that allocates returns `Err` if memory runs out.
#![tactic(auto)]

mod course;
mod fault;
mod forming;
mod groups;
mod holding;
mod places;
mod seeking;
mod sentences;
mod serial;
mod strict;
mod taking;
mod trail;
mod txn_record;
mod walk;
mod wanted;

pub use acta_sets::Handle;
pub use course::Course;
pub use fault::{Axiom, Fault};
pub use groups::Groups;
pub use places::Places;
pub use seeking::with_txns;
pub use serial::{SerialItem, serial_items};
pub use strict::is_strict;
pub use walk::Walk;
pub use wanted::edges_wanted;
