//! The debugger: a history, a place in it, and the machine after the events before that place. It moves one event
//! forward or back, moves to any place, and runs to the next place where a break holds. A cursor is a debugger whose
//! machine moves only when it is needed.
//!
//! Functions drop machines, models and histories explicitly. An implicit drop would drop each part at each early
//! return, and each of these must be proved.
//!
//! A call that allocates returns `Err` if memory runs out.
#![tactic(auto)]

mod breaks;
mod cursor;
mod debugger;
mod errors;
mod laws;
mod recording;
mod replay;
mod running;

pub use breaks::{Break, Stop};
pub use cursor::Cursor;
pub use debugger::Debugger;
pub use errors::{MoveError, NewError};
pub use laws::kept_histories;
