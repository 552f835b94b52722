//! Whether an event that a machine refuses can be admitted after later events, and what must happen before that.
//!
//! Later events undo nothing (`laws`). So most reasons for a refusal last until a certain transaction has begun, holds an
//! operation or has ended, or for ever. A `Hope` says which, and holds for every list of later events.
//!
//! A call that allocates returns `Err` if memory runs out.
#![tactic(auto)]

mod deadlock;
mod hoping;
mod laws;
mod releases;
mod starts;
mod waiting;

pub use deadlock::{Wait, deadlocks, wait_of};
pub use hoping::{Hope, hope_of, why_and_hope};
pub use laws::later_events_take_nothing_back;
pub use releases::{Release, heir, is_ancestor, is_released, operation_at};
pub use starts::never_begin;
pub use waiting::endless_wait;
