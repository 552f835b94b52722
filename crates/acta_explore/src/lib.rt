//! Every way in which programs can end. Each seat has a program: lines that it does one after another, each with one or more
//! alternatives. A seat's step is an alternative of its next line that the machine admits; an event that is refused waits.
//! `explore` tries every order of the steps, and returns each outcome once, with the first order that leads to it. Points
//! from which the programs continue in the same way are searched once. A call that allocates returns `Err` if memory runs
//! out.
#![tactic(auto)]

mod circle;
mod debt;
mod key;
mod outcome;
mod plan;
mod point;
mod search;
mod watch;

pub use circle::deadlock;
pub use debt::Debt;
pub use outcome::{Outcome, TxnStatus, Value, Wait, debts};
pub use plan::Plan;
pub use point::{Done, Point, Step, Turn, history_lines};
pub use search::{ExploreError, Explored, explore, explore_from};
pub use watch::Watch;
