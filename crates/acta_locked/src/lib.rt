//! A book shared by many workers, who submit scripts at desks: each event is taken under one lock. A driven run returns to
//! each worker its part of the book. A call that allocates returns `Err` if memory runs out.
#![tactic(auto)]

mod book;
mod desk;
mod limits;
mod run;
mod watch;
mod worker;

pub use book::{Book, Entry, PlainDesk, TakeError, runs_are_faultless};
pub use desk::{Desk, Job, LockedDesk, SharedLog};
pub use limits::MOST_WORKERS;
pub use run::{DriveError, Driven};
pub use watch::{Front, Watched, drive, drive_watched};
pub use worker::{Gate, OpenGate, Report, Script, WorkError, work};
