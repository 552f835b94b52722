//! Tests of the locked book: workers in threads of their own who meet at gates, the faults of a driven run, a full book,
//! both kinds of desk, many workers over standard models, and a thread that judges while they work.

pub mod books;
mod crowds;
pub mod desks;
mod faults;
mod full;
mod gates;
mod meetings;
pub mod scripts;
mod watching;
