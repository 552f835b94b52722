//! Tests of the libraries beneath the program, for mistakes that neither a contract nor a case of `cases/` excludes.
//! They refuse each allocation of a call or of a whole run, use readers and writers that fail, damage images, and run
//! several workers.
//!
//! A helper that owns a model, an event or a case passes it to `drop` at its end: otherwise each of its parts is dropped
//! there, and each drop is proved there.
#![tactic(auto)]

#[cfg(test)]
mod calls;
#[cfg(test)]
mod devices;
#[cfg(test)]
mod driving;
#[cfg(test)]
mod expecting;
#[cfg(test)]
mod explained;
#[cfg(test)]
mod images;
#[cfg(test)]
mod runs;
#[cfg(test)]
mod sessions;
