//! Tests that cross the crates: worked answers of machines and debuggers, verdicts, driven runs, each refused allocation of
//! each call, and the edges of checked models. What the program shows of histories is tested by `cases/`, which takes no
//! proof.
//!
//! A helper that owns a machine, a walk, a book or a debugger passes it to `drop` at its end: otherwise each of its parts is
//! dropped there, and each drop is proved there.
#![tactic(auto)]

#[cfg(test)]
mod calls;
#[cfg(test)]
mod checking;
#[cfg(test)]
mod debugging;
#[cfg(test)]
mod driving;
#[cfg(test)]
mod edges;
#[cfg(test)]
mod expecting;
#[cfg(test)]
mod exploring;
#[cfg(test)]
mod heaps;
#[cfg(test)]
mod judging;
#[cfg(test)]
mod lines;
#[cfg(test)]
mod models;
#[cfg(test)]
mod objects;
#[cfg(test)]
mod outside;
#[cfg(test)]
mod readings;
#[cfg(test)]
mod reasons;
#[cfg(test)]
mod refused;
#[cfg(test)]
mod sets;
#[cfg(test)]
mod shown;
#[cfg(test)]
mod standards;
