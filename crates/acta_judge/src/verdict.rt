//! The judge's answer.

ghost use Rattle.std.specs.Prelude.{◌≡◌};
ghost use Rattle.acta_judge.specs.declared.verdict.JudgeError.TheVariants.{Memory};

use acta_axioms::Fault;
use acta_table::{Items, Owed};
use std::alloc::{AllocError, Allocator};

/// The faults of a history, in order of axiom, place and number, each once, and the debts at its end, by edge number.
#[derive(Drop)]
pub struct Verdict<A: Allocator> {
    pub faults: Items<Fault, A>,
    pub owed: Items<Owed, A>,
}

/// Why there is no verdict.
#[derive(Clone, Copy, PartialEq, Eq, Debug)]
pub enum JudgeError {
    /// The list has more than `MOST_EVENTS` items.
    TooLong,
    /// Memory ran out.
    Memory,
}

impl From<AllocError> for JudgeError {
    ghost from_gives = { λ _ e. e ≡ Memory };

    fn from(_error: AllocError) -> JudgeError {
        JudgeError::Memory
    }
}
