//! Why a text is not a condition.

ghost use Rattle.std.specs.Prelude.{◌≡◌};
ghost use Rattle.acta_ends.specs.declared.fault.ConditionError.TheVariants as error;

use acta_table::ObjId;
use std::alloc::{AllocError, AllocFailed};

/// What is expected at a word of a condition.
#[derive(Clone, Copy, PartialEq, Eq, Debug)]
pub enum Expected {
    /// A test.
    Test,
    /// A status.
    Status,
    /// An object of the model.
    Object,
    /// The number of a line of the programs in the input.
    Line,
    /// The number of a line that has an operation among its alternatives.
    Operation,
    /// A transaction that an event of the programs starts.
    Started,
    /// A value of this object: a number, or the elements of a set.
    Value(ObjId),
    /// A return.
    Return,
    /// The word `and`.
    And,
}

/// Where a text stops being a condition.
#[derive(Clone, Copy, PartialEq, Eq, Debug)]
pub struct ConditionFault {
    /// The position of the word, from 0, or the number of words if a word is missing at the end.
    pub word: usize,
    /// What is expected there.
    pub expected: Expected,
}

/// Why reading a condition failed.
#[derive(Clone, Copy, PartialEq, Eq, Debug)]
pub enum ConditionError {
    Fault(ConditionFault),
    Memory,
}

impl From<ConditionFault> for ConditionError {
    ghost from_gives = { λ fault e. e ≡ error.Fault fault };

    fn from(fault: ConditionFault) -> ConditionError {
        ConditionError::Fault(fault)
    }
}

impl From<AllocError> for ConditionError {
    ghost from_gives = { λ _ e. e ≡ error.Memory };

    fn from(_error: AllocError) -> ConditionError {
        ConditionError::Memory
    }
}

impl<T: Drop> From<AllocFailed<T>> for ConditionError {
    ghost from_gives = { λ _ e. e ≡ error.Memory };

    fn from(_error: AllocFailed<T>) -> ConditionError {
        ConditionError::Memory
    }
}
