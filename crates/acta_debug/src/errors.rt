//! Why a call of the debugger failed.

ghost use Rattle.std.specs.Prelude.{◌≡◌};
ghost use Rattle.acta_debug.specs.declared.errors.NewError.TheVariants as new;
ghost use Rattle.acta_debug.specs.declared.errors.MoveError.TheVariants as moving;

use std::alloc::{AllocError, AllocFailed};

/// Why a debugger could not be made.
#[derive(Clone, Copy, PartialEq, Eq, Debug)]
pub enum NewError {
    /// The list is not a history: at this place, from 1, the machine does not admit the event with the return in the
    /// list.
    NotAHistory(u32),
    /// Memory ran out.
    Memory,
}

/// Why a debugger did not move.
#[derive(Clone, Copy, PartialEq, Eq, Debug)]
pub enum MoveError {
    /// The debugger is after the last event.
    AtEnd,
    /// The debugger is before the first event.
    AtStart,
    /// The history has fewer events.
    OutOfRange,
    /// Memory ran out.
    Memory,
}

impl From<AllocError> for NewError {
    ghost from_gives = { λ _ e. e ≡ new.Memory };

    fn from(_error: AllocError) -> NewError {
        NewError::Memory
    }
}

impl From<AllocError> for MoveError {
    ghost from_gives = { λ _ e. e ≡ moving.Memory };

    fn from(_error: AllocError) -> MoveError {
        MoveError::Memory
    }
}
