//! Why a line could not be read.

ghost use Rattle.std.specs.Prelude.{◌≡◌};
ghost use Rattle.std.specs.Option.{option_map_or};
ghost use Rattle.acta_script.specs.Reading.{fault_number, lower};
ghost use Rattle.acta_script.specs.declared.fault.LineError.TheVariants.{Memory, Fault};

use std::alloc::{AllocError, AllocFailed};

/// A fault of a line. If there are several, the lowest is reported.
#[derive(Clone, Copy, PartialEq, Eq, Debug)]
pub enum LineFault {
    /// The line has no words.
    Empty = 1,
    /// The first word is no event, or the word for a kind or an operation is unknown.
    Word = 2,
    /// Too few or too many words for the event, or not exactly one word after a `=`.
    Arity = 3,
    /// A number is malformed or out of range.
    Number = 4,
    /// The model has no such class or object.
    Name = 5,
}

impl LineFault {
    /// The number of the fault, from 1 to 5, as the program prints it.
    pub fn number(self) -> u8
        ensures { result ≡ fault_number self }
    {
        self as u8
    }
}

/// The lower of the two faults, if there is another.
pub(crate) fn lowest(fault: LineFault, other: Option<LineFault>) -> LineFault
    ensures { result ≡ option_map_or (lower fault) other fault }
{
    match other {
        Some(other) if other.number() < fault.number() => other,
        _ => fault,
    }
}

/// The error when a line is read.
#[derive(Debug, Drop)]
pub enum LineError {
    /// Memory ran out, so the line may be right or wrong.
    Memory,
    /// The lowest fault of the line.
    Fault(LineFault),
}

impl From<LineFault> for LineError {
    ghost from_gives = { λ f e. e ≡ Fault f };

    fn from(fault: LineFault) -> LineError {
        LineError::Fault(fault)
    }
}

impl From<AllocError> for LineError {
    ghost from_gives = { λ _ e. e ≡ Memory };

    fn from(_e: AllocError) -> LineError {
        LineError::Memory
    }
}

impl<T: Drop> From<AllocFailed<T>> for LineError {
    ghost from_gives = { λ _ e. e ≡ Memory };

    fn from(_e: AllocFailed<T>) -> LineError {
        LineError::Memory
    }
}
