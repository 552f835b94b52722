ghost use Rattle.std.specs.Prelude.{◌≡◌};
ghost use Rattle.acta_machine.specs.declared.serial.SerialError.TheVariants.{Memory};

use std::alloc::AllocError;

/// Why there is no serial order.
#[derive(Clone, Copy, PartialEq, Eq, Debug)]
pub enum SerialError {
    /// The model isn't strict.
    NotStrict,
    /// Memory ran out.
    Memory,
}

impl From<AllocError> for SerialError {
    ghost from_gives = { λ _ e. e ≡ Memory };

    fn from(_error: AllocError) -> SerialError {
        SerialError::Memory
    }
}
