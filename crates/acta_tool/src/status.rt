//! The exit status of the program.

ghost use Rattle.std.specs.Prelude.{◌≡◌};
ghost use Rattle.acta_tool.specs.Outcome.{exit_status_of};

use acta_args::UsageFault;
use acta_io::Outcome;
use acta_locked::DriveError;

/// Why no command ran to its end.
#[derive(Debug, Drop)]
pub enum Failure {
    /// The command line was rejected.
    Words(UsageFault),
    /// The threads of a driven run gave no result: memory ran out, or no thread could be started. Nothing was written.
    Undriven(DriveError),
}

impl From<UsageFault> for Failure {
    ghost use Rattle.acta_tool.specs.declared.status.Failure.TheVariants.{Words};

    ghost from_gives = { λ fault failure. failure ≡ Words fault };

    fn from(fault: UsageFault) -> Failure {
        Failure::Words(fault)
    }
}

/// The exit status of the program: 0 if everything was answered, 1 if the model or a line was refused, 2 if the command line
/// is wrong, and 3 if a read, a write, a thread or memory failed.
pub fn exit_status(outcome: &Result<Outcome, Failure>) -> u8
    ensures { result ≡ exit_status_of outcome.now }
{
    match outcome {
        Ok(outcome) => outcome.code(),
        Err(Failure::Undriven(_) | Failure::Words(UsageFault::Memory(_))) => 3,
        Err(Failure::Words(_)) => 2,
    }
}
