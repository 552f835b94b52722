//! How a run of a command ended.

ghost use Rattle.std.specs.Prelude.{◌≡◌};
ghost use Rattle.acta_io.specs.Outcome.{code_of};

use crate::source::ReadFault;

/// How a run of a command ended.
#[derive(Clone, Copy, Debug, PartialEq, Eq)]
pub enum Outcome {
    /// The whole input was answered.
    Done,
    /// The model or a line of the input is faulty. The last line of the output reports it.
    Refused,
    /// A read failed, the model or the input is too long, or memory ran out. Nothing was written.
    Unread(ReadFault),
    /// A write failed. Part of the output may have been written.
    Unwritten,
}

impl Outcome {
    /// The exit status of a program that ends in this way: 0, 1 or 3.
    pub fn code(self) -> u8
        ensures { result ≡ code_of self }
    {
        match self {
            Outcome::Done => 0,
            Outcome::Refused => 1,
            Outcome::Unread(_) | Outcome::Unwritten => 3,
        }
    }
}
