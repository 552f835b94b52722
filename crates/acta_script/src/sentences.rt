//! Names and one-sentence descriptions of the faults of lines.

ghost use Rattle.std.specs.Prelude.{◌≡◌};
ghost use Rattle.acta_script.specs.Words.{fault_name};

use crate::fault::LineFault;
use std::error::Error;
use std::fmt;

impl LineFault {
    /// The name of the fault.
    pub fn name(self) -> &'static str
        ensures { result.now ≡ fault_name self }
    {
        match self {
            LineFault::Empty => "Empty",
            LineFault::Word => "Word",
            LineFault::Arity => "Arity",
            LineFault::Number => "Number",
            LineFault::Name => "Name",
        }
    }

    /// Describes in a sentence when a line has the fault.
    pub fn sentence(self) -> &'static str {
        match self {
            LineFault::Empty => "There are no words.",
            LineFault::Word => {
                "The first word is no event, or a word is no kind of dependency or no operation where one is expected."
            }
            LineFault::Arity => {
                "There are too few or too many words for the event, or not one word after a `=`."
            }
            LineFault::Number => {
                "A number of a transaction, an INT, a list of operations or a return isn't written as one, or is out of its bounds."
            }
            LineFault::Name => "The model has no such class, or no such object.",
        }
    }
}

impl fmt::Display for LineFault {
    fn fmt<W: fmt::Write>(&self, f: &mut fmt::Formatter<W>) -> fmt::Result {
        let name = self.name();
        let sentence = self.sentence();
        write!(f, "{name}: {sentence}")
    }
}

impl Error for LineFault {}
