//! The part of an answer that is compared.

ghost use Rattle.std.specs.Prelude.{◌≡◌, ◌↔◌, IsTrue};
ghost use Rattle.acta_compare.specs.Seen.{seen_of};

use acta_script::LineFault;
use acta_table::{Answer, Ret, Rule};

/// A model's answer to a line. It leaves out the place in the history and the number with the rule, which differ anyway
/// after the first difference between two runs.
#[derive(Clone, Copy, PartialEq, Eq, Debug)]
pub enum Seen {
    /// The model can't read the line.
    Unread(LineFault),
    /// The event is admitted, with this return if it is an operation.
    Admitted(Option<Ret>),
    /// The event is refused by this rule.
    Refused(Rule),
}

impl Seen {
    /// The part of an answer that is compared.
    pub(crate) fn of(answer: Answer) -> Seen
        ensures { result ≡ seen_of answer }
    {
        match answer {
            Answer::Admitted { ret, .. } => Seen::Admitted(ret),
            Answer::Refused { rule, .. } => Seen::Refused(rule),
        }
    }

    /// Whether two models answer the same.
    pub fn is_same(self, other: Seen) -> bool
        ensures { IsTrue result ↔ (self ≡ other) }
    {
        self == other
    }
}
