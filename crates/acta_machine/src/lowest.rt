//! The lowest rule that an event breaks.

ghost use Rattle.std.specs.Prelude.{◌≡◌};
ghost use Rattle.acta_machine.specs.inside.Broken.{rule_of};

use crate::reason::Reason;
use acta_table::{Answer, Refusal};

/// The lowest rule that an event breaks. The edges by which it breaks a rule on dependencies are found only when a reason
/// is asked for, since a transaction may have thousands of them.
#[derive(Clone, Copy, PartialEq, Eq, Debug)]
pub(crate) enum Broken {
    /// The rule of this reason.
    For(Reason),
    /// This rule on dependencies.
    ByEdges(Refusal),
}

impl Broken {
    /// The rule, with the number that it names.
    pub(crate) fn refusal(self) -> Refusal
        ensures { result ≡ rule_of self }
    {
        match self {
            Broken::For(reason) => reason.refusal(),
            Broken::ByEdges(refusal) => refusal,
        }
    }

    /// The answer to an event that breaks the rule.
    pub(crate) fn answer(self) -> Answer
        ensures { result ≡ Answer.Refused (rule_of self).rule (rule_of self).by }
    {
        let Refusal { rule, by } = self.refusal();
        Answer::Refused { rule, by }
    }
}
