//! Names and one-sentence descriptions of the axioms.

use crate::fault::Axiom;
use std::fmt;

impl Axiom {
    /// The name of the axiom; for a dependency the short name of its kind.
    pub fn name(self) -> &'static str {
        match self {
            Axiom::BegunOnce => "BegunOnce",
            Axiom::EndedAfterBegun => "EndedAfterBegun",
            Axiom::EndedOnce => "EndedOnce",
            Axiom::OperatesInProgress => "OperatesInProgress",
            Axiom::FormOfEvent => "FormOfEvent",
            Axiom::Allowed => "Allowed",
            Axiom::PartiesInProgress => "PartiesInProgress",
            Axiom::Responsible => "Responsible",
            Axiom::HandsWhole => "HandsWhole",
            Axiom::Conflict => "Conflict",
            Axiom::Return => "Return",
            Axiom::Heir => "Heir",
            Axiom::FormedInTime => "FormedInTime",
            Axiom::Dependency(kind) => kind.word(),
            Axiom::Clash => "Clash",
        }
    }

    /// Describes in a sentence what the axiom requires of a history.
    pub fn sentence(self) -> &'static str {
        match self {
            Axiom::BegunOnce => {
                "A transaction begins at most once. A spawn and a split count too."
            }
            Axiom::EndedAfterBegun => {
                "A transaction commits, aborts or joins another only after it has begun."
            }
            Axiom::EndedOnce => "A transaction commits, aborts or joins another at most once.",
            Axiom::OperatesInProgress => "Only a transaction in progress does operations.",
            Axiom::FormOfEvent => {
                "Numbers, classes, objects and operations are those of the model, and no event names one transaction twice."
            }
            Axiom::Allowed => {
                "A transaction starts, and does an event, only as its class allows it, and an edge is formed only where a class may form edges."
            }
            Axiom::PartiesInProgress => {
                "Only a transaction in progress spawns, splits, delegates or permits, and only a transaction in progress is joined, delegated to or permitted."
            }
            Axiom::Responsible => {
                "A transaction that splits or delegates names only operations that it holds in progress."
            }
            Axiom::HandsWhole => {
                "A transaction whose class has `delegation whole` names all operations that it holds in progress when it splits or delegates."
            }
            Axiom::Conflict => {
                "Where the class has `policy refuse`, an operation conflicts with no operation in its transaction's conflict set."
            }
            Axiom::Return => {
                "An operation returns what the operations before it that aren't aborted make it return, and no other event returns anything."
            }
            Axiom::Heir => {
                "A transaction whose class has `commit toparent` commits only while it has a parent in progress."
            }
            Axiom::FormedInTime => {
                "A form event forms an edge of a begin kind before the dependent transaction begins, and any other edge before either transaction ends."
            }
            Axiom::Dependency(kind) => kind.sentence(),
            Axiom::Clash => "No transaction owes both a commit and an abort.",
        }
    }
}

impl fmt::Display for Axiom {
    fn fmt<W: fmt::Write>(&self, f: &mut fmt::Formatter<W>) -> fmt::Result {
        let name = self.name();
        let sentence = self.sentence();
        write!(f, "{name}: {sentence}")
    }
}
