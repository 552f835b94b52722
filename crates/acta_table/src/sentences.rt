//! Names and one-sentence descriptions of rules, kinds of dependency and model faults.

ghost use Rattle.std.specs.Prelude.{◌≡◌};
ghost use Rattle.acta_table.specs.Numbers.{rule_name};

use crate::answer::Rule;
use crate::dep::Dep;
use crate::model::ModelFault;
use std::error::Error;
use std::fmt;

impl Rule {
    /// The name of the rule.
    pub fn name(self) -> &'static str
        ensures { result.now ≡ rule_name self }
    {
        match self {
            Rule::Full => "Full",
            Rule::BadNumber => "BadNumber",
            Rule::BadClass => "BadClass",
            Rule::BadObject => "BadObject",
            Rule::BadOperation => "BadOperation",
            Rule::SameTransaction => "SameTransaction",
            Rule::NotInProgress => "NotInProgress",
            Rule::AlreadyBegun => "AlreadyBegun",
            Rule::NotInModel => "NotInModel",
            Rule::PartnerNotInProgress => "PartnerNotInProgress",
            Rule::NotResponsible => "NotResponsible",
            Rule::PartialDelegation => "PartialDelegation",
            Rule::BadSet => "BadSet",
            Rule::Conflict => "Conflict",
            Rule::FormTooLate => "FormTooLate",
            Rule::EdgesFull => "EdgesFull",
            Rule::BeginDep => "BeginDep",
            Rule::SerialDep => "SerialDep",
            Rule::BeginOnCommit => "BeginOnCommit",
            Rule::BeginOnAbort => "BeginOnAbort",
            Rule::TerminationDep => "TerminationDep",
            Rule::OwesAbort => "OwesAbort",
            Rule::OwesCommit => "OwesCommit",
            Rule::CommitOrder => "CommitOrder",
            Rule::WeakBegin => "WeakBegin",
            Rule::Unpayable => "Unpayable",
            Rule::Clash => "Clash",
            Rule::NoHeir => "NoHeir",
        }
    }

    /// Describes in a sentence an event that breaks the rule.
    pub fn sentence(self) -> &'static str {
        match self {
            Rule::Full => "The history has 65,536 events, the most that it may have.",
            Rule::BadNumber => "A transaction's number is 0 or above 16,383.",
            Rule::BadClass => "The class isn't in the model.",
            Rule::BadObject => "The object isn't in the model.",
            Rule::BadOperation => {
                "The operation isn't one of the object's kind: a register has read and write, a counter get and add, a set insert, remove, has and size."
            }
            Rule::SameTransaction => {
                "One transaction is named twice: no transaction depends on itself, or spawns, splits off, joins, delegates to or permits itself."
            }
            Rule::NotInProgress => {
                "The transaction that does the event isn't in progress: it has not begun, or it has ended."
            }
            Rule::AlreadyBegun => {
                "The transaction that the event starts has begun before. Each transaction starts once."
            }
            Rule::NotInModel => {
                "A class doesn't allow it: the class named can't start by such an event, or the transaction's class may not do such an event; or an edge is to be formed, and no class of the model may form edges, or one of the two transactions has begun with a class that may not."
            }
            Rule::PartnerNotInProgress => {
                "The transaction that is joined, delegated to or permitted isn't in progress."
            }
            Rule::NotResponsible => {
                "A named operation isn't held in progress by the transaction that splits or delegates."
            }
            Rule::PartialDelegation => {
                "The class of the transaction that splits or delegates has `delegation whole`, and an operation that it holds in progress isn't named."
            }
            Rule::BadSet => "A named operation does not exist.",
            Rule::Conflict => {
                "The transaction's class has `policy refuse`, and another transaction holds a conflicting operation in progress on the same object. Operations of its ancestors are exempt under `scope nonancestors`, and so are operations of a transaction that permits it to work on the object."
            }
            Rule::FormTooLate => {
                "The edge comes too late: it is of a begin kind, and the transaction that depends has begun; or it is of another kind, and one of the two transactions has ended."
            }
            Rule::EdgesFull => "More than 16,384 edges would be in force.",
            Rule::BeginDep => {
                "By a BD edge the transaction may begin only after another, which has not begun."
            }
            Rule::SerialDep => {
                "By an SD edge the transaction may begin only after another has committed or aborted, which has done neither."
            }
            Rule::BeginOnCommit => {
                "By a BCD edge the transaction may begin only after the commit of another, which has not committed."
            }
            Rule::BeginOnAbort => {
                "By a BAD edge the transaction may begin only after the abort of another, which has not aborted."
            }
            Rule::TerminationDep => {
                "By a TD edge the transaction may commit or abort only after another has committed or aborted, which has done neither."
            }
            Rule::OwesAbort => {
                "By the edge the transaction owes an abort, so it may neither commit nor join another."
            }
            Rule::OwesCommit => {
                "By the edge the transaction owes a commit, so it may neither abort nor join another."
            }
            Rule::CommitOrder => {
                "By a CD edge the transaction commits before another, if both commit, and the other has committed already."
            }
            Rule::WeakBegin => {
                "By a WCD edge another transaction begins only after the commit of this one, if this one commits, and the other has begun already."
            }
            Rule::Unpayable => {
                "By the edge another transaction would owe a commit or an abort that it can't do, since it has ended otherwise."
            }
            Rule::Clash => "A transaction would owe both a commit and an abort.",
            Rule::NoHeir => {
                "The transaction's class has `commit toparent`, and its parent isn't in progress."
            }
        }
    }
}

impl fmt::Display for Rule {
    fn fmt<W: fmt::Write>(&self, f: &mut fmt::Formatter<W>) -> fmt::Result {
        let name = self.name();
        let sentence = self.sentence();
        write!(f, "{name}: {sentence}")
    }
}

impl Dep {
    /// Describes in a sentence what an edge of the kind, of J on I, requires of a history.
    pub fn sentence(self) -> &'static str {
        match self {
            Dep::Cd => "For an edge CD J on I: where both commit, I commits before J.",
            Dep::Scd => "For an edge SCD J on I: where I commits, J commits, or still owes it.",
            Dep::Ad => "For an edge AD J on I: where I aborts, J aborts, or still owes it.",
            Dep::Wd => {
                "For an edge WD J on I: where I aborts, J aborts, or has committed before, or still owes its abort."
            }
            Dep::Td =>
                "For an edge TD J on I: J commits or aborts only after I has committed or aborted.",
            Dep::Ed =>
                "For an edge ED J on I: where I commits and J begins, J aborts, or still owes it.",
            Dep::Cmd => "For an edge CMD J on I: where I aborts, J commits, or still owes it.",
            Dep::Bd => "For an edge BD J on I: J begins only after I has begun.",
            Dep::Sd => "For an edge SD J on I: J begins only after I has committed or aborted.",
            Dep::Bcd => "For an edge BCD J on I: J begins only after I has committed.",
            Dep::Bad => "For an edge BAD J on I: J begins only after I has aborted.",
            Dep::Wcd =>
                "For an edge WCD J on I: where I commits and J begins, I commits before J begins.",
        }
    }
}

impl ModelFault {
    /// The name of the fault.
    pub fn name(self) -> &'static str {
        match self {
            ModelFault::NoClass => "NoClass",
            ModelFault::TooManyClasses => "TooManyClasses",
            ModelFault::TooManyObjects => "TooManyObjects",
            ModelFault::DuplicateName => "DuplicateName",
            ModelFault::BadName => "BadName",
            ModelFault::BeginKindAtStart => "BeginKindAtStart",
            ModelFault::HeirWithoutSpawn => "HeirWithoutSpawn",
            ModelFault::BadPolicyKind => "BadPolicyKind",
        }
    }

    /// Describes in a sentence when a model has the fault.
    pub fn sentence(self) -> &'static str {
        match self {
            ModelFault::NoClass => "There is no class.",
            ModelFault::TooManyClasses => "There are more than 16 classes.",
            ModelFault::TooManyObjects => "There are more than 256 objects.",
            ModelFault::DuplicateName => "Two objects, or two classes, have the same name.",
            ModelFault::BadName => {
                "A name isn't 1 to 32 bytes, a letter first, then letters, digits or underscores."
            }
            ModelFault::BeginKindAtStart => {
                "A class lists a begin kind, BD, SD, BCD, BAD or WCD, among the edges of a spawn or a split."
            }
            ModelFault::HeirWithoutSpawn => {
                "A class has `commit toparent`, and its transactions may start by a begin or a split, so without a parent."
            }
            ModelFault::BadPolicyKind => {
                "A class has `policy depend` with no kind, or with a kind other than CD, AD, WD and TD."
            }
        }
    }
}

impl fmt::Display for ModelFault {
    fn fmt<W: fmt::Write>(&self, f: &mut fmt::Formatter<W>) -> fmt::Result {
        let name = self.name();
        let sentence = self.sentence();
        write!(f, "{name}: {sentence}")
    }
}

impl Error for ModelFault {}
