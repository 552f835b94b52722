ghost use Rattle.std.specs.Prelude.{◌≡◌, ◌++◌, ◌∷◌, [], min, Some, None, if◌then◌else◌};
ghost use Rattle.std.specs.Option.{option_map_or};
ghost use Rattle.acta_table.specs.Numbered.{smallest};
ghost use Rattle.acta_table.specs.Numbers.{rule_number};

use crate::event::{Ret, TxnId};

/// The status of a transaction.
#[derive(Clone, Copy, PartialEq, Eq, Hash, Debug)]
pub enum Status {
    NotBegun,
    InProgress,
    Committed,
    Aborted,
    /// It joined another transaction, which took over its operations.
    Joined,
}

/// The fate of an operation.
#[derive(Clone, Copy, PartialEq, Eq, Hash, Debug)]
pub enum Fate {
    InProgress,
    Committed,
    Aborted,
}

/// The rules that can refuse an event, in the order in which they are checked.
#[derive(Clone, Copy, PartialEq, Eq, Hash, Debug)]
pub enum Rule {
    Full = 1,
    BadNumber = 2,
    BadClass = 3,
    BadObject = 4,
    BadOperation = 5,
    SameTransaction = 6,
    NotInProgress = 7,
    AlreadyBegun = 8,
    NotInModel = 9,
    PartnerNotInProgress = 10,
    NotResponsible = 11,
    PartialDelegation = 12,
    BadSet = 13,
    Conflict = 14,
    FormTooLate = 15,
    EdgesFull = 16,
    BeginDep = 17,
    SerialDep = 18,
    BeginOnCommit = 19,
    BeginOnAbort = 20,
    TerminationDep = 21,
    OwesAbort = 22,
    OwesCommit = 23,
    CommitOrder = 24,
    WeakBegin = 25,
    Unpayable = 26,
    Clash = 27,
    NoHeir = 28,
}

impl Rule {
    /// The number of the rule, from 1 to 28, as answers print it.
    pub fn number(self) -> u8
        ensures { result ≡ rule_number self }
    {
        self as u8
    }
}

/// A broken rule, with the smallest number that breaks it if the rule names one.
#[derive(Clone, Copy, PartialEq, Eq, Hash, Debug)]
pub struct Refusal {
    pub rule: Rule,
    pub by: Option<u32>,
}

impl Refusal {
    /// Returns a refusal by a rule that names no number.
    pub fn of(rule: Rule) -> Refusal
        ensures { result ≡ record { rule = rule; by = None } }
    {
        Refusal { rule, by: None }
    }

    /// Returns a refusal by a rule that names this number.
    pub fn by(rule: Rule, number: u32) -> Refusal
        ensures { result ≡ record { rule = rule; by = Some number } }
    {
        Refusal {
            rule,
            by: Some(number),
        }
    }
}

/// Returns the smaller of the two numbers. A rule names the smallest number that breaks it.
pub fn lesser(least: Option<u32>, number: u32) -> Option<u32>
    ensures { result ≡ Some (option_map_or (min number) least number) }
{
    match least {
        Some(least) => Some(number.min(least)),
        None => Some(number),
    }
}

/// Returns the smallest of those of the two transactions whose flag is set, for a rule that checks both.
pub fn smallest_of(j: TxnId, is_j: bool, i: TxnId, is_i: bool) -> Option<u32>
    ensures { result ≡ smallest ((if is_j then j.0 ∷ [] else []) ++ (if is_i then i.0 ∷ [] else [])) }
{
    match (is_j, is_i) {
        (true, true) => Some(u32::from(j.0.min(i.0))),
        (true, false) => Some(u32::from(j.0)),
        (false, true) => Some(u32::from(i.0)),
        (false, false) => None,
    }
}

/// The machine's answer to an event.
#[derive(Clone, Copy, PartialEq, Eq, Hash, Debug)]
pub enum Answer {
    /// Admitted at this place in the history, from 1. An operation has a return.
    Admitted { place: u32, ret: Option<Ret> },
    /// Refused. This is the lowest rule that the event breaks.
    Refused { rule: Rule, by: Option<u32> },
}
