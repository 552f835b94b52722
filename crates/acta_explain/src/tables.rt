//! The meaning of a rule, an axiom or a code, found by its number or its name.

use acta_axioms::Axiom;
use acta_image::ImageFault;
use acta_lang::Code;
use acta_prose::{Prose, put};
use acta_script::LineFault;
use acta_table::{Dep, ModelFault, Rule};
use acta_words::read_u16;
use std::alloc::Allocator;

/// A rule, an axiom or a code, in words.
#[derive(Clone, Copy)]
pub struct Entry {
    /// Its number, as printed.
    pub number: u8,
    /// Its name.
    pub name: &'static str,
    /// What it means.
    pub sentence: &'static str,
    /// The meaning of the number that is printed with it, such as a transaction or an edge; empty if none is printed.
    pub by: &'static str,
}

/// The tables of entries.
#[derive(Clone, Copy)]
pub enum Table {
    Rules,
    Axioms,
    LineCodes,
    TextCodes,
    ImageFaults,
    ModelFaults,
}

/// The most entries of a table.
pub const MOST_ENTRIES: usize = RULES.len();

/// The tables of codes.
pub const CODES: [Table; 4] = [
    Table::LineCodes,
    Table::TextCodes,
    Table::ImageFaults,
    Table::ModelFaults,
];

// All rules, by number.
#[rattlefmt::skip]
const RULES: [Rule; 28] = [
    Rule::Full, Rule::BadNumber, Rule::BadClass, Rule::BadObject, Rule::BadOperation,
    Rule::SameTransaction, Rule::NotInProgress, Rule::AlreadyBegun, Rule::NotInModel,
    Rule::PartnerNotInProgress, Rule::NotResponsible, Rule::PartialDelegation, Rule::BadSet,
    Rule::Conflict, Rule::FormTooLate, Rule::EdgesFull, Rule::BeginDep, Rule::SerialDep,
    Rule::BeginOnCommit, Rule::BeginOnAbort, Rule::TerminationDep, Rule::OwesAbort,
    Rule::OwesCommit, Rule::CommitOrder, Rule::WeakBegin, Rule::Unpayable, Rule::Clash,
    Rule::NoHeir,
];

// All axioms, by number.
#[rattlefmt::skip]
const AXIOMS: [Axiom; 26] = [
    Axiom::BegunOnce, Axiom::EndedAfterBegun, Axiom::EndedOnce, Axiom::OperatesInProgress,
    Axiom::FormOfEvent, Axiom::Allowed, Axiom::PartiesInProgress, Axiom::Responsible,
    Axiom::HandsWhole, Axiom::Conflict, Axiom::Return, Axiom::Heir, Axiom::FormedInTime,
    Axiom::Dependency(Dep::Cd), Axiom::Dependency(Dep::Scd), Axiom::Dependency(Dep::Ad),
    Axiom::Dependency(Dep::Wd), Axiom::Dependency(Dep::Td), Axiom::Dependency(Dep::Ed),
    Axiom::Dependency(Dep::Cmd), Axiom::Dependency(Dep::Bd), Axiom::Dependency(Dep::Sd),
    Axiom::Dependency(Dep::Bcd), Axiom::Dependency(Dep::Bad), Axiom::Dependency(Dep::Wcd),
    Axiom::Clash,
];

// All codes of lines, by number.
const LINE_CODES: [LineFault; 5] = [
    LineFault::Empty,
    LineFault::Word,
    LineFault::Arity,
    LineFault::Number,
    LineFault::Name,
];

// All codes of texts of models, by number.
const TEXT_CODES: [Code; 12] = [
    Code::NotAscii,
    Code::BadWord,
    Code::BadName,
    Code::DuplicateName,
    Code::WrongPlace,
    Code::BadNumber,
    Code::TooMany,
    Code::MissingEnd,
    Code::MissingPart,
    Code::BeginKindAtStart,
    Code::HeirWithoutSpawn,
    Code::BadPolicyKind,
];

// All faults of models, by number.
const MODEL_FAULTS: [ModelFault; 8] = [
    ModelFault::NoClass,
    ModelFault::TooManyClasses,
    ModelFault::TooManyObjects,
    ModelFault::DuplicateName,
    ModelFault::BadName,
    ModelFault::BeginKindAtStart,
    ModelFault::HeirWithoutSpawn,
    ModelFault::BadPolicyKind,
];

// One fault of images of each number.
const IMAGE_FAULTS: [ImageFault; 6] = [
    ImageFault::Magic,
    ImageFault::Version,
    ImageFault::Truncated,
    ImageFault::BadField(0),
    ImageFault::Trailing(0),
    ImageFault::Model(ModelFault::NoClass),
];

const TRANSACTION: &str = "a transaction";

const OPERATION: &str = "an operation";

const EDGE: &str = "an edge";

const NOTHING: &str = "";

// The meaning of the number that is printed with a rule.
fn named_by_rule(rule: Rule) -> &'static str {
    match rule {
        Rule::Full
        | Rule::BadClass
        | Rule::BadObject
        | Rule::BadOperation
        | Rule::NotInModel
        | Rule::EdgesFull => NOTHING,
        Rule::NotResponsible | Rule::PartialDelegation | Rule::BadSet | Rule::Conflict => OPERATION,
        Rule::BeginDep
        | Rule::SerialDep
        | Rule::BeginOnCommit
        | Rule::BeginOnAbort
        | Rule::TerminationDep
        | Rule::OwesAbort
        | Rule::OwesCommit
        | Rule::CommitOrder
        | Rule::WeakBegin
        | Rule::Unpayable => EDGE,
        _ => TRANSACTION,
    }
}

// The meaning of the number that is printed with an axiom.
fn named_by_axiom(axiom: Axiom) -> &'static str {
    match axiom {
        Axiom::Responsible | Axiom::HandsWhole | Axiom::Conflict => OPERATION,
        Axiom::Return => "an operation, or 0",
        Axiom::Heir => "a transaction, or 0",
        Axiom::Dependency(_) => EDGE,
        _ => TRANSACTION,
    }
}

// No number is printed with a code.
fn names_nothing<T: Copy>(_item: T) -> &'static str {
    NOTHING
}

// The entry of the item at this place of a list, with the meaning of the number that is printed with it.
macro_rules! entry_in {
    ($items:expr, $place:expr, $named:ident) => {{
        let item = *$items.get($place)?;
        Entry {
            number: item.number(),
            name: item.name(),
            sentence: item.sentence(),
            by: $named(item),
        }
    }};
}

impl Table {
    /// The noun for an entry of the table, before its number.
    pub fn title(self) -> &'static str {
        match self {
            Table::Rules => "rule",
            Table::Axioms => "axiom",
            Table::LineCodes => "code of a line",
            Table::TextCodes => "code of a text of a model",
            Table::ImageFaults => "fault of an image",
            Table::ModelFaults => "fault of a model",
        }
    }

    /// The entry at this place of the table, from 0.
    pub fn entry(self, place: usize) -> Option<Entry> {
        Some(match self {
            Table::Rules => entry_in!(RULES, place, named_by_rule),
            Table::Axioms => entry_in!(AXIOMS, place, named_by_axiom),
            Table::LineCodes => entry_in!(LINE_CODES, place, names_nothing),
            Table::TextCodes => entry_in!(TEXT_CODES, place, names_nothing),
            Table::ImageFaults => entry_in!(IMAGE_FAULTS, place, names_nothing),
            Table::ModelFaults => entry_in!(MODEL_FAULTS, place, names_nothing),
        })
    }
}

/// Adds the entries of the table with this word as number or name: the number, the name and the meaning of each.
pub fn put_meant<A: Allocator>(mut prose: Prose<A>, table: Table, word: &str) -> Prose<A> {
    let number = read_u16(word.as_bytes());
    for place in 0..MOST_ENTRIES {
        let Some(entry) = table.entry(place) else {
            continue;
        };
        if !entry.name.eq_ignore_ascii_case(word) && number != Some(u16::from(entry.number)) {
            continue;
        }
        prose = put!(prose; table.title(), " ", entry.number, ": ", entry.name, "\n    ",
            entry.sentence, "\n");
        if !entry.by.is_empty() {
            prose = put!(prose; "    The reported number is that of ", entry.by, ".\n");
        }
    }
    prose
}
