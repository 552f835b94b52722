//! Diagnoses wrong lines (events, kept items, seated events, debugger commands): which word is wrong, and what is
//! expected.

ghost use Rattle.std.specs.Prelude.{◌≡◌, ◌<◌, ◌≤◌, ◌+◌, ◌^◌, length, map, option_map, IfOk, IfSome};
ghost use Rattle.std.specs.Result.{result_err};
ghost use Rattle.acta_words.specs.Text.{words_of};
ghost use Rattle.acta_script.specs.Diagnosis.{IsWrong, fault_of_word, is_fault, wrong_word, wrong_count, wrong_in, op_kind_in, operation_parts, parts_of, form_of, wrong_event, wrong_return, lower_of, wrong_kept, wrong_seat, wrong_after_seat, wrong_seated, break_parts, wrong_break, command_parts, is_break, wrong_argument, wrong_command};
ghost use Rattle.acta_script.specs.Commands.{command_of};
ghost use Rattle.acta_script.specs.Reading.{parse_operations, event_of, kept_of, seated_of};

use crate::command_words::{BreakKind, CommandKind, parse_break_kind, parse_command_kind};
use crate::fault::{LineError, LineFault};
use crate::kept::sign_place;
use crate::names::{parse_class, parse_kind, parse_object};
use crate::numbers::{parse_count, parse_integer, parse_txn};
use crate::op_kind::{OpKind, parse_op_kind};
use crate::op_sets::parse_operations;
use crate::reading::parse_event_kind;
use crate::returns::parse_return_word;
use crate::seated::parse_seat;
use crate::shell_words::ShellKind;
use acta_table::{EventKind, Model};
use acta_words::words_of;
use std::alloc::{AllocError, Allocator};

/// The part of a line that a word stands for.
#[derive(Clone, Copy, PartialEq, Eq, Debug)]
pub enum LinePart {
    /// The kind of event, such as `begin`: the first word of an event.
    Event,
    /// A kind of dependency, such as `CD`.
    Kind,
    /// An operation, such as `read`.
    Operation,
    /// A transaction number of 16 bits.
    Transaction,
    /// A signed number of 32 bits.
    Integer,
    /// A list of operations: `-`, or numbers of 32 bits joined by commas.
    Operations,
    /// The name of a class of the model.
    Class,
    /// The name of an object of the model.
    Object,
    /// A return, such as `done` or a number.
    Return,
    /// A seat, from 1 to this number of seats.
    Seat(u8),
    /// A count, a number of 32 bits.
    Count,
    /// The kind of debugger command, such as `goto`: the first word of a command.
    Command,
    /// The kind of break, such as `txn`: the word after `break`.
    Break,
}

/// What is expected at the wrong place.
#[derive(Clone, Copy, PartialEq, Eq, Debug)]
pub enum Expected {
    /// A word for this part.
    Part(LinePart),
    /// As many words as the form of this kind of event (`event_form`).
    EventForm(EventKind),
    /// As many words as the form of this operation (`OpKind::form`).
    OperationForm(OpKind),
    /// As many words as the form of this command (`CommandKind::form`).
    CommandForm(CommandKind),
    /// As many words as the form of a command that adds this break (`BreakKind::form`).
    BreakForm(BreakKind),
    /// As many words as the form of this session command (`ShellKind::form`).
    ShellForm(ShellKind),
}

/// The place where a line is wrong. Words are numbered from 0.
#[derive(Clone, Copy, PartialEq, Eq, Debug)]
pub enum WordPlace {
    /// The word with this number is wrong, or is one too many.
    Wrong(usize),
    /// A word is missing; it would have this number.
    Missing(usize),
}

/// A fault of a line, with its place.
#[derive(Clone, Copy, PartialEq, Eq, Debug)]
pub struct Diagnostic {
    /// The lowest of the line's faults.
    pub fault: LineFault,
    /// The first word with the fault, or the place of the missing word.
    pub place: WordPlace,
    /// What is expected at the place.
    pub expected: Expected,
}

// Whether the fault that was found is this one.
fn is_fault(fault: LineFault, found: Option<LineFault>) -> bool
    ensures { result ≡ is_fault fault found }
{
    match found {
        Some(found) => found.number() == fault.number(),
        None => false,
    }
}

// The fault of a word for a list of operations.
fn fault_of_operations<A: Allocator + Copy>(
    alloc: A,
    word: &[u8],
) -> Result<Option<LineFault>, AllocError>
    ensures { IfOk result (λ fault. fault ≡ result_err (parse_operations word.now)) }
{
    match parse_operations(alloc, word) {
        Ok(_) => Ok(None),
        Err(LineError::Fault(fault)) => Ok(Some(fault)),
        Err(LineError::Memory) => Err(AllocError),
    }
}

// The fault of a word for this part, if it has one.
fn fault_of_word<A: Allocator + Copy>(
    alloc: A,
    model: &Model<A>,
    part: LinePart,
    word: &[u8],
) -> Result<Option<LineFault>, AllocError>
    ensures { IfOk result (λ fault. fault ≡ fault_of_word model.now part word.now) }
{
    Ok(match part {
        LinePart::Event => parse_event_kind(word).err(),
        LinePart::Kind => parse_kind(word).err(),
        LinePart::Operation => parse_op_kind(word).err(),
        LinePart::Transaction => parse_txn(word).err(),
        LinePart::Integer => parse_integer(word).err(),
        LinePart::Operations => return fault_of_operations(alloc, word),
        LinePart::Class => parse_class(model, word).err(),
        LinePart::Object => parse_object(model, word).err(),
        LinePart::Return => parse_return_word(word).err(),
        LinePart::Seat(seats) => parse_seat(seats, word).err(),
        LinePart::Count => parse_count(word).err(),
        LinePart::Command => parse_command_kind(word).err(),
        LinePart::Break => parse_break_kind(word).err(),
    })
}

// The first word with this fault, given the parts. The first of the words has number n in its line.
fn wrong_word<A: Allocator + Copy>(
    alloc: A,
    model: &Model<A>,
    fault: LineFault,
    n: usize,
    parts: &[LinePart],
    words: &[&[u8]],
) -> Result<Option<Diagnostic>, AllocError>
    requires { n + length words.now < 2 ^ 64 }
    ensures { IfOk result (λ found. found ≡ wrong_word model.now fault n parts.now (map (λ word. word.now) words.now)) }
{
    let count = parts.len().min(words.len());
    for i in 0..count {
        let part = parts[i];
        if is_fault(fault, fault_of_word(alloc, model, part, words[i])?) {
            return Ok(Some(Diagnostic {
                fault,
                place: WordPlace::Wrong(n + i),
                expected: Expected::Part(part),
            }));
        }
    }
    Ok(None)
}

// The first word too many, or the place after the last word if there are too few.
fn wrong_count(expected: Expected, n: usize, wanted: usize, count: usize) -> Option<Diagnostic>
    requires { n + count < 2 ^ 64 }
    ensures { result ≡ wrong_count expected n wanted count }
{
    let place = if count < wanted {
        WordPlace::Missing(n + count)
    } else if wanted < count {
        WordPlace::Wrong(n + wanted)
    } else {
        return None;
    };
    Some(Diagnostic {
        fault: LineFault::Arity,
        place,
        expected,
    })
}

// The lowest fault and its first word, given the parts.
fn wrong_in<A: Allocator + Copy>(
    alloc: A,
    model: &Model<A>,
    parts: &[LinePart],
    expected: Expected,
    n: usize,
    words: &[&[u8]],
) -> Result<Option<Diagnostic>, AllocError>
    requires { n + length words.now < 2 ^ 64 }
    ensures { IfOk result (λ found. found ≡ wrong_in model.now parts.now expected n (map (λ word. word.now) words.now)) }
{
    if let Some(found) = wrong_word(alloc, model, LineFault::Word, n, parts, words)? {
        return Ok(Some(found));
    }
    if let Some(found) = wrong_count(expected, n, parts.len(), words.len()) {
        return Ok(Some(found));
    }
    if let Some(found) = wrong_word(alloc, model, LineFault::Number, n, parts, words)? {
        return Ok(Some(found));
    }
    wrong_word(alloc, model, LineFault::Name, n, parts, words)
}

// The operation named by the words after `do`, if they are long enough and name one.
fn op_kind_in(words: &[&[u8]]) -> Option<OpKind>
    ensures { result ≡ op_kind_in (map (λ word. word.now) words.now) }
{
    match words {
        [_, _, op, ..] => OpKind::of_word(op),
        _ => None,
    }
}

// The parts after `do`.
fn operation_parts(op: Option<OpKind>) -> &'static [LinePart]
    ensures { result.now ≡ operation_parts op }
{
    match op {
        Some(op) if op.takes_integer() => &[
            LinePart::Transaction,
            LinePart::Object,
            LinePart::Operation,
            LinePart::Integer,
        ],
        _ => &[LinePart::Transaction, LinePart::Object, LinePart::Operation],
    }
}

// The parts after the first word, for this kind of event and operation.
fn parts_of(kind: EventKind, op: Option<OpKind>) -> &'static [LinePart]
    ensures { result.now ≡ parts_of kind op }
{
    match kind {
        EventKind::Begin => &[LinePart::Transaction, LinePart::Class],
        EventKind::Spawn => &[
            LinePart::Transaction,
            LinePart::Transaction,
            LinePart::Class,
        ],
        EventKind::Split => &[
            LinePart::Transaction,
            LinePart::Transaction,
            LinePart::Class,
            LinePart::Operations,
        ],
        EventKind::Join => &[LinePart::Transaction, LinePart::Transaction],
        EventKind::Delegate => &[
            LinePart::Transaction,
            LinePart::Transaction,
            LinePart::Operations,
        ],
        EventKind::Form => &[LinePart::Kind, LinePart::Transaction, LinePart::Transaction],
        EventKind::Operate => operation_parts(op),
        EventKind::Commit => &[LinePart::Transaction],
        EventKind::Abort => &[LinePart::Transaction],
        EventKind::Permit => &[
            LinePart::Transaction,
            LinePart::Transaction,
            LinePart::Object,
        ],
    }
}

// The form that the line should have.
fn form_of(kind: EventKind, op: Option<OpKind>) -> Expected
    ensures { result ≡ form_of kind op }
{
    match (kind, op) {
        (EventKind::Operate, Some(op)) => Expected::OperationForm(op),
        _ => Expected::EventForm(kind),
    }
}

/// The diagnosis of an event's words, of which the first has number n in its line.
pub(crate) fn wrong_event<A: Allocator + Copy>(
    alloc: A,
    model: &Model<A>,
    n: usize,
    words: &[&[u8]],
) -> Result<Option<Diagnostic>, AllocError>
    requires { n + length words.now < 2 ^ 64 }
    ensures { IfOk result (λ found. found ≡ wrong_event model.now n (map (λ word. word.now) words.now)) }
{
    let [word, words @ ..] = words else {
        return Ok(Some(Diagnostic {
            fault: LineFault::Empty,
            place: WordPlace::Missing(n),
            expected: Expected::Part(LinePart::Event),
        }));
    };
    match parse_event_kind(word) {
        Ok(kind) => {
            let op = op_kind_in(words);
            wrong_in(
                alloc,
                model,
                parts_of(kind, op),
                form_of(kind, op),
                n + 1,
                words,
            )
        }
        Err(fault) => Ok(Some(Diagnostic {
            fault,
            place: WordPlace::Wrong(n),
            expected: Expected::Part(LinePart::Event),
        })),
    }
}

// The diagnosis of the words after a `=`, of which the first has number n in its line.
fn wrong_return<A: Allocator + Copy>(
    alloc: A,
    model: &Model<A>,
    n: usize,
    words: &[&[u8]],
) -> Result<Option<Diagnostic>, AllocError>
    requires { n + length words.now < 2 ^ 64 }
    ensures { IfOk result (λ found. found ≡ wrong_return model.now n (map (λ word. word.now) words.now)) }
{
    wrong_in(
        alloc,
        model,
        &[LinePart::Return],
        Expected::Part(LinePart::Return),
        n,
        words,
    )
}

// The diagnosis with the lower fault, or the first if the faults are equal.
fn lower_of(first: Option<Diagnostic>, second: Option<Diagnostic>) -> Option<Diagnostic>
    ensures { result ≡ lower_of first second }
{
    match (first, second) {
        (Some(first), Some(second)) if second.fault.number() < first.fault.number() => Some(second),
        (Some(first), _) => Some(first),
        (None, second) => second,
    }
}

// The diagnosis of a kept item's words.
fn wrong_kept<A: Allocator + Copy>(
    alloc: A,
    model: &Model<A>,
    words: &[&[u8]],
) -> Result<Option<Diagnostic>, AllocError>
    ensures { IfOk result (λ found. found ≡ wrong_kept model.now (map (λ word. word.now) words.now)) }
{
    let Some(at) = sign_place(words) else {
        return wrong_event(alloc, model, 0, words);
    };
    let event = wrong_event(alloc, model, 0, &words[..at])?;
    let ret = wrong_return(alloc, model, at + 1, &words[at + 1..])?;
    Ok(lower_of(event, ret))
}

// The diagnosis of a seat, the first word of its line.
fn wrong_seat<A: Allocator + Copy>(
    alloc: A,
    model: &Model<A>,
    seats: u8,
    word: &[u8],
) -> Result<Option<Diagnostic>, AllocError>
    ensures { IfOk result (λ found. found ≡ wrong_seat model.now seats word.now) }
{
    let part = LinePart::Seat(seats);
    wrong_in(alloc, model, &[part], Expected::Part(part), 0, &[word])
}

/// The diagnosis of the words after a seat, or after another word that an event must follow.
pub(crate) fn wrong_after_seat<A: Allocator + Copy>(
    alloc: A,
    model: &Model<A>,
    words: &[&[u8]],
) -> Result<Option<Diagnostic>, AllocError>
    ensures { IfOk result (λ found. found ≡ wrong_after_seat model.now (map (λ word. word.now) words.now)) }
{
    if words.is_empty() {
        return Ok(Some(Diagnostic {
            fault: LineFault::Arity,
            place: WordPlace::Missing(1),
            expected: Expected::Part(LinePart::Event),
        }));
    }
    wrong_event(alloc, model, 1, words)
}

// The diagnosis of a seated event's words.
fn wrong_seated<A: Allocator + Copy>(
    alloc: A,
    model: &Model<A>,
    seats: u8,
    words: &[&[u8]],
) -> Result<Option<Diagnostic>, AllocError>
    ensures { IfOk result (λ found. found ≡ wrong_seated model.now seats (map (λ word. word.now) words.now)) }
{
    let [seat, words @ ..] = words else {
        return Ok(Some(Diagnostic {
            fault: LineFault::Empty,
            place: WordPlace::Missing(0),
            expected: Expected::Part(LinePart::Seat(seats)),
        }));
    };
    let seat = wrong_seat(alloc, model, seats, seat)?;
    let event = wrong_after_seat(alloc, model, words)?;
    Ok(lower_of(seat, event))
}

// The part after a kind of break.
fn break_parts(kind: BreakKind) -> &'static [LinePart]
    ensures { result.now ≡ break_parts kind }
{
    match kind {
        BreakKind::Kind => &[LinePart::Event],
        BreakKind::Txn => &[LinePart::Transaction],
        BreakKind::Object => &[LinePart::Object],
        BreakKind::Owed => &[LinePart::Count],
        BreakKind::Ended => &[LinePart::Transaction],
    }
}

// The diagnosis of the words after `break`.
fn wrong_break<A: Allocator + Copy>(
    alloc: A,
    model: &Model<A>,
    words: &[&[u8]],
) -> Result<Option<Diagnostic>, AllocError>
    ensures { IfOk result (λ found. found ≡ wrong_break model.now (map (λ word. word.now) words.now)) }
{
    let [word, words @ ..] = words else {
        return Ok(Some(Diagnostic {
            fault: LineFault::Arity,
            place: WordPlace::Missing(1),
            expected: Expected::Part(LinePart::Break),
        }));
    };
    match parse_break_kind(word) {
        Ok(kind) => wrong_in(
            alloc,
            model,
            break_parts(kind),
            Expected::BreakForm(kind),
            2,
            words,
        ),
        Err(fault) => Ok(Some(Diagnostic {
            fault,
            place: WordPlace::Wrong(1),
            expected: Expected::Part(LinePart::Break),
        })),
    }
}

// The parts after the first word, for this kind of command. Breaks are handled separately.
fn command_parts(kind: CommandKind) -> &'static [LinePart]
    ensures { result.now ≡ command_parts kind }
{
    match kind {
        CommandKind::Goto => &[LinePart::Count],
        CommandKind::Value => &[LinePart::Object],
        CommandKind::Status => &[LinePart::Transaction],
        _ => &[],
    }
}

// Whether the kind of command adds a break.
fn is_break(kind: CommandKind) -> bool
    ensures { result ≡ is_break kind }
{
    matches!(kind, CommandKind::Break)
}

// The diagnosis of the words after the first, for this kind of command.
fn wrong_argument<A: Allocator + Copy>(
    alloc: A,
    model: &Model<A>,
    kind: CommandKind,
    words: &[&[u8]],
) -> Result<Option<Diagnostic>, AllocError>
    ensures { IfOk result (λ found. found ≡ wrong_argument model.now kind (map (λ word. word.now) words.now)) }
{
    if is_break(kind) {
        return wrong_break(alloc, model, words);
    }
    let parts = command_parts(kind);
    wrong_in(alloc, model, parts, Expected::CommandForm(kind), 1, words)
}

// The diagnosis of a command's words.
fn wrong_command<A: Allocator + Copy>(
    alloc: A,
    model: &Model<A>,
    words: &[&[u8]],
) -> Result<Option<Diagnostic>, AllocError>
    ensures { IfOk result (λ found. found ≡ wrong_command model.now (map (λ word. word.now) words.now)) }
{
    let [word, words @ ..] = words else {
        return Ok(Some(Diagnostic {
            fault: LineFault::Empty,
            place: WordPlace::Missing(0),
            expected: Expected::Part(LinePart::Command),
        }));
    };
    match parse_command_kind(word) {
        Ok(kind) => wrong_argument(alloc, model, kind, words),
        Err(fault) => Ok(Some(Diagnostic {
            fault,
            place: WordPlace::Wrong(0),
            expected: Expected::Part(LinePart::Command),
        })),
    }
}

/// Diagnoses the line of an event. `None` if `read_event` can read the line. The fault is the one that `read_event`
/// returns, the lowest of the line. The place is the first word with this fault: for `Word`, `Number` and `Name` a word
/// that cannot be read as what is expected, for `Arity` the first word too many, or the place after the last word if
/// there are too few.
pub fn diagnose_event<A: Allocator + Copy>(
    alloc: A,
    model: &Model<A>,
    line: &[u8],
) -> Result<Option<Diagnostic>, AllocError>
    ensures found { IfOk result (λ found. found ≡ wrong_event model.now 0 (words_of line.now)) }
    ensures fault { IfOk result (λ found. option_map (λ d. d.fault) found ≡ result_err (event_of model.now line.now)) }
    ensures wrong { IfOk result (λ found. IfSome found (IsWrong model.now (words_of line.now))) }
{
    let words = words_of(alloc, line)?;
    wrong_event(alloc, model, 0, &words)
}

/// Diagnoses a kept line. `None` if `read_kept` can read the line. The fault is the one that `read_kept` returns, the
/// lower of the event's and the return's. If both have the same, the place is in the event.
pub fn diagnose_kept<A: Allocator + Copy>(
    alloc: A,
    model: &Model<A>,
    line: &[u8],
) -> Result<Option<Diagnostic>, AllocError>
    ensures found { IfOk result (λ found. found ≡ wrong_kept model.now (words_of line.now)) }
    ensures fault { IfOk result (λ found. option_map (λ d. d.fault) found ≡ result_err (kept_of model.now line.now)) }
    ensures wrong { IfOk result (λ found. IfSome found (IsWrong model.now (words_of line.now))) }
{
    let words = words_of(alloc, line)?;
    wrong_kept(alloc, model, &words)
}

/// Diagnoses a seated line, given the number of seats. `None` if `read_seated` can read the line. The fault is the one
/// that `read_seated` returns, the lower of the seat's and the event's. If both have the same, the place is the seat. A
/// line with only a seat lacks a word.
pub fn diagnose_seated<A: Allocator + Copy>(
    alloc: A,
    model: &Model<A>,
    seats: u8,
    line: &[u8],
) -> Result<Option<Diagnostic>, AllocError>
    ensures found { IfOk result (λ found. found ≡ wrong_seated model.now seats (words_of line.now)) }
    ensures fault { IfOk result (λ found. option_map (λ d. d.fault) found ≡ result_err (seated_of model.now seats line.now)) }
    ensures wrong { IfOk result (λ found. IfSome found (IsWrong model.now (words_of line.now))) }
{
    let words = words_of(alloc, line)?;
    wrong_seated(alloc, model, seats, &words)
}

/// Diagnoses the line of a debugger command. `None` if `read_command` can read the line. The fault is the one that
/// `read_command` returns, the lowest of the line, and the place is the first word that has it, as in `diagnose_event`.
pub fn diagnose_command<A: Allocator + Copy>(
    alloc: A,
    model: &Model<A>,
    line: &[u8],
) -> Result<Option<Diagnostic>, AllocError>
    ensures found { IfOk result (λ found. found ≡ wrong_command model.now (words_of line.now)) }
    ensures fault { IfOk result (λ found. option_map (λ d. d.fault) found ≡ result_err (command_of model.now line.now)) }
    ensures wrong { IfOk result (λ found. IfSome found (IsWrong model.now (words_of line.now))) }
{
    let words = words_of(alloc, line)?;
    wrong_command(alloc, model, &words)
}
