//! Lines of a session: an event, a question whether an event would be admitted, or a command. The reader also diagnoses
//! other lines, so that each line is read only once.

ghost use Rattle.std.specs.Prelude.{◌≡◌, map, Ok, Err, IfOk, IfErr};
ghost use Rattle.acta_script.specs.Laws.{IsInModel};
ghost use Rattle.acta_script.specs.Shell.{IsShellInModel, IsWhyNot, parse_alone, at_word, parse_can_line, parse_command_line, parse_event_line, parse_maybe_count, parse_maybe_topic, parse_maybe_txn, parse_one_count, parse_one_object, parse_one_topic, parse_one_txn, one_word, shell_command_of, shell_line_of, parse_shell_line, parse_topic, wrong_by, wrong_number};

use crate::diagnosis::{Diagnostic, Expected, LinePart, WordPlace, wrong_after_seat, wrong_event};
use crate::fault::{LineError, LineFault};
use crate::names::parse_object;
use crate::numbers::{parse_count, parse_txn};
use crate::reading::{parse_event, parse_event_kind};
use crate::seated::event_after;
use crate::shell_words::{CAN_WORD, ShellKind};
use acta_table::{Event, EventKind, Model, ObjId, TxnId};
use acta_words::words_of;
use std::alloc::{AllocError, AllocFailed, Allocator};

/// A topic that a session can explain.
#[derive(Clone, Copy, PartialEq, Eq, Debug)]
pub enum Topic {
    /// The events of this kind.
    Event(EventKind),
    /// The question whether an event would be admitted.
    Can,
    /// The command.
    Command(ShellKind),
}

/// A command of a session.
#[derive(Clone, Copy, PartialEq, Eq, Debug)]
pub enum ShellCommand {
    /// Back by this many events.
    Undo(u32),
    /// Forward by this many events.
    Redo(u32),
    /// To the place after this many events.
    Goto(u32),
    /// The transactions, the values of the objects, and the debts.
    State,
    /// The status of the transaction.
    Status(TxnId),
    /// The value of the object.
    Value(ObjId),
    /// The operations that the transaction holds.
    Held(TxnId),
    /// The conflict set of the transaction: the operations in progress that others hold.
    Conflicts(TxnId),
    /// The edges, or those of the transaction.
    Edges(Option<TxnId>),
    /// The permits.
    Permits,
    /// The debts.
    Owed,
    /// The history as kept lines.
    History,
    /// The history as event lines.
    Events,
    /// A picture.
    Draw,
    /// Why the refused event with this number, from 1, or the last one, was refused.
    Why(Option<u32>),
    /// Which events would be admitted, or which of the transaction's.
    Next(Option<TxnId>),
    /// The possible outcomes of programs from here. The programs' lines follow.
    Explore,
    /// The commands, or help on one topic.
    Help(Option<Topic>),
    /// The end of the session.
    Quit,
}

/// A line of a session.
#[derive(Drop)]
pub enum ShellLine<A: Allocator> {
    /// An event.
    Event(Event<A>),
    /// The question whether the event would be admitted.
    Can(Event<A>),
    /// A command.
    Command(ShellCommand),
}

/// The error when a line of a session is read.
#[derive(Clone, Copy, PartialEq, Eq, Debug)]
pub enum ShellFault {
    /// Memory ran out, so the line may be right or wrong.
    Memory,
    /// The line is wrong.
    Wrong(Diagnostic),
}

impl From<Diagnostic> for ShellFault {
    ghost use Rattle.acta_script.specs.declared.shell_lines.ShellFault.TheVariants.{Wrong};

    ghost from_gives = { λ d e. e ≡ Wrong d };

    fn from(found: Diagnostic) -> ShellFault {
        ShellFault::Wrong(found)
    }
}

impl From<AllocError> for ShellFault {
    ghost use Rattle.acta_script.specs.declared.shell_lines.ShellFault.TheVariants.{Memory};

    ghost from_gives = { λ _ e. e ≡ Memory };

    fn from(_e: AllocError) -> ShellFault {
        ShellFault::Memory
    }
}

impl<T: Drop> From<AllocFailed<T>> for ShellFault {
    ghost use Rattle.acta_script.specs.declared.shell_lines.ShellFault.TheVariants.{Memory};

    ghost from_gives = { λ _ e. e ≡ Memory };

    fn from(_e: AllocFailed<T>) -> ShellFault {
        ShellFault::Memory
    }
}

// The result of reading word number n, or the diagnosis that it is wrong for this part.
fn at_word<X>(n: usize, part: LinePart, read: Result<X, LineFault>) -> Result<X, Diagnostic>
    ensures { result ≡ at_word n part read }
{
    match read {
        Ok(x) => Ok(x),
        Err(fault) => Err(Diagnostic {
            fault,
            place: WordPlace::Wrong(n),
            expected: Expected::Part(part),
        }),
    }
}

// The diagnosis for too few or too many words of this kind of command.
fn wrong_number(kind: ShellKind, place: WordPlace) -> Diagnostic
    ensures { result ≡ wrong_number kind place }
{
    Diagnostic {
        fault: LineFault::Arity,
        place,
        expected: Expected::ShellForm(kind),
    }
}

// The only word after the command.
fn one_word<'a>(kind: ShellKind, words: &[&'a [u8]]) -> Result<&'a [u8], Diagnostic>
    ensures ok { IfOk result (λ word. one_word kind (map (λ word. word.now) words.now) ≡ Ok word.now) }
    ensures wrong { IfErr result (λ d. one_word kind (map (λ word. word.now) words.now) ≡ Err d) }
{
    match words {
        [word] => Ok(*word),
        [] => Err(wrong_number(kind, WordPlace::Missing(1))),
        _ => Err(wrong_number(kind, WordPlace::Wrong(2))),
    }
}

// A command without arguments.
fn parse_alone(
    kind: ShellKind,
    command: ShellCommand,
    words: &[&[u8]],
) -> Result<ShellCommand, Diagnostic>
    ensures { result ≡ parse_alone kind command (map (λ word. word.now) words.now) }
{
    if words.is_empty() {
        Ok(command)
    } else {
        Err(wrong_number(kind, WordPlace::Wrong(1)))
    }
}

// The count after the command.
fn parse_one_count(kind: ShellKind, words: &[&[u8]]) -> Result<u32, Diagnostic>
    ensures { result ≡ parse_one_count kind (map (λ word. word.now) words.now) }
{
    let word = one_word(kind, words)?;
    at_word(1, LinePart::Count, parse_count(word))
}

// The count after the command, if there is one.
fn parse_maybe_count(kind: ShellKind, words: &[&[u8]]) -> Result<Option<u32>, Diagnostic>
    ensures { result ≡ parse_maybe_count kind (map (λ word. word.now) words.now) }
{
    if words.is_empty() {
        return Ok(None);
    }
    let n = parse_one_count(kind, words)?;
    Ok(Some(n))
}

// The transaction after the command.
fn parse_one_txn(kind: ShellKind, words: &[&[u8]]) -> Result<TxnId, Diagnostic>
    ensures { result ≡ parse_one_txn kind (map (λ word. word.now) words.now) }
{
    let word = one_word(kind, words)?;
    at_word(1, LinePart::Transaction, parse_txn(word))
}

// The transaction after the command, if there is one.
fn parse_maybe_txn(kind: ShellKind, words: &[&[u8]]) -> Result<Option<TxnId>, Diagnostic>
    ensures { result ≡ parse_maybe_txn kind (map (λ word. word.now) words.now) }
{
    if words.is_empty() {
        return Ok(None);
    }
    let t = parse_one_txn(kind, words)?;
    Ok(Some(t))
}

// The object after the command.
fn parse_one_object<A: Allocator>(
    model: &Model<A>,
    kind: ShellKind,
    words: &[&[u8]],
) -> Result<ObjId, Diagnostic>
    ensures { result ≡ parse_one_object model.now kind (map (λ word. word.now) words.now) }
{
    let word = one_word(kind, words)?;
    at_word(1, LinePart::Object, parse_object(model, word))
}

// The topic with this word.
fn parse_topic(word: &[u8]) -> Result<Topic, LineFault>
    ensures { result ≡ parse_topic word.now }
{
    if word == CAN_WORD.as_bytes() {
        return Ok(Topic::Can);
    }
    match ShellKind::of_word(word) {
        Some(kind) => Ok(Topic::Command(kind)),
        None => {
            let kind = parse_event_kind(word)?;
            Ok(Topic::Event(kind))
        }
    }
}

// The topic after the command.
fn parse_one_topic(kind: ShellKind, words: &[&[u8]]) -> Result<Topic, Diagnostic>
    ensures { result ≡ parse_one_topic kind (map (λ word. word.now) words.now) }
{
    let word = one_word(kind, words)?;
    at_word(1, LinePart::Event, parse_topic(word))
}

// The topic after the command, if there is one.
fn parse_maybe_topic(kind: ShellKind, words: &[&[u8]]) -> Result<Option<Topic>, Diagnostic>
    ensures { result ≡ parse_maybe_topic kind (map (λ word. word.now) words.now) }
{
    if words.is_empty() {
        return Ok(None);
    }
    let topic = parse_one_topic(kind, words)?;
    Ok(Some(topic))
}

// The command of this kind, from the words after the first.
fn shell_command_of<A: Allocator>(
    model: &Model<A>,
    kind: ShellKind,
    words: &[&[u8]],
) -> Result<ShellCommand, Diagnostic>
    ensures { result ≡ shell_command_of model.now kind (map (λ word. word.now) words.now) }
{
    Ok(match kind {
        ShellKind::Undo => ShellCommand::Undo(parse_maybe_count(kind, words)?.unwrap_or(1)),
        ShellKind::Redo => ShellCommand::Redo(parse_maybe_count(kind, words)?.unwrap_or(1)),
        ShellKind::Goto => ShellCommand::Goto(parse_one_count(kind, words)?),
        ShellKind::State => parse_alone(kind, ShellCommand::State, words)?,
        ShellKind::Status => ShellCommand::Status(parse_one_txn(kind, words)?),
        ShellKind::Value => ShellCommand::Value(parse_one_object(model, kind, words)?),
        ShellKind::Held => ShellCommand::Held(parse_one_txn(kind, words)?),
        ShellKind::Conflicts => ShellCommand::Conflicts(parse_one_txn(kind, words)?),
        ShellKind::Edges => ShellCommand::Edges(parse_maybe_txn(kind, words)?),
        ShellKind::Permits => parse_alone(kind, ShellCommand::Permits, words)?,
        ShellKind::Owed => parse_alone(kind, ShellCommand::Owed, words)?,
        ShellKind::History => parse_alone(kind, ShellCommand::History, words)?,
        ShellKind::Events => parse_alone(kind, ShellCommand::Events, words)?,
        ShellKind::Draw => parse_alone(kind, ShellCommand::Draw, words)?,
        ShellKind::Why => ShellCommand::Why(parse_maybe_count(kind, words)?),
        ShellKind::Next => ShellCommand::Next(parse_maybe_txn(kind, words)?),
        ShellKind::Explore => parse_alone(kind, ShellCommand::Explore, words)?,
        ShellKind::Help => ShellCommand::Help(parse_maybe_topic(kind, words)?),
        ShellKind::Quit => parse_alone(kind, ShellCommand::Quit, words)?,
    })
}

// The event of a line that does not begin with a word of a session.
fn parse_event_line<A: Allocator + Copy>(
    alloc: A,
    model: &Model<A>,
    words: &[&[u8]],
) -> Result<ShellLine<A>, ShellFault>
    ensures ok { IfOk result (λ parsed. parse_event_line model.now (map (λ word. word.now) words.now) ≡ Ok parsed) }
    ensures wrong { IfErr result (IsWhyNot (parse_event_line model.now (map (λ word. word.now) words.now))) }
    ensures in_model { IfOk result (IsShellInModel model.now) }
{
    match parse_event(alloc, model, words) {
        Ok(event) => Ok(ShellLine::Event(event)),
        Err(LineError::Memory) => Err(ShellFault::Memory),
        Err(LineError::Fault(fault)) => {
            let found = wrong_event(alloc, model, 0, words)?;
            Err(wrong_by(found, fault).into())
        }
    }
}

// The diagnosis, or if there is none the fault alone.
fn wrong_by(found: Option<Diagnostic>, fault: LineFault) -> Diagnostic
    ensures { result ≡ wrong_by found fault }
{
    found.unwrap_or(Diagnostic {
        fault,
        place: WordPlace::Missing(0),
        expected: Expected::Part(LinePart::Event),
    })
}

// The event after the word `can`.
fn parse_can_line<A: Allocator + Copy>(
    alloc: A,
    model: &Model<A>,
    words: &[&[u8]],
) -> Result<ShellLine<A>, ShellFault>
    ensures ok { IfOk result (λ parsed. parse_can_line model.now (map (λ word. word.now) words.now) ≡ Ok parsed) }
    ensures wrong { IfErr result (IsWhyNot (parse_can_line model.now (map (λ word. word.now) words.now))) }
    ensures in_model { IfOk result (IsShellInModel model.now) }
{
    match event_after(alloc, model, words) {
        Ok(event) => Ok(ShellLine::Can(event)),
        Err(LineError::Memory) => Err(ShellFault::Memory),
        Err(LineError::Fault(fault)) => {
            let found = wrong_after_seat(alloc, model, words)?;
            Err(wrong_by(found, fault).into())
        }
    }
}

// The line of these words.
#[tactic(auto, unfolding(crate::specs::Shell::parse_shell_line))]
fn parse_shell_line<A: Allocator + Copy>(
    alloc: A,
    model: &Model<A>,
    words: &[&[u8]],
) -> Result<ShellLine<A>, ShellFault>
    ensures ok { IfOk result (λ parsed. parse_shell_line model.now (map (λ word. word.now) words.now) ≡ Ok parsed) }
    ensures wrong { IfErr result (IsWhyNot (parse_shell_line model.now (map (λ word. word.now) words.now))) }
    ensures in_model { IfOk result (IsShellInModel model.now) }
{
    let [word, rest @ ..] = words else {
        return parse_event_line(alloc, model, words);
    };
    if *word == CAN_WORD.as_bytes() {
        return parse_can_line(alloc, model, rest);
    }
    match ShellKind::of_word(word) {
        Some(kind) => Ok(ShellLine::Command(shell_command_of(model, kind, rest)?)),
        None => parse_event_line(alloc, model, words),
    }
}

/// Parses a line of a session: an event; `can` and an event, which asks whether the event would be admitted; or a
/// command, with the form `ShellKind::form`. `Wrong` has the diagnosis of any other line: in an event the first word
/// with the line's lowest fault, as in `diagnose_event`. Returns `Memory` if memory runs out.
pub fn read_shell_line<A: Allocator + Copy>(
    alloc: A,
    model: &Model<A>,
    line: &[u8],
) -> Result<ShellLine<A>, ShellFault>
    ensures ok { IfOk result (λ parsed. shell_line_of model.now line.now ≡ Ok parsed) }
    ensures wrong { IfErr result (IsWhyNot (shell_line_of model.now line.now)) }
    ensures in_model { IfOk result (IsShellInModel model.now) }
{
    let words = words_of(alloc, line)?;
    parse_shell_line(alloc, model, &words)
}
