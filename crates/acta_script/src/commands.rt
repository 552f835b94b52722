//! Parses debugger commands. Unknown words are reported first, then a wrong number of words, then numbers, then names,
//! so that the lowest fault is reported. What a command does is defined elsewhere.

ghost use Rattle.std.specs.Prelude.{◌≡◌, map, Ok, Err, IfOk, IfErr};
ghost use Rattle.acta_script.specs.Commands.{parse_break_command, break_of_kind, parse_break, command_of, command_of_kind, parse_command, parse_ended_break, parse_goto, parse_kind_break, parse_object_break, one_word, parse_owed_break, parse_status, parse_txn_break, parse_value};
ghost use Rattle.acta_script.specs.Reading.{IsWhy};

use crate::command_words::{BreakKind, CommandKind, parse_break_kind, parse_command_kind};
use crate::fault::{LineError, LineFault};
use crate::names::parse_object;
use crate::numbers::{parse_count, parse_txn};
use crate::operations::alone;
use crate::reading::parse_event_kind;
use acta_table::{EventKind, Model, ObjId, TxnId};
use acta_words::words_of;
use std::alloc::Allocator;

/// A break: where a run of the debugger stops.
#[derive(Clone, Copy, PartialEq, Eq, Debug)]
pub enum BreakOn {
    /// At an event of this kind.
    Kind(EventKind),
    /// At an event that names the transaction.
    Txn(TxnId),
    /// At an operation on the object.
    Object(ObjId),
    /// Where at least this many events are owed.
    Owed(u32),
    /// Where the transaction ends.
    Ended(TxnId),
}

/// A command to a debugger.
#[derive(Clone, Copy, PartialEq, Eq, Debug)]
pub enum DebugCommand {
    /// One event forward.
    Step,
    /// One event back.
    Back,
    /// To the place after this many events.
    Goto(u32),
    /// On to the next place where a break holds, or to the end.
    Run,
    /// Adds a break.
    Break(BreakOn),
    /// Removes all breaks.
    Clear,
    /// Asks for the value of the object.
    Value(ObjId),
    /// Asks for the status of the transaction.
    Status(TxnId),
    /// Asks for the debts.
    Owed,
}

// The only remaining word.
fn one_word<'a>(words: &[&'a [u8]]) -> Result<&'a [u8], LineFault>
    ensures ok { IfOk result (λ word. one_word (map (λ word. word.now) words.now) ≡ Ok word.now) }
    ensures fault { IfErr result (λ fault. one_word (map (λ word. word.now) words.now) ≡ Err fault) }
{
    match words {
        [word] => Ok(*word),
        _ => Err(LineFault::Arity),
    }
}

// kind EVENT
fn parse_kind_break(words: &[&[u8]]) -> Result<BreakOn, LineFault>
    ensures { result ≡ parse_kind_break (map (λ word. word.now) words.now) }
{
    let [word, words @ ..] = words else {
        return Err(LineFault::Arity);
    };
    let kind = parse_event_kind(word)?;
    alone(BreakOn::Kind(kind), words)
}

// txn T
fn parse_txn_break(words: &[&[u8]]) -> Result<BreakOn, LineFault>
    ensures { result ≡ parse_txn_break (map (λ word. word.now) words.now) }
{
    let word = one_word(words)?;
    let t = parse_txn(word)?;
    Ok(BreakOn::Txn(t))
}

// object OBJECT
fn parse_object_break<A: Allocator>(model: &Model<A>, words: &[&[u8]]) -> Result<BreakOn, LineFault>
    ensures { result ≡ parse_object_break model.now (map (λ word. word.now) words.now) }
{
    let word = one_word(words)?;
    let object = parse_object(model, word)?;
    Ok(BreakOn::Object(object))
}

// owed N
fn parse_owed_break(words: &[&[u8]]) -> Result<BreakOn, LineFault>
    ensures { result ≡ parse_owed_break (map (λ word. word.now) words.now) }
{
    let word = one_word(words)?;
    let n = parse_count(word)?;
    Ok(BreakOn::Owed(n))
}

// ended T
fn parse_ended_break(words: &[&[u8]]) -> Result<BreakOn, LineFault>
    ensures { result ≡ parse_ended_break (map (λ word. word.now) words.now) }
{
    let word = one_word(words)?;
    let t = parse_txn(word)?;
    Ok(BreakOn::Ended(t))
}

// The break of this kind, from the words after the kind's word.
fn break_of_kind<A: Allocator>(
    model: &Model<A>,
    kind: BreakKind,
    words: &[&[u8]],
) -> Result<BreakOn, LineFault>
    ensures { result ≡ break_of_kind model.now kind (map (λ word. word.now) words.now) }
{
    match kind {
        BreakKind::Kind => parse_kind_break(words),
        BreakKind::Txn => parse_txn_break(words),
        BreakKind::Object => parse_object_break(model, words),
        BreakKind::Owed => parse_owed_break(words),
        BreakKind::Ended => parse_ended_break(words),
    }
}

// The break, from the words after `break`.
#[tactic(auto, unfolding(crate::specs::Commands::parse_break))]
fn parse_break<A: Allocator>(model: &Model<A>, words: &[&[u8]]) -> Result<BreakOn, LineFault>
    ensures { result ≡ parse_break model.now (map (λ word. word.now) words.now) }
{
    let [word, words @ ..] = words else {
        return Err(LineFault::Arity);
    };
    let kind = parse_break_kind(word)?;
    break_of_kind(model, kind, words)
}

// goto N
fn parse_goto(words: &[&[u8]]) -> Result<DebugCommand, LineFault>
    ensures { result ≡ parse_goto (map (λ word. word.now) words.now) }
{
    let word = one_word(words)?;
    let n = parse_count(word)?;
    Ok(DebugCommand::Goto(n))
}

// value OBJECT
fn parse_value<A: Allocator>(model: &Model<A>, words: &[&[u8]]) -> Result<DebugCommand, LineFault>
    ensures { result ≡ parse_value model.now (map (λ word. word.now) words.now) }
{
    let word = one_word(words)?;
    let object = parse_object(model, word)?;
    Ok(DebugCommand::Value(object))
}

// status T
fn parse_status(words: &[&[u8]]) -> Result<DebugCommand, LineFault>
    ensures { result ≡ parse_status (map (λ word. word.now) words.now) }
{
    let word = one_word(words)?;
    let t = parse_txn(word)?;
    Ok(DebugCommand::Status(t))
}

// The command that adds a break.
fn parse_break_command<A: Allocator>(
    model: &Model<A>,
    words: &[&[u8]],
) -> Result<DebugCommand, LineFault>
    ensures { result ≡ parse_break_command model.now (map (λ word. word.now) words.now) }
{
    let on = parse_break(model, words)?;
    Ok(DebugCommand::Break(on))
}

// The command of this kind, from the words after the first.
fn command_of_kind<A: Allocator>(
    model: &Model<A>,
    kind: CommandKind,
    words: &[&[u8]],
) -> Result<DebugCommand, LineFault>
    ensures { result ≡ command_of_kind model.now kind (map (λ word. word.now) words.now) }
{
    match kind {
        CommandKind::Step => alone(DebugCommand::Step, words),
        CommandKind::Back => alone(DebugCommand::Back, words),
        CommandKind::Goto => parse_goto(words),
        CommandKind::Run => alone(DebugCommand::Run, words),
        CommandKind::Break => parse_break_command(model, words),
        CommandKind::Clear => alone(DebugCommand::Clear, words),
        CommandKind::Value => parse_value(model, words),
        CommandKind::Status => parse_status(words),
        CommandKind::Owed => alone(DebugCommand::Owed, words),
    }
}

// The command of these words.
#[tactic(auto, unfolding(crate::specs::Commands::parse_command))]
fn parse_command<A: Allocator>(model: &Model<A>, words: &[&[u8]]) -> Result<DebugCommand, LineFault>
    ensures { result ≡ parse_command model.now (map (λ word. word.now) words.now) }
{
    let [word, words @ ..] = words else {
        return Err(LineFault::Empty);
    };
    let kind = parse_command_kind(word)?;
    command_of_kind(model, kind, words)
}

/// Parses a debugger command: `step`, `back`, `goto N`, `run`, `clear`, `value OBJECT`, `status T`, `owed`, or `break`
/// followed by `kind EVENT`, `txn T`, `object OBJECT`, `owed N` or `ended T`. Returns the lowest fault of the line, or
/// `Memory` if memory runs out. Transactions have 16 bits, and N has 32.
pub fn read_command<A: Allocator + Copy>(
    alloc: A,
    model: &Model<A>,
    line: &[u8],
) -> Result<DebugCommand, LineError>
    ensures ok { IfOk result (λ command. command_of model.now line.now ≡ Ok command) }
    ensures fault { IfErr result (IsWhy (command_of model.now line.now)) }
{
    let words = words_of(alloc, line)?;
    Ok(parse_command(model, &words)?)
}
