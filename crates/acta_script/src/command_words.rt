//! The words of debugger commands and of kinds of break, and the forms of their lines.

ghost use Rattle.std.specs.Prelude.{◌≡◌};
ghost use Rattle.acta_script.specs.Commands.{parse_break_kind, parse_command_kind};
ghost use Rattle.acta_script.specs.Words.{break_form, break_word, command_form, command_word};

use crate::fault::LineFault;

/// A command to a debugger, without its argument.
#[derive(Clone, Copy, PartialEq, Eq, Debug)]
pub enum CommandKind {
    /// One event forward.
    Step,
    /// One event back.
    Back,
    /// To the place after this many events.
    Goto,
    /// On to the next place where a break holds, or to the end.
    Run,
    /// Adds a break.
    Break,
    /// Removes all breaks.
    Clear,
    /// The value of an object.
    Value,
    /// The status of a transaction.
    Status,
    /// The debts.
    Owed,
}

impl CommandKind {
    /// All kinds of command.
    pub const ALL: [CommandKind; 9] = [
        CommandKind::Step,
        CommandKind::Back,
        CommandKind::Goto,
        CommandKind::Run,
        CommandKind::Break,
        CommandKind::Clear,
        CommandKind::Value,
        CommandKind::Status,
        CommandKind::Owed,
    ];

    /// The first word of the command's line, such as `goto`.
    pub fn word(self) -> &'static str
        ensures { result.now ≡ command_word self }
    {
        match self {
            CommandKind::Step => "step",
            CommandKind::Back => "back",
            CommandKind::Goto => "goto",
            CommandKind::Run => "run",
            CommandKind::Break => "break",
            CommandKind::Clear => "clear",
            CommandKind::Value => "value",
            CommandKind::Status => "status",
            CommandKind::Owed => "owed",
        }
    }

    /// The form of the command's line, such as `goto N`. A word in capitals stands for an argument.
    pub fn form(self) -> &'static str
        ensures { result.now ≡ command_form self }
    {
        match self {
            CommandKind::Step => "step",
            CommandKind::Back => "back",
            CommandKind::Goto => "goto N",
            CommandKind::Run => "run",
            CommandKind::Break => "break BREAK",
            CommandKind::Clear => "clear",
            CommandKind::Value => "value OBJECT",
            CommandKind::Status => "status T",
            CommandKind::Owed => "owed",
        }
    }
}

/// The kind of command with this first word.
pub(crate) fn parse_command_kind(word: &[u8]) -> Result<CommandKind, LineFault>
    ensures { result ≡ parse_command_kind word.now }
{
    if word == CommandKind::Step.word().as_bytes() {
        Ok(CommandKind::Step)
    } else if word == CommandKind::Back.word().as_bytes() {
        Ok(CommandKind::Back)
    } else if word == CommandKind::Goto.word().as_bytes() {
        Ok(CommandKind::Goto)
    } else if word == CommandKind::Run.word().as_bytes() {
        Ok(CommandKind::Run)
    } else if word == CommandKind::Break.word().as_bytes() {
        Ok(CommandKind::Break)
    } else if word == CommandKind::Clear.word().as_bytes() {
        Ok(CommandKind::Clear)
    } else if word == CommandKind::Value.word().as_bytes() {
        Ok(CommandKind::Value)
    } else if word == CommandKind::Status.word().as_bytes() {
        Ok(CommandKind::Status)
    } else if word == CommandKind::Owed.word().as_bytes() {
        Ok(CommandKind::Owed)
    } else {
        Err(LineFault::Word)
    }
}

/// The kinds of break: where a run of the debugger stops, without the argument.
#[derive(Clone, Copy, PartialEq, Eq, Debug)]
pub enum BreakKind {
    /// At an event of a kind.
    Kind,
    /// At an event that names a transaction.
    Txn,
    /// At an operation on an object.
    Object,
    /// Where at least a number of events are owed.
    Owed,
    /// Where a transaction ends.
    Ended,
}

impl BreakKind {
    /// All kinds of break.
    pub const ALL: [BreakKind; 5] = [
        BreakKind::Kind,
        BreakKind::Txn,
        BreakKind::Object,
        BreakKind::Owed,
        BreakKind::Ended,
    ];

    /// The word of the kind of break, which follows `break`, such as `txn`.
    pub fn word(self) -> &'static str
        ensures { result.now ≡ break_word self }
    {
        match self {
            BreakKind::Kind => "kind",
            BreakKind::Txn => "txn",
            BreakKind::Object => "object",
            BreakKind::Owed => "owed",
            BreakKind::Ended => "ended",
        }
    }

    /// The form of the line that adds such a break, such as `break txn T`.
    pub fn form(self) -> &'static str
        ensures { result.now ≡ break_form self }
    {
        match self {
            BreakKind::Kind => "break kind EVENT",
            BreakKind::Txn => "break txn T",
            BreakKind::Object => "break object OBJECT",
            BreakKind::Owed => "break owed N",
            BreakKind::Ended => "break ended T",
        }
    }
}

/// The kind of break with this word.
pub(crate) fn parse_break_kind(word: &[u8]) -> Result<BreakKind, LineFault>
    ensures { result ≡ parse_break_kind word.now }
{
    if word == BreakKind::Kind.word().as_bytes() {
        Ok(BreakKind::Kind)
    } else if word == BreakKind::Txn.word().as_bytes() {
        Ok(BreakKind::Txn)
    } else if word == BreakKind::Object.word().as_bytes() {
        Ok(BreakKind::Object)
    } else if word == BreakKind::Owed.word().as_bytes() {
        Ok(BreakKind::Owed)
    } else if word == BreakKind::Ended.word().as_bytes() {
        Ok(BreakKind::Ended)
    } else {
        Err(LineFault::Word)
    }
}
