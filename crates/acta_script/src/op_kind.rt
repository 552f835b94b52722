//! The kinds of operation: their words, and the forms of their lines.

ghost use Rattle.std.specs.Prelude.{◌≡◌};
ghost use Rattle.std.specs.Result.{result_ok};
ghost use Rattle.acta_script.specs.Reading.{parse_op_kind};
ghost use Rattle.acta_script.specs.Words.{op_word, op_form, takes_integer};

use crate::fault::LineFault;

/// An operation on an object, without its number.
#[derive(Clone, Copy, PartialEq, Eq, Debug)]
pub enum OpKind {
    Read,
    Write,
    Get,
    Add,
    Insert,
    Remove,
    Has,
    Size,
}

impl OpKind {
    /// All kinds of operation.
    pub const ALL: [OpKind; 8] = [
        OpKind::Read,
        OpKind::Write,
        OpKind::Get,
        OpKind::Add,
        OpKind::Insert,
        OpKind::Remove,
        OpKind::Has,
        OpKind::Size,
    ];

    /// The word of the operation, such as `read`.
    pub fn word(self) -> &'static str
        ensures { result.now ≡ op_word self }
    {
        match self {
            OpKind::Read => "read",
            OpKind::Write => "write",
            OpKind::Get => "get",
            OpKind::Add => "add",
            OpKind::Insert => "insert",
            OpKind::Remove => "remove",
            OpKind::Has => "has",
            OpKind::Size => "size",
        }
    }

    /// Whether a number follows the word of the operation.
    pub fn takes_integer(self) -> bool
        ensures { result ≡ takes_integer self }
    {
        !matches!(self, OpKind::Read | OpKind::Get | OpKind::Size)
    }

    /// The form of the line of an event that does the operation, such as `do T OBJECT write INT`.
    pub fn form(self) -> &'static str
        ensures { result.now ≡ op_form self }
    {
        match self {
            OpKind::Read => "do T OBJECT read",
            OpKind::Write => "do T OBJECT write INT",
            OpKind::Get => "do T OBJECT get",
            OpKind::Add => "do T OBJECT add INT",
            OpKind::Insert => "do T OBJECT insert INT",
            OpKind::Remove => "do T OBJECT remove INT",
            OpKind::Has => "do T OBJECT has INT",
            OpKind::Size => "do T OBJECT size",
        }
    }

    /// The kind of operation with this word, if there is one.
    pub fn of_word(word: &[u8]) -> Option<OpKind>
        ensures { result ≡ result_ok (parse_op_kind word.now) }
    {
        parse_op_kind(word).ok()
    }
}

/// The kind of operation with this word.
pub(crate) fn parse_op_kind(word: &[u8]) -> Result<OpKind, LineFault>
    ensures { result ≡ parse_op_kind word.now }
{
    if word == OpKind::Read.word().as_bytes() {
        Ok(OpKind::Read)
    } else if word == OpKind::Get.word().as_bytes() {
        Ok(OpKind::Get)
    } else if word == OpKind::Size.word().as_bytes() {
        Ok(OpKind::Size)
    } else if word == OpKind::Write.word().as_bytes() {
        Ok(OpKind::Write)
    } else if word == OpKind::Add.word().as_bytes() {
        Ok(OpKind::Add)
    } else if word == OpKind::Insert.word().as_bytes() {
        Ok(OpKind::Insert)
    } else if word == OpKind::Remove.word().as_bytes() {
        Ok(OpKind::Remove)
    } else if word == OpKind::Has.word().as_bytes() {
        Ok(OpKind::Has)
    } else {
        Err(LineFault::Word)
    }
}
