//! The words of an operation on an object.

ghost use Rattle.std.specs.Prelude.{◌≡◌, ◌++◌, ◌∷◌, map, OnOk};
ghost use Rattle.std.specs.Fmt.{signed_decimal};
ghost use Rattle.acta_words.specs.Text.{line_of};
ghost use Rattle.acta_script.specs.Reading.{alone, integer_alone, operation_of_kind, parse_operation};
ghost use Rattle.acta_script.specs.Words.{op_word};
ghost use Rattle.acta_script.specs.Writing.{operation_words};

use crate::fault::LineFault;
use crate::numbers::parse_integer;
use crate::op_kind::{OpKind, parse_op_kind};
use acta_table::Op;
use acta_words::{push_integer, push_word};
use std::alloc::{AllocError, Allocator};

/// The value, if no word is left.
pub(crate) fn alone<X: Copy>(x: X, words: &[&[u8]]) -> Result<X, LineFault>
    ensures { result ≡ alone x (map (λ word. word.now) words.now) }
{
    if words.is_empty() {
        Ok(x)
    } else {
        Err(LineFault::Arity)
    }
}

// The number that is the only remaining word.
fn integer_alone(words: &[&[u8]]) -> Result<i32, LineFault>
    ensures { result ≡ integer_alone (map (λ word. word.now) words.now) }
{
    match words {
        [word] => parse_integer(word),
        _ => Err(LineFault::Arity),
    }
}

// The operation of this kind, from the words after its own.
fn operation_of_kind(kind: OpKind, words: &[&[u8]]) -> Result<Op, LineFault>
    ensures { result ≡ operation_of_kind kind (map (λ word. word.now) words.now) }
{
    match kind {
        OpKind::Read => alone(Op::Read, words),
        OpKind::Write => Ok(Op::Write(integer_alone(words)?)),
        OpKind::Get => alone(Op::Get, words),
        OpKind::Add => Ok(Op::Add(integer_alone(words)?)),
        OpKind::Insert => Ok(Op::Insert(integer_alone(words)?)),
        OpKind::Remove => Ok(Op::Remove(integer_alone(words)?)),
        OpKind::Has => Ok(Op::Has(integer_alone(words)?)),
        OpKind::Size => alone(Op::Size, words),
    }
}

/// The operation with this word, followed by these words.
pub(crate) fn parse_operation(word: &[u8], words: &[&[u8]]) -> Result<Op, LineFault>
    ensures { result ≡ parse_operation word.now (map (λ word. word.now) words.now) }
{
    operation_of_kind(parse_op_kind(word)?, words)
}

// Writes the word of the operation and its number, a space before each.
fn push_with<A: Allocator>(
    line: &mut Vec<u8, A>,
    kind: OpKind,
    number: i32,
) -> Result<(), AllocError>
    ensures { OnOk result (line.new.items ≡ line.old.items ++ 32 ∷ op_word kind ++ 32 ∷ signed_decimal number) }
{
    push_word(line, kind.word().as_bytes())?;
    push_integer(line, i64::from(number))
}

/// Writes the words of the operation, a space before each.
pub(crate) fn push_operation<A: Allocator>(line: &mut Vec<u8, A>, op: Op) -> Result<(), AllocError>
    ensures { OnOk result (line.new.items ≡ line.old.items ++ 32 ∷ line_of (operation_words op)) }
{
    match op {
        Op::Read => push_word(line, OpKind::Read.word().as_bytes()),
        Op::Write(value) => push_with(line, OpKind::Write, value),
        Op::Get => push_word(line, OpKind::Get.word().as_bytes()),
        Op::Add(number) => push_with(line, OpKind::Add, number),
        Op::Insert(element) => push_with(line, OpKind::Insert, element),
        Op::Remove(element) => push_with(line, OpKind::Remove, element),
        Op::Has(element) => push_with(line, OpKind::Has, element),
        Op::Size => push_word(line, OpKind::Size.word().as_bytes()),
    }
}
