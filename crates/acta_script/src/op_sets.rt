//! Sets of operations in lines: a minus, or numbers joined by commas.

ghost use Rattle.std.specs.Prelude.{◌≡◌, ◌==◌, ◌++◌, ◌∷◌, map, decimal, Ok, IfOk, IfErr, OnOk};
ghost use Rattle.std.specs.List.{slice_split};
ghost use Rattle.acta_script.specs.Reading.{IsWhy, parse_numbers, parse_operations};
ghost use Rattle.acta_script.specs.Writing.{operations_word};

use crate::fault::{LineError, LineFault};
use acta_table::{OpNo, OpSet};
use acta_words::{push_natural, push_word, read_u32};
use std::alloc::{AllocError, Allocator};

// The parts of the word between its commas.
fn parts_of<'a, A: Allocator + Copy>(
    alloc: A,
    word: &'a [u8],
) -> Result<Vec<&'a [u8], A>, AllocError>
    ensures { IfOk result (λ parts. map (λ part. part.now) parts.items ≡ slice_split (λ b. b == 44) word.now) }
{
    word.split(|byte| *byte == b',').collect(alloc)
}

// The numbers of 32 bits, in the order in which the word has them.
fn parse_numbers<A: Allocator + Copy>(alloc: A, word: &[u8]) -> Result<Vec<OpNo, A>, LineError>
    ensures ok { IfOk result (λ ops. parse_numbers word.now ≡ Ok ops.items) }
    ensures fault { IfErr result (IsWhy (parse_numbers word.now)) }
{
    let parts = parts_of(alloc, word)?;
    let mut ops = Vec::with_capacity(alloc, parts.len())?;
    for part in &parts {
        let number = read_u32(part).ok_or(LineFault::Number)?;
        ops.push(OpNo(number))?;
    }
    Ok(ops)
}

/// The set of operations that the word names.
pub(crate) fn parse_operations<A: Allocator + Copy>(
    alloc: A,
    word: &[u8],
) -> Result<OpSet<A>, LineError>
    ensures ok { IfOk result (λ ops. parse_operations word.now ≡ Ok ops) }
    ensures fault { IfErr result (IsWhy (parse_operations word.now)) }
{
    if word == b"-".as_slice() {
        return Ok(OpSet::of(alloc, &[])?);
    }
    let numbers = parse_numbers(alloc, word)?;
    Ok(OpSet::of(alloc, &numbers)?)
}

// Writes a comma and the number.
fn push_joined<A: Allocator>(line: &mut Vec<u8, A>, op: OpNo) -> Result<(), AllocError>
    ensures { OnOk result (line.new.items ≡ line.old.items ++ 44 ∷ decimal op.0) }
{
    let at = line.len();
    push_natural(line, u64::from(op.0))?;
    line[at] = b',';
    Ok(())
}

/// Writes a space and the word of the set, its numbers ascending.
pub(crate) fn push_operations<A: Allocator>(
    line: &mut Vec<u8, A>,
    ops: &OpSet<A>,
) -> Result<(), AllocError>
    ensures { OnOk result (line.new.items ≡ line.old.items ++ 32 ∷ operations_word ops.now) }
{
    let [first, others @ ..] = ops.as_slice() else {
        return push_word(line, b"-");
    };
    push_natural(line, u64::from(first.0))?;
    for op in others {
        push_joined(line, *op)?;
    }
    Ok(())
}
