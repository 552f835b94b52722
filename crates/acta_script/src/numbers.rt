//! Numbers in lines: transactions, operands of operations, and counts of commands.

ghost use Rattle.std.specs.Prelude.{◌≡◌, ◌++◌, ◌∷◌, OnOk};
ghost use Rattle.acta_script.specs.Commands.{parse_count};
ghost use Rattle.acta_script.specs.Reading.{parse_txn, parse_integer};
ghost use Rattle.acta_script.specs.Writing.{txn_word};

use crate::fault::LineFault;
use acta_table::TxnId;
use acta_words::{push_natural, read_i32, read_u16, read_u32};
use std::alloc::{AllocError, Allocator};

/// Parses a transaction, of 16 bits.
pub(crate) fn parse_txn(word: &[u8]) -> Result<TxnId, LineFault>
    ensures { result ≡ parse_txn word.now }
{
    let number = read_u16(word).ok_or(LineFault::Number)?;
    Ok(TxnId(number))
}

/// Parses an unsigned number of 32 bits.
pub(crate) fn parse_count(word: &[u8]) -> Result<u32, LineFault>
    ensures { result ≡ parse_count word.now }
{
    read_u32(word).ok_or(LineFault::Number)
}

/// Parses a signed number of 32 bits, with an optional minus.
pub(crate) fn parse_integer(word: &[u8]) -> Result<i32, LineFault>
    ensures { result ≡ parse_integer word.now }
{
    read_i32(word).ok_or(LineFault::Number)
}

/// Writes a space and the number of the transaction.
pub(crate) fn push_txn<A: Allocator>(line: &mut Vec<u8, A>, txn: TxnId) -> Result<(), AllocError>
    ensures { OnOk result (line.new.items ≡ line.old.items ++ 32 ∷ txn_word txn) }
{
    push_natural(line, u64::from(txn.0))
}
