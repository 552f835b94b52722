//! The number that a new transaction gets.

ghost use Rattle.std.specs.Prelude.{◌≡◌};
ghost use Rattle.acta_machine.specs.Table.{status_in};
ghost use Rattle.acta_next.specs.Candidates.{IsFirstUnused, has_begun};

use acta_machine::{Handle, Machine};
use acta_table::{LAST_TXN, Status, TxnId};

// Whether a transaction has begun with the number.
fn has_begun<A: Handle>(machine: &Machine<A>, t: TxnId) -> bool
    ensures { result ≡ has_begun (status_in machine.now t.0) }
{
    machine.status(t) != Status::NotBegun
}

/// The first number with which no transaction has begun, or the last number.
pub(crate) fn first_unused<A: Handle>(machine: &Machine<A>) -> TxnId
    ensures { IsFirstUnused machine.now result }
{
    let mut number = 1u16;
    while number < LAST_TXN && has_begun(machine, TxnId(number)) {
        number += 1;
    }
    TxnId(number)
}
