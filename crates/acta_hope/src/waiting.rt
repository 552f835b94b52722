//! Transactions that wait for each other to end, for ever.

ghost use Rattle.std.specs.Prelude.{IfOk, IfSome};
ghost use Rattle.acta_deps.specs.Waiting.{IsChain, IsClosed, StartsWith};
ghost use Rattle.acta_machine.specs.Table.{edges_in, status_in};
ghost use Rattle.acta_hope.specs.Waits.{NoneEnds};

use acta_machine::{Handle, Machine};
use acta_table::{Items, TxnId};
use std::alloc::AllocError;

/// A chain of transactions from `t` on, each waiting for the next to commit or abort, by a termination dependency in force.
/// The last transaction has occurred in the chain before. Whatever events come, none of them ever commits or aborts (they
/// may still join others). `None` if no such chain was found. Returns `Err` if memory runs out.
pub fn endless_wait<A: Handle>(
    machine: &Machine<A>,
    t: TxnId,
) -> Result<Option<Items<TxnId, A>>, AllocError>
    ensures chain { IfOk result (λ found. IfSome found (IsChain (status_in machine.now) (edges_in machine.now))) }
    ensures closed { IfOk result (λ found. IfSome found IsClosed) }
    ensures start { IfOk result (λ found. IfSome found (StartsWith t)) }
    ensures endless { IfOk result (λ found. IfSome found (NoneEnds machine.now)) }
{
    match machine.waits_for_cycle(t)? {
        Some(chain) => Ok(Some(chain)),
        None => Ok(None),
    }
}
