ghost use Rattle.std.specs.Prelude.{◌≡◌, ◌<◌, ◌^◌, take, option_map};
ghost use Rattle.acta_axioms.specs.Operations.{standing_of};
ghost use Rattle.acta_axioms.specs.inside.Walking.{standing_in};
ghost use Rattle.acta_axioms.specs.inside.Holding.{followed_on, next_number};

use crate::holding::{brought, op_done};
use crate::txn_record::heir_after;
use crate::walk::Walk;
use acta_sets::{Handle, HeldOp};
use acta_table::{Event, OpNo, TxnId};
use std::alloc::Allocator;

// Operation `op` after the event, given the number of the next operation and the heir of the transaction that commits
// by the event.
fn followed_on<A: Allocator>(
    heir: Option<TxnId>,
    event: &Event<A>,
    op: usize,
    number: usize,
    held: Option<HeldOp>,
) -> Option<HeldOp>
    ensures { result ≡ followed_on heir event.now op number held }
{
    match held {
        Some(item) => Some(brought(heir, event, op, item)),
        None => { if number == op { op_done(event) } else { None } }
    }
}

// The number of the next operation after the event, given the number before it.
fn next_number<A: Allocator>(event: &Event<A>, number: usize) -> usize
    requires { number < 2 ^ 32 }
    ensures { result ≡ next_number event.now number }
{
    match event {
        Event::Operate(_, _, _) => number + 1,
        _ => number,
    }
}

impl<'a, A: Handle> Walk<'a, A> {
    /// The operation after the first n items taken, if it is among them, found by following it along them.
    pub(crate) fn standing(&self, op: OpNo, n: u32) -> Option<HeldOp>
        ensures { option_map standing_in result ≡ standing_of self.now.model (take n self.now.front) op.0 }
    {
        let front = self.front();
        let end = (n as usize).min(front.len());
        let mut number = 1usize;
        let mut held = None;
        for i in 0..end {
            let event = &front[i].event;
            let heir = heir_after(self.model, self.lines.as_slice(), i as u32, event);
            held = followed_on(heir, event, op.0 as usize, number, held);
            number = next_number(event, number);
        }
        held
    }
}
