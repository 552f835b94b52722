ghost use Rattle.std.specs.Prelude.{◌≡◌, if◌then◌else◌};
ghost use Rattle.acta_axioms.specs.inside.Holding.{in_hand, ended_so, held_after, brought, op_done};

use acta_sets::HeldOp;
use acta_table::{Event, Fate, TxnId};
use std::alloc::Allocator;

// The operation, held by u if `goes`.
fn transferred(item: HeldOp, goes: bool, u: TxnId) -> HeldOp
    ensures { result ≡ (if goes then in_hand u item else item) }
{
    if goes {
        HeldOp { holder: u, ..item }
    } else {
        item
    }
}

// The operation, with the fate if `ends`.
fn ended(item: HeldOp, ends: bool, fate: Fate) -> HeldOp
    ensures { result ≡ (if ends then ended_so fate item else item) }
{
    if ends { HeldOp { fate, ..item } } else { item }
}

// The operation with this number, in progress, after the event, given the heir of the transaction that commits by it.
fn held_after<A: Allocator>(
    heir: Option<TxnId>,
    event: &Event<A>,
    number: usize,
    item: HeldOp,
) -> HeldOp
    ensures { result ≡ held_after heir event.now number item }
{
    let holder = item.holder.0;
    match event {
        Event::Split(s, u, _, ops) => transferred(
            item,
            s.0 == holder && ops.has_number(number),
            *u,
        ),
        Event::Join(s, u) => transferred(item, s.0 == holder, *u),
        Event::Delegate(s, u, ops) => transferred(
            item,
            s.0 == holder && ops.has_number(number),
            *u,
        ),
        Event::Commit(s) => match heir {
            Some(u) => transferred(item, s.0 == holder, u),
            None => ended(item, s.0 == holder, Fate::Committed),
        },
        Event::Abort(s) => ended(item, s.0 == holder, Fate::Aborted),
        _ => item,
    }
}

/// The operation with this number after the event, given the heir of the transaction that commits by it.
pub fn brought<A: Allocator>(
    heir: Option<TxnId>,
    event: &Event<A>,
    number: usize,
    item: HeldOp,
) -> HeldOp
    ensures { result ≡ brought heir event.now number item }
{
    if matches!(item.fate, Fate::InProgress) {
        held_after(heir, event, number, item)
    } else {
        item
    }
}

/// The operation that the event does, held by its invoker.
pub fn op_done<A: Allocator>(event: &Event<A>) -> Option<HeldOp>
    ensures { result ≡ op_done event.now }
{
    match event {
        Event::Operate(t, ob, op) => Some(HeldOp {
            ob: *ob,
            op: *op,
            holder: *t,
            fate: Fate::InProgress,
        }),
        _ => None,
    }
}
