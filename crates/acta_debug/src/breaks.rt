//! Breaks, and when they hold.

ghost use Rattle.std.specs.Prelude.{◌≡◌, IfOk};
ghost use Rattle.acta_table.specs.Events.{kind_of};
ghost use Rattle.acta_table.specs.Numbered.{first_number};
ghost use Rattle.acta_debug.specs.Breaks.{ends, holds_of, is_on, is_same_kind, names};

use acta_machine::{Handle, Machine};
use acta_table::{Event, EventKind, ObjId, TxnId};
use std::alloc::{AllocError, Allocator};

/// A condition that stops a run. It is tested at each place that the run reaches, on the event there and the machine
/// after it.
#[derive(Clone, Copy, PartialEq, Eq, Debug)]
pub enum Break {
    /// The event is of this kind.
    Kind(EventKind),
    /// The event names the transaction in any part.
    Touches(TxnId),
    /// The event is an operation on the object.
    Object(ObjId),
    /// At least this many debts exist after the event.
    OwedAtLeast(u32),
    /// The transaction commits, aborts or joins another by the event.
    Ended(TxnId),
}

/// Where a run stopped.
#[derive(Clone, Copy, PartialEq, Eq, Debug)]
pub enum Stop {
    /// At a place, from 1, where the break with this number, from 1, is the lowest that holds.
    Broke { number: u64, place: u32 },
    /// At the end of the history.
    Finished,
}

// Whether the event is of the kind.
fn is_of_kind<A: Allocator>(event: &Event<A>, kind: EventKind) -> bool
    ensures { result ≡ is_same_kind (kind_of event.now) kind }
{
    event.kind() == kind
}

// Whether the event names the transaction.
fn touches<A: Allocator>(event: &Event<A>, t: TxnId) -> bool
    ensures { result ≡ names t.0 event.now }
{
    match event {
        Event::Begin(u, _) | Event::Operate(u, _, _) | Event::Commit(u) | Event::Abort(u) => *u
            == t,
        Event::Spawn(u, v, _)
        | Event::Split(u, v, _, _)
        | Event::Join(u, v)
        | Event::Delegate(u, v, _)
        | Event::Form(_, u, v)
        | Event::Permit(u, v, _) => *u == t || *v == t,
    }
}

// Whether the event is an operation on the object.
fn is_operation_on<A: Allocator>(event: &Event<A>, ob: ObjId) -> bool
    ensures { result ≡ is_on ob.0 event.now }
{
    match event {
        Event::Operate(_, on, _) => *on == ob,
        _ => false,
    }
}

// Whether the transaction commits, aborts or joins another by the event.
fn is_end_of<A: Allocator>(event: &Event<A>, t: TxnId) -> bool
    ensures { result ≡ ends t.0 event.now }
{
    match event {
        Event::Commit(u) | Event::Abort(u) | Event::Join(u, _) => *u == t,
        _ => false,
    }
}

impl Break {
    // Whether the break holds for an event and the machine after it.
    fn holds<A: Handle>(self, event: &Event<A>, machine: &Machine<A>) -> Result<bool, AllocError>
        ensures { IfOk result (λ holds. holds ≡ holds_of machine.now event.now self) }
    {
        Ok(match self {
            Break::Kind(kind) => is_of_kind(event, kind),
            Break::Touches(t) => touches(event, t),
            Break::Object(ob) => is_operation_on(event, ob),
            Break::OwedAtLeast(n) => machine.owed()?.len() >= n as usize,
            Break::Ended(t) => is_end_of(event, t),
        })
    }
}

/// The lowest number of a break that holds for an event and the machine after it.
pub fn lowest_that_holds<A: Handle>(
    breaks: &[Break],
    event: &Event<A>,
    machine: &Machine<A>,
) -> Result<Option<u64>, AllocError>
    ensures { IfOk result (λ number. number ≡ first_number (holds_of machine.now event.now) breaks.now) }
{
    for (i, one) in breaks.iter().enumerate() {
        if one.holds(event, machine)? {
            return Ok(Some(i as u64 + 1));
        }
    }
    Ok(None)
}
