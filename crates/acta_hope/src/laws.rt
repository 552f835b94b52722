//! Later events undo nothing.

ghost use Rattle.std.specs.Prelude.{List};
ghost use Rattle.acta_machine.specs.Changes.{summary_of};
ghost use Rattle.acta_machine.specs.Table.{State, after_all};
ghost use Rattle.acta_table.specs.declared.event.Event.{Event};
ghost use Rattle.acta_hope.specs.Growth.{IsLater};

use std::alloc::Allocator;

/// A law for any machine and any later events. A transaction that has begun keeps its class and its parent, and one that has
/// ended keeps its status. The operations and edges so far remain, and more may follow them. An operation keeps its object
/// and its action, and its fate once it has ended. A debt remains until it is paid. The number of kept events does not fall.
pub fn later_events_take_nothing_back<A: Allocator>()
    ensures { (state : State A) → (es : List (Event A)) → IsLater (summary_of state.model state.kept) (summary_of (after_all state es).model (after_all state es).kept) }
{}
