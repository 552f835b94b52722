ghost use Rattle.std.specs.Prelude.{◌≡◌, ◌<◌, ◌≤◌, ◌+◌, ◌++◌, length, option_to_list, OnOk, OnErr};
ghost use Rattle.acta_sets.specs.Permits.{permitted};
ghost use Rattle.acta_axioms.specs.inside.Walking.{permits_left, permits_after, AreRemembered};
ghost use Rattle.acta_table.specs.Edges.{formed};
ghost use Rattle.acta_axioms.specs.inside.Holding.{brought_from, op_done};

use crate::forming::{Formed, form_all};
use crate::txn_record::{TxnRecord, record_of};
use acta_sets::{Handle, Permits};
use acta_table::{Edge, Event, Fate, MOST_EVENTS, TxnId};
use acta_values::Store;
use std::alloc::AllocError;

// Applies the event to the operations, and appends its own operation if it does one, given the heir of the transaction
// that commits by it. On `Err` they are unchanged.
fn follow<A: Handle>(
    heir: Option<TxnId>,
    event: &Event<A>,
    store: &mut Store<A>,
) -> Result<(), AllocError>
    requires { length store.old.items < MOST_EVENTS }
    ensures ok { OnOk result (store.new ≡ record store.old { items = brought_from heir event.now 1 store.old.items ++ option_to_list (op_done event.now) }) }
    ensures err { OnErr result (store.new ≡ store.old) }
{
    match event {
        Event::Split(s, u, _, ops) => store.transfer(*s, ops, *u),
        Event::Join(s, u) => store.transfer_all(*s, *u),
        Event::Delegate(s, u, ops) => store.transfer(*s, ops, *u),
        Event::Commit(s) => match heir {
            Some(u) => store.transfer_all(*s, u),
            None => {
                store.end_all(*s, Fate::Committed);
                Ok(())
            }
        },
        Event::Abort(s) => {
            store.end_all(*s, Fate::Aborted);
            Ok(())
        }
        Event::Operate(t, object, op) => store.add(*t, *object, *op),
        _ => Ok(()),
    }
}

/// Remembers the parent of the transaction that the event starts, which the table has.
pub(crate) fn remember<A: Handle>(store: &mut Store<A>, lines: &[TxnRecord], event: &Event<A>)
    ensures others { store.new ≡ record store.old { lineage = store.new.lineage } }
    ensures remembered { AreRemembered store.old.lineage store.new.lineage lines.now event.now }
    ensures most { store.new.lineage.most ≤ store.old.lineage.most + 1 }
{
    if let Some(t) = event.started() {
        store.enter(t, record_of(lines, t).parent);
    }
}

// Drops the permits of the transaction that the event ends.
fn drop_ended<A: Handle>(event: &Event<A>, permits: &mut Permits<A>)
    ensures { permitted permits.new ≡ permits_left event.now (permitted permits.old) }
{
    match event {
        Event::Join(t, _) | Event::Commit(t) | Event::Abort(t) => permits.ended(*t),
        _ => {}
    }
}

// Applies the event to operations and permits. On `Err` both are unchanged.
fn follow_all<A: Handle>(
    before: Before,
    event: &Event<A>,
    store: &mut Store<A>,
    permits: &mut Permits<A>,
) -> Result<(), AllocError>
    requires { length store.old.items < MOST_EVENTS }
    ensures brought { OnOk result (store.new ≡ record store.old { items = brought_from before.heir event.now 1 store.old.items ++ option_to_list (op_done event.now) }) }
    ensures permitted { OnOk result (permitted permits.new ≡ permits_after before.is_late event.now (permitted permits.old)) }
    ensures store_err { OnErr result (store.new ≡ store.old) }
    ensures permits_err { OnErr result (permitted permits.new ≡ permitted permits.old) }
{
    if let Event::Permit(t, u, ob) = event {
        return if before.is_late {
            Ok(())
        } else {
            permits.give(*t, *u, *ob)
        };
    }
    follow(before.heir, event, store)?;
    drop_ended(event, permits);
    Ok(())
}

/// The context needed to apply an event: the heir of the transaction that commits by it, and whether it is a permit by
/// or for a transaction that has ended.
#[derive(Clone, Copy)]
pub struct Before {
    pub heir: Option<TxnId>,
    pub is_late: bool,
}

/// Applies the event to operations and permits, as `follow` does, and appends the edges due, each once. On `Err` all
/// are unchanged.
pub(crate) fn go_on<A: Handle>(
    before: Before,
    event: &Event<A>,
    due: &[Edge],
    edges: &mut Formed<A>,
    store: &mut Store<A>,
    permits: &mut Permits<A>,
) -> Result<(), AllocError>
    requires { length store.old.items < MOST_EVENTS }
    ensures formed { OnOk result (edges.new.keys ≡ formed edges.old.keys due.now) }
    ensures brought { OnOk result (store.new ≡ record store.old { items = brought_from before.heir event.now 1 store.old.items ++ option_to_list (op_done event.now) }) }
    ensures permitted { OnOk result (permitted permits.new ≡ permits_after before.is_late event.now (permitted permits.old)) }
    ensures edges_err { OnErr result (edges.new.keys ≡ edges.old.keys) }
    ensures store_err { OnErr result (store.new ≡ store.old) }
    ensures permits_err { OnErr result (permitted permits.new ≡ permitted permits.old) }
{
    let count = edges.len();
    form_all(edges, due)?;
    match follow_all(before, event, store, permits) {
        Ok(()) => Ok(()),
        Err(error) => {
            edges.truncate(count);
            Err(error)
        }
    }
}
