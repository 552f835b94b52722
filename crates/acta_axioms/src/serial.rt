ghost use Rattle.std.specs.Prelude.{◌≡◌, ◌<◌, ◌≤◌, ℕ, true, Some, [], length, map, get_or, flat_map, option_map, All, IfOk};
ghost use Rattle.acta_axioms.specs.Faults.{faults_in_places};
ghost use Rattle.acta_axioms.specs.Serial.{commit_order, committed_by, is_strict, serial_order, replayed};
ghost use Rattle.acta_axioms.specs.SerialItems.{serial_items, items_of};

use crate::groups::Groups;
use acta_table::{Event, Items, Kept, MOST_EVENTS, Model, ObjId, Op, OpNo, Ret, TxnId};
use std::alloc::{AllocError, Allocator};

/// An operation of a serial order: its number, last holder, object, operation and return.
#[derive(Clone, Copy, PartialEq, Eq, Debug)]
pub struct SerialItem {
    pub number: OpNo,
    pub txn: TxnId,
    pub ob: ObjId,
    pub op: Op,
    pub ret: Ret,
}

// The operations of the history, grouped by invoker.
fn grouped<A: Allocator + Copy>(
    alloc: A,
    kept: &[Kept<A>],
) -> Result<Groups<SerialItem, A>, AllocError>
    requires { length kept.now ≤ MOST_EVENTS }
    ensures { IfOk result (λ groups. (t : ℕ) → get_or groups t [] ≡ items_of kept.now t) }
{
    let mut groups = Groups::new(alloc);
    let mut number = 1u32;
    for k in kept {
        if let Event::Operate(t, ob, op) = &k.event {
            if let Some(ret) = k.ret {
                groups.put(
                    *t,
                    SerialItem {
                        number: OpNo(number),
                        txn: *t,
                        ob: *ob,
                        op: *op,
                        ret,
                    },
                )?;
            }
            number += 1;
        }
    }
    Ok(groups)
}

// The transaction that the event commits.
fn committed_by<A: Allocator>(event: &Event<A>) -> Option<TxnId>
    ensures { option_map (λ t. t.0) result ≡ committed_by event.now }
{
    match event {
        Event::Commit(t) => Some(*t),
        _ => None,
    }
}

// The groups of the transactions that commit, in the order of their commits.
fn in_commit_order<A: Allocator + Copy>(
    alloc: A,
    kept: &[Kept<A>],
    groups: &Groups<SerialItem, A>,
) -> Result<Vec<SerialItem, A>, AllocError>
    ensures { IfOk result (λ items. items.items ≡ flat_map (λ t. get_or groups.now t []) (commit_order kept.now)) }
{
    let mut items = Vec::new(alloc);
    for k in kept {
        if let Some(t) = committed_by(&k.event) {
            items.extend_from_slice(groups.of(usize::from(t.0)))?;
        }
    }
    Ok(items)
}

/// Returns the serial order of a history of a strict model that breaks no axiom at a place: the committed operations,
/// grouped by holder, in the order of the commits, and within a group in the order of the history. Replayed in this
/// order from the initial values, each operation returns what it returned in the history.
pub fn serial_items<A: Allocator + Copy>(
    alloc: A,
    model: &Model<A>,
    kept: &[Kept<A>],
) -> Result<Items<SerialItem, A>, AllocError>
    requires strict { is_strict model.now ≡ true }
    requires faultless { faults_in_places model.now kept.now ≡ [] }
    requires within { length kept.now ≤ MOST_EVENTS }
    ensures items { IfOk result (λ items. items ≡ serial_items model.now kept.now) }
    ensures in_model { IfOk result (λ items. All (λ item. item.ob.0 < length model.now.objects) items) }
    ensures replayed { IfOk result (λ items. replayed model.now (serial_order model.now kept.now) ≡ map (λ item. Some item.ret) items) }
{
    let groups = grouped(alloc, kept)?;
    Ok(Items::of(in_commit_order(alloc, kept, &groups)?))
}
