//! Changes by the end of a transaction and by transfers, to the list of operations and to its counts and indexes.

ghost use Rattle.std.specs.Prelude.{◌≡◌, ◌≢◌, ◌<◌, ◌≤◌, ◌+◌, ◌*◌, false, length, min};
ghost use Rattle.std.specs.HashMap.{spare};
ghost use Rattle.acta_table.specs.Fates.{is_open};
ghost use Rattle.acta_sets.specs.declared.mode.ModeKey.{ModeKey as a_mode_key};
ghost use Rattle.acta_sets.specs.Operations.{ended_op, transferred_op};
ghost use Rattle.acta_sets.specs.inside.Held.{changed_at, changed_each};
ghost use Rattle.acta_sets.specs.inside.Listing.{in_map, in_table, numbers_in, FrontsHold};
ghost use Rattle.acta_sets.specs.inside.Filing.{AreFiled, AreFiledBut};

use crate::batch::Batch;
use crate::coarse_lists::CoarseLists;
use crate::counts::Counts;
use crate::held_op::HeldOp;
use crate::listing::ModeLists;
use crate::{batch, coarse_lists, counts, listing, mode};
use acta_table::{Fate, MOST_EVENTS, TxnId};
use std::alloc::Allocator;

// Gives the operation with this number this fate, if the transaction holds it in progress.
fn end_one<A: Allocator + Copy>(
    items: &mut Vec<HeldOp, A>,
    counts: &mut Counts<A>,
    number: u32,
    t: TxnId,
    fate: Fate,
)
    requires { is_open fate ≡ false }
    ensures items { items.new.items ≡ changed_at (ended_op t.0 fate) number items.old.items }
    ensures filed { AreFiled items.old.items counts.old → AreFiled items.new.items counts.new }
{
    let Some(place) = number.checked_sub(1) else {
        return;
    };
    let place = place as usize;
    if place < items.len() {
        let item = items[place];
        items[place] = counts::end(counts, item, t, fate);
    }
}

/// Gives the operations with these numbers this fate, if the transaction holds them in progress.
pub(crate) fn end_each<A: Allocator + Copy>(
    items: &mut Vec<HeldOp, A>,
    counts: &mut Counts<A>,
    numbers: &[u32],
    t: TxnId,
    fate: Fate,
)
    requires { is_open fate ≡ false }
    ensures items { items.new.items ≡ changed_each (ended_op t.0 fate) items.old.items numbers.now }
    ensures filed { AreFiled items.old.items counts.old → AreFiled items.new.items counts.new }
{
    for number in numbers {
        end_one(items, counts, *number, t, fate);
    }
}

// Advances the ended prefix of the mode lists that have this operation.
fn advance_one<A: Allocator + Copy>(
    coarse: &mut CoarseLists<A>,
    fine: &mut ModeLists<A>,
    items: &[HeldOp],
    number: u32,
)
    requires coarse { FrontsHold items.now (in_table coarse.old.items) }
    requires fine { FrontsHold items.now (in_map fine.old) }
    ensures coarse { (q : a_mode_key) → numbers_in (in_table coarse.new.items) q ≡ numbers_in (in_table coarse.old.items) q }
    ensures fine { (q : a_mode_key) → numbers_in (in_map fine.new) q ≡ numbers_in (in_map fine.old) q }
    ensures coarse_fronts { FrontsHold items.now (in_table coarse.new.items) }
    ensures fine_fronts { FrontsHold items.now (in_map fine.new) }
{
    let Some(place) = number.checked_sub(1) else {
        return;
    };
    let place = place as usize;
    if place < items.len() {
        let item = items[place];
        coarse_lists::advance_under(coarse, items, item.ob.0, mode::coarse(&item.op));
        listing::advance_under(fine, items, item.ob.0, mode::listed_fine(&item.op));
    }
}

/// Advances the ended prefix of the mode lists that have these operations.
pub(crate) fn advance_each<A: Allocator + Copy>(
    coarse: &mut CoarseLists<A>,
    fine: &mut ModeLists<A>,
    items: &[HeldOp],
    numbers: &[u32],
)
    requires coarse { FrontsHold items.now (in_table coarse.old.items) }
    requires fine { FrontsHold items.now (in_map fine.old) }
    ensures coarse { (q : a_mode_key) → numbers_in (in_table coarse.new.items) q ≡ numbers_in (in_table coarse.old.items) q }
    ensures fine { (q : a_mode_key) → numbers_in (in_map fine.new) q ≡ numbers_in (in_map fine.old) q }
    ensures coarse_fronts { FrontsHold items.now (in_table coarse.new.items) }
    ensures fine_fronts { FrontsHold items.now (in_map fine.new) }
{
    for number in numbers {
        advance_one(coarse, fine, items, *number);
    }
}

// Makes `u` the holder of the operation with this number, if the transaction holds it in progress. Its change of the
// counts joins the batch.
fn transfer_one<A: Allocator + Copy>(
    items: &mut Vec<HeldOp, A>,
    counts: &mut Counts<A>,
    batch: Batch,
    number: u32,
    t: TxnId,
    u: TxnId,
) -> Batch
    requires few { length items.old.items ≤ MOST_EVENTS }
    requires other { t.0 ≢ u.0 }
    requires short { batch.length < MOST_EVENTS }
    requires filed { AreFiledBut batch t.0 u.0 items.old.items counts.old }
    requires room { 2 * min batch.length 1 ≤ spare counts.old.others }
    ensures items { items.new.items ≡ changed_at (transferred_op t.0 u) number items.old.items }
    ensures filed { AreFiledBut result t.0 u.0 items.new.items counts.new }
    ensures room { spare counts.old.others + 2 * min result.length 1 ≤ (spare counts.new.others + 2) + 2 * min batch.length 1 }
    ensures short { result.length ≤ batch.length + 1 }
    ensures long { length items.new.items ≡ length items.old.items }
{
    let Some(place) = number.checked_sub(1) else {
        return batch;
    };
    let place = place as usize;
    if place < items.len() {
        let item = items[place];
        items[place] = item.transferred(t, u);
        return batch::transfer(counts, batch, item, t, u);
    }
    batch
}

// Makes `u` the holder of those of the operations that the transaction holds in progress. The last batch is not
// settled.
fn transfer_batches<A: Allocator + Copy>(
    items: &mut Vec<HeldOp, A>,
    counts: &mut Counts<A>,
    numbers: &[u32],
    t: TxnId,
    u: TxnId,
) -> Batch
    requires few { length items.old.items ≤ MOST_EVENTS }
    requires short { length numbers.now ≤ MOST_EVENTS }
    requires other { t.0 ≢ u.0 }
    requires filed { AreFiled items.old.items counts.old }
    requires room { 2 * length numbers.now ≤ spare counts.old.others }
    ensures items { items.new.items ≡ changed_each (transferred_op t.0 u) items.old.items numbers.now }
    ensures filed { AreFiledBut result t.0 u.0 items.new.items counts.new }
    ensures room { 2 * min result.length 1 ≤ spare counts.new.others }
    ensures short { result.length ≤ MOST_EVENTS }
    ensures long { length items.new.items ≡ length items.old.items }
{
    let mut batch = Batch::empty(t);
    for number in numbers {
        batch = transfer_one(items, counts, batch, *number, t, u);
    }
    batch
}

/// Makes `u` the holder of those of the operations that the transaction holds in progress.
pub(crate) fn transfer_each<A: Allocator + Copy>(
    items: &mut Vec<HeldOp, A>,
    counts: &mut Counts<A>,
    numbers: &[u32],
    t: TxnId,
    u: TxnId,
)
    requires few { length items.old.items ≤ MOST_EVENTS }
    requires short { length numbers.now ≤ MOST_EVENTS }
    requires other { t.0 ≢ u.0 }
    requires filed { AreFiled items.old.items counts.old }
    requires room { 2 * length numbers.now ≤ spare counts.old.others }
    ensures items { items.new.items ≡ changed_each (transferred_op t.0 u) items.old.items numbers.now }
    ensures filed { AreFiled items.new.items counts.new }
{
    let batch = transfer_batches(items, counts, numbers, t, u);
    batch::settle(counts, batch, t, u);
}
