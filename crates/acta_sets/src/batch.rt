ghost use Rattle.std.specs.Prelude.{◌≡◌, ◌≢◌, ◌<◌, ◌≤◌, ◌+◌, ◌-◌, ◌*◌, ◌^◌, ℕ, min};
ghost use Rattle.std.specs.HashMap.{spare};
ghost use Rattle.acta_sets.specs.declared.mode.ModeKey.{ModeKey as a_mode_key};
ghost use Rattle.acta_sets.specs.Operations.{transferred_op};
ghost use Rattle.acta_sets.specs.inside.Filing.{count, filings, tally_batch};

use crate::counts::{Counts, file_as, unfile_as};
use crate::held_op::HeldOp;
use crate::mode::{Holder, are_equivalent};
use acta_table::{Fate, ObjId, Op, TxnId};
use std::alloc::Allocator;

/// A number of operations like `item` (same object, same modes) that are transferred one after another. Their changes
/// to the counts are added up, so that each count is written once.
#[derive(Clone, Copy)]
pub(crate) struct Batch {
    pub item: HeldOp,
    pub length: u32,
}

impl Batch {
    /// The empty batch.
    pub(crate) fn empty(t: TxnId) -> Batch
        ensures { result.length ≡ 0 }
    {
        Batch {
            item: HeldOp {
                ob: ObjId(0),
                op: Op::Read,
                holder: t,
                fate: Fate::InProgress,
            },
            length: 0,
        }
    }
}

/// Moves the operations of the batch from `t`'s counts to `u`'s.
pub(crate) fn settle<A: Allocator + Copy>(counts: &mut Counts<A>, batch: Batch, t: TxnId, u: TxnId)
    requires room { 2 * min batch.length 1 ≤ spare counts.old.others }
    requires small { (q : a_mode_key) → count counts.old q + 2 * batch.length < 2 ^ 32 }
    ensures counted { (q : a_mode_key) → count counts.new q ≡ (count counts.old q - tally_batch q t.0 batch) + tally_batch q u.0 batch }
    ensures room { spare counts.old.others ≤ spare counts.new.others + 2 * min batch.length 1 }
{
    if batch.length > 0 {
        unfile_as(counts, Holder::Txn(t.0), &batch.item, batch.length);
        file_as(counts, Holder::Txn(u.0), &batch.item, batch.length);
    }
}

/// The batch after the transfer of the operation to `u`, if `t` holds it in progress. If the operation is unlike those
/// of the batch, the batch is settled and a new one begins.
pub(crate) fn transfer<A: Allocator + Copy>(
    counts: &mut Counts<A>,
    batch: Batch,
    item: HeldOp,
    t: TxnId,
    u: TxnId,
) -> Batch
    requires other { t.0 ≢ u.0 }
    requires room { 2 * min batch.length 1 ≤ spare counts.old.others }
    requires small { (q : a_mode_key) → count counts.old q + 2 * batch.length < 2 ^ 32 }
    requires short { batch.length + 1 < 2 ^ 32 }
    ensures filed { (q : a_mode_key) → (n : ℕ) → n + tally_batch q t.0 batch ≡ count counts.old q + tally_batch q u.0 batch → (n + filings q (transferred_op t.0 u item)) + tally_batch q t.0 result ≡ (count counts.new q + tally_batch q u.0 result) + filings q item }
    ensures room { spare counts.old.others + 2 * min result.length 1 ≤ (spare counts.new.others + 2) + 2 * min batch.length 1 }
    ensures short { result.length ≤ batch.length + 1 }
{
    if !item.is_held(t) {
        return batch;
    }
    if batch.item.ob.0 == item.ob.0 && are_equivalent(&batch.item.op, &item.op) {
        let length = batch.length + 1;
        return Batch {
            item: batch.item,
            length,
        };
    }
    settle(counts, batch, t, u);
    Batch { item, length: 1 }
}
