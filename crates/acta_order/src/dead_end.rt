ghost use Rattle.std.specs.Prelude.{◌≡◌, ◌<◌, ◌≤◌, ◌+◌, ℕ, true, [], get_or, length, All, IfOk, IfSome, IsSome, Decides};
ghost use Rattle.std.specs.List.{list_all};
ghost use Rattle.acta_table.specs.declared.limits.TheConstants.{MOST_EVENTS};
ghost use Rattle.acta_values.specs.KeptValues.{kinds_of};
ghost use Rattle.acta_order.specs.Blocks.{AreBlocked, IsBlocked, IsPlaced, IsReplayed, IsStuck};
ghost use Rattle.acta_order.specs.Earlier.{limit};
ghost use Rattle.acta_order.specs.Orders.{is_in};
ghost use Rattle.acta_order.specs.Search.{AreSound, is_sound, values_at, values_of};

use crate::earlier::Earlier;
use crate::item::Item;
use crate::longest::Longest;
use crate::path::Path;
use crate::replay::Replay;
use crate::search::{at, listed};
use acta_axioms::Groups;
use acta_table::{Items, MOST_EVENTS, Model, OpNo, Ret, TxnId};
use std::alloc::{AllocError, Allocator};

/// Why a transaction can't be placed next: the first of its operations that would return something else than the history
/// records.
#[derive(Clone, Copy, PartialEq, Eq, Debug)]
pub struct Block {
    pub txn: TxnId,
    /// The number of the operation in the history, from 1.
    pub op: OpNo,
    /// The recorded return.
    pub returned: Option<Ret>,
    /// The return that the operation would have.
    pub would: Option<Ret>,
}

/// A front of an order after which no transaction can be placed, with a block for each that could be next.
#[derive(Drop)]
pub struct DeadEnd<A: Allocator> {
    pub front: Items<TxnId, A>,
    pub blocks: Items<Block, A>,
}

// Whether the replay has room for a group. It always has, since a history has no more events than a replay may have; this is
// not proved.
fn has_room<A: Allocator + Copy>(replay: &Replay<A>, group: &[Item]) -> bool
    ensures { Decides result (length replay.now.done + length group.now ≤ MOST_EVENTS) }
{
    group.len() <= MOST_EVENTS - replay.len()
}

// Places a position and does its group, if the search could place it next.
fn place<A: Allocator + Copy>(
    ts: &[usize],
    groups: &Groups<Item, A>,
    earlier: &Earlier<A>,
    path: &mut Path<A>,
    replay: &mut Replay<A>,
    c: usize,
) -> Result<bool, AllocError>
    requires size { path.old.size ≡ length ts.now }
    requires sound { AreSound replay.old.kinds (λ t. get_or groups.now t []) ts.now }
    ensures { IfOk result (λ yes. yes ≡ true → IsPlaced A path.old path.new replay.old replay.new (λ t. get_or groups.now t []) (limit earlier.now) ts.now c) }
{
    if c >= ts.len() || path.has(c) {
        return Ok(false);
    }
    let t = at(ts, c);
    let group = groups.of(t);
    if earlier.of(t) > path.first_open(0) || !has_room(replay, group) {
        return Ok(false);
    }
    if replay.play(group)?.is_some() {
        return Ok(false);
    }
    path.push(c)?;
    Ok(true)
}

// Places these positions in this order, if the search could.
fn retrace<A: Allocator + Copy>(
    ts: &[usize],
    groups: &Groups<Item, A>,
    earlier: &Earlier<A>,
    positions: &[usize],
    path: &mut Path<A>,
    replay: &mut Replay<A>,
) -> Result<bool, AllocError>
    requires size { path.old.size ≡ length ts.now }
    requires none { path.old.stack ≡ [] }
    requires idle { replay.old.done ≡ [] }
    requires sound { AreSound replay.old.kinds (λ t. get_or groups.now t []) ts.now }
    ensures { IfOk result (λ yes. yes ≡ true → IsReplayed A replay.old.kinds (λ t. get_or groups.now t []) (limit earlier.now) ts.now path.new replay.new) }
{
    for c in positions {
        if !place(ts, groups, earlier, path, replay, *c)? {
            return Ok(false);
        }
    }
    Ok(true)
}

// Why the group of the transaction can't be done next. `None` if it can be.
fn block_of<A: Allocator + Copy>(
    t: usize,
    group: &[Item],
    replay: &mut Replay<A>,
) -> Result<Option<Block>, AllocError>
    requires low { t < 65536 }
    requires sound { list_all (is_sound replay.old.kinds) group.now ≡ true }
    ensures same { IfOk result (λ block. IsSome block → replay.new ≡ replay.old) }
    ensures block { IfOk result (λ block. IfSome block (IsBlocked (values_of {A = A} replay.old) group.now t)) }
{
    if !has_room(replay, group) {
        return Ok(None);
    }
    let Some(found) = replay.play(group)? else {
        return Ok(None);
    };
    let Some(item) = group.get(found.place) else {
        return Ok(None);
    };
    Ok(Some(Block {
        txn: TxnId(t as u16),
        op: item.number,
        returned: item.ret,
        would: found.would,
    }))
}

// A block for each position that could be placed next. `None` if one can be.
fn blocks<A: Allocator + Copy>(
    alloc: A,
    ts: &[usize],
    groups: &Groups<Item, A>,
    earlier: &Earlier<A>,
    path: &Path<A>,
    replay: &mut Replay<A>,
) -> Result<Option<Vec<Block, A>>, AllocError>
    requires size { path.now.size ≡ length ts.now }
    requires low { (t : ℕ) → is_in ts.now t ≡ true → t < 65536 }
    requires sound { AreSound replay.old.kinds (λ t. get_or groups.now t []) ts.now }
    ensures { IfOk result (λ found. IfSome found (λ blocks. AreBlocked (values_of {A = A} replay.old) (λ t. get_or groups.now t []) (limit earlier.now) ts.now path.now.stack blocks.items)) }
{
    let low = path.first_open(0);
    let mut blocks = Vec::new(alloc);
    for c in 0..ts.len() {
        let t = at(ts, c);
        if !path.has(c) && earlier.of(t) <= low {
            match block_of(t, groups.of(t), replay)? {
                Some(block) => blocks.push(block)?,
                None => return Ok(None),
            }
        }
    }
    Ok(Some(blocks))
}

// The dead end at these positions, if they can be placed in this order, and no other one after them.
fn dead_end<A: Allocator + Copy>(
    alloc: A,
    model: &Model<A>,
    ts: &[usize],
    groups: &Groups<Item, A>,
    earlier: &Earlier<A>,
    positions: &[usize],
) -> Result<Option<DeadEnd<A>>, AllocError>
    requires low { (t : ℕ) → is_in ts.now t ≡ true → t < 65536 }
    requires sound { AreSound (kinds_of model.now.objects) (λ t. get_or groups.now t []) ts.now }
    ensures { IfOk result (λ end. IfSome end (IsStuck (values_at {A = A} (kinds_of model.now.objects) []) (λ t. get_or groups.now t []) (limit earlier.now) ts.now)) }
{
    let mut path = Path::new(alloc, ts.len())?;
    let mut replay = Replay::new(alloc, model.objects())?;
    if !retrace(ts, groups, earlier, positions, &mut path, &mut replay)? {
        return Ok(None);
    }
    let Some(blocks) = blocks(alloc, ts, groups, earlier, &path, &mut replay)? else {
        return Ok(None);
    };
    let _known = path.first_open(0);
    Ok(Some(DeadEnd {
        front: Items::of(listed(alloc, ts, path.taken())?),
        blocks: Items::of(blocks),
    }))
}

/// The dead ends at the longest paths of a search.
pub(crate) fn dead_ends<A: Allocator + Copy>(
    alloc: A,
    model: &Model<A>,
    ts: &[usize],
    groups: &Groups<Item, A>,
    earlier: &Earlier<A>,
    longest: &Longest<A>,
) -> Result<Items<DeadEnd<A>, A>, AllocError>
    requires low { (t : ℕ) → is_in ts.now t ≡ true → t < 65536 }
    requires sound { AreSound (kinds_of model.now.objects) (λ t. get_or groups.now t []) ts.now }
    ensures { IfOk result (All (IsStuck (values_at {A = A} (kinds_of model.now.objects) []) (λ t. get_or groups.now t []) (limit earlier.now) ts.now)) }
{
    let mut ends = Vec::new(alloc);
    for positions in longest.paths() {
        if let Some(end) = dead_end(alloc, model, ts, groups, earlier, positions)? {
            ends.push(end)?;
        }
    }
    Ok(Items::of(ends))
}
