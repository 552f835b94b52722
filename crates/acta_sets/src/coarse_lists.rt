//! The lists of operations in coarse modes, found by their places without hashing.

ghost use Rattle.std.specs.Prelude.{◌≡◌, ◌<◌, ◌^◌, ◌++◌, ◌∷◌, [], if◌then◌else◌, IfSome, slice_get, IfOk, OnOk, length, vec_len, vec_capacity, Some, find};
ghost use Rattle.acta_sets.specs.declared.mode.Holder.TheVariants.{Anyone};
ghost use Rattle.acta_sets.specs.declared.mode.ModeKey.{ModeKey as a_mode_key};
ghost use Rattle.acta_sets.specs.inside.Modes.{same_key, total_place, IsCoarse};
ghost use Rattle.acta_sets.specs.inside.Listing.{in_table, numbers_in, front_in, HasPlace, is_key, FrontsHold, passes_at};
ghost use Rattle.acta_sets.specs.Operations.{is_against};

use crate::held_op::HeldOp;
use crate::listing::{ModeList, first_of_list, front_of};
use crate::mode::{LockMode, coarse_place};
use acta_table::{ObjId, Op, TxnId};
use std::alloc::{AllocError, Allocator};
use std::collections::BTreeSet;

/// The operations in each coarse mode on each object, at the place of the mode.
pub(crate) type CoarseLists<A> = Vec<ModeList<A>, A>;

/// Returns a copy of the lists.
pub(crate) fn copied<A: Allocator + Copy>(
    lists: &CoarseLists<A>,
) -> Result<CoarseLists<A>, AllocError>
    ensures numbers { IfOk result (λ copied. (q : a_mode_key) → numbers_in (in_table copied.items) q ≡ numbers_in (in_table lists.now.items) q) }
    ensures fronts { IfOk result (λ copied. (q : a_mode_key) → front_in (in_table copied.items) q ≡ front_in (in_table lists.now.items) q) }
{
    Ok(lists.clone()?)
}

// Lengthens the table so that it has a list at this place.
fn grow_to<A: Allocator + Copy>(lists: &mut CoarseLists<A>, place: usize) -> Result<(), AllocError>
    requires { place < 2 ^ 32 }
    ensures numbers { (q : a_mode_key) → numbers_in (in_table lists.new.items) q ≡ numbers_in (in_table lists.old.items) q }
    ensures fronts { (q : a_mode_key) → front_in (in_table lists.new.items) q ≡ front_in (in_table lists.old.items) q }
    ensures room { OnOk result (place < length lists.new.items) }
{
    let alloc = *lists.allocator();
    for _ in lists.len()..place + 1 {
        lists.push(ModeList {
            numbers: Vec::new(alloc),
            front: 0,
        })?;
    }
    Ok(())
}

// Makes room for one more number in the list at the place, if there is one.
fn reserve_at<A: Allocator + Copy>(
    lists: &mut CoarseLists<A>,
    place: usize,
) -> Result<(), AllocError>
    ensures numbers { (q : a_mode_key) → numbers_in (in_table lists.new.items) q ≡ numbers_in (in_table lists.old.items) q }
    ensures fronts { (q : a_mode_key) → front_in (in_table lists.new.items) q ≡ front_in (in_table lists.old.items) q }
    ensures length { length lists.new.items ≡ length lists.old.items }
    ensures room { OnOk result (IfSome (slice_get lists.new.items place) (λ list. vec_len list.numbers < vec_capacity list.numbers)) }
{
    match lists.get_mut(place) {
        Some(list) => list.numbers.reserve(1),
        None => Ok(()),
    }
}

/// Makes room for one more number in the list of the mode, if there is one, on the object.
pub(crate) fn make_place<A: Allocator + Copy>(
    lists: &mut CoarseLists<A>,
    ob: u16,
    mode: Option<LockMode>,
) -> Result<(), AllocError>
    requires { IsCoarse mode }
    ensures numbers { (q : a_mode_key) → numbers_in (in_table lists.new.items) q ≡ numbers_in (in_table lists.old.items) q }
    ensures fronts { (q : a_mode_key) → front_in (in_table lists.new.items) q ≡ front_in (in_table lists.old.items) q }
    ensures place { OnOk result (HasPlace (in_table lists.new.items) ob mode) }
{
    if let Some(mode) = mode {
        if let Some(place) = coarse_place(ob, mode) {
            grow_to(lists, place)?;
            reserve_at(lists, place)?;
        }
    }
    Ok(())
}

// Appends a number to the list at the place, which has room.
fn push_at<A: Allocator + Copy>(lists: &mut CoarseLists<A>, place: usize, number: u32)
    requires there { place < length lists.old.items }
    requires room { IfSome (slice_get lists.old.items place) (λ list. vec_len list.numbers < vec_capacity list.numbers) }
    ensures numbers { (k q : a_mode_key) → total_place k ≡ Some place → numbers_in (in_table lists.new.items) q ≡ (if same_key k q then numbers_in (in_table lists.old.items) q ++ number ∷ [] else numbers_in (in_table lists.old.items) q) }
    ensures fronts { (q : a_mode_key) → front_in (in_table lists.new.items) q ≡ front_in (in_table lists.old.items) q }
{
    if let Some(list) = lists.get_mut(place) {
        list.numbers.push_reserved(number);
    }
}

/// Appends a number to the list of the mode, if there is one, on the object, if there is room.
pub(crate) fn list_under<A: Allocator + Copy>(
    lists: &mut CoarseLists<A>,
    ob: u16,
    mode: Option<LockMode>,
    number: u32,
)
    requires coarse { IsCoarse mode }
    requires place { HasPlace (in_table lists.old.items) ob mode }
    ensures numbers { (q : a_mode_key) → numbers_in (in_table lists.new.items) q ≡ (if is_key q ob mode then numbers_in (in_table lists.old.items) q ++ number ∷ [] else numbers_in (in_table lists.old.items) q) }
    ensures fronts { (q : a_mode_key) → front_in (in_table lists.new.items) q ≡ front_in (in_table lists.old.items) q }
{
    if let Some(mode) = mode {
        if let Some(place) = coarse_place(ob, mode) {
            push_at(lists, place, number);
        }
    }
}

/// Advances the ended prefix of the list of the mode, if there is one, on the object.
pub(crate) fn advance_under<A: Allocator + Copy>(
    lists: &mut CoarseLists<A>,
    items: &[HeldOp],
    ob: u16,
    mode: Option<LockMode>,
)
    requires { FrontsHold items.now (in_table lists.old.items) }
    ensures numbers { (q : a_mode_key) → numbers_in (in_table lists.new.items) q ≡ numbers_in (in_table lists.old.items) q }
    ensures fronts { FrontsHold items.now (in_table lists.new.items) }
{
    let Some(mode) = mode else {
        return;
    };
    let Some(place) = coarse_place(ob, mode) else {
        return;
    };
    if let Some(list) = lists.get_mut(place) {
        list.front = front_of(items, list.numbers.as_slice(), list.front);
    }
}

/// The first operation in this mode on the object that conflicts with the other.
pub(crate) fn first_under<A: Allocator + Copy>(
    lists: &CoarseLists<A>,
    mode: LockMode,
    items: &[HeldOp],
    t: TxnId,
    exempts: &BTreeSet<u16, A>,
    ob: ObjId,
    op: &Op,
) -> Option<u32>
    requires { FrontsHold items.now (in_table lists.now.items) }
    ensures { result ≡ find (passes_at (is_against t.0 exempts.now.keys ob.0 op.now) items.now) (numbers_in (in_table lists.now.items) (record { holder = Anyone; ob = ob.0; mode = mode })) }
{
    let place = coarse_place(ob.0, mode)?;
    if place < lists.len() {
        first_of_list(&lists[place], items, t, exempts, ob, op)
    } else {
        None
    }
}
