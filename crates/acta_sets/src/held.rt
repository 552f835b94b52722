ghost use Rattle.std.specs.Prelude.{◌≡◌, ◌≢◌, ◌<◌, false, ℕ, ◌++◌, ◌∷◌, ◌==◌, if◌then◌else◌, [], true, length, set, find, not, OnOk, OnErr, IfOk};
ghost use Rattle.acta_table.specs.Sets.{numbered, numbers_of, is_named};
ghost use Rattle.smallvec.specs.SmallVec.{SmallVec as short_list};
ghost use Rattle.std.specs.BTreeSet.{insert_key};
ghost use Rattle.std.specs.Ordering.{nat_cmp};
ghost use Rattle.acta_sets.specs.inside.Held.{lists, list_at, merge, joined, is_below, without, named_of, AreAmong};

use crate::handle::Handle;
use acta_table::{OpNo, OpSet};
use smallvec::SmallVec;
use std::alloc::AllocError;
use std::collections::BTreeSet;

/// A list of operation numbers, ascending. A short list is stored inline.
pub(crate) type OpList<A> = SmallVec<u32, 8, A>;

/// The operations that each transaction holds in progress, indexed by transaction number.
pub(crate) type Held<A> = Vec<SmallVec<u32, 8, A>, A>;

// Returns a copy of the list.
fn copied_list<A: Handle>(alloc: A, list: &[u32]) -> Result<OpList<A>, AllocError>
    ensures { IfOk result (λ (copied : short_list _). copied.items ≡ list.now) }
{
    let mut copied = SmallVec::new(alloc);
    copied.extend_from_slice(list)?;
    Ok(copied)
}

/// Returns a copy of the lists.
pub(crate) fn copied<A: Handle>(held: &Held<A>) -> Result<Held<A>, AllocError>
    ensures { IfOk result (λ copied. lists copied.items ≡ lists held.now.items) }
{
    let alloc = *held.allocator();
    let mut copied = Vec::with_capacity(alloc, held.len())?;
    for list in held {
        copied.push(copied_list(alloc, list.as_slice())?)?;
    }
    Ok(copied)
}

/// Extends the table so that it has a list at this place. Nothing else changes.
fn grow_to<A: Handle>(held: &mut Held<A>, at: u16) -> Result<(), AllocError>
    ensures same { (t : ℕ) → list_at held.new.items t ≡ list_at held.old.items t }
    ensures room { OnOk result (at < length held.new.items) }
{
    let alloc = *held.allocator();
    for _ in held.len()..at as usize + 1 {
        held.push(SmallVec::new(alloc))?;
    }
    Ok(())
}

/// Appends an operation to the list at a place. On `Err` it is not appended.
fn push_at<A: Handle>(held: &mut Held<A>, at: u16, op: u32) -> Result<(), AllocError>
    requires { at < length held.old.items }
    ensures ok { OnOk result (lists held.new.items ≡ set (lists held.old.items) at (list_at held.old.items at ++ op ∷ [])) }
    ensures err { OnErr result (lists held.new.items ≡ lists held.old.items) }
{
    if let Some(list) = held.get_mut(at as usize) {
        list.push(op)?;
    }
    Ok(())
}

/// Appends an operation to a transaction's list. On `Err` it is not appended.
fn add_at<A: Handle>(held: &mut Held<A>, at: u16, op: u32) -> Result<(), AllocError>
    ensures ok { OnOk result ((v : ℕ) → list_at held.new.items v ≡ (if v == at then list_at held.old.items at ++ op ∷ [] else list_at held.old.items v)) }
    ensures err { OnErr result ((v : ℕ) → list_at held.new.items v ≡ list_at held.old.items v) }
{
    match grow_to(held, at) {
        Ok(()) => push_at(held, at, op),
        Err(error) => Err(error),
    }
}

/// The list at a place.
pub(crate) fn list_of<A: Handle>(held: &Held<A>, at: u16) -> &[u32]
    ensures { result.now ≡ list_at held.now.items at }
{
    match held.get(at as usize) {
        Some(list) => list.as_slice(),
        None => &[],
    }
}

/// Empties the list at a place and frees its memory: most transactions that hold nothing any more have ended.
fn clear_at<A: Handle>(held: &mut Held<A>, at: u16)
    ensures { (v : ℕ) → list_at held.new.items v ≡ (if v == at then [] else list_at held.old.items v) }
{
    let alloc = *held.allocator();
    if let Some(list) = held.get_mut(at as usize) {
        *list = SmallVec::new(alloc);
    }
}

// Whether the operations of the list are the named ones. Then a transaction hands on all that it holds, and none of its
// operations has to be searched for.
fn are_named<A: Handle>(list: &[u32], ops: &OpSet<A>) -> bool
    ensures all { result ≡ true → list.now ≡ numbers_of ops.now }
    ensures other { result ≡ false → list.now ≢ numbers_of ops.now }
{
    let named = ops.as_slice();
    if list.len() != named.len() {
        return false;
    }
    for i in 0..list.len() {
        if list[i] != named[i].0 {
            return false;
        }
    }
    true
}

// Removes the named operations from a list.
fn leave_out<A: Handle>(list: &mut OpList<A>, ops: &OpSet<A>)
    ensures { list.new.items ≡ without ops.now list.old.items }
{
    if ops.as_slice().is_empty() {
        return;
    }
    if are_named(list.as_slice(), ops) {
        list.clear();
        return;
    }
    list.retain(|op| !ops.has_number(*op as usize));
}

/// Removes the named operations from the list at a place.
pub(crate) fn leave_out_at<A: Handle>(held: &mut Held<A>, at: u16, ops: &OpSet<A>)
    ensures { (v : ℕ) → list_at held.new.items v ≡ (if v == at then without ops.now (list_at held.old.items at) else list_at held.old.items v) }
{
    if let Some(list) = held.get_mut(at as usize) {
        leave_out(list, ops);
    }
}

// The named operations of the list.
fn picked<A: Handle>(alloc: A, list: &[u32], ops: &OpSet<A>) -> Result<Vec<u32, A>, AllocError>
    ensures { IfOk result (λ named. named.items ≡ named_of ops.now list.now) }
{
    let mut named = Vec::new(alloc);
    for op in list {
        if ops.has_number(*op as usize) {
            named.push(*op)?;
        }
    }
    Ok(named)
}

/// The named operations of the list.
pub(crate) fn named_in<A: Handle>(
    alloc: A,
    list: &[u32],
    ops: &OpSet<A>,
) -> Result<Vec<u32, A>, AllocError>
    ensures { IfOk result (λ named. named.items ≡ named_of ops.now list.now) }
{
    if ops.as_slice().is_empty() {
        return Ok(Vec::new(alloc));
    }
    if are_named(list, ops) {
        return Vec::from_slice(alloc, list);
    }
    picked(alloc, list, ops)
}

/// The first operation of the list that is not named.
pub(crate) fn first_unnamed<A: Handle>(list: &[u32], ops: &OpSet<A>) -> Option<u32>
    ensures { result ≡ find (λ n. not (is_named ops.now n)) list.now }
{
    if are_named(list, ops) {
        return None;
    }
    for op in list {
        if !ops.has_number(*op as usize) {
            return Some(*op);
        }
    }
    None
}

/// The operations with these numbers.
pub(crate) fn numbered<A: Handle>(alloc: A, list: &[u32]) -> Result<Vec<OpNo, A>, AllocError>
    ensures { IfOk result (λ ops. ops.items ≡ numbered list.now) }
{
    let mut ops = Vec::with_capacity(alloc, list.len())?;
    for number in list {
        ops.push(OpNo(*number))?;
    }
    Ok(ops)
}

// Whether the first list can be followed by the second: its last number is lower, or one of them is empty.
fn is_before(ops: &[u32], more: &[u32]) -> bool
    ensures { result ≡ is_below ops.now more.now }
{
    match (ops.last(), more.first()) {
        (Some(last), Some(first)) => last < first,
        _ => true,
    }
}

// Merges the two ascending lists.
fn merged<A: Handle>(alloc: A, ops: &[u32], more: &[u32]) -> Result<OpList<A>, AllocError>
    ensures { IfOk result (λ (list : short_list _). list.items ≡ merge ops.now more.now) }
{
    let mut all = SmallVec::new(alloc);
    let mut i = 0;
    let mut j = 0;
    while i < ops.len() && j < more.len() {
        if ops[i] < more[j] {
            all.push(ops[i])?;
            i += 1;
        } else {
            all.push(more[j])?;
            j += 1;
        }
    }
    all.extend_from_slice(&ops[i..])?;
    all.extend_from_slice(&more[j..])?;
    Ok(all)
}

// Merges an ascending list into another. On `Err` the other is unchanged.
fn join<A: Handle>(list: &mut OpList<A>, more: &[u32]) -> Result<(), AllocError>
    ensures ok { OnOk result (list.new.items ≡ joined list.old.items more.now) }
    ensures err { OnErr result (list.new.items ≡ list.old.items) }
{
    if is_before(list.as_slice(), more) {
        return list.extend_from_slice(more);
    }
    let alloc = *list.allocator();
    *list = merged(alloc, list.as_slice(), more)?;
    Ok(())
}

/// Merges an ascending list into the list at a place. On `Err` it is unchanged.
fn join_at<A: Handle>(held: &mut Held<A>, at: u16, more: &[u32]) -> Result<(), AllocError>
    requires { at < length held.old.items }
    ensures ok { OnOk result (lists held.new.items ≡ set (lists held.old.items) at (joined (list_at held.old.items at) more.now)) }
    ensures err { OnErr result (lists held.new.items ≡ lists held.old.items) }
{
    match held.get_mut(at as usize) {
        Some(list) => join(list, more),
        None => Ok(()),
    }
}

/// Merges an ascending list into a transaction's list. On `Err` it is unchanged.
fn share_at<A: Handle>(held: &mut Held<A>, at: u16, more: &[u32]) -> Result<(), AllocError>
    ensures ok { OnOk result ((v : ℕ) → list_at held.new.items v ≡ (if v == at then joined (list_at held.old.items at) more.now else list_at held.old.items v)) }
    ensures err { OnErr result ((v : ℕ) → list_at held.new.items v ≡ list_at held.old.items v) }
{
    match grow_to(held, at) {
        Ok(()) => join_at(held, at, more),
        Err(error) => Err(error),
    }
}

/// The transactions that hold operations, by number. It may contain others that no longer do: the lists decide.
pub(crate) type Holders<A> = BTreeSet<u16, A>;

/// Returns a copy of the holders.
pub(crate) fn copied_holders<A: Handle>(holders: &Holders<A>) -> Result<Holders<A>, AllocError>
    ensures { IfOk result (λ copied. copied.keys ≡ holders.now.keys) }
{
    holders.clone()
}

// Adds the transaction to the holders. On `Err` they are unchanged.
fn note<A: Handle>(holders: &mut Holders<A>, at: u16) -> Result<(), AllocError>
    ensures ok { OnOk result (holders.new.keys ≡ insert_key nat_cmp holders.old.keys at) }
    ensures err { OnErr result (holders.new.keys ≡ holders.old.keys) }
{
    match holders.insert(at) {
        Ok(_) => Ok(()),
        Err(_) => Err(AllocError),
    }
}

/// Appends an operation to a transaction's list, and adds the transaction to the holders. On `Err` it is not appended.
pub(crate) fn add_held<A: Handle>(
    held: &mut Held<A>,
    holders: &mut Holders<A>,
    at: u16,
    op: u32,
) -> Result<(), AllocError>
    ensures ok { OnOk result ((v : ℕ) → list_at held.new.items v ≡ (if v == at then list_at held.old.items at ++ op ∷ [] else list_at held.old.items v)) }
    ensures err { OnErr result ((v : ℕ) → list_at held.new.items v ≡ list_at held.old.items v) }
    ensures among { OnOk result (AreAmong held.old.items holders.old.keys → AreAmong held.new.items holders.new.keys) }
    ensures still { OnErr result (AreAmong held.old.items holders.old.keys → AreAmong held.new.items holders.new.keys) }
{
    match note(holders, at) {
        Ok(()) => add_at(held, at, op),
        Err(error) => Err(error),
    }
}

/// Merges an ascending list into a transaction's list, and adds the transaction to the holders. On `Err` the list is
/// unchanged.
pub(crate) fn share_held<A: Handle>(
    held: &mut Held<A>,
    holders: &mut Holders<A>,
    at: u16,
    more: &[u32],
) -> Result<(), AllocError>
    ensures ok { OnOk result ((v : ℕ) → list_at held.new.items v ≡ (if v == at then joined (list_at held.old.items at) more.now else list_at held.old.items v)) }
    ensures err { OnErr result ((v : ℕ) → list_at held.new.items v ≡ list_at held.old.items v) }
    ensures among { OnOk result (AreAmong held.old.items holders.old.keys → AreAmong held.new.items holders.new.keys) }
    ensures still { OnErr result (AreAmong held.old.items holders.old.keys → AreAmong held.new.items holders.new.keys) }
{
    match note(holders, at) {
        Ok(()) => share_at(held, at, more),
        Err(error) => Err(error),
    }
}

/// Empties the list at a place, and removes its transaction from the holders.
pub(crate) fn clear_held<A: Handle>(held: &mut Held<A>, holders: &mut Holders<A>, at: u16)
    ensures lists { (v : ℕ) → list_at held.new.items v ≡ (if v == at then [] else list_at held.old.items v) }
    ensures among { AreAmong held.old.items holders.old.keys → AreAmong held.new.items holders.new.keys }
{
    clear_at(held, at);
    holders.remove(&at);
}
