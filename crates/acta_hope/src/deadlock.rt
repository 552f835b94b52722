//! Transactions whose events wait for each other.

ghost use Rattle.std.specs.Prelude.{◌≡◌, ◌≢◌, ◌<◌, ◌≤◌, ◌+◌, ℕ, All, true, IfOk, IfSome, None, OnOk, length, get_or};
ghost use Rattle.acta_machine.specs.Table.{refusal_in};
ghost use Rattle.acta_hope.specs.Deadlocks.{Awaits, IsCycle, awaited_in, is_linked};

use crate::hoping::{Hope, why_and_hope};
use crate::releases::operation_at;
use acta_machine::{Handle, Machine};
use acta_table::{Event, Items, TxnId};
use std::alloc::{AllocError, Allocator};

/// A transaction whose event is refused until another transaction does something.
#[derive(Clone, Copy, PartialEq, Eq, Debug)]
pub struct Wait {
    /// The waiting transaction.
    pub txn: TxnId,
    /// The transaction for which it waits.
    pub next: TxnId,
    /// The condition without which the event is never admitted.
    pub until: Hope,
}

// The transaction that has to do something for this condition to hold.
fn awaited_in<A: Handle>(machine: &Machine<A>, until: Hope) -> Option<TxnId>
    ensures { result ≡ awaited_in machine.now until }
{
    match until {
        Hope::OnceBegun(txn)
        | Hope::OnceDecided(txn)
        | Hope::OnceCommitted(txn)
        | Hope::OnceAborted(txn) => Some(txn),
        Hope::OnceFree(number) => match operation_at(machine, number) {
            Some(op) => Some(op.holder),
            None => None,
        },
        Hope::Never
        | Hope::OnceHeld(_, _)
        | Hope::OnceReleased(_, _)
        | Hope::OnceFewer
        | Hope::Unknown => None,
    }
}

/// The transaction for which this one's event waits: it has to begin, commit or abort first, or holds an operation that
/// blocks the event. `None` if the machine would admit the event, or if no wait for another transaction is known. Returns
/// `Err` if memory runs out.
pub fn wait_of<A: Handle>(
    machine: &Machine<A>,
    txn: TxnId,
    event: &Event<A>,
) -> Result<Option<Wait>, AllocError>
    ensures txn { IfOk result (λ found. IfSome found (λ wait. wait.txn ≡ txn)) }
    ensures another { IfOk result (λ found. IfSome found (λ wait. wait.next ≢ txn)) }
    ensures awaits { IfOk result (λ found. IfSome found (λ wait. Awaits machine.now event.now wait.next wait.until)) }
    ensures admitted { IfOk result (λ found. refusal_in machine.now event.now ≡ None → found ≡ None) }
{
    let Some((_, until)) = why_and_hope(machine, event)? else {
        return Ok(None);
    };
    match awaited_in(machine, until) {
        Some(next) if next.0 != txn.0 => Ok(Some(Wait { txn, next, until })),
        _ => Ok(None),
    }
}

// The place of this transaction's wait. `waits` is sorted by transaction.
fn place_of(waits: &[Wait], txn: TxnId) -> Option<usize> {
    waits.binary_search_by_key(&txn.0, |wait| wait.txn.0).ok()
}

// Whether the transaction at `place` waits for the one at `next`.
fn is_linked(waits: &[Wait], place: usize, next: usize) -> bool
    ensures { result ≡ is_linked waits.now place next }
{
    let Some(one) = waits.get(place) else {
        return false;
    };
    match waits.get(next) {
        Some(other) => one.next.0 == other.txn.0,
        None => false,
    }
}

// Whether the transaction at each of these places waits for the one at the next.
fn is_chain(waits: &[Wait], places: &[usize]) -> bool
    ensures { result ≡ true → (k : ℕ) → k + 1 < length places.now → is_linked waits.now (get_or places.now k 0) (get_or places.now (k + 1) 0) ≡ true }
{
    for k in 1..places.len() {
        if !is_linked(waits, places[k - 1], places[k]) {
            return false;
        }
    }
    true
}

// Whether these places form a cycle.
fn is_cycle(waits: &[Wait], places: &[usize]) -> bool
    ensures { result ≡ true → IsCycle waits.now places.now }
{
    places.len() >= 2 && places[0] == places[places.len() - 1] && is_chain(waits, places)
}

// Follows the waits from this place on until they return to it.
fn cycle_from<A: Allocator>(
    alloc: A,
    waits: &[Wait],
    start: usize,
) -> Result<Vec<usize, A>, AllocError> {
    let mut way = Vec::new(alloc);
    way.push(start)?;
    let mut place = start;
    for _ in 0..waits.len() {
        let Some(wait) = waits.get(place) else {
            break;
        };
        let Some(next) = place_of(waits, wait.next) else {
            break;
        };
        way.push(next)?;
        if next == start {
            break;
        }
        place = next;
    }
    Ok(way)
}

// Follows the waits from `start` on to a place that is marked or has no next, and marks the places with `way`. If the walk
// returns to a place of its own, that place is on a cycle.
fn look_from(waits: &[Wait], ways: &mut [usize], start: usize, way: usize) -> Option<usize> {
    let mut place = start;
    for _ in 0..waits.len() {
        let mark = ways.get_mut(place)?;
        if *mark != 0 {
            return if *mark == way { Some(place) } else { None };
        }
        *mark = way;
        place = place_of(waits, waits.get(place)?.next)?;
    }
    if *ways.get(place)? == way {
        Some(place)
    } else {
        None
    }
}

/// The deadlocks among these waits, which are sorted by transaction. A deadlock is a waits-for cycle, given as places in
/// `waits`: the transaction at each place waits for the one at the next, and the last place equals the first. Returns `Err`
/// if memory runs out.
pub fn deadlocks<A: Allocator + Copy>(
    alloc: A,
    waits: &[Wait],
) -> Result<Vec<Items<usize, A>, A>, AllocError>
    ensures { IfOk result (λ circles. All (IsCycle waits.now) circles.items) }
{
    let mut ways = Vec::new(alloc);
    ways.resize(waits.len(), 0usize)?;
    let mut circles = Vec::new(alloc);
    for start in 0..waits.len() {
        let Some(place) = look_from(waits, &mut ways, start, start + 1) else {
            continue;
        };
        let circle = cycle_from(alloc, waits, place)?;
        if !is_cycle(waits, &circle) {
            continue;
        }
        circles.push(Items::of(circle))?;
    }
    Ok(circles)
}
