//! Deadlocks: seats that wait for each other, so that none has a step.

ghost use Rattle.std.specs.Prelude.{◌≡◌, ◌-◌, ◌≤◌, ◌==◌, false, true, drop, length, get_or, option_map, IfOk, IfSome, OnOk};
ghost use Rattle.std.specs.List.{list_any, zip};
ghost use Rattle.acta_deps.specs.Statuses.{is_new};
ghost use Rattle.acta_machine.specs.Table.{status_in};
ghost use Rattle.acta_explore.specs.Deadlocks.{bars_until, first_for, waited_for, EventWaits, AlternativeWaits, SeatWaits, WaitsForSeat, is_txn, moves, is_left, IsCycle, BeginsWith};
ghost use Rattle.acta_explore.specs.Programs.{lines_done};
ghost use Rattle.acta_explore.specs.inside.Circles.{AreWaits, AreLinks, is_linked, IsChain};

use crate::plan::Plan;
use crate::point::{Done, Point};
use acta_machine::{Handle, Reason};
use acta_script::ProgramLine;
use acta_table::{Event, Rule, Status, TxnId};
use std::alloc::{AllocError, Allocator};

// How many seats there can be.
const MOST_SEATS: usize = 1 + u8::MAX as usize;

// A seat that waits at a line for a transaction.
#[derive(Clone, Copy)]
struct SeatWait {
    seat: u8,
    line: usize,
    txn: TxnId,
}

// A seat that waits for another.
#[derive(Clone, Copy)]
struct Link {
    seat: u8,
    next: u8,
}

// A seat that the search reached, and the index, among the seats reached earlier, of the seat that waits for it.
#[derive(Clone, Copy)]
struct Reached {
    seat: u8,
    from: usize,
}

// Whether the rule blocks the j of an edge only until the i begins, commits or aborts.
fn bars_until(rule: Rule) -> bool
    ensures { result ≡ bars_until rule }
{
    matches!(
        rule,
        Rule::BeginDep
            | Rule::SerialDep
            | Rule::BeginOnCommit
            | Rule::BeginOnAbort
            | Rule::TerminationDep
    )
}

// The transaction for which an event waits that is refused for this reason.
fn waited_for(reason: Reason) -> Option<TxnId>
    ensures { result ≡ waited_for reason }
{
    match reason {
        Reason::NotInProgress { txn, status } | Reason::PartnerNotInProgress { txn, status } => {
            match status {
                Status::NotBegun => Some(txn),
                _ => None,
            }
        }
        Reason::Conflict(op) => Some(op.held.holder),
        Reason::Blocked(blocking_edge) => {
            if !bars_until(blocking_edge.rule) {
                return None;
            }
            match blocking_edge.i {
                Status::NotBegun | Status::InProgress => Some(blocking_edge.by.edge.i),
                _ => None,
            }
        }
        _ => None,
    }
}

// Whether the transaction found is this one.
fn is_txn(found: Option<TxnId>, txn: TxnId) -> bool
    ensures { result ≡ is_txn (option_map (λ t. t.0) found) txn.0 }
{
    match found {
        Some(other) => other.0 == txn.0,
        None => false,
    }
}

// Whether the event advances the transaction: starts it if it is new, otherwise is done by it.
fn moves<A: Allocator>(event: &Event<A>, txn: TxnId, is_new: bool) -> bool
    ensures { result ≡ moves is_new txn.0 event.now }
{
    if is_new {
        is_txn(event.started(), txn)
    } else {
        is_txn(event.acting(), txn)
    }
}

// Whether one of the events advances the transaction.
fn some_moves<A: Allocator>(events: &[Event<A>], txn: TxnId, is_new: bool) -> bool
    ensures { result ≡ list_any (moves is_new txn.0) events.now }
{
    events.iter().any(|event| moves(event, txn, is_new))
}

// Whether the line is one of the seat, not yet done, with an alternative that advances the transaction.
fn is_left<A: Handle>(
    line: &ProgramLine<A>,
    done: &Option<Done>,
    seat: u8,
    txn: TxnId,
    is_new: bool,
) -> bool
    ensures { result ≡ is_left is_new seat txn.0 (line.now, done.now) }
{
    line.seat == seat && done.is_none() && some_moves(line.alternatives.as_slice(), txn, is_new)
}

// Whether the seat has a line, from this position on and not yet done, with an alternative that advances the transaction.
// `done` is what each line did.
fn has_left<A: Handle>(
    lines: &[ProgramLine<A>],
    done: &[Option<Done>],
    first: usize,
    seat: u8,
    txn: TxnId,
    is_new: bool,
) -> bool
    ensures { result ≡ list_any (is_left is_new seat txn.0) (zip (drop first lines.now) (drop first done.now)) }
{
    for line in first..lines.len() {
        let Some(did) = done.get(line) else {
            return false;
        };
        if is_left(&lines[line], did, seat, txn, is_new) {
            return true;
        }
    }
    false
}

// Whether the transaction has not begun.
fn is_new<A: Handle>(point: &Point<A>, txn: TxnId) -> bool
    ensures { result ≡ is_new (status_in point.now.state txn.0) }
{
    matches!(point.machine().status(txn), Status::NotBegun)
}

// The transaction for which the event waits at the point, if it is refused.
fn event_waits<A: Handle>(point: &Point<A>, event: &Event<A>) -> Result<Option<TxnId>, AllocError>
    ensures { IfOk result (λ found. IfSome found (EventWaits point.now event.now)) }
{
    let Some(reason) = point.machine().why(event)? else {
        return Ok(None);
    };
    match waited_for(reason) {
        Some(txn) => Ok(Some(txn)),
        None => Ok(None),
    }
}

// The transaction for which an alternative of a line waits.
fn alternative_waits<A: Handle>(
    alloc: A,
    plan: &Plan<'_, A>,
    point: &Point<A>,
    line: usize,
    alternative: usize,
) -> Result<Option<TxnId>, AllocError>
    ensures { IfOk result (λ found. IfSome found (AlternativeWaits plan.now point.now line alternative)) }
{
    let Some(event) = plan.event_at(alloc, point, line, alternative)? else {
        return Ok(None);
    };
    match event_waits(point, &event)? {
        Some(txn) => Ok(Some(txn)),
        None => Ok(None),
    }
}

// Adds the transactions for which a seat waits. `done` is what each line did.
fn push_waits<A: Handle>(
    alloc: A,
    plan: &Plan<'_, A>,
    done: &[Option<Done>],
    point: &Point<A>,
    seat: u8,
    waits: &mut Vec<SeatWait, A>,
) -> Result<(), AllocError>
    requires done { done.now ≡ lines_done plan.now point.now.steps }
    requires waits { AreWaits plan.now point.now waits.old.items }
    ensures { OnOk result (AreWaits plan.now point.now waits.new.items) }
{
    let Some(line) = plan.next_line(done, seat) else {
        return Ok(());
    };
    for alternative in 0..plan.alternatives_at(line) {
        let Some(txn) = alternative_waits(alloc, plan, point, line, alternative)? else {
            continue;
        };
        waits.push(SeatWait { seat, line, txn })?;
    }
    Ok(())
}

// The transactions for which seats wait.
fn waits<A: Handle>(
    alloc: A,
    plan: &Plan<'_, A>,
    done: &[Option<Done>],
    point: &Point<A>,
) -> Result<Vec<SeatWait, A>, AllocError>
    requires { done.now ≡ lines_done plan.now point.now.steps }
    ensures { IfOk result (λ waits. AreWaits plan.now point.now waits.items) }
{
    let mut waits = Vec::new(alloc);
    for seat in plan.seats() {
        push_waits(alloc, plan, done, point, *seat, &mut waits)?;
    }
    Ok(waits)
}

// The first position of the lines of `next` for which the waiting seat can wait.
fn first_for(wait: SeatWait, next: u8) -> Option<usize>
    ensures { IfSome result (λ first. first ≡ first_for wait.seat wait.line next) }
{
    if wait.seat != next {
        return Some(0);
    }
    wait.line.checked_add(1)
}

// A link to the seat, if the wait is for it. `done` is what each line did.
fn link_to<A: Handle>(
    plan: &Plan<'_, A>,
    done: &[Option<Done>],
    point: &Point<A>,
    wait: SeatWait,
    next: u8,
) -> Option<Link>
    requires done { done.now ≡ lines_done plan.now point.now.steps }
    requires wait { SeatWaits plan.now point.now wait.seat wait.line wait.txn }
    ensures { IfSome result (λ link. WaitsForSeat plan.now point.now link.seat link.next) }
{
    let first = first_for(wait, next)?;
    let is_new = is_new(point, wait.txn);
    if !has_left(plan.lines(), done, first, next, wait.txn, is_new) {
        return None;
    }
    Some(Link {
        seat: wait.seat,
        next,
    })
}

// Adds a link to each seat that the wait is for. `done` is what each line did.
fn push_links<A: Handle>(
    plan: &Plan<'_, A>,
    done: &[Option<Done>],
    point: &Point<A>,
    wait: SeatWait,
    links: &mut Vec<Link, A>,
) -> Result<(), AllocError>
    requires done { done.now ≡ lines_done plan.now point.now.steps }
    requires wait { SeatWaits plan.now point.now wait.seat wait.line wait.txn }
    requires links { AreLinks plan.now point.now links.old.items }
    ensures { OnOk result (AreLinks plan.now point.now links.new.items) }
{
    for next in plan.seats() {
        let Some(link) = link_to(plan, done, point, wait, *next) else {
            continue;
        };
        links.push(link)?;
    }
    Ok(())
}

// The links from each waiting seat to the seats for which it waits.
fn links<A: Handle>(
    alloc: A,
    plan: &Plan<'_, A>,
    point: &Point<A>,
) -> Result<Vec<Link, A>, AllocError>
    ensures { IfOk result (λ links. AreLinks plan.now point.now links.items) }
{
    let done = plan.lines_done(alloc, point.steps())?;
    let waits = waits(alloc, plan, done.as_slice(), point)?;
    let mut links = Vec::new(alloc);
    for wait in &waits {
        push_links(plan, done.as_slice(), point, *wait, &mut links)?;
    }
    Ok(links)
}

// Whether the first seat waits for the second.
fn is_linked(links: &[Link], seat: u8, next: u8) -> bool
    ensures { result ≡ is_linked links.now seat next }
{
    links
        .iter()
        .any(|link| link.seat == seat && link.next == next)
}

// Whether each seat waits for the next.
fn is_chain(links: &[Link], chain: &[u8]) -> bool
    ensures { result ≡ true → IsChain links.now chain.now }
{
    for k in 1..chain.len() {
        if !is_linked(links, chain[k - 1], chain[k]) {
            return false;
        }
    }
    true
}

// Whether the chain has at least two seats, and both the first and the last is this seat.
fn is_closed(chain: &[u8], seat: u8) -> bool
    ensures long { result ≡ true → 2 ≤ length chain.now }
    ensures begins { result ≡ true → BeginsWith seat chain.now }
    ensures closed { result ≡ true → get_or chain.now (length chain.now - 1) 0 ≡ get_or chain.now 0 0 }
{
    chain.len() >= 2 && chain[0] == seat && chain[chain.len() - 1] == seat
}

// Adds the seats for which the seat at this place waits, unless the search has reached them.
fn reach<A: Allocator>(
    links: &[Link],
    place: usize,
    seat: u8,
    reached: &mut Vec<Reached, A>,
) -> Result<(), AllocError> {
    for link in links {
        let next = link.next;
        if link.seat != seat || reached.iter().any(|other| other.seat == next) {
            continue;
        }
        reached.push(Reached {
            seat: next,
            from: place,
        })?;
    }
    Ok(())
}

// The seats by which the search reached the seat at this place, from the first on, followed by the first again.
fn way_by<A: Allocator>(
    alloc: A,
    reached: &[Reached],
    place: usize,
    seat: u8,
) -> Result<Vec<u8, A>, AllocError> {
    let mut way = Vec::new(alloc);
    way.push(seat)?;
    let mut place = place;
    for _ in 0..MOST_SEATS {
        let Some(at) = reached.get(place) else {
            break;
        };
        way.push(at.seat)?;
        if place == 0 {
            break;
        }
        place = at.from;
    }
    way.reverse();
    Ok(way)
}

// A shortest chain of seats from this seat back to it, each of which waits for the next; empty if there is none.
fn cycle_back_to<A: Handle>(alloc: A, links: &[Link], seat: u8) -> Result<Vec<u8, A>, AllocError> {
    let mut reached = Vec::new(alloc);
    reached.push(Reached { seat, from: 0 })?;
    // (the search reaches each seat once)
    for place in 0..MOST_SEATS {
        let Some(at) = reached.get(place) else {
            break;
        };
        let at = at.seat;
        if is_linked(links, at, seat) {
            return way_by(alloc, reached.as_slice(), place, seat);
        }
        reach(links, place, at, &mut reached)?;
    }
    Ok(Vec::new(alloc))
}

/// A deadlock: seats from `seat` back to `seat`, each of which waits for the next. A seat waits for another if the machine
/// refuses an alternative of its next line until some transaction begins, commits or aborts, and the other seat still has a
/// line by which that transaction acts or starts. Both can be the same seat, which then waits for a later line of its own.
/// The search looks for a shortest cycle. `None` if it finds none.
pub fn deadlock<A: Handle>(
    alloc: A,
    plan: &Plan<'_, A>,
    point: &Point<A>,
    seat: u8,
) -> Result<Option<Vec<u8, A>>, AllocError>
    ensures circle { IfOk result (λ found. IfSome found (λ chain. IsCycle plan.now point.now chain.items)) }
    ensures start { IfOk result (λ found. IfSome found (λ chain. BeginsWith seat chain.items)) }
{
    let links = links(alloc, plan, point)?;
    let chain = cycle_back_to(alloc, links.as_slice(), seat)?;
    if is_closed(chain.as_slice(), seat) && is_chain(links.as_slice(), chain.as_slice()) {
        Ok(Some(chain))
    } else {
        Ok(None)
    }
}
