ghost use Rattle.std.specs.Prelude.{◌≡◌, ◌<◌, ◌≤◌, true, false, [], length, replicate, get_or, option_map, IfErr, IfOk, MatchOption};
ghost use Rattle.std.specs.List.{list_all};
ghost use Rattle.acta_axioms.specs.Serial.{committed_by};
ghost use Rattle.acta_values.specs.KeptValues.{kinds_of};
ghost use Rattle.acta_order.specs.Answers.{IsAnswer};
ghost use Rattle.acta_order.specs.Blocks.{HasUnsound, HasUnsoundGroup};
ghost use Rattle.acta_order.specs.Commits.{AreCommits};
ghost use Rattle.acta_order.specs.Orders.{IsFault};
ghost use Rattle.acta_order.specs.Search.{AreSound, is_sound};

use crate::dead_end::{DeadEnd, dead_ends};
use crate::earlier::Earlier;
use crate::fault::OrderFault;
use crate::groups::grouped;
use crate::item::Item;
use crate::longest::Longest;
use crate::orders::Orders;
use crate::path::Path;
use crate::search::{at, listed, search};
use acta_axioms::{Groups, Handle};
use acta_objects::is_of_kind;
use acta_table::{Event, Items, Kept, MOST_EVENTS, Model, OpNo, TxnId};
use std::alloc::{AllocError, Allocator};

/// The answer of a search for a serial order.
#[derive(Drop)]
pub enum Order<A: Allocator> {
    /// A serial order of the committed transactions.
    Found(Items<TxnId, A>),
    /// No order of the committed transactions is serial; why.
    NoOrder(Cause<A>),
}

/// Why no order is serial.
#[derive(Drop)]
pub enum Cause<A: Allocator> {
    /// The number of an operation of a committed transaction that can't be replayed.
    Unsound(OpNo),
    /// Some of the longest fronts of an order after which no transaction can be placed next.
    DeadEnds(Items<DeadEnd<A>, A>),
}

// The transaction that the event commits.
fn committed_by<A: Allocator>(event: &Event<A>) -> Option<TxnId>
    ensures { option_map (λ t. t.0) result ≡ committed_by event.now }
{
    match event {
        Event::Commit(t) => Some(*t),
        _ => None,
    }
}

// The transactions that commit, each once, in the order of their first commits. Counts for each transaction how many of them
// commit before its first event.
fn committed<A: Allocator + Copy>(
    alloc: A,
    kept: &[Kept<A>],
    earlier: &mut Earlier<A>,
) -> Result<Path<A>, AllocError>
    requires few { length kept.now ≤ MOST_EVENTS }
    requires fresh { earlier.old.counts ≡ replicate 65536 65536 }
    ensures commits { IfOk result (λ path. AreCommits kept.now path.stack earlier.new.counts) }
    ensures size { IfOk result (λ path. path.size ≡ 65536) }
    ensures orders { earlier.new.orders ≡ earlier.old.orders }
{
    let mut path = Path::new(alloc, 65_536)?;
    for k in kept {
        earlier.note(&k.event, path.count());
        if let Some(t) = committed_by(&k.event) {
            let t = usize::from(t.0);
            if !path.has(t) {
                path.push(t)?;
            }
        }
    }
    Ok(path)
}

// Whether the operation can be replayed: its object exists and has its kind, and a return is recorded.
fn is_sound<A: Allocator>(model: &Model<A>, item: &Item) -> bool
    ensures { result ≡ is_sound (kinds_of model.now.objects) item.now }
{
    match model.object(item.ob) {
        Some(object) => is_of_kind(&object.kind, &item.op) && item.ret.is_some(),
        None => false,
    }
}

// The number of the first of these operations that can't be replayed.
fn unsound_in<A: Allocator>(model: &Model<A>, items: &[Item]) -> Option<OpNo>
    ensures { MatchOption result (list_all (is_sound (kinds_of model.now.objects)) items.now ≡ true) (HasUnsound (kinds_of model.now.objects) items.now) }
{
    for item in items {
        if !is_sound(model, item) {
            return Some(item.number);
        }
    }
    None
}

// The number of an operation that can't be replayed: the first one of the first transaction that has such operations.
fn first_unsound<A: Allocator + Copy>(
    model: &Model<A>,
    ts: &[usize],
    groups: &Groups<Item, A>,
) -> Option<OpNo>
    ensures { MatchOption result (AreSound (kinds_of model.now.objects) (λ t. get_or groups.now t []) ts.now) (HasUnsoundGroup (kinds_of model.now.objects) (λ t. get_or groups.now t []) ts.now) }
{
    for j in 0..ts.len() {
        if let Some(number) = unsound_in(model, groups.of(at(ts, j))) {
            return Some(number);
        }
    }
    None
}

/// Searches for a serial order of a list of kept events: an order of the committed transactions in which a replay of
/// their committed operations gives each recorded return. The list need not be legal. A transaction's operations are
/// those that it held last. An operation can't be replayed if its object doesn't exist or has another kind, or if no
/// return is recorded; then no order is serial.
///
/// If no order is serial, the answer says why: an operation that can't be replayed, or dead ends. A dead end is one of the
/// longest fronts that the search reached, with a block for each transaction that could be placed next. There are at most
/// three, possibly none.
///
/// The answer is the order of the commits, if that is serial and allowed by `orders`. `TooLong` is returned only for a list
/// of more than `MOST_EVENTS` events, `TooMany` only if there are more than `most_states` states: a state is a front of an
/// order in which each operation has its recorded return.
pub fn serial_order_of<A: Handle>(
    alloc: A,
    model: &Model<A>,
    kept: &[Kept<A>],
    orders: Orders,
    most_states: u64,
) -> Result<Order<A>, OrderFault>
    ensures answer { IfOk result (IsAnswer orders model.now kept.now) }
    ensures fault { IfErr result (IsFault orders model.now kept.now most_states) }
{
    if kept.len() > MOST_EVENTS {
        return Err(OrderFault::TooLong);
    }
    let mut earlier = Earlier::new(alloc, orders)?;
    let commits = committed(alloc, kept, &mut earlier)?;
    let _known = commits.first_open(0);
    let ts = commits.taken();
    let groups = grouped(alloc, model, kept)?;
    if let Some(number) = first_unsound(model, ts, &groups) {
        return Ok(Order::NoOrder(Cause::Unsound(number)));
    }
    let mut longest = Longest::new(alloc);
    match search(
        alloc,
        model,
        ts,
        &groups,
        &earlier,
        most_states,
        &mut longest,
    )? {
        Some(path) => {
            let _known = path.first_open(0);
            Ok(Order::Found(Items::of(listed(alloc, ts, path.taken())?)))
        }
        None => {
            let ends = dead_ends(alloc, model, ts, &groups, &earlier, &longest)?;
            Ok(Order::NoOrder(Cause::DeadEnds(ends)))
        }
    }
}
