ghost use Rattle.std.specs.Prelude.{◌≡◌, ◌<◌, ℕ, true, false, [], length, map, get_or, option_map, min, max, IfErr, IfOk, IfSome, OnOk};
ghost use Rattle.acta_values.specs.KeptValues.{kinds_of};
ghost use Rattle.acta_order.specs.Earlier.{limit};
ghost use Rattle.acta_order.specs.Memos.{IsKnown, IsKept, IsFoundOrOver};
ghost use Rattle.acta_order.specs.Orders.{is_in, AreDistinct, numbers_of};
ghost use Rattle.acta_order.specs.Faults.{AreFew, HasRoom, IsSearchFault};
ghost use Rattle.acta_order.specs.Search.{AreInTurn, AreSound, IsFoundNext, IsFound, at, values_at, values_of};

use crate::earlier::Earlier;
use crate::fault::OrderFault;
use crate::item::Item;
use crate::longest::Longest;
use crate::memo::Memo;
use crate::packed::packed;
use crate::path::Path;
use crate::replay::Replay;
use acta_axioms::Groups;
use acta_table::{Model, TxnId};
use std::alloc::{AllocError, Allocator};

/// The transaction at a position, or 0 after the last.
pub(crate) fn at(ts: &[usize], j: usize) -> usize
    ensures { result ≡ at ts.now j }
{
    match ts.get(j) {
        Some(t) => *t,
        None => 0,
    }
}

/// The transactions at these positions.
pub(crate) fn listed<A: Allocator + Copy>(
    alloc: A,
    ts: &[usize],
    taken: &[usize],
) -> Result<Vec<TxnId, A>, AllocError>
    requires within { (j : ℕ) → is_in taken.now j ≡ true → j < length ts.now }
    requires low { (t : ℕ) → is_in ts.now t ≡ true → t < 65536 }
    ensures { IfOk result (λ order. numbers_of order.items ≡ map (at ts.now) taken.now) }
{
    let mut order = Vec::with_capacity(alloc, taken.len())?;
    for j in taken {
        order.push(TxnId(at(ts, *j) as u16))?;
    }
    Ok(order)
}

// The larger of two numbers.
fn larger(a: usize, b: usize) -> usize
    ensures { result ≡ max a b }
{
    if a < b { b } else { a }
}

// The smaller of two numbers.
fn smaller(a: usize, b: usize) -> usize
    ensures { result ≡ min a b }
{
    if a < b { a } else { b }
}

// Finds the first position from `from` on that can be placed next, and does its group. It isn't placed, all transactions
// that have to be before it are, and its group gives the recorded returns. All positions below `low` are placed.
fn next_fitting<A: Allocator + Copy>(
    ts: &[usize],
    groups: &Groups<Item, A>,
    earlier: &Earlier<A>,
    path: &Path<A>,
    replay: &mut Replay<A>,
    low: usize,
    from: usize,
) -> Result<Option<usize>, AllocError>
    requires size { path.now.size ≡ length ts.now }
    requires sound { AreSound replay.old.kinds (λ t. get_or groups.now t []) ts.now }
    requires room { HasRoom replay.old (λ t. get_or groups.now t []) ts.now path.now.stack }
    ensures { IfOk result (IsFoundNext A replay.old replay.new (λ t. get_or groups.now t []) (limit earlier.now) ts.now path.now.stack low from) }
{
    for c in from..ts.len() {
        let t = at(ts, c);
        if !path.has(c) && earlier.of(t) <= low && replay.play(groups.of(t))?.is_none() {
            return Ok(Some(c));
        }
    }
    Ok(None)
}

// Whether the state is remembered.
fn is_known<A: Allocator + Copy>(
    alloc: A,
    memo: &Memo<A>,
    path: &Path<A>,
    replay: &Replay<A>,
) -> Result<bool, AllocError>
    ensures { IfOk result (λ yes. yes ≡ true → IsKnown (values_at {A = A} replay.now.kinds []) path.now.size memo.now path.now.stack (values_of {A = A} replay.now)) }
{
    if memo.is_empty() {
        return Ok(false);
    }
    let Some(words) = packed(alloc, path.marks())? else {
        return Ok(false);
    };
    let changes = replay.changes(alloc)?;
    match words.split_first() {
        Some((word, rest)) => memo.has(alloc, *word, rest, &changes),
        None => Ok(false),
    }
}

// Remembers the state. A leaf is not remembered, since trying it again costs no more than finding it: from a leaf no
// position was placed, or it was found remembered already.
fn remember<A: Allocator + Copy>(
    alloc: A,
    memo: &mut Memo<A>,
    path: &Path<A>,
    replay: &Replay<A>,
    is_leaf: bool,
) -> Result<(), AllocError>
    ensures { OnOk result (IsKept (values_at {A = A} replay.now.kinds []) path.now.size memo.old memo.new path.now.stack (values_of {A = A} replay.now)) }
{
    if is_leaf {
        return Ok(());
    }
    let Some(words) = packed(alloc, path.marks())? else {
        return Ok(());
    };
    let changes = replay.changes(alloc)?;
    match words.split_first() {
        Some((word, rest)) => memo.put(alloc, *word, Vec::from_slice(alloc, rest)?, changes),
        None => Ok(()),
    }
}

// The same as `next_fitting`, but `None` too if the search has just come to the state and remembers it.
fn next_new<A: Allocator + Copy>(
    alloc: A,
    ts: &[usize],
    groups: &Groups<Item, A>,
    earlier: &Earlier<A>,
    memo: &Memo<A>,
    path: &Path<A>,
    replay: &mut Replay<A>,
    low: usize,
    from: usize,
    is_new: bool,
) -> Result<Option<usize>, AllocError>
    requires size { path.now.size ≡ length ts.now }
    requires sound { AreSound replay.old.kinds (λ t. get_or groups.now t []) ts.now }
    requires room { HasRoom replay.old (λ t. get_or groups.now t []) ts.now path.now.stack }
    ensures { IfOk result (IsFoundOrOver A memo.now replay.old replay.new (λ t. get_or groups.now t []) (limit earlier.now) ts.now path.now.stack low from) }
{
    if is_new && is_known(alloc, memo, path, replay)? {
        return Ok(None);
    }
    let found = next_fitting(ts, groups, earlier, path, replay, low, from)?;
    Ok(found)
}

/// Searches depth first for an order of these transactions in which each group gives its recorded returns. The positions
/// are tried in ascending order, so that the transactions' own order is tried first. The search remembers each state from
/// which it found no order. It goes back from another state that places the same transactions and leaves the same values.
/// It notes the longest paths at which it turns back.
pub(crate) fn search<A: Allocator + Copy>(
    alloc: A,
    model: &Model<A>,
    ts: &[usize],
    groups: &Groups<Item, A>,
    earlier: &Earlier<A>,
    most_states: u64,
    longest: &mut Longest<A>,
) -> Result<Option<Path<A>>, OrderFault>
    requires distinct { AreDistinct ts.now }
    requires sound { AreSound (kinds_of model.now.objects) (λ t. get_or groups.now t []) ts.now }
    requires in_turn { AreInTurn (limit earlier.now) ts.now }
    requires few { AreFew (λ t. get_or groups.now t []) }
    ensures size { IfOk result (λ found. IfSome found (λ path. path.size ≡ length ts.now)) }
    ensures found { IfOk result (λ found. IsFound (values_at {A = A} (kinds_of model.now.objects) []) (λ t. get_or groups.now t []) (limit earlier.now) ts.now (option_map (λ path. path.stack) found)) }
    ensures fault { IfErr result (IsSearchFault (values_at {A = A} (kinds_of model.now.objects) []) (λ t. get_or groups.now t []) (limit earlier.now) ts.now most_states) }
{
    let mut path = Path::new(alloc, ts.len())?;
    let mut replay = Replay::new(alloc, model.objects())?;
    let mut memo = Memo::new(alloc);
    let mut low = 0;
    let mut next = 0;
    let mut states = 0u64;
    while states < most_states {
        low = path.first_open(low);
        if low >= ts.len() {
            return Ok(Some(path));
        }
        let from = larger(next, low);
        match next_new(
            alloc,
            ts,
            groups,
            earlier,
            &memo,
            &path,
            &mut replay,
            low,
            from,
            next == 0,
        )? {
            Some(c) => {
                path.push(c)?;
                states += 1;
                next = 0;
            }
            None => {
                longest.note(&path, next == 0)?;
                remember(alloc, &mut memo, &path, &replay, next == 0)?;
                let Some(c) = path.pop() else {
                    return Ok(None);
                };
                let len = groups.of(at(ts, c)).len();
                replay.cut(replay.len() - len);
                low = smaller(low, c);
                next = c + 1;
            }
        }
    }
    Err(OrderFault::TooMany)
}
