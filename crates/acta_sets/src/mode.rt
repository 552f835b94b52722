ghost use Rattle.std.specs.Prelude.{◌≡◌, ◌<◌, ◌^◌, true, IfSome};
ghost use Rattle.acta_sets.specs.inside.Modes as modes;

use acta_table::Op;

/// The lock mode of an operation on an object. Operations in the same mode conflict with the same operations. An
/// operation has at most two modes, a coarse one and a fine one.
#[derive(Clone, Copy, PartialEq, Eq, Hash, Debug)]
pub(crate) enum LockMode {
    /// Every `read`.
    Reads,
    /// Every `write`.
    Writes,
    /// Every `write` of this value.
    WritesOf(i32),
    /// Every `get`.
    Gets,
    /// Every `add` of an amount other than 0.
    Adds,
    /// Every `size`.
    Sizes,
    /// Every `insert` and every `remove`.
    Changes,
    /// Every `insert` and every `remove` of this element.
    ChangesOf(i32),
    /// Every `has` of this element.
    Tests(i32),
}

/// Whose operations a mode key counts.
#[derive(Clone, Copy, PartialEq, Eq, Hash, Debug)]
pub(crate) enum Holder {
    /// Those of all transactions.
    Anyone,
    /// Those of the transaction with this number.
    Txn(u16),
}

/// The key under which operations are counted or listed: holder, object and mode.
#[derive(Clone, Copy, PartialEq, Eq, Hash, Debug)]
pub(crate) struct ModeKey {
    pub holder: Holder,
    pub ob: u16,
    pub mode: LockMode,
}

/// The number of coarse modes.
pub(crate) const COARSE_MODES: usize = 6;

// The rank of a coarse mode among them, or `None` for a fine one.
fn rank(mode: LockMode) -> Option<usize>
    ensures { result ≡ modes.rank mode }
{
    match mode {
        LockMode::Reads => Some(0),
        LockMode::Writes => Some(1),
        LockMode::Gets => Some(2),
        LockMode::Adds => Some(3),
        LockMode::Sizes => Some(4),
        LockMode::Changes => Some(5),
        LockMode::WritesOf(_) | LockMode::ChangesOf(_) | LockMode::Tests(_) => None,
    }
}

/// The place of the mode on the object among the coarse modes of all objects, or `None` for a fine mode.
pub(crate) fn coarse_place(ob: u16, mode: LockMode) -> Option<usize>
    ensures place { result ≡ modes.coarse_place ob mode }
    ensures small { IfSome result (λ place. place < 2 ^ 32) }
{
    match rank(mode) {
        Some(rank) => Some(COARSE_MODES * ob as usize + rank),
        None => None,
    }
}

/// The coarse mode of an operation, which it shares with all of its sort. A `has` and an `add` of 0 have none.
pub(crate) fn coarse(op: &Op) -> Option<LockMode>
    ensures mode { result ≡ modes.coarse op.now }
    ensures coarse { modes.IsCoarse result }
{
    match op {
        Op::Read => Some(LockMode::Reads),
        Op::Write(_) => Some(LockMode::Writes),
        Op::Get => Some(LockMode::Gets),
        Op::Add(amount) => {
            if *amount == 0 {
                None
            } else {
                Some(LockMode::Adds)
            }
        }
        Op::Insert(_) | Op::Remove(_) => Some(LockMode::Changes),
        Op::Has(_) => None,
        Op::Size => Some(LockMode::Sizes),
    }
}

/// The fine mode of an operation, which depends on its value. An operation without a value has none.
pub(crate) fn fine(op: &Op) -> Option<LockMode>
    ensures { result ≡ modes.fine op.now }
{
    match op {
        Op::Write(value) => Some(LockMode::WritesOf(*value)),
        Op::Insert(element) | Op::Remove(element) => Some(LockMode::ChangesOf(*element)),
        Op::Has(element) => Some(LockMode::Tests(*element)),
        _ => None,
    }
}

/// The fine mode under which an operation is listed. Writes of a value are counted but not listed, since no search
/// needs the first.
pub(crate) fn listed_fine(op: &Op) -> Option<LockMode>
    ensures { result ≡ modes.listed_fine op.now }
{
    match op {
        Op::Insert(element) | Op::Remove(element) => Some(LockMode::ChangesOf(*element)),
        Op::Has(element) => Some(LockMode::Tests(*element)),
        _ => None,
    }
}

// Whether the two modes are the same, or both `None`.
fn is_same(a: Option<LockMode>, b: Option<LockMode>) -> bool
    ensures { result ≡ true → a ≡ b }
{
    match (a, b) {
        (Some(a), Some(b)) => a == b,
        (None, None) => true,
        _ => false,
    }
}

/// Whether two operations have the same modes.
pub(crate) fn are_equivalent(p: &Op, q: &Op) -> bool
    ensures coarse { result ≡ true → modes.coarse p.now ≡ modes.coarse q.now }
    ensures fine { result ≡ true → modes.fine p.now ≡ modes.fine q.now }
{
    p == q || is_same(coarse(p), coarse(q)) && is_same(fine(p), fine(q))
}
