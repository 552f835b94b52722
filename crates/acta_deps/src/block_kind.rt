ghost use Rattle.std.specs.Prelude.{◌≡◌};
ghost use Rattle.acta_deps.specs.Deps.{status_of};
ghost use Rattle.acta_deps.specs.Statuses.{has_begun, is_decided};
ghost use Rattle.acta_deps.specs.Dependencies.{awaits_begin, awaits_end, awaits_commit, awaits_abort, ends_after, committed_first, began_first, cannot_pay_commit, cannot_pay_abort};
ghost use Rattle.acta_deps.specs.inside.BlockKinds.{blocks};

use crate::debt::{is_abort, is_commit};
use crate::deps::Deps;
use acta_table::{Dep, Edge, Status, TxnId};
use std::alloc::Allocator;

/// The ways in which one edge can block an event. Each is a test of the edge and the statuses of its transactions.
#[derive(Clone, Copy)]
pub(crate) enum BlockKind {
    AwaitsBegin,
    AwaitsEnd,
    AwaitsCommit,
    AwaitsAbort,
    EndsAfter,
    CommittedFirst,
    BeganFirst,
    CannotPayCommit,
    CannotPayAbort,
    OwesCommit,
    OwesAbort,
}

fn has_begun(s: Status) -> bool
    ensures { result ≡ has_begun s }
{
    !matches!(s, Status::NotBegun)
}

fn is_decided(s: Status) -> bool
    ensures { result ≡ is_decided s }
{
    matches!(s, Status::Committed | Status::Aborted)
}

fn awaits_begin(kind: Dep, i: Status) -> bool
    ensures { result ≡ awaits_begin kind i }
{
    match kind {
        Dep::Bd => !has_begun(i),
        _ => false,
    }
}

fn awaits_end(kind: Dep, i: Status) -> bool
    ensures { result ≡ awaits_end kind i }
{
    match kind {
        Dep::Sd => !is_decided(i),
        _ => false,
    }
}

fn awaits_commit(kind: Dep, i: Status) -> bool
    ensures { result ≡ awaits_commit kind i }
{
    match kind {
        Dep::Bcd => !matches!(i, Status::Committed),
        _ => false,
    }
}

fn awaits_abort(kind: Dep, i: Status) -> bool
    ensures { result ≡ awaits_abort kind i }
{
    match kind {
        Dep::Bad => !matches!(i, Status::Aborted),
        _ => false,
    }
}

fn ends_after(kind: Dep, i: Status) -> bool
    ensures { result ≡ ends_after kind i }
{
    match kind {
        Dep::Td => !is_decided(i),
        _ => false,
    }
}

fn committed_first(kind: Dep, j: Status) -> bool
    ensures { result ≡ committed_first kind j }
{
    match kind {
        Dep::Cd => matches!(j, Status::Committed),
        _ => false,
    }
}

fn began_first(kind: Dep, j: Status) -> bool
    ensures { result ≡ began_first kind j }
{
    match kind {
        Dep::Wcd => has_begun(j),
        _ => false,
    }
}

fn cannot_pay_commit(kind: Dep, j: Status) -> bool
    ensures { result ≡ cannot_pay_commit kind j }
{
    match kind {
        Dep::Scd => matches!(j, Status::Aborted | Status::Joined),
        Dep::Ed => matches!(j, Status::Committed | Status::Joined),
        _ => false,
    }
}

fn cannot_pay_abort(kind: Dep, j: Status) -> bool
    ensures { result ≡ cannot_pay_abort kind j }
{
    match kind {
        Dep::Ad => matches!(j, Status::Committed | Status::Joined),
        Dep::Wd => matches!(j, Status::Joined),
        Dep::Cmd => matches!(j, Status::Aborted | Status::Joined),
        _ => false,
    }
}

impl<A: Allocator> Deps<A> {
    /// Whether the edge blocks an event of `t` in this way.
    pub(crate) fn is_blocked(&self, block_kind: BlockKind, t: TxnId, e: &Edge) -> bool
        ensures { result ≡ blocks block_kind (status_of self.now) t.0 e.now }
    {
        let is_j = e.j.0 == t.0;
        let is_i = e.i.0 == t.0;
        match block_kind {
            BlockKind::AwaitsBegin => is_j && awaits_begin(e.kind, self.status(e.i)),
            BlockKind::AwaitsEnd => is_j && awaits_end(e.kind, self.status(e.i)),
            BlockKind::AwaitsCommit => is_j && awaits_commit(e.kind, self.status(e.i)),
            BlockKind::AwaitsAbort => is_j && awaits_abort(e.kind, self.status(e.i)),
            BlockKind::EndsAfter => is_j && ends_after(e.kind, self.status(e.i)),
            BlockKind::CommittedFirst => is_i && committed_first(e.kind, self.status(e.j)),
            BlockKind::BeganFirst => is_i && began_first(e.kind, self.status(e.j)),
            BlockKind::CannotPayCommit => is_i && cannot_pay_commit(e.kind, self.status(e.j)),
            BlockKind::CannotPayAbort => is_i && cannot_pay_abort(e.kind, self.status(e.j)),
            BlockKind::OwesCommit => is_j && is_commit(self.debt(e)),
            BlockKind::OwesAbort => is_j && is_abort(self.debt(e)),
        }
    }
}
