ghost use Rattle.std.specs.Prelude.{◌≡◌, Some, map, if◌then◌else◌};
ghost use Rattle.std.specs.Option.{option_or};
ghost use Rattle.acta_table.specs.Numbered.{first_number};
ghost use Rattle.acta_table.specs.Refusals.{broken_by};
ghost use Rattle.acta_deps.specs.Deps.{status_of};
ghost use Rattle.acta_deps.specs.inside.BlockKinds.{blocks, party};
ghost use Rattle.acta_deps.specs.inside.Changes.{refusal_upon};
ghost use Rattle.acta_deps.specs.Dependencies.{commit_order, weak_begin, unpayable_commit, start_refusal, commit_refusal, abort_refusal, join_refusal};

use crate::block_kind::BlockKind;
use crate::clash::Change;
use crate::deps::Deps;
use crate::places::Places;
use acta_table::{Refusal, Rule, Status, TxnId};
use std::alloc::Allocator;

/// The place if the test is true, otherwise the one that was found at a later place.
pub(crate) fn or_here(test: bool, place: u16, behind: Option<u32>) -> Option<u32>
    ensures { result ≡ (if test then Some place else behind) }
{
    if test { Some(u32::from(place)) } else { behind }
}

impl<A: Allocator> Deps<A> {
    // The transactions that edges can block in this way, by edge number.
    fn parties(&self, block_kind: BlockKind) -> &Places<A>
        ensures { result.now ≡ map (party block_kind) self.now.edges }
    {
        match block_kind {
            BlockKind::CommittedFirst
            | BlockKind::BeganFirst
            | BlockKind::CannotPayCommit
            | BlockKind::CannotPayAbort => { self.by_i() }
            _ => self.by_j(),
        }
    }

    // The number of the first edge that blocks `t` in this way.
    fn first_blocking(&self, block_kind: BlockKind, t: TxnId) -> Option<u32>
        ensures { result ≡ first_number (blocks block_kind (status_of self.now) t.0) self.now.edges }
    {
        let parties = self.parties(block_kind);
        let edges = self.edges();
        let mut place = parties.last(t);
        let mut first = None;
        while place > 0 {
            let e = &edges[place as usize - 1];
            first = or_here(self.is_blocked(block_kind, t, e), place, first);
            place = parties.before(place);
        }
        first
    }

    // The rule, if an edge blocks `t` in this way, with the first such edge.
    fn broken(&self, rule: Rule, block_kind: BlockKind, t: TxnId) -> Option<Refusal>
        ensures { result ≡ broken_by rule (first_number (blocks block_kind (status_of self.now) t.0) self.now.edges) }
    {
        match self.first_blocking(block_kind, t) {
            Some(number) => Some(Refusal::by(rule, number)),
            None => None,
        }
    }
}

// For each rule, the first edge whose dependent keeps `t` from committing.
#[derive(Clone, Copy)]
struct Later {
    order: Option<u32>,
    begun: Option<u32>,
    unpayable: Option<u32>,
}

// The rule, if there is a number for it.
fn broken_by(rule: Rule, number: Option<u32>) -> Option<Refusal>
    ensures { result ≡ broken_by rule number }
{
    match number {
        Some(number) => Some(Refusal::by(rule, number)),
        None => None,
    }
}

impl<A: Allocator> Deps<A> {
    // For each rule, the first edge whose dependent keeps `t` from committing.
    fn later(&self, t: TxnId) -> Later
        ensures order { result.order ≡ first_number (blocks BlockKind.CommittedFirst (status_of self.now) t.0) self.now.edges }
        ensures begun { result.begun ≡ first_number (blocks BlockKind.BeganFirst (status_of self.now) t.0) self.now.edges }
        ensures unpayable { result.unpayable ≡ first_number (blocks BlockKind.CannotPayCommit (status_of self.now) t.0) self.now.edges }
    {
        let parties = self.parties(BlockKind::CommittedFirst);
        let edges = self.edges();
        let mut place = parties.last(t);
        let mut order = None;
        let mut begun = None;
        let mut unpayable = None;
        while place > 0 {
            let e = &edges[place as usize - 1];
            order = or_here(
                self.is_blocked(BlockKind::CommittedFirst, t, e),
                place,
                order,
            );
            begun = or_here(self.is_blocked(BlockKind::BeganFirst, t, e), place, begun);
            unpayable = or_here(
                self.is_blocked(BlockKind::CannotPayCommit, t, e),
                place,
                unpayable,
            );
            place = parties.before(place);
        }
        Later {
            order,
            begun,
            unpayable,
        }
    }

    // The lowest rule that the commit of `t` would break by an edge that depends on `t`.
    #[tactic(auto, unfolding(crate::specs::Dependencies::commit_order, crate::specs::Dependencies::weak_begin, crate::specs::Dependencies::unpayable_commit))]
    fn broken_by_later(&self, t: TxnId) -> Option<Refusal>
        ensures { result ≡ option_or (option_or (commit_order (status_of self.now) self.now.edges t.0) (weak_begin (status_of self.now) self.now.edges t.0)) (unpayable_commit (status_of self.now) self.now.edges t.0) }
    {
        let later = self.later(t);
        let (order, begun, unpayable) = (later.order, later.begun, later.unpayable);
        broken_by(Rule::CommitOrder, order)
            .or_else(|| broken_by(Rule::WeakBegin, begun))
            .or_else(|| broken_by(Rule::Unpayable, unpayable))
    }
}

impl<A: Allocator> Deps<A> {
    /// Returns the lowest rule that the start of `t` would break, with the number of the first edge that breaks it, or
    /// for `Clash` the smallest transaction. `None` if it breaks none.
    #[tactic(auto, unfolding(crate::specs::Dependencies::start_refusal, crate::specs::Dependencies::begin_dep, crate::specs::Dependencies::serial_dep, crate::specs::Dependencies::begin_on_commit, crate::specs::Dependencies::begin_on_abort))]
    pub fn may_start(&self, t: TxnId) -> Option<Refusal>
        ensures { result ≡ start_refusal (status_of self.now) self.now.edges t.0 }
    {
        let change = Change {
            txn: t,
            status: Status::InProgress,
        };
        self.broken(Rule::BeginDep, BlockKind::AwaitsBegin, t)
            .or_else(|| self.broken(Rule::SerialDep, BlockKind::AwaitsEnd, t))
            .or_else(|| self.broken(Rule::BeginOnCommit, BlockKind::AwaitsCommit, t))
            .or_else(|| self.broken(Rule::BeginOnAbort, BlockKind::AwaitsAbort, t))
            .or_else(|| self.clash(change))
    }

    /// Returns the lowest rule that the commit of `t` would break, with the number of the first edge that breaks it, or
    /// for `Clash` the smallest transaction. `None` if it breaks none.
    #[tactic(auto, unfolding(crate::specs::Dependencies::commit_refusal, crate::specs::Dependencies::termination_dep, crate::specs::Dependencies::owing_abort), using(crate::proofs::Walks::or_assoc))]
    pub fn may_commit(&self, t: TxnId) -> Option<Refusal>
        ensures { result ≡ commit_refusal (status_of self.now) self.now.edges t.0 }
    {
        let change = Change {
            txn: t,
            status: Status::Committed,
        };
        self.broken(Rule::TerminationDep, BlockKind::EndsAfter, t)
            .or_else(|| self.broken(Rule::OwesAbort, BlockKind::OwesAbort, t))
            .or_else(|| self.broken_by_later(t))
            .or_else(|| self.clash(change))
    }

    /// Returns the lowest rule that the abort of `t` would break, with the number of the first edge that breaks it, or
    /// for `Clash` the smallest transaction. `None` if it breaks none.
    #[tactic(auto, unfolding(crate::specs::Dependencies::abort_refusal, crate::specs::Dependencies::termination_dep, crate::specs::Dependencies::owing_commit, crate::specs::Dependencies::unpayable_abort))]
    pub fn may_abort(&self, t: TxnId) -> Option<Refusal>
        ensures { result ≡ abort_refusal (status_of self.now) self.now.edges t.0 }
    {
        let change = Change {
            txn: t,
            status: Status::Aborted,
        };
        self.broken(Rule::TerminationDep, BlockKind::EndsAfter, t)
            .or_else(|| self.broken(Rule::OwesCommit, BlockKind::OwesCommit, t))
            .or_else(|| self.broken(Rule::Unpayable, BlockKind::CannotPayAbort, t))
            .or_else(|| self.clash(change))
    }

    /// Returns the lowest rule that `t` would break by joining another, with the number of the first edge that breaks
    /// it. `None` if it breaks none.
    #[tactic(auto, unfolding(crate::specs::Dependencies::join_refusal, crate::specs::Dependencies::owing_abort, crate::specs::Dependencies::owing_commit))]
    pub fn may_join(&self, t: TxnId) -> Option<Refusal>
        ensures { result ≡ join_refusal (status_of self.now) self.now.edges t.0 }
    {
        let owing_abort = self.broken(Rule::OwesAbort, BlockKind::OwesAbort, t);
        owing_abort.or_else(|| self.broken(Rule::OwesCommit, BlockKind::OwesCommit, t))
    }

    // The lowest rule that the change would break.
    pub(crate) fn refusal(&self, change: Change) -> Option<Refusal>
        ensures { result ≡ refusal_upon (status_of self.now) self.now.edges change }
    {
        match change.status {
            Status::NotBegun => None,
            Status::InProgress => self.may_start(change.txn),
            Status::Committed => self.may_commit(change.txn),
            Status::Aborted => self.may_abort(change.txn),
            Status::Joined => self.may_join(change.txn),
        }
    }
}
