ghost use Rattle.std.specs.Prelude.{◌≡◌, ◌≢◌, ◌<◌, ◌≤◌, ◌-◌, true, IsTrue, Some, None, min, length, slice_index_or, if◌then◌else◌};
ghost use Rattle.std.specs.List.{list_any};
ghost use Rattle.std.specs.Option.{option_map_or};
ghost use Rattle.acta_table.specs.declared.dep.Edge.{Edge};
ghost use Rattle.acta_deps.specs.Deps.{status_of};
ghost use Rattle.acta_deps.specs.Debts.{debt_of, owes_commit, owes_abort, owes_both, clashing};
ghost use Rattle.acta_deps.specs.Dependencies.{clash};
ghost use Rattle.acta_deps.specs.inside.BlockKinds.{owes, owes_by_kind, owes_upon, other_of, would_owe_both};
ghost use Rattle.acta_deps.specs.inside.Changes.{status_after};

use crate::debt::{debt_by, is_abort, is_commit};
use crate::deps::Deps;
use acta_table::{Dep, Edge, Missing, Refusal, Rule, Status, TxnId, lesser};
use std::alloc::Allocator;

/// A change of one transaction's status.
#[derive(Clone, Copy, PartialEq, Eq)]
pub(crate) struct Change {
    pub(crate) txn: TxnId,
    pub(crate) status: Status,
}

impl<A: Allocator> Deps<A> {
    // The status of `u` after the change.
    fn status_after(&self, change: Change, u: TxnId) -> Status
        ensures { result ≡ status_after self.now change u.0 }
    {
        if u.0 == change.txn.0 {
            change.status
        } else {
            self.status(u)
        }
    }

    // The debt of the edge after the change.
    fn debt_after(&self, change: Change, e: &Edge) -> Option<Missing>
        ensures { result ≡ debt_of (status_after self.now change) e.now }
    {
        let i = self.status_after(change, e.i);
        let j = self.status_after(change, e.j);
        debt_by(e.kind, i, j)
    }

    // Whether `u` would owe the event because of the edge.
    pub(crate) fn owes_by(&self, change: Change, u: TxnId, missing: Missing, e: &Edge) -> bool
        ensures { result ≡ owes missing (status_after self.now change) u.0 e.now }
    {
        let debt = self.debt_after(change, e);
        let is_owed = match missing {
            Missing::Commit => is_commit(debt),
            Missing::Abort => is_abort(debt),
        };
        e.j.0 == u.0 && is_owed
    }

    // Whether `u` would owe the event.
    fn owes(&self, change: Change, u: TxnId, missing: Missing) -> bool
        ensures { result ≡ list_any (owes missing (status_after self.now change) u.0) self.now.edges }
    {
        let parties = self.by_j();
        let edges = self.edges();
        let mut place = parties.last(u);
        while place > 0 {
            let e = &edges[place as usize - 1];
            if self.owes_by(change, u, missing, e) {
                return true;
            }
            place = parties.before(place);
        }
        false
    }

    // Whether a noted edge shows that `u` owes the event.
    fn is_noted(&self, u: TxnId, missing: Missing) -> bool
        ensures { IsTrue result → list_any (owes missing (status_of self.now) u.0) self.now.edges ≡ true }
    {
        match self.noted(u) {
            Some(e) => e.j.0 == u.0 && self.debt(e) == Some(missing),
            None => false,
        }
    }

    // Whether `u` would owe the event because of an edge of this kind on the changed transaction.
    fn owes_by_kind(&self, change: Change, u: TxnId, missing: Missing, kind: Dep) -> bool
        ensures { result ≡ owes_by_kind missing (status_after self.now change) self.now.edges change.txn u kind }
    {
        let e = Edge {
            kind,
            j: u,
            i: change.txn,
        };
        self.has(&e) && self.owes_by(change, u, missing, &e)
    }

    // Whether `u` would owe the event because of an edge on the changed transaction.
    #[tactic(auto, using(crate::proofs::Upon::commit_kinds, crate::proofs::Upon::abort_kinds))]
    fn owes_upon(&self, change: Change, u: TxnId, missing: Missing) -> bool
        ensures { result ≡ list_any (owes_upon missing (status_after self.now change) change.txn.0 u.0) self.now.edges }
    {
        match missing {
            Missing::Commit => {
                self.owes_by_kind(change, u, missing, Dep::Scd)
                    || self.owes_by_kind(change, u, missing, Dep::Cmd)
            }
            Missing::Abort => {
                self.owes_by_kind(change, u, missing, Dep::Ad)
                    || self.owes_by_kind(change, u, missing, Dep::Wd)
                    || self.owes_by_kind(change, u, missing, Dep::Ed)
            }
        }
    }

    // Whether `u` would owe the event. If it owes the other event already, it owes this one by no edge yet, and only edges on
    // the changed transaction count.
    fn owes_after(&self, change: Change, u: TxnId, missing: Missing, other: Missing) -> bool
        requires { other ≢ missing }
        ensures { result ≡ list_any (owes missing (status_after self.now change) u.0) self.now.edges }
    {
        self.lemma_invariant();
        if u.0 != change.txn.0 && self.is_noted(u, other) {
            self.owes_upon(change, u, missing)
        } else {
            self.owes(change, u, missing)
        }
    }

    // Whether `u` would owe both a commit and an abort.
    fn owes_both(&self, change: Change, u: TxnId) -> bool
        ensures { result ≡ owes_both (status_after self.now change) self.now.edges u.0 }
    {
        self.owes(change, u, Missing::Commit) && self.owes(change, u, Missing::Abort)
    }

    // Whether `u`, which would owe the one event, would owe the other too.
    fn owes_other(&self, change: Change, u: TxnId, debt: Option<Missing>) -> bool
        ensures { result ≡ other_of debt (list_any (owes_commit (status_after self.now change) u.0) self.now.edges) (list_any (owes_abort (status_after self.now change) u.0) self.now.edges) }
    {
        match debt {
            None => false,
            Some(Missing::Commit) => self.owes_after(change, u, Missing::Abort, Missing::Commit),
            Some(Missing::Abort) => self.owes_after(change, u, Missing::Commit, Missing::Abort),
        }
    }

    // The edge with this number.
    fn edge(&self, place: u16) -> &Edge
        requires place { 0 < place }
        requires within { place ≤ length self.now.edges }
        ensures { (d : Edge) → result.now ≡ slice_index_or self.now.edges (place - 1) d }
    {
        &self.edges()[place as usize - 1]
    }

    // Whether the edge depends on the changed transaction, and its dependent would have a debt by it and owe both.
    fn would_owe_both(&self, change: Change, place: u16) -> bool
        requires place { 0 < place }
        requires within { place ≤ length self.now.edges }
        ensures { (d : Edge) → result ≡ would_owe_both (status_after self.now change) self.now.edges change.txn.0 (slice_index_or self.now.edges (place - 1) d) }
    {
        let e = self.edge(place);
        let debt = self.debt_after(change, e);
        let is_other = self.owes_other(change, e.j, debt);
        e.i.0 == change.txn.0 && is_other
    }

    // The smaller of `least` and the edge's dependent, if that would owe both because of this edge.
    fn with_owing_both(&self, change: Change, place: u16, least: Option<u32>) -> Option<u32>
        requires place { 0 < place }
        requires within { place ≤ length self.now.edges }
        ensures { (d : Edge) → result ≡ (if would_owe_both (status_after self.now change) self.now.edges change.txn.0 (slice_index_or self.now.edges (place - 1) d) then Some (option_map_or (min (slice_index_or self.now.edges (place - 1) d).j.0) least (slice_index_or self.now.edges (place - 1) d).j.0) else least) }
    {
        if self.would_owe_both(change, place) {
            lesser(least, u32::from(self.edge(place).j.0))
        } else {
            least
        }
    }

    // The changed transaction, if it would owe both.
    fn all_owing_both(&self, change: Change) -> Option<u32>
        ensures { result ≡ (if owes_both (status_after self.now change) self.now.edges change.txn.0 then Some change.txn.0 else None) }
    {
        if self.owes_both(change, change.txn) {
            Some(u32::from(change.txn.0))
        } else {
            None
        }
    }

    // The smallest transaction that would owe both a commit and an abort. Only the changed transaction and those that
    // depend on it can owe more than before.
    pub(crate) fn clashing(&self, change: Change) -> Option<u32>
        ensures { result ≡ clashing (status_after self.now change) self.now.edges }
    {
        self.lemma_invariant();
        let parties = self.by_i();
        let mut place = parties.last(change.txn);
        let mut least = self.all_owing_both(change);
        while place > 0 {
            least = self.with_owing_both(change, place, least);
            place = parties.before(place);
        }
        least
    }

    /// The refusal by `Clash`, if some transaction would owe both a commit and an abort after the change.
    #[tactic(auto, unfolding(crate::specs::Dependencies::clash))]
    pub(crate) fn clash(&self, change: Change) -> Option<Refusal>
        ensures { result ≡ clash (status_of self.now) self.now.edges change.txn.0 change.status }
    {
        match self.clashing(change) {
            Some(number) => Some(Refusal::by(Rule::Clash, number)),
            None => None,
        }
    }
}
