ghost use Rattle.std.specs.Prelude.{◌≡◌, true, Bool, ◌<◌, ◌≤◌, ◌+◌, ◌-◌, [], None, Some, IfOk, IfSome, OnOk, OnErr, length, take, map, false, ℕ};
ghost use Rattle.std.specs.List.{All, list_any};
ghost use Rattle.acta_table.specs.declared.dep.Edge.{Edge};
ghost use Rattle.acta_table.specs.Edges.{formed, is_among};
ghost use Rattle.acta_table.specs.WellFormed.{is_bad_number};
ghost use Rattle.acta_deps.specs.Deps.{status_of};
ghost use Rattle.acta_deps.specs.Statuses.{with_status};
ghost use Rattle.acta_deps.specs.Debts.{debt_of, owes_both};
ghost use Rattle.acta_deps.specs.Dependencies.{start_refusal, commit_refusal, abort_refusal, join_refusal};

use crate::edge_list::EdgeList;
use crate::lacking::is_named_before;
use crate::owing::{self, Notes};
use crate::places::Places;
use acta_table::{Edge, LAST_TXN, MOST_EDGES, Status, TABLE_SIZE, TxnId, lengthen};
use std::alloc::{AllocError, Allocator};

/// The statuses of transactions, and the edges in force among them. Contracts see the list of statuses by transaction
/// number, and the list of edges in order of forming.
#[derive(Drop)]
pub struct Deps<A: Allocator> {
    // Indexed by transaction number. A transaction past the end has not begun.
    statuses: Vec<Status, A>,
    edges: EdgeList<A>,
    owing: Notes<A>,
}

impl<A: Allocator> std::marker::Model for Deps<A> {
    ghost use Rattle.std.specs.Prelude.{◌≡◌, ◌≤◌, ℕ, false, length};
    ghost use Rattle.acta_table.specs.declared.answer.Status.{Status};
    ghost use Rattle.acta_table.specs.declared.limits.TheConstants.{TABLE_SIZE};
    ghost use Rattle.acta_deps.specs.Deps.{DepState, status_listed};
    ghost use Rattle.acta_deps.specs.Debts.{owes_both};

    ghost Value = { DepState };

    ghost view = { λ d. record { statuses = d.statuses.items; edges = d.edges } };

    ghost invariant = { λ d. record {
      few : length d.statuses.items ≤ TABLE_SIZE;
      nobody : status_listed d.statuses.items 0 ≡ Status.NotBegun;
      clear : (u : ℕ) → owes_both (status_listed d.statuses.items) d.edges u ≡ false;
    } };
}

impl<A: Allocator> Deps<A> {
    /// The status of a transaction. A number that no transaction can have has not begun.
    pub fn status(&self, t: TxnId) -> Status
        ensures status { result ≡ status_of self.now t.0 }
        ensures nobody { is_bad_number t.0 ≡ true → result ≡ Status.NotBegun }
    {
        self.statuses
            .get(t.0 as usize)
            .copied()
            .unwrap_or(Status::NotBegun)
    }

    /// The edges in force, in order of forming: at most 16,384, numbered from 1.
    pub fn edges(&self) -> &[Edge]
        ensures edges { result.now ≡ self.now.edges }
        ensures few { length self.now.edges ≤ MOST_EDGES }
    {
        self.edges.as_slice()
    }

    /// States what holds of every table: a number that no transaction can have has not begun, and no transaction owes
    /// both a commit and an abort. Changes nothing.
    pub fn lemma_invariant(&self)
        ensures nobody { (t : ℕ) → is_bad_number t ≡ true → status_of self.now t ≡ Status.NotBegun }
        ensures clear { (t : ℕ) → owes_both (status_of self.now) self.now.edges t ≡ false }
    {
        let _ = &self.statuses;
    }

    /// A bound on transaction numbers: none of this number or above has begun.
    pub fn known_txns(&self) -> usize
        ensures status { (t : ℕ) → result ≤ t → status_of self.now t ≡ Status.NotBegun }
        ensures few { result ≤ TABLE_SIZE }
    {
        self.statuses.len()
    }

    /// Makes room for the status of `t`, a number up to 16,383. No status changes.
    pub fn make_room(&mut self, t: TxnId) -> Result<(), AllocError>
        requires { t.0 ≤ LAST_TXN }
        ensures room { OnOk result (t.0 < length self.new.statuses) }
        ensures status { status_of self.new ≡ status_of self.old }
        ensures edges { self.new.edges ≡ self.old.edges }
    {
        lengthen(&mut self.statuses, t.0 as usize + 1, Status::NotBegun)
    }

    // Sets the status of `t`. Afterwards no transaction may owe both a commit and an abort.
    fn set(&mut self, t: TxnId, status: Status)
        requires low { 0 < t.0 }
        requires room { t.0 < length self.old.statuses }
        requires clear { (u : ℕ) → owes_both (with_status (status_of self.old) t.0 status) self.old.edges u ≡ false }
        ensures status { status_of self.new ≡ with_status (status_of self.old) t.0 status }
        ensures edges { self.new.edges ≡ self.old.edges }
    {
        self.statuses[t.0 as usize] = status;
        owing::note(&mut self.owing, self.statuses.as_slice(), &self.edges, t);
    }

    /// Begins `t`, a number from 1 to 16,383 that has not begun. Call `may_start` first, then `make_room`.
    #[tactic(auto, using(crate::proofs::Clear::start_clear))]
    pub fn started(&mut self, t: TxnId)
        requires low { 0 < t.0 }
        requires room { t.0 < length self.old.statuses }
        requires stands { status_of self.old t.0 ≡ Status.NotBegun }
        requires allowed { start_refusal (status_of self.old) self.old.edges t.0 ≡ None }
        ensures status { status_of self.new ≡ with_status (status_of self.old) t.0 Status.InProgress }
        ensures edges { self.new.edges ≡ self.old.edges }
    {
        self.set(t, Status::InProgress);
    }

    /// Commits `t`, which is in progress. Call `may_commit` first.
    #[tactic(auto, using(crate::proofs::Clear::commit_clear))]
    pub fn committed(&mut self, t: TxnId)
        requires low { 0 < t.0 }
        requires high { t.0 ≤ LAST_TXN }
        requires stands { status_of self.old t.0 ≡ Status.InProgress }
        requires allowed { commit_refusal (status_of self.old) self.old.edges t.0 ≡ None }
        ensures status { status_of self.new ≡ with_status (status_of self.old) t.0 Status.Committed }
        ensures edges { self.new.edges ≡ self.old.edges }
    {
        self.set(t, Status::Committed);
    }

    /// Aborts `t`, which is in progress. Call `may_abort` first.
    #[tactic(auto, using(crate::proofs::Clear::abort_clear))]
    pub fn aborted(&mut self, t: TxnId)
        requires low { 0 < t.0 }
        requires high { t.0 ≤ LAST_TXN }
        requires stands { status_of self.old t.0 ≡ Status.InProgress }
        requires allowed { abort_refusal (status_of self.old) self.old.edges t.0 ≡ None }
        ensures status { status_of self.new ≡ with_status (status_of self.old) t.0 Status.Aborted }
        ensures edges { self.new.edges ≡ self.old.edges }
    {
        self.set(t, Status::Aborted);
    }

    /// Marks `t`, which is in progress, as joined to another transaction: it neither commits nor aborts. Call
    /// `may_join` first.
    #[tactic(auto, using(crate::proofs::Clear::join_clear))]
    pub fn joined(&mut self, t: TxnId)
        requires low { 0 < t.0 }
        requires high { t.0 ≤ LAST_TXN }
        requires stands { status_of self.old t.0 ≡ Status.InProgress }
        requires allowed { join_refusal (status_of self.old) self.old.edges t.0 ≡ None }
        ensures status { status_of self.new ≡ with_status (status_of self.old) t.0 Status.Joined }
        ensures edges { self.new.edges ≡ self.old.edges }
    {
        self.lemma_invariant();
        self.set(t, Status::Joined);
    }

    // Whether the edge is in force.
    pub(crate) fn has(&self, edge: &Edge) -> bool
        ensures { result ≡ is_among self.now.edges edge.now }
    {
        self.edges.has(edge)
    }

    /// Returns how many of these edges `form` would form: those not yet in force, each counted once. Allocates nothing.
    /// Fast if they are sorted by `i`: then an edge is compared only with those of the same `i`.
    pub fn lacks(&self, more: &[Edge]) -> usize
        ensures { length (formed self.now.edges more.now) ≡ length self.now.edges + result }
    {
        let mut count = 0;
        // The highest `i` so far, and the first place that has it: every `i` before that is lower.
        let (mut highest, mut start) = (TxnId(0), 0);
        for (k, edge) in more.iter().enumerate() {
            if !self.has(edge) && !is_named_before(edge, &more[..k], start, highest) {
                count += 1;
            }
            if edge.i.0 > highest.0 {
                highest = edge.i;
                start = k;
            }
        }
        count
    }

    /// An edge by which `u` may owe an event, if one is noted.
    pub(crate) fn noted(&self, u: TxnId) -> Option<&Edge>
        ensures { IfSome result (λ e. (test : Edge → Bool) → test e.now ≡ true → list_any test self.now.edges ≡ true) }
    {
        let number = *self.owing.get(u.0 as usize)?;
        self.edges().get((number as usize).checked_sub(1)?)
    }

    /// The dependent transactions, by edge number.
    pub(crate) fn by_j(&self) -> &Places<A>
        ensures { result.now ≡ map (λ e. e.j.0) self.now.edges }
    {
        self.edges.by_j()
    }

    /// The transactions depended on, by edge number.
    pub(crate) fn by_i(&self) -> &Places<A>
        ensures { result.now ≡ map (λ e. e.i.0) self.now.edges }
    {
        self.edges.by_i()
    }

    /// Removes the last `n` edges, which must be in force.
    pub fn take_back(&mut self, n: usize)
        requires { n ≤ length self.old.edges }
        ensures statuses { self.new.statuses ≡ self.old.statuses }
        ensures edges { self.new.edges ≡ take (length self.old.edges - n) self.old.edges }
    {
        let left = self.edges().len() - n;
        self.edges.truncate(left);
    }
}

impl<A: Allocator + Copy> Deps<A> {
    /// The empty table: no transaction has begun, and no edge is in force. Allocates nothing.
    pub fn new(alloc: A) -> Deps<A>
        ensures { result ≡ record { statuses = []; edges = [] } }
    {
        Deps {
            statuses: Vec::new(alloc),
            edges: EdgeList::new(alloc),
            owing: Notes::new(alloc),
        }
    }

    /// The allocator of the lists.
    pub(crate) fn allocator(&self) -> A {
        self.edges.allocator()
    }

    /// Forms those of these edges that are not yet in force, in order, each once, and returns how many. No edge may
    /// have a debt yet. At most 16,384 edges are in force afterwards, and earlier ones keep their numbers. On `Err`
    /// none is formed.
    #[tactic(auto, using(crate::proofs::FormedEdges::take_formed, crate::proofs::FormedEdges::le_formed))]
    pub fn form(&mut self, more: &[Edge]) -> Result<usize, AllocError>
        requires fits { length (formed self.old.edges more.now) ≤ MOST_EDGES }
        requires known { All (λ e. (is_bad_number e.j.0 ≡ false) × (is_bad_number e.i.0 ≡ false)) more.now }
        requires unowed { All (λ e. debt_of (status_of self.old) e ≡ None) more.now }
        ensures formed { OnOk result (self.new.edges ≡ formed self.old.edges more.now) }
        ensures count { IfOk result (λ count. length self.new.edges ≡ length self.old.edges + count) }
        ensures kept { OnOk result (take (length self.old.edges) self.new.edges ≡ self.old.edges) }
        ensures statuses { self.new.statuses ≡ self.old.statuses }
        ensures err { OnErr result (self.new ≡ self.old) }
    {
        let before = self.edges().len();
        owing::make_room(&mut self.owing, more)?;
        self.edges.form_all(more)?;
        Ok(self.edges.as_slice().len() - before)
    }

    /// Returns a copy of the table.
    pub fn copy(&self) -> Result<Deps<A>, AllocError>
        ensures { IfOk result (λ deps. deps ≡ self.now) }
    {
        Ok(Deps {
            statuses: Vec::from_slice(self.allocator(), &self.statuses)?,
            edges: self.edges.copy()?,
            owing: Vec::from_slice(self.allocator(), &self.owing)?,
        })
    }
}
