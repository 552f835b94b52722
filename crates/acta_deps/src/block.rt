//! Why the edges in force block an event.

ghost use Rattle.std.specs.Prelude.{◌≡◌, ◌&&◌, ◌==◌, option_map, IfSome};
ghost use Rattle.acta_table.specs.declared.answer.Status.{Status as StatusModel};
ghost use Rattle.acta_table.specs.Numbered.{item_at, first_number};
ghost use Rattle.acta_deps.specs.Debts.{clashing};
ghost use Rattle.acta_deps.specs.Deps.{status_of};
ghost use Rattle.acta_deps.specs.Dependencies.{refusal_to};
ghost use Rattle.acta_deps.specs.Blocks.{refusal_of, IsBlockingEdge, IsFirstBy, IsClash, IsBlock};
ghost use Rattle.acta_deps.specs.Statuses.{with_status};
ghost use Rattle.acta_deps.specs.inside.BlockKinds.{owes};
ghost use Rattle.acta_deps.specs.inside.Changes.{status_after};

use crate::clash::Change;
use crate::deps::Deps;
use crate::rules::or_here;
use acta_table::{Edge, Missing, Refusal, Rule, Status, TxnId};
use std::alloc::Allocator;

/// An edge in force, with its number among them, from 1.
#[derive(Clone, Copy, PartialEq, Eq, Debug)]
pub struct NumberedEdge {
    pub number: u32,
    pub edge: Edge,
}

/// An edge that blocks an event by a dependency rule other than `Clash`, with the statuses of its transactions.
#[derive(Clone, Copy, PartialEq, Eq, Debug)]
pub struct BlockingEdge {
    pub rule: Rule,
    pub by: NumberedEdge,
    /// The status of the dependent transaction.
    pub j: Status,
    /// The status of the transaction that it depends on.
    pub i: Status,
}

/// The first edges because of which one transaction would owe a commit and an abort after the event.
#[derive(Clone, Copy, PartialEq, Eq, Debug)]
pub struct Clash {
    pub commit: NumberedEdge,
    pub abort: NumberedEdge,
}

/// The reason why the edges in force block an event.
#[derive(Clone, Copy, PartialEq, Eq, Debug)]
pub enum Block {
    /// The first edge by which the event breaks the rule.
    Edge(BlockingEdge),
    /// The smallest transaction that would owe both a commit and an abort.
    Clash(Clash),
}

impl Block {
    /// The rule that the event breaks, with the number that the rule names.
    pub fn refusal(self) -> Refusal
        ensures { result ≡ refusal_of self }
    {
        match self {
            Block::Edge(blocking_edge) => Refusal::by(blocking_edge.rule, blocking_edge.by.number),
            Block::Clash(clash) => { Refusal::by(Rule::Clash, u32::from(clash.commit.edge.j.0)) }
        }
    }
}

impl<A: Allocator> Deps<A> {
    // The edge with this number, if there is one.
    fn numbered(&self, number: u32) -> Option<NumberedEdge>
        ensures edge { option_map (λ one. one.edge) result ≡ item_at self.now.edges number }
        ensures number { IfSome result (λ one. one.number ≡ number) }
    {
        let place = (number as usize).checked_sub(1)?;
        let edge = *self.edges().get(place)?;
        Some(NumberedEdge { number, edge })
    }

    // The edge with this number, if there is one, as the edge that breaks the rule.
    fn blocking_edge(&self, rule: Rule, number: u32) -> Option<BlockingEdge>
        ensures edge { option_map (λ blocking_edge. blocking_edge.by.edge) result ≡ item_at self.now.edges number }
        ensures named { IfSome result (λ blocking_edge. (blocking_edge.rule ≡ rule) × (blocking_edge.by.number ≡ number)) }
        ensures so { IfSome result (IsBlockingEdge (status_of self.now) self.now.edges) }
    {
        let by = self.numbered(number)?;
        let (j, i) = (self.status(by.edge.j), self.status(by.edge.i));
        Some(BlockingEdge { rule, by, j, i })
    }

    // Whether transaction `number` would owe the event because of the edge after the change.
    fn owes_through(&self, change: Change, number: u32, missing: Missing, edge: &Edge) -> bool
        ensures { result ≡ owes missing (status_after self.now change) number edge.now }
    {
        u32::from(edge.j.0) == number && self.owes_by(change, edge.j, missing, edge)
    }

    // The number of the first edge because of which transaction `number` would owe the event after the change.
    fn first_owed(&self, change: Change, number: u32, missing: Missing) -> Option<u32>
        ensures { result ≡ first_number (owes missing (status_after self.now change) number) self.now.edges }
    {
        let parties = self.by_j();
        let edges = self.edges();
        let mut place = parties.last_of(number);
        let mut first = None;
        while place > 0 {
            let e = &edges[place as usize - 1];
            first = or_here(self.owes_through(change, number, missing, e), place, first);
            place = parties.before(place);
        }
        first
    }

    // The first edge because of which transaction `number` would owe the event after the change.
    fn first_debt(&self, change: Change, number: u32, missing: Missing) -> Option<NumberedEdge>
        ensures number { option_map (λ one. one.number) result ≡ first_number (owes missing (status_after self.now change) number) self.now.edges }
        ensures edge { IfSome result (λ one. item_at self.now.edges one.number ≡ Some one.edge) }
        ensures party { IfSome result (λ one. one.edge.j.0 ≡ number) }
    {
        let first = self.first_owed(change, number, missing)?;
        self.numbered(first)
    }

    // For the smallest transaction that would owe both events after the change: the first edges of its two debts.
    fn clash_edges(&self, change: Change) -> Option<Clash>
        ensures txn { option_map (λ clash. clash.commit.edge.j.0) result ≡ clashing (status_after self.now change) self.now.edges }
        ensures so { IfSome result (IsClash (status_after self.now change) self.now.edges) }
    {
        let number = self.clashing(change)?;
        let commit = self.first_debt(change, number, Missing::Commit)?;
        let abort = self.first_debt(change, number, Missing::Abort)?;
        Some(Clash { commit, abort })
    }

    /// Returns what blocks `txn` from getting this status: from starting (`InProgress`), committing, aborting or
    /// joining another. `None` if nothing does. Agrees with `may_start`, `may_commit`, `may_abort` and `may_join`.
    pub fn block(&self, txn: TxnId, status: Status) -> Option<Block>
        ensures refusal { option_map refusal_of result ≡ refusal_to (status_of self.now) self.now.edges txn.0 status }
        ensures so { IfSome result (IsBlock (status_of self.now) (with_status (status_of self.now) txn.0 status) self.now.edges) }
    {
        let change = Change { txn, status };
        let refusal = self.refusal(change)?;
        match refusal.rule {
            Rule::Clash => {
                let clash = self.clash_edges(change)?;
                Some(Block::Clash(clash))
            }
            rule => {
                let blocking_edge = self.blocking_edge(rule, refusal.by?)?;
                Some(Block::Edge(blocking_edge))
            }
        }
    }
}
