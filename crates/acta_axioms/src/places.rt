ghost use Rattle.std.specs.Prelude.{◌≡◌, ◌≤◌, length, take, option_map, IfOk};
ghost use Rattle.acta_axioms.specs.History.{course};
ghost use Rattle.acta_axioms.specs.Operations.{holder_at, fate_at, standing_of};
ghost use Rattle.acta_axioms.specs.Edges.{edges};
ghost use Rattle.acta_axioms.specs.inside.Walking.{standing_in};

use crate::course::Course;
use crate::walk::Walk;
use acta_sets::{Handle, HeldOp};
use acta_table::{Edge, Fate, Kept, MOST_EVENTS, Model, OpNo, TxnId};
use std::alloc::AllocError;

/// A model and a list of kept items, legal or not, queried by places. First places and edges are computed by one walk;
/// a query about an operation follows it along the list. Contracts see the model and the list.
#[derive(Drop)]
pub struct Places<'a, A: Handle> {
    walk: Walk<'a, A>,
}

impl<'a, A: Handle> std::marker::Model for Places<'a, A> {
    ghost use Rattle.std.specs.Prelude.{◌≡◌, []};
    ghost use Rattle.acta_axioms.specs.Walks.{ModelAndHistory};

    ghost Value = { ModelAndHistory A };

    ghost view = { λ p. record { model = p.walk.model; history = p.walk.front } };

    ghost invariant = { λ p. p.walk.ahead ≡ [] };
}

impl<'a, A: Handle> Places<'a, A> {
    /// Walks through a list of at most 65,536 items.
    pub fn of(
        alloc: A,
        model: &'a Model<A>,
        kept: &'a [Kept<A>],
    ) -> Result<Places<'a, A>, AllocError>
        requires { length kept.now ≤ MOST_EVENTS }
        ensures { IfOk result (λ places. places ≡ record { model = model.now; history = kept.now }) }
    {
        let mut walk = Walk::of(alloc, model, kept)?;
        for _ in 0..kept.len() {
            walk.step()?;
        }
        Ok(Places { walk })
    }
}

impl<'a, A: Handle> Places<'a, A> {
    // The standing of the operation after the first n places, if it is among them.
    fn held(&self, op: OpNo, n: u32) -> Option<HeldOp>
        ensures { option_map standing_in result ≡ standing_of self.now.model (take n self.now.history) op.0 }
    {
        self.walk.standing(op, n)
    }

    // The course of the transaction.
    fn course(&self, t: TxnId) -> Course
        ensures { result ≡ course self.now.history t.0 }
    {
        self.walk.course(t)
    }

    /// The first place, from 1, at which the transaction begins, or `None` if it never does or the list does not name
    /// it.
    pub fn start(&self, t: TxnId) -> Option<u32>
        ensures { result ≡ (course self.now.history t.0).start }
    {
        self.course(t).start
    }

    /// The first place, from 1, at which the transaction commits, begun or not.
    pub fn commit(&self, t: TxnId) -> Option<u32>
        ensures { result ≡ (course self.now.history t.0).commit }
    {
        self.course(t).commit
    }

    /// The first place, from 1, at which the transaction aborts, begun or not.
    pub fn abort(&self, t: TxnId) -> Option<u32>
        ensures { result ≡ (course self.now.history t.0).abort }
    {
        self.course(t).abort
    }

    /// The first place, from 1, at which the transaction joins another, begun or not.
    pub fn join(&self, t: TxnId) -> Option<u32>
        ensures { result ≡ (course self.now.history t.0).join }
    {
        self.course(t).join
    }

    /// The holder of the operation after the first n places, or after all if there are fewer. `None` if the operation
    /// is not among them.
    pub fn holder(&self, op: OpNo, n: u32) -> Option<TxnId>
        ensures { option_map (λ t. t.0) result ≡ holder_at self.now.model self.now.history op.0 n }
    {
        let held = self.held(op, n)?;
        Some(held.holder)
    }

    /// The fate of the operation after the first n places, or after all if there are fewer. `None` if the operation is
    /// not among them.
    pub fn fate(&self, op: OpNo, n: u32) -> Option<Fate>
        ensures { result ≡ fate_at self.now.model self.now.history op.0 n }
    {
        let held = self.held(op, n)?;
        Some(held.fate)
    }

    /// The edges that the events form, legal or not, in order of forming, numbered from 1. An edge that is formed again
    /// is not added again.
    pub fn edges(&self) -> &[Edge]
        ensures { result.now ≡ edges self.now.model self.now.history }
    {
        self.walk.edges()
    }
}
