//! A list of steps, indexed by what they did.

ghost use Rattle.std.specs.Prelude.{◌≡◌, ◌-◌, ◌++◌, ◌∷◌, [], OnErr, OnOk, length, take};
ghost use Rattle.std.specs.List.{position};
ghost use Rattle.acta_trace.specs.Steps.{Fits, FitsEvent, begins, does, ends, forms};

use crate::index::Index;
use crate::step::Step;
use acta_table::{Event, OpNo, TxnId};
use std::alloc::{AllocError, Allocator};

/// Steps in order, indexed: the step that began or ended a transaction, did an operation or formed an edge is found by its
/// number. Contracts see the steps, and for which numbers there is room.
#[derive(Drop)]
pub struct Steps<A: Allocator> {
    list: Vec<Step<A>, A>,
    index: Index<A>,
}

impl<A: Allocator> std::marker::Model for Steps<A> {
    ghost use Rattle.std.specs.Prelude.{◌-◌, vec_capacity, length};
    ghost use Rattle.acta_trace.specs.Steps.{Listed};
    ghost use Rattle.acta_trace.specs.inside.Kept.{IsIndexed, room_of};

    ghost Value = { Listed A };

    ghost view = { λ s. record { steps = s.list.items; room = room_of s.index (vec_capacity s.list - length s.list.items) } };

    ghost invariant = { λ s. IsIndexed s.list.items s.index };
}

impl<A: Allocator + Copy> Steps<A> {
    /// No steps. Does not allocate.
    pub fn new(alloc: A) -> Steps<A>
        ensures { result.steps ≡ [] }
    {
        Steps {
            list: Vec::new(alloc),
            index: Index::new(alloc),
        }
    }
}

impl<A: Allocator> Steps<A> {
    /// Makes room for a step of the event, whose operation has at most the number `op`, and after which at most `edges`
    /// edges are in force. The steps stay unchanged.
    pub fn reserve(&mut self, event: &Event<A>, op: usize, edges: usize) -> Result<(), AllocError>
        ensures same { self.new.steps ≡ self.old.steps }
        ensures room { OnOk result (FitsEvent self.new.room event.now op edges) }
    {
        self.list.reserve(1)?;
        self.index.reserve(event, op, edges)
    }

    /// Adds a step, for which there is room.
    pub fn push_reserved(&mut self, step: Step<A>)
        requires { Fits self.old.room step }
        ensures { self.new.steps ≡ self.old.steps ++ step ∷ [] }
    {
        let place = self.list.len();
        self.index.note(place, &step);
        self.list.push_reserved(step);
    }

    /// Adds a step. On `Err` the step is lost, and the others are unchanged.
    pub fn push(&mut self, step: Step<A>) -> Result<(), AllocError>
        ensures ok { OnOk result (self.new.steps ≡ self.old.steps ++ step ∷ []) }
        ensures err { OnErr result (self.new.steps ≡ self.old.steps) }
    {
        let op = match step.op {
            Some(op) => op.0 as usize,
            None => 0,
        };
        self.reserve(&step.event, op, step.edges_after)?;
        self.push_reserved(step);
        Ok(())
    }

    // Takes away the last step, if there is one.
    fn pop(&mut self)
        ensures { self.new.steps ≡ take (length self.old.steps - 1) self.old.steps }
    {
        if let Some(step) = self.list.pop() {
            self.index.forget(self.list.len(), &step);
        }
    }

    /// Keeps the first `len` steps. Does nothing if there are no more.
    pub fn truncate(&mut self, len: usize)
        ensures { self.new.steps ≡ take len self.old.steps }
    {
        while len < self.list.len() {
            self.pop();
        }
    }

    /// The steps, in order.
    pub fn as_slice(&self) -> &[Step<A>]
        ensures { result.now ≡ self.now.steps }
    {
        self.list.as_slice()
    }

    /// The place, from 0, of the step that began the transaction; `None` if no step did.
    pub fn begin_of(&self, t: TxnId) -> Option<usize>
        ensures { result ≡ position (begins t.0) self.now.steps }
    {
        self.index.begun.at(t.0 as usize)
    }

    /// The place of the step that ended the transaction; `None` if no step did.
    pub fn end_of(&self, t: TxnId) -> Option<usize>
        ensures { result ≡ position (ends t.0) self.now.steps }
    {
        self.index.ended.at(t.0 as usize)
    }

    /// The place of the step that did the operation; `None` if no step did.
    pub fn operation(&self, op: OpNo) -> Option<usize>
        ensures { result ≡ position (does op.0) self.now.steps }
    {
        self.index.operations.at(op.0 as usize)
    }

    /// The place of the step that formed the edge with this number; `None` if no step did.
    pub fn edge(&self, number: u32) -> Option<usize>
        ensures { result ≡ position (forms number) self.now.steps }
    {
        self.index.edges.at(number as usize)
    }
}
