//! Which step began and ended each transaction, did each operation and formed each edge.

ghost use Rattle.std.specs.Prelude.{◌≡◌, ◌++◌, ◌∷◌, ◌-◌, ◌+◌, [], List, OnOk, length, option_map};
ghost use Rattle.acta_trace.specs.declared.step.Step.{Step};
ghost use Rattle.acta_trace.specs.Steps.{Fits, FitsEvent};
ghost use Rattle.acta_trace.specs.inside.Kept.{IsIndexed, room_of};

use crate::firsts::Firsts;
use crate::step::{Step, ended_by};
use acta_table::{Event, OpNo, TxnId};
use std::alloc::{AllocError, Allocator};

/// The places of steps, by the numbers of transactions, operations and edges.
#[derive(Drop)]
pub(crate) struct Index<A: Allocator> {
    pub(crate) begun: Firsts<A>,
    pub(crate) ended: Firsts<A>,
    pub(crate) operations: Firsts<A>,
    pub(crate) edges: Firsts<A>,
}

// The number of a transaction.
fn number_of(t: Option<TxnId>) -> Option<usize>
    ensures { result ≡ option_map (λ t. t.0) t }
{
    Some(t?.0 as usize)
}

// The number of an operation.
fn number_of_op(op: Option<OpNo>) -> Option<usize>
    ensures { result ≡ option_map (λ op. op.0) op }
{
    Some(op?.0 as usize)
}

impl<A: Allocator + Copy> Index<A> {
    /// The index of an empty list.
    pub(crate) fn new(alloc: A) -> Index<A>
        ensures { IsIndexed [] result }
    {
        Index {
            begun: Firsts::new(alloc),
            ended: Firsts::new(alloc),
            operations: Firsts::new(alloc),
            edges: Firsts::new(alloc),
        }
    }
}

impl<A: Allocator> Index<A> {
    /// Makes room for a step of the event, whose operation has at most the number `op`, and after which at most `edges`
    /// edges are in force.
    pub(crate) fn reserve(
        &mut self,
        event: &Event<A>,
        op: usize,
        edges: usize,
    ) -> Result<(), AllocError>
        ensures same { (steps : List (Step A)) → IsIndexed steps self.old → IsIndexed steps self.new }
        ensures room { OnOk result (FitsEvent (room_of self.new 1) event.now op edges) }
    {
        self.begun.make_room(number_of(event.started()))?;
        self.ended.make_room(number_of(ended_by(event)))?;
        self.operations.make_room(Some(op))?;
        self.edges.make_room(Some(edges))
    }

    /// Notes the step at this place.
    pub(crate) fn note(&mut self, place: usize, step: &Step<A>)
        requires { Fits (room_of self.old 1) step.now }
        ensures { (steps : List (Step A)) → length steps ≡ place → IsIndexed steps self.old → IsIndexed (steps ++ step.now ∷ []) self.new }
    {
        self.begun.note(number_of(step.began()), place);
        self.ended.note(number_of(step.ended()), place);
        self.operations.note(number_of_op(step.op), place);
        self.edges
            .note_all(step.edges_before, step.edges_after, place);
    }

    /// Forgets the last step, which is at this place.
    pub(crate) fn forget(&mut self, place: usize, step: &Step<A>)
        ensures { (steps : List (Step A)) → length steps ≡ place → IsIndexed (steps ++ step.now ∷ []) self.old → IsIndexed steps self.new }
    {
        self.begun.forget(number_of(step.began()), place);
        self.ended.forget(number_of(step.ended()), place);
        self.operations.forget(number_of_op(step.op), place);
        self.edges
            .forget_all(step.edges_before, step.edges_after, place);
    }
}
