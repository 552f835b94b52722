//! What became of an event.

ghost use Rattle.std.specs.Prelude.{◌≡◌, option_map};
ghost use Rattle.acta_trace.specs.Steps.{began, ended, ended_by, is_admitted};

use acta_table::{Answer, Event, OpNo, TxnId};
use std::alloc::Allocator;

/// An event that a machine took, its answer and what it formed.
#[derive(Drop)]
pub struct Step<A: Allocator> {
    /// The number of the event's line.
    pub line: usize,
    pub event: Event<A>,
    pub answer: Answer,
    /// The number of the operation that the event added, if it is an operation that was admitted.
    pub op: Option<OpNo>,
    /// How many edges were in force before the event.
    pub edges_before: usize,
    /// How many edges are in force after the event: the new ones follow the earlier ones.
    pub edges_after: usize,
}

/// The transaction that the event ends if it is admitted: it commits, aborts or joins another.
pub(crate) fn ended_by<A: Allocator>(event: &Event<A>) -> Option<TxnId>
    ensures { option_map (λ t. t.0) result ≡ ended_by event.now }
{
    match event {
        Event::Commit(t) | Event::Abort(t) | Event::Join(t, _) => Some(*t),
        _ => None,
    }
}

impl<A: Allocator> Step<A> {
    /// Whether the machine kept the event.
    pub fn is_admitted(&self) -> bool
        ensures { result ≡ is_admitted self.now.answer }
    {
        matches!(self.answer, Answer::Admitted { .. })
    }

    /// The transaction that the step began.
    pub fn began(&self) -> Option<TxnId>
        ensures { option_map (λ t. t.0) result ≡ began self.now }
    {
        if self.is_admitted() {
            self.event.started()
        } else {
            None
        }
    }

    /// The transaction that the step ended.
    pub fn ended(&self) -> Option<TxnId>
        ensures { option_map (λ t. t.0) result ≡ ended self.now }
    {
        if self.is_admitted() {
            ended_by(&self.event)
        } else {
            None
        }
    }
}
