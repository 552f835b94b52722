//! The events to which replies refer: the admitted and the refused ones.

use acta_machine::{Handle, Machine};
use acta_prose::{LineIndex, MOST_RENDERED, StepText};
use acta_trace::{Step, Steps};
use std::alloc::AllocError;

// How many edges all refusals of a session may visit in searches for transactions that wait for each other, so that a
// session with many edges and many refusals isn't slow.
const MOST_LOOKS: usize = 2_000_000;

/// The admitted events, with those that were undone and can be redone, and the first refusals.
#[derive(Drop)]
pub(crate) struct Notes<A: Handle> {
    alloc: A,
    steps: Steps<A>,
    // One for each step.
    texts: Vec<StepText<A>, A>,
    // The first refused events, with the reasons.
    refusals: Vec<StepText<A>, A>,
    looks_left: usize,
}

impl<A: Handle> Notes<A> {
    pub(crate) fn new(alloc: A) -> Notes<A> {
        Notes {
            alloc,
            steps: Steps::new(alloc),
            texts: Vec::new(alloc),
            refusals: Vec::new(alloc),
            looks_left: MOST_LOOKS,
        }
    }

    pub(crate) fn allocator(&self) -> A {
        self.alloc
    }

    /// The events of the machine's history, to which sentences refer. Undone events are left out, so that no sentence names
    /// them.
    pub(crate) fn lines<'a>(&'a self, machine: &'a Machine<A>) -> LineIndex<'a, A> {
        let texts = self.texts.as_slice();
        LineIndex {
            noun: "event",
            steps: &self.steps,
            texts: texts.get(..machine.history().len()).unwrap_or(texts),
            edges: machine.edges(),
        }
    }

    /// Notes an admitted event, with its line. Events that were undone before it can't be redone, and are forgotten.
    pub(crate) fn admit(&mut self, step: Step<A>, event: String<A>) -> Result<(), AllocError> {
        let before = step.line.saturating_sub(1);
        self.steps.truncate(before);
        self.texts.truncate(before);
        let reason = String::new(self.alloc);
        self.texts.push(StepText { event, reason })?;
        self.steps.push(step)
    }

    /// Notes a refused event, with its line and the reason. Only the first `MOST_RENDERED` reasons are kept.
    pub(crate) fn refuse(&mut self, event: String<A>, reason: String<A>) -> Result<(), AllocError> {
        if self.refusals.len() < MOST_RENDERED {
            self.refusals.push(StepText { event, reason })?;
        }
        Ok(())
    }

    /// The refused event with this number, from 1, if its reason is kept.
    pub(crate) fn refusal(&self, number: usize) -> Option<&StepText<A>> {
        self.refusals.get(number.checked_sub(1)?)
    }

    /// Whether a refusal may still visit this many edges. Counts them.
    pub(crate) fn may_look(&mut self, edges: usize) -> bool {
        let may = edges <= self.looks_left;
        self.looks_left = self.looks_left.saturating_sub(edges);
        may
    }
}
