//! The words of lines, and the lines to which a sentence refers: that of an operation, of an edge, or of the event that
//! began or ended a transaction.

ghost use Rattle.std.specs.Prelude.{◌≡◌, ◌-◌, ℕ, Some, IfSome, slice_get};
ghost use Rattle.std.specs.List.{position};
ghost use Rattle.acta_trace.specs.Steps.{begins, does, ends, forms};
ghost use Rattle.acta_prose.specs.Runs.{line_at};

use crate::phrases::name_text;
use crate::prose::Prose;
use crate::put;
use acta_io::NonBlankLine;
use acta_machine::Handle;
use acta_table::{Edge, OpNo, TxnId};
use acta_trace::Steps;
use acta_words::words_of;
use std::alloc::AllocError;

/// Adds the words of a line, with single spaces between them.
pub fn put_words<A: Handle>(mut prose: Prose<A>, alloc: A, line: &[u8]) -> Prose<A> {
    let Ok(words) = words_of(alloc, line) else {
        return prose.fail();
    };
    let mut gap = "";
    for word in words.iter() {
        prose = put!(prose; gap, name_text(word));
        gap = " ";
    }
    prose
}

/// The words of a step: its event as written in the input, and why it is refused, in lines.
#[derive(Drop)]
pub struct StepText<A: Handle> {
    pub event: String<A>,
    pub reason: String<A>,
}

impl<A: Handle> StepText<A> {
    /// The words of the step of a line, with the reason for its refusal.
    pub fn of(
        alloc: A,
        line: NonBlankLine<'_>,
        reason: String<A>,
    ) -> Result<StepText<A>, AllocError> {
        let event = put_words(Prose::new(alloc), alloc, line.bytes).done()?;
        Ok(StepText { event, reason })
    }
}

/// A line to which a sentence refers.
#[derive(Clone, Copy)]
pub struct LineText<'a> {
    /// Its noun: a line of an input, or an event of a session.
    pub noun: &'static str,
    /// Its number, from 1.
    pub line: usize,
    /// Its event as written in the input.
    pub event: &'a str,
}

/// Steps, each with its words, and the edges that they formed.
#[derive(Clone, Copy)]
pub struct LineIndex<'a, A: Handle> {
    /// The noun for a step in a sentence.
    pub noun: &'static str,
    pub steps: &'a Steps<A>,
    pub texts: &'a [StepText<A>],
    pub edges: &'a [Edge],
}

impl<'a, A: Handle> LineIndex<'a, A> {
    /// The line of the step at this place, from 0.
    pub fn at(&self, place: usize) -> Option<LineText<'a>>
        ensures { IfSome result (λ text. line_at self.now.steps.now.steps place ≡ Some text.line) }
    {
        let step = self.steps.as_slice().get(place)?;
        let text = self.texts.get(place)?;
        Some(LineText {
            noun: self.noun,
            line: step.line,
            event: text.event.as_str(),
        })
    }

    /// The line that did the operation.
    pub fn operation(&self, op: OpNo) -> Option<LineText<'a>>
        ensures { IfSome result (λ text. (place : ℕ) → position (does op.0) self.now.steps.now.steps ≡ Some place → line_at self.now.steps.now.steps place ≡ Some text.line) }
    {
        self.at(self.steps.operation(op)?)
    }

    /// The line that formed the edge with this number.
    pub fn edge_line(&self, number: u64) -> Option<LineText<'a>>
        ensures { IfSome result (λ text. (place : ℕ) → position (forms number) self.now.steps.now.steps ≡ Some place → line_at self.now.steps.now.steps place ≡ Some text.line) }
    {
        self.at(self.steps.edge(u32::try_from(number).ok()?)?)
    }

    /// The edge with this number.
    pub fn edge(&self, number: u64) -> Option<&'a Edge>
        ensures { IfSome result (λ edge. slice_get self.now.edges.now (number - 1) ≡ Some edge.now) }
    {
        self.edges.get((number as usize).checked_sub(1)?)
    }

    /// The line that began the transaction.
    pub fn begin(&self, t: TxnId) -> Option<LineText<'a>>
        ensures { IfSome result (λ text. (place : ℕ) → position (begins t.0) self.now.steps.now.steps ≡ Some place → line_at self.now.steps.now.steps place ≡ Some text.line) }
    {
        self.at(self.steps.begin_of(t)?)
    }

    /// The line that ended the transaction.
    pub fn end(&self, t: TxnId) -> Option<LineText<'a>>
        ensures { IfSome result (λ text. (place : ℕ) → position (ends t.0) self.now.steps.now.steps ≡ Some place → line_at self.now.steps.now.steps place ≡ Some text.line) }
    {
        self.at(self.steps.end_of(t)?)
    }
}
