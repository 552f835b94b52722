//! The run of an input as lanes and rows: a row for each event with its answer, what it formed and why it was refused,
//! and for each transaction from which row to which its lane goes.

ghost use Rattle.std.specs.Prelude.{◌≡◌, map, slice_get, Some, IfOk, IfSome};
ghost use Rattle.acta_prose.specs.Runs.{noted_up_to};
ghost use Rattle.acta_trace.specs.Traces.{not_begun};
ghost use Rattle.acta_draw.specs.Rows.{last_place, place_after, places_from, returned};

use crate::blockers::{Blocker, blockers_of};
use crate::marks::{Figure, figure_of};
use acta_hope::heir;
use acta_io::{BadLine, Input};
use acta_machine::Handle;
use acta_prose::{RunTrace, StepText};
use acta_table::{Answer, Edge, Event, Model, Owed, Ret, TxnId};
use acta_trace::{Step, Steps};
use std::alloc::AllocError;

/// An event of the input, and what became of it.
#[derive(Clone, Copy)]
pub struct Row<'a, A: Handle> {
    /// The number of the row, from 0.
    pub number: usize,
    pub step: &'a Step<A>,
    /// The words of the event, and why it was refused.
    pub text: &'a StepText<A>,
    /// The place that the event has, or would have had.
    pub place: u32,
    /// What the event is on the lanes.
    pub figure: Figure,
    /// The edges that the event formed.
    pub formed: &'a [Edge],
}

impl<'a, A: Handle> Row<'a, A> {
    /// Whether the event forms a dependency.
    pub fn is_form(&self) -> bool {
        matches!(self.step.event, Event::Form(_, _, _))
    }
}

/// What the operation returned, if the answer is that to an operation.
pub fn returned(answer: &Answer) -> Option<Ret>
    ensures { result ≡ returned answer.now }
{
    match *answer {
        Answer::Admitted { ret, .. } => ret,
        Answer::Refused { .. } => None,
    }
}

// The place of an event, where the last place before it is this one.
fn place_after(last: u32, answer: &Answer) -> u32
    ensures { result ≡ place_after last answer.now }
{
    match *answer {
        Answer::Admitted { place, .. } => place,
        Answer::Refused { .. } => last.saturating_add(1),
    }
}

// The last place after an event, where the last place before it is this one.
fn last_place(last: u32, answer: &Answer) -> u32
    ensures { result ≡ last_place last answer.now }
{
    match *answer {
        Answer::Admitted { place: next, .. } => next,
        Answer::Refused { .. } => last,
    }
}

// The place of the event of each step.
fn places_of<A: Handle>(alloc: A, steps: &[Step<A>]) -> Result<Vec<u32, A>, AllocError>
    ensures { IfOk result (λ places. places.items ≡ places_from 0 steps.now) }
{
    let mut places = Vec::new(alloc);
    let mut last = 0u32;
    for step in steps {
        places.push(place_after(last, &step.answer))?;
        last = last_place(last, &step.answer);
    }
    Ok(places)
}

/// A run of an input, as what is drawn of it.
#[derive(Drop)]
pub struct Lanes<A: Handle> {
    pub run: RunTrace<A>,
    /// For each row the place of its event.
    pub places: Vec<u32, A>,
    /// What is owed in the end. Nothing where a faulty line stopped the run.
    pub owed: Vec<Owed, A>,
    /// The faulty line that stopped the run.
    pub stop: Option<BadLine>,
}

impl<A: Handle> Lanes<A> {
    /// The lanes of a run of the events that the lines of an input say. With a last place, only of the events up to that
    /// place, and of the refused ones right after it.
    pub fn of(
        alloc: A,
        model: Model<A>,
        read: Input<'_, Event<A>, A>,
        last: Option<u32>,
    ) -> Result<Lanes<A>, AllocError>
        ensures run { IfOk result (λ lanes. lanes.run ≡ noted_up_to last (not_begun model) (map (λ line. line.line) read.entry.lines.items) read.entry.parsed.items) }
        ensures places { IfOk result (λ lanes. lanes.places.items ≡ places_from 0 lanes.run.steps) }
    {
        let Input {
            parsed,
            lines,
            stop,
        } = read;
        let mut run = RunTrace::new(alloc, model)?;
        run.take_up_to(parsed, lines.as_slice(), last)?;
        let places = places_of(alloc, run.steps())?;
        let owed = if stop.is_none() {
            run.machine().owed()?
        } else {
            Vec::new(alloc)
        };
        Ok(Lanes {
            run,
            places,
            owed,
            stop,
        })
    }

    /// The blockers of the event of a row.
    pub fn blockers(&self, number: usize) -> [Option<Blocker>; 2] {
        match (self.run.steps().get(number), self.run.reason(number)) {
            (Some(step), Some(reason)) => blockers_of(&step.event, reason),
            _ => [None, None],
        }
    }

    /// The row of a blocker, where it is before the row whose event it blocks.
    pub fn row_of(&self, blocker: Option<Blocker>, blocked: usize) -> Option<usize> {
        let row = blocker?.step(self.steps())?;
        if row < blocked { Some(row) } else { None }
    }

    /// The row of this number.
    pub fn row(&self, number: usize) -> Option<Row<'_, A>>
        ensures step { IfSome result (λ row. slice_get self.now.run.steps number ≡ Some row.step.now) }
        ensures place { IfSome result (λ row. slice_get self.now.places.items number ≡ Some row.place) }
    {
        let step = self.run.steps().get(number)?;
        let machine = self.run.machine();
        let heir = match &step.event {
            Event::Commit(t) => heir(machine, *t),
            _ => None,
        };
        let text = self.run.texts().get(number)?;
        let place = *self.places.get(number)?;
        Some(Row {
            number,
            step,
            text,
            place,
            figure: figure_of(step, heir),
            formed: machine
                .edges()
                .get(step.edges_before..step.edges_after)
                .unwrap_or(&[]),
        })
    }

    /// The steps, by which the rows are found that began and ended a transaction.
    pub fn steps(&self) -> &Steps<A> {
        self.run.trace().steps()
    }

    /// Whether the lane of the transaction is open at the row, the rows of its start and of its end included, or after the row.
    pub fn is_open(&self, t: TxnId, row: usize, is_after: bool) -> bool {
        let last = if is_after { row.saturating_add(1) } else { row };
        let has_begun = match self.steps().begin_of(t) {
            Some(began) => began <= row,
            None => false,
        };
        match self.steps().end_of(t) {
            Some(ended) => has_begun && last <= ended,
            None => has_begun,
        }
    }

    /// The name of the class with which the transaction began.
    pub fn class_name(&self, t: TxnId) -> Option<&str> {
        let machine = self.run.machine();
        let class = machine.model().class(machine.class(t)?)?;
        std::str::from_utf8(class.name.as_slice()).ok()
    }
}
