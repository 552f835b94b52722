//! A point that programs can reach: the steps taken, and the machine after them.

ghost use Rattle.std.specs.Prelude.{◌≡◌, ◌≤◌, length, map, IfOk};
ghost use Rattle.acta_table.specs.declared.limits.TheConstants.{MOST_EVENTS};
ghost use Rattle.acta_explore.specs.Histories.{after_history, history_line, history_steps};
ghost use Rattle.acta_explore.specs.Points.{start, tried, stepped};
ghost use Rattle.acta_explore.specs.Programs.{done_by, lines_done};
ghost use Rattle.acta_explore.specs.inside.Numbered.{IsNumbered, IsUndone};

use crate::plan::Plan;
use acta_machine::{Handle, Machine};
use acta_script::ProgramLine;
use acta_table::{Answer, Event, Items, Kept, Model, Ret};
use std::alloc::AllocError;

/// A seat, and the alternative of its next line that is tried.
#[derive(Clone, Copy, PartialEq, Eq, Debug)]
pub struct Turn {
    pub seat: u8,
    /// From 0.
    pub alternative: usize,
}

/// A step: an alternative of a seat's next line happened.
#[derive(Clone, Copy, PartialEq, Eq, Debug)]
pub struct Step {
    pub seat: u8,
    /// The position of the line among the lines of the programs, from 0.
    pub line: usize,
    /// The alternative of that line, from 0.
    pub alternative: usize,
    /// The event's return, if it is an operation.
    pub ret: Option<Ret>,
}

/// What a line did.
#[derive(Clone, Copy, PartialEq, Eq, Hash, Debug)]
pub struct Done {
    /// The alternative that happened, from 0.
    pub alternative: usize,
    /// The event's return, if it is an operation.
    pub ret: Option<Ret>,
}

impl Step {
    /// What the step's line did.
    pub fn done(&self) -> Done
        ensures { result ≡ done_by self.now }
    {
        Done {
            alternative: self.alternative,
            ret: self.ret,
        }
    }
}

/// A point that programs can reach. Contracts see the steps, and the model and the history of the machine.
#[derive(Drop)]
pub struct Point<A: Handle> {
    steps: Vec<Step, A>,
    machine: Machine<A>,
}

impl<A: Handle> std::marker::Model for Point<A> {
    ghost use Rattle.acta_explore.specs.Points.{Point as a_point};
    ghost use Rattle.acta_explore.specs.inside.Numbered.{HaveOwnLines, ReturnAsKept};

    ghost Value = { a_point A };

    ghost view = { λ p. record { steps = p.steps.items; state = p.machine } };

    ghost invariant = { λ p. record {
      lines : HaveOwnLines p.steps.items;
      returns : ReturnAsKept p.steps.items p.machine.kept;
    } };
}

// The line of seat 0 whose only alternative is the event.
fn history_line<A: Handle>(alloc: A, kept: &Kept<A>) -> Result<ProgramLine<A>, AllocError>
    ensures { IfOk result (λ line. line ≡ history_line kept.now) }
{
    let mut events = Vec::with_capacity(alloc, 1)?;
    events.push(kept.event.copy()?)?;
    Ok(ProgramLine {
        seat: 0,
        alternatives: Items::of(events),
    })
}

/// The machine's history as lines of programs: lines of seat 0 with one event each. Programs that continue from the history
/// have these lines in front.
pub fn history_lines<A: Handle>(
    alloc: A,
    machine: &Machine<A>,
) -> Result<Vec<ProgramLine<A>, A>, AllocError>
    ensures { IfOk result (λ lines. lines.items ≡ map history_line machine.now.kept) }
{
    let history = machine.history();
    let mut lines = Vec::with_capacity(alloc, history.len())?;
    for kept in history {
        lines.push(history_line(alloc, kept)?)?;
    }
    Ok(lines)
}

// The steps that do the lines of a history.
fn history_steps<A: Handle>(alloc: A, history: &[Kept<A>]) -> Result<Vec<Step, A>, AllocError>
    ensures { IfOk result (λ steps. steps.items ≡ history_steps 0 history.now) }
{
    let mut steps = Vec::with_capacity(alloc, history.len())?;
    for line in 0..history.len() {
        steps.push(Step {
            seat: 0,
            line,
            alternative: 0,
            ret: history[line].ret,
        })?;
    }
    Ok(steps)
}

impl<A: Handle> Point<A> {
    /// The point before any step.
    pub(crate) fn start(alloc: A, model: &Model<A>) -> Result<Point<A>, AllocError>
        ensures { IfOk result (λ point. point ≡ start model.now) }
    {
        let machine = Machine::new(alloc, model.copy()?)?;
        Point::after(alloc, &machine)
    }

    /// The point from which programs continue a machine's history: exactly the lines of `history_lines` are done.
    pub fn after(alloc: A, machine: &Machine<A>) -> Result<Point<A>, AllocError>
        ensures { IfOk result (λ point. point ≡ after_history machine.now) }
    {
        let steps = history_steps(alloc, machine.history())?;
        let copy = machine.copy()?;
        Ok(Point {
            steps,
            machine: copy,
        })
    }

    /// The steps that were taken, in order.
    pub fn steps(&self) -> &[Step]
        ensures { result.now ≡ self.now.steps }
    {
        self.steps.as_slice()
    }

    /// The machine after these steps.
    pub fn machine(&self) -> &Machine<A>
        ensures { result.now ≡ self.now.state }
    {
        &self.machine
    }

    /// A copy of the point in memory of its own.
    pub fn copy(&self, alloc: A) -> Result<Point<A>, AllocError>
        ensures { IfOk result (λ point. point ≡ self.now) }
    {
        let steps = Vec::from_slice(alloc, self.steps.as_slice())?;
        let machine = self.machine.copy()?;
        Ok(Point { steps, machine })
    }

    /// Proves that there are at most `MOST_EVENTS` steps. Does nothing at run time.
    pub(crate) fn lemma_few(&self)
        ensures { length self.now.steps ≤ MOST_EVENTS }
    {
        self.machine.history();
    }

    /// Proves that each step did a line of its own, and that the machine has as many operations as lines that did one. Does
    /// nothing at run time.
    pub(crate) fn lemma_numbered(&self)
        ensures { IsNumbered self.now }
    {
        self.machine.history();
    }

    // The point after an event of a line that no step has done, if the event is admitted.
    fn try_event(
        &self,
        alloc: A,
        turn: Turn,
        line: usize,
        event: &Event<A>,
    ) -> Result<Option<Point<A>>, AllocError>
        requires { IsUndone self.now.steps line }
        ensures { IfOk result (λ next. next ≡ tried self.now turn line event.now) }
    {
        if self.machine.why(event)?.is_some() {
            return Ok(None);
        }
        let mut machine = self.machine.copy()?;
        match machine.take(event)? {
            Answer::Admitted { ret, .. } => {
                let mut steps = Vec::from_slice(alloc, self.steps.as_slice())?;
                steps.push(Step {
                    seat: turn.seat,
                    line,
                    alternative: turn.alternative,
                    ret,
                })?;
                Ok(Some(Point { steps, machine }))
            }
            Answer::Refused { .. } => {
                drop(machine);
                Ok(None)
            }
        }
    }

    /// The point after a step: an alternative of the seat's next line, if there is one and it is admitted. `done` is what
    /// each line did.
    pub(crate) fn stepped(
        &self,
        alloc: A,
        plan: &Plan<'_, A>,
        done: &[Option<Done>],
        turn: Turn,
    ) -> Result<Option<Point<A>>, AllocError>
        requires { done.now ≡ lines_done plan.now self.now.steps }
        ensures { IfOk result (λ next. next ≡ stepped plan.now self.now turn) }
    {
        let Some(line) = plan.next_line(done, turn.seat) else {
            return Ok(None);
        };
        match plan.event_at(alloc, self, line, turn.alternative)? {
            Some(event) => self.try_event(alloc, turn, line, &event),
            None => Ok(None),
        }
    }
}
