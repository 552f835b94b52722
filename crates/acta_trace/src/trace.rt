//! A run, event by event, with its steps.

ghost use Rattle.std.specs.Prelude.{◌≡◌, ◌≤◌, IfOk, OnErr, OnOk, length};
ghost use Rattle.acta_table.specs.declared.limits.TheConstants.{MOST_EDGES};
ghost use Rattle.acta_machine.specs.Table.{after, answer_to, edges_in};
ghost use Rattle.acta_trace.specs.Steps.{step_of};
ghost use Rattle.acta_trace.specs.Traces.{not_begun, taken};

use crate::step::Step;
use crate::steps::Steps;
use acta_machine::{Handle, Machine};
use acta_table::{Answer, Event, MOST_EDGES, Model};
use std::alloc::AllocError;

/// A run so far: the machine, and the steps that led to it.
#[derive(Drop)]
pub struct Trace<A: Handle> {
    machine: Machine<A>,
    steps: Steps<A>,
}

impl<A: Handle> std::marker::Model for Trace<A> {
    ghost use Rattle.acta_trace.specs.Traces.{Run};

    ghost Value = { Run A };

    ghost view = { λ t. record { state = t.machine; steps = t.steps.steps } };
}

/// Gives the machine the event of a line, and returns the step. On `Err` the event is lost, and the machine is unchanged.
pub fn take_step<A: Handle>(
    machine: &mut Machine<A>,
    line: usize,
    event: Event<A>,
) -> Result<Step<A>, AllocError>
    ensures step { IfOk result (λ step. step ≡ step_of machine.old line event) }
    ensures ok { OnOk result (machine.new ≡ after machine.old event) }
    ensures few { OnOk result (length (edges_in (after machine.old event)) ≤ MOST_EDGES) }
    ensures err { OnErr result (machine.new ≡ machine.old) }
{
    let formed = machine.take_forming(&event)?;
    let edges_after = machine.edges().len();
    Ok(Step {
        line,
        event,
        answer: formed.answer,
        op: formed.op,
        edges_before: formed.edges_before,
        edges_after,
    })
}

impl<A: Handle> Trace<A> {
    /// A run of the model before any event.
    pub fn new(alloc: A, model: Model<A>) -> Result<Trace<A>, AllocError>
        ensures { IfOk result (λ trace. trace ≡ not_begun model) }
    {
        Ok(Trace {
            machine: Machine::new(alloc, model)?,
            steps: Steps::new(alloc),
        })
    }

    /// Gives the machine the event of a line, and returns its answer. The step of a refused event is kept only if
    /// `keeps_refused`. On `Err` the run is unchanged.
    #[tactic(auto, unfolding(crate::specs::Traces::taken))]
    pub fn take(
        &mut self,
        line: usize,
        event: Event<A>,
        keeps_refused: bool,
    ) -> Result<Answer, AllocError>
        ensures answer { IfOk result (λ answer. answer ≡ answer_to self.old.state event) }
        ensures ok { OnOk result (self.new ≡ taken keeps_refused self.old line event) }
        ensures err { OnErr result (self.new ≡ self.old) }
    {
        let last_op = self.machine.operations().len() + 1;
        self.steps.reserve(&event, last_op, MOST_EDGES)?;
        let step = take_step(&mut self.machine, line, event)?;
        let answer = step.answer;
        if keeps_refused || step.is_admitted() {
            self.steps.push_reserved(step);
        } else {
            drop(step);
        }
        Ok(answer)
    }

    /// The machine after the events so far.
    pub fn machine(&self) -> &Machine<A>
        ensures { result.now ≡ self.now.state }
    {
        &self.machine
    }

    /// The steps so far.
    pub fn steps(&self) -> &Steps<A>
        ensures { result.now.steps ≡ self.now.steps }
    {
        &self.steps
    }
}
