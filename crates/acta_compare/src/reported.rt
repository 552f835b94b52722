//! A run of one of the models, in words, line by line.

use crate::side::Side;
use acta_explore::Debt;
use acta_hope::{Hope, why_and_hope};
use acta_io::NonBlankLine;
use acta_machine::{Handle, Machine, Reason};
use acta_programs::put_debts;
use acta_prose::{
    LineForm, Prose, Refused, RunTrace, Stop, put_barred, put_line, put_model_name, put_stop,
};
use acta_script::{LineError, answer_line, read_event};
use acta_table::Event;
use std::alloc::AllocError;

/// A model, and its run so far.
#[derive(Drop)]
pub(crate) struct Reported<'a, A: Handle> {
    side: &'a Side<'a, A>,
    run: RunTrace<A>,
}

// The answer line to the next event.
fn answer_text<A: Handle>(
    alloc: A,
    machine: &Machine<A>,
    event: &Event<A>,
) -> Result<Vec<u8, A>, AllocError> {
    let mut next = machine.copy()?;
    let answer = next.take(event);
    drop(next);
    answer_line(alloc, &answer?)
}

impl<'a, A: Handle> Reported<'a, A> {
    /// The run before any event.
    pub(crate) fn new(alloc: A, side: &'a Side<'a, A>) -> Result<Reported<'a, A>, AllocError> {
        Ok(Reported {
            side,
            run: RunTrace::new(alloc, side.model.copy()?)?,
        })
    }

    /// Takes the events of the lines that the model can read.
    pub(crate) fn take_lines(
        &mut self,
        alloc: A,
        lines: &[NonBlankLine<'_>],
    ) -> Result<(), AllocError> {
        for line in lines {
            match read_event(alloc, self.side.model, line.bytes) {
                Ok(event) => {
                    self.run.take(*line, event)?;
                }
                Err(LineError::Fault(_)) => {}
                Err(LineError::Memory) => return Err(AllocError),
            }
        }
        Ok(())
    }

    // Adds why the next event is refused, in lines.
    fn put_refused(
        &self,
        prose: Prose<A>,
        alloc: A,
        event: &Event<A>,
        reason: &Reason,
        hope: Hope,
    ) -> Prose<A> {
        let refused = Refused {
            machine: self.run.machine(),
            lines: self.run.lines(),
            event,
        };
        let text = refused.put_reason(Prose::new(alloc), true, reason, hope);
        let (text, has_failed) = text.parts();
        let prose = put_barred(prose, 4, text.as_str());
        if has_failed { prose.fail() } else { prose }
    }

    // Adds the answer to the next event, and why it is refused, if it is.
    fn put_event(&self, prose: Prose<A>, alloc: A, event: &Event<A>) -> Prose<A> {
        let machine = self.run.machine();
        let prose = put_line(prose, answer_text(alloc, machine, event)).put("\n");
        match why_and_hope(machine, event) {
            Ok(Some((reason, hope))) => self.put_refused(prose, alloc, event, &reason, hope),
            Ok(None) => prose,
            Err(_) => prose.fail(),
        }
    }

    /// Adds the model's answer to the next line, and why.
    pub(crate) fn put_answer(&self, prose: Prose<A>, alloc: A, line: NonBlankLine<'_>) -> Prose<A> {
        let prose = put_model_name(prose.put("  "), self.side.name).put(": ");
        match read_event(alloc, self.side.model, line.bytes) {
            Ok(event) => self.put_event(prose, alloc, &event),
            Err(LineError::Fault(fault)) => {
                let stop = Stop {
                    line: line.line,
                    bytes: line.bytes,
                    fault,
                    form: LineForm::Event,
                };
                put_stop(prose, alloc, self.side.model, &stop)
            }
            Err(LineError::Memory) => prose.fail(),
        }
    }

    /// Adds the debts under only this model.
    pub(crate) fn put_owed(&self, prose: Prose<A>, debts: &[Debt]) -> Prose<A> {
        if debts.is_empty() {
            return prose;
        }
        let prose = put_model_name(prose.put("owed only under "), self.side.name);
        put_debts(prose.put(":\n"), &self.run, debts)
    }
}
