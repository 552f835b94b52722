//! The words of a session.

ghost use Rattle.std.specs.Prelude.{IfOk};
ghost use Rattle.acta_shell.specs.Pictures.{ShowsHistory};

use crate::notes::Notes;
use crate::pictured::with_history;
use crate::remarks::{
    conflicts_remark, edges_remark, held_remark, owed_remark, refusal_remark, status_remark,
};
use crate::replies::{
    admitted_text, fault_remark, program_fault_remark, question_text, refused_text,
};
use acta_draw::{Choice, Drawing, Form, Screen, draw_run};
use acta_machine::{Handle, Machine};
use acta_next::next_text;
use acta_programs::{MOST_POINTS, explain_from};
use acta_prose::{Prose, name_text};
use acta_script::{Diagnostic, LineFault, ProgramLine, ShellCommand};
use acta_session::{Before, Remark, Words};
use acta_table::{Answer, Event, Model};
use acta_trace::push_event_lines;
use std::alloc::AllocError;

/// The words of a session: those of `explain`, `draw` and `explore`, with the events of the session in place of the lines of
/// an input.
#[derive(Drop)]
pub struct ShellWords<A: Handle> {
    notes: Notes<A>,
    // The screen on which pictures are shown.
    screen: Screen,
}

impl<A: Handle> ShellWords<A> {
    /// The words of a session before its first line, with pictures for this screen.
    pub fn new(alloc: A, screen: Screen) -> ShellWords<A> {
        ShellWords {
            notes: Notes::new(alloc),
            screen,
        }
    }

    // The words below the lines of a command.
    fn state_text(&self, machine: &Machine<A>, command: ShellCommand) -> Prose<A> {
        let notes = &self.notes;
        match command {
            ShellCommand::Status(t) => status_remark(notes, machine, t),
            ShellCommand::Held(t) => held_remark(notes, machine, t),
            ShellCommand::Conflicts(t) => conflicts_remark(notes, machine, t),
            ShellCommand::Edges(t) => edges_remark(notes, machine, t),
            ShellCommand::Owed => owed_remark(notes, machine),
            _ => Prose::new(notes.allocator()),
        }
    }

    // The picture of the history, and below it the events unless the picture shows them all.
    fn picture(&self, machine: &Machine<A>) -> Result<Vec<u8, A>, AllocError>
        ensures { IfOk result (λ text. ShowsHistory machine.now text.items) }
    {
        let alloc = self.notes.allocator();
        let mut lines = Vec::new(alloc);
        push_event_lines(alloc, machine, &mut lines)?;
        let drawing = Drawing {
            form: Form::Text { width: None },
            choice: Choice::ALL,
        };
        let model = machine.model().copy()?;
        let report = draw_run(alloc, &drawing, self.screen, model, lines.as_slice())?;
        with_history(alloc, machine, report.text)
    }
}

// The bytes of a text.
fn bytes_of<A: Handle>(prose: Prose<A>) -> Result<Vec<u8, A>, AllocError> {
    Ok(prose.done()?.into_bytes())
}

impl<A: Handle> Words<Event<A>, Machine<A>, Model<A>, ProgramLine<A>, Vec<u8, A>>
    for ShellWords<A> {
    ghost use Rattle.acta_shell.specs.Sessions.{says as say, says_ends as say_ends};

    ghost says = { say };

    ghost says_ends = { say_ends };

    fn of_event(
        &mut self,
        machine: &Machine<A>,
        before: Before,
        event: Event<A>,
        line: Vec<u8, A>,
        answer: Answer,
    ) -> Result<Remark<Vec<u8, A>>, AllocError> {
        let notes = &mut self.notes;
        let text = Prose::new(notes.allocator())
            .put(name_text(line.as_slice()))
            .done()?;
        match answer {
            Answer::Admitted { .. } => admitted_text(notes, machine, before, event, answer, text),
            Answer::Refused { .. } => refused_text(notes, machine, &event, text),
        }
    }

    fn of_question(
        &mut self,
        machine: &Machine<A>,
        event: &Event<A>,
    ) -> Result<Remark<Vec<u8, A>>, AllocError> {
        question_text(&mut self.notes, machine, event)
    }

    fn of_fault(
        &mut self,
        model: &Model<A>,
        line: &[u8],
        found: Diagnostic,
    ) -> Result<Remark<Vec<u8, A>>, AllocError> {
        fault_remark(self.notes.allocator(), model, line, found)
    }

    fn of_program_fault(
        &mut self,
        model: &Model<A>,
        line: &[u8],
        fault: LineFault,
    ) -> Result<Remark<Vec<u8, A>>, AllocError> {
        program_fault_remark(self.notes.allocator(), model, line, fault)
    }

    fn of_refusal(&mut self, number: usize) -> Result<Remark<Vec<u8, A>>, AllocError> {
        refusal_remark(&self.notes, number)
    }

    fn of_state(
        &mut self,
        machine: &Machine<A>,
        command: ShellCommand,
    ) -> Result<Vec<u8, A>, AllocError> {
        bytes_of(self.state_text(machine, command))
    }

    fn of_command(
        &mut self,
        machine: &Machine<A>,
        command: ShellCommand,
    ) -> Result<Vec<u8, A>, AllocError> {
        match command {
            ShellCommand::Draw => self.picture(machine),
            ShellCommand::Next(t) => next_text(self.notes.allocator(), machine, t),
            _ => Ok(Vec::new(self.notes.allocator())),
        }
    }

    fn of_programs(
        &mut self,
        machine: &Machine<A>,
        lines: &[ProgramLine<A>],
        typed: &[u8],
    ) -> Result<Vec<u8, A>, AllocError> {
        explain_from(
            self.notes.allocator(),
            MOST_POINTS,
            machine,
            lines,
            typed,
            &mut (),
        )
    }
}
