//! The words that a caller adds to a session's replies.

ghost use Rattle.std.specs.Prelude.{◌≡◌, List, length, IfOk};
ghost use Rattle.acta_machine.specs.Table.{edges_in, operations_in};
ghost use Rattle.acta_script.specs.declared.shell_lines.ShellCommand.{ShellCommand as a_command};

use crate::remarks::Remark;
use acta_machine::{Handle, Machine};
use acta_script::{Diagnostic, LineFault, ShellCommand};
use acta_table::Answer;
use std::alloc::AllocError;

/// The numbers of operations and edges before an event.
#[derive(Clone, Copy, PartialEq, Eq, Debug)]
pub struct Before {
    pub operations: usize,
    pub edges: usize,
}

impl Before {
    /// The numbers of operations and edges of a machine.
    pub fn of<A: Handle>(machine: &Machine<A>) -> Before
        ensures operations { result.operations ≡ length (operations_in machine.now) }
        ensures edges { result.edges ≡ length (edges_in machine.now) }
    {
        Before {
            operations: machine.operations().len(),
            edges: machine.edges().len(),
        }
    }
}

/// The words that replies have beside answers, places and lines. E is the type of events, M of machines, D of models, P of
/// lines of programs and T of texts. It may keep what it needs for later replies. Each method returns `Err` if memory runs
/// out.
pub trait Words<E, M, D, P, T: Drop>: Drop {
    // The meaning of a text about a command on a machine, and about programs that continue from there.
    ghost says: { M → a_command → T → Type 0 };

    ghost says_ends: { M → List P → T → Type 0 };

    /// The remark on an event with this line, which the machine has taken and answered.
    fn of_event(
        &mut self,
        machine: &M,
        before: Before,
        event: E,
        line: T,
        answer: Answer,
    ) -> Result<Remark<T>, AllocError>;

    /// The remark on the answer that the machine would give to an event.
    fn of_question(&mut self, machine: &M, event: &E) -> Result<Remark<T>, AllocError>;

    /// The remark on a faulty line.
    fn of_fault(
        &mut self,
        model: &D,
        line: &[u8],
        found: Diagnostic,
    ) -> Result<Remark<T>, AllocError>;

    /// The remark on a faulty line of programs.
    fn of_program_fault(
        &mut self,
        model: &D,
        line: &[u8],
        fault: LineFault,
    ) -> Result<Remark<T>, AllocError>;

    /// The remark on the refused event of this number, from 1.
    fn of_refusal(&mut self, number: usize) -> Result<Remark<T>, AllocError>;

    /// The words below the lines of a command that asks for the state.
    fn of_state(&mut self, machine: &M, command: ShellCommand) -> Result<T, AllocError>;

    /// The reply to a command without lines of its own: `draw` or `next`.
    fn of_command(&mut self, machine: &M, command: ShellCommand) -> Result<T, AllocError>
        ensures { IfOk result (says machine.now command) };

    /// The reply to programs that continue from the machine; `typed` has their lines as they were typed.
    fn of_programs(&mut self, machine: &M, lines: &[P], typed: &[u8]) -> Result<T, AllocError>
        ensures { IfOk result (says_ends machine.now lines.now) };
}
