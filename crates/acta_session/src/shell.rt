//! A session, line by line.

ghost use Rattle.std.specs.Prelude.{◌≡◌, ◌≤◌, ◌≢◌, ◌++◌, ◌∷◌, ℕ, List, [], false, true, Ok, Some, None, if◌then◌else◌, length, IfOk, IfSome, OnOk};
ghost use Rattle.acta_script.specs.Answers.{answer_line};
ghost use Rattle.acta_script.specs.Shell.{shell_line_of};
ghost use Rattle.acta_script.specs.Words.{fault_name};
ghost use Rattle.acta_table.specs.Numbered.{item_at};
ghost use Rattle.acta_words.specs.Text.{text_of, words_of};
ghost use Rattle.acta_script.specs.declared.shell_lines.ShellCommand.TheVariants as shell_command;
ghost use Rattle.acta_machine.specs.Table.{answer_to};
ghost use Rattle.acta_debug.specs.Moves.{taken};
ghost use Rattle.acta_debug.specs.Sessions.{moved_to};
ghost use Rattle.acta_trace.specs.States.{ArePermitLines};
ghost use Rattle.acta_session.specs.Remarks.{AreRemarked, IsRemarked};
ghost use Rattle.acta_session.specs.Replies.{IsReply, Says, SaysFault, SaysOf, SaysTyped, SaysWhy, after_answer, after_name, lines_for, move_line, no_move_line, refusal_number};
ghost use Rattle.acta_session.specs.Shells.{after_command, after_event, after_line, after_parsed, after_typed, begun, can_move, moved, place_after, quits, quits_by, refusal_by, state_of, typed_of};

use crate::help::help_text;
use crate::moves::{explore_text, left_text, place_text, places_text, refused_text};
use crate::remarks::{Remark, push_bars, remarked};
use crate::typed::{Typed, typed_of};
use crate::words::{Before, Words};
use acta_debug::{Cursor, Debugger};
use acta_machine::{Handle, Machine};
use acta_script::{
    Diagnostic, LineFault, ProgramLine, ShellCommand, ShellFault, ShellLine, answer_line,
    read_shell_line, write_event,
};
use acta_table::{Answer, Event, Model, Refusal};
use acta_trace::{
    push_conflicts_line, push_debt_lines, push_edge_lines, push_event_lines, push_held_line,
    push_kept_lines, push_permit_lines, push_state_lines, push_status_line, push_value_line,
};
use acta_words::{has_words, push_line};
use std::alloc::{AllocError, Allocator};

/// The reply to a line.
#[derive(Drop)]
pub struct Reply<A: Handle> {
    /// Lines, or nothing.
    pub text: Vec<u8, A>,
    /// Whether the line ends the session.
    pub is_over: bool,
}

/// A session: the admitted events, with those that were undone and can be redone, and the machine after them; the answers to
/// the refused events; and the lines of programs that were read since `explore`. Contracts see all but the words.
#[derive(Drop)]
pub struct Shell<A: Handle, W: Drop> {
    alloc: A,
    cursor: Cursor<A>,
    refusals: Vec<Answer, A>,
    is_exploring: bool,
    programs: Vec<ProgramLine<A>, A>,
    // The lines of the programs, as they were typed.
    typed: Vec<u8, A>,
    words: W,
}

impl<A: Handle, W: Drop> std::marker::Model for Shell<A, W> {
    ghost use Rattle.acta_session.specs.Shells.{ShellState};

    ghost Value = { ShellState A };

    ghost view = { λ s. record { session = s.cursor.session; refusals = s.refusals.items; is_exploring = s.is_exploring; programs = s.programs.items } };
}

// The machine's answer to an event. The event is given to a copy only if the machine would not refuse it.
#[tactic(auto, unfolding(acta_machine::specs::Table::answer_to))]
fn answer_of<A: Handle>(machine: &Machine<A>, event: &Event<A>) -> Result<Answer, AllocError>
    ensures { IfOk result (λ answer. answer ≡ answer_to machine.now event.now) }
{
    match machine.why(event)? {
        Some(reason) => {
            let Refusal { rule, by } = reason.refusal();
            Ok(Answer::Refused { rule, by })
        }
        None => answer_of_copy(machine, event),
    }
}

// The answer of a copy of the machine to an event.
fn answer_of_copy<A: Handle>(machine: &Machine<A>, event: &Event<A>) -> Result<Answer, AllocError>
    ensures { IfOk result (λ answer. answer ≡ answer_to machine.now event.now) }
{
    let mut next = machine.copy()?;
    let answer = next.take(event);
    drop(next);
    answer
}

// The answer with a remark.
fn answer_text<A: Handle>(
    alloc: A,
    answer: &Answer,
    remark: Remark<Vec<u8, A>>,
) -> Result<Vec<u8, A>, AllocError>
    ensures { IfOk result (λ text. IsRemarked (answer_line answer.now) after_answer text.items) }
{
    let line = answer_line(alloc, answer)?;
    remarked(line, b"    ", remark)
}

// The name of a fault with a remark.
fn fault_text<A: Handle>(
    alloc: A,
    fault: LineFault,
    remark: Remark<Vec<u8, A>>,
) -> Result<Vec<u8, A>, AllocError>
    ensures { IfOk result (λ text. IsRemarked (fault_name fault) after_name text.items) }
{
    let line = Vec::from_slice(alloc, fault.name().as_bytes())?;
    remarked(line, b", ", remark)
}

// A reply that does not end the session.
fn going_on<A: Handle>(text: Vec<u8, A>) -> Reply<A>
    ensures text { result.text ≡ text }
    ensures over { result.is_over ≡ false }
{
    Reply {
        text,
        is_over: false,
    }
}

// The number of the refusal that is asked about.
fn refusal_number(refusals: &[Answer], number: Option<u32>) -> usize
    ensures { result ≡ refusal_number refusals.now number }
{
    match number {
        Some(number) => number as usize,
        None => refusals.len(),
    }
}

// The answer to the refused event of this number, from 1, if there is one.
fn refusal_at(refusals: &[Answer], number: usize) -> Option<Answer>
    ensures { result ≡ item_at refusals.now number }
{
    if number == 0 {
        return None;
    }
    refusals.get(number - 1).copied()
}

impl<A: Handle, W: Words<Event<A>, Machine<A>, Model<A>, ProgramLine<A>, Vec<u8, A>>> Shell<A, W> {
    /// A session on the model, before any event, with these words.
    pub fn new(alloc: A, model: Model<A>, words: W) -> Result<Shell<A, W>, AllocError>
        ensures { IfOk result (λ shell. shell ≡ begun model) }
    {
        match Debugger::new(alloc, model, Vec::new(alloc)) {
            Ok(debugger) => Ok(Shell {
                alloc,
                cursor: Cursor::new(debugger),
                refusals: Vec::new(alloc),
                is_exploring: false,
                programs: Vec::new(alloc),
                typed: Vec::new(alloc),
                words,
            }),
            Err(_) => {
                drop(words);
                Err(AllocError)
            }
        }
    }

    /// Whether lines of programs are read, since `explore`.
    pub fn is_exploring(&self) -> bool
        ensures { result ≡ self.now.is_exploring }
    {
        self.is_exploring
    }

    /// Answers a line. The machine takes an event and answers it. `can` and an event is answered as the event would be, and
    /// changes nothing. `undo`, `redo` and `goto` move to another place, if it exists. After `explore` lines of programs are
    /// read, up to an empty line, which is answered with how the programs can end. Other commands and faulty lines change
    /// nothing, and a line without a word has no reply. Returns `Err` if memory runs out; the session is then over.
    #[tactic(auto, unfolding(crate::specs::Shells::after_line, crate::specs::Shells::quits, crate::specs::Replies::IsReply))]
    pub fn respond(&mut self, line: &[u8]) -> Result<Reply<A>, AllocError>
        ensures session { OnOk result (self.new ≡ after_line self.old line.now) }
        ensures over { IfOk result (λ reply. reply.is_over ≡ quits self.old line.now) }
        ensures says { IfOk result (λ reply. IsReply W.says W.says_ends self.old line.now reply.text) }
    {
        if self.is_exploring {
            self.read_typed(line)
        } else {
            self.read(line)
        }
    }

    // Answers a line of a session.
    fn read(&mut self, line: &[u8]) -> Result<Reply<A>, AllocError>
        ensures session { OnOk result (self.new ≡ after_parsed self.old (shell_line_of self.old.session.model line.now)) }
        ensures over { IfOk result (λ reply. reply.is_over ≡ quits_by (shell_line_of self.old.session.model line.now)) }
        ensures says { IfOk result (λ reply. Says W.says self.old (words_of line.now) (shell_line_of self.old.session.model line.now) reply.text) }
    {
        match read_shell_line(self.alloc, self.cursor.model(), line) {
            Ok(parsed) => self.obey(parsed),
            Err(ShellFault::Wrong(found)) => self.refuse(line, found),
            Err(ShellFault::Memory) => Err(AllocError),
        }
    }

    // The reply to a faulty line.
    fn refuse(&mut self, line: &[u8], found: Diagnostic) -> Result<Reply<A>, AllocError>
        ensures same { self.new ≡ self.old }
        ensures over { IfOk result (λ reply. reply.is_over ≡ false) }
        ensures says { IfOk result (λ reply. SaysFault (words_of line.now) found reply.text.items) }
    {
        if !has_words(line) {
            return Ok(going_on(Vec::new(self.alloc)));
        }
        let remark = self.words.of_fault(self.cursor.model(), line, found)?;
        Ok(going_on(fault_text(self.alloc, found.fault, remark)?))
    }

    // Answers a parsed line.
    fn obey(&mut self, parsed: ShellLine<A>) -> Result<Reply<A>, AllocError>
        ensures session { OnOk result (self.new ≡ after_parsed self.old (Ok parsed)) }
        ensures over { IfOk result (λ reply. reply.is_over ≡ quits_by {A = A} (Ok parsed)) }
        ensures says { IfOk result (λ reply. (words : List (List ℕ)) → Says W.says self.old words (Ok parsed) reply.text) }
    {
        match parsed {
            ShellLine::Event(event) => Ok(going_on(self.take(event)?)),
            ShellLine::Can(event) => Ok(going_on(self.ask(&event)?)),
            ShellLine::Command(command) => Ok(Reply {
                text: self.carry_out(command)?,
                is_over: matches!(command, ShellCommand::Quit),
            }),
        }
    }

    // Has the machine take an event.
    fn take(&mut self, event: Event<A>) -> Result<Vec<u8, A>, AllocError>
        ensures session { OnOk result (self.new ≡ after_event self.old event) }
        ensures answer { IfOk result (λ text. IsRemarked (answer_line (answer_to (state_of self.old.session) event)) after_answer text.items) }
    {
        let line = write_event(self.alloc, self.cursor.model(), &event)?;
        self.cursor.settle()?;
        let before = Before::of(self.cursor.machine());
        let answer = self.cursor.take(&event)?;
        self.note(answer)?;
        let machine = self.cursor.machine();
        let remark = self.words.of_event(machine, before, event, line, answer)?;
        answer_text(self.alloc, &answer, remark)
    }

    // Notes an answer if it is a refusal.
    fn note(&mut self, answer: Answer) -> Result<(), AllocError>
        ensures session { self.new.session ≡ self.old.session }
        ensures refusals { OnOk result (self.new.refusals ≡ self.old.refusals ++ refusal_by answer) }
        ensures exploring { self.new.is_exploring ≡ self.old.is_exploring }
        ensures programs { self.new.programs ≡ self.old.programs }
    {
        match answer {
            Answer::Admitted { .. } => Ok(()),
            Answer::Refused { .. } => {
                self.refusals.push(answer)?;
                Ok(())
            }
        }
    }

    // The reply to the question whether an event would be admitted.
    fn ask(&mut self, event: &Event<A>) -> Result<Vec<u8, A>, AllocError>
        ensures same { self.new ≡ self.old }
        ensures answer { IfOk result (λ text. IsRemarked (answer_line (answer_to (state_of self.old.session) event.now)) after_answer text.items) }
    {
        self.cursor.settle()?;
        let machine = self.cursor.machine();
        let answer = answer_of(machine, event)?;
        let remark = self.words.of_question(machine, event)?;
        answer_text(self.alloc, &answer, remark)
    }

    // The place to which a command moves, if there is one.
    fn place_after(&self, command: ShellCommand) -> Option<u32>
        ensures place { result ≡ (if can_move self.now.session command then Some (place_after self.now.session command) else None) }
        ensures within { IfSome result (λ place. place ≤ length self.now.session.history) }
    {
        let at = self.cursor.at();
        let last = self.cursor.last();
        match command {
            ShellCommand::Undo(n) => at.checked_sub(n),
            ShellCommand::Redo(n) if n <= last - at => Some(at + n),
            ShellCommand::Goto(n) if n <= last => Some(n),
            _ => None,
        }
    }

    // Moves to a place of the history.
    fn move_to(&mut self, place: u32) -> Result<(), AllocError>
        requires { place ≤ length self.old.session.history }
        ensures ok { OnOk result (self.new ≡ record self.old { session = moved_to self.old.session place }) }
    {
        match self.cursor.goto(place) {
            Ok(()) => Ok(()),
            Err(_) => Err(AllocError),
        }
    }

    // The line that says that a move can't be made.
    fn no_move(&self, command: ShellCommand) -> Result<Vec<u8, A>, AllocError>
        ensures { IfOk result (λ text. text.items ≡ text_of (no_move_line self.now.session command ∷ [])) }
    {
        let at = self.cursor.at();
        let last = self.cursor.last();
        match command {
            ShellCommand::Undo(_) => left_text(self.alloc, at, b"taken back"),
            ShellCommand::Redo(_) => left_text(self.alloc, last - at, b"done again"),
            _ => places_text(self.alloc, last),
        }
    }

    // Carries out a command that moves, if it can.
    fn go(&mut self, command: ShellCommand) -> Result<Vec<u8, A>, AllocError>
        ensures session { OnOk result (self.new ≡ record self.old { session = moved self.old.session command }) }
        ensures says { IfOk result (λ text. text.items ≡ text_of (move_line self.old.session command ∷ [])) }
    {
        match self.place_after(command) {
            Some(place) => {
                self.move_to(place)?;
                place_text(self.alloc, place)
            }
            None => self.no_move(command),
        }
    }

    // The kept lines of the history.
    fn history(&mut self) -> Result<Vec<u8, A>, AllocError>
        ensures same { self.new ≡ self.old }
        ensures says { IfOk result (λ text. SaysOf W.says self.old shell_command.History text) }
    {
        let mut text = Vec::new(self.alloc);
        self.cursor.settle()?;
        push_kept_lines(self.alloc, self.cursor.machine(), &mut text)?;
        Ok(text)
    }

    // The event lines of the history.
    fn events(&mut self) -> Result<Vec<u8, A>, AllocError>
        ensures same { self.new ≡ self.old }
        ensures says { IfOk result (λ text. SaysOf W.says self.old shell_command.Events text) }
    {
        let mut text = Vec::new(self.alloc);
        self.cursor.settle()?;
        push_event_lines(self.alloc, self.cursor.machine(), &mut text)?;
        Ok(text)
    }

    // The lines about the state for which the command asks, except permits.
    fn lines_for(&mut self, command: ShellCommand) -> Result<Vec<u8, A>, AllocError>
        ensures same { self.new ≡ self.old }
        ensures says { IfOk result (λ text. text.items ≡ text_of (lines_for self.old.session command)) }
    {
        let mut text = Vec::new(self.alloc);
        self.cursor.settle()?;
        let machine = self.cursor.machine();
        match command {
            ShellCommand::State => push_state_lines(self.alloc, machine, &mut text)?,
            ShellCommand::Status(t) => push_status_line(machine, t, &mut text)?,
            ShellCommand::Value(object) => push_value_line(self.alloc, machine, object, &mut text)?,
            ShellCommand::Held(t) => push_held_line(self.alloc, machine, t, &mut text)?,
            ShellCommand::Conflicts(t) => push_conflicts_line(self.alloc, machine, t, &mut text)?,
            ShellCommand::Edges(t) => push_edge_lines(machine, t, &mut text)?,
            ShellCommand::Owed => push_debt_lines(self.alloc, machine, &mut text)?,
            _ => {}
        }
        Ok(text)
    }

    // The lines of the permits.
    fn permits(&mut self) -> Result<Vec<u8, A>, AllocError>
        ensures same { self.new ≡ self.old }
        ensures says { IfOk result (λ text. SaysOf W.says self.old shell_command.Permits text) }
    {
        let mut text = Vec::new(self.alloc);
        self.cursor.settle()?;
        push_permit_lines(self.cursor.machine(), &mut text)?;
        Ok(text)
    }

    // The reply to a command that asks for the state.
    fn say(&mut self, command: ShellCommand) -> Result<Vec<u8, A>, AllocError>
        ensures same { self.new ≡ self.old }
        ensures says { IfOk result (λ text. AreRemarked (lines_for self.old.session command) text.items) }
    {
        let mut text = self.lines_for(command)?;
        self.cursor.settle()?;
        let below = self.words.of_state(self.cursor.machine(), command)?;
        push_bars(&mut text, below.as_slice())?;
        Ok(text)
    }

    // Why an event was refused.
    fn why(&mut self, number: Option<u32>) -> Result<Vec<u8, A>, AllocError>
        ensures same { self.new ≡ self.old }
        ensures says { IfOk result (λ text. SaysWhy self.old.refusals (item_at self.old.refusals (refusal_number self.old.refusals number)) text.items) }
    {
        let number = refusal_number(self.refusals.as_slice(), number);
        let Some(answer) = refusal_at(self.refusals.as_slice(), number) else {
            return refused_text(self.alloc, self.refusals.len());
        };
        let remark = self.words.of_refusal(number)?;
        answer_text(self.alloc, &answer, remark)
    }

    // The reply to a command whose reply is words only.
    fn words_of(&mut self, command: ShellCommand) -> Result<Vec<u8, A>, AllocError>
        ensures same { self.new ≡ self.old }
        ensures says { IfOk result (λ text. W.says (state_of self.old.session) command text) }
    {
        self.cursor.settle()?;
        self.words.of_command(self.cursor.machine(), command)
    }

    // Starts to read lines of programs.
    fn explore(&mut self) -> Result<Vec<u8, A>, AllocError>
        ensures session { self.new ≡ record self.old { is_exploring = true; programs = [] } }
        ensures says { IfOk result (λ text. SaysOf W.says self.old shell_command.Explore text) }
    {
        self.is_exploring = true;
        self.programs.clear();
        self.typed.clear();
        explore_text(self.alloc)
    }

    // Carries out a command.
    fn carry_out(&mut self, command: ShellCommand) -> Result<Vec<u8, A>, AllocError>
        ensures session { OnOk result (self.new ≡ after_command self.old command) }
        ensures says { IfOk result (λ text. SaysOf W.says self.old command text) }
    {
        match command {
            ShellCommand::Undo(_) | ShellCommand::Redo(_) | ShellCommand::Goto(_) => self.go(
                command,
            ),
            ShellCommand::History => self.history(),
            ShellCommand::Events => self.events(),
            ShellCommand::Permits => self.permits(),
            ShellCommand::Explore => self.explore(),
            ShellCommand::Why(number) => self.why(number),
            ShellCommand::Draw | ShellCommand::Next(_) => self.words_of(command),
            ShellCommand::Help(topic) => help_text(self.alloc, topic),
            ShellCommand::Quit => Ok(Vec::new(self.alloc)),
            _ => self.say(command),
        }
    }

    // Answers a line while lines of programs are read.
    fn read_typed(&mut self, line: &[u8]) -> Result<Reply<A>, AllocError>
        ensures session { OnOk result (self.new ≡ after_typed self.old (typed_of self.old.session.model line.now)) }
        ensures over { IfOk result (λ reply. reply.is_over ≡ false) }
        ensures says { IfOk result (λ reply. SaysTyped W.says_ends self.old (typed_of self.old.session.model line.now) reply.text) }
    {
        let typed = typed_of(self.alloc, self.cursor.model(), line)?;
        Ok(going_on(match typed {
            Typed::Comment => Vec::new(self.alloc),
            Typed::End => self.end_programs()?,
            Typed::Line(parsed) => self.add_program(parsed, line)?,
            Typed::Faulty(fault) => self.refuse_program(line, fault)?,
        }))
    }

    // The reply with how the programs can end, after which no line of them is read.
    fn end_programs(&mut self) -> Result<Vec<u8, A>, AllocError>
        ensures session { OnOk result (self.new ≡ record self.old { is_exploring = false; programs = [] }) }
        ensures says { IfOk result (λ text. W.says_ends (state_of self.old.session) self.old.programs text) }
    {
        self.cursor.settle()?;
        let machine = self.cursor.machine();
        let programs = self.programs.as_slice();
        let text = self
            .words
            .of_programs(machine, programs, self.typed.as_slice())?;
        self.is_exploring = false;
        self.programs.clear();
        self.typed.clear();
        Ok(text)
    }

    // Adds a line to the programs.
    fn add_program(&mut self, parsed: ProgramLine<A>, line: &[u8]) -> Result<Vec<u8, A>, AllocError>
        ensures session { OnOk result (self.new ≡ record self.old { programs = self.old.programs ++ parsed ∷ [] }) }
        ensures says { IfOk result (λ text. text.items ≡ []) }
    {
        self.programs.push(parsed)?;
        push_line(&mut self.typed, line)?;
        Ok(Vec::new(self.alloc))
    }

    // The reply to a faulty line of programs.
    fn refuse_program(&mut self, line: &[u8], fault: LineFault) -> Result<Vec<u8, A>, AllocError>
        ensures same { self.new ≡ self.old }
        ensures says { IfOk result (λ text. IsRemarked (fault_name fault) after_name text.items) }
    {
        let remark = self
            .words
            .of_program_fault(self.cursor.model(), line, fault)?;
        fault_text(self.alloc, fault, remark)
    }
}
