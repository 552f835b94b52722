//! The lines of an input, read one by one, up to the first faulty one.

ghost use Rattle.std.specs.Prelude.{◌≡◌, ◌==◌, ◌<◌, ◌+◌, ◌^◌, ℕ, List, Result, Ok, false, length, map, option_map, take, IfOk, IfErr, IfNone};
ghost use Rattle.acta_script.specs.declared.fault.LineFault.{LineFault};
ghost use Rattle.acta_script.specs.Reading.{IsWhy};
ghost use Rattle.acta_words.specs.Text.{words_of};
ghost use Rattle.acta_words.specs.inside.LinesToCome.{lines_to_come};
ghost use Rattle.acta_io.specs.Input.{line_numbers, non_blank_from, non_blank_lines, numbered, parsed_by, parsed_from, parsed_in};

use acta_script::{
    DebugCommand, LineError, LineFault, ProgramLine, Seated, read_command, read_event, read_kept,
    read_program_line, read_seated,
};
use acta_table::{Event, Kept, Model};
use acta_words::{Lines, has_words};
use std::alloc::{AllocError, Allocator};

/// The seats of programs, and of seated lines if no number of seats is given, are numbered from 1 to this.
pub const MOST_SEATS: u8 = 16;

/// The kind of lines that an input has.
#[derive(Clone, Copy, PartialEq, Eq, Debug)]
pub enum LineKind {
    /// Events.
    Events,
    /// Kept items.
    Kept,
    /// Seated events, with seats from 1 to `MOST_SEATS`.
    Seated,
    /// A debug script: events, and after the first line `--` commands to a debugger.
    Script,
}

/// Parses a line as an X.
pub trait LineReader<X> {
    // The X of a line, or its fault.
    ghost parsed: { Self → List ℕ → Result X LineFault };

    /// The X of the line, its fault, or lack of memory.
    fn read(&self, line: &[u8]) -> Result<X, LineError>
        ensures ok { IfOk result (λ x. parsed self.now line.now ≡ Ok x) }
        ensures fault { IfErr result (IsWhy (parsed self.now line.now)) };
}

/// Reads lines as events.
#[derive(Clone, Copy)]
pub struct EventLines<'a, A: Allocator + Copy> {
    pub alloc: A,
    pub model: &'a Model<A>,
}

impl<'a, A: Allocator + Copy> LineReader<Event<A>> for EventLines<'a, A> {
    ghost use Rattle.acta_script.specs.Reading.{event_of};

    ghost parsed = { λ r. event_of r.model.now };

    fn read(&self, line: &[u8]) -> Result<Event<A>, LineError> {
        read_event(self.alloc, self.model, line)
    }
}

/// Reads lines as kept items.
#[derive(Clone, Copy)]
pub struct KeptLines<'a, A: Allocator + Copy> {
    pub alloc: A,
    pub model: &'a Model<A>,
}

impl<'a, A: Allocator + Copy> LineReader<Kept<A>> for KeptLines<'a, A> {
    ghost use Rattle.acta_script.specs.Reading.{kept_of};

    ghost parsed = { λ r. kept_of r.model.now };

    fn read(&self, line: &[u8]) -> Result<Kept<A>, LineError> {
        read_kept(self.alloc, self.model, line)
    }
}

/// Reads lines as commands to a debugger.
#[derive(Clone, Copy)]
pub struct CommandLines<'a, A: Allocator + Copy> {
    pub alloc: A,
    pub model: &'a Model<A>,
}

impl<'a, A: Allocator + Copy> LineReader<DebugCommand> for CommandLines<'a, A> {
    ghost use Rattle.acta_script.specs.Commands.{command_of};

    ghost parsed = { λ r. command_of r.model.now };

    fn read(&self, line: &[u8]) -> Result<DebugCommand, LineError> {
        read_command(self.alloc, self.model, line)
    }
}

/// Reads lines as a seat and an event; `seats` bounds the seats.
#[derive(Clone, Copy)]
pub struct SeatedLines<'a, A: Allocator + Copy> {
    pub alloc: A,
    pub model: &'a Model<A>,
    pub seats: u8,
}

impl<'a, A: Allocator + Copy> LineReader<Seated<A>> for SeatedLines<'a, A> {
    ghost use Rattle.acta_script.specs.Reading.{seated_of};

    ghost parsed = { λ r. seated_of r.model.now r.seats };

    fn read(&self, line: &[u8]) -> Result<Seated<A>, LineError> {
        read_seated(self.alloc, self.model, self.seats, line)
    }
}

/// Reads lines as a seat and the alternatives of a step; `seats` bounds the seats.
#[derive(Clone, Copy)]
pub struct ProgramLines<'a, A: Allocator + Copy> {
    pub alloc: A,
    pub model: &'a Model<A>,
    pub seats: u8,
}

impl<'a, A: Allocator + Copy> LineReader<ProgramLine<A>> for ProgramLines<'a, A> {
    ghost use Rattle.acta_script.specs.Reading.{program_line_of};

    ghost parsed = { λ r. program_line_of r.model.now r.seats };

    fn read(&self, line: &[u8]) -> Result<ProgramLine<A>, LineError> {
        read_program_line(self.alloc, self.model, self.seats, line)
    }
}

/// A faulty line, by its number from 1.
#[derive(Clone, Copy)]
pub struct BadLine {
    pub line: usize,
    pub fault: LineFault,
}

/// A line of an input that has a word.
#[derive(Clone, Copy)]
pub struct NonBlankLine<'a> {
    /// Its number, from 1.
    pub line: usize,
    /// Its bytes.
    pub bytes: &'a [u8],
}

/// The parsed lines of an input, up to the first faulty line, and that line.
#[derive(Drop)]
pub struct Input<'a, X: Drop, A: Allocator> {
    pub parsed: Vec<X, A>,
    /// The line of each parsed item.
    pub lines: Vec<NonBlankLine<'a>, A>,
    pub stop: Option<BadLine>,
}

// Parses the line; `None` if it has no word.
fn parsed_by<X, L: LineReader<X>>(reader: &L, line: &[u8]) -> Result<Option<X>, LineError>
    ensures ok { IfOk result (λ x. parsed_by (L.parsed reader.now) line.now ≡ option_map Ok x) }
    ensures words { IfErr result (λ _. (length (words_of line.now) == 0) ≡ false) }
    ensures fault { IfErr result (IsWhy (L.parsed reader.now line.now)) }
{
    if has_words(line) {
        Ok(Some(reader.read(line)?))
    } else {
        Ok(None)
    }
}

/// Parses the lines left, after `taken` earlier ones, up to the first faulty line. Lines without a word are counted and
/// skipped.
pub fn read_left<'a, X: Drop, A: Allocator + Copy, L: LineReader<X>>(
    alloc: A,
    reader: &L,
    left: Lines<'a>,
    taken: usize,
) -> Result<Input<'a, X, A>, AllocError>
    requires { taken + length (lines_to_come left) < 2 ^ 64 }
    ensures parsed { IfOk result (λ read. parsed_from (L.parsed reader.now) (taken + 1) (lines_to_come left.entry) ≡ record { parsed = read.parsed.items; stop = read.stop }) }
    ensures lines { IfOk result (λ read. take (length read.parsed.items) (non_blank_from (taken + 1) (lines_to_come left.entry)) ≡ map numbered read.lines.items) }
{
    let mut parsed = Vec::new(alloc);
    let mut lines = Vec::new(alloc);
    let mut rest = left;
    let mut number = taken;
    while let Some(bytes) = rest.next() {
        number += 1;
        match parsed_by(reader, bytes) {
            Ok(Some(x)) => {
                lines.push(NonBlankLine {
                    line: number,
                    bytes,
                })?;
                parsed.push(x)?;
            }
            Ok(None) => {}
            Err(LineError::Fault(fault)) => {
                let stop = Some(BadLine {
                    line: number,
                    fault,
                });
                return Ok(Input {
                    parsed,
                    lines,
                    stop,
                });
            }
            Err(LineError::Memory) => return Err(AllocError),
        }
    }
    Ok(Input {
        parsed,
        lines,
        stop: None,
    })
}

/// Parses the lines of the input, up to the first faulty line. Lines without a word are counted and skipped.
#[tactic(auto, unfolding(crate::specs::Input::parsed_in, crate::specs::Input::non_blank_lines))]
pub fn read_lines<'a, X: Drop, A: Allocator + Copy, L: LineReader<X>>(
    alloc: A,
    reader: &L,
    input: &'a [u8],
) -> Result<Input<'a, X, A>, AllocError>
    ensures parsed { IfOk result (λ read. parsed_in (L.parsed reader.now) input.now ≡ record { parsed = read.parsed.items; stop = read.stop }) }
    ensures lines { IfOk result (λ read. take (length read.parsed.items) (non_blank_lines input.now) ≡ map numbered read.lines.items) }
    ensures numbered { IfOk result (λ read. IfNone read.stop (length (line_numbers input.now) ≡ length read.parsed.items)) }
{
    let lines = Lines::of(input);
    read_left(alloc, reader, lines, 0)
}

/// The lines of the input that have a word.
#[tactic(auto, unfolding(crate::specs::Input::non_blank_lines))]
pub fn non_blank_lines<'a, A: Allocator>(
    alloc: A,
    input: &'a [u8],
) -> Result<Vec<NonBlankLine<'a>, A>, AllocError>
    ensures { IfOk result (λ lines. map numbered lines.items ≡ non_blank_lines input.now) }
{
    let mut lines = Vec::new(alloc);
    let mut rest = Lines::of(input);
    let mut line = 0;
    while let Some(bytes) = rest.next() {
        line += 1;
        if has_words(bytes) {
            lines.push(NonBlankLine { line, bytes })?;
        }
    }
    Ok(lines)
}

/// The numbers of the lines that have a word, from 1.
#[tactic(auto, unfolding(crate::specs::Input::line_numbers))]
pub fn numbers_of_lines<A: Allocator>(alloc: A, input: &[u8]) -> Result<Vec<usize, A>, AllocError>
    ensures { IfOk result (λ numbers. numbers.items ≡ line_numbers input.now) }
{
    let mut numbers = Vec::new(alloc);
    let mut lines = Lines::of(input);
    let mut number = 0;
    while let Some(line) = lines.next() {
        number += 1;
        if has_words(line) {
            numbers.push(number)?;
        }
    }
    Ok(numbers)
}
