//! A line that is typed while lines of programs are read.

ghost use Rattle.std.specs.Prelude.{◌≡◌, IfOk};
ghost use Rattle.std.specs.List.{list_any};
ghost use Rattle.acta_words.specs.Text.{is_mark};
ghost use Rattle.acta_session.specs.Shells.{read_as, typed_of};

use acta_io::MOST_SEATS;
use acta_script::{LineError, LineFault, ProgramLine, read_program_line};
use acta_table::Model;
use acta_words::has_words;
use std::alloc::{AllocError, Allocator};

/// A line that is typed while lines of programs are read.
#[derive(Drop)]
pub enum Typed<A: Allocator> {
    /// A line with only a comment.
    Comment,
    /// The empty line that ends the programs.
    End,
    /// A line of the programs.
    Line(ProgramLine<A>),
    /// A faulty line.
    Faulty(LineFault),
}

// Whether the line has a comment.
fn has_comment(line: &[u8]) -> bool
    ensures { result ≡ list_any is_mark line.now }
{
    line.iter().any(|byte| *byte == b'#')
}

// Parses a line with a word.
fn read_typed<A: Allocator + Copy>(
    alloc: A,
    model: &Model<A>,
    line: &[u8],
) -> Result<Typed<A>, AllocError>
    ensures { IfOk result (λ typed. typed ≡ read_as model.now line.now) }
{
    match read_program_line(alloc, model, MOST_SEATS, line) {
        Ok(parsed) => Ok(Typed::Line(parsed)),
        Err(LineError::Fault(fault)) => Ok(Typed::Faulty(fault)),
        Err(LineError::Memory) => Err(AllocError),
    }
}

/// Parses the line. Returns `Err` if memory runs out.
pub(crate) fn typed_of<A: Allocator + Copy>(
    alloc: A,
    model: &Model<A>,
    line: &[u8],
) -> Result<Typed<A>, AllocError>
    ensures { IfOk result (λ typed. typed ≡ typed_of model.now line.now) }
{
    if has_words(line) {
        read_typed(alloc, model, line)
    } else if has_comment(line) {
        Ok(Typed::Comment)
    } else {
        Ok(Typed::End)
    }
}
