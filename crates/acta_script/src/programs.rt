//! Lines of programs: a seat, and the alternatives of which exactly one is done.

ghost use Rattle.std.specs.Prelude.{◌≡◌, ◌<◌, length, map, All, Ok, IfOk, IfErr};
ghost use Rattle.std.specs.List.{slice_split};
ghost use Rattle.acta_script.specs.Laws.{IsInModel};
ghost use Rattle.acta_script.specs.Reading.{IsWhy, is_bar, alternatives_in, parse_alternatives, parse_program_line, program_line_of};

use crate::fault::{LineError, LineFault, lowest};
use crate::seated::{event_after, parse_seat};
use acta_table::{Event, Items, Model};
use acta_words::words_of;
use std::alloc::{AllocError, Allocator};

/// A step of a program: a seat, and the alternatives of which exactly one is done.
#[derive(Drop)]
pub struct ProgramLine<A: Allocator> {
    pub seat: u8,
    /// At least one.
    pub alternatives: Items<Event<A>, A>,
}

// The parts of the words between the separators `|`.
fn parts_of<'w, 'a, A: Allocator + Copy>(
    alloc: A,
    words: &'w [&'a [u8]],
) -> Result<Vec<&'w [&'a [u8]], A>, AllocError>
    ensures { IfOk result (λ parts. map (λ part. map (λ word. word.now) part.now) parts.items ≡ slice_split is_bar (map (λ word. word.now) words.now)) }
{
    words.split(|word| *word == b"|".as_slice()).collect(alloc)
}

// The events of the parts. The loop goes on after a fault, since a later part may have a lower one.
fn alternatives_in<A: Allocator + Copy>(
    alloc: A,
    model: &Model<A>,
    parts: &[&[&[u8]]],
) -> Result<Items<Event<A>, A>, LineError>
    ensures ok { IfOk result (λ events. alternatives_in model.now (map (λ part. map (λ word. word.now) part.now) parts.now) ≡ Ok events) }
    ensures fault { IfErr result (IsWhy (alternatives_in model.now (map (λ part. map (λ word. word.now) part.now) parts.now))) }
    ensures in_model { IfOk result (λ events. All (IsInModel model.now) events) }
{
    let mut events = Vec::with_capacity(alloc, parts.len())?;
    let mut fault = None;
    for part in parts {
        match event_after(alloc, model, part) {
            Ok(event) => events.push(event)?,
            Err(LineError::Fault(found)) => fault = Some(lowest(found, fault)),
            Err(LineError::Memory) => return Err(LineError::Memory),
        }
    }
    match fault {
        Some(fault) => Err(fault.into()),
        None => Ok(Items::of(events)),
    }
}

// The alternatives, from these words.
fn parse_alternatives<A: Allocator + Copy>(
    alloc: A,
    model: &Model<A>,
    words: &[&[u8]],
) -> Result<Items<Event<A>, A>, LineError>
    ensures ok { IfOk result (λ events. parse_alternatives model.now (map (λ word. word.now) words.now) ≡ Ok events) }
    ensures fault { IfErr result (IsWhy (parse_alternatives model.now (map (λ word. word.now) words.now))) }
    ensures in_model { IfOk result (λ events. All (IsInModel model.now) events) }
{
    let parts = parts_of(alloc, words)?;
    alternatives_in(alloc, model, &parts)
}

// The step of a program, from these words.
#[tactic(auto, unfolding(crate::specs::Reading::parse_program_line))]
fn parse_program_line<A: Allocator + Copy>(
    alloc: A,
    model: &Model<A>,
    seats: u8,
    words: &[&[u8]],
) -> Result<ProgramLine<A>, LineError>
    ensures ok { IfOk result (λ read. parse_program_line model.now seats (map (λ word. word.now) words.now) ≡ Ok read) }
    ensures fault { IfErr result (IsWhy (parse_program_line model.now seats (map (λ word. word.now) words.now))) }
    ensures in_model { IfOk result (λ read. All (IsInModel model.now) read.alternatives) }
    ensures some { IfOk result (λ read. 0 < length read.alternatives) }
{
    let [seat, words @ ..] = words else {
        return Err(LineFault::Empty.into());
    };
    let seat = parse_seat(seats, seat);
    match parse_alternatives(alloc, model, words) {
        Ok(alternatives) => Ok(ProgramLine {
            seat: seat?,
            alternatives,
        }),
        Err(LineError::Fault(fault)) => Err(lowest(fault, seat.err()).into()),
        Err(LineError::Memory) => Err(LineError::Memory),
    }
}

/// Parses a line of a program: a seat from 1 to the number of seats, then events as in `read_event`, separated by the
/// word `|`. Returns the lowest fault of the seat and of all events, where a missing event is the fault `Arity`, or
/// `Memory` if memory runs out.
pub fn read_program_line<A: Allocator + Copy>(
    alloc: A,
    model: &Model<A>,
    seats: u8,
    line: &[u8],
) -> Result<ProgramLine<A>, LineError>
    ensures ok { IfOk result (λ read. program_line_of model.now seats line.now ≡ Ok read) }
    ensures fault { IfErr result (IsWhy (program_line_of model.now seats line.now)) }
    ensures in_model { IfOk result (λ read. All (IsInModel model.now) read.alternatives) }
    ensures some { IfOk result (λ read. 0 < length read.alternatives) }
{
    let words = words_of(alloc, line)?;
    parse_program_line(alloc, model, seats, &words)
}
