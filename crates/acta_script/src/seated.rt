//! Seated lines: a seat, followed by an event.

ghost use Rattle.std.specs.Prelude.{◌≡◌, map, Ok, IfOk, IfErr};
ghost use Rattle.acta_script.specs.Laws.{IsInModel};
ghost use Rattle.acta_script.specs.Reading.{IsWhy, parse_seat, event_after, parse_seated, seated_of};

use crate::fault::{LineError, LineFault, lowest};
use crate::reading::parse_event;
use acta_table::{Event, Model};
use acta_words::{read_u16, words_of};
use std::alloc::Allocator;

const FIRST_SEAT: u16 = 1;

/// A seat, and the event that is submitted there.
#[derive(Drop)]
pub struct Seated<A: Allocator> {
    pub seat: u8,
    pub event: Event<A>,
}

/// Parses a seat, from 1 to the number of seats.
pub(crate) fn parse_seat(seats: u8, word: &[u8]) -> Result<u8, LineFault>
    ensures { result ≡ parse_seat seats word.now }
{
    let seat = read_u16(word).ok_or(LineFault::Number)?;
    if (FIRST_SEAT..=u16::from(seats)).contains(&seat) {
        Ok(seat as u8)
    } else {
        Err(LineFault::Number)
    }
}

/// The event, from the words after a seat.
pub(crate) fn event_after<A: Allocator + Copy>(
    alloc: A,
    model: &Model<A>,
    words: &[&[u8]],
) -> Result<Event<A>, LineError>
    ensures ok { IfOk result (λ event. event_after model.now (map (λ word. word.now) words.now) ≡ Ok event) }
    ensures fault { IfErr result (IsWhy (event_after model.now (map (λ word. word.now) words.now))) }
    ensures in_model { IfOk result (λ event. IsInModel model.now event) }
{
    if words.is_empty() {
        return Err(LineFault::Arity.into());
    }
    parse_event(alloc, model, words)
}

// The seated event of these words.
#[tactic(auto, unfolding(crate::specs::Reading::parse_seated))]
fn parse_seated<A: Allocator + Copy>(
    alloc: A,
    model: &Model<A>,
    seats: u8,
    words: &[&[u8]],
) -> Result<Seated<A>, LineError>
    ensures ok { IfOk result (λ seated. parse_seated model.now seats (map (λ word. word.now) words.now) ≡ Ok seated) }
    ensures fault { IfErr result (IsWhy (parse_seated model.now seats (map (λ word. word.now) words.now))) }
    ensures in_model { IfOk result (λ seated. IsInModel model.now seated.event) }
{
    let [seat, words @ ..] = words else {
        return Err(LineFault::Empty.into());
    };
    let seat = parse_seat(seats, seat);
    match event_after(alloc, model, words) {
        Ok(event) => Ok(Seated { seat: seat?, event }),
        Err(LineError::Fault(fault)) => Err(lowest(fault, seat.err()).into()),
        Err(LineError::Memory) => Err(LineError::Memory),
    }
}

/// Parses a seated event: a seat from 1 to the number of seats, followed by an event as in `read_event`. Returns the
/// lowest fault of both parts, or `Memory` if memory runs out.
pub fn read_seated<A: Allocator + Copy>(
    alloc: A,
    model: &Model<A>,
    seats: u8,
    line: &[u8],
) -> Result<Seated<A>, LineError>
    ensures ok { IfOk result (λ seated. seated_of model.now seats line.now ≡ Ok seated) }
    ensures fault { IfErr result (IsWhy (seated_of model.now seats line.now)) }
    ensures in_model { IfOk result (λ seated. IsInModel model.now seated.event) }
{
    let words = words_of(alloc, line)?;
    parse_seated(alloc, model, seats, &words)
}
