//! How wide the columns of a text are: the place, the lanes, and the words of a row.

use crate::lanes::Lanes;
use crate::selection::Selection;
use acta_machine::Handle;
use acta_prose::digits;
use acta_table::LAST_TXN;

/// The width of the column of places, with the blanks after it.
pub const PLACE: usize = 7;

/// The least width that a picture can have.
pub const LEAST_WIDTH: usize = 40;

/// The most that it can have.
pub const MOST_WIDTH: usize = 2_000;

/// The width where none is said.
pub const USUAL_WIDTH: usize = 100;

// A lane is at most so wide.
const WIDEST_LANE: usize = 9;

// The words of a row have at least this width, and better that.
const LEAST_WORDS: usize = 24;

const USUAL_WORDS: usize = 48;

// An event has at most this width where a note follows it, and the note has at least the other width.
const MOST_OF_EVENT: usize = 36;

const LEAST_NOTE: usize = 24;

/// The widths of the columns of a text.
#[derive(Clone, Copy)]
pub struct Layout {
    /// The width of a lane.
    pub lane: usize,
    /// The width of all lanes.
    pub lanes: usize,
    /// The width of the words of a row: the event and the note on it.
    pub words: usize,
    /// The width of the event.
    pub event: usize,
    /// The width of a note beside the event; 0 where the note is below the event.
    pub note: usize,
}

// The least width of a lane: a mark with the number of an operation or of a transaction, and two characters more for a tie.
fn least_lane<A: Handle>(lanes: &Lanes<A>) -> usize {
    let machine = lanes.run.machine();
    let operation = digits(machine.operations().len());
    let number = operation.max(digits(machine.known_txns().saturating_sub(1)));
    number.saturating_add(1).min(6).saturating_add(2)
}

/// How many lanes fit a text of the width: one at least.
pub fn most_lanes<A: Handle>(lanes: &Lanes<A>, width: usize) -> usize {
    let room = width.saturating_sub(PLACE + LEAST_WORDS);
    let lane = least_lane(lanes).max(digits(usize::from(LAST_TXN)).saturating_add(1));
    room.checked_div(lane).unwrap_or(1).max(1)
}

impl Layout {
    /// The columns of a text of the width for the lanes that are drawn and rows whose longest event is so long.
    pub fn of<A: Handle>(
        lanes: &Lanes<A>,
        selection: &Selection<A>,
        width: usize,
        longest: usize,
    ) -> Layout {
        let count = selection.columns.heads.len();
        let room = width.saturating_sub(PLACE + USUAL_WORDS);
        let least = least_lane(lanes).max(6);
        let lane = room
            .checked_div(count)
            .unwrap_or(WIDEST_LANE)
            .clamp(least, WIDEST_LANE.max(least));
        let lanes = lane.saturating_mul(count);
        let words = width.saturating_sub(PLACE).saturating_sub(lanes);
        let event = longest.min(MOST_OF_EVENT);
        let note = words.saturating_sub(event).saturating_sub(2);
        Layout {
            lane,
            lanes,
            words,
            event,
            note: if note < LEAST_NOTE { 0 } else { note },
        }
    }
}
