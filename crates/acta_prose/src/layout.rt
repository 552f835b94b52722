//! The layout of a run's steps: the number of the line, the event, the answer and what it formed, in columns.

use crate::prose::Prose;
use crate::put;
use std::alloc::Allocator;

/// The widths of the columns.
#[derive(Clone, Copy)]
pub struct Columns {
    number: usize,
    event: usize,
    answer: usize,
}

// The least and the greatest width of a column; longer texts stick out.
const NUMBER: (usize, usize) = (4, 9);

const EVENT: (usize, usize) = (12, 32);

const ANSWER: (usize, usize) = (8, 20);

// The least width of a debt.
const DEBT: usize = 18;

// The width of a column that also has a text of this length.
fn widened(width: usize, most: usize, length: usize) -> usize {
    if length > most {
        width
    } else {
        width.max(length)
    }
}

/// How many digits a number has.
pub fn digits(number: usize) -> usize {
    match number.checked_ilog10() {
        Some(log) => (log as usize).saturating_add(1),
        None => 1,
    }
}

impl Columns {
    /// Columns without rows.
    pub fn new() -> Columns {
        Columns {
            number: NUMBER.0,
            event: EVENT.0,
            answer: ANSWER.0,
        }
    }

    /// The columns with room for a row with this line number, and an event and an answer of these lengths.
    pub fn with(self, line: usize, event: usize, answer: usize) -> Columns {
        Columns {
            number: widened(self.number, NUMBER.1, digits(line)),
            event: widened(self.event, EVENT.1, event),
            answer: widened(self.answer, ANSWER.1, answer),
        }
    }

    /// The indentation of the lines below a row.
    pub fn indent(self) -> usize {
        self.number.saturating_add(4)
    }

    /// Adds a row: the number of its line, its event, the answer to it, and what it formed.
    pub fn put_row<A: Allocator>(
        self,
        prose: Prose<A>,
        line: usize,
        event: &str,
        answer: &str,
        formed: &str,
    ) -> Prose<A> {
        let prose = prose.pad(self.number.saturating_sub(digits(line)));
        let prose = put_cell(put!(prose; line, "  "), event, self.event);
        if formed.is_empty() {
            put!(prose; answer, "\n")
        } else {
            put!(put_cell(prose, answer, self.answer); formed, "\n")
        }
    }

    /// Adds a debt below the events; its edge follows.
    pub fn put_debt<A: Allocator>(self, prose: Prose<A>, debt: &str) -> Prose<A> {
        let prose = prose.pad(self.number.saturating_add(2));
        put_cell(prose, debt, self.event.max(DEBT))
    }
}

// Adds a text padded to this width, and two more spaces.
fn put_cell<A: Allocator>(prose: Prose<A>, cell: &str, width: usize) -> Prose<A> {
    prose
        .put(cell)
        .pad(width.saturating_sub(cell.len()))
        .put("  ")
}

/// Adds lines, each after an indentation and a bar.
pub fn put_barred<A: Allocator>(mut prose: Prose<A>, indent: usize, lines: &str) -> Prose<A> {
    for line in lines.lines() {
        prose = put!(prose.pad(indent); "| ", line, "\n");
    }
    prose
}
