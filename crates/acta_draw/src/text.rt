//! A picture as a text for a terminal.

use crate::canvas::{Canvas, Ink};
use crate::choice::Choice;
use crate::lanes::{Lanes, Row};
use crate::layout::{Layout, PLACE, most_lanes};
use crate::marks::{Mark, Marked, Tie, has_lane};
use crate::screen::Screen;
use crate::selection::{HEADER_ROWS, Selection};
use crate::sentences::{event_text, put_debt_note, put_left_out, put_note};
use crate::wrapping::wrapped;
use acta_machine::Handle;
use acta_prose::{Prose, digits, name_text, put};
use acta_script::owed_line;
use acta_table::{Owed, TxnId};
use std::alloc::AllocError;
use unicode_width::UnicodeWidthStr;

// What a text is a picture of, and the line that is put together.
#[derive(Drop)]
struct Page<'a, A: Handle> {
    alloc: A,
    lanes: &'a Lanes<A>,
    selection: &'a Selection<A>,
    layout: Layout,
    is_colored: bool,
    canvas: Canvas<A>,
    // The transactions of the columns.
    heads: Vec<TxnId, A>,
}

// What follows the lanes of a line: an event, and a note on it in this colour.
#[derive(Clone, Copy)]
struct Words<'a> {
    // The number of the row.
    row: usize,
    event: &'a str,
    note: &'a str,
    // Whether the note is a list, which is split only between its items.
    is_list: bool,
    ink: Ink,
}

// The lanes and what is put on them.
impl<'a, A: Handle> Page<'a, A> {
    // At which character of the line the lane of the transaction is.
    fn column(&self, t: TxnId) -> Option<usize> {
        Some(self.selection.column(t)?.saturating_mul(self.layout.lane))
    }

    // Puts a bar on each lane that is open at the row, or after it.
    fn put_open(&mut self, row: usize, is_after: bool) {
        self.canvas.clear();
        for (lane, t) in self.heads.iter().enumerate() {
            if self.lanes.is_open(*t, row, is_after) {
                let column = lane.saturating_mul(self.layout.lane);
                self.canvas.put(column, '|', Ink::Faint);
            }
        }
    }

    // Puts a mark on its lane.
    fn put_mark(&mut self, marked: Marked) {
        let Some(column) = self.column(marked.txn) else {
            return;
        };
        let (glyph, ink, _) = marked.mark.look();
        if marked.mark != Mark::Met {
            self.canvas.put(column, glyph, ink);
        }
        if let Some(number) = self.number_after(marked) {
            self.canvas
                .put_number(column.saturating_add(1), number, ink);
        }
    }

    // The number that follows the mark: that of an operation, or of a transaction that starts on a lane that may have been that
    // of another.
    fn number_after(&self, marked: Marked) -> Option<u32> {
        match marked.mark {
            Mark::Operation(op) => Some(op.0),
            Mark::Start if self.selection.is_reused => Some(u32::from(marked.txn.0)),
            _ => None,
        }
    }

    // Puts the head of an arrow beside the lane to which it goes, or beside the number of so many digits that follows the lane.
    fn put_head(&mut self, from: usize, to: usize, number: usize, ink: Ink) {
        if from < to {
            self.canvas.put(to.saturating_sub(1), '>', ink);
        } else {
            let end = to.saturating_add(number).saturating_add(1);
            self.canvas.put(end, '<', ink);
        }
    }

    // Puts a tie to the lane of the partner, with a head there.
    fn put_tie(&mut self, from: TxnId, partner: Marked, tie: Tie) {
        let to = self.column(partner.txn);
        let (glyph, ink) = match tie {
            Tie::Starts | Tie::Hands => ('-', Ink::Tie),
            Tie::Permits => ('.', Ink::Tie),
            Tie::Depends => ('~', Ink::Edge),
        };
        if let (Tie::Depends, Some(to)) = (tie, to) {
            // (the lane may not have begun)
            self.canvas.put(to, '*', Ink::Plain);
        }
        if let (Some(from), Some(to)) = (self.column(from), to) {
            let number = self.number_after(partner);
            let count = number.map_or(0, |number| digits(number as usize));
            self.put_head(from, to, count, ink);
            self.canvas.fill(from.min(to), from.max(to), glyph, ink);
        }
    }

    // Puts an arrow for each edge of the transaction, on the lane of the one on which it depends.
    fn put_edges(&mut self, row: &Row<'_, A>) {
        let Some(from) = self.column(row.figure.actor.txn) else {
            return;
        };
        let mut left = from;
        let mut right = from;
        for edge in row.formed {
            if let Some(to) = self.column(edge.i) {
                self.put_head(from, to, 0, Ink::Edge);
                left = left.min(to);
                right = right.max(to);
            }
        }
        self.canvas.fill(left, right, '~', Ink::Edge);
    }

    // Puts all that a row is on the lanes.
    fn put_row(&mut self, row: &Row<'_, A>) {
        self.put_open(row.number, false);
        self.put_mark(row.figure.actor);
        match row.figure.partner {
            Some((partner, tie)) => {
                self.put_mark(partner);
                self.put_tie(row.figure.actor.txn, partner, tie);
            }
            None => self.put_edges(row),
        }
    }
}

// The lines.
impl<'a, A: Handle> Page<'a, A> {
    // Adds the label of a line, so wide, and the lanes after it.
    fn put_front(&self, text: Prose<A>, label: &str) -> Prose<A> {
        let front = PLACE.saturating_sub(2);
        let text = text.pad(front.saturating_sub(label.width()));
        self.canvas.put_to(put!(text; label, "  "), self.is_colored)
    }

    // Adds the words of a line whose lanes are put. What doesn't fit follows in lines beside the lanes that are open after the
    // row.
    fn put_words(&mut self, text: Prose<A>, words: Words<'_>) -> Prose<A> {
        let layout = self.layout;
        let wide = words.event.width();
        if layout.words < wide {
            return self.put_long(text, words);
        }
        let text = text.put(words.event);
        if words.note.is_empty() {
            return text.put("\n");
        }
        if layout.note > 0 && wide <= layout.event {
            let indent = layout.event.saturating_add(2);
            let text = text.pad(indent.saturating_sub(wide));
            self.put_note(text, words, layout.note, indent, true)
        } else {
            let width = layout.words.saturating_sub(2);
            self.put_note(text.put("\n"), words, width, 2, false)
        }
    }

    // Adds the words of a line whose event doesn't fit beside the lanes: the event in lines, and the note below it.
    fn put_long(&mut self, text: Prose<A>, words: Words<'_>) -> Prose<A> {
        let width = self.layout.words.saturating_sub(2);
        let event = Words {
            note: words.event,
            is_list: false,
            ink: Ink::Plain,
            ..words
        };
        let text = self.put_note(text, event, width, 2, true);
        if words.note.is_empty() {
            return text;
        }
        self.put_note(text, words, width, 2, false)
    }

    // Adds the note in lines, at most so wide and so far from the lanes. The first may be beside the event.
    fn put_note(
        &mut self,
        mut text: Prose<A>,
        words: Words<'_>,
        width: usize,
        indent: usize,
        is_beside: bool,
    ) -> Prose<A> {
        let Ok(lines) = wrapped(self.alloc, words.note, width, words.is_list) else {
            return text.fail();
        };
        for (number, line) in lines.iter().enumerate() {
            if number > 0 || !is_beside {
                self.put_open(words.row, true);
                text = self.put_front(text, "").pad(indent);
            }
            text = if self.is_colored {
                put!(text; words.ink.escape(), line.as_str(), Ink::Plain.escape(), "\n")
            } else {
                put!(text; line.as_str(), "\n")
            };
        }
        text
    }

    // Adds the line of the numbers of the lanes above the row. A column whose last lane ends before the row has no number.
    fn put_header(&mut self, text: Prose<A>, row: usize) -> Prose<A> {
        self.canvas.clear();
        for (lane, t) in self.heads.iter().enumerate() {
            if !self.selection.columns.is_over(*t, row) {
                let column = lane.saturating_mul(self.layout.lane);
                self.canvas.put_number(column, u32::from(t.0), Ink::Plain);
            }
        }
        self.put_front(text, "place").put("event\n")
    }

    // The label of a row, its event, and the note on it.
    fn parts_of(&self, row: &Row<'_, A>) -> Result<(String<A>, String<A>, String<A>), AllocError> {
        let label = Prose::new(self.alloc);
        let label = if row.step.is_admitted() {
            label.put(row.place)
        } else if has_lane(row.figure.actor.txn) {
            label.put("-")
        } else {
            // (a number that no transaction can have is on no lane)
            label.put("x -")
        };
        let event = event_text(self.lanes, row, self.layout.words)?;
        let note = put_note(Prose::new(self.alloc), row).done()?;
        Ok((label.done()?, event, note))
    }

    // Adds a row.
    fn put_line(&mut self, text: Prose<A>, row: &Row<'_, A>) -> Prose<A> {
        self.put_row(row);
        let Ok((label, event, note)) = self.parts_of(row) else {
            return text.fail();
        };
        let is_admitted = row.step.is_admitted();
        let words = Words {
            row: row.number,
            event: event.as_str(),
            note: note.as_str(),
            is_list: is_admitted,
            ink: if is_admitted { Ink::Edge } else { Ink::Bad },
        };
        let text = self.put_front(text, label.as_str());
        self.put_words(text, words)
    }

    // Adds a debt.
    fn put_debt(&mut self, text: Prose<A>, owed: &Owed) -> Prose<A> {
        let row = self.lanes.places.len();
        self.put_open(row, true);
        self.put_mark(Marked {
            txn: owed.txn,
            mark: Mark::Owes,
        });
        let text = self.put_front(text, "");
        let Ok(line) = owed_line(self.alloc, owed) else {
            return text.fail();
        };
        let Ok(note) = put_debt_note(Prose::new(self.alloc), self.lanes, owed).done() else {
            return text.fail();
        };
        let words = Words {
            row,
            event: name_text(line.as_slice()),
            note: note.as_str(),
            is_list: false,
            ink: Ink::Edge,
        };
        self.put_words(text, words)
    }

    // Adds all rows, with a header above every so many, and what is owed.
    fn put_lines(&mut self, mut text: Prose<A>) -> Prose<A> {
        let (lanes, selection) = (self.lanes, self.selection);
        for (count, number) in selection.rows.iter().enumerate() {
            selection.pass(&mut self.heads, *number);
            if count % HEADER_ROWS == 0 {
                text = self.put_header(text, *number);
            }
            if let Some(row) = lanes.row(*number) {
                text = self.put_line(text, &row);
            }
        }
        if selection.rows.is_empty() {
            text = self.put_header(text, 0);
        }
        self.put_debts(text)
    }

    // Adds the debts.
    fn put_debts(&mut self, mut text: Prose<A>) -> Prose<A> {
        let (lanes, selection) = (self.lanes, self.selection);
        let Ok(debts) = selection.debts(lanes) else {
            return text.fail();
        };
        selection.pass(&mut self.heads, lanes.places.len());
        for owed in debts.iter() {
            text = self.put_debt(text, owed);
        }
        text
    }
}

/// Adds a notice in lines of at most this width.
pub fn put_notice<A: Handle>(mut text: Prose<A>, alloc: A, notice: &str, width: usize) -> Prose<A> {
    let Ok(lines) = wrapped(alloc, notice, width, false) else {
        return text.fail();
    };
    for line in lines.iter() {
        text = put!(text; line.as_str(), "\n");
    }
    text
}

// The width of the widest event of the rows that are drawn, and of what is owed.
fn longest<A: Handle>(lanes: &Lanes<A>, selection: &Selection<A>) -> Result<usize, AllocError> {
    let mut longest = "event".len();
    for number in selection.rows.iter() {
        if let Some(row) = lanes.row(*number) {
            longest = longest.max(event_text(lanes, &row, usize::MAX)?.as_str().width());
        }
    }
    if selection.has_end {
        for owed in lanes.owed.iter() {
            // (`owed EDGE TXN commit`)
            let edge = digits(owed.edge.0 as usize);
            let txn = digits(usize::from(owed.txn.0));
            longest = longest.max(
                edge.saturating_add(txn)
                    .saturating_add("owed   commit".len()),
            );
        }
    }
    Ok(longest)
}

/// The picture of the lanes that are chosen, as a text, and after it the line that stopped the run, if one did.
pub fn draw_text<A: Handle>(
    lanes: &Lanes<A>,
    choice: &Choice,
    screen: Screen,
    stop: &str,
) -> Result<String<A>, AllocError> {
    let alloc = lanes.run.allocator();
    let selection = Selection::of(lanes, choice, most_lanes(lanes, screen.width))?;
    let layout = Layout::of(lanes, &selection, screen.width, longest(lanes, &selection)?);
    let left_out = put_left_out(Prose::new(alloc), lanes, &selection, choice).done()?;
    let mut page = Page {
        alloc,
        lanes,
        selection: &selection,
        layout,
        is_colored: screen.is_colored,
        canvas: Canvas::new(alloc, layout.lanes)?,
        heads: Vec::from_slice(alloc, selection.columns.heads.as_slice())?,
    };
    let text = put_notice(Prose::new(alloc), alloc, left_out.as_str(), screen.width);
    page.put_lines(text).put(stop).done()
}
