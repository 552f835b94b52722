//! Where the parts of an SVG are: the lanes, the rows, and the words beside them.

ghost use Rattle.std.specs.Prelude.{◌<◌};

use crate::arrows::{Arrow, arrows_of};
use crate::lanes::{Lanes, Row};
use crate::markup::MARGIN;
use crate::notation::operation_label;
use crate::selection::{HEADER_ROWS, Selection};
use crate::sentences::{event_text, put_note};
use crate::wrapping::put_cut;
use acta_machine::Handle;
use acta_prose::Prose;
use acta_table::TxnId;
use std::alloc::AllocError;
use unicode_width::UnicodeWidthStr;

/// The right end of the places.
pub const PLACE_X: usize = 50;

/// The height of the heads of the lanes, which are above the first row and above further ones.
pub const HEADS: usize = 60;

/// How far a line of words is below the one above it.
pub const NEXT_WORDS: usize = 16;

/// The height of a row with nothing below its line, and how far its line is below its upper end.
pub const ROW: usize = 30;

pub const MIDDLE: usize = 15;

// How far the first arrow is below the line of its row, and each below the one before.
const FIRST_ARROW: usize = 26;

const NEXT_ARROW: usize = 19;

// The most characters of an event, and of the note below it.
const MOST_WORDS: usize = 120;

// The least and the largest distance of two lanes.
const LEAST_GAP: usize = 84;

const MOST_GAP: usize = 240;

// The least width of the whole, of its words, and of these where something is owed in the end.
const LEAST_WIDTH: usize = 480;

const LEAST_WORDS: usize = 240;

const OWED_WORDS: usize = 450;

/// A row that is drawn, with what is shown of it, and where.
#[derive(Drop)]
pub struct RowBox<A: Handle> {
    /// The number of the row.
    pub number: usize,
    /// The transactions of the columns, where their heads are above the row.
    pub heads: Vec<TxnId, A>,
    /// The operation of the row in short notation.
    pub label: String<A>,
    /// The event, and what it returned.
    pub event: String<A>,
    /// The note below the event.
    pub note: String<A>,
    /// The edges that it formed.
    pub arrows: Vec<Arrow<A>, A>,
    /// Where its upper end is.
    pub top: usize,
    /// Where its line is.
    pub y: usize,
    /// Where the first arrow is. The arrow of an event that forms an edge is at the line of the row.
    pub arrow_y: usize,
    /// Where its lower end is.
    pub end: usize,
}

/// What is drawn, and where all is.
#[derive(Drop)]
pub struct SvgLayout<'a, A: Handle> {
    pub lanes: &'a Lanes<A>,
    pub selection: &'a Selection<A>,
    /// The distance of two lanes.
    pub gap: usize,
    /// Where the words of a row begin.
    pub words_x: usize,
    /// The rows that are drawn, in order.
    pub boxes: Vec<RowBox<A>, A>,
    /// The lower end of the rows.
    pub rows_end: usize,
    /// The width of the whole.
    pub width: usize,
}

/// A point so far to the right or to the left of another.
pub fn aside(x: usize, is_right: bool, by: usize) -> usize {
    if is_right {
        x.saturating_add(by)
    } else {
        x.saturating_sub(by)
    }
}

// How wide a text is, at most, whose characters are so high and so many hundredths of that wide.
fn text_width(text: &str, height: usize, hundredths: usize) -> usize {
    text.width()
        .saturating_mul(height)
        .saturating_mul(hundredths)
        .div_ceil(100)
}

// How wide a character is, in hundredths of its height: in code, where all are equally wide, and in other texts. A little is
// added.
const CODE: usize = 61;

const LABEL: usize = 64;

/// The width of a label beside an arrow or a lane.
pub fn label_width(label: &str) -> usize {
    text_width(label, 11, LABEL)
}

/// The width of a note.
pub fn note_width(note: &str) -> usize {
    text_width(note, 11, CODE)
}

/// The width of the box of an operation with this label.
pub fn box_width(label: &str) -> usize {
    text_width(label, 11, 67).saturating_add(11)
}

// The note below the event of a row: why it was refused, or the edges where an arrow lacks since a lane of it isn't drawn.
fn note_of<A: Handle>(
    alloc: A,
    selection: &Selection<A>,
    row: &Row<'_, A>,
) -> Result<String<A>, AllocError> {
    let has_arrows = row.formed.iter().all(|edge| selection.has_edge(edge));
    if row.step.is_admitted() && has_arrows && !(row.is_form() && row.formed.is_empty()) {
        return Ok(String::new(alloc));
    }
    let note = put_note(Prose::new(alloc), row).done()?;
    put_cut(Prose::new(alloc), note.as_str(), MOST_WORDS).done()
}

impl<A: Handle> RowBox<A> {
    // The box of the row, with its upper end here.
    fn of(
        lanes: &Lanes<A>,
        selection: &Selection<A>,
        row: &Row<'_, A>,
        heads: Vec<TxnId, A>,
        top: usize,
    ) -> Result<RowBox<A>, AllocError> {
        let alloc = lanes.run.allocator();
        let label = operation_label(alloc, lanes.run.machine().model(), row)?;
        let event = event_text(lanes, row, MOST_WORDS)?;
        let note = note_of(alloc, selection, row)?;
        let arrows = arrows_of(alloc, selection, row)?;
        let words = if note.is_empty() { 0 } else { NEXT_WORDS };
        let y = top.saturating_add(MIDDLE);
        let (arrow_y, below) = if row.is_form() || arrows.is_empty() {
            (y, 0)
        } else {
            let below = arrows.len().saturating_mul(NEXT_ARROW);
            (y.saturating_add(FIRST_ARROW), below.saturating_add(2))
        };
        Ok(RowBox {
            number: row.number,
            heads,
            label,
            event,
            note,
            arrows,
            top,
            y,
            arrow_y,
            end: top.saturating_add(ROW).saturating_add(words.max(below)),
        })
    }

    /// Where its arrow of this number is, from 0.
    pub fn y_of(&self, arrow: usize) -> usize {
        if self.arrow_y == self.y {
            self.y
        } else {
            self.arrow_y
                .saturating_add(arrow.saturating_mul(NEXT_ARROW))
        }
    }

    // The least distance of two lanes with room for the labels of the row.
    fn least_gap(&self) -> usize {
        let mut gap = box_width(self.label.as_str()).saturating_add(14);
        for arrow in self.arrows.iter() {
            gap = gap.max(label_width(arrow.label.as_str()).saturating_add(28));
        }
        gap
    }
}

// How many rows are below the heads of so many columns. With many columns they are more, so that all heads together are not many
// times as many as the rows.
fn rows_between(columns: usize) -> usize
    ensures { 0 < result }
{
    HEADER_ROWS.max(columns / 8)
}

// The boxes of all rows. Heads are above each so many of them.
fn boxes_of<A: Handle>(
    lanes: &Lanes<A>,
    selection: &Selection<A>,
) -> Result<Vec<RowBox<A>, A>, AllocError> {
    let alloc = lanes.run.allocator();
    let mut boxes: Vec<RowBox<A>, A> = Vec::new(alloc);
    let mut current = Vec::from_slice(alloc, selection.columns.heads.as_slice())?;
    let every = rows_between(current.len());
    let mut end = 0usize;
    for (count, number) in selection.rows.iter().enumerate() {
        let Some(row) = lanes.row(*number) else {
            continue;
        };
        selection.pass(&mut current, *number);
        let mut heads = Vec::new(alloc);
        if count % every == 0 {
            heads.extend_from_slice(current.as_slice())?;
            end = end.saturating_add(HEADS);
        }
        let row_box = RowBox::of(lanes, selection, &row, heads, end)?;
        end = row_box.end;
        boxes.push(row_box)?;
    }
    Ok(boxes)
}

// The distance of two lanes.
fn gap_of<A: Handle>(lanes: &Lanes<A>, selection: &Selection<A>, boxes: &[RowBox<A>]) -> usize {
    let mut gap = LEAST_GAP;
    for t in selection.lanes.iter() {
        let class = lanes.class_name(*t).unwrap_or("");
        gap = gap.max(label_width(class).saturating_add(12));
    }
    for row_box in boxes {
        gap = gap.max(row_box.least_gap());
    }
    gap.min(MOST_GAP)
}

impl<'a, A: Handle> SvgLayout<'a, A> {
    /// Where all is of what is drawn.
    pub fn of(
        lanes: &'a Lanes<A>,
        selection: &'a Selection<A>,
    ) -> Result<SvgLayout<'a, A>, AllocError> {
        let boxes = boxes_of(lanes, selection)?;
        let rows_end = boxes.last().map_or(HEADS, |row_box| row_box.end);
        let gap = gap_of(lanes, selection, boxes.as_slice());
        let has_debts = selection.has_end && !lanes.owed.is_empty();
        let mut words = if has_debts { OWED_WORDS } else { LEAST_WORDS };
        for row_box in boxes.iter() {
            words = words.max(text_width(row_box.event.as_str(), 12, CODE));
            words = words.max(note_width(row_box.note.as_str()));
        }
        let mut layout = SvgLayout {
            lanes,
            selection,
            gap,
            words_x: 0,
            boxes,
            rows_end,
            width: 0,
        };
        layout.words_x = layout
            .lane_x(selection.columns.heads.len())
            .saturating_sub(gap / 4);
        let width = layout.words_x.saturating_add(words).saturating_add(MARGIN);
        layout.width = width.max(LEAST_WIDTH);
        Ok(layout)
    }

    /// Where the lane of this number is, from the left and from 0.
    pub fn lane_x(&self, lane: usize) -> usize {
        let left = self.gap.saturating_mul(lane).saturating_add(PLACE_X + 8);
        left.saturating_add(self.gap.div_ceil(2))
    }

    /// Where the lane of the transaction is, if it is drawn.
    pub fn x(&self, t: TxnId) -> Option<usize> {
        Some(self.lane_x(self.selection.column(t)?))
    }

    /// The box of the row of this number, if it is drawn.
    pub fn box_of(&self, number: usize) -> Option<&RowBox<A>> {
        let boxes = self.boxes.as_slice();
        let first = boxes.partition_point(|row_box| row_box.number < number);
        match boxes.get(first) {
            Some(row_box) if row_box.number == number => Some(row_box),
            _ => None,
        }
    }

    /// Where the row of this number is: at the top where it is before those that are drawn, and at the bottom where it is
    /// after them.
    pub fn row_y(&self, number: usize, top: usize, bottom: usize) -> usize {
        let boxes = self.boxes.as_slice();
        let first = boxes.partition_point(|row_box| row_box.number < number);
        match boxes.get(first) {
            Some(row_box) if first > 0 || row_box.number == number => row_box.y,
            Some(_) => top,
            None => bottom,
        }
    }
}
