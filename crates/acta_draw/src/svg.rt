//! A picture as an SVG, which a browser shows.

use crate::arrows::Arrow;
use crate::blocks::{Block, blocks_of, put_block};
use crate::choice::Choice;
use crate::lanes::{Lanes, Row};
use crate::legend::{Entry, entries_of, height, put_legend};
use crate::marks::{Mark, Marked, Tie, has_lane};
use crate::markup::{
    END, END_OF_GROUP, END_OF_TEXT, LINE, MARGIN, put_box, put_circle, put_line, put_lines,
    put_open, put_text, put_text_at, put_titled,
};
use crate::selection::Selection;
use crate::sentences::{put_debt, put_debt_note, put_left_out, title_of};
use crate::svg_layout::{
    HEADS, MIDDLE, NEXT_WORDS, PLACE_X, ROW, RowBox, SvgLayout, aside, box_width,
};
use crate::wrapping::{put_cut, wrapped};
use acta_machine::Handle;
use acta_prose::{Prose, digits, put};
use acta_script::owed_line;
use acta_table::{Owed, TxnId};
use std::alloc::AllocError;

// Where the cross of a refused event is that is of no lane.
const NOWHERE_X: usize = 24;

// How high the boxes and circles of marks are.
const MARK: usize = 18;

// The most lanes that a picture has, as many as there can be transactions.
const ALL_LANES: usize = 16_384;

// What a picture is of.
#[derive(Drop)]
struct Drawn<'a, A: Handle> {
    layout: SvgLayout<'a, A>,
    blocks: Vec<Block, A>,
    debts: Vec<Owed, A>,
    legend: Vec<Entry, A>,
}

// The width of the mark of a transaction that starts.
fn start_width(t: TxnId) -> usize {
    digits(usize::from(t.0))
        .saturating_mul(7)
        .saturating_add(11)
}

/// Adds a mark at a point. A start shows the number of the transaction, and an operation this label.
pub fn put_mark<A: Handle>(
    out: Prose<A>,
    marked: Marked,
    label: &str,
    x: usize,
    y: usize,
) -> Prose<A> {
    let (glyph, _, class) = marked.mark.look();
    let base = y.saturating_add(4);
    match marked.mark {
        Mark::Start => {
            let out = put_box(
                out,
                class,
                (x, y),
                (start_width(marked.txn), MARK),
                MARK / 2,
            );
            put!(put_text_at(out, "in", x, base); marked.txn.0, END_OF_TEXT)
        }
        Mark::Operation(_) => {
            let out = put_box(out, class, (x, y), (box_width(label), MARK), 3);
            put_text(out, "in on", x, base, label)
        }
        Mark::Point | Mark::Met => put_circle(out, class, x, y, 4),
        Mark::Refused => put_cross(out, class, x, y),
        Mark::Committed | Mark::Aborted | Mark::Joined | Mark::Owes => {
            let out = put_circle(out, class, x, y, MARK / 2);
            put!(put_text_at(out, "in on", x, base); glyph, END_OF_TEXT)
        }
    }
}

// Adds a cross.
fn put_cross<A: Handle>(out: Prose<A>, class: &str, x: usize, y: usize) -> Prose<A> {
    let (left, right) = (x.saturating_sub(6), x.saturating_add(6));
    let (high, low) = (y.saturating_sub(6), y.saturating_add(6));
    put!(out; "<path class=\"", class, "\" d=\"M", left, " ", high, "L", right, " ", low, "M", left, " ", low,
        "L", right, " ", high, "\"/>")
}

// The lanes and their heads.
impl<'a, A: Handle> Drawn<'a, A> {
    // From where to where the lane goes in the picture, where some of it is in it.
    fn extent(&self, t: TxnId, bottom: usize) -> Option<(usize, usize)> {
        let steps = self.layout.lanes.steps();
        let top = HEADS.saturating_sub(4);
        let from = self.layout.row_y(steps.begin_of(t)?, top, bottom);
        let to = match steps.end_of(t) {
            Some(ended) => self.layout.row_y(ended, top, bottom),
            None => bottom,
        };
        if from < to { Some((from, to)) } else { None }
    }

    // Adds the lanes, which end at the bottom where they haven't ended.
    fn put_lanes(&self, mut out: Prose<A>, bottom: usize) -> Prose<A> {
        for column in 0..self.layout.selection.columns.heads.len() {
            let x = self.layout.lane_x(column);
            out = put_line(out, "guide", (x, HEADS), (x, bottom));
        }
        for t in self.layout.selection.lanes.iter() {
            if let (Some(x), Some((from, to))) = (self.layout.x(*t), self.extent(*t, bottom)) {
                out = put_line(out, "lane", (x, from), (x, to));
            }
        }
        out
    }

    // Adds the head of a lane: the number of the transaction, and its class.
    fn put_head(&self, out: Prose<A>, t: TxnId, x: usize, y: usize) -> Prose<A> {
        let most = self.layout.gap.saturating_sub(8) / 7;
        let class = self.layout.lanes.class_name(t);
        let out = put!(out; "<g><title>transaction ", t.0);
        let out = match class {
            Some(class) => put!(out; ", of the class ", class),
            None => out.put(", which has not begun"),
        };
        let out = put_text_at(out.put("</title>"), "head", x, y);
        let out = put_text_at(
            put!(out; t.0, END_OF_TEXT),
            "class",
            x,
            y.saturating_add(16),
        );
        let out = put_cut(out, class.unwrap_or(""), most);
        put!(out; END_OF_TEXT, END_OF_GROUP)
    }

    // Adds the heads of the columns on a band with this lower end, which covers the lanes. A column whose last lane ends before
    // the row below the band has no head.
    fn put_heads(&self, out: Prose<A>, heads: &[TxnId], end: usize, row: usize) -> Prose<A> {
        let top = end.saturating_sub(HEADS);
        let y = top.saturating_add(28);
        let width = self.layout.width.saturating_sub(2 * MARGIN);
        let out = put!(out; "<rect class=\"band\" x=\"", MARGIN, "\" y=\"", top.saturating_add(8),
            "\" width=\"", width, "\" height=\"", HEADS - 8, "\"/>\n");
        let out = put_text(out, "place", PLACE_X, y, "place");
        let mut out = put_text(out, "note", self.layout.words_x, y, "event");
        for (column, t) in heads.iter().enumerate() {
            if !self.layout.selection.columns.is_over(*t, row) {
                out = self.put_head(out, *t, self.layout.lane_x(column), y);
            }
        }
        out
    }

    // Adds the heads above the rows that have some.
    fn put_all_heads(&self, mut out: Prose<A>) -> Prose<A> {
        if self.layout.boxes.is_empty() {
            return self.put_heads(
                out,
                self.layout.selection.columns.heads.as_slice(),
                HEADS,
                0,
            );
        }
        for row_box in self.layout.boxes.iter() {
            if !row_box.heads.is_empty() {
                let heads = row_box.heads.as_slice();
                out = self.put_heads(out, heads, row_box.top, row_box.number);
            }
        }
        out
    }
}

// The rows.
impl<'a, A: Handle> Drawn<'a, A> {
    // Adds the tie between two lanes.
    fn put_tie(&self, out: Prose<A>, y: usize, row: &Row<'_, A>) -> Prose<A> {
        let Some((partner, tie)) = row.figure.partner else {
            return out;
        };
        match (
            self.layout.x(row.figure.actor.txn),
            self.layout.x(partner.txn),
        ) {
            (Some(from), Some(to)) => put_curve(out, tie, from, to, y, partner.txn),
            _ => out,
        }
    }

    // Adds an arrow, with its label beside the lane of the one that depends. It ends so far beside the lane.
    fn put_arrow(&self, out: Prose<A>, arrow: &Arrow<A>, y: usize, beside: usize) -> Prose<A> {
        let (Some(from), Some(to)) = (self.layout.x(arrow.j), self.layout.x(arrow.i)) else {
            return out;
        };
        let end = aside(to, from >= to, beside);
        let label = aside(from, from < to, self.layout.gap / 2);
        let out = put_titled(out, arrow.title.as_str());
        let out = put_circle(out, "foot", from, y, 3);
        let out = put!(out; "<path class=\"edge\" d=\"M", from, " ", y, "H", end,
            "\" marker-end=\"url(#acta-draw-edge)\"/>\n");
        let above = y.saturating_sub(4);
        let most = self.layout.gap.saturating_sub(14) / 7;
        let out = put_text_at(out, "label", label, above);
        put!(put_cut(out, arrow.label.as_str(), most); END_OF_TEXT, END_OF_GROUP)
    }

    // Adds a mark, where its lane is drawn. An operation has this label.
    fn put_marked(&self, out: Prose<A>, marked: Marked, label: &str, y: usize) -> Prose<A> {
        let x = if has_lane(marked.txn) {
            self.layout.x(marked.txn)
        } else {
            // (a number that no transaction has is of no lane)
            Some(NOWHERE_X)
        };
        match x {
            Some(x) => put_mark(out, marked, label, x, y),
            None => out,
        }
    }

    // Adds the place of a row, and at its other end the event and the note below it.
    fn put_words(
        &self,
        out: Prose<A>,
        row_box: &RowBox<A>,
        row: &Row<'_, A>,
        title: &str,
    ) -> Prose<A> {
        let base = row_box.y.saturating_add(4);
        let out = put_text_at(out, "place", PLACE_X, base);
        let (out, class, below) = if row.step.is_admitted() {
            (out.put(row.place), "code", "note")
        } else {
            (out.put("–"), "code no", "note no")
        };
        let out = put_titled(out.put(END_OF_TEXT), title);
        let x = self.layout.words_x;
        let out = put_text(out, class, x, base, row_box.event.as_str());
        let out = if row_box.note.is_empty() {
            out
        } else {
            let y = base.saturating_add(NEXT_WORDS);
            put_text(out, below, x, y, row_box.note.as_str())
        };
        out.put(END_OF_GROUP)
    }

    // Adds a row: its tie, its arrows, its marks, each of which says what happens at it, and its words.
    fn put_row(&self, out: Prose<A>, row_box: &RowBox<A>) -> Prose<A> {
        let Some(row) = self.layout.lanes.row(row_box.number) else {
            return out;
        };
        let Ok(title) = title_of(self.layout.lanes, &row) else {
            return out.fail();
        };
        let y = row_box.y;
        let mut out = self.put_tie(out, y, &row);
        // (an arrow ends beside the line of the lane, or beside a mark there)
        let beside = if row.is_form() { 6 } else { 2 };
        for (number, arrow) in row_box.arrows.iter().enumerate() {
            out = self.put_arrow(out, arrow, row_box.y_of(number), beside);
        }
        let label = row_box.label.as_str();
        let out = self.put_marked(put_titled(out, title.as_str()), row.figure.actor, label, y);
        let out = match row.figure.partner {
            Some((partner, _)) => self.put_marked(out, partner, "", y),
            None => out,
        };
        self.put_words(out.put(END_OF_GROUP), row_box, &row, title.as_str())
    }

    // Adds the rules between the rows.
    fn put_rules(&self, mut out: Prose<A>) -> Prose<A> {
        let right = self.layout.width.saturating_sub(MARGIN);
        for row_box in self.layout.boxes.iter() {
            out = put_line(out, "rule", (MARGIN, row_box.end), (right, row_box.end));
        }
        out
    }

    // Adds a debt, at this line.
    fn put_owed(&self, out: Prose<A>, owed: &Owed, y: usize) -> Prose<A> {
        let line = owed_line(self.layout.lanes.run.allocator(), owed);
        let marked = Marked {
            txn: owed.txn,
            mark: Mark::Owes,
        };
        let out = put_debt(out.put("<g><title>"), self.layout.lanes, owed).put("</title>");
        let out = self.put_marked(out, marked, "", y);
        let out = put_text_at(out, "code", self.layout.words_x, y.saturating_add(4));
        let out = acta_prose::put_line(out, line).put("  ");
        put!(put_debt_note(out, self.layout.lanes, owed); END_OF_TEXT, END_OF_GROUP)
    }

    // Adds the lanes, the rows, and the lines to blockers. The lanes end here where they haven't ended.
    fn put_rows(&self, out: Prose<A>, bottom: usize) -> Prose<A> {
        let out = self.put_lanes(self.put_rules(out), bottom);
        let mut out = self.put_all_heads(self.put_blocks(out));
        for row_box in self.layout.boxes.iter() {
            out = self.put_row(out, row_box);
        }
        out
    }

    // Adds the lines to blockers.
    fn put_blocks(&self, mut out: Prose<A>) -> Prose<A> {
        for block in self.blocks.iter() {
            out = put_block(out, &self.layout, block);
        }
        out
    }

    // Adds the debts, from this height on.
    fn put_debts(&self, mut out: Prose<A>, top: usize) -> Prose<A> {
        let mut y = top.saturating_add(MIDDLE);
        for owed in self.debts.iter() {
            out = self.put_owed(out, owed, y);
            y = y.saturating_add(ROW);
        }
        out
    }

    // Adds the whole picture, with a notice above it, and below it the line that stopped the run.
    fn put_all(&self, out: Prose<A>, notice: &[String<A>], stop: &str) -> Prose<A> {
        let width = self.layout.width;
        let debts = self.debts.len().saturating_mul(ROW);
        let rows_end = self.layout.rows_end;
        let lanes_end = rows_end.saturating_add(debts);
        let foot = if stop.is_empty() { 0 } else { LINE };
        let legend = lanes_end.saturating_add(foot).saturating_add(MARGIN + 8);
        let above = notice.len().saturating_mul(LINE);
        let below = legend.saturating_add(height(self.legend.as_slice(), width));
        let out = put_open(out, width, above.saturating_add(below));
        let out = put_lines(out, "note", LINE, notice);
        let out = put!(out; "<g transform=\"translate(0,", above, ")\">\n");
        let out = self.put_debts(self.put_rows(out, lanes_end), rows_end);
        let out = put_text(out, "code no", MARGIN, lanes_end.saturating_add(foot), stop);
        let out = put_legend(out, self.legend.as_slice(), width, legend);
        put!(out; END_OF_GROUP, END)
    }
}

// Adds a tie between two lanes, to that of this transaction.
fn put_curve<A: Handle>(
    out: Prose<A>,
    tie: Tie,
    from: usize,
    to: usize,
    y: usize,
    partner: TxnId,
) -> Prose<A> {
    // (an arrow ends beside the lane, or beside the mark of a start)
    let (class, beside) = match tie {
        Tie::Starts => ("tie", (start_width(partner) / 2).saturating_add(1)),
        Tie::Hands => ("tie", 5),
        Tie::Permits => ("permit", 5),
        Tie::Depends => return out,
    };
    let end = aside(to, from >= to, beside);
    let middle = from.saturating_add(end) / 2;
    let high = y.saturating_sub(16);
    put!(out; "<path class=\"", class, "\" d=\"M", from, " ", y, "Q", middle, " ", high, " ", end, " ", y,
        "\" marker-end=\"url(#acta-draw-tie)\"/>\n")
}

// The notice above a picture of this width, in lines.
fn notice<A: Handle>(
    lanes: &Lanes<A>,
    selection: &Selection<A>,
    choice: &Choice,
    width: usize,
) -> Result<Vec<String<A>, A>, AllocError> {
    let alloc = lanes.run.allocator();
    let words = put_left_out(Prose::new(alloc), lanes, selection, choice).done()?;
    wrapped(
        alloc,
        words.as_str(),
        width.saturating_sub(2 * MARGIN) / 7,
        false,
    )
}

/// The picture of the lanes that are chosen, as an SVG. The line that stopped the run, if one did, is below.
pub fn draw_svg<A: Handle>(
    lanes: &Lanes<A>,
    choice: &Choice,
    stop: &str,
) -> Result<String<A>, AllocError> {
    let alloc = lanes.run.allocator();
    let selection = Selection::of(lanes, choice, ALL_LANES)?;
    let layout = SvgLayout::of(lanes, &selection)?;
    let debts = selection.debts(lanes)?;
    let blocks = blocks_of(&layout)?;
    let (has_blocks, has_debts) = (!blocks.is_empty(), !debts.is_empty());
    let legend = entries_of(lanes, layout.boxes.as_slice(), has_blocks, has_debts)?;
    let notice = notice(lanes, &selection, choice, layout.width)?;
    let drawn = Drawn {
        layout,
        blocks,
        debts,
        legend,
    };
    drawn
        .put_all(Prose::new(alloc), notice.as_slice(), stop.trim_end())
        .done()
}

/// A picture of these words alone.
pub fn draw_words<A: Handle>(alloc: A, words: &str) -> Result<String<A>, AllocError> {
    let out = put_open(Prose::new(alloc), 480, 48);
    put_text(out, "code no", MARGIN, 28, words.trim_end())
        .put(END)
        .done()
}
