//! The lines of an SVG from refused events to the operations, edges and transactions that block them.

use crate::blockers::Blocker;
use crate::markup::{END_OF_GROUP, put_titled};
use crate::svg_layout::{SvgLayout, aside};
use acta_machine::Handle;
use acta_prose::{Prose, put};
use acta_table::TxnId;
use std::alloc::{AllocError, Allocator};

// How far the end of a line is from the foot of an arrow.
const FOOT: usize = 9;

// The most height of a line. For a blocker farther up there is only the lower end of a line.
const MOST_HEIGHT: usize = 1_200;

// How far that end goes to the side and up. It stays in its row, since the heads above a row cover what is behind them.
const SIDE: usize = 20;

const UP: usize = 6;

/// A line from a refused event to a blocker of it.
#[derive(Clone, Copy)]
pub struct Block {
    /// The row of the refused event.
    row: usize,
    blocker: Blocker,
    // The point of the refused event, and that of the blocker.
    from: (usize, usize),
    to: (usize, usize),
}

impl<'a, A: Handle> SvgLayout<'a, A> {
    // The point below the mark of a row on the lane of the transaction, or of the one that does the event.
    fn mark_point(&self, row: usize, t: Option<TxnId>) -> Option<(usize, usize)> {
        let row_box = self.box_of(row)?;
        let actor = self.lanes.row(row)?.figure.actor.txn;
        let x = self.x(t.unwrap_or(actor))?;
        Some((x, row_box.y.saturating_add(11)))
    }

    // The point below the foot of the arrow of an edge, beside the lane of the one that depends.
    fn edge_point(&self, row: usize, number: u32) -> Option<(usize, usize)> {
        let row_box = self.box_of(row)?;
        let number = u64::from(number);
        let place = row_box.arrows.iter().position(|arrow| arrow.has(number))?;
        let arrow = row_box.arrows.get(place)?;
        let (from, to) = (self.x(arrow.j)?, self.x(arrow.i)?);
        let x = aside(from, from < to, FOOT);
        Some((x, row_box.y_of(place).saturating_add(8)))
    }

    // The line from the refused event of a row to the blocker, where both are drawn.
    fn block(&self, row: usize, blocker: Option<Blocker>) -> Option<Block> {
        let blocker = blocker?;
        let target = self.lanes.row_of(Some(blocker), row)?;
        let to = match blocker {
            Blocker::Operation(_) => self.mark_point(target, None)?,
            Blocker::Edge(number) => self.edge_point(target, number)?,
            Blocker::Start(t) | Blocker::End(t) => self.mark_point(target, Some(t))?,
        };
        let (x, y) = self.mark_point(row, None)?;
        let from = (x, y.saturating_sub(19));
        Some(Block {
            row,
            blocker,
            from,
            to: near(from, to),
        })
    }
}

// The end of a line from a point to another: that point, or a near one in its direction.
fn near(from: (usize, usize), to: (usize, usize)) -> (usize, usize) {
    let (x, y) = from;
    let (to_x, to_y) = to;
    if y.saturating_sub(to_y) <= MOST_HEIGHT {
        to
    } else {
        (aside(x, x <= to_x, SIDE), y.saturating_sub(UP))
    }
}

/// The lines of all refused events that are drawn.
pub fn blocks_of<A: Handle>(layout: &SvgLayout<'_, A>) -> Result<Vec<Block, A>, AllocError> {
    let mut blocks = Vec::new(layout.lanes.run.allocator());
    for row_box in layout.boxes.iter() {
        let [first, second] = layout.lanes.blockers(row_box.number);
        if let Some(block) = layout.block(row_box.number, first) {
            blocks.push(block)?;
        }
        if let Some(block) = layout.block(row_box.number, second) {
            blocks.push(block)?;
        }
    }
    Ok(blocks)
}

// Adds the name of a blocker.
fn put_name<A: Allocator>(prose: Prose<A>, blocker: Blocker) -> Prose<A> {
    match blocker {
        Blocker::Operation(op) => put!(prose; "operation ", op.0),
        Blocker::Edge(number) => put!(prose; "edge ", number),
        Blocker::Start(t) => put!(prose; "the start of ", t.0),
        Blocker::End(t) => put!(prose; "the end of ", t.0),
    }
}

/// Adds a line. On one lane, or to the foot of an arrow beside it, it goes round the marks between its ends.
pub fn put_block<A: Handle>(out: Prose<A>, layout: &SvgLayout<'_, A>, block: &Block) -> Prose<A> {
    let lanes = layout.lanes;
    let alloc = lanes.run.allocator();
    let event = lanes
        .row(block.row)
        .map_or("", |row| row.text.event.as_str());
    let Ok(title) = put!(put_name(Prose::new(alloc), block.blocker); " blocks ", event).done()
    else {
        return out.fail();
    };
    let ((x, y), (to_x, to_y)) = (block.from, block.to);
    let out = put_titled(out, title.as_str());
    let out = put!(out; "<path class=\"block\" d=\"M", x, " ", y);
    let out = if x.abs_diff(to_x) <= FOOT {
        // (a short line has few marks to go round)
        let height = y.abs_diff(to_y);
        let wide = (layout.gap.saturating_mul(5) / 8).min(height.saturating_mul(2));
        let side = aside(x, x <= to_x, wide);
        put!(out; "C", side, " ", y, " ", side, " ", to_y, " ", to_x, " ", to_y)
    } else {
        put!(out; "L", to_x, " ", to_y)
    };
    put!(out; "\" marker-end=\"url(#acta-draw-block)\"/>", END_OF_GROUP)
}
