//! The meanings of the marks of an SVG, below it: of those that occur in it.

ghost use Rattle.std.specs.Prelude.{◌<◌};

use crate::lanes::{Lanes, Row};
use crate::marks::{Mark, Marked, Tie};
use crate::markup::{MARGIN, put_circle, put_sample, put_text};
use crate::svg::put_mark;
use crate::svg_layout::{RowBox, box_width, note_width};
use acta_machine::Handle;
use acta_prose::{Prose, operation_kind};
use acta_script::OpKind;
use acta_table::{Event, Op, OpNo, TxnId};
use std::alloc::AllocError;

/// The mark, line or operation that a legend explains.
#[derive(Clone, Copy)]
pub enum Sign {
    Mark(Mark),
    /// An operation of this kind, with an example of its notation.
    Operation(OpKind, &'static str),
    Tie,
    Permit,
    Edge,
    Block,
}

/// An entry of a legend: a sign, and its meaning.
pub type Entry = (Sign, &'static str);

// All entries.
const ENTRIES: [Entry; 19] = [
    (Sign::Mark(Mark::Start), "starts"),
    (Sign::Mark(Mark::Committed), "commits"),
    (Sign::Mark(Mark::Aborted), "aborts"),
    (Sign::Mark(Mark::Joined), "joins another"),
    (Sign::Mark(Mark::Point), "acts on another"),
    (Sign::Mark(Mark::Met), "is acted on"),
    (Sign::Mark(Mark::Refused), "is refused"),
    (Sign::Operation(OpKind::Write, "x:=5"), "writes 5 to x"),
    (Sign::Operation(OpKind::Read, "x?=5"), "reads x, gets 5"),
    (Sign::Operation(OpKind::Add, "n+5"), "adds 5 to n"),
    (
        Sign::Operation(OpKind::Insert, "s+{5}=yes"),
        "adds element 5: was absent",
    ),
    (
        Sign::Operation(OpKind::Remove, "s-{5}=yes"),
        "removes 5: was there",
    ),
    (
        Sign::Operation(OpKind::Has, "s?{5}=no"),
        "asks for 5: not there",
    ),
    (Sign::Operation(OpKind::Size, "s?#=5"), "counts s, gets 5"),
    (Sign::Block, "is blocked by"),
    (Sign::Tie, "starts, hands over"),
    (Sign::Permit, "permits"),
    (Sign::Edge, "depends on (e: edge)"),
    (Sign::Mark(Mark::Owes), "owes in the end"),
];

// The height of a row of entries.
const ENTRY: usize = 26;

// The width of an entry: that of the widest, and a gap.
fn entry_width(entries: &[Entry]) -> usize
    ensures { 0 < result }
{
    let mut widest = 0usize;
    for (sign, meaning) in entries {
        let width = sign_width(*sign).saturating_add(note_width(meaning));
        widest = widest.max(width);
    }
    widest.saturating_add(32)
}

// How many entries are side by side in a picture of the width.
fn beside(entries: &[Entry], width: usize) -> usize
    ensures { 0 < result }
{
    (width.saturating_sub(2 * MARGIN) / entry_width(entries)).max(1)
}

/// How high a legend is in a picture of the width.
pub fn height(entries: &[Entry], width: usize) -> usize {
    entries
        .len()
        .div_ceil(beside(entries, width))
        .saturating_mul(ENTRY)
        .saturating_add(MARGIN)
}

// Whether the sign occurs in the row.
fn occurs_in<A: Handle>(sign: Sign, row: &Row<'_, A>, row_box: &RowBox<A>) -> bool {
    let tie = row.figure.partner.map(|(_, tie)| tie);
    let met = row.figure.partner.map(|(partner, _)| partner.mark);
    match sign {
        Sign::Mark(Mark::Start) => row.step.began().is_some(),
        Sign::Mark(mark) => row.figure.actor.mark == mark || met == Some(mark),
        Sign::Operation(kind, _) => match row.step.event {
            Event::Operate(_, _, op) => row.step.is_admitted() && shown_kind(op) == kind,
            _ => false,
        },
        Sign::Tie => tie == Some(Tie::Starts) || tie == Some(Tie::Hands),
        Sign::Permit => tie == Some(Tie::Permits),
        Sign::Edge => !row_box.arrows.is_empty(),
        Sign::Block => false,
    }
}

// The kind of the operation; a `get` is shown as a `read`.
fn shown_kind(op: Op) -> OpKind {
    match operation_kind(op) {
        OpKind::Get => OpKind::Read,
        kind => kind,
    }
}

// Whether the sign occurs in a row.
fn occurs<A: Handle>(sign: Sign, lanes: &Lanes<A>, boxes: &[RowBox<A>]) -> bool {
    boxes.iter().any(|row_box| {
        let row = lanes.row(row_box.number);
        row.is_some_and(|row| occurs_in(sign, &row, row_box))
    })
}

/// The entries whose signs occur in the rows, those of lines to blockers and of debts where there are some.
pub fn entries_of<A: Handle>(
    lanes: &Lanes<A>,
    boxes: &[RowBox<A>],
    has_blocks: bool,
    has_debts: bool,
) -> Result<Vec<Entry, A>, AllocError> {
    let mut entries = Vec::new(lanes.run.allocator());
    for (sign, meaning) in ENTRIES {
        let is_due = match sign {
            Sign::Block => has_blocks,
            Sign::Mark(Mark::Owes) => has_debts,
            sign => occurs(sign, lanes, boxes),
        };
        if is_due {
            entries.push((sign, meaning))?;
        }
    }
    Ok(entries)
}

// Adds the sign of an entry, whose left end is here.
fn put_sign<A: Handle>(out: Prose<A>, sign: Sign, left: usize, y: usize) -> Prose<A> {
    let txn = TxnId(1);
    let from = left.saturating_add(2);
    let (class, head, out) = match sign {
        Sign::Mark(mark) => {
            return put_mark(out, Marked { txn, mark }, "", left.saturating_add(14), y);
        }
        Sign::Operation(_, example) => {
            let mark = Mark::Operation(OpNo(1));
            let middle = left.saturating_add(box_width(example) / 2);
            return put_mark(out, Marked { txn, mark }, example, middle, y);
        }
        Sign::Tie => ("tie", "tie", out),
        Sign::Permit => ("permit", "tie", out),
        Sign::Edge => ("edge", "edge", put_circle(out, "foot", from, y, 3)),
        Sign::Block => ("block", "block", out),
    };
    put_sample(out, class, head, from, y)
}

// The width of the sign of an entry.
fn sign_width(sign: Sign) -> usize {
    match sign {
        Sign::Operation(_, example) => box_width(example),
        _ => 28,
    }
}

/// Adds the legend, from this height on.
pub fn put_legend<A: Handle>(
    mut out: Prose<A>,
    entries: &[Entry],
    width: usize,
    top: usize,
) -> Prose<A> {
    let beside = beside(entries, width);
    let entry_width = entry_width(entries);
    for (place, (sign, meaning)) in entries.iter().enumerate() {
        let x = (place % beside)
            .saturating_mul(entry_width)
            .saturating_add(MARGIN);
        let y = (place / beside).saturating_mul(ENTRY).saturating_add(top);
        out = put_sign(out, *sign, x, y);
        let words_x = x.saturating_add(sign_width(*sign)).saturating_add(8);
        out = put_text(out, "note", words_x, y.saturating_add(4), meaning);
    }
    out
}
