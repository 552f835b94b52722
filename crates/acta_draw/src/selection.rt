//! The lanes and the rows of a choice.

use crate::choice::{Choice, note};
use crate::columns::Columns;
use crate::lanes::{Lanes, Row};
use crate::marks::has_lane;
use crate::spans::Spans;
use acta_machine::Handle;
use acta_table::{Edge, LAST_TXN, Owed, TABLE_SIZE, TxnId};
use std::alloc::AllocError;

/// The most rows of a page.
pub const PAGE_ROWS: usize = 200;

/// The heads of the lanes are above each so many rows.
pub const HEADER_ROWS: usize = 40;

// With more transactions than these, the lane of one that has ended is used again.
const MOST_OWN_LANES: usize = 20;

/// A page of a picture, and how many there are.
#[derive(Clone, Copy, PartialEq, Eq, Debug)]
pub struct PageNumber {
    pub page: usize,
    pub pages: usize,
}

/// The lanes and the rows that are drawn.
#[derive(Drop)]
pub struct Selection<A: Handle> {
    /// The transactions with a lane, by column; where lanes are used again, by their first rows.
    pub lanes: Vec<TxnId, A>,
    /// The columns of the lanes.
    pub columns: Columns<A>,
    /// The numbers of the rows, in order.
    pub rows: Vec<usize, A>,
    /// How many rows are chosen, those on other pages or without a lane included.
    pub chosen: usize,
    /// The page, where one is asked for.
    pub page: Option<PageNumber>,
    /// Whether the debts in the end are drawn.
    pub has_end: bool,
    /// How many transactions are to have a lane, those that don't fit included.
    pub wanted: usize,
    /// Whether a lane may be that of several transactions, one after another.
    pub is_reused: bool,
    // For each transaction whether it is to have a lane.
    named: Vec<bool, A>,
}

/// Notes that something is drawn of the transaction.
pub fn name(named: &mut [bool], t: TxnId) {
    note(named, usize::from(t.0));
}

/// The transactions that are named, by number.
pub fn txns_named<A: Handle>(alloc: A, named: &[bool]) -> Result<Vec<TxnId, A>, AllocError> {
    let mut txns = Vec::new(alloc);
    for number in 1..=LAST_TXN {
        if named.get(usize::from(number)) == Some(&true) {
            txns.push(TxnId(number))?;
        }
    }
    Ok(txns)
}

impl<A: Handle> Selection<A> {
    /// The lanes and the rows of the choice, in at most so many columns.
    pub fn of(lanes: &Lanes<A>, choice: &Choice, most: usize) -> Result<Selection<A>, AllocError> {
        let alloc = lanes.run.allocator();
        let mut selection = Selection {
            lanes: Vec::new(alloc),
            columns: Columns::new(alloc)?,
            rows: Vec::new(alloc),
            chosen: 0,
            page: None,
            has_end: choice.has_end(lanes),
            wanted: 0,
            is_reused: choice.is_reusing,
            named: vec![in alloc; choice.txns.is_none(); TABLE_SIZE]?,
        };
        let mut txns = selection.name_chosen(choice, alloc)?;
        selection.rows = selection.touched(lanes, choice.rows(lanes)?.as_slice())?;
        selection.chosen = selection.rows.len();
        selection.keep_page(choice.page, alloc)?;
        if choice.txns.is_none() {
            selection.named = drawn_txns(lanes, selection.rows.as_slice(), selection.has_end)?;
            txns = txns_named(alloc, selection.named.as_slice())?;
            selection.is_reused = choice.is_reusing || MOST_OWN_LANES < txns.len();
        }
        selection.wanted = txns.len();
        selection.add_lanes(lanes, txns.as_slice(), most)?;
        selection.drop_rows(lanes)?;
        Ok(selection)
    }

    // Names the transactions of the choice, each once, and lists them.
    fn name_chosen(&mut self, choice: &Choice, alloc: A) -> Result<Vec<TxnId, A>, AllocError> {
        let mut txns = Vec::new(alloc);
        if let Some(chosen) = &choice.txns {
            for t in chosen.iter() {
                if has_lane(*t) && !self.is_named(*t) {
                    name(&mut self.named, *t);
                    txns.push(*t)?;
                }
            }
        }
        Ok(txns)
    }

    // Those of the rows of which something is on a lane.
    fn touched(&self, lanes: &Lanes<A>, rows: &[usize]) -> Result<Vec<usize, A>, AllocError> {
        let mut touched = Vec::new(lanes.run.allocator());
        for number in rows {
            if let Some(row) = lanes.row(*number) {
                if self.touches(&row) {
                    touched.push(*number)?;
                }
            }
        }
        Ok(touched)
    }

    // Keeps the rows of the page, where one is asked for. The end is on the last page.
    fn keep_page(&mut self, page: Option<u32>, alloc: A) -> Result<(), AllocError> {
        let Some(page) = page else {
            return Ok(());
        };
        let page = page as usize;
        let pages = self.rows.len().div_ceil(PAGE_ROWS).max(1);
        let first = page.saturating_sub(1).saturating_mul(PAGE_ROWS);
        let mut rows = Vec::new(alloc);
        for number in self.rows.iter().skip(first).take(PAGE_ROWS) {
            rows.push(*number)?;
        }
        self.rows = rows;
        self.has_end = self.has_end && page == pages;
        self.page = Some(PageNumber { page, pages });
        Ok(())
    }

    // Adds a lane for each of the transactions, as long as there is room.
    fn add_lanes(
        &mut self,
        lanes: &Lanes<A>,
        txns: &[TxnId],
        most: usize,
    ) -> Result<(), AllocError> {
        if self.is_reused {
            let alloc = lanes.run.allocator();
            let spans = Spans::of(lanes, txns, self.rows.as_slice(), self.has_end)?;
            return spans.place(&mut self.columns, &mut self.lanes, alloc, most);
        }
        for t in txns.iter().take(most) {
            self.columns.add(*t, usize::MAX)?;
            self.lanes.push(*t)?;
        }
        Ok(())
    }

    // Keeps only the rows of transactions with a lane.
    fn drop_rows(&mut self, lanes: &Lanes<A>) -> Result<(), AllocError> {
        if self.lanes.len() == self.wanted {
            return Ok(());
        }
        let alloc = lanes.run.allocator();
        self.named = vec![in alloc; false; TABLE_SIZE]?;
        for t in self.lanes.iter() {
            name(&mut self.named, *t);
        }
        self.rows = self.touched(lanes, self.rows.as_slice())?;
        Ok(())
    }

    // Whether the transaction is to have a lane.
    fn is_named(&self, t: TxnId) -> bool {
        self.named.get(usize::from(t.0)) == Some(&true)
    }

    // Whether something of the row is on a lane. A row of a number that no transaction can have is on no lane, and is drawn.
    fn touches(&self, row: &Row<'_, A>) -> bool {
        let actor = row.figure.actor.txn;
        if !has_lane(actor) || self.is_named(actor) {
            return true;
        }
        if let Some((partner, _)) = row.figure.partner {
            if self.is_named(partner.txn) {
                return true;
            }
        }
        row.formed
            .iter()
            .any(|edge| self.is_named(edge.i) || self.is_named(edge.j))
    }

    /// The column of the transaction, from the left and from 0, where something of it is drawn.
    pub fn column(&self, t: TxnId) -> Option<usize> {
        self.columns.of(t)
    }

    /// Whether both lanes of the edge are drawn.
    pub fn has_edge(&self, edge: &Edge) -> bool {
        self.column(edge.j).is_some() && self.column(edge.i).is_some()
    }

    /// The debts that are drawn: those of the lanes, where the end is drawn.
    pub fn debts(&self, lanes: &Lanes<A>) -> Result<Vec<Owed, A>, AllocError> {
        let mut debts = Vec::new(lanes.run.allocator());
        for owed in lanes.owed.iter() {
            if self.has_end && self.column(owed.txn).is_some() {
                debts.push(*owed)?;
            }
        }
        Ok(debts)
    }

    /// The transactions of the columns at the row, where those at an earlier row are given.
    pub fn pass(&self, heads: &mut [TxnId], row: usize) {
        for head in heads.iter_mut() {
            *head = self.columns.at(*head, row);
        }
    }
}

// For each transaction whether something of it is drawn in these rows, or in the end.
fn drawn_txns<A: Handle>(
    lanes: &Lanes<A>,
    rows: &[usize],
    has_end: bool,
) -> Result<Vec<bool, A>, AllocError> {
    let mut named = vec![in lanes.run.allocator(); false; TABLE_SIZE]?;
    for number in rows {
        if let Some(row) = lanes.row(*number) {
            name_row(&mut named, &row);
        }
    }
    if has_end {
        for owed in lanes.owed.iter() {
            name(&mut named, owed.txn);
        }
    }
    Ok(named)
}

// Names the transactions of a row, and those between which it formed edges.
fn name_row<A: Handle>(named: &mut [bool], row: &Row<'_, A>) {
    name(named, row.figure.actor.txn);
    if let Some((partner, _)) = row.figure.partner {
        name(named, partner.txn);
    }
    for edge in row.formed {
        name(named, edge.j);
        name(named, edge.i);
    }
}
