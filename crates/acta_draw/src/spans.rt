//! Lanes that are used again: each transaction has a lane from its first row to its last, and the lane of one that has ended
//! becomes that of one that begins later.

use crate::columns::Columns;
use crate::lanes::{Lanes, Row};
use acta_machine::Handle;
use acta_table::{TABLE_SIZE, TxnId};
use std::alloc::AllocError;

// From which row to which a transaction has a lane.
#[derive(Clone, Copy)]
struct Span {
    txn: TxnId,
    first: usize,
    last: usize,
}

/// The spans of transactions.
#[derive(Drop)]
pub struct Spans<A: Handle> {
    spans: Vec<Span, A>,
    // For each transaction the place of its span.
    places: Vec<Option<usize>, A>,
}

impl<A: Handle> Spans<A> {
    /// The spans of these transactions in these rows. A transaction that owes an event in the end has its lane until there, where
    /// the end is drawn.
    pub fn of(
        lanes: &Lanes<A>,
        txns: &[TxnId],
        rows: &[usize],
        has_end: bool,
    ) -> Result<Spans<A>, AllocError> {
        let alloc = lanes.run.allocator();
        let nowhere: Option<usize> = None;
        let mut spans = Spans {
            spans: Vec::new(alloc),
            places: vec![in alloc; nowhere; TABLE_SIZE]?,
        };
        spans.add_all(lanes, txns, rows)?;
        for number in rows {
            if let Some(row) = lanes.row(*number) {
                spans.meet_row(&row);
            }
        }
        if has_end {
            for owed in lanes.owed.iter() {
                spans.meet(owed.txn, usize::MAX);
            }
        }
        spans.spans.sort_by_key(|span| span.first)?;
        Ok(spans)
    }

    // Adds a span for each transaction, from its start to its end; at the first row for one that never began.
    fn add_all(
        &mut self,
        lanes: &Lanes<A>,
        txns: &[TxnId],
        rows: &[usize],
    ) -> Result<(), AllocError> {
        let top = rows.first().copied().unwrap_or(0);
        let steps = lanes.steps();
        for txn in txns {
            let begin = steps.begin_of(*txn);
            let last = match (begin, steps.end_of(*txn)) {
                (_, Some(end)) => end,
                (Some(_), None) => usize::MAX,
                (None, None) => 0,
            };
            let place = self.spans.len();
            if let Some(found) = self.places.get_mut(usize::from(txn.0)) {
                *found = Some(place);
            }
            self.spans.push(Span {
                txn: *txn,
                first: begin.unwrap_or(usize::MAX).max(top),
                last,
            })?;
        }
        Ok(())
    }

    // Extends the span of the transaction to the row.
    fn meet(&mut self, t: TxnId, row: usize) {
        let Some(Some(place)) = self.places.get(usize::from(t.0)) else {
            return;
        };
        let place = *place;
        if let Some(span) = self.spans.get_mut(place) {
            span.first = span.first.min(row);
            span.last = span.last.max(row);
        }
    }

    // Extends the spans of the transactions of a row.
    fn meet_row(&mut self, row: &Row<'_, A>) {
        self.meet(row.figure.actor.txn, row.number);
        if let Some((partner, _)) = row.figure.partner {
            self.meet(partner.txn, row.number);
        }
        for edge in row.formed {
            self.meet(edge.j, row.number);
            self.meet(edge.i, row.number);
        }
    }
}

// The columns that are free again, row by row.
#[derive(Drop)]
struct Sweep<A: Handle> {
    // The spans, by their last rows.
    ends: Vec<Span, A>,
    // How many of them have ended.
    passed: usize,
    // The columns of those that have ended, until each is used again.
    free: Vec<usize, A>,
}

impl<A: Handle> Sweep<A> {
    // Frees the columns of the transactions whose last row is before this one.
    fn pass(&mut self, columns: &Columns<A>, row: usize) -> Result<(), AllocError> {
        for span in self.ends.iter().skip(self.passed) {
            if span.last >= row {
                return Ok(());
            }
            self.passed = self.passed.saturating_add(1);
            if let Some(column) = columns.of(span.txn) {
                self.free.push(column)?;
            }
        }
        Ok(())
    }
}

impl<A: Handle> Spans<A> {
    /// Gives each transaction a lane, in at most so many columns. Adds those that have one to the list, by their first rows.
    pub fn place(
        &self,
        columns: &mut Columns<A>,
        placed: &mut Vec<TxnId, A>,
        alloc: A,
        most: usize,
    ) -> Result<(), AllocError> {
        let mut ends = Vec::from_slice(alloc, self.spans.as_slice())?;
        ends.sort_by_key(|span| span.last)?;
        let mut sweep = Sweep {
            ends,
            passed: 0,
            free: Vec::new(alloc),
        };
        for span in self.spans.iter() {
            sweep.pass(columns, span.first)?;
            match sweep.free.pop() {
                Some(column) => columns.follow(span.txn, span.last, column),
                None if columns.heads.len() < most => columns.add(span.txn, span.last)?,
                None => continue,
            }
            placed.push(span.txn)?;
        }
        Ok(())
    }
}
