//! The columns of a picture. A column is the lane of one transaction, or of several, one after another.

use acta_machine::Handle;
use acta_table::{TABLE_SIZE, TxnId};
use std::alloc::AllocError;

// The lane of a transaction.
#[derive(Clone, Copy)]
struct Lane {
    column: usize,
    // The last row of the lane.
    last: usize,
    // The next transaction in the same column.
    next: Option<TxnId>,
}

/// The column of each transaction that is drawn.
#[derive(Drop)]
pub struct Columns<A: Handle> {
    /// The first transaction of each column, from the left.
    pub heads: Vec<TxnId, A>,
    // The last transaction of each column.
    tails: Vec<TxnId, A>,
    // The lane of each transaction, by number.
    lanes: Vec<Option<Lane>, A>,
    // How many lanes there are.
    count: usize,
}

impl<A: Handle> Columns<A> {
    /// No columns.
    pub fn new(alloc: A) -> Result<Columns<A>, AllocError> {
        let nowhere: Option<Lane> = None;
        Ok(Columns {
            heads: Vec::new(alloc),
            tails: Vec::new(alloc),
            lanes: vec![in alloc; nowhere; TABLE_SIZE]?,
            count: 0,
        })
    }

    /// The column of the transaction, from the left and from 0, where it has a lane.
    pub fn of(&self, t: TxnId) -> Option<usize> {
        let lane = (*self.lanes.get(usize::from(t.0))?)?;
        Some(lane.column)
    }

    // Notes the lane of the transaction.
    fn note(&mut self, t: TxnId, column: usize, last: usize) {
        if let Some(lane) = self.lanes.get_mut(usize::from(t.0)) {
            *lane = Some(Lane {
                column,
                last,
                next: None,
            });
            self.count = self.count.saturating_add(1);
        }
    }

    /// Adds a column with a lane for the transaction, up to its last row.
    pub fn add(&mut self, t: TxnId, last: usize) -> Result<(), AllocError> {
        let column = self.heads.len();
        self.heads.push(t)?;
        self.tails.push(t)?;
        self.note(t, column, last);
        Ok(())
    }

    /// Adds a lane for the transaction below the last lane of the column.
    pub fn follow(&mut self, t: TxnId, last: usize, column: usize) {
        let Some(tail) = self.tails.get_mut(column) else {
            return;
        };
        let before = *tail;
        *tail = t;
        if let Some(Some(lane)) = self.lanes.get_mut(usize::from(before.0)) {
            lane.next = Some(t);
        }
        self.note(t, column, last);
    }

    /// Whether the lane of the transaction ends before the row.
    pub fn is_over(&self, t: TxnId, row: usize) -> bool {
        match self.lanes.get(usize::from(t.0)) {
            Some(Some(lane)) => lane.last < row,
            _ => false,
        }
    }

    /// The transaction whose lane is in the column of this one at a row, or the next one there: the first from this one on whose
    /// last row isn't before the row.
    pub fn at(&self, t: TxnId, row: usize) -> TxnId {
        let mut at = t;
        for _ in 0..self.count {
            match self.lanes.get(usize::from(at.0)) {
                Some(Some(lane)) if lane.last < row => {
                    match lane.next {
                        Some(next) => at = next,
                        None => return at,
                    }
                }
                _ => return at,
            }
        }
        at
    }
}
