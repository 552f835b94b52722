//! Transactions whose last events are refused, and the deadlocks among them.

use crate::lines::LineIndex;
use crate::phrases::{put_line_text, put_operation};
use crate::prose::Prose;
use crate::put;
use crate::run_trace::RunTrace;
use acta_hope::{Hope, Wait, deadlocks, wait_of};
use acta_machine::Handle;
use acta_table::{Items, TxnId};
use std::alloc::AllocError;

/// The transactions that wait, by number, and the deadlocks among them.
#[derive(Drop)]
pub struct Waits<A: Handle> {
    /// The waits: the last event of each transaction was refused, until another transaction does something.
    pub waits: Vec<Wait, A>,
    /// The place of the step of each refused event.
    pub steps: Vec<usize, A>,
    /// The deadlocks, as places in `waits`: each waits for the next, and the last is the first again.
    pub circles: Vec<Items<usize, A>, A>,
    // For each wait whether it is in a deadlock.
    closed: Vec<bool, A>,
}

// Adds until when the event of a waiting transaction is refused.
fn put_until<A: Handle>(prose: Prose<A>, lines: LineIndex<'_, A>, wait: &Wait) -> Prose<A> {
    let next = wait.next.0;
    match wait.until {
        Hope::OnceFree(op) => {
            let prose = put_operation(prose, lines, op);
            put!(prose; ", held by ", next, ", blocks it")
        }
        Hope::OnceBegun(_) => put!(prose; next, " has not begun"),
        Hope::OnceCommitted(_) => put!(prose; next, " has not committed"),
        Hope::OnceAborted(_) => put!(prose; next, " has not aborted"),
        _ => put!(prose; next, " has neither committed nor aborted"),
    }
}

// Notes that the waits at these places are in a deadlock.
fn close(closed: &mut [bool], places: &[usize]) {
    for place in places {
        if let Some(is_closed) = closed.get_mut(*place) {
            *is_closed = true;
        }
    }
}

impl<A: Handle> Waits<A> {
    /// The waits and the deadlocks after the last event of a run.
    pub fn of(run: &RunTrace<A>) -> Result<Waits<A>, AllocError> {
        let alloc = run.allocator();
        let mut waits = Vec::new(alloc);
        let mut steps = Vec::new(alloc);
        for number in 0..run.blocked_below() {
            let txn = TxnId(number);
            let Some((event, step)) = run.blocked(txn) else {
                continue;
            };
            if let Some(wait) = wait_of(run.machine(), txn, event)? {
                waits.push(wait)?;
                steps.push(step)?;
            }
        }
        let circles = deadlocks(alloc, waits.as_slice())?;
        let mut closed = vec![in alloc; false; waits.len()]?;
        for circle in circles.iter() {
            close(&mut closed, circle.as_slice());
        }
        Ok(Waits {
            waits,
            steps,
            circles,
            closed,
        })
    }

    /// Whether the wait at this place is in a deadlock.
    pub fn is_closed(&self, place: usize) -> bool {
        self.closed.get(place).copied().unwrap_or(false)
    }

    /// Adds the wait at this place in words: the refused event, and until when it is refused.
    pub fn put_wait(&self, prose: Prose<A>, lines: LineIndex<'_, A>, place: usize) -> Prose<A> {
        let (Some(wait), Some(step)) = (self.waits.get(place), self.steps.get(place)) else {
            return prose;
        };
        let prose = match lines.at(*step) {
            Some(line) => put_line_text(prose, line),
            None => prose,
        };
        put_until(prose.put(", refused as long as "), lines, wait)
    }

    /// Adds a deadlock: its transactions, in order.
    pub fn put_circle(&self, prose: Prose<A>, circle: &[usize]) -> Prose<A> {
        let mut prose = prose.put("deadlock: ");
        let mut gap = "";
        for place in circle {
            if let Some(wait) = self.waits.get(*place) {
                prose = put!(prose; gap, wait.txn.0);
            }
            gap = " -> ";
        }
        prose
    }
}
