//! The number of ends of each kind.

use acta_explore::{Explored, Outcome};
use acta_machine::Handle;
use acta_prose::{Prose, put};

/// The number of ends of each kind.
#[derive(Clone, Copy)]
pub(crate) struct Totals {
    complete: usize,
    stuck: usize,
    owing: usize,
    both: usize,
}

/// The name of an end's kind, by whether seats wait and whether there are debts.
pub(crate) fn kind_words<A: Handle>(outcome: &Outcome<A>) -> &'static str {
    match (outcome.waits.is_empty(), outcome.debts.is_empty()) {
        (true, true) => "complete",
        (false, true) => "stuck",
        (true, false) => "owing",
        (false, false) => "stuck and owing",
    }
}

impl Totals {
    /// The number of ends of each kind at these places.
    pub(crate) fn of<A: Handle>(explored: &Explored<A>, places: &[usize]) -> Totals {
        let mut totals = Totals {
            complete: 0,
            stuck: 0,
            owing: 0,
            both: 0,
        };
        for place in places {
            if let Some(outcome) = explored.outcome(*place) {
                totals.add(outcome);
            }
        }
        totals
    }

    // Counts an end.
    fn add<A: Handle>(&mut self, outcome: &Outcome<A>) {
        let count = match (outcome.waits.is_empty(), outcome.debts.is_empty()) {
            (true, true) => &mut self.complete,
            (false, true) => &mut self.stuck,
            (true, false) => &mut self.owing,
            (false, false) => &mut self.both,
        };
        *count = count.saturating_add(1);
    }

    /// Adds the numbers of the kinds that occur.
    pub(crate) fn put<A: Handle>(self, mut prose: Prose<A>) -> Prose<A> {
        let counts = [
            (self.complete, " complete"),
            (self.stuck, " stuck"),
            (self.owing, " owing"),
            (self.both, " stuck and owing"),
        ];
        let mut is_first = true;
        for (count, kind) in counts {
            if count > 0 {
                prose = put!(prose; if is_first { "" } else { ", " }, count, kind);
                is_first = false;
            }
        }
        prose
    }
}
