//! The rows of a picture that are chosen: all, or those of some places, objects, transactions or refusals, and of these a page.

use crate::lanes::{Lanes, Row};
use acta_machine::Handle;
use acta_prose::name_text;
use acta_script::object_name;
use acta_table::{Event, Model, TxnId};
use std::alloc::{AllocError, Allocator};

/// The view of a history.
#[derive(Clone, Copy, PartialEq, Eq, Debug)]
pub enum View {
    /// Its events, with a lane for each transaction.
    Lanes,
    /// The waits and the dependencies right after the event at this place, or after the last event.
    Waits { at: Option<u32> },
}

/// The view, and the rows and lanes that are drawn of it.
#[derive(Drop)]
pub struct Choice {
    pub view: View,
    /// These transactions, in this order; all where none are named.
    pub txns: Option<Vec<TxnId>>,
    /// Only operations on the objects with these names.
    pub objects: Option<Vec<String>>,
    /// Only refused events, and the events that their reasons name.
    pub is_refused: bool,
    /// The first place that is drawn.
    pub from: u32,
    /// The last place that is drawn.
    pub to: Option<u32>,
    /// Only this page, from 1.
    pub page: Option<u32>,
    /// Whether the lane of a transaction that has ended is used again also where there are few lanes.
    pub is_reusing: bool,
}

impl Choice {
    /// All transactions, at all places.
    pub const ALL: Choice = Choice {
        view: View::Lanes,
        txns: None,
        objects: None,
        is_refused: false,
        from: 1,
        to: None,
        page: None,
        is_reusing: false,
    };

    /// The last place whose event is needed, where not all are.
    pub fn last_place(&self) -> Option<u32> {
        match self.view {
            View::Lanes => None,
            View::Waits { at } => at,
        }
    }

    // Whether a row at this place is wanted. A refused event is at the place that it would have had.
    fn has_place(&self, place: u32) -> bool {
        self.from <= place && place <= self.to.unwrap_or(u32::MAX)
    }

    /// Whether the debts after the last row of the lanes are wanted.
    pub fn has_end<A: Handle>(&self, lanes: &Lanes<A>) -> bool {
        let places = lanes.run.machine().history().len();
        let is_last = match self.to {
            Some(to) => places <= to as usize,
            None => true,
        };
        is_last && !self.is_refused && self.objects.is_none()
    }

    // Whether the event is an operation on one of the objects, where some are named.
    fn is_on_object<A: Handle>(&self, model: &Model<A>, event: &Event<A>) -> bool {
        match (&self.objects, event) {
            (None, _) => true,
            (Some(names), Event::Operate(_, object, _)) => {
                let name = name_text(object_name(model, *object));
                names.iter().any(|one| one.as_str() == name)
            }
            _ => false,
        }
    }

    // Whether the row is wanted.
    fn has_row<A: Handle>(&self, model: &Model<A>, row: &Row<'_, A>) -> bool {
        self.has_place(row.place)
            && self.is_on_object(model, &row.step.event)
            && (!self.is_refused || !row.step.is_admitted())
    }

    /// The numbers of the rows that are wanted. With only refused events, also the rows that block them are.
    pub fn rows<A: Handle>(&self, lanes: &Lanes<A>) -> Result<Vec<usize, A>, AllocError> {
        let alloc = lanes.run.allocator();
        let model = lanes.run.machine().model();
        let mut wanted = vec![in alloc; false; lanes.places.len()]?;
        for number in 0..lanes.places.len() {
            let Some(row) = lanes.row(number) else {
                continue;
            };
            if !self.has_row(model, &row) {
                continue;
            }
            note(&mut wanted, number);
            if self.is_refused {
                // (the row itself is wanted already)
                let [first, second] = lanes.blockers(number);
                note(&mut wanted, lanes.row_of(first, number).unwrap_or(number));
                note(&mut wanted, lanes.row_of(second, number).unwrap_or(number));
            }
        }
        numbers_of(alloc, wanted.as_slice())
    }
}

/// Notes a number in a list that has for each whether it is noted.
pub fn note(noted: &mut [bool], number: usize) {
    if let Some(is_noted) = noted.get_mut(number) {
        *is_noted = true;
    }
}

// The numbers that are noted.
fn numbers_of<A: Handle>(alloc: A, noted: &[bool]) -> Result<Vec<usize, A>, AllocError> {
    let mut numbers = Vec::new(alloc);
    for (number, is_noted) in noted.iter().enumerate() {
        if *is_noted {
            numbers.push(number)?;
        }
    }
    Ok(numbers)
}

/// Whether the model has an object with this name.
pub fn has_object<A: Allocator>(model: &Model<A>, name: &str) -> bool {
    model
        .objects()
        .iter()
        .any(|object| name_text(object.name.as_slice()) == name)
}
