//! The arrows of a row: the edges that it formed, those between the same two transactions as one arrow.

use crate::lanes::Row;
use crate::selection::Selection;
use acta_machine::Handle;
use acta_table::{Edge, TxnId};
use std::alloc::AllocError;

/// An arrow from the transaction that depends to the one on which it depends.
#[derive(Drop)]
pub struct Arrow<A: Handle> {
    pub j: TxnId,
    pub i: TxnId,
    // The numbers of the first and of the last edge.
    first: u64,
    last: u64,
    /// The edges, each with an `e`, its number and its kind.
    pub label: String<A>,
    /// The edges in words, in lines.
    pub title: String<A>,
}

impl<A: Handle> Arrow<A> {
    // An arrow from the one transaction of the edge to the other, without an edge.
    fn new(alloc: A, number: u64, edge: &Edge) -> Arrow<A> {
        Arrow {
            j: edge.j,
            i: edge.i,
            first: number,
            last: number,
            label: String::new(alloc),
            title: String::new(alloc),
        }
    }

    // Whether the edge is between the same transactions.
    fn fits(&self, edge: &Edge) -> bool {
        self.j == edge.j && self.i == edge.i
    }

    /// Whether the edge of this number is among those of an arrow of a row.
    pub fn has(&self, number: u64) -> bool {
        self.first <= number && number <= self.last
    }

    // Adds an edge between the two transactions.
    fn add(&mut self, number: u64, edge: &Edge) -> Result<(), AllocError> {
        self.last = number;
        let (comma, feed) = if self.label.is_empty() {
            ("", "")
        } else {
            (", ", "\n")
        };
        let (kind, j, i) = (edge.kind.word(), edge.j.0, edge.i.0);
        let formula = edge.kind.sentence();
        write!(self.label, "{comma}e{number} {kind}")?;
        write!(
            self.title,
            "{feed}edge {number}: {kind} {j} on {i}, of J = {j} on I = {i}. {formula}"
        )
    }
}

/// The arrows of the row between lanes that are drawn.
pub fn arrows_of<A: Handle>(
    alloc: A,
    selection: &Selection<A>,
    row: &Row<'_, A>,
) -> Result<Vec<Arrow<A>, A>, AllocError> {
    let mut arrows: Vec<Arrow<A>, A> = Vec::new(alloc);
    let mut number = row.step.edges_before as u64;
    for edge in row.formed {
        number = number.saturating_add(1);
        if selection.has_edge(edge) {
            add_edge(alloc, &mut arrows, number, edge)?;
        }
    }
    Ok(arrows)
}

/// Adds an edge to the last of the arrows, or as an arrow of its own.
pub fn add_edge<A: Handle>(
    alloc: A,
    arrows: &mut Vec<Arrow<A>, A>,
    number: u64,
    edge: &Edge,
) -> Result<(), AllocError> {
    if !arrows.last().is_some_and(|last| last.fits(edge)) {
        arrows.push(Arrow::new(alloc, number, edge))?;
    }
    match arrows.last_mut() {
        Some(arrow) => arrow.add(number, edge),
        None => Ok(()),
    }
}
