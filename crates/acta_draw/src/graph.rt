//! The waits-for graph and the dependency graph of a machine, and their words.

use crate::arrows::{Arrow, add_edge};
use crate::lanes::Lanes;
use crate::selection::{name, txns_named};
use acta_machine::{Handle, NumberedEdge};
use acta_prose::{MOST_RENDERED, Prose, Waits, put, put_standing};
use acta_table::{Edge, TABLE_SIZE, TxnId};
use std::alloc::{AllocError, Allocator};

/// The two graphs.
#[derive(Drop)]
pub struct Graph<A: Handle> {
    /// The waits-for graph.
    pub waits: Waits<A>,
    /// The edges in force, those between the same two transactions as one arrow.
    pub arrows: Vec<Arrow<A>, A>,
    /// How many arrows are left out, since they are too many.
    pub left_out: usize,
    /// The transactions of both graphs, by number.
    pub txns: Vec<TxnId, A>,
}

impl<A: Handle> Graph<A> {
    /// The graphs after the last event of the lanes; without arrows where they are more than so many.
    pub fn of(lanes: &Lanes<A>, most: usize) -> Result<Graph<A>, AllocError> {
        let alloc = lanes.run.allocator();
        let mut graph = Graph {
            waits: Waits::of(&lanes.run)?,
            arrows: arrows_in(alloc, lanes.run.machine().edges())?,
            left_out: 0,
            txns: Vec::new(alloc),
        };
        if graph.arrows.len() > most {
            graph.left_out = graph.arrows.len();
            graph.arrows = Vec::new(alloc);
        }
        graph.txns = txns_named(alloc, graph.named(alloc)?.as_slice())?;
        Ok(graph)
    }

    // For each transaction whether it is in one of the graphs.
    fn named(&self, alloc: A) -> Result<Vec<bool, A>, AllocError> {
        let mut named = vec![in alloc; false; TABLE_SIZE]?;
        for wait in self.waits.waits.iter() {
            name(&mut named, wait.txn);
            name(&mut named, wait.next);
        }
        for arrow in self.arrows.iter() {
            name(&mut named, arrow.j);
            name(&mut named, arrow.i);
        }
        Ok(named)
    }

    /// Adds how many transactions wait and how many edges are in force, at which place, and what is left out.
    pub fn put_counts(&self, prose: Prose<A>, lanes: &Lanes<A>) -> Prose<A> {
        let machine = lanes.run.machine();
        let prose = put!(prose; "After place ", machine.history().len(), ": ");
        let prose = put_count(
            prose,
            self.waits.waits.len(),
            "transaction waits",
            "transactions wait",
        );
        let edges = machine.edges().len();
        let prose = put_count(
            prose.put(", "),
            edges,
            "edge is in force",
            "edges are in force",
        );
        let prose = match self.left_out {
            0 => prose.put("."),
            arrows =>
                put!(prose; ". Their ", arrows, " arrows are left out: too many to be read. Without --svg all edges are listed."),
        };
        match lanes.run.skipped() {
            0 => prose,
            skipped =>
                put!(prose; " ", skipped, " refused events are left out: only the first ", MOST_RENDERED,
                " are examined."),
        }
    }
}

// Adds a number, and the words for one or for several.
fn put_count<A: Allocator>(prose: Prose<A>, count: usize, one: &str, several: &str) -> Prose<A> {
    match count {
        0 => put!(prose; "no ", one),
        1 => put!(prose; "1 ", one),
        count => put!(prose; count, " ", several),
    }
}

// The arrows of these edges, by the transaction that depends, and then by the other.
fn arrows_in<A: Handle>(alloc: A, edges: &[Edge]) -> Result<Vec<Arrow<A>, A>, AllocError> {
    let mut sorted = Vec::new(alloc);
    let mut number = 0u32;
    for edge in edges {
        number = number.saturating_add(1);
        sorted.push(NumberedEdge {
            number,
            edge: *edge,
        })?;
    }
    sorted.sort_by_key(|one| (one.edge.j.0, one.edge.i.0))?;
    let mut arrows = Vec::new(alloc);
    for one in sorted.iter() {
        add_edge(alloc, &mut arrows, u64::from(one.number), &one.edge)?;
    }
    Ok(arrows)
}

/// Adds the status of the transaction in words.
pub fn put_status<A: Handle>(prose: Prose<A>, lanes: &Lanes<A>, t: TxnId) -> Prose<A> {
    let status = lanes.run.machine().status(t);
    put_standing(put!(prose; t.0, " "), lanes.run.lines(), t, status)
}
