//! The waits-for graph and the dependency graph as a text for a terminal.

use crate::canvas::Ink;
use crate::graph::{Graph, put_status};
use crate::lanes::Lanes;
use crate::screen::Screen;
use crate::text::put_notice;
use crate::wrapping::wrapped;
use acta_machine::Handle;
use acta_prose::{Prose, put};
use std::alloc::AllocError;

// How far the items of a list are from the left, and the further lines of an item.
const ITEM: usize = 2;

const FURTHER: usize = 6;

// What is listed, and on what screen.
#[derive(Drop)]
struct Listing<'a, A: Handle> {
    alloc: A,
    lanes: &'a Lanes<A>,
    graph: &'a Graph<A>,
    screen: Screen,
}

impl<'a, A: Handle> Listing<'a, A> {
    // Adds an item of a list in lines, in this colour.
    fn put_item(&self, mut text: Prose<A>, item: Prose<A>, ink: Ink) -> Prose<A> {
        let width = self.screen.width.saturating_sub(FURTHER);
        let Ok(item) = item.done() else {
            return text.fail();
        };
        let Ok(lines) = wrapped(self.alloc, item.as_str(), width, false) else {
            return text.fail();
        };
        let (front, back) = if self.screen.is_colored && ink != Ink::Plain {
            (ink.escape(), Ink::Plain.escape())
        } else {
            ("", "")
        };
        let mut indent = ITEM;
        for line in lines.iter() {
            text = put!(text.pad(indent); front, line.as_str(), back, "\n");
            indent = FURTHER;
        }
        text
    }

    // Adds the waits-for graph.
    fn put_waits(&self, text: Prose<A>) -> Prose<A> {
        let waits = &self.graph.waits;
        if waits.waits.is_empty() {
            return text;
        }
        let mut text = text.put("\nWaits-for graph:\n");
        for (place, wait) in waits.waits.iter().enumerate() {
            let item = put!(Prose::new(self.alloc); wait.txn.0, " -> ", wait.next.0, "  ");
            let item = waits.put_wait(item, self.lanes.run.lines(), place);
            text = self.put_item(text, item, Ink::Plain);
        }
        self.put_circles(text)
    }

    // Adds the deadlocks.
    fn put_circles(&self, mut text: Prose<A>) -> Prose<A> {
        let waits = &self.graph.waits;
        for circle in waits.circles.iter() {
            let item = waits.put_circle(Prose::new(self.alloc), circle.as_slice());
            text = self.put_item(text, item, Ink::Bad);
        }
        text
    }

    // Adds the dependency graph.
    fn put_edges(&self, text: Prose<A>) -> Prose<A> {
        if self.graph.arrows.is_empty() {
            return text;
        }
        let mut text = text.put("\nDependency graph:\n");
        for arrow in self.graph.arrows.iter() {
            let item = Prose::new(self.alloc);
            let item = put!(item; arrow.j.0, " -> ", arrow.i.0, "  ", arrow.label.as_str());
            text = self.put_item(text, item, Ink::Plain);
        }
        text
    }

    // Adds the status of each transaction of the graphs.
    fn put_statuses(&self, text: Prose<A>) -> Prose<A> {
        if self.graph.txns.is_empty() {
            return text;
        }
        let mut text = text.put("\nTransactions:\n");
        for t in self.graph.txns.iter() {
            let item = put_status(Prose::new(self.alloc), self.lanes, *t);
            text = self.put_item(text, item, Ink::Plain);
        }
        text
    }
}

/// The graphs as a text, and after it the line that stopped the run, if one did.
pub fn draw_graph_text<A: Handle>(
    lanes: &Lanes<A>,
    screen: Screen,
    stop: &str,
) -> Result<String<A>, AllocError> {
    let alloc = lanes.run.allocator();
    let graph = Graph::of(lanes, usize::MAX)?;
    let listing = Listing {
        alloc,
        lanes,
        graph: &graph,
        screen,
    };
    let counts = graph.put_counts(Prose::new(alloc), lanes).done()?;
    let text = put_notice(Prose::new(alloc), alloc, counts.as_str(), screen.width);
    let text = listing.put_edges(listing.put_waits(text));
    listing.put_statuses(text).put(stop).done()
}
