//! The waits-for graph and the dependency graph as an SVG: the transactions side by side, waits as arcs above them and edges
//! as arcs below.

use crate::graph::{Graph, put_status};
use crate::lanes::Lanes;
use crate::markup::{
    END, END_OF_GROUP, END_OF_TEXT, LINE, MARGIN, put_box, put_lines, put_open, put_sample,
    put_text, put_text_at, put_titled,
};
use crate::notation::put_event;
use crate::svg_layout::label_width;
use crate::wrapping::{put_cut, wrapped};
use acta_machine::Handle;
use acta_prose::{Prose, Waits, digits, put};
use acta_table::{Status, TxnId};
use std::alloc::AllocError;

// The least distance of two transactions.
const LEAST_GAP: usize = 72;

// The most arrows of edges.
const MOST_ARROWS: usize = 200;

// The most characters of a label.
const MOST_OF_LABEL: usize = 28;

// The height of the lowest arc, and how much higher each next one is: at most, and at least where the arcs are many.
const LOWEST: usize = 32;

const NEXT: usize = 48;

const LEAST_NEXT: usize = 28;

// How much higher the highest arc may be than the lowest: before two of them come nearer than the least, and after that.
const USUAL_HEIGHT: usize = 960;

const MOST_HEIGHT: usize = 2_800;

// The height of a label, and of the box behind it.
const LABEL: usize = 16;

const BACK: usize = 12;

// The height of a transaction.
const NODE: usize = 24;

// An arc from one transaction to another.
#[derive(Drop)]
struct Arc<A: Handle> {
    // The places of the two transactions, from the left.
    from: usize,
    to: usize,
    // The class of its line.
    class: &'static str,
    label: String<A>,
    title: String<A>,
}

impl<A: Handle> Arc<A> {
    // How many places are between its ends.
    fn span(&self) -> usize {
        self.from.abs_diff(self.to)
    }
}

// Arcs on one side of the transactions, and their spans, each once and in order.
#[derive(Drop)]
struct Arcs<A: Handle> {
    // Whether they are above the transactions.
    is_above: bool,
    arcs: Vec<Arc<A>, A>,
    spans: Vec<usize, A>,
}

impl<A: Handle> Arcs<A> {
    // The arcs of a list.
    fn of(alloc: A, is_above: bool, arcs: Vec<Arc<A>, A>) -> Result<Arcs<A>, AllocError> {
        let mut spans = Vec::new(alloc);
        for arc in arcs.iter() {
            spans.push(arc.span())?;
        }
        spans.sort()?;
        spans.dedup();
        Ok(Arcs {
            is_above,
            arcs,
            spans,
        })
    }

    // The head of their arrows.
    fn head(&self) -> &'static str {
        if self.is_above { "block" } else { "edge" }
    }

    // How much higher an arc is than one of the next shorter span.
    fn next(&self) -> usize {
        let usual = USUAL_HEIGHT / self.spans.len().max(1);
        let most = MOST_HEIGHT / self.spans.len().max(1);
        usual.min(NEXT).max(LEAST_NEXT).min(most)
    }

    // How much higher an arc to the left is than one to the right. Its height is midway between those of two arcs to the right,
    // so that no label covers another.
    fn left(&self) -> usize {
        let next = self.next();
        if next < NEXT {
            next.saturating_add(next / 2).max(NEXT / 2)
        } else {
            NEXT / 2
        }
    }

    // How far the arc goes from the transactions. Of two that go equally far no label covers the other's.
    fn height(&self, arc: &Arc<A>) -> usize {
        let span = arc.span();
        let level = self.spans.as_slice().partition_point(|one| *one < span);
        let height = LOWEST.saturating_add(level.saturating_mul(self.next()));
        if arc.to < arc.from {
            height.saturating_add(self.left())
        } else {
            height
        }
    }

    // How far all arcs go, and their labels.
    fn extent(&self) -> usize {
        if self.arcs.is_empty() {
            return 0;
        }
        LOWEST
            .saturating_add(
                self.spans
                    .len()
                    .saturating_sub(1)
                    .saturating_mul(self.next()),
            )
            .saturating_add(self.left())
            .saturating_add(LABEL)
    }

    // The least distance of two transactions with room for the labels.
    fn least_gap(&self) -> usize {
        let mut gap = LEAST_GAP;
        for arc in self.arcs.iter() {
            // (between the two sides of the arc round it, which is narrower at the height of the label)
            let label = label_width(arc.label.as_str()).saturating_mul(3) / 2;
            gap = gap.max(label.saturating_add(16));
        }
        gap
    }
}

// The graphs with their arcs, and where the transactions are.
#[derive(Drop)]
struct Sheet<'a, A: Handle> {
    lanes: &'a Lanes<A>,
    graph: &'a Graph<A>,
    waits: Arcs<A>,
    edges: Arcs<A>,
    gap: usize,
    // The height at which the transactions are.
    base: usize,
}

// The place of the transaction among those that are drawn.
fn place_of(txns: &[TxnId], t: TxnId) -> usize {
    txns.partition_point(|one| one.0 < t.0)
}

// The arcs of the waits.
fn wait_arcs<A: Handle>(lanes: &Lanes<A>, graph: &Graph<A>) -> Result<Arcs<A>, AllocError> {
    let alloc = lanes.run.allocator();
    let waits = &graph.waits;
    let mut arcs = Vec::new(alloc);
    for (place, wait) in waits.waits.iter().enumerate() {
        let row = waits.steps.get(place).copied().unwrap_or(0);
        let text = lanes.run.texts().get(row);
        let event = text.map_or("", |text| text.event.as_str());
        arcs.push(Arc {
            from: place_of(graph.txns.as_slice(), wait.txn),
            to: place_of(graph.txns.as_slice(), wait.next),
            class: if waits.is_closed(place) {
                "wait closed"
            } else {
                "wait"
            },
            label: put_event(Prose::new(alloc), event, "", MOST_OF_LABEL).done()?,
            title: waits
                .put_wait(Prose::new(alloc), lanes.run.lines(), place)
                .done()?,
        })?;
    }
    Arcs::of(alloc, true, arcs)
}

// The arcs of the edges.
fn edge_arcs<A: Handle>(lanes: &Lanes<A>, graph: &Graph<A>) -> Result<Arcs<A>, AllocError> {
    let alloc = lanes.run.allocator();
    let mut arcs = Vec::new(alloc);
    for arrow in graph.arrows.iter() {
        arcs.push(Arc {
            from: place_of(graph.txns.as_slice(), arrow.j),
            to: place_of(graph.txns.as_slice(), arrow.i),
            class: "edge",
            label: put_cut(Prose::new(alloc), arrow.label.as_str(), MOST_OF_LABEL).done()?,
            title: String::from_str(alloc, arrow.title.as_str())?,
        })?;
    }
    Arcs::of(alloc, false, arcs)
}

// How a transaction with the status looks: the class of its box, and that of its number.
fn look_of(status: Status) -> (&'static str, &'static str) {
    match status {
        Status::NotBegun => ("absent", "in"),
        Status::InProgress => ("start", "in"),
        Status::Committed => ("committed", "in on"),
        Status::Aborted => ("aborted", "in on"),
        Status::Joined => ("joined", "in on"),
    }
}

const STATUSES: [(Status, &str); 5] = [
    (Status::NotBegun, "has not begun"),
    (Status::InProgress, "is in progress"),
    (Status::Committed, "has committed"),
    (Status::Aborted, "has aborted"),
    (Status::Joined, "has joined another"),
];

// The lines that a legend explains: the class of each, the head of its arrow, and its meaning.
const LINES: [(&str, &str, &str); 3] = [
    ("wait", "block", "waits for"),
    ("wait closed", "block", "waits for, in a deadlock"),
    ("edge", "edge", "depends on (e: edge)"),
];

// The width of an entry of the legend.
const ENTRY: usize = 210;

// Adds the meaning of an entry of the legend.
fn put_meaning<A: Handle>(out: Prose<A>, x: usize, y: usize, meaning: &str) -> Prose<A> {
    put_text(
        out,
        "note",
        x.saturating_add(36),
        y.saturating_add(4),
        meaning,
    )
}

impl<'a, A: Handle> Sheet<'a, A> {
    // Where the transaction at this place is.
    fn x(&self, place: usize) -> usize {
        (MARGIN * 3).saturating_add(place.saturating_mul(self.gap))
    }

    // The left and the right end of the arc. An arc to the left is higher than the one to the right between the same two
    // transactions, so its ends are outside the other's, and the two don't cross.
    fn ends(&self, arc: &Arc<A>) -> (usize, usize) {
        let (from, to) = (self.x(arc.from), self.x(arc.to));
        if from < to {
            (from.saturating_add(9), to.saturating_sub(9))
        } else {
            (to.saturating_add(4), from.saturating_sub(4))
        }
    }

    // Adds the line of an arc. It is a curve that comes to three quarters of the height of its two control points.
    fn put_line(&self, out: Prose<A>, arcs: &Arcs<A>, arc: &Arc<A>) -> Prose<A> {
        let control = arcs.height(arc).saturating_mul(4) / 3;
        let (left, right) = self.ends(arc);
        let across = right.saturating_sub(left);
        let (start, minus) = if arc.from < arc.to {
            (left, "")
        } else {
            (right, "-")
        };
        let (y, sign) = if arcs.is_above {
            (self.base.saturating_sub(NODE / 2), "-")
        } else {
            (self.base.saturating_add(NODE / 2), "")
        };
        let out = put_titled(out, arc.title.as_str());
        let out = put!(out; "<path class=\"", arc.class, "\" d=\"M", start, " ", y);
        let out =
            put!(out; "c0 ", sign, control, " ", minus, across, " ", sign, control, " ", minus, across, " 0");
        put!(out; "\" marker-end=\"url(#acta-draw-", arcs.head(), ")\"/>", END_OF_GROUP)
    }

    // Adds the label of an arc, at its top or its bottom, on a box that covers the arcs behind it.
    fn put_label(&self, out: Prose<A>, arcs: &Arcs<A>, arc: &Arc<A>) -> Prose<A> {
        let height = arcs.height(arc);
        let (left, right) = self.ends(arc);
        let middle = left.saturating_add(right) / 2;
        let (class, y) = if arcs.is_above {
            let top = self.base.saturating_sub(NODE / 2).saturating_sub(height);
            ("label why", top.saturating_sub(7))
        } else {
            let bottom = self.base.saturating_add(NODE / 2).saturating_add(height);
            ("label", bottom.saturating_add(13))
        };
        let label = arc.label.as_str();
        // (no wider than the label, so that it doesn't cut the sides of the arc round it)
        let size = (label_width(label).saturating_mul(7) / 8, BACK);
        let out = put_titled(out, arc.title.as_str());
        let out = put_box(out, "back", (middle, y.saturating_sub(4)), size, 2);
        put_text(out, class, middle, y, label).put(END_OF_GROUP)
    }

    // Adds the arcs of one side, and over them their labels.
    fn put_arcs(&self, mut out: Prose<A>, arcs: &Arcs<A>) -> Prose<A> {
        for arc in arcs.arcs.iter() {
            out = self.put_line(out, arcs, arc);
        }
        self.put_labels(out, arcs)
    }

    // Adds the labels of the arcs of one side.
    fn put_labels(&self, mut out: Prose<A>, arcs: &Arcs<A>) -> Prose<A> {
        for arc in arcs.arcs.iter() {
            out = self.put_label(out, arcs, arc);
        }
        out
    }

    // Adds a transaction.
    fn put_node(&self, out: Prose<A>, place: usize, t: TxnId) -> Prose<A> {
        let (class, label) = look_of(self.lanes.run.machine().status(t));
        let x = self.x(place);
        let width = digits(usize::from(t.0))
            .saturating_mul(7)
            .saturating_add(19);
        let out = put_status(out.put("<g><title>"), self.lanes, t).put("</title>");
        let out = put_box(out, class, (x, self.base), (width, NODE), NODE / 2);
        let out = put_text_at(out, label, x, self.base.saturating_add(4));
        put!(out; t.0, END_OF_TEXT, END_OF_GROUP)
    }

    // Adds all transactions.
    fn put_nodes(&self, mut out: Prose<A>) -> Prose<A> {
        for (place, t) in self.graph.txns.iter().enumerate() {
            out = self.put_node(out, place, *t);
        }
        out
    }

    // Whether a transaction of the graphs has the status.
    fn has_status(&self, status: Status) -> bool {
        let machine = self.lanes.run.machine();
        self.graph.txns.iter().any(|t| machine.status(*t) == status)
    }

    // Adds the meanings of the statuses that occur.
    fn put_statuses(&self, mut out: Prose<A>, y: usize) -> Prose<A> {
        let mut x = MARGIN;
        for (status, meaning) in STATUSES {
            if self.has_status(status) {
                let (class, _) = look_of(status);
                out = put_box(out, class, (x.saturating_add(14), y), (22, 16), 8);
                out = put_meaning(out, x, y, meaning);
                x = x.saturating_add(ENTRY);
            }
        }
        out
    }

    // Adds the meanings of the lines that occur.
    fn put_meanings(&self, mut out: Prose<A>, y: usize) -> Prose<A> {
        let mut x = MARGIN;
        for (class, head, meaning) in LINES {
            let waits = self.waits.arcs.iter().any(|arc| arc.class == class);
            let edges = self.edges.arcs.iter().any(|arc| arc.class == class);
            if waits || edges {
                out = put_sample(out, class, head, x.saturating_add(2), y);
                out = put_meaning(out, x, y, meaning);
                x = x.saturating_add(ENTRY);
            }
        }
        out
    }

    // The width of the whole, with room for the meanings of the three lines, and for those of the statuses.
    fn width(&self) -> usize {
        let last = self.graph.txns.len().saturating_sub(1);
        let nodes = self.x(last).saturating_add(MARGIN * 3);
        let statuses = STATUSES.iter().filter(|one| self.has_status(one.0)).count();
        let entries = ENTRY.saturating_mul(statuses.max(3));
        nodes.max(entries.saturating_add(MARGIN))
    }

    // Adds the whole picture, below these lines and the deadlocks, and above the line that stopped the run.
    fn put_all(
        &self,
        out: Prose<A>,
        counts: &[String<A>],
        circles: &[String<A>],
        stop: &str,
    ) -> Prose<A> {
        let below = self
            .base
            .saturating_add(NODE)
            .saturating_add(self.edges.extent());
        let lines_y = below.saturating_add(LINE);
        let statuses_y = lines_y.saturating_add(LINE + 6);
        let stop_y = statuses_y.saturating_add(LINE + 10);
        let foot = if stop.is_empty() { 0 } else { LINE };
        let out = put_open(out, self.width(), stop_y.saturating_add(foot));
        let out = put_lines(out, "code", LINE, counts);
        let out = put_lines(
            out,
            "code no",
            height_of(counts).saturating_add(LINE),
            circles,
        );
        let out = self.put_arcs(self.put_arcs(out, &self.edges), &self.waits);
        let out = self.put_nodes(out);
        let out = self.put_statuses(self.put_meanings(out, lines_y), statuses_y);
        put_text(out, "code no", MARGIN, stop_y, stop).put(END)
    }
}

// The height of these lines.
fn height_of<A: Handle>(lines: &[String<A>]) -> usize {
    lines.len().saturating_mul(LINE)
}

// The deadlocks, a line each.
fn circles_of<A: Handle>(alloc: A, waits: &Waits<A>) -> Result<Vec<String<A>, A>, AllocError> {
    let mut lines = Vec::new(alloc);
    for circle in waits.circles.iter() {
        let line = waits.put_circle(Prose::new(alloc), circle.as_slice());
        lines.push(line.done()?)?;
    }
    Ok(lines)
}

/// The graphs as an SVG. The line that stopped the run, if one did, is below.
pub fn draw_graph_svg<A: Handle>(lanes: &Lanes<A>, stop: &str) -> Result<String<A>, AllocError> {
    let alloc = lanes.run.allocator();
    let graph = Graph::of(lanes, MOST_ARROWS)?;
    let waits = wait_arcs(lanes, &graph)?;
    let edges = edge_arcs(lanes, &graph)?;
    let gap = waits.least_gap().max(edges.least_gap());
    let mut sheet = Sheet {
        lanes,
        graph: &graph,
        waits,
        edges,
        gap,
        base: 0,
    };
    let counts = graph.put_counts(Prose::new(alloc), lanes).done()?;
    let room = sheet.width().saturating_sub(2 * MARGIN) / 8;
    let counts = wrapped(alloc, counts.as_str(), room, false)?;
    let circles = circles_of(alloc, &graph.waits)?;
    let above = height_of(&counts).saturating_add(height_of(&circles));
    sheet.base = sheet
        .waits
        .extent()
        .saturating_add(above)
        .saturating_add(NODE * 2);
    sheet
        .put_all(Prose::new(alloc), &counts, &circles, stop.trim_end())
        .done()
}
