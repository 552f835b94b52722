//! The elements of an SVG. Texts are escaped here, and nowhere else.

use acta_prose::{Prose, put};
use std::alloc::Allocator;

/// The margin round a picture.
pub const MARGIN: usize = 16;

/// The height of a line of words above or below a picture.
pub const LINE: usize = 20;

/// How the parts of a picture look.
pub const STYLE: &str = "\
.acta-draw{background:#fff;font:12px system-ui,-apple-system,'Segoe UI',Roboto,'DejaVu Sans',sans-serif}
.acta-draw text{fill:#1f2328}
.acta-draw .code{font:12px ui-monospace,'SF Mono',Menlo,Consolas,'DejaVu Sans Mono',monospace;white-space:pre}
.acta-draw .note{font:11px ui-monospace,'SF Mono',Menlo,Consolas,'DejaVu Sans Mono',monospace;fill:#59636e}
.acta-draw .no{fill:#b31d28}
.acta-draw .place{fill:#59636e;text-anchor:end}
.acta-draw .head{font-weight:700;font-size:13px;text-anchor:middle}
.acta-draw .class{font-size:11px;fill:#59636e;text-anchor:middle}
.acta-draw .in{font-weight:700;font-size:11px;text-anchor:middle}
.acta-draw .on{fill:#fff}
.acta-draw .label{font-size:11px;fill:#6639ba;text-anchor:middle;paint-order:stroke;stroke:#fff;stroke-width:3px}
.acta-draw .why{fill:#b31d28}
.acta-draw .back{fill:#fff}
.acta-draw line,.acta-draw path{fill:none}
.acta-draw .rule{stroke:#eef1f4}
.acta-draw .guide{stroke:#e6eaef;stroke-dasharray:2 4}
.acta-draw .lane{stroke:#8c959f;stroke-width:2}
.acta-draw .tie{stroke:#424a53;stroke-width:1.3}
.acta-draw .permit{stroke:#424a53;stroke-width:1.3;stroke-dasharray:3 3}
.acta-draw .edge{stroke:#8250df;stroke-width:1.3}
.acta-draw .block{stroke:#cf222e;stroke-width:1.2;stroke-dasharray:5 4;opacity:.6}
.acta-draw .wait{stroke:#cf222e;stroke-width:1.4}
.acta-draw .closed{stroke-width:2.6}
.acta-draw .absent{fill:#fff;stroke:#8c959f;stroke-dasharray:3 3}
.acta-draw .band{fill:#f6f8fa}
.acta-draw .cross{stroke:#cf222e;stroke-width:3;stroke-linecap:round}
.acta-draw .start{fill:#fff;stroke:#424a53;stroke-width:1.6}
.acta-draw .operation{fill:#0969da}
.acta-draw .point{fill:#424a53}
.acta-draw .met{fill:#fff;stroke:#424a53;stroke-width:1.3}
.acta-draw .committed{fill:#1a7f37}
.acta-draw .aborted{fill:#bc4c00}
.acta-draw .joined{fill:#424a53}
.acta-draw .owes{fill:#9a6700}
.acta-draw .foot{fill:#8250df}
";

/// What ends a group.
pub const END_OF_GROUP: &str = "</g>\n";

/// What ends a text.
pub const END_OF_TEXT: &str = "</text>\n";

/// What ends a picture.
pub const END: &str = "</svg>\n";

/// Adds a text with what has a meaning in markup escaped.
pub fn put_escaped<A: Allocator>(mut out: Prose<A>, text: &str) -> Prose<A> {
    let mut bytes = text.as_bytes().iter();
    if bytes.all(|byte| !matches!(*byte, b'&' | b'<' | b'>' | b'"')) {
        return out.put(text);
    }
    for c in text.chars() {
        out = match c {
            '&' => out.put("&amp;"),
            '<' => out.put("&lt;"),
            '>' => out.put("&gt;"),
            '"' => out.put("&quot;"),
            c => out.put(c),
        };
    }
    out
}

/// Adds what begins a picture of this size.
pub fn put_open<A: Allocator>(out: Prose<A>, width: usize, height: usize) -> Prose<A> {
    let out =
        put!(out; "<svg xmlns=\"http://www.w3.org/2000/svg\" class=\"acta-draw\" width=\"", width,
        "\" height=\"", height, "\" viewBox=\"0 0 ", width, " ", height, "\">\n<style>\n", STYLE,
        "</style>\n<defs>\n");
    let out = put_head(out, "acta-draw-tie", "#424a53");
    let out = put_head(out, "acta-draw-edge", "#8250df");
    let out = put_head(out, "acta-draw-block", "#cf222e");
    put!(out; "</defs>\n<rect width=\"", width, "\" height=\"", height, "\" fill=\"#fff\"/>\n")
}

// Adds the head of the arrows of this colour.
fn put_head<A: Allocator>(out: Prose<A>, id: &str, color: &str) -> Prose<A> {
    put!(out; "<marker id=\"", id,
        "\" viewBox=\"0 0 8 8\" refX=\"8\" refY=\"4\" markerWidth=\"8\" markerHeight=\"8\" markerUnits=\"userSpaceOnUse\" orient=\"auto\"><path d=\"M0 0L8 4L0 8z\" style=\"fill:",
        color, "\"/></marker>\n")
}

/// Begins a group that this says in words.
pub fn put_titled<A: Allocator>(out: Prose<A>, title: &str) -> Prose<A> {
    put_escaped(out.put("<g><title>"), title).put("</title>")
}

/// Begins a text at a point.
pub fn put_text_at<A: Allocator>(out: Prose<A>, class: &str, x: usize, y: usize) -> Prose<A> {
    put!(out; "<text class=\"", class, "\" x=\"", x, "\" y=\"", y, "\">")
}

/// Adds a text at a point.
pub fn put_text<A: Allocator>(
    out: Prose<A>,
    class: &str,
    x: usize,
    y: usize,
    text: &str,
) -> Prose<A> {
    put_escaped(put_text_at(out, class, x, y), text).put(END_OF_TEXT)
}

/// Adds a line between two points.
pub fn put_line<A: Allocator>(
    out: Prose<A>,
    class: &str,
    from: (usize, usize),
    to: (usize, usize),
) -> Prose<A> {
    put!(out; "<line class=\"", class, "\" x1=\"", from.0, "\" y1=\"", from.1, "\" x2=\"", to.0,
        "\" y2=\"", to.1, "\"/>\n")
}

/// Adds a short arrow from a point to the right, with this head, as an example of the lines of a class.
pub fn put_sample<A: Allocator>(
    out: Prose<A>,
    class: &str,
    head: &str,
    x: usize,
    y: usize,
) -> Prose<A> {
    put!(out; "<path class=\"", class, "\" d=\"M", x, " ", y, "H", x.saturating_add(26),
        "\" marker-end=\"url(#acta-draw-", head, ")\"/>\n")
}

/// Adds lines of words, one below the other from this height on.
pub fn put_lines<A: Allocator>(
    mut out: Prose<A>,
    class: &str,
    top: usize,
    lines: &[String<A>],
) -> Prose<A> {
    let mut y = top;
    for line in lines {
        out = put_text(out, class, MARGIN, y, line.as_str());
        y = y.saturating_add(LINE);
    }
    out
}

/// Adds a circle.
pub fn put_circle<A: Allocator>(
    out: Prose<A>,
    class: &str,
    x: usize,
    y: usize,
    radius: usize,
) -> Prose<A> {
    put!(out; "<circle class=\"", class, "\" cx=\"", x, "\" cy=\"", y, "\" r=\"", radius, "\"/>")
}

/// Adds a box round a point, with corners of this radius.
pub fn put_box<A: Allocator>(
    out: Prose<A>,
    class: &str,
    middle: (usize, usize),
    size: (usize, usize),
    radius: usize,
) -> Prose<A> {
    let (width, height) = size;
    let x = middle.0.saturating_sub(width / 2);
    let y = middle.1.saturating_sub(height / 2);
    put!(out; "<rect class=\"", class, "\" x=\"", x, "\" y=\"", y, "\" width=\"", width, "\" height=\"",
        height, "\" rx=\"", radius, "\"/>")
}
