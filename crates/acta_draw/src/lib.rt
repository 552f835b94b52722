//! Histories as pictures: a lane for each transaction, from its start to its end, with a row for each event. A picture
//! is a text for a terminal or an SVG for a browser.
//!
//! Nothing here decides anything: what is admitted, what it forms and why an event is refused is asked of the machine,
//! and is drawn. The lanes are made once (`Lanes`), a choice of transactions and places selects some of them (`Selection`), and
//! each form of picture is a walk over the rows of the selection. A call that allocates returns `Err` if memory runs out.
#![tactic(auto)]

mod args;
mod arrows;
mod blockers;
mod blocks;
mod canvas;
mod choice;
mod columns;
mod graph;
mod graph_svg;
mod graph_text;
mod lanes;
mod layout;
mod legend;
mod marks;
mod markup;
mod notation;
mod picture;
mod screen;
mod selection;
mod sentences;
mod spans;
mod svg;
mod svg_layout;
mod text;
mod wrapping;

pub use args::{Asked, DrawLine, Drawing, Form};
pub use choice::{Choice, View};
pub use picture::{draw, draw_run, draw_tool};
pub use screen::Screen;
