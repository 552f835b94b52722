//! Scripts, and their drives: a script is written as text, an event a line.

use crate::expecting::made;
use crate::models::model_of;
use acta_locked::{DriveError, Driven, Entry, Gate, Script, drive};
use acta_machine::Handle;
use acta_models::Standard;
use acta_script::read_event;
use acta_table::Model;
use std::alloc::Allocator;
use std::process::Abort;
use std::sync::Wait;
use std::thread::Threads;

/// Two scripts: seat 1 adds to n and seat 2 to m.
pub const ADDITIONS: [&str; 2] = ["begin 1 flat\ndo 1 n add 5", "begin 2 flat\ndo 2 m add 7"];

/// The script of the text, parsed on the model.
pub fn script<A: Allocator + Copy>(
    rt: &impl Abort,
    alloc: A,
    model: &Model<A>,
    text: &str,
) -> Script<A> {
    let mut events = Vec::new(alloc);
    for line in text.lines() {
        let event = made(rt, read_event(alloc, model, line.as_bytes()), line);
        made(rt, events.push(event), line);
    }
    Script::of(events)
}

/// The scripts that the texts say.
pub fn scripts<A: Allocator + Copy>(
    rt: &impl Abort,
    alloc: A,
    texts: &[&str],
) -> Vec<Script<A>, A> {
    let model = model_of(rt, alloc, Standard::Atomic.text());
    let mut scripts = Vec::new(alloc);
    for text in texts {
        made(rt, scripts.push(script(rt, alloc, &model, text)), text);
    }
    drop(model);
    scripts
}

// A drive, in a function of its own, so that callers need not read all that is known of its result.
fn run<A: Handle + Send + Sync, R: Threads + Wait + Sync, G: Gate<Entry<A>> + Sync>(
    rt: &R,
    alloc: A,
    model: Model<A>,
    scripts: &[Script<A>],
    gate: &G,
) -> Result<Driven<A>, DriveError> {
    drive(rt, alloc, model, scripts, gate)
}

/// A drive of the scripts over a book of the standard model.
pub fn driven<A: Handle + Send + Sync, R: Threads + Wait + Sync + Abort, G: Gate<Entry<A>> + Sync>(
    rt: &R,
    alloc: A,
    name: Standard,
    scripts: &[Script<A>],
    gate: &G,
) -> Driven<A> {
    let model = model_of(rt, alloc, name.text());
    made(rt, run(rt, alloc, model, scripts, gate), "a drive")
}

/// Why such a drive has no result.
pub fn fault_of<
    A: Handle + Send + Sync,
    R: Threads + Wait + Sync + Abort,
    G: Gate<Entry<A>> + Sync,
>(rt: &R, alloc: A, name: Standard, scripts: &[Script<A>], gate: &G) -> Option<DriveError> {
    let model = model_of(rt, alloc, name.text());
    run(rt, alloc, model, scripts, gate).err()
}
