ghost use Rattle.std.specs.Prelude.{◌≡◌, ◌≤◌, ◌<◌, if◌then◌else◌, ℕ, length, get_or, Some, None, false};
ghost use Rattle.std.specs.List.{All};
ghost use Rattle.std.specs.Option.{option_map_or};
ghost use Rattle.acta_table.specs.Classes.{class_at, has_heir};
ghost use Rattle.acta_table.specs.Events.{named};
ghost use Rattle.acta_axioms.specs.inside.TxnRecords.{unbegun, begun_in, or_at, started, further, ended_in, is_late, heir_of_line, heir_in, before_place, heir_before};

use crate::course::Course;
use acta_table::{AtCommit, ClassId, Event, Kept, Model, TxnId};
use std::alloc::Allocator;

/// The record of a transaction: its course, the class that it started with, and its parent.
#[derive(Clone, Copy, PartialEq, Eq, Debug)]
pub struct TxnRecord {
    pub course: Course,
    pub class: Option<ClassId>,
    pub parent: Option<TxnId>,
}

/// The record of a transaction that no item names.
pub const UNBEGUN: TxnRecord = TxnRecord {
    course: Course {
        start: None,
        commit: None,
        abort: None,
        join: None,
    },
    class: None,
    parent: None,
};

// The largest transaction number that the event names.
fn largest_in<A: Allocator>(event: &Event<A>) -> u16
    ensures { All (λ t. t ≤ result) (named event.now) }
{
    match event {
        Event::Begin(t, _) => t.0,
        Event::Spawn(t, c, _) => t.0.max(c.0),
        Event::Split(t, u, _, _) => t.0.max(u.0),
        Event::Join(t, u) => t.0.max(u.0),
        Event::Delegate(t, u, _) => t.0.max(u.0),
        Event::Form(_, j, i) => j.0.max(i.0),
        Event::Operate(t, _, _) => t.0,
        Event::Commit(t) => t.0,
        Event::Abort(t) => t.0,
        Event::Permit(t, u, _) => t.0.max(u.0),
    }
}

/// The largest number of a transaction that the items name, or 0.
pub fn largest_named<A: Allocator>(kept: &[Kept<A>]) -> u16
    ensures { All (λ k. All (λ t. t ≤ result) (named k.event)) kept.now }
{
    let mut largest = 0;
    for item in kept {
        let t = largest_in(&item.event);
        if t > largest {
            largest = t;
        }
    }
    largest
}

/// The transaction's record in the table, which has none past its end.
pub fn record_of(lines: &[TxnRecord], t: TxnId) -> TxnRecord
    ensures { result ≡ get_or lines.now t.0 unbegun }
{
    match lines.get(t.0 as usize) {
        Some(line) => *line,
        None => UNBEGUN,
    }
}

// The earlier place, or this one if there is none.
fn or_at(place: u32, first: Option<u32>) -> Option<u32>
    ensures { result ≡ or_at place first }
{
    match first {
        Some(first) => Some(first),
        None => Some(place),
    }
}

// The record of a transaction that starts at this place, with this class and parent, unless it has started before.
fn started(place: u32, class: ClassId, parent: Option<TxnId>, line: TxnRecord) -> TxnRecord
    ensures { result ≡ started place class parent line }
{
    if line.course.start.is_some() {
        return line;
    }
    TxnRecord {
        course: Course {
            start: Some(place),
            commit: line.course.commit,
            abort: line.course.abort,
            join: line.course.join,
        },
        class: Some(class),
        parent,
    }
}

// The spawning transaction as a parent, if it has begun.
fn spawner(lines: &[TxnRecord], t: TxnId) -> Option<TxnId>
    ensures { result ≡ (if begun_in lines.now t.0 then Some t else None) }
{
    if record_of(lines, t).course.has_begun() {
        Some(t)
    } else {
        None
    }
}

/// Updates the table with the event at this place, which follows all others.
pub fn note<A: Allocator>(lines: &mut [TxnRecord], place: u32, event: &Event<A>)
    requires { All (λ t. t < length lines.old) (named event.now) }
    ensures further { (t : ℕ) → get_or lines.new t unbegun ≡ further place (begun_in lines.old) event.now t (get_or lines.old t unbegun) }
    ensures long { length lines.new ≡ length lines.old }
{
    match event {
        Event::Begin(t, class) => {
            let line = lines[t.0 as usize];
            lines[t.0 as usize] = started(place, *class, None, line);
        }
        Event::Spawn(t, c, class) => {
            let parent = spawner(lines, *t);
            let line = lines[c.0 as usize];
            lines[c.0 as usize] = started(place, *class, parent, line);
        }
        Event::Split(_, u, class, _) => {
            let line = lines[u.0 as usize];
            lines[u.0 as usize] = started(place, *class, None, line);
        }
        Event::Join(t, _) => {
            let first = lines[t.0 as usize].course.join;
            lines[t.0 as usize].course.join = or_at(place, first);
        }
        Event::Commit(t) => {
            let first = lines[t.0 as usize].course.commit;
            lines[t.0 as usize].course.commit = or_at(place, first);
        }
        Event::Abort(t) => {
            let first = lines[t.0 as usize].course.abort;
            lines[t.0 as usize].course.abort = or_at(place, first);
        }
        Event::Delegate(_, _, _)
        | Event::Form(_, _, _)
        | Event::Operate(_, _, _)
        | Event::Permit(_, _, _) => {}
    }
}

// Whether the transaction has ended, according to the table.
fn has_ended(lines: &[TxnRecord], t: TxnId) -> bool
    ensures { result ≡ ended_in lines.now t.0 }
{
    record_of(lines, t).course.has_ended()
}

/// Whether the event is a permit by or for a transaction that has ended: such a permit is never in force.
pub fn is_late<A: Allocator>(lines: &[TxnRecord], event: &Event<A>) -> bool
    ensures { result ≡ is_late (ended_in lines.now) event.now }
{
    match event {
        Event::Permit(t, u, _) => has_ended(lines, *t) || has_ended(lines, *u),
        _ => false,
    }
}

// Whether transactions of this class commit to their parents; false for a class that is not in the model.
fn commits_to_parent<A: Allocator>(model: &Model<A>, class: ClassId) -> bool
    ensures { result ≡ option_map_or (λ k. has_heir k.at_commit) (class_at model.now class.0) false }
{
    match model.class(class) {
        Some(class) => matches!(class.at_commit, AtCommit::ToParent),
        None => false,
    }
}

// The heir of the record's transaction: its parent, if its class commits to parents.
fn heir_of_line<A: Allocator>(model: &Model<A>, line: TxnRecord) -> Option<TxnId>
    ensures { result ≡ heir_of_line model.now line }
{
    let class = line.class?;
    if commits_to_parent(model, class) {
        line.parent
    } else {
        None
    }
}

/// The heir of the transaction that commits by the event, according to the table.
pub fn heir_of<A: Allocator>(
    model: &Model<A>,
    lines: &[TxnRecord],
    event: &Event<A>,
) -> Option<TxnId>
    ensures { result ≡ heir_in model.now lines.now event.now }
{
    match event {
        Event::Commit(t) => heir_of_line(model, record_of(lines, *t)),
        _ => None,
    }
}

// The record after the first n places, except for ends.
fn before_place(n: u32, line: TxnRecord) -> TxnRecord
    ensures { result ≡ before_place n line }
{
    match line.course.start {
        Some(start) => { if start <= n { line } else { UNBEGUN } }
        None => UNBEGUN,
    }
}

/// The heir of the transaction that commits by the event after the first n places, given the table for all places.
pub fn heir_after<A: Allocator>(
    model: &Model<A>,
    lines: &[TxnRecord],
    n: u32,
    event: &Event<A>,
) -> Option<TxnId>
    ensures { result ≡ heir_before model.now n lines.now event.now }
{
    match event {
        Event::Commit(t) => heir_of_line(model, before_place(n, record_of(lines, *t))),
        _ => None,
    }
}
