//! How transactions, classes, operations and edges are named in a sentence.

use crate::lines::{LineIndex, LineText};
use crate::prose::Prose;
use crate::put;
use acta_args::ModelName;
use acta_machine::Handle;
use acta_script::{EVENT_KINDS, OpKind, RETURN_WORDS, event_word};
use acta_table::{
    Class, ClassId, Edge, Event, EventKind, Kind, Model, ObjId, Op, OpNo, Ret, Status, TxnId,
};
use std::alloc::{AllocError, Allocator};

/// The most characters of an event inside a sentence.
const MOST_OF_EVENT: usize = 60;

/// A name of a model, as text.
pub fn name_text(name: &[u8]) -> &str {
    std::str::from_utf8(name).unwrap_or("?")
}

/// Adds a model's name as a command line has it.
pub fn put_model_name<A: Handle>(prose: Prose<A>, name: ModelName<'_>) -> Prose<A> {
    match name {
        ModelName::Standard(standard) => put!(prose; "@", standard.name()),
        ModelName::Path(path) => prose.put(path),
    }
}

/// The word by which a class allows events of this kind, in its `starts` or `may` line.
pub fn allowing_word(kind: EventKind) -> &'static str {
    match kind {
        EventKind::Operate => "operate",
        kind => event_word(kind),
    }
}

/// The kind of an operation.
pub fn operation_kind(op: Op) -> OpKind {
    match op {
        Op::Read => OpKind::Read,
        Op::Write(_) => OpKind::Write,
        Op::Get => OpKind::Get,
        Op::Add(_) => OpKind::Add,
        Op::Insert(_) => OpKind::Insert,
        Op::Remove(_) => OpKind::Remove,
        Op::Has(_) => OpKind::Has,
        Op::Size => OpKind::Size,
    }
}

// What an object of the kind is, and its operations.
fn kind_words(kind: Kind) -> (&'static str, &'static str) {
    match kind {
        Kind::Register(_) => ("a register", "`read` and `write`"),
        Kind::Counter(_) => ("a counter", "`get` and `add`"),
        Kind::Elements => ("a set", "`insert`, `remove`, `has` and `size`"),
    }
}

/// Adds what the object is, and that it has no such operation.
pub fn put_lacking<A: Allocator>(
    prose: Prose<A>,
    model: &Model<A>,
    object: ObjId,
    op: Op,
) -> Prose<A> {
    let word = operation_kind(op).word();
    match model.object(object) {
        Some(found) => {
            let (kind, has) = kind_words(found.kind);
            put!(prose; "`", name_text(found.name.as_slice()), "` is ", kind, ", which has ", has,
                ", and no `", word, "`")
        }
        None => put!(prose; "the object has no `", word, "`"),
    }
}

/// Adds the word of a return.
pub fn put_return<A: Allocator>(prose: Prose<A>, ret: Ret) -> Prose<A> {
    let [done, yes, no] = RETURN_WORDS;
    match ret {
        Ret::Done => prose.put(done),
        Ret::Flag(true) => prose.put(yes),
        Ret::Flag(false) => prose.put(no),
        Ret::Value(value) => prose.put(value),
    }
}

/// Adds the `may` line of this transaction's class, without the closing quote.
pub fn put_may<A: Allocator>(prose: Prose<A>, class: &Class<A>, t: TxnId) -> Prose<A> {
    let name = name_text(class.name.as_slice());
    let mut prose = put!(prose; "class `", name, "` of ", t.0, " has `may");
    // (a begin is in no `may`)
    for kind in EVENT_KINDS {
        if class.may.has(kind) {
            prose = put!(prose; " ", allowing_word(kind));
        }
    }
    prose
}

/// Adds the `starts` line of a class, without the closing quote.
pub fn put_starts<A: Allocator>(prose: Prose<A>, class: &Class<A>) -> Prose<A> {
    let begin = if class.starts.begin { " begin" } else { "" };
    let spawned = if class.starts.spawned { " spawned" } else { "" };
    let split = if class.starts.split { " split" } else { "" };
    let name = name_text(class.name.as_slice());
    put!(prose; "class `", name, "` has `starts", begin, spawned, split)
}

// The status of a transaction, in words.
fn status_words(status: Status) -> &'static str {
    match status {
        Status::NotBegun => "has not begun",
        Status::InProgress => "is in progress",
        Status::Committed => "has committed",
        Status::Aborted => "has aborted",
        Status::Joined => "has joined another",
    }
}

/// Adds an edge in words: its kind, the dependent transaction, and the one on which it depends.
pub fn put_edge<A: Allocator>(prose: Prose<A>, edge: &Edge) -> Prose<A> {
    put!(prose; edge.kind.word(), " ", edge.j.0, " on ", edge.i.0)
}

/// Adds a line as sentences refer to it: its number and its event, shortened if it is long.
pub fn put_line_text<A: Allocator>(prose: Prose<A>, line: LineText<'_>) -> Prose<A> {
    let prose = put!(prose; line.noun, " ", line.line, ": ");
    match line.event.char_indices().nth(MOST_OF_EVENT) {
        Some((end, _)) => put!(prose; line.event.get(..end).unwrap_or(""), " .."),
        None => prose.put(line.event),
    }
}

/// Adds the status of the transaction, with the line that ended it.
pub fn put_standing<A: Handle>(
    prose: Prose<A>,
    lines: LineIndex<'_, A>,
    t: TxnId,
    status: Status,
) -> Prose<A> {
    let prose = prose.put(status_words(status));
    match lines.end(t) {
        Some(line) if !matches!(status, Status::NotBegun | Status::InProgress) => {
            put!(prose; " (", line.noun, " ", line.line, ")")
        }
        _ => prose,
    }
}

/// Adds the operation with this number, with its line.
pub fn put_operation<A: Handle>(prose: Prose<A>, lines: LineIndex<'_, A>, op: OpNo) -> Prose<A> {
    let prose = put!(prose; "operation ", op.0);
    match lines.operation(op) {
        Some(line) => put_line_text(prose.put(" ("), line).put(")"),
        None => prose,
    }
}

/// Adds the edge, with its number.
pub fn put_numbered_edge<A: Allocator>(prose: Prose<A>, number: u64, edge: &Edge) -> Prose<A> {
    put_edge(put!(prose; "edge ", number, " ("), edge).put(")")
}

/// Adds the edge with this number, with the line that formed it.
pub fn put_formed_edge<A: Handle>(
    prose: Prose<A>,
    lines: LineIndex<'_, A>,
    number: u64,
) -> Prose<A> {
    let prose = match lines.edge(number) {
        Some(edge) => put_numbered_edge(prose, number, edge),
        None => put!(prose; "edge ", number),
    };
    match lines.edge_line(number) {
        Some(line) => put_line_text(prose.put(", formed at "), line),
        None => prose,
    }
}

/// Adds these edges, numbered after the first `before`: at most `most` of them, and how many more there are.
pub fn put_edges<A: Allocator>(
    mut prose: Prose<A>,
    before: usize,
    edges: &[Edge],
    most: usize,
) -> Prose<A> {
    let mut number = before as u64;
    for edge in edges.iter().take(most) {
        number = number.saturating_add(1);
        let gap = if prose.is_empty() { "" } else { "; " };
        prose = put_numbered_edge(prose.put(gap), number, edge);
    }
    let more = edges.len().saturating_sub(most);
    if more > 0 {
        put!(prose; "; and ", more, " more")
    } else {
        prose
    }
}

/// The class with this number, if there is one.
pub fn class_at<A: Allocator>(model: &Model<A>, class: Option<ClassId>) -> Option<&Class<A>> {
    model.class(class?)
}

/// The first transaction that the event names: the one that it starts, that depends by it or that does it.
pub fn first_named<A: Allocator>(event: &Event<A>) -> TxnId {
    match event {
        Event::Begin(t, _)
        | Event::Spawn(t, _, _)
        | Event::Split(t, _, _, _)
        | Event::Join(t, _)
        | Event::Delegate(t, _, _)
        | Event::Form(_, t, _)
        | Event::Operate(t, _, _)
        | Event::Commit(t)
        | Event::Abort(t)
        | Event::Permit(t, _, _) => *t,
    }
}

/// Adds a line that another function wrote, unless memory ran out.
pub fn put_line<A: Allocator>(prose: Prose<A>, line: Result<Vec<u8, A>, AllocError>) -> Prose<A> {
    match line {
        Ok(line) => prose.put(name_text(line.as_slice())),
        Err(_) => prose.fail(),
    }
}
