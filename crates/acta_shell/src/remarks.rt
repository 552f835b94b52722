//! The remarks below the lines that answer a command: the same in words, with the events that caused it.

use crate::notes::Notes;
use acta_hope::{never_begin, operation_at};
use acta_machine::{Handle, Machine};
use acta_prose::{
    LineIndex, MOST_RENDERED, Prose, class_at, name_text, put, put_formed_edge, put_line_text,
    put_operation, put_prospect, put_standing,
};
use acta_script::missing_word;
use acta_session::Remark;
use acta_table::{OpNo, Owed, TxnId};
use acta_trace::is_edge_of;
use std::alloc::AllocError;

// Adds the status of a transaction, its class, its parent, and the event that began it.
fn put_txn<A: Handle>(
    prose: Prose<A>,
    lines: LineIndex<'_, A>,
    machine: &Machine<A>,
    t: TxnId,
) -> Prose<A> {
    let prose = put_standing(put!(prose; t.0, " "), lines, t, machine.status(t)).put(".");
    let Some(class) = class_at(machine.model(), machine.class(t)) else {
        return prose;
    };
    let prose = put!(prose; " Its class is `", name_text(class.name.as_slice()), "`");
    let prose = match machine.parent(t) {
        Some(parent) => put!(prose; ", and its parent is ", parent.0, "."),
        None => prose.put("."),
    };
    match lines.begin(t) {
        Some(line) => put_line_text(prose.put(" It began at "), line),
        None => prose,
    }
}

/// The status of a transaction, in words.
pub(crate) fn status_remark<A: Handle>(
    notes: &Notes<A>,
    machine: &Machine<A>,
    t: TxnId,
) -> Prose<A> {
    let prose = Prose::new(notes.allocator());
    put_txn(prose, notes.lines(machine), machine, t)
}

/// The operations that a transaction holds, each with its event.
pub(crate) fn held_remark<A: Handle>(notes: &Notes<A>, machine: &Machine<A>, t: TxnId) -> Prose<A> {
    let mut prose = Prose::new(notes.allocator());
    let Ok(held) = machine.access_set(t) else {
        return prose.fail();
    };
    for op in held.as_slice() {
        prose = put_operation(prose, notes.lines(machine), *op).put("\n");
    }
    if held.is_empty() {
        prose = put!(prose; t.0, " holds no operation in progress");
    }
    prose
}

// Adds an operation with its event and its holder.
fn put_held<A: Handle>(
    prose: Prose<A>,
    lines: LineIndex<'_, A>,
    machine: &Machine<A>,
    op: OpNo,
) -> Prose<A> {
    let prose = put_operation(prose, lines, op);
    match operation_at(machine, op) {
        Some(found) => put!(prose; ", held by ", found.holder.0, "\n"),
        None => prose.put("\n"),
    }
}

/// The operations of the conflict set of a transaction, each with its event and its holder.
pub(crate) fn conflicts_remark<A: Handle>(
    notes: &Notes<A>,
    machine: &Machine<A>,
    t: TxnId,
) -> Prose<A> {
    let mut prose = Prose::new(notes.allocator());
    let Ok(set) = machine.conflict_set(t) else {
        return prose.fail();
    };
    for op in set.as_slice() {
        prose = put_held(prose, notes.lines(machine), machine, *op);
    }
    if set.is_empty() {
        prose =
            put!(prose; "no other transaction holds an operation in progress that can conflict with one of ", t.0);
    }
    prose
}

// Adds that no edge is in force, or none of this transaction.
fn put_no_edge<A: Handle>(prose: Prose<A>, t: Option<TxnId>) -> Prose<A> {
    match t {
        Some(t) => put!(prose; "no dependency of ", t.0, " or on ", t.0, " is in force"),
        None => prose.put("no dependency is in force"),
    }
}

/// The edges in force, or those of a transaction, each with the event that formed it.
pub(crate) fn edges_remark<A: Handle>(
    notes: &Notes<A>,
    machine: &Machine<A>,
    t: Option<TxnId>,
) -> Prose<A> {
    let mut prose = Prose::new(notes.allocator());
    let mut number = 0u64;
    for edge in machine.edges() {
        number = number.saturating_add(1);
        if is_edge_of(edge, t) {
            prose = put_formed_edge(prose, notes.lines(machine), number).put("\n");
        }
    }
    if prose.is_empty() {
        prose = put_no_edge(prose, t);
    }
    prose
}

// Adds a debt with its edge, and whether it can be paid. `lost` is the result of `never_begin` for the machine.
fn put_debt<A: Handle>(
    prose: Prose<A>,
    notes: &Notes<A>,
    machine: &Machine<A>,
    lost: &[u32],
    owed: &Owed,
) -> Prose<A> {
    let lines = notes.lines(machine);
    let word = name_text(missing_word(owed.missing));
    let prose = put!(prose; owed.txn.0, " owes its ", word, " by ");
    let prose = put_formed_edge(prose, lines, owed.edge.0).put("\n");
    put_prospect(prose, machine, lines, lost, owed.txn, owed.missing).put("\n")
}

/// The debts, each with its edge, and whether it can be paid.
pub(crate) fn owed_remark<A: Handle>(notes: &Notes<A>, machine: &Machine<A>) -> Prose<A> {
    let alloc = notes.allocator();
    let mut prose = Prose::new(alloc);
    let (Ok(owed), Ok(lost)) = (machine.owed(), never_begin(alloc, machine)) else {
        return prose.fail();
    };
    for one in owed.as_slice() {
        prose = put_debt(prose, notes, machine, lost.as_slice(), one);
    }
    if owed.is_empty() {
        prose = prose.put("nothing is owed");
    }
    prose
}

/// The words beside the answer to the refused event of this number, and those below it.
pub(crate) fn refusal_remark<A: Handle>(
    notes: &Notes<A>,
    number: usize,
) -> Result<Remark<Vec<u8, A>>, AllocError> {
    let alloc = notes.allocator();
    match notes.refusal(number) {
        Some(refusal) => {
            let beside =
                put!(Prose::new(alloc); "refused event ", number, ": ", refusal.event.as_str());
            let below = Prose::new(alloc).put(refusal.reason.as_str());
            remark_of(beside, below)
        }
        None => {
            let below = put!(Prose::new(alloc); "only the reasons of the first ", MOST_RENDERED,
                " refused events are kept");
            remark_of(Prose::new(alloc), below)
        }
    }
}

/// The remark with these texts.
pub(crate) fn remark_of<A: Handle>(
    beside: Prose<A>,
    below: Prose<A>,
) -> Result<Remark<Vec<u8, A>>, AllocError> {
    match (beside.done(), below.done()) {
        (Ok(beside), Ok(below)) => Ok(Remark {
            beside: beside.into_bytes(),
            below: below.into_bytes(),
        }),
        _ => Err(AllocError),
    }
}
