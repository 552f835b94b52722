//! What is written of a row beside its marks: what it formed, why it was refused, and what its event does in words.

use crate::choice::{Choice, has_object};
use crate::lanes::{Lanes, Row, returned};
use crate::notation::put_event;
use crate::selection::{PageNumber, Selection};
use acta_machine::Handle;
use acta_prose::{
    MOST_RENDERED, Prose, first_listed, put, put_edges, put_more, put_numbered_edge, put_return,
};
use acta_table::{Event, Missing, Model, Owed, TxnId};
use std::alloc::{AllocError, Allocator};

// The most edges that a note names.
const MOST_NAMED: usize = 8;

/// The event of a row, at most so wide. After an operation follow a `=` and its return.
pub fn event_text<A: Handle>(
    lanes: &Lanes<A>,
    row: &Row<'_, A>,
    width: usize,
) -> Result<String<A>, AllocError> {
    let alloc = lanes.run.allocator();
    let answer = Prose::new(alloc);
    let answer = match returned(&row.step.answer) {
        Some(ret) => put_return(answer.put(" = "), ret).done()?,
        None => String::new(alloc),
    };
    put_event(
        Prose::new(alloc),
        row.text.event.as_str(),
        answer.as_str(),
        width,
    )
    .done()
}

// Adds the gap before a further part of a text, unless there is no part yet.
fn put_gap<A: Allocator>(prose: Prose<A>, gap: &str) -> Prose<A> {
    if prose.is_empty() {
        prose
    } else {
        prose.put(gap)
    }
}

// Adds words with commas between them, each in quotes of a kind.
fn put_names<A: Allocator>(mut prose: Prose<A>, names: &[String]) -> Prose<A> {
    let mut gap = "";
    for one in names {
        prose = put!(prose; gap, "`", one.as_str(), "`");
        gap = ", ";
    }
    prose
}

// Adds the numbers of the transactions.
fn put_txns<A: Allocator>(prose: Prose<A>, txns: &[TxnId]) -> Prose<A> {
    let noun = if txns.len() == 1 {
        " of transaction "
    } else {
        " of transactions "
    };
    let mut prose = prose.put(noun);
    let mut gap = "";
    for t in first_listed(txns) {
        prose = put!(prose; gap, t.0);
        gap = ", ";
    }
    put_more(prose, " and ", txns.len())
}

// Adds the places from which and to which events are chosen, where not all are.
fn put_places<A: Allocator>(prose: Prose<A>, choice: &Choice) -> Prose<A> {
    let from = choice.from;
    match choice.to {
        Some(to) => put!(prose; " at places ", from, " to ", to),
        None if from <= 1 => prose,
        None => put!(prose; " from place ", from, " on"),
    }
}

// Adds the events that are chosen, in words.
fn put_chosen<A: Allocator>(prose: Prose<A>, choice: &Choice) -> Prose<A> {
    let prose = prose.put(if choice.is_refused { "refused " } else { "" });
    let prose = match &choice.objects {
        Some(names) => put_names(prose.put("operations on "), names.as_slice()),
        None => prose.put("events"),
    };
    let prose = match &choice.txns {
        Some(txns) => put_txns(prose, txns.as_slice()),
        None => prose,
    };
    let prose = put_places(prose, choice);
    let also = if choice.is_refused {
        ", and the events that block them"
    } else {
        ""
    };
    prose.put(also)
}

// Adds the objects of the choice that the model lacks.
fn put_unknown<A: Handle>(prose: Prose<A>, model: &Model<A>, choice: &Choice) -> Prose<A> {
    let Some(names) = &choice.objects else {
        return prose;
    };
    let mut prose = prose;
    for one in names.iter() {
        if !has_object(model, one.as_str()) {
            prose = put!(put_gap(prose, " "); "The model has no object `", one.as_str(), "`.");
        }
    }
    prose
}

// Adds the page.
fn put_page<A: Handle>(prose: Prose<A>, selection: &Selection<A>) -> Prose<A> {
    match selection.page {
        Some(PageNumber { page, pages }) if pages < page => {
            put!(prose; "There is no page ", page, ": the last is ", pages, ".")
        }
        Some(PageNumber { page, pages }) if 1 < pages => {
            put!(prose; "Page ", page, " of ", pages, ".")
        }
        _ => prose,
    }
}

/// Adds how much is left out, and how more is chosen.
pub fn put_left_out<A: Handle>(
    prose: Prose<A>,
    lanes: &Lanes<A>,
    selection: &Selection<A>,
    choice: &Choice,
) -> Prose<A> {
    let all = lanes.places.len();
    let chosen = selection.chosen;
    let prose = put_page(prose, selection);
    let prose = if chosen < all {
        let left = all.saturating_sub(chosen);
        let are = if left == 1 { "is" } else { "are" };
        let front =
            put!(put_gap(prose, " "); left, " of ", all, " events ", are, " left out. Drawn: ");
        put_chosen(front, choice).put(".")
    } else {
        prose
    };
    let prose = put_unknown(prose, lanes.run.machine().model(), choice);
    let prose = put_unfit(prose, selection);
    let skipped = lanes.run.skipped();
    if skipped == 0 {
        return prose;
    }
    put!(put_gap(prose, " "); "Only the first ", MOST_RENDERED, " refused events are drawn, and not ", skipped, " later ones.")
}

// Adds how many transactions don't fit.
fn put_unfit<A: Handle>(prose: Prose<A>, selection: &Selection<A>) -> Prose<A> {
    let (fit, wanted) = (selection.lanes.len(), selection.wanted);
    if wanted <= fit {
        return prose;
    }
    let other = if selection.is_reused { "" } else { "--reuse, " };
    put!(put_gap(prose, " "); "The width has room for ", fit, " of ", wanted, " transactions, with ", selection.rows.len(),
        " events. To choose others, use ", other, "--txns 1,2,7 or --from N --to M (places).")
}

/// Adds what follows the event of a row: the edges that it formed, or why it was refused.
pub fn put_note<A: Handle>(prose: Prose<A>, row: &Row<'_, A>) -> Prose<A> {
    if !row.step.is_admitted() {
        put_reason(prose.put("refused:"), row.text.reason.as_str())
    } else if row.formed.is_empty() && row.is_form() {
        prose.put("in force already")
    } else {
        put_edges(prose, row.step.edges_before, row.formed, MOST_NAMED)
    }
}

// Adds the first line of a reason. That of a clash is followed by its two edges.
fn put_reason<A: Allocator>(mut prose: Prose<A>, reason: &str) -> Prose<A> {
    for (number, line) in reason.lines().enumerate() {
        let gap = if number == 2 { "; " } else { " " };
        prose = put!(prose; gap, line);
        if !line.ends_with(':') && !line.starts_with("a commit by ") {
            return prose;
        }
    }
    prose
}

/// Adds by which edge something is owed.
pub fn put_debt_note<A: Handle>(prose: Prose<A>, lanes: &Lanes<A>, owed: &Owed) -> Prose<A> {
    let number = owed.edge.0;
    match lanes.run.lines().edge(number) {
        Some(edge) => put_numbered_edge(prose.put("by "), number, edge),
        None => prose,
    }
}

/// Adds a debt in words.
pub fn put_debt<A: Handle>(prose: Prose<A>, lanes: &Lanes<A>, owed: &Owed) -> Prose<A> {
    let missing = match owed.missing {
        Missing::Commit => " owes a commit in the end, ",
        Missing::Abort => " owes an abort in the end, ",
    };
    put_debt_note(put!(prose; owed.txn.0, missing), lanes, owed)
}

// Adds with which class a transaction starts.
fn put_class<A: Handle>(prose: Prose<A>, lanes: &Lanes<A>, t: TxnId) -> Prose<A> {
    match lanes.class_name(t) {
        Some(class) => put!(prose; ", with the class ", class),
        None => prose,
    }
}

// The words of an event after so many.
fn words_after(event: &str, count: usize) -> &str {
    event
        .splitn(count.saturating_add(1), ' ')
        .nth(count)
        .unwrap_or("")
}

// Adds what an admitted event does, in words.
fn put_doing<A: Handle>(prose: Prose<A>, lanes: &Lanes<A>, row: &Row<'_, A>) -> Prose<A> {
    let event = row.text.event.as_str();
    let t = row.figure.actor.txn.0;
    match &row.step.event {
        Event::Begin(u, _) => put_class(put!(prose; t, " begins"), lanes, *u),
        Event::Spawn(_, u, _) => put_class(put!(prose; t, " spawns ", u.0), lanes, *u),
        Event::Split(_, u, _, _) => {
            let prose = put_class(put!(prose; t, " splits off ", u.0), lanes, *u);
            put_operations(prose.put(", and "), words_after(event, 4))
        }
        Event::Join(_, u) => {
            put!(prose; t, " joins ", u.0, ", which gets all operations that ", t, " held in progress")
        }
        Event::Delegate(_, u, _) => {
            let prose = put!(prose; t, " delegates ");
            put!(put_operations(prose, words_after(event, 3)); " to ", u.0)
        }
        Event::Permit(_, u, _) => {
            put!(prose; t, " permits ", u.0, " to conflict with it on ", words_after(event, 3))
        }
        Event::Form(_, _, i) if row.formed.is_empty() => put!(prose; t, " still depends on ", i.0),
        Event::Form(_, _, i) => put!(prose; t, " comes to depend on ", i.0),
        Event::Operate(_, _, _) => {
            let number = row.step.op.map_or(0, |op| op.0);
            let prose =
                put!(prose; "operation ", number, ": ", t, " does ", words_after(event, 2), ", which returns ");
            match returned(&row.step.answer) {
                Some(ret) => put_return(prose, ret),
                None => prose.put("nothing"),
            }
        }
        Event::Commit(_) => match row.figure.partner {
            Some((parent, _)) => {
                put!(prose; t, " commits, and its parent ", parent.txn.0, " gets all operations that it held in progress")
            }
            None => put!(prose; t, " commits"),
        },
        Event::Abort(_) => put!(prose; t, " aborts"),
    }
}

// Adds operations, by their numbers; `-` is none.
fn put_operations<A: Allocator>(prose: Prose<A>, operations: &str) -> Prose<A> {
    match operations {
        "-" => prose.put("no operation"),
        several if several.contains(',') => put!(prose; "operations ", several),
        one => put!(prose; "operation ", one),
    }
}

/// What a row is, in words: what happens, or what was refused and why, in lines.
pub fn title_of<A: Handle>(lanes: &Lanes<A>, row: &Row<'_, A>) -> Result<String<A>, AllocError> {
    let prose = Prose::new(lanes.run.allocator());
    let line = row.step.line;
    if row.step.is_admitted() {
        let prose = put!(prose; "place ", row.place, " (line ", line, "): ");
        put_doing(prose, lanes, row).done()
    } else {
        let (event, reason) = (row.text.event.as_str(), row.text.reason.as_str());
        put!(prose; "refused (line ", line, "): ", event, "\n", reason).done()
    }
}
