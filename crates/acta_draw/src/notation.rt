//! The short notation of an operation: the object, a sign, the argument, and the return where it says something.

use crate::lanes::{Row, returned};
use crate::wrapping::put_cut;
use acta_machine::Handle;
use acta_prose::{Prose, name_text, put, put_return};
use acta_script::object_name;
use acta_table::{Event, Model, Op, Ret};
use std::alloc::{AllocError, Allocator};
use unicode_width::UnicodeWidthStr;

// The most characters of an object's name in the notation, and the least of one that is cut in an event.
const MOST_OF_NAME: usize = 12;

const LEAST_OF_NAME: usize = 4;

// Adds the sign of the operation, and its argument.
fn put_sign<A: Allocator>(prose: Prose<A>, op: Op) -> Prose<A> {
    match op {
        Op::Write(value) => put!(prose; ":=", value),
        Op::Read | Op::Get => prose.put("?"),
        Op::Add(value) if value < 0 => prose.put(value),
        Op::Add(value) => put!(prose; "+", value),
        Op::Insert(value) => put!(prose; "+{", value, "}"),
        Op::Remove(value) => put!(prose; "-{", value, "}"),
        Op::Has(value) => put!(prose; "?{", value, "}"),
        Op::Size => prose.put("?#"),
    }
}

/// The notation of the operation that a row does, if it does one. A long name is cut.
pub fn operation_label<A: Handle>(
    alloc: A,
    model: &Model<A>,
    row: &Row<'_, A>,
) -> Result<String<A>, AllocError> {
    let Event::Operate(_, object, op) = row.step.event else {
        return Ok(String::new(alloc));
    };
    let name = name_text(object_name(model, object));
    let label = put_cut(Prose::new(alloc), name, MOST_OF_NAME);
    let label = put_sign(label, op);
    match returned(&row.step.answer) {
        None | Some(Ret::Done) => label.done(),
        Some(ret) => put_return(label.put("="), ret).done(),
    }
}

/// Adds an event, at most so wide. The name of the object of an operation is cut before its argument and its return are.
pub fn put_event<A: Allocator>(
    prose: Prose<A>,
    event: &str,
    answer: &str,
    width: usize,
) -> Prose<A> {
    let room = width.saturating_sub(answer.width());
    let excess = event.width().saturating_sub(room);
    match words_of(event) {
        Some((front, object, op)) if excess > 0 => {
            let most = object.width().saturating_sub(excess).max(LEAST_OF_NAME);
            put!(put_cut(put!(prose; front, " "), object, most); " ", op, answer)
        }
        _ => put_cut(prose, event, room).put(answer),
    }
}

// Of an event that does an operation the words before the object, the object, and the words after it.
fn words_of(event: &str) -> Option<(&str, &str, &str)> {
    let (object_at, _) = event.char_indices().filter(|(_, c)| *c == ' ').nth(1)?;
    let front = event.get(..object_at)?;
    let rest = event.get(object_at..)?.trim_start();
    let (object, op) = rest.split_once(' ')?;
    if front.starts_with("do ") {
        Some((front, object, op))
    } else {
        None
    }
}
