//! Describes a faulty condition.

ghost use Rattle.std.specs.Prelude.{◌≡◌, true, IfOk};

use acta_ends::{ConditionFault, Expected};
use acta_io::Report;
use acta_machine::Handle;
use acta_prose::{Prose, name_text, put};
use acta_table::{Kind, Model, ObjId};
use acta_words::words_of;
use std::alloc::AllocError;

// Adds the names of the objects of the model.
fn put_objects<A: Handle>(mut prose: Prose<A>, model: &Model<A>) -> Prose<A> {
    let mut gap = "an object of the model: ";
    for object in model.objects() {
        prose = put!(prose; gap, "`", name_text(object.name.as_slice()), "`");
        gap = ", ";
    }
    prose
}

// Adds the values that an object can have.
fn put_value_of<A: Handle>(prose: Prose<A>, model: &Model<A>, object: ObjId) -> Prose<A> {
    match model.object(object) {
        Some(object) if matches!(object.kind, Kind::Elements) => {
            prose.put("the elements of a set, as {1,4}")
        }
        _ => prose.put("a number"),
    }
}

// Adds what is expected.
fn put_expected<A: Handle>(prose: Prose<A>, model: &Model<A>, expected: Expected) -> Prose<A> {
    match expected {
        Expected::Test => prose.put(
            "a test: complete, stuck, owing, T STATUS, OBJECT = VALUE or LINE = RETURN, each with an optional `not` before it",
        ),
        Expected::Status => prose.put("a status: inprogress, committed, aborted or joined"),
        Expected::Object => put_objects(prose, model),
        Expected::Line => prose.put("the number of a line of the input that has a word"),
        Expected::Operation => prose.put("the number of a line with an operation"),
        Expected::Started => prose.put("a transaction that an event of the programs starts"),
        Expected::Value(object) => put_value_of(prose, model, object),
        Expected::Return => prose.put("a return: a number, done, yes or no"),
        Expected::And => prose.put("`and`, or the end"),
    }
}

/// Describes the fault of a condition's text.
pub(crate) fn explain_condition<A: Handle>(
    alloc: A,
    model: &Model<A>,
    text: &str,
    fault: ConditionFault,
) -> Result<Report<A>, AllocError>
    ensures { IfOk result (λ report. report.is_refused ≡ true) }
{
    let words = words_of(alloc, text.as_bytes())?;
    let prose = Prose::new(alloc).put("condition: ");
    let prose = match words.get(fault.word) {
        Some(word) => put!(prose; "`", name_text(word), "`"),
        None => prose.put("at the end"),
    };
    let prose = put_expected(prose.put(": expected "), model, fault.expected);
    Ok(Report {
        text: prose.put("\n").done()?.into_bytes(),
        is_refused: true,
    })
}
