//! The words of replies to events, to questions and to faulty lines.

use crate::notes::Notes;
use crate::remarks::remark_of;
use acta_hope::why_and_hope;
use acta_io::MOST_SEATS;
use acta_machine::{Handle, Machine};
use acta_objects::{Members, ObjectState};
use acta_prose::{LineForm, Prose, Refused, Stop, fault_text, name_text, put, put_formed};
use acta_script::{
    CAN_WORD, Diagnostic, LineFault, WordPlace, diagnose_seated, object_name, push_elements,
};
use acta_session::{Before, Remark};
use acta_table::{Answer, Event, Model, ObjId, Op, OpNo, Ret};
use acta_trace::Step;
use acta_words::word_span;
use std::alloc::AllocError;

// The elements of a set after a space, as lines write them.
fn elements_text<A: Handle>(alloc: A, members: &Members<A>) -> Result<Vec<u8, A>, AllocError> {
    let mut text = Vec::new(alloc);
    let elements = members.listed(alloc)?;
    push_elements(&mut text, elements.as_slice())?;
    Ok(text)
}

// Adds the name of the object, and its value.
fn put_value<A: Handle>(
    prose: Prose<A>,
    alloc: A,
    machine: &Machine<A>,
    object: ObjId,
) -> Prose<A> {
    let prose = put!(prose; name_text(object_name(machine.model(), object)), " =");
    match machine.value(object) {
        Ok(Some(ObjectState::Register(value))) => put!(prose; " ", value),
        Ok(Some(ObjectState::Counter(value))) => put!(prose; " ", value),
        Ok(Some(ObjectState::Elements(members))) => match elements_text(alloc, &members) {
            Ok(text) => prose.put(name_text(text.as_slice())),
            Err(_) => prose.fail(),
        },
        Ok(None) => prose,
        Err(_) => prose.fail(),
    }
}

// Values of sets are shown only in histories of at most this many operations, since no set has more elements then.
const MOST_FOR_SETS: usize = 1_000;

// Whether the value is shown after an operation with this return, the last of `operations`: whether it has changed.
fn shows_value(op: Op, ret: Ret, operations: usize) -> bool {
    match op {
        Op::Write(_) | Op::Add(_) => true,
        Op::Insert(_) | Op::Remove(_) => ret == Ret::Flag(true) && operations <= MOST_FOR_SETS,
        Op::Read | Op::Get | Op::Has(_) | Op::Size => false,
    }
}

// Adds the operation and the edges that an event added, and the value that it changed.
fn put_change<A: Handle>(
    prose: Prose<A>,
    alloc: A,
    machine: &Machine<A>,
    step: &Step<A>,
) -> Prose<A> {
    let prose = put_formed(prose, machine.edges(), step);
    let Event::Operate(_, object, op) = &step.event else {
        return prose;
    };
    let Answer::Admitted { ret: Some(ret), .. } = step.answer else {
        return prose;
    };
    if shows_value(*op, ret, machine.operations().len()) {
        put_value(prose.put("; "), alloc, machine, *object)
    } else {
        prose
    }
}

// The step of an admitted event.
fn step_of<A: Handle>(
    machine: &Machine<A>,
    before: Before,
    event: Event<A>,
    answer: Answer,
) -> Step<A> {
    let operations = machine.operations().len();
    Step {
        line: machine.history().len(),
        event,
        answer,
        op: if before.operations < operations {
            Some(OpNo(operations as u32))
        } else {
            None
        },
        edges_before: before.edges,
        edges_after: machine.edges().len(),
    }
}

/// The words beside the answer to an admitted event. Notes the event with its text.
pub(crate) fn admitted_text<A: Handle>(
    notes: &mut Notes<A>,
    machine: &Machine<A>,
    before: Before,
    event: Event<A>,
    answer: Answer,
    text: String<A>,
) -> Result<Remark<Vec<u8, A>>, AllocError> {
    let alloc = notes.allocator();
    let step = step_of(machine, before, event, answer);
    let change = put_change(Prose::new(alloc), alloc, machine, &step);
    notes.admit(step, text)?;
    remark_of(change, Prose::new(alloc))
}

// Why the machine refuses an event, in lines; empty if it would admit it.
fn reason_text<'a, A: Handle>(
    notes: &'a mut Notes<A>,
    machine: &'a Machine<A>,
    event: &'a Event<A>,
) -> Result<String<A>, AllocError> {
    let may_look = notes.may_look(machine.edges().len());
    let refused = Refused {
        machine,
        lines: notes.lines(machine),
        event,
    };
    let prose = Prose::new(notes.allocator());
    match why_and_hope(machine, event)? {
        Some((reason, hope)) => refused.put_reason(prose, may_look, &reason, hope).done(),
        None => prose.done(),
    }
}

/// The words below the answer to a refused event. Notes the event with its text and the reason.
pub(crate) fn refused_text<A: Handle>(
    notes: &mut Notes<A>,
    machine: &Machine<A>,
    event: &Event<A>,
    text: String<A>,
) -> Result<Remark<Vec<u8, A>>, AllocError> {
    let reason = reason_text(notes, machine, event)?;
    let below = Prose::new(notes.allocator()).put(reason.as_str());
    notes.refuse(text, reason)?;
    remark_of(Prose::new(notes.allocator()), below)
}

/// The words below the answer that the machine would give to an event.
pub(crate) fn question_text<A: Handle>(
    notes: &mut Notes<A>,
    machine: &Machine<A>,
    event: &Event<A>,
) -> Result<Remark<Vec<u8, A>>, AllocError> {
    let reason = reason_text(notes, machine, event)?;
    let alloc = notes.allocator();
    remark_of(Prose::new(alloc), Prose::new(alloc).put(reason.as_str()))
}

// The form that the line should have: an event after the word `can`, otherwise any line of a session.
fn form_of(line: &[u8], found: Diagnostic) -> LineForm {
    let first = match word_span(line, 0) {
        Some(span) => line.get(span.from..span.to),
        None => None,
    };
    match found.place {
        WordPlace::Wrong(_) if first == Some(CAN_WORD.as_bytes()) => LineForm::Event,
        _ => LineForm::Shell,
    }
}

// The description of a faulty line after the name of its fault, and below it what is expected.
fn worded<A: Handle>(
    alloc: A,
    fault: LineFault,
    first: &str,
    below: &str,
) -> Result<Remark<Vec<u8, A>>, AllocError> {
    let first = first.strip_prefix(fault.name()).unwrap_or(first);
    let first = first.strip_prefix(", ").unwrap_or(first);
    remark_of(
        put!(Prose::new(alloc); first, " (nothing was done)"),
        Prose::new(alloc).put(below),
    )
}

// The description of a faulty line, with the place of the fault.
fn wrong_remark<A: Handle>(
    alloc: A,
    model: &Model<A>,
    stop: &Stop<'_>,
    found: Diagnostic,
) -> Result<Remark<Vec<u8, A>>, AllocError> {
    let text = fault_text(alloc, model, stop, found)?;
    match text.as_str().split_once('\n') {
        Some((first, below)) => worded(alloc, stop.fault, first, below),
        None => worded(alloc, stop.fault, text.as_str(), ""),
    }
}

/// The remark on a faulty line.
pub(crate) fn fault_remark<A: Handle>(
    alloc: A,
    model: &Model<A>,
    line: &[u8],
    found: Diagnostic,
) -> Result<Remark<Vec<u8, A>>, AllocError> {
    let stop = Stop {
        line: 1,
        bytes: line,
        fault: found.fault,
        form: form_of(line, found),
    };
    wrong_remark(alloc, model, &stop, found)
}

// The remark on a faulty line of programs with several alternatives, or without a known wrong word.
fn plain_remark<A: Handle>(alloc: A, fault: LineFault) -> Result<Remark<Vec<u8, A>>, AllocError> {
    remark_of(
        Prose::new(alloc).put("in a line of programs (nothing was done)"),
        Prose::new(alloc).put(fault.sentence()),
    )
}

// The remark on a faulty line of programs with a known wrong word.
fn seated_remark<A: Handle>(
    alloc: A,
    model: &Model<A>,
    line: &[u8],
    fault: LineFault,
) -> Result<Remark<Vec<u8, A>>, AllocError> {
    if line.contains(&b'|') {
        return plain_remark(alloc, fault);
    }
    match diagnose_seated(alloc, model, MOST_SEATS, line)? {
        Some(found) if found.fault == fault => {
            let stop = Stop {
                line: 1,
                bytes: line,
                fault,
                form: LineForm::Seated,
            };
            wrong_remark(alloc, model, &stop, found)
        }
        _ => plain_remark(alloc, fault),
    }
}

/// The remark on a faulty line of programs. If the line has several alternatives, the remark names no place.
pub(crate) fn program_fault_remark<A: Handle>(
    alloc: A,
    model: &Model<A>,
    line: &[u8],
    fault: LineFault,
) -> Result<Remark<Vec<u8, A>>, AllocError> {
    let mut remark = seated_remark(alloc, model, line, fault)?;
    remark.below.extend_from_slice(
        b"\na line of programs is SEAT EVENT [| EVENT]..., and an empty line ends them",
    )?;
    Ok(remark)
}
