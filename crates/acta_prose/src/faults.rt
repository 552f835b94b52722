//! Describes a faulty line of an input: where the fault is, the wrong word, what a good line has there, and the word that
//! was perhaps meant.

use crate::layout::put_barred;
use crate::listing::{put_either, put_joined};
use crate::phrases::name_text;
use crate::prose::Prose;
use crate::put;
use crate::shown::{column_of_missing, put_shown};
use acta_args::nearest;
use acta_io::{BadLine, MOST_SEATS, refuse_line};
use acta_lang::Expected as TextExpected;
use acta_machine::Handle;
use acta_script::{
    BreakKind, CAN_WORD, CommandKind, Diagnostic, EVENT_KINDS, Expected, LineFault, LinePart,
    OpKind, RETURN_WORDS, ShellFault, ShellKind, WordPlace, diagnose_command, diagnose_event,
    diagnose_kept, diagnose_seated, event_form, event_word, read_shell_line,
};
use acta_table::{Dep, Model};
use acta_words::{Lines, read_u16, word_span};
use std::alloc::AllocError;

/// The form that a line should have.
#[derive(Clone, Copy, PartialEq, Eq)]
pub enum LineForm {
    /// An event.
    Event,
    /// A kept item.
    Kept,
    /// A seated event, with a seat from 1 to `MOST_SEATS`.
    Seated,
    /// A command to a debugger.
    Command,
    /// A line of a session: an event, a question, or a command.
    Shell,
}

/// A faulty line, which stops a run.
#[derive(Clone, Copy)]
pub struct Stop<'a> {
    /// Its number, from 1.
    pub line: usize,
    /// Its bytes.
    pub bytes: &'a [u8],
    /// The lowest of its faults.
    pub fault: LineFault,
    /// The form that it should have.
    pub form: LineForm,
}

impl<'a> Stop<'a> {
    /// The faulty line of this input.
    pub fn of(input: &'a [u8], bad: BadLine, form: LineForm) -> Stop<'a> {
        let bytes = Lines::of(input)
            .nth(bad.line.saturating_sub(1))
            .unwrap_or(b"".as_slice());
        Stop {
            line: bad.line,
            bytes,
            fault: bad.fault,
            form,
        }
    }
}

// The words of returns.
fn return_words<'a, A: Handle>(alloc: A) -> Result<Vec<&'a str, A>, AllocError> {
    let mut words = Vec::new(alloc);
    for word in RETURN_WORDS {
        words.push(word)?;
    }
    Ok(words)
}

// The words that are allowed at a place, as far as they can be listed.
fn known_words<'a, A: Handle>(
    alloc: A,
    model: &'a Model<A>,
    form: LineForm,
    expected: Expected,
) -> Result<Vec<&'a str, A>, AllocError> {
    if let Expected::Part(LinePart::Return) = expected {
        return return_words(alloc);
    }
    let mut words = Vec::new(alloc);
    match expected {
        Expected::Part(LinePart::Event) => {
            for kind in EVENT_KINDS {
                words.push(event_word(kind))?;
            }
            if form == LineForm::Shell {
                words.push(CAN_WORD)?;
                for kind in ShellKind::ALL {
                    words.push(kind.word())?;
                }
            }
        }
        Expected::Part(LinePart::Kind) => {
            for kind in Dep::ALL {
                words.push(kind.word())?;
            }
        }
        Expected::Part(LinePart::Operation) => {
            for kind in OpKind::ALL {
                words.push(kind.word())?;
            }
        }
        Expected::Part(LinePart::Command) => {
            for kind in CommandKind::ALL {
                words.push(kind.word())?;
            }
        }
        Expected::Part(LinePart::Break) => {
            for kind in BreakKind::ALL {
                words.push(kind.word())?;
            }
        }
        Expected::Part(LinePart::Class) => {
            for class in model.classes() {
                words.push(name_text(class.name.as_slice()))?;
            }
        }
        Expected::Part(LinePart::Object) => {
            for object in model.objects() {
                words.push(name_text(object.name.as_slice()))?;
            }
        }
        _ => {}
    }
    Ok(words)
}

// The wrong word of the line, or the column in which a word is missing, and the form that the line should have. `is_first`:
// the wrong word is the line's first.
#[derive(Clone, Copy)]
struct WrongWord<'a> {
    form: LineForm,
    is_first: bool,
    column: usize,
    word: Option<&'a [u8]>,
}

// The wrong word of the line at this place. A missing word has the column after the word before it, a missing first word the
// column of the line's first word.
fn wrong_word_at<'a>(stop: &Stop<'a>, place: WordPlace) -> WrongWord<'a> {
    let line = stop.bytes;
    let (column, word) = match place {
        WordPlace::Wrong(place) => match word_span(line, place) {
            Some(span) => (span.from.saturating_add(1), line.get(span.from..span.to)),
            None => (1, None),
        },
        WordPlace::Missing(place) => (column_of_missing(line, place), None),
    };
    WrongWord {
        form: stop.form,
        is_first: matches!(place, WordPlace::Wrong(0)),
        column,
        word,
    }
}

// The advice if a line ends in a carriage return.
const CARRIAGE_RETURN: &str =
    "\nthe line ends in CR LF; here a line ends in LF alone, and the CR belongs to the last word";

/// The advice if a word begins with `//`.
pub const COMMENT: &str = "\na comment begins with `#`";

// The advice if a line of programs or a seated line is among events.
const SEAT: &str = "\na line that begins with a seat belongs to `explore` or `drive`";

// The advice if a line of a model is among events.
const MODEL_LINE: &str = "\nthis is a line of a model; the input has events";

// The advice if a word begins with a byte order mark.
const BYTE_ORDER_MARK: &str =
    "\nthe word begins with a byte order mark (EF BB BF), which some editors put at the start of a file: save it without one";

// Adds what is expected in place of the wrong word; `known` are the words allowed there.
fn put_expected<A: Handle>(
    prose: Prose<A>,
    wrong: WrongWord<'_>,
    expected: Expected,
    known: &[&str],
) -> Prose<A> {
    let prose = prose.put("\nexpected ");
    match expected {
        Expected::Part(part) => put_part(prose, wrong, part, known),
        Expected::EventForm(kind) => put!(prose; "`", event_form(kind), "`"),
        Expected::OperationForm(kind) => put!(prose; "`", kind.form(), "`"),
        Expected::CommandForm(kind) => put!(prose; "`", kind.form(), "`"),
        Expected::BreakForm(kind) => put!(prose; "`", kind.form(), "`"),
        Expected::ShellForm(kind) => put!(prose; "`", kind.form(), "`"),
    }
}

// Adds what a word in this place must be; `known` are the words allowed there.
fn put_part<A: Handle>(
    prose: Prose<A>,
    wrong: WrongWord<'_>,
    part: LinePart,
    known: &[&str],
) -> Prose<A> {
    match part {
        LinePart::Event => put_event(prose, wrong, known),
        LinePart::Transaction => prose.put("the number of a transaction, from 1 to 16,383"),
        LinePart::Integer => prose.put("a whole number from -2147483648 to 2147483647"),
        LinePart::Operations => prose.put(
            "`-` for no operation, or numbers of operations with commas between them, and no space",
        ),
        LinePart::Kind => put_either(prose.put("a kind of dependency: "), known),
        LinePart::Operation => put_either(prose.put("an operation: "), known),
        LinePart::Class => put_names(prose.put("a class of the model"), known),
        LinePart::Object => put_names(prose.put("an object of the model"), known),
        LinePart::Return => {
            let prose = put_joined(prose.put("one word after the `=`: "), known, ", ");
            prose.put(" or a whole number")
        }
        LinePart::Seat(seats) => put!(prose; "the number of a seat, from 1 to ", seats),
        LinePart::Count => prose.put("a count, a number up to 4,294,967,295"),
        LinePart::Command => put_either(prose.put("a command: "), known),
        LinePart::Break => put_either(prose.put("a kind of break: "), known),
    }
}

// Adds the events if the wrong word should be one, and the form of an operation if the word is that of one. A command names
// a kind of event, and no operation.
fn put_event<A: Handle>(prose: Prose<A>, wrong: WrongWord<'_>, known: &[&str]) -> Prose<A> {
    let Some(word) = wrong.word else {
        return prose.put(match wrong.form {
            LineForm::Seated => "an event after the seat",
            LineForm::Shell => "an event after `can`",
            _ => "an event before the `=`",
        });
    };
    let prose = if wrong.form == LineForm::Shell {
        prose.put("an event or a command (`help` lists them)")
    } else {
        put_either(prose.put("an event: "), known)
    };
    match OpKind::of_word(word) {
        Some(kind) if wrong.form != LineForm::Command => {
            put!(prose; "\nan operation is written `", kind.form(), "`")
        }
        _ => prose,
    }
}

// Adds the names that are allowed, if there are any.
fn put_names<A: Handle>(prose: Prose<A>, names: &[&str]) -> Prose<A> {
    if names.is_empty() {
        prose
    } else {
        put!(put_joined(prose.put(": `"), names, "`, `"); "`")
    }
}

// Adds the wrong word and what is expected in its place, in lines; `known` are the words allowed there.
fn put_wrong_word<A: Handle>(
    prose: Prose<A>,
    alloc: A,
    wrong: WrongWord<'_>,
    expected: Expected,
    known: &[&str],
) -> Prose<A> {
    let prose = put!(prose; ", at column ", wrong.column);
    let Some(word) = wrong.word else {
        let prose = prose.put(", where a word is missing");
        return put_expected(prose, wrong, expected, known);
    };
    let prose = put_shown(prose.put(": `"), word).put("`");
    let prose = put_expected(prose, wrong, expected, known);
    if word.last() == Some(&b'\r') {
        prose.put(CARRIAGE_RETURN)
    } else if word.starts_with(b"\xef\xbb\xbf") {
        prose.put(BYTE_ORDER_MARK)
    } else {
        put_advice(prose, alloc, wrong, word, known)
    }
}

// Whether the word is the number of a seat.
fn is_seat(word: &[u8]) -> bool {
    match read_u16(word) {
        Some(seat) => seat > 0 && seat <= u16::from(MOST_SEATS),
        None => false,
    }
}

// Whether a line of a model begins with the word.
fn is_model_word(word: &[u8]) -> bool {
    let mut words = TextExpected::FirstWord.words().iter();
    words.any(|known| known.as_bytes() == word)
}

// The advice on a first word that is not an event, but begins a line of another input.
fn event_advice(word: &[u8]) -> Option<&'static str> {
    if is_seat(word) {
        Some(SEAT)
    } else if is_model_word(word) {
        Some(MODEL_LINE)
    } else {
        None
    }
}

// The advice on a first word that names a command of a session in other programs.
fn shell_advice(word: &[u8]) -> Option<&'static str> {
    if word == b"exit".as_slice() {
        Some("\ndid you mean `quit`?")
    } else if word == b"?".as_slice() {
        Some("\ndid you mean `help`?")
    } else {
        None
    }
}

// The advice on a wrong word that is a known mistake.
fn advice_on(wrong: WrongWord<'_>, word: &[u8]) -> Option<&'static str> {
    if word.starts_with(b"//") {
        return Some(COMMENT);
    }
    match wrong.form {
        LineForm::Event if wrong.is_first => event_advice(word),
        LineForm::Shell if wrong.is_first => shell_advice(word),
        _ => None,
    }
}

// Adds a line with the advice on a known mistake, otherwise with the word that was perhaps meant, if there is one.
fn put_advice<A: Handle>(
    prose: Prose<A>,
    alloc: A,
    wrong: WrongWord<'_>,
    word: &[u8],
    known: &[&str],
) -> Prose<A> {
    match advice_on(wrong, word) {
        Some(advice) => prose.put(advice),
        None => put_hint(prose, alloc, word, known),
    }
}

// Describes the fault of the line.
fn diagnosis_of<A: Handle>(
    alloc: A,
    model: &Model<A>,
    stop: &Stop<'_>,
) -> Result<Option<Diagnostic>, AllocError> {
    match stop.form {
        LineForm::Event => diagnose_event(alloc, model, stop.bytes),
        LineForm::Kept => diagnose_kept(alloc, model, stop.bytes),
        LineForm::Seated => diagnose_seated(alloc, model, MOST_SEATS, stop.bytes),
        LineForm::Command => diagnose_command(alloc, model, stop.bytes),
        LineForm::Shell => match read_shell_line(alloc, model, stop.bytes) {
            Ok(_) => Ok(None),
            Err(ShellFault::Wrong(found)) => Ok(Some(found)),
            Err(ShellFault::Memory) => Err(AllocError),
        },
    }
}

// The name of the line's fault and its description, in lines.
fn stop_text<A: Handle>(
    alloc: A,
    model: &Model<A>,
    stop: &Stop<'_>,
) -> Result<String<A>, AllocError> {
    match diagnosis_of(alloc, model, stop)? {
        Some(found) => fault_text(alloc, model, stop, found),
        None => Prose::new(alloc).put(stop.fault.name()).done(),
    }
}

/// The name of the line's fault and its description, in lines.
pub fn fault_text<A: Handle>(
    alloc: A,
    model: &Model<A>,
    stop: &Stop<'_>,
    found: Diagnostic,
) -> Result<String<A>, AllocError> {
    let name = Prose::new(alloc).put(found.fault.name());
    let wrong = wrong_word_at(stop, found.place);
    let known = known_words(alloc, model, stop.form, found.expected)?;
    put_wrong_word(name, alloc, wrong, found.expected, &known).done()
}

/// Adds the faulty line, as `run` does, and then its description.
pub fn put_stop<A: Handle>(
    prose: Prose<A>,
    alloc: A,
    model: &Model<A>,
    stop: &Stop<'_>,
) -> Prose<A> {
    let bad = BadLine {
        line: stop.line,
        fault: stop.fault,
    };
    match (refuse_line(alloc, bad), stop_text(alloc, model, stop)) {
        (Ok(report), Ok(text)) => {
            put_lines(prose.put(name_text(report.text.as_slice())), text.as_str())
        }
        _ => prose.fail(),
    }
}

/// Adds lines, each after a bar.
pub fn put_lines<A: Handle>(prose: Prose<A>, lines: &str) -> Prose<A> {
    put_barred(prose, 4, lines)
}

/// Adds a line with the known word that was perhaps meant, if there is one.
pub fn put_hint<A: Handle>(prose: Prose<A>, alloc: A, word: &[u8], known: &[&str]) -> Prose<A> {
    match nearest(alloc, word, known) {
        Ok(Some(meant)) => put!(prose; "\ndid you mean `", meant, "`?"),
        Ok(None) => prose,
        Err(_) => prose.fail(),
    }
}
