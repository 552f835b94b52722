//! The ways in which programs can end, in words.

ghost use Rattle.std.specs.Prelude.{◌≡◌, true, length, IfOk};
ghost use Rattle.acta_ends.specs.Conditions.{kept_places};
ghost use Rattle.acta_io.specs.inside.Reports.{output_of};
ghost use Rattle.acta_programs.specs.Answers.{IsInWords, incomplete_words};

use crate::programs::Programs;
use crate::texts::begun;
use crate::totals::{Totals, kind_words};
use crate::waiting::{put_deadlocks, put_debts, put_waits};
use acta_ends::{Condition, kept_ends};
use acta_explore::{Done, Explored, Outcome, Point, TxnStatus, Value};
use acta_io::{NonBlankLine, Report};
use acta_machine::Handle;
use acta_prose::{Prose, RunTrace, name_text, put};
use acta_table::{Ret, Status};
use std::alloc::AllocError;
use std::fmt;

// How a transaction ended, in words.
fn status_words(status: Status) -> &'static str {
    match status {
        Status::NotBegun => "not begun",
        Status::InProgress => "in progress",
        Status::Committed => "committed",
        Status::Aborted => "aborted",
        Status::Joined => "joined",
    }
}

// Adds how the transactions ended.
fn put_statuses<A: Handle>(mut prose: Prose<A>, statuses: &[TxnStatus]) -> Prose<A> {
    let mut gap = "  ";
    for one in statuses {
        prose = put!(prose; gap, one.txn.0, " ", status_words(one.status));
        gap = ", ";
    }
    if statuses.is_empty() {
        prose.put("  no transaction has begun")
    } else {
        prose
    }
}

// Adds the elements of a set.
fn put_elements<A: Handle>(mut prose: Prose<A>, elements: &[i32]) -> Prose<A> {
    let mut gap = "{";
    for element in elements {
        prose = put!(prose; gap, *element);
        gap = ",";
    }
    prose.put(if elements.is_empty() { "{}" } else { "}" })
}

// Adds a value.
fn put_value<A: Handle>(prose: Prose<A>, value: &Value<A>) -> Prose<A> {
    match value {
        Value::Register(number) => prose.put(*number),
        Value::Counter(number) => prose.put(*number),
        Value::Elements(elements) => put_elements(prose, elements.as_slice()),
    }
}

// Adds the values of the objects.
fn put_values<A: Handle>(
    mut prose: Prose<A>,
    programs: &Programs<'_, A>,
    values: &[Option<Value<A>>],
) -> Prose<A> {
    let mut is_first = true;
    for (object, value) in programs.model.objects().iter().zip(values) {
        if let Some(value) = value {
            prose = prose.put(if is_first { ";  " } else { ", " });
            prose = put!(prose; name_text(object.name.as_slice()), " = ");
            prose = put_value(prose, value);
            is_first = false;
        }
    }
    prose.put("\n")
}

// Adds the return after an operation, unless it only tells that the operation was done.
fn put_return<A: Handle>(prose: Prose<A>, ret: Option<Ret>) -> Prose<A> {
    match ret {
        Some(Ret::Value(value)) => put!(prose; " = ", value),
        Some(Ret::Flag(true)) => prose.put(" = yes"),
        Some(Ret::Flag(false)) => prose.put(" = no"),
        Some(Ret::Done) | None => prose,
    }
}

// Whether a line that did this is listed: it had a choice, or returned something.
fn is_named(alternatives: usize, done: &Done) -> bool {
    alternatives > 1 || matches!(done.ret, Some(Ret::Value(_) | Ret::Flag(_)))
}

// Adds which alternatives were taken, and the returns of operations, except for the first `past` lines.
fn put_lines<A: Handle>(
    mut prose: Prose<A>,
    programs: &Programs<'_, A>,
    lines: &[Option<Done>],
    past: usize,
) -> Prose<A> {
    let mut is_first = true;
    for (line, done) in lines.iter().enumerate().skip(past) {
        let Some(done) = done else {
            continue;
        };
        if is_named(programs.alternatives(line), done) {
            prose = prose.put(if is_first { "  " } else { ";  " });
            prose = put!(prose; "line ", programs.number(line), ": ");
            prose = programs.put_alternative(prose, line, done.alternative);
            prose = put_return(prose, done.ret);
            is_first = false;
        }
    }
    prose.put(if is_first { "" } else { "\n" })
}

// Takes the events of the order that leads to a point, each with its line.
fn take_all<A: Handle>(
    run: &mut RunTrace<A>,
    programs: &Programs<'_, A>,
    point: &Point<A>,
) -> Result<(), AllocError> {
    for (step, kept) in point.steps().iter().zip(point.machine().history()) {
        let text = Prose::new(programs.alloc);
        let text = programs.put_alternative(text, step.line, step.alternative);
        let text = text.done()?;
        let line = NonBlankLine {
            line: programs.number(step.line),
            bytes: text.as_bytes(),
        };
        run.take(line, kept.event.copy()?)?;
    }
    Ok(())
}

// Adds why seats wait, the deadlocks among them, and the debts.
fn put_open<A: Handle>(
    prose: Prose<A>,
    programs: &Programs<'_, A>,
    outcome: &Outcome<A>,
    point: &Point<A>,
) -> Prose<A> {
    if outcome.waits.is_empty() && outcome.debts.is_empty() {
        return prose;
    }
    let Ok(model) = programs.model.copy() else {
        return prose.fail();
    };
    let Ok(mut run) = RunTrace::new(programs.alloc, model) else {
        return prose.fail();
    };
    if take_all(&mut run, programs, point).is_err() {
        return prose.fail();
    }
    let prose = put_waits(prose, programs, (outcome, point, &run));
    let prose = put_deadlocks(prose, programs, outcome.waits.as_slice(), point);
    put_debts(prose, &run, outcome.debts.as_slice())
}

// Adds the end at this place, from 0, without the first `past` lines and steps, which were done before.
fn put_end_after<A: Handle>(
    prose: Prose<A>,
    programs: &Programs<'_, A>,
    explored: &Explored<A>,
    place: usize,
    past: usize,
) -> Prose<A> {
    let Some(outcome) = explored.outcome(place) else {
        return prose;
    };
    let Some(point) = explored.end(place) else {
        return prose;
    };
    let prose = put!(prose; "\nend ", place.saturating_add(1), "  ", kind_words(outcome), "\n");
    let prose = put_statuses(prose, outcome.statuses.as_slice());
    let prose = put_values(prose, programs, outcome.values.as_slice());
    let prose = put_open(prose, programs, outcome, point);
    let prose = put_lines(prose, programs, outcome.lines.as_slice(), past);
    let steps = point.steps().get(past..).unwrap_or(&[]);
    programs.put_order(prose.put("  order:"), steps).put("\n")
}

/// Adds the end at this place, from 0.
pub fn put_end<A: Handle>(
    prose: Prose<A>,
    programs: &Programs<'_, A>,
    explored: &Explored<A>,
    place: usize,
) -> Prose<A> {
    put_end_after(prose, programs, explored, place, 0)
}

/// Adds the ends at these places, each without the first `past` lines and steps, which were done before.
pub(crate) fn put_ends<A: Handle>(
    mut prose: Prose<A>,
    programs: &Programs<'_, A>,
    explored: &Explored<A>,
    places: &[usize],
    past: usize,
) -> Prose<A> {
    for place in places {
        prose = put_end_after(prose, programs, explored, *place, past);
    }
    prose
}

/// The number of ends, in words: `no end`, `1 end`, `2 ends` and so on.
#[derive(Clone, Copy)]
pub struct EndCount(pub usize);

impl fmt::Display for EndCount {
    ghost use Rattle.std.specs.Prelude.{Some};
    ghost use Rattle.acta_programs.specs.From.{ends_line};

    ghost output = { λ count. Some (ends_line count.0) };

    fn fmt<W: fmt::Write>(&self, f: &mut fmt::Formatter<W>) -> fmt::Result {
        match self.0 {
            0 => f.write_str("no end"),
            1 => f.write_str("1 end"),
            count => write!(f, "{count} ends"),
        }
    }
}

/// Adds the number of ends of each kind at these places, and the number of points searched.
pub(crate) fn put_kinds<A: Handle>(
    prose: Prose<A>,
    explored: &Explored<A>,
    places: &[usize],
) -> Prose<A> {
    let points = explored.points();
    let noun = if points == 1 {
        " point): "
    } else {
        " points): "
    };
    let prose = put!(prose; ", every order tried (", points, noun);
    Totals::of(explored, places).put(prose)
}

// The words after the number of ends for which the condition holds: how many are of each kind, or the condition and how many
// ends there are; and each of these ends.
fn kept_text<A: Handle>(
    programs: &Programs<'_, A>,
    condition: &Condition<A>,
    explored: &Explored<A>,
    places: &[usize],
) -> Result<String<A>, AllocError> {
    let prose = Prose::new(programs.alloc);
    let prose = if condition.terms.is_empty() {
        put_kinds(prose, explored, places)
    } else {
        let prose = programs.put_condition(prose.put(": "), condition);
        put!(prose; " (of ", EndCount(explored.len()), ", every order tried)")
    };
    put_ends(prose.put("\n"), programs, explored, places, 0).done()
}

/// The ends for which the condition holds, in words.
pub(crate) fn explain_ends<A: Handle>(
    programs: &Programs<'_, A>,
    condition: &Condition<A>,
    explored: &Explored<A>,
) -> Result<Report<A>, AllocError>
    ensures { IfOk result (λ report. IsInWords (length (kept_places condition.now explored.now)) (output_of report)) }
{
    let alloc = programs.alloc;
    let places = kept_ends(alloc, explored, condition)?;
    let rest = kept_text(programs, condition, explored, places.as_slice())?;
    let head = format!(in alloc; "{}", EndCount(places.len()))?.into_bytes();
    Ok(Report {
        text: begun(head, rest.as_str())?,
        is_refused: false,
    })
}

/// The words that the search was given up after this many points and ends, of which more than `most` were allowed.
pub fn explain_incomplete<A: Handle>(
    alloc: A,
    most: u32,
    points: u64,
    ends: usize,
) -> Result<Report<A>, AllocError>
    ensures { IfOk result (λ report. output_of report ≡ record { is_refused = true; text = incomplete_words most points ends }) }
{
    let text = format!(in alloc;
        "incomplete: more than {most} points (--most): {points} points and {ends} ends were found. There may be other ends.\n"
    )?;
    Ok(Report {
        text: text.into_bytes(),
        is_refused: true,
    })
}
