//! The lines at which two models answer differently, in words.

ghost use Rattle.std.specs.Prelude.{[], IfOk};
ghost use Rattle.acta_io.specs.inside.Reports.{output_of};
ghost use Rattle.acta_compare.specs.Answers.{IsOfAnswers, IsOfDifferences};

use crate::differences::{Comparison, Difference};
use crate::owed::owed_only;
use crate::reported::Reported;
use crate::seen::Seen;
use crate::side::Side;
use acta_io::{NonBlankLine, Report, non_blank_lines};
use acta_machine::Handle;
use acta_programs::begun;
use acta_prose::{Prose, first_listed, put, put_more, put_words};
use acta_script::LineFault;
use std::alloc::AllocError;
use std::fmt;

// The fault of the first line, if the model can't read any of the lines.
fn unread_by(seen: &[Seen]) -> Option<LineFault> {
    for one in seen {
        if !matches!(one, Seen::Unread(_)) {
            return None;
        }
    }
    match seen.first() {
        Some(Seen::Unread(fault)) => Some(*fault),
        _ => None,
    }
}

// The words that no answer to so many lines differs.
#[derive(Clone, Copy)]
struct Same(usize);

impl fmt::Display for Same {
    ghost use Rattle.std.specs.Prelude.{Some};
    ghost use Rattle.acta_compare.specs.Answers.{same_words};

    ghost output = { λ count. Some (same_words count.0) };

    fn fmt<W: fmt::Write>(&self, f: &mut fmt::Formatter<W>) -> fmt::Result {
        match self.0 {
            0 => f.write_str("the input has no lines"),
            1 => f.write_str("the answers to the line are the same"),
            count => write!(f, "the answers to all {count} lines are the same"),
        }
    }
}

// The text that the answers to the lines are the same, or that neither model can read any of them, and what follows.
fn same_text<A: Handle>(
    alloc: A,
    comparison: &Comparison<A>,
    lines: &[NonBlankLine<'_>],
    owed: &str,
) -> Result<Vec<u8, A>, AllocError>
    ensures { IfOk result (λ text. IsOfDifferences comparison.now.lines [] text.items) }
{
    let unread = unread_by(comparison.one.seen.as_slice());
    if let (Some(fault), Some(line)) = (unread, lines.first()) {
        let prose = put!(Prose::new(alloc); line.line, ": ", fault.name());
        let rest = put!(prose; "; programs need --explore\n", owed).done()?;
        let head = Vec::from_slice(alloc, b"neither model can read line ")?;
        return begun(head, rest.as_str());
    }
    let rest = put!(Prose::new(alloc); "\n", owed).done()?;
    let head = format!(in alloc; "{}", Same(comparison.lines))?.into_bytes();
    begun(head, rest.as_str())
}

// Adds the first line at which the answers differ, and both answers. The runs have reached that line.
fn put_first<A: Handle>(
    prose: Prose<A>,
    alloc: A,
    one: &Reported<'_, A>,
    other: &Reported<'_, A>,
    line: NonBlankLine<'_>,
) -> Prose<A> {
    let prose = put_words(prose.put(": "), alloc, line.bytes).put("\n");
    let prose = one.put_answer(prose, alloc, line);
    other.put_answer(prose, alloc, line)
}

// Adds the later lines at which the answers differ.
fn put_later<A: Handle>(prose: Prose<A>, later: &[Difference]) -> Prose<A> {
    let mut prose = match later.len() {
        0 => return prose.put("no other line differs\n"),
        1 => prose.put("1 more line differs: "),
        count => put!(prose; count, " more lines differ: "),
    };
    let mut is_first = true;
    for difference in first_listed(later) {
        prose = put!(prose; if is_first { "" } else { ", " }, difference.line);
        is_first = false;
    }
    put_more(prose, " and ", later.len()).put("\n")
}

// The place of the line with this number; the number of lines if there is none.
fn place_of(number: usize, lines: &[NonBlankLine<'_>]) -> usize {
    for (place, line) in lines.iter().enumerate() {
        if line.line == number {
            return place;
        }
    }
    lines.len()
}

// The lines at which the answers differ, after the number of the first. Advances the runs to that line.
fn differences_text<A: Handle>(
    alloc: A,
    one: &mut Reported<'_, A>,
    other: &mut Reported<'_, A>,
    differences: &[Difference],
    lines: &[NonBlankLine<'_>],
    at: usize,
) -> Result<Prose<A>, AllocError> {
    let before = lines.get(..at).unwrap_or(&[]);
    one.take_lines(alloc, before)?;
    other.take_lines(alloc, before)?;
    let prose = match lines.get(at) {
        Some(line) => put_first(Prose::new(alloc), alloc, one, other, *line),
        None => Prose::new(alloc),
    };
    Ok(put_later(prose, differences.get(1..).unwrap_or(&[])))
}

// The debts after the last line under only one of the models. Advances the runs from the line at this place to the end.
fn owed_text<A: Handle>(
    alloc: A,
    one: &mut Reported<'_, A>,
    other: &mut Reported<'_, A>,
    comparison: &Comparison<A>,
    lines: &[NonBlankLine<'_>],
    at: usize,
) -> Result<Prose<A>, AllocError> {
    let owed = owed_only(alloc, &comparison.one.machine, &comparison.other.machine)?;
    let others = owed_only(alloc, &comparison.other.machine, &comparison.one.machine)?;
    let prose = Prose::new(alloc);
    if owed.is_empty() && others.is_empty() {
        return Ok(prose);
    }
    let left = lines.get(at..).unwrap_or(&[]);
    one.take_lines(alloc, left)?;
    other.take_lines(alloc, left)?;
    let prose = one.put_owed(prose, owed.as_slice());
    Ok(other.put_owed(prose, others.as_slice()))
}

// Where two models differ on the lines.
fn comparison_text<A: Handle>(
    alloc: A,
    one: &mut Reported<'_, A>,
    other: &mut Reported<'_, A>,
    comparison: &Comparison<A>,
    lines: &[NonBlankLine<'_>],
) -> Result<Vec<u8, A>, AllocError>
    ensures { IfOk result (λ text. IsOfDifferences comparison.now.lines comparison.now.differences.items text.items) }
{
    let differences = comparison.differences.as_slice();
    let Some(first) = differences.first() else {
        let owed = owed_text(alloc, one, other, comparison, lines, 0)?.done()?;
        return same_text(alloc, comparison, lines, owed.as_str());
    };
    let at = place_of(first.line, lines);
    let prose = differences_text(alloc, one, other, differences, lines, at)?;
    let rest = match owed_text(alloc, one, other, comparison, lines, at) {
        Ok(owed) => prose.add(owed).done()?,
        Err(e) => {
            drop(prose);
            return Err(e);
        }
    };
    let head = format!(in alloc; "the answers differ first at line {}", first.line)?.into_bytes();
    begun(head, rest.as_str())
}

// The text for a comparison of the two models on the lines of the input.
fn text_on<A: Handle>(
    alloc: A,
    one: &Side<'_, A>,
    other: &Side<'_, A>,
    comparison: &Comparison<A>,
    input: &[u8],
) -> Result<Vec<u8, A>, AllocError>
    ensures { IfOk result (λ text. IsOfDifferences comparison.now.lines comparison.now.differences.items text.items) }
{
    let lines = non_blank_lines(alloc, input)?;
    let mut first = Reported::new(alloc, one)?;
    let mut second = Reported::new(alloc, other)?;
    comparison_text(alloc, &mut first, &mut second, comparison, lines.as_slice())
}

/// Where two models differ on the event lines of the input, in words.
pub(crate) fn explain_answers<A: Handle>(
    alloc: A,
    one: &Side<'_, A>,
    other: &Side<'_, A>,
    input: &[u8],
) -> Result<Report<A>, AllocError>
    ensures { IfOk result (λ report. IsOfAnswers one.now.model.now other.now.model.now input.now (output_of report)) }
{
    let comparison = Comparison::of(alloc, one.model, other.model, input)?;
    Ok(Report {
        text: text_on(alloc, one, other, &comparison, input)?,
        is_refused: false,
    })
}
