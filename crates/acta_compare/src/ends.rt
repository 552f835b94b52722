//! The ends of programs on only one of two models, in words.

ghost use Rattle.std.specs.Prelude.{length, IfOk};
ghost use Rattle.std.specs.Io.{StartsWith};
ghost use Rattle.acta_io.specs.inside.Reports.{output_of};
ghost use Rattle.acta_compare.specs.Answers.{IsOfOutcomes, first_words};
ghost use Rattle.acta_compare.specs.OnlyIn.{HasOutcomes};

use crate::only::only_in;
use crate::side::Side;
use acta_explore::{Explored, Plan};
use acta_io::{NonBlankLine, Report, non_blank_lines, numbers_of_lines};
use acta_machine::Handle;
use acta_programs::{EndCount, Programs, begun, put_end};
use acta_prose::{Prose, put, put_model_name};
use acta_script::ProgramLine;
use std::alloc::AllocError;
use std::fmt;

/// The ends of programs on a model.
#[derive(Drop)]
pub(crate) struct Ends<'a, A: Handle> {
    pub(crate) side: &'a Side<'a, A>,
    pub(crate) lines: &'a [ProgramLine<A>],
    pub(crate) explored: &'a Explored<A>,
}

// Adds the name of a model, and its ends at these places.
fn put_only<A: Handle>(
    prose: Prose<A>,
    alloc: A,
    ends: &Ends<'_, A>,
    numbers: &[usize],
    texts: &[NonBlankLine<'_>],
    places: &[usize],
) -> Result<Prose<A>, AllocError> {
    let plan = Plan::of(alloc, ends.lines)?;
    let programs = Programs {
        alloc,
        model: ends.side.model,
        lines: ends.lines,
        numbers,
        texts,
        plan: &plan,
    };
    let prose = put_model_name(prose, ends.side.name);
    let mut prose = put!(prose; " (of ", ends.explored.len(), ", every order tried)\n");
    for place in places {
        prose = put_end(prose, &programs, ends.explored, *place);
    }
    Ok(prose)
}

// The ends at these places, of which the first ones are only on the first model, and the others only on the second. What
// comes before the name of the first model is left out.
fn only_text<A: Handle>(
    alloc: A,
    one: &Ends<'_, A>,
    other: &Ends<'_, A>,
    input: &[u8],
    ours: &[usize],
    theirs: &[usize],
) -> Result<String<A>, AllocError> {
    let numbers = numbers_of_lines(alloc, input)?;
    let texts = non_blank_lines(alloc, input)?;
    let (numbers, texts) = (numbers.as_slice(), texts.as_slice());
    let prose = put_only(Prose::new(alloc), alloc, one, numbers, texts, ours)?;
    let prose = put!(prose; "\n", EndCount(theirs.len()), " only under ");
    put_only(prose, alloc, other, numbers, texts, theirs)?.done()
}

// The first words, by how many ends there are on the first model, only on the first, and only on the second.
#[derive(Clone, Copy)]
struct FirstWords {
    count: usize,
    ours: usize,
    theirs: usize,
}

impl fmt::Display for FirstWords {
    ghost use Rattle.std.specs.Prelude.{Some};
    ghost use Rattle.acta_compare.specs.Answers.{first_words};

    ghost output = { λ these. Some (first_words these.count these.ours these.theirs) };

    fn fmt<W: fmt::Write>(&self, f: &mut fmt::Formatter<W>) -> fmt::Result {
        if self.ours == 0 && self.theirs == 0 {
            write!(f, "{}, the same under both models", EndCount(self.count))
        } else {
            write!(f, "{} only under ", EndCount(self.ours))
        }
    }
}

// The ends on only one of the models, by their places.
fn ends_text<A: Handle>(
    alloc: A,
    one: &Ends<'_, A>,
    other: &Ends<'_, A>,
    input: &[u8],
    ours: &[usize],
    theirs: &[usize],
) -> Result<Vec<u8, A>, AllocError>
    ensures { IfOk result (λ text. StartsWith text.items (first_words (length one.now.explored.now.ends) (length ours.now) (length theirs.now))) }
{
    let first_words = FirstWords {
        count: one.explored.len(),
        ours: ours.len(),
        theirs: theirs.len(),
    };
    let head = format!(in alloc; "{first_words}")?.into_bytes();
    if ours.is_empty() && theirs.is_empty() {
        return begun(head, ", every order tried\n");
    }
    match only_text(alloc, one, other, input, ours, theirs) {
        Ok(rest) => begun(head, rest.as_str()),
        Err(e) => Err(e),
    }
}

/// The ends on only one of the models, in words.
pub(crate) fn explain_only<A: Handle>(
    alloc: A,
    one: &Ends<'_, A>,
    other: &Ends<'_, A>,
    input: &[u8],
) -> Result<Report<A>, AllocError>
    requires one { HasOutcomes one.now.explored.now }
    requires other { HasOutcomes other.now.explored.now }
    ensures { IfOk result (λ report. IsOfOutcomes one.now.explored.now.outcomes other.now.explored.now.outcomes (output_of report)) }
{
    let ours = only_in(alloc, one.explored, other.explored)?;
    let theirs = only_in(alloc, other.explored, one.explored)?;
    let text = ends_text(alloc, one, other, input, ours.as_slice(), theirs.as_slice())?;
    Ok(Report {
        text,
        is_refused: false,
    })
}
