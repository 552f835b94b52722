//! The report for the bytes of a model and of programs.

ghost use Rattle.std.specs.Prelude.{◌≡◌, ◌≤◌, ◌+◌, map, is_some, IfErr, IfOk, IfSome};
ghost use Rattle.acta_explore.specs.Outcomes.{outcome};
ghost use Rattle.acta_io.specs.Outcome.{AnswersBy, FailsBy, IsUnreadTooLong, KeepsUnread, WritesBy, reason_of};
ghost use Rattle.acta_io.specs.Input.{line_numbers};
ghost use Rattle.acta_io.specs.inside.Reports.{output_of};
ghost use Rattle.acta_programs.specs.Answers.{IsAnswer, IsAnswerOn, IsInWords, IsOfEnds, IsOfPrograms, IsSearched, MayMean, TellsIncomplete, kept_count};
ghost use Rattle.acta_programs.specs.inside.Conditions.{MayFail};

use crate::answers::{write_events, write_incomplete, write_lines};
use crate::args::{Asked, Form};
use crate::conditions::explain_condition;
use crate::ends::{explain_ends, explain_incomplete};
use crate::programs::Programs;
use acta_ends::{Condition, ConditionError, read_condition};
use acta_explore::{ExploreError, Explored, Plan, Watch, explore};
use acta_io::{
    MOST_SEATS, ModelError, NonBlankLine, Outcome, ProgramLines, ReadFault, Report, Sink, Source,
    numbers_of_lines, read_lines, read_model, read_within, refuse_line, refuse_model, write_report,
};
use acta_machine::Handle;
use acta_script::ProgramLine;
use acta_table::Model;
use std::alloc::AllocError;

// The ends in words.
fn explain_explored<A: Handle>(
    alloc: A,
    model: &Model<A>,
    texts: &[NonBlankLine<'_>],
    lines: &[ProgramLine<A>],
    numbers: &[usize],
    condition: &Condition<A>,
    explored: &Explored<A>,
) -> Result<Report<A>, AllocError>
    requires { explored.now.outcomes ≡ map (outcome lines.now) explored.now.ends }
    ensures { IfOk result (λ report. IsInWords (kept_count lines.now condition.now explored.now.ends) (output_of report)) }
{
    let plan = Plan::of(alloc, lines)?;
    let programs = Programs {
        alloc,
        model,
        lines,
        numbers,
        texts,
        plan: &plan,
    };
    explain_ends(&programs, condition, explored)
}

// The report on all ends.
fn write_ends<A: Handle>(
    alloc: A,
    form: Form,
    model: &Model<A>,
    texts: &[NonBlankLine<'_>],
    lines: &[ProgramLine<A>],
    numbers: &[usize],
    condition: &Condition<A>,
    explored: &Explored<A>,
) -> Result<Report<A>, AllocError>
    requires { explored.now.outcomes ≡ map (outcome lines.now) explored.now.ends }
    ensures { IfOk result (λ report. IsOfEnds form model.now lines.now numbers.now condition.now explored.now.ends (output_of report)) }
{
    match form {
        Form::Words => {
            explain_explored(alloc, model, texts, lines, numbers, condition, explored)
        },
        Form::Lines => write_lines(alloc, model, lines, numbers, condition, explored),
        Form::Events(number) => write_events(alloc, explored, number),
    }
}

// The report if the search was given up after this many points and ends.
fn write_given_up<A: Handle>(
    alloc: A,
    form: Form,
    most: u32,
    points: u64,
    ends: usize,
) -> Result<Report<A>, AllocError>
    ensures { IfOk result (λ report. TellsIncomplete form most points ends (output_of report)) }
{
    match form {
        Form::Words => explain_incomplete(alloc, most, points, ends),
        Form::Lines | Form::Events(_) => write_incomplete(alloc, points, ends),
    }
}

// The report on programs.
fn search<A: Handle, W: Watch>(
    alloc: A,
    form: Form,
    most: u32,
    model: &Model<A>,
    texts: &[NonBlankLine<'_>],
    lines: &[ProgramLine<A>],
    numbers: &[usize],
    condition: &Condition<A>,
    watch: &mut W,
) -> Result<Report<A>, AllocError>
    ensures { IfOk result (λ report. IsSearched form most model.now lines.now numbers.now condition.now (output_of report)) }
{
    let found = explore(alloc, model, lines, most, watch);
    watch.end();
    match found {
        Ok(explored) => {
            let report = write_ends(
                alloc, form, model, texts, lines, numbers, condition, &explored,
            );
            drop(explored);
            report
        }
        Err(ExploreError::TooMany { points, ends }) => {
            write_given_up(alloc, form, most, points, ends)
        }
        Err(ExploreError::Memory) => Err(AllocError),
    }
}

// The condition of a command line; without one, a condition that holds for each end.
fn condition_asked<A: Handle>(
    alloc: A,
    model: &Model<A>,
    lines: &[ProgramLine<A>],
    numbers: &[usize],
    text: Option<&str>,
) -> Result<Condition<A>, ConditionError>
    ensures ok { IfOk result (MayMean (is_some text.entry)) }
    ensures err { IfErr result (MayFail (is_some text.entry)) }
{
    match text {
        Some(text) => read_condition(alloc, model, lines, numbers, text.as_bytes()),
        None => Ok(Condition {
            terms: Vec::new(alloc),
        }),
    }
}

// The report on programs without a faulty line.
fn explore_lines<A: Handle, W: Watch>(
    alloc: A,
    asked: Asked<'_>,
    model: &Model<A>,
    input: &[u8],
    texts: &[NonBlankLine<'_>],
    lines: &[ProgramLine<A>],
    watch: &mut W,
) -> Result<Report<A>, AllocError>
    ensures { IfOk result (λ report. IsOfPrograms asked.entry.form (is_some asked.entry.condition) asked.entry.most model.now lines.now (line_numbers input.now) (output_of report)) }
{
    let numbers = numbers_of_lines(alloc, input)?;
    let condition = match condition_asked(
        alloc,
        model,
        lines,
        numbers.as_slice(),
        asked.condition,
    ) {
        Ok(condition) => condition,
        Err(ConditionError::Fault(fault)) => {
            return explain_condition(alloc, model, asked.condition.unwrap_or(""), fault);
        }
        Err(ConditionError::Memory) => return Err(AllocError),
    };
    search(
        alloc,
        asked.form,
        asked.most,
        model,
        texts,
        lines,
        numbers.as_slice(),
        &condition,
        watch,
    )
}

// The report on a model.
fn explore_on<A: Handle, W: Watch>(
    alloc: A,
    asked: Asked<'_>,
    model: &Model<A>,
    input: &[u8],
    watch: &mut W,
) -> Result<Report<A>, AllocError>
    ensures { IfOk result (λ report. IsAnswerOn asked.entry.form (is_some asked.entry.condition) asked.entry.most model.now input.now (output_of report)) }
{
    let reader = ProgramLines {
        alloc,
        model,
        seats: MOST_SEATS,
    };
    let read = read_lines(alloc, &reader, input)?;
    match read.stop {
        Some(stop) => refuse_line(alloc, stop),
        None => explore_lines(
            alloc,
            asked,
            model,
            input,
            read.lines.as_slice(),
            read.parsed.as_slice(),
            watch,
        ),
    }
}

/// The report for the bytes of a model and of programs. The condition of the command line is read on the model and the
/// programs. A faulty condition refuses the input, and so does a search that finds more points than allowed.
pub fn explored<A: Handle, W: Watch>(
    alloc: A,
    asked: Asked<'_>,
    model: &[u8],
    input: &[u8],
    watch: &mut W,
) -> Result<Report<A>, AllocError>
    ensures { IfOk result (λ report. IsAnswer A asked.entry.form (is_some asked.entry.condition) asked.entry.most model.now input.now (output_of report)) }
{
    match read_model(alloc, model) {
        Ok(model) => explore_on(alloc, asked, &model, input, watch),
        Err(ModelError::Fault(fault)) => refuse_model(alloc, fault),
        Err(ModelError::Memory) => Err(AllocError),
    }
}

/// Reads the whole input, and writes at once how its programs can end on the model of these bytes. Returns `Unread` and
/// `Unwritten` as the other commands do: if the input can't be read, nothing is written.
pub fn explore_tool<A: Handle, W: Watch, S: Source, K: Sink>(
    alloc: A,
    asked: Asked<'_>,
    model: &[u8],
    input: &mut S,
    output: &mut K,
    watch: &mut W,
) -> Outcome
    ensures answers { IfSome (S.remaining input.old) (λ bytes. AnswersBy result (IsAnswer A asked.entry.form (is_some asked.entry.condition) asked.entry.most model.now bytes) (K.contents output.old) (K.contents output.new)) }
    ensures unread { KeepsUnread result (K.contents output.old) (K.contents output.new) }
    ensures written { WritesBy result (K.has_failed output.old) (K.has_failed output.new) }
    ensures reads { S.reads input.new ≤ S.reads input.old + 16777217 }
    ensures failed { FailsBy (reason_of result) (S.has_failed input.old) (S.has_failed input.new) }
    ensures too_long { IsUnreadTooLong model.now (S.remaining input.old) (reason_of result) }
{
    let bytes = match read_within(alloc, model, input) {
        Ok(bytes) => bytes,
        Err(reason) => return Outcome::Unread(reason),
    };
    match explored(alloc, asked, model, bytes.as_slice(), watch) {
        Ok(report) => write_report(&report, output),
        Err(_) => Outcome::Unread(ReadFault::Memory),
    }
}
