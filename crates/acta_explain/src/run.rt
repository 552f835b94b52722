//! The run of an input's events, line by line: the answer to each event, what it formed or why it is refused, and at the end
//! the debts.

ghost use Rattle.std.specs.Prelude.{◌≡◌, ◌||◌, IfOk, is_some};
ghost use Rattle.acta_script.specs.Answers.{answer_line};
ghost use Rattle.acta_script.specs.Reading.{event_of, seated_of};
ghost use Rattle.acta_io.specs.Input.{parsed_in};
ghost use Rattle.acta_io.specs.Refusals.{refuses_script_on};
ghost use Rattle.acta_io.specs.declared.input.TheConstants.{MOST_SEATS};

use acta_hope::never_begin;
use acta_io::{
    BadLine, EventLines, Input, MOST_SEATS, NonBlankLine, Report, Script, SeatedLines, read_lines,
    read_script,
};
use acta_machine::Handle;
use acta_prose::{
    Columns, LineForm, MOST_RENDERED, Prose, RunTrace, StepText, Stop, Waits, name_text, put,
    put_barred, put_numbered_edge, put_prospect, put_standing, put_stop,
};
use acta_script::{Seated, answer_line, owed_line};
use acta_table::{Event, Model, Owed};
use acta_trace::Step;
use std::alloc::AllocError;

// Adds a debt, with its edge, the status of the other transaction of that edge, and whether the debt can still be paid.
// `lost` is the result of `never_begin` for the machine.
fn put_owed<A: Handle>(
    prose: Prose<A>,
    run: &RunTrace<A>,
    columns: Columns,
    lost: &[u32],
    owed: &Owed,
) -> Prose<A> {
    let alloc = run.allocator();
    let Ok(line) = owed_line(alloc, owed) else {
        return prose.fail();
    };
    let prose = columns.put_debt(prose, name_text(line.as_slice()));
    let (lines, number) = (run.lines(), owed.edge.0);
    let prose = match lines.edge(number) {
        Some(edge) => {
            let prose = put_numbered_edge(prose.put("by "), number, edge);
            let prose = put!(prose; ": ", edge.i.0, " ");
            put_standing(prose, lines, edge.i, run.machine().status(edge.i))
        }
        None => prose,
    };
    match put_prospect(
        Prose::new(alloc),
        run.machine(),
        run.lines(),
        lost,
        owed.txn,
        owed.missing,
    )
    .done()
    {
        Ok(prospect) => put_barred(prose.put("\n"), columns.indent(), prospect.as_str()),
        Err(_) => prose.fail(),
    }
}

// Adds the debts.
fn put_debts<A: Handle>(mut prose: Prose<A>, run: &RunTrace<A>, columns: Columns) -> Prose<A> {
    let Ok(debts) = run.machine().owed() else {
        return prose.fail();
    };
    if debts.is_empty() {
        return prose;
    }
    let Ok(lost) = never_begin(run.allocator(), run.machine()) else {
        return prose.fail();
    };
    for owed in debts.as_slice() {
        prose = put_owed(prose, run, columns, &lost, owed);
    }
    prose
}

// Adds a deadlock: its transactions, and in lines until when the last event of each is refused.
fn put_deadlock<A: Handle>(
    prose: Prose<A>,
    run: &RunTrace<A>,
    waits: &Waits<A>,
    circle: &[usize],
    indent: usize,
) -> Prose<A> {
    let mut prose = waits.put_circle(prose.pad(indent), circle).put("\n");
    // (the last is the first again)
    for place in circle.iter().take(circle.len().saturating_sub(1)) {
        prose = prose.pad(indent).put("  | ");
        prose = waits.put_wait(prose, run.lines(), *place).put("\n");
    }
    prose
}

// Adds the deadlocks, in indented lines.
fn put_deadlocks<A: Handle>(mut prose: Prose<A>, run: &RunTrace<A>, indent: usize) -> Prose<A> {
    let Ok(waits) = Waits::of(run) else {
        return prose.fail();
    };
    for circle in waits.circles.iter() {
        prose = put_deadlock(prose, run, &waits, circle.as_slice(), indent);
    }
    prose
}

// The answer to the event of a step, as other commands print it.
fn answer_text<A: Handle>(alloc: A, step: &Step<A>) -> Result<Vec<u8, A>, AllocError>
    ensures { IfOk result (λ text. text.items ≡ answer_line step.now.answer) }
{
    answer_line(alloc, &step.answer)
}

// The columns with room for all steps.
fn columns_of<A: Handle>(run: &RunTrace<A>) -> Result<Columns, AllocError> {
    let mut columns = Columns::new();
    for (step, text) in run.steps().iter().zip(run.texts()) {
        let answer = answer_text(run.allocator(), step)?;
        columns = columns.with(step.line, text.event.len(), answer.len());
    }
    Ok(columns)
}

// Adds a step, and why its event is refused, if it is.
fn put_step<A: Handle>(
    prose: Prose<A>,
    run: &RunTrace<A>,
    columns: Columns,
    step: &Step<A>,
    text: &StepText<A>,
) -> Prose<A> {
    let alloc = run.allocator();
    let Ok(answer) = answer_text(alloc, step) else {
        return prose.fail();
    };
    let Ok(formed) = run.put_formed(Prose::new(alloc), step).done() else {
        return prose.fail();
    };
    let answer = name_text(answer.as_slice());
    let prose = columns.put_row(
        prose,
        step.line,
        text.event.as_str(),
        answer,
        formed.as_str(),
    );
    put_barred(prose, columns.indent(), text.reason.as_str())
}

// Adds the whole run. `stop` is the faulty line of the input. After a faulty command the debts are added, since all events
// are before the commands.
fn put_run<A: Handle>(mut prose: Prose<A>, run: &RunTrace<A>, stop: Option<Stop<'_>>) -> Prose<A> {
    let alloc = run.allocator();
    let Ok(columns) = columns_of(run) else {
        return prose.fail();
    };
    for (step, text) in run.steps().iter().zip(run.texts()) {
        prose = put_step(prose, run, columns, step, text);
    }
    let skipped = run.skipped();
    if skipped > 0 {
        prose = put!(prose; "and ", skipped, " more refused events: only the first ", MOST_RENDERED,
            " are explained\n");
    }
    if stop.is_none_or(|stop| stop.form == LineForm::Command) {
        prose = put_debts(prose, run, columns);
        prose = put_deadlocks(prose, run, columns.indent().saturating_sub(2));
    }
    match stop {
        Some(stop) => put_stop(prose, alloc, run.machine().model(), &stop),
        None => prose,
    }
}

// The words of a run of these events, each with its line, up to the faulty one.
fn run_text<A: Handle>(
    alloc: A,
    model: Model<A>,
    events: Vec<Event<A>, A>,
    lines: &[NonBlankLine<'_>],
    stop: Option<Stop<'_>>,
) -> Result<String<A>, AllocError> {
    let mut run = RunTrace::new(alloc, model)?;
    let text = match run.take_up_to(events, lines, None) {
        Ok(()) => put_run(Prose::new(alloc), &run, stop).done(),
        Err(e) => Err(e),
    };
    drop(run);
    text
}

// The report on a run of these events. It refuses the input if that has a faulty line.
fn run_report<A: Handle>(
    alloc: A,
    model: Model<A>,
    events: Vec<Event<A>, A>,
    lines: &[NonBlankLine<'_>],
    stop: Option<Stop<'_>>,
) -> Result<Report<A>, AllocError>
    ensures { IfOk result (λ report. report.is_refused ≡ is_some stop.entry) }
{
    let text = run_text(alloc, model, events, lines, stop)?;
    Ok(Report {
        text: text.into_bytes(),
        is_refused: stop.is_some(),
    })
}

// The faulty line of the input, if there is one, with the form that it should have.
fn stop_at<'a>(input: &'a [u8], bad: Option<BadLine>, form: LineForm) -> Option<Stop<'a>>
    ensures { is_some result ≡ is_some bad }
{
    match bad {
        Some(bad) => Some(Stop::of(input, bad, form)),
        None => None,
    }
}

/// The report on a run of the input's event lines. It refuses the input if a line is faulty.
pub fn explain_run<A: Handle>(
    alloc: A,
    model: Model<A>,
    input: &[u8],
) -> Result<Report<A>, AllocError>
    ensures { IfOk result (λ report. report.is_refused ≡ is_some (parsed_in (event_of model) input.now).stop) }
{
    let reader = EventLines {
        alloc,
        model: &model,
    };
    let Input {
        parsed,
        lines,
        stop,
    } = read_lines(alloc, &reader, input)?;
    run_report(
        alloc,
        model,
        parsed,
        lines.as_slice(),
        stop_at(input, stop, LineForm::Event),
    )
}

// The events of seated events.
fn events_of<A: Handle>(
    alloc: A,
    seated: Vec<Seated<A>, A>,
) -> Result<Vec<Event<A>, A>, AllocError> {
    let mut events = Vec::new(alloc);
    for Seated { event, .. } in seated.into_iter() {
        events.push(event)?;
    }
    Ok(events)
}

/// The report on a run of the events of the input's seated lines, in the order of the lines. It refuses the input if a line
/// is faulty; the seats are numbered from 1 to `MOST_SEATS`.
pub fn explain_seated<A: Handle>(
    alloc: A,
    model: Model<A>,
    input: &[u8],
) -> Result<Report<A>, AllocError>
    ensures { IfOk result (λ report. report.is_refused ≡ is_some (parsed_in (seated_of model MOST_SEATS) input.now).stop) }
{
    let reader = SeatedLines {
        alloc,
        model: &model,
        seats: MOST_SEATS,
    };
    let Input {
        parsed,
        lines,
        stop,
    } = read_lines(alloc, &reader, input)?;
    let events = events_of(alloc, parsed)?;
    run_report(
        alloc,
        model,
        events,
        lines.as_slice(),
        stop_at(input, stop, LineForm::Seated),
    )
}

// The first faulty line of a script: of its events, otherwise of its commands.
fn script_stop<'a>(
    input: &'a [u8],
    events: Option<BadLine>,
    commands: Option<BadLine>,
) -> Option<Stop<'a>>
    ensures { is_some result ≡ (is_some events || is_some commands) }
{
    match events {
        Some(bad) => Some(Stop::of(input, bad, LineForm::Event)),
        None => stop_at(input, commands, LineForm::Command),
    }
}

/// The report on a debug script: a run of its events, and its first faulty line. It refuses the input if a line of the
/// events or a command is faulty; commands are parsed, but not run.
pub fn explain_script<A: Handle>(
    alloc: A,
    model: Model<A>,
    input: &[u8],
) -> Result<Report<A>, AllocError>
    ensures { IfOk result (λ report. report.is_refused ≡ refuses_script_on model input.now) }
{
    let Script { events, commands } = read_script(alloc, &model, input)?;
    let stop = script_stop(input, events.stop, commands.stop);
    run_report(alloc, model, events.parsed, events.lines.as_slice(), stop)
}
