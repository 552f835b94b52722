//! What is written for the bytes of a model and of an input.

ghost use Rattle.std.specs.Prelude.{◌≡◌, ◌≤◌, ◌+◌, true, false, is_some, IfOk, IfSome};
ghost use Rattle.acta_script.specs.Reading.{event_of};
ghost use Rattle.acta_io.specs.Outcome.{FailsBy, IsUnreadTooLong, KeepsUnread, WritesBy, reason_of};
ghost use Rattle.acta_io.specs.Models.{of_either};
ghost use Rattle.acta_io.specs.Refusals.{EndsAs, refuses_events};
ghost use Rattle.acta_io.specs.Input.{parsed_in};

use crate::args::{Drawing, Form};
use crate::choice::View;
use crate::graph_svg::draw_graph_svg;
use crate::graph_text::draw_graph_text;
use crate::lanes::Lanes;
use crate::screen::Screen;
use crate::svg::{draw_svg, draw_words};
use crate::text::draw_text;
use acta_io::{
    EventLines, ModelError, NoModel, Outcome, ReadFault, Report, Sink, Source, read_lines,
    read_model, read_within, refuse_line, refuse_model, write_report,
};
use acta_machine::Handle;
use acta_prose::name_text;
use acta_table::Model;
use std::alloc::AllocError;

// The picture of the lanes, and after it the line that is faulty, if one is.
fn picture<A: Handle>(
    alloc: A,
    lanes: &Lanes<A>,
    drawing: &Drawing,
    screen: Screen,
) -> Result<String<A>, AllocError> {
    let stop = match lanes.stop {
        Some(stop) => refuse_line(alloc, stop)?.text,
        None => Vec::new(alloc),
    };
    let stop = name_text(stop.as_slice());
    let is_graph = matches!(drawing.choice.view, View::Waits { .. });
    match drawing.form {
        Form::Svg if is_graph => draw_graph_svg(lanes, stop),
        Form::Svg => draw_svg(lanes, &drawing.choice, stop),
        Form::Text { width } => {
            let screen = Screen {
                width: width.unwrap_or(screen.width),
                ..screen
            };
            if is_graph {
                draw_graph_text(lanes, screen, stop)
            } else {
                draw_text(lanes, &drawing.choice, screen, stop)
            }
        }
    }
}

// What is drawn for bytes that mean no model.
fn no_model<A: Handle>(alloc: A, drawing: &Drawing, fault: NoModel) -> Result<Report<A>, AllocError>
    ensures { IfOk result (λ report. report.is_refused ≡ true) }
{
    let report = refuse_model(alloc, fault)?;
    match drawing.form {
        Form::Text { .. } => Ok(report),
        Form::Svg => {
            let words = name_text(report.text.as_slice());
            Ok(Report {
                text: draw_words(alloc, words)?.into_bytes(),
                is_refused: true,
            })
        }
    }
}

/// What is drawn of a run of the event lines of the input, which is refused if a line is faulty.
pub fn draw_run<A: Handle>(
    alloc: A,
    drawing: &Drawing,
    screen: Screen,
    model: Model<A>,
    input: &[u8],
) -> Result<Report<A>, AllocError>
    ensures { IfOk result (λ report. report.is_refused ≡ is_some (parsed_in (event_of model) input.now).stop) }
{
    let reader = EventLines {
        alloc,
        model: &model,
    };
    let read = read_lines(alloc, &reader, input)?;
    let is_refused = read.stop.is_some();
    let lanes = Lanes::of(alloc, model, read, drawing.choice.last_place())?;
    let text = picture(alloc, &lanes, drawing, screen);
    drop(lanes);
    Ok(Report {
        text: text?.into_bytes(),
        is_refused,
    })
}

/// What is drawn for the bytes of a model and of an input, which is refused if the model or a line is
/// faulty, as `run` refuses it.
pub fn draw<A: Handle>(
    alloc: A,
    drawing: &Drawing,
    screen: Screen,
    model: &[u8],
    input: &[u8],
) -> Result<Report<A>, AllocError>
    ensures { IfOk result (λ report. report.is_refused ≡ refuses_events {A = A} (of_either model.now) input.now) }
{
    match read_model(alloc, model) {
        Ok(model) => draw_run(alloc, drawing, screen, model, input),
        Err(ModelError::Fault(fault)) => no_model(alloc, drawing, fault),
        Err(ModelError::Memory) => Err(AllocError),
    }
}

/// Reads the whole input, and writes in one go what is drawn of it on the model of these bytes. The outcome is `Unread` or
/// `Unwritten` as for the other commands: where the input can't be read, nothing is written.
pub fn draw_tool<A: Handle, S: Source, W: Sink>(
    alloc: A,
    drawing: &Drawing,
    screen: Screen,
    model: &[u8],
    input: &mut S,
    output: &mut W,
) -> Outcome
    ensures status { IfSome (S.remaining input.old) (λ bytes. EndsAs result (refuses_events {A = A} (of_either model.now) bytes)) }
    ensures unread { KeepsUnread result (W.contents output.old) (W.contents output.new) }
    ensures written { WritesBy result (W.has_failed output.old) (W.has_failed output.new) }
    ensures reads { S.reads input.new ≤ S.reads input.old + 16777217 }
    ensures failed { FailsBy (reason_of result) (S.has_failed input.old) (S.has_failed input.new) }
    ensures too_long { IsUnreadTooLong model.now (S.remaining input.old) (reason_of result) }
{
    let bytes = match read_within(alloc, model, input) {
        Ok(bytes) => bytes,
        Err(reason) => return Outcome::Unread(reason),
    };
    match draw(alloc, drawing, screen, model, bytes.as_slice()) {
        Ok(report) => write_report(&report, output),
        Err(_) => Outcome::Unread(ReadFault::Memory),
    }
}
