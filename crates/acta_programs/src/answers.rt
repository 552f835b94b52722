//! The ends as lines or as events, for other programs.

ghost use Rattle.std.specs.Prelude.{◌≡◌, ◌++◌, ◌∷◌, [], false, length, map, option_map, IfOk, OnOk};
ghost use Rattle.acta_table.specs.Numbered.{item_at};
ghost use Rattle.acta_words.specs.Text.{text_of};
ghost use Rattle.acta_script.specs.Writing.{event_line};
ghost use Rattle.acta_explore.specs.Outcomes.{outcome};
ghost use Rattle.acta_io.specs.Reports.{refused_by};
ghost use Rattle.acta_io.specs.inside.Reports.{output_of};
ghost use Rattle.acta_programs.specs.Answers.{IsOfEnds, end_events, incomplete_line, kept_event_line, no_end_line, order_events};
ghost use Rattle.acta_programs.specs.declared.args.Form.TheVariants.{Lines as lines_form};

use acta_ends::{Condition, ends_lines};
use acta_explore::{Explored, Point};
use acta_io::{Report, refuse_by};
use acta_machine::{Handle, Machine};
use acta_script::{ProgramLine, write_event};
use acta_table::{Event, Model};
use acta_words::{push_line, push_natural, push_word};
use std::alloc::{AllocError, Allocator};

// The line with how much was found before the search was given up.
fn incomplete_line<A: Allocator>(
    alloc: A,
    points: u64,
    ends: usize,
) -> Result<Vec<u8, A>, AllocError>
    ensures { IfOk result (λ line. line.items ≡ incomplete_line points ends) }
{
    let mut line = Vec::new(alloc);
    line.extend_from_slice(b"incomplete")?;
    push_natural(&mut line, points)?;
    push_natural(&mut line, ends as u64)?;
    Ok(line)
}

/// The report if the search was given up after this many points and ends.
pub(crate) fn write_incomplete<A: Allocator + Copy>(
    alloc: A,
    points: u64,
    ends: usize,
) -> Result<Report<A>, AllocError>
    ensures { IfOk result (λ report. output_of report ≡ refused_by (incomplete_line points ends)) }
{
    let line = incomplete_line(alloc, points, ends)?;
    refuse_by(alloc, line.as_slice())
}

/// The ends as lines.
pub(crate) fn write_lines<A: Handle>(
    alloc: A,
    model: &Model<A>,
    lines: &[ProgramLine<A>],
    numbers: &[usize],
    condition: &Condition<A>,
    explored: &Explored<A>,
) -> Result<Report<A>, AllocError>
    requires { explored.now.outcomes ≡ map (outcome lines.now) explored.now.ends }
    ensures { IfOk result (λ report. IsOfEnds lines_form model.now lines.now numbers.now condition.now explored.now.ends (output_of report)) }
{
    Ok(Report {
        text: ends_lines(alloc, model, lines, numbers, explored, condition)?,
        is_refused: false,
    })
}

// The line of an event.
fn push_event<A: Allocator + Copy>(
    alloc: A,
    text: &mut Vec<u8, A>,
    model: &Model<A>,
    event: &Event<A>,
) -> Result<(), AllocError>
    ensures { OnOk result (text.new.items ≡ text.old.items ++ text_of (event_line model.now event.now ∷ [])) }
{
    let line = write_event(alloc, model, event)?;
    push_line(text, line.as_slice())
}

// The machine's history as event lines.
fn push_events<A: Handle>(
    alloc: A,
    text: &mut Vec<u8, A>,
    machine: &Machine<A>,
) -> Result<(), AllocError>
    ensures { OnOk result (text.new.items ≡ text.old.items ++ text_of (map (kept_event_line machine.now.model) machine.now.kept)) }
{
    for kept in machine.history() {
        push_event(alloc, text, machine.model(), &kept.event)?;
    }
    Ok(())
}

// The events of the order that leads to a point.
fn write_order<A: Handle>(alloc: A, point: &Point<A>) -> Result<Report<A>, AllocError>
    ensures { IfOk result (λ report. output_of report ≡ record { is_refused = false; text = text_of (order_events point.now) }) }
{
    let mut text = Vec::new(alloc);
    push_events(alloc, &mut text, point.machine())?;
    Ok(Report {
        text,
        is_refused: false,
    })
}

// The line that there is no end with this number, only so many ends.
fn no_end_line<A: Allocator>(alloc: A, number: u32, count: usize) -> Result<Vec<u8, A>, AllocError>
    ensures { IfOk result (λ line. line.items ≡ no_end_line number count) }
{
    let mut line = Vec::new(alloc);
    line.extend_from_slice(b"no end")?;
    push_natural(&mut line, u64::from(number))?;
    push_word(&mut line, b"of")?;
    push_natural(&mut line, count as u64)?;
    Ok(line)
}

// The end with this number, from 1.
fn end_numbered<A: Handle>(explored: &Explored<A>, number: u32) -> Option<&Point<A>>
    ensures { option_map (λ point. point.now) result ≡ item_at explored.now.ends number }
{
    if number == 0 {
        return None;
    }
    explored.end(number as usize - 1)
}

/// The events of the first order that leads to the end with this number, from 1.
pub(crate) fn write_events<A: Handle>(
    alloc: A,
    explored: &Explored<A>,
    number: u32,
) -> Result<Report<A>, AllocError>
    ensures { IfOk result (λ report. output_of report ≡ end_events number (length explored.now.ends) (item_at explored.now.ends number)) }
{
    match end_numbered(explored, number) {
        Some(point) => write_order(alloc, point),
        None => {
            let line = no_end_line(alloc, number, explored.len())?;
            refuse_by(alloc, line.as_slice())
        }
    }
}
