//! The command `trace`: the answer to each event, with the event's line and what it formed.

ghost use Rattle.std.specs.Prelude.{◌≡◌, ◌<◌, ◌≤◌, ◌+◌, ◌++◌, ◌∷◌, [], drop, flat_map, get_or, length, IfOk, OnOk};
ghost use Rattle.acta_machine.specs.Table.{after_all, edges_in};
ghost use Rattle.acta_script.specs.Reading.{event_of};
ghost use Rattle.acta_words.specs.Text.{text_of};
ghost use Rattle.acta_tool.specs.Output.{edge_words, formed_line, op_words, trace_lines, trace_on};
ghost use Rattle.acta_io.specs.Input.{line_numbers, parsed_in};
ghost use Rattle.acta_io.specs.inside.Reports.{output_of};

use crate::rendering::render_end;
use acta_io::{EventLines, Report, numbers_of_lines, read_lines};
use acta_machine::{Handle, Machine};
use acta_script::{answer_line, write_event};
use acta_table::{Edge, Event, MOST_EDGES, Model, OpNo};
use acta_trace::{Step, take_step};
use acta_words::{push_line, push_natural, push_word};
use itoa::Buffer;
use std::alloc::{AllocError, Allocator};

// Adds the operation that an event added.
fn render_op<A: Allocator>(text: &mut Vec<u8, A>, op: Option<OpNo>) -> Result<(), AllocError>
    ensures { OnOk result (text.new.items ≡ text.old.items ++ flat_map (λ word. 32 ∷ word) (op_words op)) }
{
    let Some(op) = op else {
        return Ok(());
    };
    push_word(text, b":")?;
    push_word(text, b"op")?;
    push_natural(text, u64::from(op.0))?;
    Ok(())
}

// Adds an edge with its number.
fn render_edge<A: Allocator>(
    text: &mut Vec<u8, A>,
    number: u64,
    edge: &Edge,
) -> Result<(), AllocError>
    ensures { OnOk result (text.new.items ≡ text.old.items ++ flat_map (λ word. 32 ∷ word) (edge_words number (edge.now ∷ []))) }
{
    push_word(text, b":")?;
    push_word(text, b"edge")?;
    push_natural(text, number)?;
    push_word(text, edge.kind.word().as_bytes())?;
    push_natural(text, u64::from(edge.j.0))?;
    push_natural(text, u64::from(edge.i.0))?;
    Ok(())
}

// Adds the new edges, those after the first `before`.
fn render_edges<A: Allocator>(
    text: &mut Vec<u8, A>,
    before: usize,
    edges: &[Edge],
) -> Result<(), AllocError>
    requires { 0 < length edges.now → before + length edges.now ≤ MOST_EDGES }
    ensures { OnOk result (text.new.items ≡ text.old.items ++ flat_map (λ word. 32 ∷ word) (edge_words (before + 1) edges.now)) }
{
    let mut number = before as u64;
    for edge in edges {
        number += 1;
        render_edge(text, number, edge)?;
    }
    Ok(())
}

// The edges after the first `before`.
fn behind(edges: &[Edge], before: usize) -> &[Edge]
    ensures { result.now ≡ drop before edges.now }
{
    if before <= edges.len() {
        &edges[before..]
    } else {
        &[]
    }
}

// Adds a step that the machine has just taken: its line, the answer, the event, and what it formed.
fn render_step<A: Handle>(
    alloc: A,
    machine: &Machine<A>,
    step: &Step<A>,
    text: &mut Vec<u8, A>,
) -> Result<(), AllocError>
    ensures { OnOk result (text.new.items ≡ text.old.items ++ text_of (formed_line machine.now.model step.now.line step.now.event step.now.answer step.now.op step.now.edges_before (edges_in machine.now) ∷ [])) }
{
    let mut digits = Buffer::new();
    text.extend_from_slice(digits.format(step.line).as_bytes())?;
    push_word(text, answer_line(alloc, &step.answer)?.as_slice())?;
    push_word(text, b":")?;
    push_word(
        text,
        write_event(alloc, machine.model(), &step.event)?.as_slice(),
    )?;
    render_op(text, step.op)?;
    let before = step.edges_before;
    render_edges(text, before, behind(machine.edges(), before))?;
    push_line(text, b"")?;
    Ok(())
}

// The number of the kth line, or 0 if there is none.
fn line_at(lines: &[usize], k: usize) -> usize
    ensures { result ≡ get_or lines.now k 0 }
{
    match lines.get(k) {
        Some(line) => *line,
        None => 0,
    }
}

// Takes the events of these lines, and adds the step of each.
fn render_traced<A: Handle>(
    alloc: A,
    machine: &mut Machine<A>,
    lines: &[usize],
    events: &[Event<A>],
    text: &mut Vec<u8, A>,
) -> Result<(), AllocError>
    ensures reported { OnOk result (text.new.items ≡ text.old.items ++ text_of (trace_lines machine.old lines.now events.now)) }
    ensures machine { OnOk result (machine.new ≡ after_all machine.old events.now) }
{
    let mut k = 0;
    for event in events {
        let line = line_at(lines, k);
        k += 1;
        let copied = event.copy()?;
        let step = take_step(machine, line, copied)?;
        render_step(alloc, machine, &step, text)?;
    }
    Ok(())
}

/// The output of a run of the events of the input, with their lines and what they formed.
pub fn trace_model<A: Handle>(
    alloc: A,
    model: Model<A>,
    input: &[u8],
) -> Result<Report<A>, AllocError>
    ensures { IfOk result (λ report. output_of report ≡ trace_on model (line_numbers input.now) (parsed_in (event_of model) input.now)) }
{
    let lines = EventLines {
        alloc,
        model: &model,
    };
    let read = read_lines(alloc, &lines, input)?;
    let numbers = numbers_of_lines(alloc, input)?;
    let mut machine = Machine::new(alloc, model)?;
    let mut text = Vec::new(alloc);
    render_traced(
        alloc,
        &mut machine,
        &numbers,
        read.parsed.as_slice(),
        &mut text,
    )?;
    render_end(alloc, false, &machine, read.stop, &mut text)?;
    drop(machine);
    Ok(Report {
        text,
        is_refused: read.stop.is_some(),
    })
}
