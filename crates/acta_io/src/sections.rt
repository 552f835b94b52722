//! The two sections of a debug script: events before the first line `--`, and commands to a debugger after it.

ghost use Rattle.std.specs.Prelude.{◌≡◌, ◌<◌, ◌+◌, ◌-◌, ◌^◌, drop, length, option_map, IfNone, IfOk, Some};
ghost use Rattle.acta_script.specs.Reading.{event_of};
ghost use Rattle.acta_words.specs.Text.{lines_of};
ghost use Rattle.acta_words.specs.inside.LinesToCome.{lines_to_come};
ghost use Rattle.acta_io.specs.Input.{parsed_in};
ghost use Rattle.acta_io.specs.Sections.{ends_events, script_commands, script_events};
ghost use Rattle.acta_io.specs.inside.Sections.{commands_from, parsed_of};

use crate::input::{BadLine, CommandLines, EventLines, Input, NonBlankLine, read_left, read_lines};
use acta_script::DebugCommand;
use acta_table::{Event, Model};
use acta_words::{Lines, words_of};
use std::alloc::{AllocError, Allocator};

/// A parsed debug script.
#[derive(Drop)]
pub struct Script<'a, A: Allocator> {
    /// The events, up to the first faulty line before the line `--`.
    pub events: Input<'a, Event<A>, A>,
    /// The commands, up to the first faulty line after the line `--`. None are read if a line of the events is faulty.
    pub commands: Input<'a, DebugCommand, A>,
}

// Whether `--` is the only word of the line.
fn ends_events<A: Allocator + Copy>(alloc: A, line: &[u8]) -> Result<bool, AllocError>
    ensures { IfOk result (λ ends. ends ≡ ends_events line.now) }
{
    match words_of(alloc, line)?.as_slice() {
        [word] => Ok(*word == b"--".as_slice()),
        _ => Ok(false),
    }
}

// The lines of the input after the first `count`.
fn drop_lines(input: &[u8], count: usize) -> Lines<'_>
    ensures lines { lines_to_come result ≡ drop count (lines_of input.now) }
    ensures few { count + length (lines_to_come result) < 2 ^ 64 }
{
    let mut lines = Lines::of(input);
    let mut left = count;
    while left > 0 {
        lines.next();
        left -= 1;
    }
    lines
}

// The commands after the line that stopped the events, if it is the line `--`.
fn commands_after<'a, A: Allocator + Copy>(
    alloc: A,
    model: &Model<A>,
    input: &'a [u8],
    stop: BadLine,
) -> Result<Option<Input<'a, DebugCommand, A>>, AllocError>
    requires { 0 < stop.line }
    ensures { IfOk result (λ found. option_map parsed_of found ≡ commands_from model.now stop.line (drop (stop.line - 1) (lines_of input.now))) }
{
    let mut lines = drop_lines(input, stop.line - 1);
    let Some(line) = lines.next() else {
        return Ok(None);
    };
    if !ends_events(alloc, line)? {
        return Ok(None);
    }
    let reader = CommandLines { alloc, model };
    let commands = read_left(alloc, &reader, lines, stop.line)?;
    Ok(Some(commands))
}

// The script whose events this line stopped. The line is a fault, unless it is the line `--`.
fn script_after<'a, A: Allocator + Copy>(
    alloc: A,
    model: &Model<A>,
    input: &'a [u8],
    events: Vec<Event<A>, A>,
    lines: Vec<NonBlankLine<'a>, A>,
    stop: BadLine,
) -> Result<Script<'a, A>, AllocError>
    requires { parsed_in (event_of model.now) input.now ≡ record { parsed = events.items; stop = Some stop } }
    ensures events { IfOk result (λ script. parsed_of script.events ≡ script_events model.now input.now) }
    ensures commands { IfOk result (λ script. IfNone script.events.stop (parsed_of script.commands ≡ script_commands model.now input.now)) }
{
    let found = commands_after(alloc, model, input, stop)?;
    match found {
        Some(commands) => Ok(Script {
            events: Input {
                parsed: events,
                lines,
                stop: None,
            },
            commands,
        }),
        None => Ok(Script {
            events: Input {
                parsed: events,
                lines,
                stop: Some(stop),
            },
            commands: Input {
                parsed: Vec::new(alloc),
                lines: Vec::new(alloc),
                stop: None,
            },
        }),
    }
}

/// Parses a debug script: events before the first line whose only word is `--`, and commands after it, none if there is no
/// such line. The line `--` is not an event, so it stops the events; it is not a fault.
pub fn read_script<'a, A: Allocator + Copy>(
    alloc: A,
    model: &Model<A>,
    input: &'a [u8],
) -> Result<Script<'a, A>, AllocError>
    ensures events { IfOk result (λ script. parsed_of script.events ≡ script_events model.now input.now) }
    ensures commands { IfOk result (λ script. IfNone script.events.stop (parsed_of script.commands ≡ script_commands model.now input.now)) }
{
    let reader = EventLines { alloc, model };
    let Input {
        parsed,
        lines,
        stop,
    } = read_lines(alloc, &reader, input)?;
    match stop {
        Some(stop) => script_after(alloc, model, input, parsed, lines, stop),
        None => Ok(Script {
            events: Input {
                parsed,
                lines,
                stop: None,
            },
            commands: Input {
                parsed: Vec::new(alloc),
                lines: Vec::new(alloc),
                stop: None,
            },
        }),
    }
}
