//! The command `debug`: events before the first line `--`, and after it commands to a debugger on the history of those
//! events.

ghost use Rattle.std.specs.Prelude.{◌≡◌, ◌++◌, ◌∷◌, [], IfOk, OnOk};
ghost use Rattle.std.specs.Option.{option_map_or};
ghost use Rattle.acta_words.specs.Text.{text_of};
ghost use Rattle.acta_io.specs.Reports.{stop_line};
ghost use Rattle.acta_io.specs.inside.Reports.{output_of};
ghost use Rattle.acta_io.specs.inside.Sections.{parsed_of};
ghost use Rattle.acta_tool.specs.Output.{debug_on, debugged_on};

use crate::session::render_commands;
use acta_debug::{Cursor, Debugger};
use acta_io::{BadLine, Input, Report, push_stop, read_script, refuse_line};
use acta_machine::Handle;
use acta_script::DebugCommand;
use acta_table::{Event, Model};
use std::alloc::{AllocError, Allocator};

// Adds the line that stopped the commands, if one did.
fn render_last<A: Allocator>(text: &mut Vec<u8, A>, stop: Option<BadLine>) -> Result<(), AllocError>
    ensures { OnOk result (text.new.items ≡ text.old.items ++ text_of (option_map_or (λ b. stop_line b ∷ []) stop [])) }
{
    match stop {
        Some(stop) => push_stop(text, stop),
        None => Ok(()),
    }
}

// The replies to the commands, up to the line that stopped them, if one did.
fn report_commands<A: Handle>(
    alloc: A,
    model: Model<A>,
    events: &[Event<A>],
    commands: &Input<DebugCommand, A>,
) -> Result<Report<A>, AllocError>
    ensures { IfOk result (λ report. output_of report ≡ debugged_on model events.now (parsed_of commands.now)) }
{
    let debugger = Debugger::of_events(alloc, model, events)?;
    let mut cursor = Cursor::new(debugger);
    let mut text = Vec::new(alloc);
    let reported = render_commands(alloc, &mut cursor, commands.parsed.as_slice(), &mut text);
    drop(cursor);
    reported?;
    render_last(&mut text, commands.stop)?;
    Ok(Report {
        text,
        is_refused: commands.stop.is_some(),
    })
}

/// The output of a debugging run: the replies to the commands, or only the faulty line if an event line is faulty.
pub fn debug_model<A: Handle>(
    alloc: A,
    model: Model<A>,
    input: &[u8],
) -> Result<Report<A>, AllocError>
    ensures { IfOk result (λ report. output_of report ≡ debug_on model input.now) }
{
    let script = read_script(alloc, &model, input)?;
    match script.events.stop {
        Some(stop) => refuse_line(alloc, stop),
        None => report_commands(
            alloc,
            model,
            script.events.parsed.as_slice(),
            &script.commands,
        ),
    }
}
