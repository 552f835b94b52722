//! The command `serial`: the committed operations of a run of the input's events, in serial order.

ghost use Rattle.std.specs.Prelude.{◌≡◌, ◌<◌, ◌++◌, All, length, false, None, IfOk, OnOk};
ghost use Rattle.acta_script.specs.Reading.{event_of};
ghost use Rattle.acta_words.specs.Text.{text_of};
ghost use Rattle.acta_io.specs.Input.{parsed_in};
ghost use Rattle.acta_tool.specs.Output.{serial_lines, serial_on, serialized_on};
ghost use Rattle.acta_io.specs.inside.Reports.{output_of};

use acta_axioms::SerialItem;
use acta_io::{EventLines, Report, read_lines, refuse_by, refuse_line};
use acta_machine::{Handle, Machine, SerialError};
use acta_script::write_kept;
use acta_table::{Event, Kept, Model};
use acta_words::push_line;
use std::alloc::{AllocError, Allocator};

// Adds the operations as kept lines.
fn render_order<A: Allocator + Copy>(
    alloc: A,
    model: &Model<A>,
    items: &[SerialItem],
    text: &mut Vec<u8, A>,
) -> Result<(), AllocError>
    requires { All (λ item. item.ob.0 < length model.now.objects) items.now }
    ensures { OnOk result (text.new.items ≡ text.old.items ++ text_of (serial_lines model.now items.now)) }
{
    for item in items {
        let kept = Kept {
            event: Event::Operate(item.txn, item.ob, item.op),
            ret: Some(item.ret),
        };
        push_line(text, write_kept(alloc, model, &kept)?.as_slice())?;
    }
    Ok(())
}

// The output for a serial order.
fn report_order<A: Allocator + Copy>(
    alloc: A,
    model: &Model<A>,
    items: &[SerialItem],
) -> Result<Report<A>, AllocError>
    requires { All (λ item. item.ob.0 < length model.now.objects) items.now }
    ensures { IfOk result (λ report. output_of report ≡ record { is_refused = false; text = text_of (serial_lines model.now items.now) }) }
{
    let mut text = Vec::new(alloc);
    render_order(alloc, model, items, &mut text)?;
    Ok(Report {
        text,
        is_refused: false,
    })
}

// The output for the machine's history.
fn serialize<A: Handle>(alloc: A, machine: &Machine<A>) -> Result<Report<A>, AllocError>
    ensures { IfOk result (λ report. output_of report ≡ serialized_on machine.now.model machine.now.kept None) }
{
    match machine.serial() {
        Ok(items) => report_order(alloc, machine.model(), items.as_slice()),
        Err(SerialError::NotStrict) => refuse_by(alloc, b"serial fault 1"),
        Err(SerialError::Memory) => Err(AllocError),
    }
}

/// The output for the event lines of the input.
pub fn serial_model<A: Handle>(
    alloc: A,
    model: Model<A>,
    input: &[u8],
) -> Result<Report<A>, AllocError>
    ensures { IfOk result (λ report. output_of report ≡ serial_on model (parsed_in (event_of model) input.now)) }
{
    let lines = EventLines {
        alloc,
        model: &model,
    };
    let read = read_lines(alloc, &lines, input)?;
    if let Some(stop) = read.stop {
        return refuse_line(alloc, stop);
    }
    let run = Machine::run(alloc, model, read.parsed.as_slice())?;
    let report = serialize(alloc, &run.machine);
    drop(run);
    report
}
