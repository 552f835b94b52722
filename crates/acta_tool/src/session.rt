//! A debugging run: what each command does to the cursor, and its reply.

ghost use Rattle.std.specs.Prelude.{◌≡◌, ◌≢◌, ◌++◌, ◌∷◌, [], codes, length, IfOk, OnOk};
ghost use Rattle.acta_debug.specs.Moves.{gone_to, stepped, stepped_back, with_break, without_breaks};
ghost use Rattle.acta_debug.specs.Stops.{run_to_stop, stop_of};
ghost use Rattle.acta_debug.specs.declared.errors.MoveError.TheVariants as blocked;
ghost use Rattle.acta_words.specs.Text.{text_of};
ghost use Rattle.acta_tool.specs.Debugging.{at_line, barred_line, behind, break_of, error_word, move_line, moved, run_line, set_line, texts_of, reported_by};

use acta_debug::{Break, Cursor, MoveError, Stop};
use acta_machine::Handle;
use acta_script::{BreakOn, DebugCommand};
use acta_trace::{push_debt_lines, push_status_line, push_value_line};
use acta_words::{push_line, push_natural, push_word};
use std::alloc::{AllocError, Allocator};

// The break that a command names.
fn break_of(on: BreakOn) -> Break
    ensures { result ≡ break_of on }
{
    match on {
        BreakOn::Kind(kind) => Break::Kind(kind),
        BreakOn::Txn(t) => Break::Touches(t),
        BreakOn::Object(ob) => Break::Object(ob),
        BreakOn::Owed(n) => Break::OwedAtLeast(n),
        BreakOn::Ended(t) => Break::Ended(t),
    }
}

// Adds the place of the debugger.
fn render_at<A: Allocator>(text: &mut Vec<u8, A>, at: u32) -> Result<(), AllocError>
    ensures { OnOk result (text.new.items ≡ text.old.items ++ text_of (at_line at ∷ [])) }
{
    text.extend_from_slice(b"at")?;
    push_natural(text, u64::from(at))?;
    push_line(text, b"")
}

// The word for why a move can't be made. Lack of memory has none.
fn error_word(error: MoveError) -> Result<&'static [u8], AllocError>
    ensures word { IfOk result (λ word. word.now ≡ error_word error) }
    ensures memory { OnOk result (error ≢ blocked.Memory) }
{
    match error {
        MoveError::AtEnd => Ok(b"AtEnd"),
        MoveError::AtStart => Ok(b"AtStart"),
        MoveError::OutOfRange => Ok(b"OutOfRange"),
        MoveError::Memory => Err(AllocError),
    }
}

// Adds why a move can't be made.
fn render_barred<A: Allocator>(text: &mut Vec<u8, A>, error: MoveError) -> Result<(), AllocError>
    ensures reported { OnOk result (text.new.items ≡ text.old.items ++ text_of (barred_line error ∷ [])) }
    ensures memory { OnOk result (error ≢ blocked.Memory) }
{
    let word = error_word(error)?;
    text.extend_from_slice(b"no")?;
    push_word(text, word)?;
    push_line(text, b"")
}

// Moves one event further.
fn render_step<A: Handle>(cursor: &mut Cursor<A>, text: &mut Vec<u8, A>) -> Result<(), AllocError>
    ensures reported { OnOk result (text.new.items ≡ text.old.items ++ text_of (move_line (stepped cursor.old.session) ∷ [])) }
    ensures moved { OnOk result (cursor.new.session ≡ moved cursor.old.session (stepped cursor.old.session)) }
{
    match cursor.step() {
        Ok(()) => render_at(text, cursor.at()),
        Err(error) => render_barred(text, error),
    }
}

// Moves one event back.
fn render_back<A: Handle>(cursor: &mut Cursor<A>, text: &mut Vec<u8, A>) -> Result<(), AllocError>
    ensures reported { OnOk result (text.new.items ≡ text.old.items ++ text_of (move_line (stepped_back cursor.old.session) ∷ [])) }
    ensures moved { OnOk result (cursor.new.session ≡ moved cursor.old.session (stepped_back cursor.old.session)) }
{
    match cursor.back() {
        Ok(()) => render_at(text, cursor.at()),
        Err(error) => render_barred(text, error),
    }
}

// Moves to the place after this many events.
fn render_goto<A: Handle>(
    cursor: &mut Cursor<A>,
    n: u32,
    text: &mut Vec<u8, A>,
) -> Result<(), AllocError>
    ensures reported { OnOk result (text.new.items ≡ text.old.items ++ text_of (move_line (gone_to cursor.old.session n) ∷ [])) }
    ensures moved { OnOk result (cursor.new.session ≡ moved cursor.old.session (gone_to cursor.old.session n)) }
{
    match cursor.goto(n) {
        Ok(()) => render_at(text, cursor.at()),
        Err(error) => render_barred(text, error),
    }
}

// Adds where a run over a history of `last` events stopped.
fn render_stop<A: Allocator>(text: &mut Vec<u8, A>, last: u32, stop: Stop) -> Result<(), AllocError>
    ensures { OnOk result (text.new.items ≡ text.old.items ++ text_of (run_line last stop ∷ [])) }
{
    match stop {
        Stop::Broke { number, place } => {
            text.extend_from_slice(b"break")?;
            push_natural(text, number)?;
            push_word(text, b"at")?;
            push_natural(text, u64::from(place))?;
            push_line(text, b"")
        }
        Stop::Finished => {
            text.extend_from_slice(b"end")?;
            push_natural(text, u64::from(last))?;
            push_line(text, b"")
        }
    }
}

// Runs on.
fn render_run<A: Handle>(cursor: &mut Cursor<A>, text: &mut Vec<u8, A>) -> Result<(), AllocError>
    ensures reported { OnOk result (text.new.items ≡ text.old.items ++ text_of (run_line (length cursor.old.session.history) (stop_of cursor.old.session) ∷ [])) }
    ensures moved { OnOk result (cursor.new.session ≡ run_to_stop cursor.old.session) }
{
    let last = cursor.last();
    let stop = cursor.run()?;
    render_stop(text, last, stop)
}

// Adds a break.
fn render_break<A: Handle>(
    cursor: &mut Cursor<A>,
    on: BreakOn,
    text: &mut Vec<u8, A>,
) -> Result<(), AllocError>
    ensures reported { OnOk result (text.new.items ≡ text.old.items ++ text_of (set_line (length (with_break cursor.old.session (break_of on)).breaks) ∷ [])) }
    ensures added { OnOk result (cursor.new.session ≡ with_break cursor.old.session (break_of on)) }
{
    let number = cursor.add_break(break_of(on))?;
    text.extend_from_slice(b"break")?;
    push_natural(text, number)?;
    push_word(text, b"set")?;
    push_line(text, b"")
}

// Takes away all breaks.
fn render_clear<A: Handle>(cursor: &mut Cursor<A>, text: &mut Vec<u8, A>) -> Result<(), AllocError>
    ensures reported { OnOk result (text.new.items ≡ text.old.items ++ text_of (codes "cleared" ∷ [])) }
    ensures cleared { OnOk result (cursor.new.session ≡ without_breaks cursor.old.session) }
{
    cursor.clear_breaks();
    push_line(text, b"cleared")
}

// Does a command, and adds its reply.
#[tactic(auto, unfolding(crate::specs::Debugging::reported_by, crate::specs::Debugging::behind))]
fn render_command<A: Handle>(
    alloc: A,
    cursor: &mut Cursor<A>,
    command: DebugCommand,
    text: &mut Vec<u8, A>,
) -> Result<(), AllocError>
    ensures reported { OnOk result (text.new.items ≡ text.old.items ++ text_of (reported_by cursor.old.session command)) }
    ensures behind { OnOk result (cursor.new.session ≡ behind cursor.old.session command) }
{
    match command {
        DebugCommand::Step => render_step(cursor, text),
        DebugCommand::Back => render_back(cursor, text),
        DebugCommand::Goto(n) => render_goto(cursor, n, text),
        DebugCommand::Run => render_run(cursor, text),
        DebugCommand::Break(on) => render_break(cursor, on, text),
        DebugCommand::Clear => render_clear(cursor, text),
        DebugCommand::Value(object) => {
            cursor.settle()?;
            push_value_line(alloc, cursor.machine(), object, text)
        }
        DebugCommand::Status(t) => {
            cursor.settle()?;
            push_status_line(cursor.machine(), t, text)
        }
        DebugCommand::Owed => {
            cursor.settle()?;
            push_debt_lines(alloc, cursor.machine(), text)
        }
    }
}

/// Does the commands, one after another, and adds their replies. On `Err` some may have been done.
pub fn render_commands<A: Handle>(
    alloc: A,
    cursor: &mut Cursor<A>,
    commands: &[DebugCommand],
    text: &mut Vec<u8, A>,
) -> Result<(), AllocError>
    ensures { OnOk result (text.new.items ≡ text.old.items ++ text_of (texts_of cursor.old.session commands.now)) }
{
    for command in commands {
        render_command(alloc, cursor, *command, text)?;
    }
    Ok(())
}
