//! What the lines of programs did, and the order of the steps.

ghost use Rattle.std.specs.Prelude.{◌≡◌, ◌++◌, ◌∷◌, [], map, flat_map, OnOk};
ghost use Rattle.acta_words.specs.Text.{text_of};
ghost use Rattle.acta_ends.specs.EndLines.{chose_lines, lines_from, order_line, return_line, return_lines, step_word};

use crate::words::{has_choice, push_alternative, push_number};
use acta_explore::{Done, Step};
use acta_script::{ProgramLine, push_return};
use acta_table::Ret;
use acta_words::push_line;
use std::alloc::{AllocError, Allocator};

// Writes which alternative of a line happened, if the line was done and has more than one.
fn push_chosen<A: Allocator>(
    text: &mut Vec<u8, A>,
    lines: &[ProgramLine<A>],
    numbers: &[usize],
    line: usize,
    done: &Option<Done>,
) -> Result<(), AllocError>
    ensures { OnOk result (text.new.items ≡ text.old.items ++ text_of (chose_lines lines.now numbers.now line done.now)) }
{
    let Some(done) = done else {
        return Ok(());
    };
    if !has_choice(lines, line) {
        return Ok(());
    }
    text.extend_from_slice(b"chose")?;
    push_number(text, numbers, line)?;
    push_alternative(text, b' ', done.alternative)?;
    push_line(text, b"")
}

/// Writes which alternatives happened, one line for each line of the programs that was done and has more than one.
pub(crate) fn push_choices<A: Allocator>(
    text: &mut Vec<u8, A>,
    lines: &[ProgramLine<A>],
    numbers: &[usize],
    done: &[Option<Done>],
) -> Result<(), AllocError>
    ensures { OnOk result (text.new.items ≡ text.old.items ++ text_of (lines_from (chose_lines lines.now numbers.now) 0 done.now)) }
{
    for (line, one) in done.iter().enumerate() {
        push_chosen(text, lines, numbers, line, one)?;
    }
    Ok(())
}

// Writes the return of a line.
fn push_returned<A: Allocator>(
    text: &mut Vec<u8, A>,
    numbers: &[usize],
    line: usize,
    ret: Ret,
) -> Result<(), AllocError>
    ensures { OnOk result (text.new.items ≡ text.old.items ++ text_of (return_line numbers.now line ret ∷ [])) }
{
    text.extend_from_slice(b"return")?;
    push_number(text, numbers, line)?;
    push_return(text, ret)?;
    push_line(text, b"")
}

// Writes the return of a line, if it did an operation.
fn push_return_of<A: Allocator>(
    text: &mut Vec<u8, A>,
    numbers: &[usize],
    line: usize,
    done: &Option<Done>,
) -> Result<(), AllocError>
    ensures { OnOk result (text.new.items ≡ text.old.items ++ text_of (return_lines numbers.now line done.now)) }
{
    let Some(done) = done else {
        return Ok(());
    };
    match done.ret {
        Some(ret) => push_returned(text, numbers, line, ret),
        None => Ok(()),
    }
}

/// Writes the returns, one line for each line of the programs that did an operation.
pub(crate) fn push_returns<A: Allocator>(
    text: &mut Vec<u8, A>,
    numbers: &[usize],
    done: &[Option<Done>],
) -> Result<(), AllocError>
    ensures { OnOk result (text.new.items ≡ text.old.items ++ text_of (lines_from (return_lines numbers.now) 0 done.now)) }
{
    for (line, one) in done.iter().enumerate() {
        push_return_of(text, numbers, line, one)?;
    }
    Ok(())
}

// Writes a space and the line that a step did, with its alternative if the line has more than one.
fn push_step<A: Allocator>(
    text: &mut Vec<u8, A>,
    lines: &[ProgramLine<A>],
    numbers: &[usize],
    step: &Step,
) -> Result<(), AllocError>
    ensures { OnOk result (text.new.items ≡ text.old.items ++ 32 ∷ step_word lines.now numbers.now step.now) }
{
    push_number(text, numbers, step.line)?;
    if has_choice(lines, step.line) {
        push_alternative(text, b'.', step.alternative)?;
    }
    Ok(())
}

// Writes the lines that steps did, each after a space.
fn push_steps<A: Allocator>(
    text: &mut Vec<u8, A>,
    lines: &[ProgramLine<A>],
    numbers: &[usize],
    steps: &[Step],
) -> Result<(), AllocError>
    ensures { OnOk result (text.new.items ≡ text.old.items ++ flat_map (λ word. 32 ∷ word) (map (step_word lines.now numbers.now) steps.now)) }
{
    for step in steps {
        push_step(text, lines, numbers, step)?;
    }
    Ok(())
}

/// Writes the order of the steps.
pub(crate) fn push_order<A: Allocator>(
    text: &mut Vec<u8, A>,
    lines: &[ProgramLine<A>],
    numbers: &[usize],
    steps: &[Step],
) -> Result<(), AllocError>
    ensures { OnOk result (text.new.items ≡ text.old.items ++ text_of (order_line lines.now numbers.now steps.now ∷ [])) }
{
    text.extend_from_slice(b"order")?;
    push_steps(text, lines, numbers, steps)?;
    push_line(text, b"")?;
    Ok(())
}
