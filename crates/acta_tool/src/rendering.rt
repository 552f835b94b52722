//! The output of a run, line by line.

ghost use Rattle.std.specs.Prelude.{◌≡◌, ◌++◌, ◌∷◌, [], decimal, flat_map, map, OnOk};
ghost use Rattle.acta_machine.specs.Table.{debts_in};
ghost use Rattle.acta_axioms.specs.Axioms.{axiom_number};
ghost use Rattle.acta_script.specs.Answers.{answer_line, fault_line, owed_line};
ghost use Rattle.acta_words.specs.Text.{line_of, text_of};
ghost use Rattle.acta_tool.specs.Driving.{book_lines, entry_line, front_line};
ghost use Rattle.acta_io.specs.Reports.{fault_number_words, fault_words, image_line, model_line, no_model_line, stop_line};
ghost use Rattle.acta_tool.specs.Output.{reported, reported_last, verdict_lines};

use acta_axioms::Fault;
use acta_io::{BadLine, push_stop};
use acta_judge::Verdict;
use acta_locked::{Book, Entry, Front};
use acta_machine::{Handle, Machine, Run};
use acta_script::{answer_line, fault_line, owed_line, push_answer, write_event};
use acta_table::{Answer, Model, Owed};
use acta_trace::{push_debt_lines, push_kept_lines, push_owed_lines};
use acta_words::{push_line, push_natural, push_word};
use itoa::Buffer;
use std::alloc::{AllocError, Allocator};

// Adds the answers, one per line.
fn render_answers<A: Allocator>(answers: &[Answer], text: &mut Vec<u8, A>) -> Result<(), AllocError>
    ensures { OnOk result (text.new.items ≡ text.old.items ++ text_of (map answer_line answers.now)) }
{
    for answer in answers {
        push_answer(text, answer)?;
        push_line(text, b"")?;
    }
    Ok(())
}

// Adds these faults, one per line.
fn render_faults<A: Allocator + Copy>(
    alloc: A,
    faults: &[Fault],
    text: &mut Vec<u8, A>,
) -> Result<(), AllocError>
    ensures { OnOk result (text.new.items ≡ text.old.items ++ text_of (map (λ f. fault_line (axiom_number f.broken) f.place f.by) faults.now)) }
{
    for fault in faults {
        let line = fault_line(alloc, fault.broken.number(), fault.place, fault.by)?;
        push_line(text, line.as_slice())?;
    }
    Ok(())
}

/// Adds a verdict: its faults, then the debts.
pub fn render_verdict<A: Allocator + Copy>(
    alloc: A,
    verdict: &Verdict<A>,
    text: &mut Vec<u8, A>,
) -> Result<(), AllocError>
    ensures { OnOk result (text.new.items ≡ text.old.items ++ text_of (verdict_lines verdict.now)) }
{
    render_faults(alloc, verdict.faults.as_slice(), text)?;
    push_owed_lines(alloc, verdict.owed.as_slice(), text)?;
    Ok(())
}

// Adds an entry: its number, its seat, its event and the answer.
fn render_entry<A: Allocator + Copy>(
    alloc: A,
    model: &Model<A>,
    entry: &Entry<A>,
    text: &mut Vec<u8, A>,
) -> Result<(), AllocError>
    ensures { OnOk result (text.new.items ≡ text.old.items ++ text_of (entry_line model.now entry.now ∷ [])) }
{
    let mut digits = Buffer::new();
    text.extend_from_slice(digits.format(entry.number).as_bytes())?;
    push_natural(text, u64::from(entry.seat))?;
    push_word(text, write_event(alloc, model, &entry.event)?.as_slice())?;
    push_word(text, b":")?;
    push_word(text, answer_line(alloc, &entry.answer)?.as_slice())?;
    push_line(text, b"")?;
    Ok(())
}

// Adds the entries, one per line.
fn render_entries<A: Allocator + Copy>(
    alloc: A,
    model: &Model<A>,
    entries: &[Entry<A>],
    text: &mut Vec<u8, A>,
) -> Result<(), AllocError>
    ensures { OnOk result (text.new.items ≡ text.old.items ++ text_of (map (entry_line model.now) entries.now)) }
{
    for entry in entries {
        render_entry(alloc, model, entry, text)?;
    }
    Ok(())
}

// Adds a front: the number of its items, and the numbers of faults and debts in the verdict on them.
fn render_front<A: Allocator>(front: &Front<A>, text: &mut Vec<u8, A>) -> Result<(), AllocError>
    ensures { OnOk result (text.new.items ≡ text.old.items ++ text_of (front_line front.now ∷ [])) }
{
    text.extend_from_slice(b"front")?;
    push_natural(text, front.length as u64)?;
    push_natural(text, front.verdict.faults.as_slice().len() as u64)?;
    push_natural(text, front.verdict.owed.as_slice().len() as u64)?;
    push_line(text, b"")
}

// Adds the fronts, one per line.
fn render_fronts<A: Allocator>(fronts: &[Front<A>], text: &mut Vec<u8, A>) -> Result<(), AllocError>
    ensures { OnOk result (text.new.items ≡ text.old.items ++ text_of (map front_line fronts.now)) }
{
    for front in fronts {
        render_front(front, text)?;
    }
    Ok(())
}

/// Adds the entries of a book, then the fronts that were judged while it grew, then the debts.
pub fn render_book<A: Handle>(
    alloc: A,
    book: &Book<A>,
    fronts: &[Front<A>],
    text: &mut Vec<u8, A>,
) -> Result<(), AllocError>
    ensures { OnOk result (text.new.items ≡ text.old.items ++ text_of (book_lines book.now fronts.now)) }
{
    let machine = book.machine();
    render_entries(alloc, machine.model(), book.entries(), text)?;
    render_fronts(fronts, text)?;
    push_debt_lines(alloc, machine, text)?;
    Ok(())
}

/// Adds the answers to the events of a run; or, if `is_kept`, the kept events with their returns.
pub fn render_events<A: Handle>(
    alloc: A,
    is_kept: bool,
    run: &Run<A>,
    text: &mut Vec<u8, A>,
) -> Result<(), AllocError>
    ensures { OnOk result (text.new.items ≡ text.old.items ++ text_of (reported is_kept run.now.answers run.now.machine)) }
{
    if is_kept {
        push_kept_lines(alloc, &run.machine, text)
    } else {
        render_answers(run.answers.as_slice(), text)
    }
}

/// Adds the line that stopped a run, otherwise the debts; nothing after a list of kept events.
pub fn render_end<A: Handle>(
    alloc: A,
    is_kept: bool,
    machine: &Machine<A>,
    stop: Option<BadLine>,
    text: &mut Vec<u8, A>,
) -> Result<(), AllocError>
    ensures { OnOk result (text.new.items ≡ text.old.items ++ text_of (reported_last is_kept machine.now stop)) }
{
    match stop {
        Some(stop) => push_stop(text, stop),
        None if is_kept => Ok(()),
        None => push_debt_lines(alloc, machine, text),
    }
}
