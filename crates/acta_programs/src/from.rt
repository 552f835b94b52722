//! The ways in which programs that continue from the state of a machine can end, in words.

ghost use Rattle.std.specs.Prelude.{◌≡◌, length, IfOk};
ghost use Rattle.std.specs.Io.{StartsWith};
ghost use Rattle.acta_explore.specs.Histories.{programs_after};
ghost use Rattle.acta_programs.specs.From.{IsAnswerAfter, IsAnswerFrom, ends_line, given_up_line};

use crate::ends::{EndCount, put_ends, put_kinds};
use crate::programs::Programs;
use crate::texts::begun;
use acta_explore::{ExploreError, Explored, Plan, Point, Watch, explore_from, history_lines};
use acta_io::non_blank_lines;
use acta_machine::{Handle, Machine};
use acta_prose::Prose;
use acta_script::{ProgramLine, write_event};
use acta_table::Items;
use acta_words::push_line;
use std::alloc::AllocError;

// A copy of the line in memory of its own.
fn copy_line<A: Handle>(alloc: A, line: &ProgramLine<A>) -> Result<ProgramLine<A>, AllocError>
    ensures { IfOk result (λ copy. copy ≡ line.now) }
{
    let alternatives = line.alternatives.as_slice();
    let mut events = Vec::with_capacity(alloc, alternatives.len())?;
    for event in alternatives {
        events.push(event.copy()?)?;
    }
    Ok(ProgramLine {
        seat: line.seat,
        alternatives: Items::of(events),
    })
}

// The lines of the machine's events, followed by those of the seats.
fn lines_after<A: Handle>(
    alloc: A,
    machine: &Machine<A>,
    lines: &[ProgramLine<A>],
) -> Result<Vec<ProgramLine<A>, A>, AllocError>
    ensures { IfOk result (λ all. all.items ≡ programs_after machine.now lines.now) }
{
    let mut all = history_lines(alloc, machine)?;
    for line in lines {
        all.push(copy_line(alloc, line)?)?;
    }
    Ok(all)
}

// The text of the lines: the machine's events as lines of seat 0, followed by what was typed.
fn text_after<A: Handle>(
    alloc: A,
    machine: &Machine<A>,
    typed: &[u8],
) -> Result<Vec<u8, A>, AllocError> {
    let mut text = Vec::new(alloc);
    for kept in machine.history() {
        let line = write_event(alloc, machine.model(), &kept.event)?;
        text.extend_from_slice(b"0 ")?;
        push_line(&mut text, line.as_slice())?;
    }
    text.extend_from_slice(typed)?;
    Ok(text)
}

// The words after the number of ends: how many are of each kind, and each end, without the machine's events.
fn ends_text<A: Handle>(
    alloc: A,
    machine: &Machine<A>,
    lines: &[ProgramLine<A>],
    typed: &[u8],
    explored: &Explored<A>,
) -> Result<String<A>, AllocError> {
    let text = text_after(alloc, machine, typed)?;
    let texts = non_blank_lines(alloc, text.as_slice())?;
    let numbers: Vec<usize, A> = (1..=lines.len()).collect(alloc)?;
    let places: Vec<usize, A> = (0..explored.len()).collect(alloc)?;
    let plan = Plan::of(alloc, lines)?;
    let programs = Programs {
        alloc,
        model: machine.model(),
        lines,
        numbers: numbers.as_slice(),
        texts: texts.as_slice(),
        plan: &plan,
    };
    let past = machine.history().len();
    let prose = put_kinds(Prose::new(alloc), explored, places.as_slice()).put("\n");
    put_ends(prose, &programs, explored, places.as_slice(), past).done()
}

// All ends, in words.
fn explain_all<A: Handle>(
    alloc: A,
    machine: &Machine<A>,
    lines: &[ProgramLine<A>],
    typed: &[u8],
    explored: &Explored<A>,
) -> Result<Vec<u8, A>, AllocError>
    ensures { IfOk result (λ text. StartsWith text.items (ends_line (length explored.now.ends))) }
{
    let rest = ends_text(alloc, machine, lines, typed, explored)?;
    let head = format!(in alloc; "{}", EndCount(explored.len()))?.into_bytes();
    begun(head, rest.as_str())
}

// The line with how many points and ends were found before the search was given up.
fn given_up_line<A: Handle>(alloc: A, points: u64, ends: usize) -> Result<Vec<u8, A>, AllocError>
    ensures { IfOk result (λ line. line.items ≡ given_up_line points ends) }
{
    let line = format!(in alloc; "incomplete: {points} points and {ends} ends")?;
    Ok(line.into_bytes())
}

// The words that the search was given up after this many points and ends.
fn explain_given_up<A: Handle>(
    alloc: A,
    most: u32,
    points: u64,
    ends: usize,
) -> Result<Vec<u8, A>, AllocError>
    ensures { IfOk result (λ text. StartsWith text.items (given_up_line points ends)) }
{
    let rest = format!(in alloc;
        " were found, and at most {most} points are searched. There may be other ends.\n"
    )?;
    begun(given_up_line(alloc, points, ends)?, rest.as_str())
}

// How programs that continue from the root can end, in words. The root is the point after the machine's events, and the
// lines begin with those of these events.
fn explain_root<A: Handle, W: Watch>(
    alloc: A,
    most: u32,
    machine: &Machine<A>,
    root: &Point<A>,
    lines: &[ProgramLine<A>],
    typed: &[u8],
    watch: &mut W,
) -> Result<Vec<u8, A>, AllocError>
    ensures { IfOk result (λ text. IsAnswerFrom most lines.now root.now text.items) }
{
    let found = explore_from(alloc, root, lines, most, watch);
    watch.end();
    match found {
        Ok(explored) => {
            let text = explain_all(alloc, machine, lines, typed, &explored);
            drop(explored);
            text
        }
        Err(ExploreError::TooMany { points, ends }) => {
            explain_given_up(alloc, most, points, ends)
        }
        Err(ExploreError::Memory) => Err(AllocError),
    }
}

/// Explains how programs that continue from the machine's state can end, in whatever order of their steps. The machine's
/// history counts as the first lines: `line N` in the words is the Nth line of the history and the programs together, and
/// operations are numbered on from the machine's. Each end is shown without the history. `lines` are the lines of the seats,
/// and `typed` is their text, with a line feed after each, which the words quote. The text gives the number of ends, or that
/// the search was given up because more than `most` points would have to be searched.
pub fn explain_from<A: Handle, W: Watch>(
    alloc: A,
    most: u32,
    machine: &Machine<A>,
    lines: &[ProgramLine<A>],
    typed: &[u8],
    watch: &mut W,
) -> Result<Vec<u8, A>, AllocError>
    ensures { IfOk result (λ text. IsAnswerAfter most machine.now lines.now text.items) }
{
    let all = lines_after(alloc, machine, lines)?;
    let root = Point::after(alloc, machine)?;
    let text = explain_root(alloc, most, machine, &root, all.as_slice(), typed, watch);
    drop(root);
    drop(all);
    text
}
