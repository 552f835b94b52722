//! The lines of all ends.

ghost use Rattle.std.specs.Prelude.{◌≡◌, ◌++◌, ◌∷◌, [], false, map, slice_get, IfOk, OnOk};
ghost use Rattle.std.specs.Option.{option_map_or};
ghost use Rattle.acta_words.specs.Text.{text_of};
ghost use Rattle.acta_explore.specs.Outcomes.{outcome};
ghost use Rattle.acta_ends.specs.EndLines.{count_line, explored_lines, is_kept, kept_lines, point_lines};

use crate::condition::Condition;
use crate::end::push_end;
use crate::kept::is_kept;
use acta_explore::Explored;
use acta_machine::Handle;
use acta_script::ProgramLine;
use acta_table::Model;
use acta_words::{push_line, push_natural};
use std::alloc::{AllocError, Allocator};

// Writes the end at this place, if there is one, with this number.
fn push_end_at<A: Handle>(
    text: &mut Vec<u8, A>,
    model: &Model<A>,
    lines: &[ProgramLine<A>],
    numbers: &[usize],
    explored: &Explored<A>,
    place: usize,
    number: usize,
) -> Result<(), AllocError>
    requires { explored.now.outcomes ≡ map (outcome lines.now) explored.now.ends }
    ensures { OnOk result (text.new.items ≡ text.old.items ++ text_of (option_map_or (point_lines model.now lines.now numbers.now number) (slice_get explored.now.ends place) [])) }
{
    let Some(point) = explored.end(place) else {
        return Ok(());
    };
    let Some(outcome) = explored.outcome(place) else {
        return Ok(());
    };
    push_end(text, model, lines, numbers, number, outcome, point.steps())
}

// Writes the end at this place with this number, if there is one and the condition holds for it. Returns whether it did.
fn push_kept_at<A: Handle>(
    text: &mut Vec<u8, A>,
    model: &Model<A>,
    lines: &[ProgramLine<A>],
    numbers: &[usize],
    explored: &Explored<A>,
    condition: &Condition<A>,
    place: usize,
    number: usize,
) -> Result<bool, AllocError>
    requires { explored.now.outcomes ≡ map (outcome lines.now) explored.now.ends }
    ensures kept { IfOk result (λ kept. kept ≡ option_map_or (is_kept lines.now condition.now) (slice_get explored.now.ends place) false) }
    ensures text { OnOk result (text.new.items ≡ text.old.items ++ text_of (option_map_or (kept_lines model.now lines.now numbers.now condition.now number) (slice_get explored.now.ends place) [])) }
{
    if !is_kept(explored, condition, place) {
        return Ok(false);
    }
    push_end_at(text, model, lines, numbers, explored, place, number)?;
    Ok(true)
}

// Writes how many ends were written.
fn push_count<A: Allocator>(text: &mut Vec<u8, A>, count: usize) -> Result<(), AllocError>
    ensures { OnOk result (text.new.items ≡ text.old.items ++ text_of (count_line count ∷ [])) }
{
    text.extend_from_slice(b"ends")?;
    push_natural(text, count as u64)?;
    push_line(text, b"")
}

/// The ends of programs for which the condition holds, as text: the lines of each, with its number among all ends, from 1,
/// then the number of ends written. `numbers` has the number in the input of each line of the programs.
#[tactic(auto, unfolding(crate::specs::EndLines::explored_lines))]
pub fn ends_lines<A: Handle>(
    alloc: A,
    model: &Model<A>,
    lines: &[ProgramLine<A>],
    numbers: &[usize],
    explored: &Explored<A>,
    condition: &Condition<A>,
) -> Result<Vec<u8, A>, AllocError>
    requires { explored.now.outcomes ≡ map (outcome lines.now) explored.now.ends }
    ensures { IfOk result (λ text. text.items ≡ text_of (explored_lines model.now lines.now numbers.now condition.now explored.now.ends)) }
{
    let mut text = Vec::new(alloc);
    let mut count = 0;
    for place in 0..explored.len() {
        if push_kept_at(
            &mut text,
            model,
            lines,
            numbers,
            explored,
            condition,
            place,
            place + 1,
        )? {
            count += 1;
        }
    }
    push_count(&mut text, count)?;
    Ok(text)
}
