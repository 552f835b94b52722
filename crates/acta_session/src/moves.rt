//! The replies to moves, and to a question about a refusal that does not exist.

ghost use Rattle.std.specs.Prelude.{◌≡◌, ◌++◌, ◌∷◌, [], decimal, length, IfOk, OnOk};
ghost use Rattle.acta_words.specs.Text.{text_of};
ghost use Rattle.acta_session.specs.Replies.{all_places, events_left, explore_line, few_events, place_line, places_line, refused_line};

use acta_words::{push_line, push_natural};
use std::alloc::{AllocError, Allocator};

/// The line with the place after a move.
pub(crate) fn place_text<A: Allocator>(alloc: A, place: u32) -> Result<Vec<u8, A>, AllocError>
    ensures { IfOk result (λ text. text.items ≡ text_of (place_line place ∷ [])) }
{
    let mut text = Vec::new(alloc);
    text.extend_from_slice(b"at")?;
    push_natural(&mut text, u64::from(place))?;
    push_line(&mut text, b"")?;
    Ok(text)
}

// Adds that there are only this many events.
fn push_few<A: Allocator>(text: &mut Vec<u8, A>, count: u32) -> Result<(), AllocError>
    ensures { OnOk result (text.new.items ≡ text.old.items ++ few_events count) }
{
    if count == 0 {
        return text.extend_from_slice(b"no event");
    }
    if count == 1 {
        return text.extend_from_slice(b"only 1 event");
    }
    text.extend_from_slice(b"only")?;
    push_natural(text, u64::from(count))?;
    text.extend_from_slice(b" events")
}

/// The line that only this many events can be undone, or redone.
pub(crate) fn left_text<A: Allocator>(
    alloc: A,
    count: u32,
    action: &[u8],
) -> Result<Vec<u8, A>, AllocError>
    ensures { IfOk result (λ text. text.items ≡ text_of (events_left count action.now ∷ [])) }
{
    let mut text = Vec::new(alloc);
    push_few(&mut text, count)?;
    text.extend_from_slice(b" can be ")?;
    text.extend_from_slice(action)?;
    text.extend_from_slice(b" (nothing was done)")?;
    push_line(&mut text, b"")?;
    Ok(text)
}

// Adds the places to which one can move.
#[tactic(auto, unfolding(crate::specs::Replies::all_places))]
fn push_places<A: Allocator>(text: &mut Vec<u8, A>, last: u32) -> Result<(), AllocError>
    ensures { OnOk result (text.new.items ≡ text.old.items ++ all_places last) }
{
    text.extend_from_slice(b"the places are 0 to")?;
    push_natural(text, u64::from(last))
}

/// The line with the places to which one can move.
pub(crate) fn places_text<A: Allocator>(alloc: A, last: u32) -> Result<Vec<u8, A>, AllocError>
    ensures { IfOk result (λ text. text.items ≡ text_of (places_line last ∷ [])) }
{
    let mut text = Vec::new(alloc);
    push_places(&mut text, last)?;
    text.extend_from_slice(b" (nothing was done)")?;
    push_line(&mut text, b"")?;
    Ok(text)
}

/// The line with the numbers of the refused events, of which there are `count`.
pub(crate) fn refused_text<A: Allocator>(alloc: A, count: usize) -> Result<Vec<u8, A>, AllocError>
    ensures { IfOk result (λ text. text.items ≡ text_of (refused_line count ∷ [])) }
{
    let mut text = Vec::new(alloc);
    if count == 0 {
        push_line(&mut text, b"no event was refused")?;
        return Ok(text);
    }
    text.extend_from_slice(b"the refused events have the numbers 1 to")?;
    push_natural(&mut text, count as u64)?;
    push_line(&mut text, b"")?;
    Ok(text)
}

/// The reply to `explore`.
pub(crate) fn explore_text<A: Allocator>(alloc: A) -> Result<Vec<u8, A>, AllocError>
    ensures { IfOk result (λ text. text.items ≡ text_of (explore_line ∷ [])) }
{
    let mut text = Vec::new(alloc);
    push_line(
        &mut text,
        b"programs: SEAT EVENT [| EVENT]... in each line; an empty line ends them",
    )?;
    Ok(text)
}
