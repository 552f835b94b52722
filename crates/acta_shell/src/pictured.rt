//! A picture of a history shows each of its events, or all events are listed below it. So nothing is promised of the crate
//! that draws: its picture is searched for the events.

ghost use Rattle.std.specs.Prelude.{◌≡◌, ◌++◌, ◌∷◌, true, codes, decimal, List, ℕ, map, IfOk, IfSome, OnOk};
ghost use Rattle.acta_script.specs.Writing.{kept_line};
ghost use Rattle.acta_words.specs.Text.{words_of};
ghost use Rattle.acta_shell.specs.Pictures.{HasInOrder, Leads, numbered_from, numbered_line, pieces_of, pieces_from, ShowsHistory};

use acta_machine::{Handle, Machine};
use acta_script::write_kept;
use acta_words::{push_natural, push_word, words_of};
use itoa::Buffer;
use std::alloc::{AllocError, Allocator};

// What follows the first occurrence of the piece in the text.
fn after_piece<'a>(text: &'a [u8], piece: &[u8]) -> Option<&'a [u8]>
    ensures { IfSome result (λ rest. (before : List ℕ) × (text.entry.now ≡ before ++ (piece.now ++ rest.now))) }
{
    for at in 0..text.len() + 1 {
        if let Some(rest) = text[at..].strip_prefix(piece) {
            return Some(rest);
        }
    }
    None
}

// What follows the pieces, if they occur in the text in this order.
fn after_pieces<'a>(text: &'a [u8], pieces: &[&[u8]]) -> Option<&'a [u8]>
    ensures { IfSome result (λ rest. Leads (map (λ piece. piece.now) pieces.now) text.entry.now rest.now) }
{
    let mut rest = text;
    for piece in pieces {
        rest = after_piece(rest, piece)?;
    }
    Some(rest)
}

// The number of a line, as it stands before the line.
fn number_piece<A: Allocator>(alloc: A, number: u64) -> Result<Vec<u8, A>, AllocError>
    ensures { IfOk result (λ piece. piece.items ≡ decimal number ++ codes "  ") }
{
    let mut piece = Vec::new(alloc);
    piece.extend_from_slice(Buffer::new().format(number).as_bytes())?;
    piece.extend_from_slice(b"  ")?;
    Ok(piece)
}

// What follows the number and the words of the line, if they occur in the text in this order.
fn after_line<'a, A: Allocator + Copy>(
    alloc: A,
    text: &'a [u8],
    number: u64,
    line: &[u8],
) -> Result<Option<&'a [u8]>, AllocError>
    ensures { IfOk result (λ found. IfSome found (λ rest. Leads (pieces_of number line.now) text.entry.now rest.now)) }
{
    let piece = number_piece(alloc, number)?;
    let words = words_of(alloc, line)?;
    let Some(rest) = after_piece(text, piece.as_slice()) else {
        return Ok(None);
    };
    Ok(after_pieces(rest, words.as_slice()))
}

// Whether the text has the numbers of the lines, from 1, and the words of each, in this order.
fn shows<A: Allocator + Copy>(
    alloc: A,
    text: &[u8],
    lines: &[Vec<u8, A>],
) -> Result<bool, AllocError>
    ensures { IfOk result (λ shows. shows ≡ true → HasInOrder (pieces_from 1 (map (λ line. line.items) lines.now)) text.now) }
{
    let mut rest = text;
    for i in 0..lines.len() {
        let found = after_line(alloc, rest, i as u64 + 1, lines[i].as_slice())?;
        let Some(left) = found else {
            return Ok(false);
        };
        rest = left;
    }
    Ok(true)
}

// Appends the line after its number.
fn push_numbered<A: Allocator>(
    text: &mut Vec<u8, A>,
    number: u64,
    line: &[u8],
) -> Result<(), AllocError>
    ensures { OnOk result (text.new.items ≡ text.old.items ++ numbered_line number line.now) }
{
    push_natural(text, number)?;
    text.push(b' ')?;
    push_word(text, line)?;
    text.push(b'\n')?;
    Ok(())
}

// Appends the lines, each after its number.
fn push_all<A: Allocator>(text: &mut Vec<u8, A>, lines: &[Vec<u8, A>]) -> Result<(), AllocError>
    ensures { OnOk result (text.new.items ≡ text.old.items ++ numbered_from 1 (map (λ line. line.items) lines.now)) }
{
    for i in 0..lines.len() {
        push_numbered(text, i as u64 + 1, lines[i].as_slice())?;
    }
    Ok(())
}

// The kept lines of the history.
fn kept_lines<A: Handle>(alloc: A, machine: &Machine<A>) -> Result<Vec<Vec<u8, A>, A>, AllocError>
    ensures { IfOk result (λ lines. map (λ line. line.items) lines.items ≡ map (kept_line machine.now.model) machine.now.kept) }
{
    let mut lines = Vec::new(alloc);
    for kept in machine.history() {
        lines.push(write_kept(alloc, machine.model(), kept)?)?;
    }
    Ok(lines)
}

// The picture, and below it the lines with their numbers, unless the picture shows them all.
fn with_lines<A: Allocator + Copy>(
    alloc: A,
    picture: Vec<u8, A>,
    lines: &[Vec<u8, A>],
) -> Result<Vec<u8, A>, AllocError>
    ensures { IfOk result (λ text. HasInOrder (pieces_from 1 (map (λ line. line.items) lines.now)) text.items) }
{
    if shows(alloc, picture.as_slice(), lines)? {
        return Ok(picture);
    }
    let mut text = picture;
    text.extend_from_slice(b"not every event fits into the picture; all events:\n")?;
    push_all(&mut text, lines)?;
    Ok(text)
}

/// The picture of the history, and below it the events with their places, unless the picture shows them all.
pub(crate) fn with_history<A: Handle>(
    alloc: A,
    machine: &Machine<A>,
    picture: Vec<u8, A>,
) -> Result<Vec<u8, A>, AllocError>
    ensures { IfOk result (λ text. ShowsHistory machine.now text.items) }
{
    let lines = kept_lines(alloc, machine)?;
    with_lines(alloc, picture, lines.as_slice())
}
