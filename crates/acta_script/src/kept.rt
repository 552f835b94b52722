//! Kept lines: an event and, after a `=`, its return.

ghost use Rattle.std.specs.Prelude.{◌≡◌, map, position, Ok, IfOk, IfErr};
ghost use Rattle.acta_script.specs.Laws.{IsInModel};
ghost use Rattle.acta_script.specs.Reading.{IsWhy, is_equals, parse_kept, kept_of};
ghost use Rattle.acta_script.specs.Writing.{kept_line};

use crate::fault::{LineError, lowest};
use crate::laws::kept_again;
use crate::reading::parse_event;
use crate::returns::{parse_return, push_return};
use crate::writing::push_event;
use acta_table::{Kept, Model};
use acta_words::{few_words, push_word, words_of};
use std::alloc::{AllocError, Allocator};

/// The position of the first `=`.
pub(crate) fn sign_place(words: &[&[u8]]) -> Option<usize>
    ensures { result ≡ position (λ word. is_equals word.now) words.now }
{
    words.iter().position(|word| *word == b"=".as_slice())
}

// The kept item of these words.
#[tactic(auto, unfolding(crate::specs::Reading::parse_kept))]
fn parse_kept<A: Allocator + Copy>(
    alloc: A,
    model: &Model<A>,
    words: &[&[u8]],
) -> Result<Kept<A>, LineError>
    ensures ok { IfOk result (λ kept. parse_kept model.now (map (λ word. word.now) words.now) ≡ Ok kept) }
    ensures fault { IfErr result (IsWhy (parse_kept model.now (map (λ word. word.now) words.now))) }
    ensures in_model { IfOk result (λ kept. IsInModel model.now kept.event) }
{
    let Some(at) = sign_place(words) else {
        let event = parse_event(alloc, model, words)?;
        return Ok(Kept { event, ret: None });
    };
    let ret = parse_return(&words[at + 1..]);
    match parse_event(alloc, model, &words[..at]) {
        Ok(event) => Ok(Kept {
            event,
            ret: Some(ret?),
        }),
        Err(LineError::Fault(fault)) => Err(lowest(fault, ret.err()).into()),
        Err(LineError::Memory) => Err(LineError::Memory),
    }
}

/// Parses a kept item: an event and, if the line has a `=`, the return after the first one, where a number has 64 bits.
/// Returns the lowest fault of both parts, or `Memory` if memory runs out.
pub fn read_kept<A: Allocator + Copy>(
    alloc: A,
    model: &Model<A>,
    line: &[u8],
) -> Result<Kept<A>, LineError>
    ensures ok { IfOk result (λ kept. kept_of model.now line.now ≡ Ok kept) }
    ensures fault { IfErr result (IsWhy (kept_of model.now line.now)) }
    ensures in_model { IfOk result (λ kept. IsInModel model.now kept.event) }
{
    match few_words(line) {
        Some(words) => parse_kept(alloc, model, words.as_slice()),
        None => parse_kept(alloc, model, &words_of(alloc, line)?),
    }
}

/// The line of the kept item: the line of its event and, for a return, ` = ` and its word. Reading it gives the same
/// item if the event's class and object are in the model.
#[tactic(auto, using(crate::proofs::Lines::kept_line_plain, crate::proofs::Lines::kept_line_with))]
pub fn write_kept<A: Allocator + Copy>(
    alloc: A,
    model: &Model<A>,
    kept: &Kept<A>,
) -> Result<Vec<u8, A>, AllocError>
    ensures line { IfOk result (λ line. line.items ≡ kept_line model.now kept.now) }
    ensures again { IsInModel model.now kept.now.event → kept_of model.now (kept_line model.now kept.now) ≡ Ok kept.now }
{
    kept_again(model, kept);
    let mut line = Vec::new(alloc);
    push_event(&mut line, model, &kept.event)?;
    let Some(ret) = kept.ret else {
        return Ok(line);
    };
    push_word(&mut line, b"=")?;
    push_return(&mut line, ret)?;
    Ok(line)
}
