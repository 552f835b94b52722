//! Remarks: words beside a line of a reply, and lines of words below it, each after a bar. The layout separates them from
//! the answers.

ghost use Rattle.std.specs.Prelude.{◌≡◌, ◌++◌, ◌∷◌, [], IfOk, OnOk};
ghost use Rattle.acta_session.specs.Remarks.{bar_line, bars_text, beside, one_line, remarked_text};

use acta_words::Lines;
use std::alloc::{AllocError, Allocator};

/// The words beside a line and below it, either of which may be empty.
#[derive(Drop)]
pub struct Remark<T: Drop> {
    pub beside: T,
    pub below: T,
}

// Adds the bytes without their line feeds.
fn push_one_line<A: Allocator>(text: &mut Vec<u8, A>, words: &[u8]) -> Result<(), AllocError>
    ensures { OnOk result (text.new.items ≡ text.old.items ++ one_line words.now) }
{
    for byte in words {
        if *byte != b'\n' {
            text.push(*byte)?;
        }
    }
    Ok(())
}

// Adds the words beside a line, after a gap.
fn push_beside<A: Allocator>(
    text: &mut Vec<u8, A>,
    gap: &[u8],
    words: &[u8],
) -> Result<(), AllocError>
    ensures { OnOk result (text.new.items ≡ text.old.items ++ beside gap.now words.now) }
{
    if words.is_empty() {
        return Ok(());
    }
    text.extend_from_slice(gap)?;
    push_one_line(text, words)
}

// Adds a line after a bar.
fn push_bar<A: Allocator>(text: &mut Vec<u8, A>, line: &[u8]) -> Result<(), AllocError>
    ensures { OnOk result (text.new.items ≡ text.old.items ++ bar_line line.now ++ 10 ∷ []) }
{
    text.extend_from_slice(b"  | ")?;
    text.extend_from_slice(line)?;
    text.push(b'\n')?;
    Ok(())
}

/// Adds the lines below, each after a bar. Returns `Err` if memory runs out.
pub(crate) fn push_bars<A: Allocator>(text: &mut Vec<u8, A>, below: &[u8]) -> Result<(), AllocError>
    ensures { OnOk result (text.new.items ≡ text.old.items ++ bars_text below.now) }
{
    if below.is_empty() {
        return Ok(());
    }
    let mut lines = Lines::of(below);
    while let Some(line) = lines.next() {
        push_bar(text, line)?;
    }
    Ok(())
}

/// A line with a remark beside it, after a gap, and the lines below it. Returns `Err` if memory runs out.
pub(crate) fn remarked<A: Allocator>(
    mut line: Vec<u8, A>,
    gap: &[u8],
    remark: Remark<Vec<u8, A>>,
) -> Result<Vec<u8, A>, AllocError>
    ensures { IfOk result (λ text. text.items ≡ remarked_text line.items gap.now remark.beside.items remark.below.items) }
{
    push_beside(&mut line, gap, remark.beside.as_slice())?;
    line.push(b'\n')?;
    push_bars(&mut line, remark.below.as_slice())?;
    Ok(line)
}
