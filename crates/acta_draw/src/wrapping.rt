//! Texts that fit a width: cut, or split into lines.

use acta_machine::Handle;
use acta_prose::{Prose, put};
use std::alloc::{AllocError, Allocator};
use unicode_width::UnicodeWidthStr;

// What ends a text that was cut.
const MORE: &str = "..";

// The front of a text of so many characters. A word is cut only if it is the first.
fn front_of(text: &str, room: usize) -> &str {
    let end = match text.char_indices().nth(room) {
        Some((end, _)) => end,
        None => return text,
    };
    let front = text.get(..end).unwrap_or("");
    let is_whole = text.get(end..).unwrap_or("").starts_with(' ');
    match front.rfind(' ') {
        Some(space) if !is_whole => front.get(..space).unwrap_or(front),
        _ => front,
    }
}

/// Adds the front of a text, at most so wide. A text that is cut ends in two dots; it is cut between two words, where it has
/// several.
pub fn put_cut<A: Allocator>(prose: Prose<A>, text: &str, width: usize) -> Prose<A> {
    if text.width() <= width {
        return prose.put(text);
    }
    let front = front_of(text, width.saturating_sub(MORE.len()));
    put!(prose; front, MORE)
}

// Lines that grow, each at most so wide.
#[derive(Drop)]
struct Wrapping<A: Handle> {
    alloc: A,
    width: usize,
    lines: Vec<String<A>, A>,
    line: String<A>,
}

impl<A: Handle> Wrapping<A> {
    // Adds a part, in a line of its own where it doesn't fit beside the earlier ones. A part that fits no line is cut.
    fn add(&mut self, part: &str) -> Result<(), AllocError> {
        let cut = put_cut(Prose::new(self.alloc), part, self.width).done()?;
        if !self.line.is_empty() {
            let wide = self
                .line
                .as_str()
                .width()
                .saturating_add(cut.as_str().width());
            if wide.saturating_add(1) > self.width {
                let line = std::mem::replace(&mut self.line, String::new(self.alloc));
                self.lines.push(line)?;
            } else {
                self.line.push(' ')?;
            }
        }
        self.line.push_str(cut.as_str())
    }

    // Adds the words of a text.
    fn add_words(&mut self, text: &str) -> Result<(), AllocError> {
        for word in text.split(' ') {
            self.add(word)?;
        }
        Ok(())
    }

    // Adds a list with a `;` after each of its items but the last. Only an item that fits no line is split.
    fn add_list(&mut self, list: &str) -> Result<(), AllocError> {
        for item in list.split_inclusive(';') {
            let item = item.trim_start();
            if item.width() <= self.width {
                self.add(item)?;
            } else {
                self.add_words(item)?;
            }
        }
        Ok(())
    }
}

/// The text in lines, each at most so wide, split between its words or, if it is a list, between its items. No text has no
/// line.
pub fn wrapped<A: Handle>(
    alloc: A,
    text: &str,
    width: usize,
    is_list: bool,
) -> Result<Vec<String<A>, A>, AllocError> {
    let mut wrapping = Wrapping {
        alloc,
        width,
        lines: Vec::new(alloc),
        line: String::new(alloc),
    };
    if is_list {
        wrapping.add_list(text)?;
    } else {
        wrapping.add_words(text)?;
    }
    let Wrapping {
        mut lines,
        line,
        ..
    } = wrapping;
    if !line.is_empty() {
        lines.push(line)?;
    }
    Ok(lines)
}
