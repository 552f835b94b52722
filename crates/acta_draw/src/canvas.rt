//! A line of characters on which marks and ties are put, in colours or without.

use acta_prose::Prose;
use itoa::Buffer;
use std::alloc::{AllocError, Allocator};

/// The colour of a character.
#[derive(Clone, Copy, PartialEq, Eq, Debug)]
pub enum Ink {
    Plain,
    Faint,
    Good,
    Bad,
    Tie,
    Edge,
}

impl Ink {
    /// What turns a terminal to the colour.
    pub fn escape(self) -> &'static str {
        match self {
            Ink::Plain => "\u{1b}[0m",
            Ink::Faint => "\u{1b}[2m",
            Ink::Good => "\u{1b}[32m",
            Ink::Bad => "\u{1b}[1;31m",
            Ink::Tie => "\u{1b}[36m",
            Ink::Edge => "\u{1b}[33m",
        }
    }
}

// A character, and its colour.
#[derive(Clone, Copy)]
struct Cell {
    glyph: char,
    ink: Ink,
}

const BLANK: Cell = Cell {
    glyph: ' ',
    ink: Ink::Plain,
};

/// A line of so many characters.
#[derive(Drop)]
pub struct Canvas<A: Allocator> {
    cells: Vec<Cell, A>,
}

impl<A: Allocator> Canvas<A> {
    /// A blank line of so many characters.
    pub fn new(alloc: A, width: usize) -> Result<Canvas<A>, AllocError> {
        let blank = BLANK;
        Ok(Canvas {
            cells: vec![in alloc; blank; width]?,
        })
    }

    /// Makes it blank again.
    pub fn clear(&mut self) {
        for cell in self.cells.iter_mut() {
            *cell = BLANK;
        }
    }

    /// Puts a character at the column. One outside of the line is not put.
    pub fn put(&mut self, column: usize, glyph: char, ink: Ink) {
        if let Some(cell) = self.cells.get_mut(column) {
            *cell = Cell { glyph, ink };
        }
    }

    /// Puts a number from the column on, as far as the line goes.
    pub fn put_number(&mut self, column: usize, number: u32, ink: Ink) {
        for (place, digit) in Buffer::new().format(number).char_indices() {
            self.put(column.saturating_add(place), digit, ink);
        }
    }

    /// Puts the character where the line is blank, from a column to before another.
    pub fn fill(&mut self, from: usize, to: usize, glyph: char, ink: Ink) {
        let count = to.saturating_sub(from);
        for cell in self.cells.iter_mut().skip(from).take(count) {
            if cell.glyph == ' ' {
                *cell = Cell { glyph, ink };
            }
        }
    }

    /// Adds the line to a text, in colours where it is to be coloured.
    pub fn put_to<B: Allocator>(&self, mut text: Prose<B>, is_colored: bool) -> Prose<B> {
        let mut ink = Ink::Plain;
        for cell in self.cells.iter() {
            if is_colored && cell.ink != ink {
                text = text.put(Ink::Plain.escape());
                if cell.ink != Ink::Plain {
                    text = text.put(cell.ink.escape());
                }
                ink = cell.ink;
            }
            text = text.put(cell.glyph);
        }
        if ink != Ink::Plain {
            text = text.put(Ink::Plain.escape());
        }
        text
    }
}
