//! Programs, with their lines in the input.

use acta_ends::{Condition, condition_text};
use acta_explore::{Plan, Step};
use acta_io::NonBlankLine;
use acta_machine::Handle;
use acta_prose::{Prose, name_text, put};
use acta_script::ProgramLine;
use acta_table::Model;
use acta_words::words_of;

/// Programs on a model.
#[derive(Drop)]
pub struct Programs<'a, A: Handle> {
    pub alloc: A,
    pub model: &'a Model<A>,
    pub lines: &'a [ProgramLine<A>],
    /// The number of each line in the input.
    pub numbers: &'a [usize],
    /// Each line as written in the input.
    pub texts: &'a [NonBlankLine<'a>],
    pub plan: &'a Plan<'a, A>,
}

impl<'a, A: Handle> Programs<'a, A> {
    /// The number in the input of the line at this position.
    pub(crate) fn number(&self, line: usize) -> usize {
        match self.numbers.get(line) {
            Some(number) => *number,
            None => 0,
        }
    }

    /// How many alternatives the line has.
    pub(crate) fn alternatives(&self, line: usize) -> usize {
        match self.lines.get(line) {
            Some(line) => line.alternatives.as_slice().len(),
            None => 0,
        }
    }

    /// Adds the alternatives of the line as written in the input, with single spaces.
    pub(crate) fn put_line(&self, mut prose: Prose<A>, line: usize) -> Prose<A> {
        for alternative in 0..self.alternatives(line) {
            prose = prose.put(if alternative == 0 { "" } else { " | " });
            prose = self.put_alternative(prose, line, alternative);
        }
        prose
    }

    /// Adds an alternative of the line, from 0, as written in the input, with single spaces.
    pub(crate) fn put_alternative(
        &self,
        mut prose: Prose<A>,
        line: usize,
        alternative: usize,
    ) -> Prose<A> {
        let Some(text) = self.texts.get(line) else {
            return prose;
        };
        let Ok(words) = words_of(self.alloc, text.bytes) else {
            return prose.fail();
        };
        let mut place = 0usize;
        let mut is_first = true;
        // (the first word is the seat)
        for word in words.iter().skip(1) {
            if *word == b"|".as_slice() {
                place = place.saturating_add(1);
            } else if place == alternative {
                prose = put!(prose; if is_first { "" } else { " " }, name_text(word));
                is_first = false;
            }
        }
        prose
    }

    /// Adds the lines that steps did, each after a space, with the alternative if the line has several.
    pub(crate) fn put_order(&self, mut prose: Prose<A>, steps: &[Step]) -> Prose<A> {
        for step in steps {
            prose = put!(prose; " ", self.number(step.line));
            if self.alternatives(step.line) > 1 {
                prose = put!(prose; ".", step.alternative.saturating_add(1));
            }
        }
        prose
    }

    /// Adds a condition in the form in which it is read.
    pub(crate) fn put_condition(&self, prose: Prose<A>, condition: &Condition<A>) -> Prose<A> {
        match condition_text(self.alloc, self.model, self.numbers, condition) {
            Ok(text) => prose.put(name_text(text.as_slice())),
            Err(_) => prose.fail(),
        }
    }
}
