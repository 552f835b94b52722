//! Splits a text into lines, a line into words, and reads and writes decimal numbers. Everything is bytes. This crate
//! knows nothing of models.
//!
//! A call that allocates returns `Err` if memory runs out.
#![tactic(auto)]

mod few;
mod lines;
mod numerals;
mod spans;
mod words;
mod writing;

pub use few::{FewWords, few_words};
pub use lines::Lines;
pub use numerals::{read_i32, read_i64, read_u16, read_u32};
pub use spans::{Span, word_span};
pub use words::{has_words, words_of};
pub use writing::{push_integer, push_line, push_natural, push_word};
