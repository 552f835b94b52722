//! The words of returns.

ghost use Rattle.std.specs.Prelude.{◌≡◌, ◌++◌, ◌∷◌, map, ok_or, OnOk};
ghost use Rattle.acta_script.specs.declared.fault.LineFault.TheVariants.{Number};
ghost use Rattle.acta_script.specs.Reading.{return_named, parse_return};
ghost use Rattle.acta_script.specs.Writing.{return_word};

use crate::fault::LineFault;
use acta_table::Ret;
use acta_words::{push_integer, push_word, read_i64};
use std::alloc::{AllocError, Allocator};

/// The words of returns that are not numbers: done, yes and no.
pub const RETURN_WORDS: [&str; 3] = [DONE, YES, NO];

const DONE: &str = "done";

const YES: &str = "yes";

const NO: &str = "no";

// The return of this word.
fn return_named(word: &[u8]) -> Option<Ret>
    ensures { result ≡ return_named word.now }
{
    if word == DONE.as_bytes() {
        Some(Ret::Done)
    } else if word == YES.as_bytes() {
        Some(Ret::Flag(true))
    } else if word == NO.as_bytes() {
        Some(Ret::Flag(false))
    } else {
        read_i64(word).map(Ret::Value)
    }
}

/// The return of this word.
pub(crate) fn parse_return_word(word: &[u8]) -> Result<Ret, LineFault>
    ensures { result ≡ ok_or (return_named word.now) Number }
{
    return_named(word).ok_or(LineFault::Number)
}

/// The return, from the words after a `=`.
#[tactic(auto, unfolding(crate::specs::Reading::parse_return))]
pub fn parse_return(words: &[&[u8]]) -> Result<Ret, LineFault>
    ensures { result ≡ parse_return (map (λ word. word.now) words.now) }
{
    match words {
        [word] => parse_return_word(word),
        _ => Err(LineFault::Arity),
    }
}

/// Writes a space and the word of the return.
pub fn push_return<A: Allocator>(line: &mut Vec<u8, A>, ret: Ret) -> Result<(), AllocError>
    ensures { OnOk result (line.new.items ≡ line.old.items ++ 32 ∷ return_word ret) }
{
    match ret {
        Ret::Done => push_word(line, DONE.as_bytes()),
        Ret::Value(value) => push_integer(line, value),
        Ret::Flag(true) => push_word(line, YES.as_bytes()),
        Ret::Flag(false) => push_word(line, NO.as_bytes()),
    }
}
