//! The tokens of a condition: its words, split at the signs. `x=1` is one word and three tokens.

use crate::fault::{ConditionFault, Expected};
use std::alloc::{AllocError, Allocator};

// The sign between an object or a line and its value.
const SIGN: &[u8] = b"=";

/// A token.
#[derive(Clone, Copy)]
pub(crate) struct Token<'a> {
    /// The position of its word among the words, from 0.
    pub word: usize,
    pub text: &'a [u8],
}

impl<'a> Token<'a> {
    /// Whether the token is the sign between an object or a line and its value.
    pub(crate) fn is_sign(&self) -> bool {
        self.text == SIGN
    }

    /// The fault that something else is expected at this token.
    pub(crate) fn fault(&self, expected: Expected) -> ConditionFault {
        ConditionFault {
            word: self.word,
            expected,
        }
    }
}

// Adds the tokens of a word.
fn push_tokens<'a, A: Allocator>(
    tokens: &mut Vec<Token<'a>, A>,
    word: usize,
    text: &'a [u8],
) -> Result<(), AllocError> {
    for (place, part) in text.split(|byte| *byte == b'=').enumerate() {
        if place > 0 {
            tokens.push(Token { word, text: SIGN })?;
        }
        if !part.is_empty() {
            tokens.push(Token { word, text: part })?;
        }
    }
    Ok(())
}

/// The tokens of the words.
pub(crate) fn tokens_of<'a, A: Allocator + Copy>(
    alloc: A,
    words: &[&'a [u8]],
) -> Result<Vec<Token<'a>, A>, AllocError> {
    let mut tokens = Vec::new(alloc);
    for (place, word) in words.iter().enumerate() {
        push_tokens(&mut tokens, place, word)?;
    }
    Ok(tokens)
}

/// The tokens still to be read.
#[derive(Clone, Copy)]
pub(crate) struct Rest<'t, 'a> {
    pub tokens: &'t [Token<'a>],
    /// The position of the word after them.
    pub end: usize,
}

impl<'t, 'a> Rest<'t, 'a> {
    /// The first token, and the others.
    pub(crate) fn split(self) -> Option<(Token<'a>, Rest<'t, 'a>)> {
        let [first, others @ ..] = self.tokens else {
            return None;
        };
        Some((
            *first,
            Rest {
                tokens: others,
                end: self.end,
            },
        ))
    }

    /// The tokens after a sign, if the first token is one.
    pub(crate) fn after_sign(self) -> Option<Rest<'t, 'a>> {
        match self.split() {
            Some((first, others)) if first.is_sign() => Some(others),
            _ => None,
        }
    }

    /// The fault that something else is expected at the first token, or at the end if there is none.
    pub(crate) fn fault(self, expected: Expected) -> ConditionFault {
        match self.tokens.first() {
            Some(first) => first.fault(expected),
            None => ConditionFault {
                word: self.end,
                expected,
            },
        }
    }
}
