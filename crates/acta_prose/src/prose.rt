//! A text that is built piece by piece. It records whether memory ran out, so that building a sentence needs no early return
//! at each piece.

ghost use Rattle.std.specs.Prelude.{◌≡◌, IfOk};

use acta_io::Report;
use std::alloc::{AllocError, Allocator};
use std::fmt::Display;

/// A text so far.
#[derive(Drop)]
pub struct Prose<A: Allocator> {
    text: String<A>,
    has_failed: bool,
}

impl<A: Allocator> Prose<A> {
    /// The empty text.
    pub fn new(alloc: A) -> Prose<A> {
        Prose {
            text: String::new(alloc),
            has_failed: false,
        }
    }

    /// Adds a piece to the text.
    pub fn put<D: Display + Drop>(mut self, piece: D) -> Prose<A> {
        if !self.has_failed {
            self.has_failed = self.text.write(piece).is_err();
        }
        self
    }

    /// Adds this many spaces.
    pub fn pad(mut self, count: usize) -> Prose<A> {
        for _ in 0..count {
            self = self.put(' ');
        }
        self
    }

    /// Adds a text that was built separately.
    pub fn add(self, other: Prose<A>) -> Prose<A> {
        let (text, has_failed) = other.parts();
        let prose = self.put(text.as_str());
        if has_failed { prose.fail() } else { prose }
    }

    /// Records that memory ran out.
    pub fn fail(mut self) -> Prose<A> {
        self.has_failed = true;
        self
    }

    /// Whether the text is empty.
    pub fn is_empty(&self) -> bool {
        self.text.is_empty()
    }

    /// The text, and whether memory ran out for a piece of it.
    pub fn parts(self) -> (String<A>, bool) {
        let Prose { text, has_failed } = self;
        (text, has_failed)
    }

    /// The text. Returns `Err` if memory ran out for a piece of it.
    pub fn done(self) -> Result<String<A>, AllocError> {
        let Prose { text, has_failed } = self;
        if has_failed {
            Err(AllocError)
        } else {
            Ok(text)
        }
    }
}

/// The text as a report that refuses the input or not.
pub fn report_of<A: Allocator>(prose: Prose<A>, is_refused: bool) -> Result<Report<A>, AllocError>
    ensures { IfOk result (λ report. report.is_refused ≡ is_refused) }
{
    Ok(Report {
        text: prose.done()?.into_bytes(),
        is_refused,
    })
}

/// Adds pieces to a text, in order: `put!(prose; "edge ", number)`.
#[macro_export]
macro_rules! put {
    ($prose:expr; $($piece:expr),+) => {
        $prose $(.put($piece))+
    };
}
