//! Where a text is wrong: the line, its code, the word at fault, what is expected in its place, and the earlier lines
//! involved.

ghost use Rattle.std.specs.Prelude.{◌≡◌, map};
ghost use Rattle.acta_lang.specs.Diagnostics.{asm_error_of};
ghost use Rattle.acta_lang.specs.Places.{meant_words};
ghost use Rattle.acta_lang.specs.declared.diagnostic.ReadError.TheVariants.{Memory};

use crate::fault::{AsmError, AsmFault, Code};
use crate::parts::PartLines;
use crate::words::meant_words;
use std::alloc::{AllocError, AllocFailed};

/// What is expected in the place of the word at fault.
#[derive(Clone, Copy, PartialEq, Eq, Debug)]
pub enum Expected {
    /// A tab, or a character from the space to the tilde, in place of the byte at this offset of the line, from 0.
    Printable(usize),
    /// The first word of a line.
    FirstWord,
    /// A kind of object.
    ObjectKind,
    /// The words of a line of an object.
    Object,
    /// The words of a line that begins a class.
    Class,
    /// The ways in which transactions start, after `starts`.
    Starts,
    /// The kinds of event, after `may`.
    May,
    /// The scope, after `scope`.
    Scope,
    /// The words of a line of a policy.
    Policy,
    /// Kinds of dependency, after `policy depend`.
    Kinds,
    /// What a commit does, after `commit`.
    Commit,
    /// How much a delegation transfers, after `delegation`.
    Delegation,
    /// Nothing more, after `end`.
    End,
    /// `starter` or `started`, after `spawn`.
    SpawnEnd,
    /// A kind of dependency, in a line of an edge at a spawn.
    SpawnKind,
    /// The other of `starter` and `started`, which ends a line of an edge at a spawn.
    SpawnOther,
    /// `starter` or `started`, after `split`.
    SplitEnd,
    /// A kind of dependency, in a line of an edge at a split.
    SplitKind,
    /// The other of `starter` and `started`, which ends a line of an edge at a split.
    SplitOther,
    /// A word that can be a name.
    Name,
    /// A name that no object has.
    NewObject,
    /// A name that no class has.
    NewClass,
    /// A line that is allowed outside a class: no class is open.
    Outside,
    /// The end of the open class, before this line.
    Ended,
    /// A line of a part that the class does not have yet.
    Once,
    /// A whole number of 32 bits, with its sign.
    Number,
    /// No more objects, or no more classes.
    Fewer,
    /// The end of the open class.
    ClassEnd,
    /// A class.
    SomeClass,
    /// The parts that the class lacks, of its six.
    AllParts,
    /// A kind of dependency other than a begin kind.
    StartKind,
    /// A parent for every transaction of a class that commits to parents.
    Parents,
    /// At least one kind, and only kinds that a policy may form.
    PolicyKinds,
}

impl Expected {
    /// The words of the language that are allowed in the place of the word at fault, if the place takes only such words and
    /// the word is none of them; otherwise empty.
    pub fn words(self) -> &'static [&'static str]
        ensures { map (λ word. word.now) result.now ≡ meant_words self }
    {
        meant_words(self)
    }
}

/// An open class and its lines so far.
#[derive(Clone, Copy, PartialEq, Eq, Debug)]
pub struct ClassLines<'a> {
    /// The name of the class, as written in the text.
    pub name: &'a [u8],
    /// The line that begins the class, from 1.
    pub line: usize,
    /// The lines of its parts.
    pub parts: PartLines,
}

/// The first fault of a text: where it is, what is expected there, and the earlier lines involved.
#[derive(Clone, Copy, PartialEq, Eq, Debug)]
pub struct TextDiagnostic<'a> {
    /// The line, from 1, as `assemble` returns it.
    pub line: usize,
    /// The code, as `assemble` returns it.
    pub code: Code,
    /// The index of the word at fault among the words of the line, from 0. `None` if the line has no such word, or if the
    /// fault is a byte.
    pub place: Option<usize>,
    /// What is expected in the place of that word.
    pub expected: Expected,
    /// For `DuplicateName` the earlier line that declares the name; for `WrongPlace` the earlier line with this part of the
    /// class, if there is one; otherwise `None`.
    pub earlier: Option<usize>,
    /// The class that is open before the line; for `MissingEnd` the class that is open after it.
    pub class: Option<ClassLines<'a>>,
}

/// Why reading gave no model.
#[derive(Debug, Drop)]
pub(crate) enum ReadError<'a> {
    /// Memory ran out.
    Memory,
    /// A line of the text is faulty.
    Fault(TextDiagnostic<'a>),
}

impl<'a> From<AllocError> for ReadError<'a> {
    ghost from_gives = { λ _ e. e ≡ Memory };

    fn from(_e: AllocError) -> ReadError<'a> {
        ReadError::Memory
    }
}

impl<'a, T: Drop> From<AllocFailed<T>> for ReadError<'a> {
    ghost from_gives = { λ _ e. e ≡ Memory };

    fn from(_e: AllocFailed<T>) -> ReadError<'a> {
        ReadError::Memory
    }
}

impl<'a> From<ReadError<'a>> for AsmError {
    ghost from_gives = { λ e r. r ≡ asm_error_of e };

    fn from(e: ReadError<'a>) -> AsmError {
        match e {
            ReadError::Memory => AsmError::Memory,
            ReadError::Fault(found) => AsmError::Fault(AsmFault {
                line: found.line,
                code: found.code,
            }),
        }
    }
}
