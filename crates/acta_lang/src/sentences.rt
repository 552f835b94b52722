//! The name of each code, and a sentence that explains it.

use crate::fault::Code;
use std::error::Error;
use std::fmt;

impl Code {
    /// The name of the code.
    pub fn name(self) -> &'static str {
        match self {
            Code::NotAscii => "NotAscii",
            Code::BadWord => "BadWord",
            Code::BadName => "BadName",
            Code::DuplicateName => "DuplicateName",
            Code::WrongPlace => "WrongPlace",
            Code::BadNumber => "BadNumber",
            Code::TooMany => "TooMany",
            Code::MissingEnd => "MissingEnd",
            Code::MissingPart => "MissingPart",
            Code::BeginKindAtStart => "BeginKindAtStart",
            Code::HeirWithoutSpawn => "HeirWithoutSpawn",
            Code::BadPolicyKind => "BadPolicyKind",
        }
    }

    /// A sentence that says when a line has the code.
    pub fn sentence(self) -> &'static str {
        match self {
            Code::NotAscii => {
                "A byte, in a comment too, is neither a tab nor a character from the space to the tilde."
            }
            Code::BadWord => "The words fit no form of a line.",
            Code::BadName => {
                "The name isn't 1 to 32 bytes, a letter first, then letters, digits or underscores."
            }
            Code::DuplicateName => {
                "An earlier line gives another object, or another class, this name."
            }
            Code::WrongPlace => {
                "An object or a class is inside a class, another line is outside a class, or the class has this line already."
            }
            Code::BadNumber => {
                "The first value is no whole number from -2,147,483,648 to 2,147,483,647."
            }
            Code::TooMany => "It would be the 257th object, or the 17th class.",
            Code::MissingEnd => "The line is the last, and a class is still open.",
            Code::MissingPart => {
                "An `end` closes a class that lacks one of its six lines, or the text has no class."
            }
            Code::BeginKindAtStart => {
                "An edge at a spawn or a split is of a begin kind: BD, SD, BCD, BAD or WCD."
            }
            Code::HeirWithoutSpawn => {
                "The class has `commit toparent`, and its transactions may start by a begin or a split, so without a parent."
            }
            Code::BadPolicyKind => {
                "A `policy depend` has no kind, or a kind other than CD, AD, WD and TD."
            }
        }
    }
}

impl fmt::Display for Code {
    fn fmt<W: fmt::Write>(&self, f: &mut fmt::Formatter<W>) -> fmt::Result {
        let name = self.name();
        let sentence = self.sentence();
        write!(f, "{name}: {sentence}")
    }
}

impl Error for Code {}
