//! Describes a faulty text of a model: where the fault is, the wrong word, what a good text has there, and the word that was
//! perhaps meant.

use acta_lang::{ClassLines, Expected, PartLines, TextDiagnostic, diagnose};
use acta_machine::Handle;
use acta_prose::{COMMENT, Prose, column_of_missing, name_text, put, put_hint, put_shown};
use acta_script::{EVENT_KINDS, event_word};
use acta_words::{Lines, Span, word_span, words_of};

// A faulty line, its number of words, the word at fault, if there is one, and the diagnostic.
#[derive(Drop)]
struct BadText<'a, A: Handle> {
    alloc: A,
    bytes: &'a [u8],
    words: usize,
    word: Option<Span>,
    found: TextDiagnostic<'a>,
}

const OBJECT_FORMS: &str =
    "`object NAME register INT`, `object NAME counter INT` or `object NAME set`";

const SPAWN_FORMS: &str = "`spawn starter KIND started` or `spawn started KIND starter`";

const SPLIT_FORMS: &str = "`split starter KIND started` or `split started KIND starter`";

// Whether a line of an event begins with the word.
fn is_event_word(word: &[u8]) -> bool {
    EVENT_KINDS
        .iter()
        .any(|kind| event_word(*kind).as_bytes() == word)
}

// The advice on a first word that is a known mistake.
fn first_word_advice(expected: Expected, word: &[u8]) -> Option<&'static str> {
    if !matches!(expected, Expected::FirstWord) {
        None
    } else if word.starts_with(b"//") {
        Some(COMMENT)
    } else if is_event_word(word) {
        Some("\nthis is an event; the command names the file of a model, and the input has events")
    } else {
        None
    }
}

// What is expected in the place of a word.
fn expected_text(expected: Expected) -> &'static str {
    match expected {
        Expected::FirstWord => {
            "a line that begins with object, class, starts, may, scope, policy, commit, delegation, spawn, split or end"
        }
        Expected::ObjectKind => "a kind of object: register, counter or set",
        Expected::Object => OBJECT_FORMS,
        Expected::Class => "`class NAME`",
        Expected::Starts => "`starts [begin|spawned|split]...`",
        Expected::May => { "`may [spawn|split|join|delegate|form|operate|commit|abort|permit]...`" }
        Expected::Scope => "`scope others|nonancestors`",
        Expected::Policy => "`policy refuse`, or `policy depend` with kinds after it",
        Expected::Kinds => "kinds of dependency: CD, AD, WD or TD",
        Expected::Commit => "`commit keeps|toparent`",
        Expected::Delegation => "`delegation whole|any`",
        Expected::End => "`end`",
        Expected::SpawnEnd | Expected::SpawnKind | Expected::SpawnOther => SPAWN_FORMS,
        Expected::SplitEnd | Expected::SplitKind | Expected::SplitOther => SPLIT_FORMS,
        Expected::Name => {
            "a name: 1 to 32 bytes, a letter first, then letters, digits or underscores"
        }
        Expected::Number => "a first value: a whole number from -2147483648 to 2147483647",
        Expected::Fewer => "at most 256 objects and 16 classes",
        Expected::StartKind => "a kind that limits no begin: CD, SCD, AD, WD, TD, ED or CMD",
        Expected::PolicyKinds => { "at least one kind after `depend`, and only CD, AD, WD or TD" }
        _ => "",
    }
}

impl<'a, A: Handle> BadText<'a, A> {
    // The bytes of the word at fault.
    fn word_text(&self) -> &'a [u8] {
        let word = match self.word {
            Some(span) => self.bytes.get(span.from..span.to),
            None => None,
        };
        word.unwrap_or(b"".as_slice())
    }

    // Adds the column of the word at fault, or the column after the last word.
    fn put_column(&self, prose: Prose<A>) -> Prose<A> {
        let column = match self.word {
            Some(span) => span.from.saturating_add(1),
            None => column_of_missing(self.bytes, self.words),
        };
        put!(prose; ", column ", column)
    }

    // Adds the column and the text of the word at fault, up to the end of the line.
    fn put_named(&self, prose: Prose<A>) -> Prose<A> {
        put_shown(self.put_column(prose).put(": `"), self.word_text()).put("`\n")
    }

    // Adds the word at fault, what is expected in its place, and a hint.
    fn put_word(&self, prose: Prose<A>) -> Prose<A> {
        let expected = self.found.expected;
        let prose = self.put_column(prose);
        if self.word.is_none() {
            return put!(prose; ", where a word is missing\nexpected ", expected_text(expected));
        }
        let word = self.word_text();
        let prose = put_shown(prose.put(": `"), word);
        let prose = put!(prose; "`\nexpected ", expected_text(expected));
        match first_word_advice(expected, word) {
            Some(advice) => prose.put(advice),
            None => put_hint(prose, self.alloc, word, expected.words()),
        }
    }

    // Adds the byte at this offset, which no text may have.
    fn put_byte(&self, prose: Prose<A>, offset: usize) -> Prose<A> {
        let next = offset.saturating_add(1);
        let prose = put!(prose; ", column ", next);
        match self.bytes.get(offset).copied().unwrap_or(0) {
            b'\r' if next == self.bytes.len() => prose.put(
                ": \\r\nthe line ends in CR LF; here a line ends in LF alone, and a text has no CR",
            ),
            byte => prose.put(format_args!(
                ": the byte {byte:02x}, in hexadecimal digits\nexpected tabs and the characters of ASCII from the space to `~`, in a comment too"
            )),
        }
    }

    // Adds the earlier line that declares the name.
    fn put_declared(&self, prose: Prose<A>, what: &str) -> Prose<A> {
        let line = self.found.earlier.unwrap_or(0);
        let prose = put!(self.put_named(prose); "line ", line, " declares the ", what, " `");
        put_shown(prose, self.word_text()).put("` already")
    }

    // Adds that no class is open, for a line of a class.
    fn put_outside(&self, prose: Prose<A>) -> Prose<A> {
        let prose = self.put_named(prose).put("no class is open here: a `");
        let prose = put_shown(prose, self.word_text());
        prose.put("` belongs between a `class NAME` and its `end`")
    }

    // Adds a fault that involves the open class.
    fn put_in_class(&self, prose: Prose<A>, class: ClassLines<'a>) -> Prose<A> {
        let name = name_text(class.name);
        match self.found.expected {
            Expected::Once => {
                let line = self.found.earlier.unwrap_or(0);
                let prose = put!(self.put_named(prose); "class `", name, "` has its `");
                put!(put_shown(prose, self.word_text()); "` already, at line ", line)
            }
            Expected::Ended => {
                let prose = put!(self.put_named(prose); "class `", name, "`, which begins at line ",
                    class.line, ", is open: its `end` must come before the next `");
                put_shown(prose, self.word_text()).put("`")
            }
            Expected::AllParts => {
                let prose =
                    put!(self.put_column(prose); "\nclass `", name, "`, which begins at line ",
                    class.line, ", lacks ");
                put_lacking(prose, class.parts).put(
                    "\nexpected a line of each of `starts`, `may`, `scope`, `policy`, `commit` and `delegation` before its `end`",
                )
            }
            Expected::Parents => {
                let commit = class.parts.commit.unwrap_or(0);
                let starts = class.parts.starts.unwrap_or(0);
                let prose = put_shown(self.put_column(prose).put("\nclass `"), class.name);
                put!(prose; "` has `commit toparent` (line ", commit, "), and its `starts` (line ",
                    starts,
                    ") allows a begin or a split, by which a transaction has no parent\nexpected `starts spawned`, or `commit keeps`")
            }
            _ => {
                let prose = self.put_column(prose).put(", the last line\nclass `");
                put_shown(prose, class.name).put("` is open: its `end` is missing")
            }
        }
    }

    // Adds the description of the line's fault.
    fn put_found(&self, prose: Prose<A>) -> Prose<A> {
        match (self.found.expected, self.found.class) {
            (Expected::Printable(offset), _) => self.put_byte(prose, offset),
            (Expected::NewObject, _) => self.put_declared(prose, "object"),
            (Expected::NewClass, _) => self.put_declared(prose, "class"),
            (Expected::Outside, _) => self.put_outside(prose),
            (Expected::SomeClass, _) => self.put_column(prose).put(
                "\nthe text has no class\nexpected at least one, from `class NAME` to its `end`",
            ),
            (
                Expected::Once
                | Expected::Ended
                | Expected::AllParts
                | Expected::Parents
                | Expected::ClassEnd,
                Some(class),
            ) => self.put_in_class(prose, class),
            _ => self.put_word(prose),
        }
    }
}

// Adds the parts of a class that have no line.
fn put_lacking<A: Handle>(mut prose: Prose<A>, parts: PartLines) -> Prose<A> {
    let mut is_first = true;
    for (word, line) in [
        ("starts", parts.starts),
        ("may", parts.may),
        ("scope", parts.scope),
        ("policy", parts.policy),
        ("commit", parts.commit),
        ("delegation", parts.delegation),
    ] {
        if line.is_none() {
            prose = put!(prose; if is_first { "`" } else { ", `" }, word, "`");
            is_first = false;
        }
    }
    prose
}

/// Adds where and what is wrong with the text.
pub fn put_text_fault<A: Handle>(prose: Prose<A>, alloc: A, text: &[u8]) -> Prose<A> {
    let found = match diagnose(alloc, text) {
        Ok(Some(found)) => found,
        Ok(None) => return prose,
        Err(_) => return prose.fail(),
    };
    let bytes = Lines::of(text)
        .nth(found.line.saturating_sub(1))
        .unwrap_or(b"".as_slice());
    let words = match words_of(alloc, bytes) {
        Ok(words) => words.len(),
        Err(_) => return prose.fail(),
    };
    let word = match found.place {
        Some(place) => word_span(bytes, place),
        None => None,
    };
    let bad = BadText {
        alloc,
        bytes,
        words,
        word,
        found,
    };
    bad.put_found(put!(prose; ", line ", found.line))
}
