//! Where a faulty line is wrong: the index of the word at fault, and what is expected there.

ghost use Rattle.std.specs.Prelude.{◌≡◌, ◌<◌, length, map, not, IfSome};
ghost use Rattle.std.specs.List.{position_from};
ghost use Rattle.acta_lang.specs.Faults.{is_printable};
ghost use Rattle.acta_lang.specs.declared.diagnostic.Expected.TheVariants.{PolicyKinds};
ghost use Rattle.acta_lang.specs.Places.{bad_class_line, bad_edge, bad_object, bad_policy, bad_word_place, is_edge_end, is_object_kind, may_stand, place_if, place_of, policy_place, stray, stray_byte, word_at};
ghost use Rattle.acta_lang.specs.inside.Abstraction.{abstraction};

use crate::codes::is_plain;
use crate::diagnostic::Expected;
use crate::draft::Draft;
use crate::fault::Code;
use crate::form::Form;
use crate::words::{
    CLASS, COMMIT, COUNTER, DELEGATION, DEPEND, END, MAY, OBJECT, POLICY, REFUSE, REGISTER, SCOPE,
    SET, SPAWN, SPLIT, STARTED, STARTER, STARTS, commit_named, dep_named, extent_named, is_start,
    may_named, scope_named,
};
use acta_table::Dep;
use std::alloc::Allocator;

// The word at this place of the line, or the empty word if the line has none there.
fn word_at<'a>(words: &[&'a [u8]], place: usize) -> &'a [u8]
    ensures { result.now ≡ word_at (map (λ word. word.now) words.now) place }
{
    match words.get(place) {
        Some(word) => word,
        None => b"".as_slice(),
    }
}

// The place, if the line has a word there.
fn place_if(words: &[&[u8]], place: usize) -> Option<usize>
    ensures { result ≡ place_if (map (λ word. word.now) words.now) place }
{
    if place < words.len() {
        Some(place)
    } else {
        None
    }
}

// Whether a policy may form edges of the kind that the word names.
fn is_policy_kind(word: &[u8]) -> bool
    ensures { result ≡ may_stand PolicyKinds word.now }
{
    matches!(dep_named(word), Some(Dep::Cd | Dep::Ad | Dep::Wd | Dep::Td))
}

// Whether the word is allowed where this is expected, in lines that take any number of such words.
fn may_stand(expected: Expected, word: &[u8]) -> bool
    ensures { result ≡ may_stand expected word.now }
{
    match expected {
        Expected::Starts => is_start(word),
        Expected::May => may_named(word).is_some(),
        Expected::Scope => scope_named(word).is_some(),
        Expected::Commit => commit_named(word).is_some(),
        Expected::Delegation => extent_named(word).is_some(),
        Expected::Kinds => dep_named(word).is_some(),
        Expected::PolicyKinds => is_policy_kind(word),
        _ => false,
    }
}

// The position of the first of these words that is not allowed where this is expected.
fn first_stray(expected: Expected, words: &[&[u8]]) -> Option<usize>
    ensures first { result ≡ position_from (λ word. not (may_stand expected word.now)) 0 words.now }
    ensures within { IfSome result (λ place. place < length words.now) }
{
    words.iter().position(|word| !may_stand(expected, word))
}

// The place in the line of the first word from place `from` on that is not allowed where this is expected. If all are
// allowed, the missing or surplus word is at place 2.
fn stray(expected: Expected, from: u8, words: &[&[u8]]) -> usize
    ensures { result ≡ stray expected from (map (λ word. word.now) words.now) }
{
    match first_stray(expected, words) {
        Some(place) => usize::from(from) + place,
        None => 2,
    }
}

fn is_object_kind(word: &[u8]) -> bool
    ensures { result ≡ is_object_kind word.now }
{
    word == REGISTER.as_bytes() || word == COUNTER.as_bytes() || word == SET.as_bytes()
}

// The word at fault in an object's line without a form, and what is expected there; `words` are those after `object`.
fn bad_object(words: &[&[u8]]) -> (usize, Expected)
    ensures { result ≡ bad_object (map (λ word. word.now) words.now) }
{
    let [_, kind, ..] = words else {
        return (4, Expected::Object);
    };
    if !is_object_kind(kind) {
        (2, Expected::ObjectKind)
    } else if *kind == SET.as_bytes() {
        (3, Expected::Object)
    } else {
        (4, Expected::Object)
    }
}

// The word at fault in a policy's line without a form, and what is expected there; `words` are those after `policy`.
fn bad_policy(words: &[&[u8]]) -> (usize, Expected)
    ensures { result ≡ bad_policy (map (λ word. word.now) words.now) }
{
    let [word, kinds @ ..] = words else {
        return (1, Expected::Policy);
    };
    if *word == DEPEND.as_bytes() {
        (stray(Expected::Kinds, 2, kinds), Expected::Kinds)
    } else if *word == REFUSE.as_bytes() {
        (2, Expected::Policy)
    } else {
        (1, Expected::Policy)
    }
}

fn is_edge_end(word: &[u8]) -> bool
    ensures { result ≡ is_edge_end word.now }
{
    word == STARTER.as_bytes() || word == STARTED.as_bytes()
}

// The word at fault in an edge's line without a form, and what is expected there. The caller gives the expectations for the
// first end, the kind and the other end, which differ between spawn and split.
fn bad_edge(words: &[&[u8]], end: Expected, kind: Expected, other: Expected) -> (usize, Expected)
    ensures { result ≡ bad_edge end kind other (map (λ word. word.now) words.now) }
{
    let first = word_at(words, 1);
    let last = word_at(words, 3);
    if !is_edge_end(first) {
        (1, end)
    } else if dep_named(word_at(words, 2)).is_none() {
        (2, kind)
    } else if !is_edge_end(last) || first == last {
        (3, other)
    } else {
        (4, other)
    }
}

// The word at fault in a line without a form whose first word takes one word or a list of words, and what is expected there.
fn bad_class_line(first: &[u8], words: &[&[u8]]) -> (usize, Expected)
    ensures { result ≡ bad_class_line first.now (map (λ word. word.now) words.now) }
{
    if first == STARTS.as_bytes() {
        (stray(Expected::Starts, 1, words), Expected::Starts)
    } else if first == MAY.as_bytes() {
        (stray(Expected::May, 1, words), Expected::May)
    } else if first == SCOPE.as_bytes() {
        (stray(Expected::Scope, 1, words), Expected::Scope)
    } else if first == COMMIT.as_bytes() {
        (stray(Expected::Commit, 1, words), Expected::Commit)
    } else if first == DELEGATION.as_bytes() {
        (stray(Expected::Delegation, 1, words), Expected::Delegation)
    } else if first == END.as_bytes() {
        (1, Expected::End)
    } else {
        (0, Expected::FirstWord)
    }
}

// The word at fault in a line without a form, and what is expected there.
fn bad_word(words: &[&[u8]]) -> (usize, Expected)
    ensures { result ≡ bad_word_place (map (λ word. word.now) words.now) }
{
    let [first, rest @ ..] = words else {
        return (0, Expected::FirstWord);
    };
    if *first == OBJECT.as_bytes() {
        bad_object(rest)
    } else if *first == CLASS.as_bytes() {
        (2, Expected::Class)
    } else if *first == POLICY.as_bytes() {
        bad_policy(rest)
    } else if *first == SPAWN.as_bytes() {
        bad_edge(
            words,
            Expected::SpawnEnd,
            Expected::SpawnKind,
            Expected::SpawnOther,
        )
    } else if *first == SPLIT.as_bytes() {
        bad_edge(
            words,
            Expected::SplitEnd,
            Expected::SplitKind,
            Expected::SplitOther,
        )
    } else {
        bad_class_line(first, rest)
    }
}

// In a policy's line, the place of the first kind that a policy may not form; if all are allowed, the place of the missing
// kind.
fn policy_place(words: &[&[u8]]) -> usize
    ensures { result ≡ policy_place (map (λ word. word.now) words.now) }
{
    match words {
        [_, _, kinds @ ..] => stray(Expected::PolicyKinds, 2, kinds),
        _ => 2,
    }
}

// The offset of the first byte that no line may have, if there is one.
fn first_not_plain(line: &[u8]) -> Option<usize>
    ensures { result ≡ position_from (λ b. not (is_printable b)) 0 line.now }
{
    line.iter().position(|b| !is_plain(*b))
}

// The offset of the first byte that no line may have, or 0 if there is none.
fn stray_byte(line: &[u8]) -> usize
    ensures { result ≡ stray_byte line.now }
{
    match first_not_plain(line) {
        Some(place) => place,
        None => 0,
    }
}

/// The place of the word at fault in a line of these words and this form with this code, and what is expected there.
pub(crate) fn place_of<'a, A: Allocator + Copy>(
    draft: &Draft<'a, A>,
    line: &[u8],
    words: &[&[u8]],
    parsed: &Form,
    code: Code,
) -> (Option<usize>, Expected)
    ensures { result ≡ place_of (abstraction draft.now) line.now (map (λ word. word.now) words.now) parsed.now code }
{
    let (place, expected) = match code {
        Code::NotAscii => return (None, Expected::Printable(stray_byte(line))),
        Code::BadWord => bad_word(words),
        Code::BadName => (1, Expected::Name),
        Code::DuplicateName => (
            1,
            if parsed.is_class() {
                Expected::NewClass
            } else {
                Expected::NewObject
            },
        ),
        Code::WrongPlace => (0, draft.wrongly_placed(parsed)),
        Code::BadNumber => (3, Expected::Number),
        Code::TooMany => (0, Expected::Fewer),
        Code::MissingEnd => (0, Expected::ClassEnd),
        Code::MissingPart => (0, draft.lacking()),
        Code::BeginKindAtStart => (2, Expected::StartKind),
        Code::HeirWithoutSpawn => (0, Expected::Parents),
        Code::BadPolicyKind => (policy_place(words), Expected::PolicyKinds),
    };
    (place_if(words, place), expected)
}
