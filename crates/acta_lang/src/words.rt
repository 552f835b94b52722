//! The words of the language and their values: one table for reading and for printing.

ghost use Rattle.std.specs.Prelude.{◌≡◌, map};
ghost use Rattle.acta_words.specs.Text.{is_word_among};
ghost use Rattle.acta_lang.specs.Places.{meant_words};
ghost use Rattle.acta_lang.specs.Words.{start_words, may_word, may_named, dep_named, scope_word, commit_word, extent_word, scope_named, commit_named, extent_named};

use crate::diagnostic::Expected;
use acta_table::{AtCommit, DEP_WORDS, Dep, EventKind, Extent, Scope};

// The words with which lines begin. Some are used elsewhere too.
pub(crate) const OBJECT: &str = "object";

pub(crate) const CLASS: &str = "class";

pub(crate) const STARTS: &str = "starts";

pub(crate) const MAY: &str = "may";

pub(crate) const SCOPE: &str = "scope";

pub(crate) const POLICY: &str = "policy";

pub(crate) const COMMIT: &str = "commit";

pub(crate) const DELEGATION: &str = "delegation";

pub(crate) const SPAWN: &str = "spawn";

pub(crate) const SPLIT: &str = "split";

pub(crate) const END: &str = "end";

// Other words of lines.
pub(crate) const REGISTER: &str = "register";

pub(crate) const COUNTER: &str = "counter";

pub(crate) const SET: &str = "set";

pub(crate) const BEGIN: &str = "begin";

pub(crate) const SPAWNED: &str = "spawned";

pub(crate) const REFUSE: &str = "refuse";

pub(crate) const DEPEND: &str = "depend";

pub(crate) const STARTER: &str = "starter";

pub(crate) const STARTED: &str = "started";

const JOIN: &str = "join";

const DELEGATE: &str = "delegate";

const FORM: &str = "form";

const OPERATE: &str = "operate";

const ABORT: &str = "abort";

const PERMIT: &str = "permit";

const OTHERS: &str = "others";

const NON_ANCESTORS: &str = "nonancestors";

const KEEPS: &str = "keeps";

const TO_PARENT: &str = "toparent";

const WHOLE: &str = "whole";

const ANY: &str = "any";

/// The kinds of event that a class may do, by code.
pub(crate) const MAY_KINDS: [EventKind; 9] = [
    EventKind::Spawn,
    EventKind::Split,
    EventKind::Join,
    EventKind::Delegate,
    EventKind::Form,
    EventKind::Operate,
    EventKind::Commit,
    EventKind::Abort,
    EventKind::Permit,
];

/// Whether the word is one of these.
pub(crate) fn is_among(words: &[&[u8]], word: &[u8]) -> bool
    ensures { result ≡ is_word_among (map (λ word. word.now) words.now) word.now }
{
    words.iter().any(|other| word == *other)
}

/// Whether the word names a way to start.
pub(crate) fn is_start(word: &[u8]) -> bool
    ensures { result ≡ is_word_among start_words word.now }
{
    word == BEGIN.as_bytes() || word == SPAWNED.as_bytes() || word == SPLIT.as_bytes()
}

/// The word of a kind of event.
pub(crate) fn may_word(kind: EventKind) -> &'static str
    ensures { result.now ≡ may_word kind }
{
    match kind {
        EventKind::Begin => BEGIN,
        EventKind::Spawn => SPAWN,
        EventKind::Split => SPLIT,
        EventKind::Join => JOIN,
        EventKind::Delegate => DELEGATE,
        EventKind::Form => FORM,
        EventKind::Operate => OPERATE,
        EventKind::Commit => COMMIT,
        EventKind::Abort => ABORT,
        EventKind::Permit => PERMIT,
    }
}

/// The kind of event that a class may do, by its word.
pub(crate) fn may_named(word: &[u8]) -> Option<EventKind>
    ensures { result ≡ may_named word.now }
{
    MAY_KINDS
        .iter()
        .copied()
        .find(|kind| word == may_word(*kind).as_bytes())
}

/// The kind of dependency that a word names.
pub(crate) fn dep_named(word: &[u8]) -> Option<Dep>
    ensures { result ≡ dep_named word.now }
{
    Dep::ALL
        .iter()
        .copied()
        .find(|kind| word == kind.word().as_bytes())
}

/// The word of a scope.
pub(crate) fn scope_word(scope: Scope) -> &'static str
    ensures { result.now ≡ scope_word scope }
{
    match scope {
        Scope::Others => OTHERS,
        Scope::NonAncestors => NON_ANCESTORS,
    }
}

/// The scope that a word names.
pub(crate) fn scope_named(word: &[u8]) -> Option<Scope>
    ensures { result ≡ scope_named word.now }
{
    [Scope::Others, Scope::NonAncestors]
        .iter()
        .copied()
        .find(|scope| word == scope_word(*scope).as_bytes())
}

/// The word of what a commit does.
pub(crate) fn commit_word(at_commit: AtCommit) -> &'static str
    ensures { result.now ≡ commit_word at_commit }
{
    match at_commit {
        AtCommit::Keeps => KEEPS,
        AtCommit::ToParent => TO_PARENT,
    }
}

/// What a commit does, by its word.
pub(crate) fn commit_named(word: &[u8]) -> Option<AtCommit>
    ensures { result ≡ commit_named word.now }
{
    [AtCommit::Keeps, AtCommit::ToParent]
        .iter()
        .copied()
        .find(|at_commit| word == commit_word(*at_commit).as_bytes())
}

/// The word of how much a delegation transfers.
pub(crate) fn extent_word(extent: Extent) -> &'static str
    ensures { result.now ≡ extent_word extent }
{
    match extent {
        Extent::Whole => WHOLE,
        Extent::Any => ANY,
    }
}

/// How much a delegation transfers, by its word.
pub(crate) fn extent_named(word: &[u8]) -> Option<Extent>
    ensures { result ≡ extent_named word.now }
{
    [Extent::Whole, Extent::Any]
        .iter()
        .copied()
        .find(|extent| word == extent_word(*extent).as_bytes())
}

// The words with which lines begin.
const FIRST_WORDS: [&str; 11] = [
    OBJECT, CLASS, STARTS, MAY, SCOPE, POLICY, COMMIT, DELEGATION, SPAWN, SPLIT, END,
];

// The words of the kinds of event that a class may do, by code.
const MAY_WORDS: [&str; 9] = [
    SPAWN, SPLIT, JOIN, DELEGATE, FORM, OPERATE, COMMIT, ABORT, PERMIT,
];

/// The words of the language that are allowed where this is expected.
pub(crate) fn meant_words(expected: Expected) -> &'static [&'static str]
    ensures { map (λ word. word.now) result.now ≡ meant_words expected }
{
    match expected {
        Expected::FirstWord => &FIRST_WORDS,
        Expected::ObjectKind => &[REGISTER, COUNTER, SET],
        Expected::Starts => &[BEGIN, SPAWNED, SPLIT],
        Expected::May => &MAY_WORDS,
        Expected::Scope => &[OTHERS, NON_ANCESTORS],
        Expected::Policy => &[REFUSE, DEPEND],
        Expected::Commit => &[KEEPS, TO_PARENT],
        Expected::Delegation => &[WHOLE, ANY],
        Expected::SpawnEnd | Expected::SplitEnd => &[STARTER, STARTED],
        Expected::Kinds | Expected::SpawnKind | Expected::SplitKind => &DEP_WORDS,
        _ => &[],
    }
}
