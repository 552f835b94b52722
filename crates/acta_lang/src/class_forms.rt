//! The lines of a class with one setting each: starts, allowed events, scope, commit, delegation, and the edges at a start.

ghost use Rattle.std.specs.Prelude.{◌≡◌, map};
ghost use Rattle.std.specs.List.{list_all};
ghost use Rattle.acta_words.specs.Text.{is_word_among};
ghost use Rattle.acta_lang.specs.Forms.{starts_form, may_form, scope_form, commit_form, delegation_form, dependent_named, parse_edge};
ghost use Rattle.acta_lang.specs.Words.{start_words};

use crate::form::Form;
use crate::words::{
    BEGIN, SPAWNED, SPLIT, STARTED, STARTER, commit_named, dep_named, extent_named, is_among,
    is_start, may_named, scope_named,
};
use acta_table::{Dependent, Kinds, StartEdge, Starts};

fn are_starts(words: &[&[u8]]) -> bool
    ensures { result ≡ list_all (is_word_among start_words) (map (λ word. word.now) words.now) }
{
    words.iter().all(|word| is_start(word))
}

/// `[begin|spawned|split]...`, after `starts`
pub(crate) fn starts_form(words: &[&[u8]]) -> Form
    ensures { result ≡ starts_form (map (λ word. word.now) words.now) }
{
    if !are_starts(words) {
        return Form::Unknown;
    }
    Form::Starts(Starts {
        begin: is_among(words, BEGIN.as_bytes()),
        spawned: is_among(words, SPAWNED.as_bytes()),
        split: is_among(words, SPLIT.as_bytes()),
    })
}

/// `[spawn|split|join|delegate|form|operate|commit|abort|permit]...`, after `may`
pub(crate) fn may_form(words: &[&[u8]]) -> Form
    ensures { result ≡ may_form (map (λ word. word.now) words.now) }
{
    let mut kinds = Kinds::none();
    for word in words {
        let Some(kind) = may_named(word) else {
            return Form::Unknown;
        };
        kinds = kinds.union(Kinds::of(kind));
    }
    Form::May(kinds)
}

/// `others|nonancestors`, after `scope`
pub(crate) fn scope_form(words: &[&[u8]]) -> Form
    ensures { result ≡ scope_form (map (λ word. word.now) words.now) }
{
    let [word] = words else {
        return Form::Unknown;
    };
    match scope_named(word) {
        Some(scope) => Form::Scope(scope),
        None => Form::Unknown,
    }
}

/// `keeps|toparent`, after `commit`
pub(crate) fn commit_form(words: &[&[u8]]) -> Form
    ensures { result ≡ commit_form (map (λ word. word.now) words.now) }
{
    let [word] = words else {
        return Form::Unknown;
    };
    match commit_named(word) {
        Some(at_commit) => Form::Commit(at_commit),
        None => Form::Unknown,
    }
}

/// `whole|any`, after `delegation`
pub(crate) fn delegation_form(words: &[&[u8]]) -> Form
    ensures { result ≡ delegation_form (map (λ word. word.now) words.now) }
{
    let [word] = words else {
        return Form::Unknown;
    };
    match extent_named(word) {
        Some(extent) => Form::Delegation(extent),
        None => Form::Unknown,
    }
}

// The end of the edge that depends: the first of the two words names it.
fn dependent_named(j: &[u8], i: &[u8]) -> Option<Dependent>
    ensures { result ≡ dependent_named j.now i.now }
{
    if j == STARTER.as_bytes() && i == STARTED.as_bytes() {
        Some(Dependent::Starter)
    } else if j == STARTED.as_bytes() && i == STARTER.as_bytes() {
        Some(Dependent::Started)
    } else {
        None
    }
}

/// `starter KIND started`, `started KIND starter`, after `spawn` or `split`
pub(crate) fn parse_edge(words: &[&[u8]]) -> Option<StartEdge>
    ensures { result ≡ parse_edge (map (λ word. word.now) words.now) }
{
    let [j, word, i] = words else {
        return None;
    };
    let kind = dep_named(word)?;
    let dependent = dependent_named(j, i)?;
    Some(StartEdge { kind, dependent })
}
