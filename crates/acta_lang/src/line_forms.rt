//! The form of a line, by its words.

ghost use Rattle.std.specs.Prelude.{◌≡◌, map};
ghost use Rattle.acta_lang.specs.Forms.{form_in_class, form_of, object_form, class_form, spawn_form, split_form, end_form};

use crate::class_forms::{
    commit_form, delegation_form, may_form, parse_edge, scope_form, starts_form,
};
use crate::form::Form;
use crate::policy_forms::policy_form;
use crate::words::{
    CLASS, COMMIT, COUNTER, DELEGATION, END, MAY, OBJECT, POLICY, REGISTER, SCOPE, SET, SPAWN,
    SPLIT, STARTS,
};

// NAME register INT, NAME counter INT, NAME set
fn object_form(words: &[&[u8]]) -> Form
    ensures { result ≡ object_form (map (λ word. word.now) words.now) }
{
    match words {
        [_, kind] => {
            if *kind == SET.as_bytes() {
                Form::Elements
            } else {
                Form::Unknown
            }
        }
        [_, kind, _] => {
            if *kind == REGISTER.as_bytes() {
                Form::Register
            } else if *kind == COUNTER.as_bytes() {
                Form::Counter
            } else {
                Form::Unknown
            }
        }
        _ => Form::Unknown,
    }
}

// NAME
fn class_form(words: &[&[u8]]) -> Form
    ensures { result ≡ class_form (map (λ word. word.now) words.now) }
{
    match words {
        [_] => Form::Class,
        _ => Form::Unknown,
    }
}

// spawn starter KIND started, spawn started KIND starter
fn spawn_form(words: &[&[u8]]) -> Form
    ensures { result ≡ spawn_form (map (λ word. word.now) words.now) }
{
    match parse_edge(words) {
        Some(edge) => Form::Spawn(edge),
        None => Form::Unknown,
    }
}

// split starter KIND started, split started KIND starter
fn split_form(words: &[&[u8]]) -> Form
    ensures { result ≡ split_form (map (λ word. word.now) words.now) }
{
    match parse_edge(words) {
        Some(edge) => Form::Split(edge),
        None => Form::Unknown,
    }
}

fn end_form(words: &[&[u8]]) -> Form
    ensures { result ≡ end_form (map (λ word. word.now) words.now) }
{
    if words.is_empty() {
        Form::End
    } else {
        Form::Unknown
    }
}

// The form of a line of a class, by its first word and the words after it.
fn form_in_class(first: &[u8], rest: &[&[u8]]) -> Form
    ensures { result ≡ form_in_class first.now (map (λ word. word.now) rest.now) }
{
    if first == STARTS.as_bytes() {
        starts_form(rest)
    } else if first == MAY.as_bytes() {
        may_form(rest)
    } else if first == SCOPE.as_bytes() {
        scope_form(rest)
    } else if first == POLICY.as_bytes() {
        policy_form(rest)
    } else if first == COMMIT.as_bytes() {
        commit_form(rest)
    } else if first == DELEGATION.as_bytes() {
        delegation_form(rest)
    } else if first == SPAWN.as_bytes() {
        spawn_form(rest)
    } else if first == SPLIT.as_bytes() {
        split_form(rest)
    } else {
        Form::Unknown
    }
}

/// The form of a line of these words. The first word decides what the others must be.
pub(crate) fn form_of(words: &[&[u8]]) -> Form
    ensures { result ≡ form_of (map (λ word. word.now) words.now) }
{
    let [first, rest @ ..] = words else {
        return Form::Blank;
    };
    if *first == OBJECT.as_bytes() {
        object_form(rest)
    } else if *first == CLASS.as_bytes() {
        class_form(rest)
    } else if *first == END.as_bytes() {
        end_form(rest)
    } else {
        form_in_class(first, rest)
    }
}
