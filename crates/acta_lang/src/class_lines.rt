//! Writes the lines of a class.

ghost use Rattle.std.specs.Prelude.{◌≡◌, ◌++◌, ◌∷◌, [], map, codes, OnOk};
ghost use Rattle.acta_table.specs.Dependencies.{word_of};
ghost use Rattle.acta_lang.specs.Canonical.{class_words, dep_words, edge_words, may_words, policy_words, starts_words, word_if};
ghost use Rattle.acta_lang.specs.inside.Written.{rest_lines, spaced, start_lines, written};

use crate::words::{
    BEGIN, CLASS, COMMIT, DELEGATION, DEPEND, MAY, MAY_KINDS, POLICY, REFUSE, SCOPE, SPAWN,
    SPAWNED, SPLIT, STARTED, STARTER, STARTS, commit_word, extent_word, may_word, scope_word,
};
use acta_table::{Class, Dep, DepKinds, Dependent, Kinds, Policy, StartEdge, Starts};
use acta_words::push_word;
use std::alloc::{AllocError, Allocator};

// A line of two words.
fn push_pair<A: Allocator>(
    text: &mut Vec<u8, A>,
    first: &[u8],
    second: &[u8],
) -> Result<(), AllocError>
    ensures { OnOk result (text.new.items ≡ text.old.items ++ written ((first.now ∷ second.now ∷ []) ∷ [])) }
{
    text.extend_from_slice(first)?;
    push_word(text, second)?;
    text.push(b'\n')?;
    Ok(())
}

fn push_word_if<A: Allocator>(
    text: &mut Vec<u8, A>,
    is_there: bool,
    word: &[u8],
) -> Result<(), AllocError>
    ensures { OnOk result (text.new.items ≡ text.old.items ++ spaced (word_if is_there word.now)) }
{
    if is_there {
        push_word(text, word)?;
    }
    Ok(())
}

fn push_starts<A: Allocator>(text: &mut Vec<u8, A>, starts: Starts) -> Result<(), AllocError>
    ensures { OnOk result (text.new.items ≡ text.old.items ++ written ((codes "starts" ∷ starts_words starts) ∷ [])) }
{
    text.extend_from_slice(STARTS.as_bytes())?;
    push_word_if(text, starts.begin, BEGIN.as_bytes())?;
    push_word_if(text, starts.spawned, SPAWNED.as_bytes())?;
    push_word_if(text, starts.split, SPLIT.as_bytes())?;
    text.push(b'\n')?;
    Ok(())
}

fn push_may_words<A: Allocator>(text: &mut Vec<u8, A>, kinds: Kinds) -> Result<(), AllocError>
    ensures { OnOk result (text.new.items ≡ text.old.items ++ spaced (may_words kinds)) }
{
    for kind in MAY_KINDS {
        push_word_if(text, kinds.has(kind), may_word(kind).as_bytes())?;
    }
    Ok(())
}

fn push_may<A: Allocator>(text: &mut Vec<u8, A>, kinds: Kinds) -> Result<(), AllocError>
    ensures { OnOk result (text.new.items ≡ text.old.items ++ written ((codes "may" ∷ may_words kinds) ∷ [])) }
{
    text.extend_from_slice(MAY.as_bytes())?;
    push_may_words(text, kinds)?;
    text.push(b'\n')?;
    Ok(())
}

fn push_dep_words<A: Allocator>(text: &mut Vec<u8, A>, kinds: DepKinds) -> Result<(), AllocError>
    ensures { OnOk result (text.new.items ≡ text.old.items ++ spaced (dep_words kinds)) }
{
    for kind in Dep::ALL {
        push_word_if(text, kinds.has(kind), kind.word().as_bytes())?;
    }
    Ok(())
}

fn push_policy_words<A: Allocator>(text: &mut Vec<u8, A>, policy: Policy) -> Result<(), AllocError>
    ensures { OnOk result (text.new.items ≡ text.old.items ++ spaced (policy_words policy)) }
{
    match policy {
        Policy::Refuse => push_word(text, REFUSE.as_bytes())?,
        Policy::Depend(kinds) => {
            push_word(text, DEPEND.as_bytes())?;
            push_dep_words(text, kinds)?;
        }
    }
    Ok(())
}

fn push_policy<A: Allocator>(text: &mut Vec<u8, A>, policy: Policy) -> Result<(), AllocError>
    ensures { OnOk result (text.new.items ≡ text.old.items ++ written ((codes "policy" ∷ policy_words policy) ∷ [])) }
{
    text.extend_from_slice(POLICY.as_bytes())?;
    push_policy_words(text, policy)?;
    text.push(b'\n')?;
    Ok(())
}

// The words of an edge after `spawn` or `split`: the dependent end comes first.
fn push_directed<A: Allocator>(
    text: &mut Vec<u8, A>,
    at: &[u8],
    j: &[u8],
    kind: Dep,
    i: &[u8],
) -> Result<(), AllocError>
    ensures { OnOk result (text.new.items ≡ text.old.items ++ written ((at.now ∷ j.now ∷ word_of kind ∷ i.now ∷ []) ∷ [])) }
{
    text.extend_from_slice(at)?;
    push_word(text, j)?;
    push_word(text, kind.word().as_bytes())?;
    push_word(text, i)?;
    text.push(b'\n')?;
    Ok(())
}

fn push_edge<A: Allocator>(
    text: &mut Vec<u8, A>,
    at: &[u8],
    edge: &StartEdge,
) -> Result<(), AllocError>
    ensures { OnOk result (text.new.items ≡ text.old.items ++ written (edge_words at.now edge.now ∷ [])) }
{
    let starter = STARTER.as_bytes();
    let started = STARTED.as_bytes();
    match edge.dependent {
        Dependent::Starter => push_directed(text, at, starter, edge.kind, started),
        Dependent::Started => push_directed(text, at, started, edge.kind, starter),
    }
}

// The lines of the edges that are formed at a spawn, or at a split.
fn push_edges<A: Allocator>(
    text: &mut Vec<u8, A>,
    at: &[u8],
    edges: &[StartEdge],
) -> Result<(), AllocError>
    ensures { OnOk result (text.new.items ≡ text.old.items ++ written (map (edge_words at.now) edges.now)) }
{
    for edge in edges {
        push_edge(text, at, edge)?;
    }
    Ok(())
}

// The lines from `starts` up to `scope`.
fn push_start<A: Allocator>(text: &mut Vec<u8, A>, class: &Class<A>) -> Result<(), AllocError>
    ensures { OnOk result (text.new.items ≡ text.old.items ++ written (start_lines class.now)) }
{
    push_pair(text, CLASS.as_bytes(), class.name.as_slice())?;
    push_starts(text, class.starts)?;
    push_may(text, class.may)?;
    push_pair(text, SCOPE.as_bytes(), scope_word(class.scope).as_bytes())?;
    Ok(())
}

// The lines from `policy` on.
fn push_rest<A: Allocator>(text: &mut Vec<u8, A>, class: &Class<A>) -> Result<(), AllocError>
    ensures { OnOk result (text.new.items ≡ text.old.items ++ written (rest_lines class.now)) }
{
    push_policy(text, class.policy)?;
    push_pair(
        text,
        COMMIT.as_bytes(),
        commit_word(class.at_commit).as_bytes(),
    )?;
    push_pair(
        text,
        DELEGATION.as_bytes(),
        extent_word(class.extent).as_bytes(),
    )?;
    Ok(())
}

/// Appends the lines of the class to the text.
pub(crate) fn push_class<A: Allocator>(
    text: &mut Vec<u8, A>,
    class: &Class<A>,
) -> Result<(), AllocError>
    ensures { OnOk result (text.new.items ≡ text.old.items ++ written (class_words class.now)) }
{
    push_start(text, class)?;
    push_rest(text, class)?;
    push_edges(text, SPAWN.as_bytes(), class.spawn_edges.as_slice())?;
    push_edges(text, SPLIT.as_bytes(), class.split_edges.as_slice())?;
    text.extend_from_slice(b"end\n".as_slice())?;
    Ok(())
}
