//! The texts of the standard models against their parts, written out by hand: a model has one canonical text.

use crate::expecting::{expect_text, made};
use acta_lang::print_model;
use acta_models::Standard;
use acta_table::{
    AtCommit, Class, Dep, DepKinds, Dependent, EventKind, Extent, Items, Kind, Kinds, Model,
    Object, Parts, Policy, Scope, StartEdge, StartEdges, Starts,
};
use std::alloc::Allocator;
use std::process::Abort;

// The name that the word is.
fn named<A: Allocator + Copy>(rt: &impl Abort, alloc: A, word: &[u8]) -> Items<u8, A> {
    Items::of(made(rt, Vec::from_slice(alloc, word), "a name"))
}

// The objects `x`, `n`, `m`, `s`.
fn objects<A: Allocator + Copy>(rt: &impl Abort, alloc: A) -> Vec<Object<A>, A> {
    let mut objects = Vec::new(alloc);
    for name in [b'x', b'n', b'm', b's'] {
        let kind = match name {
            b'x' => Kind::Register(0),
            b's' => Kind::Elements,
            _ => Kind::Counter(0),
        };
        let name = named(rt, alloc, &[name]);
        made(rt, objects.push(Object { name, kind }), "an object");
    }
    objects
}

// A class that may begin, operate, commit and abort, and these kinds of event.
fn class<A: Allocator + Copy>(rt: &impl Abort, alloc: A, name: &str, more: Kinds) -> Class<A> {
    Class {
        name: named(rt, alloc, name.as_bytes()),
        starts: Starts {
            begin: true,
            spawned: false,
            split: false,
        },
        may: Kinds::of(EventKind::Operate)
            .union(Kinds::of(EventKind::Commit))
            .union(Kinds::of(EventKind::Abort))
            .union(more),
        scope: Scope::Others,
        policy: Policy::Refuse,
        at_commit: AtCommit::Keeps,
        extent: Extent::Whole,
        spawn_edges: StartEdges::new(alloc),
        split_edges: StartEdges::new(alloc),
    }
}

// The class `sub` of nested transactions: they are spawned, and commit to their parents. A parent commits after its
// children, and if it aborts, its uncommitted children abort.
fn sub<A: Allocator + Copy>(rt: &impl Abort, alloc: A) -> Class<A> {
    let (kind, dependent) = (Dep::Cd, Dependent::Starter);
    let after = StartEdge { kind, dependent };
    let (kind, dependent) = (Dep::Wd, Dependent::Started);
    let with = StartEdge { kind, dependent };
    let mut sub = class(rt, alloc, "sub", Kinds::of(EventKind::Spawn));
    sub.spawn_edges = made(rt, StartEdges::of(alloc, &[after, with]), "edges");
    sub.scope = Scope::NonAncestors;
    sub.starts.begin = false;
    sub.starts.spawned = true;
    sub.at_commit = AtCommit::ToParent;
    sub
}

// The class of a standard model whose transactions begin: `flat`; `top`, of nested transactions, which is in conflict
// with none of its ancestors, of which it has none; `part`, which may be split off, and hands over as much as it likes;
// `loose`, of those whose operations conflict, which end only after those that they depend on, and abort with them; and
// `try`, which may also form edges.
fn beginning<A: Allocator + Copy>(rt: &impl Abort, alloc: A, name: Standard) -> Class<A> {
    let (word, more) = match name {
        Standard::Atomic => ("flat", Kinds::none()),
        Standard::Nested => ("top", Kinds::of(EventKind::Spawn)),
        Standard::SplitJoin => (
            "part",
            Kinds::of(EventKind::Split)
                .union(Kinds::of(EventKind::Join))
                .union(Kinds::of(EventKind::Delegate)),
        ),
        Standard::Recoverable => ("loose", Kinds::none()),
        Standard::Contingent => ("try", Kinds::of(EventKind::Form)),
    };
    let mut class = class(rt, alloc, word, more);
    match name {
        Standard::Nested => class.scope = Scope::NonAncestors,
        Standard::SplitJoin => {
            class.starts.split = true;
            class.extent = Extent::Any;
        }
        Standard::Recoverable => {
            class.policy = Policy::Depend(DepKinds::of(Dep::Ad).union(DepKinds::of(Dep::Td)));
        }
        Standard::Atomic | Standard::Contingent => {}
    }
    class
}

// A standard model, by its parts.
fn model_by_parts<A: Allocator + Copy>(rt: &impl Abort, alloc: A, name: Standard) -> Model<A> {
    let mut classes = Vec::new(alloc);
    made(rt, classes.push(beginning(rt, alloc, name)), "a class");
    if name == Standard::Nested {
        made(rt, classes.push(sub(rt, alloc)), "a class");
    }
    let (objects, classes) = (Items::of(objects(rt, alloc)), Items::of(classes));
    made(rt, Model::check(Parts { objects, classes }), "a model")
}

#[test]
fn the_texts_mean_what_is_listed(rt: HostRuntime) {
    for name in Standard::ALL {
        let model = model_by_parts(&rt, rt.alloc(), name);
        let text = made(&rt, print_model(rt.alloc(), &model), "a text");
        expect_text(&rt, text.as_slice(), name.text(), "a standard model");
    }
}
