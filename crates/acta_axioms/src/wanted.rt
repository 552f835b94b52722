//! The edges that an event other than an operation forms. Walks through a history and the machine share them.

ghost use Rattle.std.specs.Prelude.{◌≡◌, IfOk};
ghost use Rattle.acta_axioms.specs.inside.Wanted.{edges_wanted};

use acta_table::{Class, Edge, Event};
use std::alloc::{AllocError, Allocator};

/// The edges that an event other than an operation forms, in order: the start edges of the class that a spawn or a
/// split names, if it is among these classes, or the edge of a form event.
pub fn edges_wanted<A: Allocator + Copy>(
    alloc: A,
    classes: &[Class<A>],
    event: &Event<A>,
) -> Result<Vec<Edge, A>, AllocError>
    ensures { IfOk result (λ edges. edges.items ≡ edges_wanted classes.now event.now) }
{
    match event {
        Event::Spawn(t, c, class) => match classes.get(class.0 as usize) {
            Some(class) => class.spawn_edges.between(alloc, *t, *c),
            None => Ok(Vec::new(alloc)),
        },
        Event::Split(t, u, class, _) => match classes.get(class.0 as usize) {
            Some(class) => class.split_edges.between(alloc, *t, *u),
            None => Ok(Vec::new(alloc)),
        },
        Event::Form(kind, j, i) => {
            let edge = Edge {
                kind: *kind,
                j: *j,
                i: *i,
            };
            Vec::from_slice(alloc, &[edge])
        }
        _ => Ok(Vec::new(alloc)),
    }
}
