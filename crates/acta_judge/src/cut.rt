//! How a long list is cut into parts for threads.

ghost use Rattle.std.specs.Prelude.{◌≤◌};

use acta_table::{Class, MOST_EVENTS, Model, Scope};
use rayon::current_num_threads;
use std::alloc::Allocator;
use std::thread::Threads;

/// The least number of places in a part, if threads pay: fewer are not worth the copies of a walk.
const LEAST_PLACES: usize = 1024;

/// The least number of edges in a part, by default: fewer are not worth a thread.
const LEAST_EDGES: usize = 16_384;

/// How lists are cut: the most parts, and the least number of places or edges of each part but the last. A list of one part
/// is judged without threads.
#[derive(Clone, Copy)]
pub struct Cut {
    pub parts: usize,
    pub places: usize,
    pub edges: usize,
}

// Whether judging an operation of this class visits each ancestor of its transaction: the class refuses conflicts, but
// exempts ancestors.
fn is_dear<A: Allocator>(class: &Class<A>) -> bool {
    class.policy.refuses() && matches!(class.scope, Scope::NonAncestors)
}

impl Cut {
    /// One part for each processor, if threads pay. A walk passes all places before the threads get their parts, and passing
    /// a place takes about as long as judging it, unless judging visits ancestors. So the places are cut only if the model
    /// has such a class.
    pub fn usual<A: Allocator, R: Threads>(rt: &R, model: &Model<A>) -> Cut {
        let pays = model.classes().iter().any(|class| is_dear(class));
        Cut {
            parts: current_num_threads(rt),
            places: if pays { LEAST_PLACES } else { MOST_EVENTS },
            edges: LEAST_EDGES,
        }
    }

    /// The length of each part but the last, for a list of this length, at least `least`.
    pub(crate) fn size(self, length: usize, least: usize) -> usize
        ensures { 1 ≤ result }
    {
        length.div_ceil(self.parts.max(1)).max(least).max(1)
    }
}
