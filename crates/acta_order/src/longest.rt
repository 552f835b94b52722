use crate::path::Path;
use std::alloc::{AllocError, Allocator};

// How many paths are kept.
const MOST_PATHS: usize = 3;

// The longest paths at which the search turned back, no two of the same positions. Nothing is promised about them; a replay
// checks each.
#[derive(Drop)]
pub(crate) struct Longest<A: Allocator> {
    len: usize,
    paths: Vec<Vec<usize, A>, A>,
}

// Whether all of these positions are marked.
fn are_marked(positions: &[usize], marks: &[bool]) -> bool {
    for j in positions {
        match marks.get(*j) {
            Some(true) => {}
            _ => return false,
        }
    }
    true
}

impl<A: Allocator + Copy> Longest<A> {
    /// No path.
    pub(crate) fn new(alloc: A) -> Longest<A> {
        Longest {
            len: 0,
            paths: Vec::new(alloc),
        }
    }

    /// The paths, each as the positions in order.
    pub(crate) fn paths(&self) -> &[Vec<usize, A>] {
        &self.paths
    }

    // Whether a path of the same positions is kept. All paths that are kept are as long as this one.
    fn has(&self, path: &Path<A>) -> bool {
        for kept in &self.paths {
            if are_marked(kept, path.marks()) {
                return true;
            }
        }
        false
    }

    /// Keeps the path if the search turns back at it, and no longer one is kept. This has to be cheap: a search may turn
    /// back millions of times.
    pub(crate) fn note(&mut self, path: &Path<A>, turns_back: bool) -> Result<(), AllocError> {
        let len = path.count();
        if !turns_back || len < self.len {
            return Ok(());
        }
        if len > self.len {
            self.paths.clear();
            self.len = len;
        }
        if self.paths.len() < MOST_PATHS && !self.has(path) {
            let alloc = *self.paths.allocator();
            self.paths.push(Vec::from_slice(alloc, path.taken())?)?;
        }
        Ok(())
    }
}
