//! Finds waits-for cycles: transactions that wait for one another to end, so that none of them can.

ghost use Rattle.std.specs.Prelude.{◌≡◌, ◌<◌, ◌+◌, ◌≤◌, length, get_or, true, Decides, IfOk, IfSome};
ghost use Rattle.acta_table.specs.Edges.{is_among};
ghost use Rattle.acta_deps.specs.Deps.{status_of};
ghost use Rattle.acta_deps.specs.Waiting.{WaitsFor, IsChain, IsClosed, StartsWith};

use crate::deps::Deps;
use acta_table::{Dep, Edge, Items, MOST_EDGES, Status, TxnId};
use std::alloc::{AllocError, Allocator};
use std::collections::BTreeSet;

// A depth-first search along waits-for edges: the current path, the next edge to try for each transaction on it, the
// transactions met, and those finished.
#[derive(Drop)]
struct Search<A: Allocator> {
    path: Vec<TxnId, A>,
    places: Vec<u16, A>,
    met: BTreeSet<u16, A>,
    left: BTreeSet<u16, A>,
}

// Whether the last transaction occurs earlier in the chain.
fn is_closed(chain: &[TxnId]) -> bool
    ensures { result ≡ true → IsClosed chain.now }
{
    let Some((last, before)) = chain.split_last() else {
        return false;
    };
    before.contains(last)
}

impl<A: Allocator> Deps<A> {
    // Whether `j` waits for `i` to end.
    fn waits_for(&self, j: TxnId, i: TxnId) -> bool
        ensures { Decides result (WaitsFor (status_of self.now) self.now.edges j i) }
    {
        let kind = Dep::Td;
        matches!(self.status(j), Status::InProgress)
            && matches!(self.status(i), Status::InProgress)
            && self.has(&Edge { kind, j, i })
    }

    // Whether each transaction waits for the next.
    fn is_chain(&self, chain: &[TxnId]) -> bool
        ensures { result ≡ true → IsChain (status_of self.now) self.now.edges chain.now }
    {
        for k in 1..chain.len() {
            if !self.waits_for(chain[k - 1], chain[k]) {
                return false;
            }
        }
        true
    }
}

impl<A: Allocator + Copy> Deps<A> {
    // A path from `t` along waits-for edges whose last transaction occurs on it earlier; empty if there is none.
    fn cycle_back_to(&self, t: TxnId) -> Result<Vec<TxnId, A>, AllocError> {
        let alloc = self.allocator();
        let mut search = Search {
            path: Vec::new(alloc),
            places: Vec::new(alloc),
            met: BTreeSet::new(alloc),
            left: BTreeSet::new(alloc),
        };
        search.path.push(t)?;
        search.places.push(self.by_j().last(t))?;
        search.met.insert(t.0)?;
        // (each edge is tried once, and each transaction finished once)
        for _ in 0..2 * MOST_EDGES {
            let Some(place) = search.places.pop() else {
                break;
            };
            let Some(e) = self.edges().get(usize::from(place).wrapping_sub(1)) else {
                if let Some(u) = search.path.pop() {
                    search.left.insert(u.0)?;
                }
                continue;
            };
            search.places.push(self.by_j().before(place))?;
            if !self.waits_for(e.j, e.i) || e.kind != Dep::Td {
                continue;
            }
            if search.met.insert(e.i.0)? {
                search.path.push(e.i)?;
                search.places.push(self.by_j().last(e.i))?;
            } else if !search.left.contains(&e.i.0) {
                search.path.push(e.i)?;
                return Ok(search.path);
            }
        }
        Ok(Vec::new(alloc))
    }

    /// Returns a chain of transactions from `t` on, each waiting for the next to end, whose last occurs in it earlier.
    /// The transactions of this cycle cannot commit or abort unless another event changes a status. `None` if no such
    /// chain was found.
    pub fn waits_for_cycle(&self, t: TxnId) -> Result<Option<Items<TxnId, A>>, AllocError>
        ensures chain { IfOk result (λ found. IfSome found (IsChain (status_of self.now) self.now.edges)) }
        ensures closed { IfOk result (λ found. IfSome found IsClosed) }
        ensures start { IfOk result (λ found. IfSome found (StartsWith t)) }
    {
        let chain = self.cycle_back_to(t)?;
        if chain.first() == Some(&t) && is_closed(&chain) && self.is_chain(&chain) {
            Ok(Some(Items::of(chain)))
        } else {
            Ok(None)
        }
    }
}
