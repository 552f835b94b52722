ghost use Rattle.std.specs.Prelude.{◌≡◌, ◌↔◌, ◌++◌, [], filter, IfOk, IfSome, IsSome, IsTrue};
ghost use Rattle.std.specs.Ordering.{is_lt};
ghost use Rattle.std.specs.List.Sorted.{IsStrictlySortedBy};
ghost use Rattle.acta_table.specs.Starts.{rank_of, same_start_edge, start_edge_cmp, both_of, is_listed, each_start_edge_once, edge_between, edges_between};

use crate::dep::{Dep, Edge};
use crate::event::TxnId;
use crate::items::Items;
use std::alloc::{AllocError, Allocator};

/// Which of the two transactions of a start depends on the other.
#[derive(Clone, Copy, PartialEq, Eq, Debug)]
pub enum Dependent {
    /// The transaction that starts the other.
    Starter,
    /// The transaction that is started.
    Started,
}

impl Dependent {
    fn rank(self) -> u8
        ensures { result ≡ rank_of self }
    {
        match self {
            Dependent::Starter => 0,
            Dependent::Started => 1,
        }
    }
}

/// A dependency that is formed when one transaction starts another.
#[derive(Clone, Copy, PartialEq, Eq, Debug)]
pub struct StartEdge {
    pub kind: Dep,
    pub dependent: Dependent,
}

impl StartEdge {
    /// Whether the two are equal: same kind, same direction.
    pub fn is_same(&self, other: &StartEdge) -> bool
        ensures { result ≡ same_start_edge self.now other.now }
    {
        self.kind.code() == other.kind.code() && self.dependent.rank() == other.dependent.rank()
    }

    // Whether this start edge comes before the other: by kind code, then the starter's first.
    fn is_before(&self, other: &StartEdge) -> bool
        ensures { result ≡ is_lt (start_edge_cmp self.now other.now) }
    {
        (self.kind.code(), self.dependent.rank()) < (other.kind.code(), other.dependent.rank())
    }

    /// Whether this start edge is in the list.
    pub fn is_among(&self, edges: &[StartEdge]) -> bool
        ensures { result ≡ is_listed edges.now self.now }
    {
        edges.iter().any(|edge| self.is_same(edge))
    }

    /// The edge to form between the starting transaction and the started one.
    pub fn between(&self, starter: TxnId, started: TxnId) -> Edge
        ensures { result ≡ edge_between starter started self.now }
    {
        let (j, i) = match self.dependent {
            Dependent::Starter => (starter, started),
            Dependent::Started => (started, starter),
        };
        Edge {
            kind: self.kind,
            j,
            i,
        }
    }
}

/// A set of start edges. Contracts see a list without repeats, sorted by kind code, and the starter's first within a
/// kind.
#[derive(Drop)]
pub struct StartEdges<A: Allocator> {
    edges: Items<StartEdge, A>,
}

impl<A: Allocator> std::marker::Model for StartEdges<A> {
    ghost use Rattle.std.specs.Prelude.{List};
    ghost use Rattle.std.specs.List.Sorted.{IsStrictlySortedBy};
    ghost use Rattle.acta_table.specs.declared.start_edges.StartEdge.{StartEdge};
    ghost use Rattle.acta_table.specs.Starts.{start_edge_cmp};

    ghost Value = { List StartEdge };

    ghost view = { λ s. s.edges };

    ghost invariant = { λ s. IsStrictlySortedBy start_edge_cmp s.edges };
}

// Appends those of the kind's two start edges that are listed.
fn push_listed<A: Allocator>(
    edges: &[StartEdge],
    kind: Dep,
    listed: &mut Vec<StartEdge, A>,
) -> Result<(), AllocError>
    ensures { IfOk result (λ _. listed.new.items ≡ listed.old.items ++ filter (is_listed edges.now) (both_of kind)) }
{
    let starter = StartEdge {
        kind,
        dependent: Dependent::Starter,
    };
    let started = StartEdge {
        kind,
        dependent: Dependent::Started,
    };
    if starter.is_among(edges) {
        listed.push(starter)?;
    }
    if started.is_among(edges) {
        listed.push(started)?;
    }
    Ok(())
}

// The listed start edges, sorted, each once.
fn in_order<A: Allocator>(alloc: A, edges: &[StartEdge]) -> Result<Vec<StartEdge, A>, AllocError>
    ensures { IfOk result (λ listed. listed.items ≡ each_start_edge_once edges.now) }
{
    let mut listed = Vec::new(alloc);
    for kind in Dep::ALL {
        push_listed(edges, kind, &mut listed)?;
    }
    Ok(listed)
}

// Whether the start edges are strictly ascending.
fn ascend(edges: &[StartEdge]) -> bool
    ensures { IsTrue result ↔ IsStrictlySortedBy start_edge_cmp edges.now }
{
    edges.is_sorted_by(|edge, next| edge.is_before(next))
}

impl<A: Allocator> StartEdges<A> {
    /// The empty set. Allocates nothing.
    pub fn new(alloc: A) -> StartEdges<A>
        ensures { result ≡ [] }
    {
        StartEdges {
            edges: Items::new(alloc),
        }
    }

    /// The set of these start edges.
    pub fn of(alloc: A, edges: &[StartEdge]) -> Result<StartEdges<A>, AllocError>
        ensures { IfOk result (λ set. set ≡ each_start_edge_once edges.now) }
    {
        Ok(StartEdges {
            edges: Items::of(in_order(alloc, edges)?),
        })
    }

    /// The set of these start edges if they are sorted and without repeats, otherwise `None`. Allocates nothing and
    /// does not sort.
    pub fn ascending(edges: Vec<StartEdge, A>) -> Option<StartEdges<A>>
        ensures same { IfSome result (λ set. set ≡ edges.items) }
        ensures known { IsSome result ↔ IsStrictlySortedBy start_edge_cmp edges.items }
    {
        if ascend(&edges) {
            Some(StartEdges {
                edges: Items::of(edges),
            })
        } else {
            None
        }
    }

    /// The start edges, sorted, each once.
    pub fn as_slice(&self) -> &[StartEdge]
        ensures items { result.now ≡ self.now }
        ensures ascending { IsStrictlySortedBy start_edge_cmp self.now }
    {
        self.edges.as_slice()
    }
}

impl<A: Allocator + Copy> StartEdges<A> {
    /// The edges to form between the starting transaction and the started one, in order.
    pub fn between(
        &self,
        alloc: A,
        starter: TxnId,
        started: TxnId,
    ) -> Result<Vec<Edge, A>, AllocError>
        ensures { IfOk result (λ between. between.items ≡ edges_between starter started self.now) }
    {
        let mut between = Vec::new(alloc);
        for edge in self.as_slice() {
            between.push(edge.between(starter, started))?;
        }
        Ok(between)
    }

    /// Returns a copy of the set.
    pub fn copy(&self) -> Result<StartEdges<A>, AllocError>
        ensures { IfOk result (λ set. set ≡ self.now) }
    {
        Ok(StartEdges {
            edges: self.edges.copy()?,
        })
    }
}
