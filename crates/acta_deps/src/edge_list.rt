ghost use Rattle.std.specs.Prelude.{◌≡◌, ◌<◌, ◌≤◌, ◌++◌, ◌∷◌, [], length, take, map, IfOk, OnOk, OnErr};
ghost use Rattle.std.specs.List.{All};
ghost use Rattle.acta_table.specs.Edges.{is_among, with_edge, formed};

use crate::places::Places;
use acta_table::{Edge, LAST_TXN, MOST_EDGES};
use indexmap::IndexSet;
use std::alloc::{AllocError, Allocator};
use std::hash::{BuildHasherDefault, FoldHasher};

// Edges in order of forming, each once.
type Formed<A> = IndexSet<Edge, BuildHasherDefault<FoldHasher>, A>;

/// At most 16,384 edges in order of forming, each once, indexed by either transaction. Contracts see the list.
#[derive(Drop)]
pub(crate) struct EdgeList<A: Allocator> {
    edges: Formed<A>,
    by_j: Places<A>,
    by_i: Places<A>,
}

impl<A: Allocator> std::marker::Model for EdgeList<A> {
    ghost use Rattle.std.specs.Prelude.{◌≡◌, ◌≤◌, List, length, map};
    ghost use Rattle.acta_table.specs.declared.dep.Edge.{Edge};
    ghost use Rattle.acta_table.specs.declared.limits.TheConstants.{MOST_EDGES};

    ghost Value = { List Edge };

    ghost view = { λ l. l.edges.keys };

    ghost invariant = { λ l. record {
      by_j : l.by_j ≡ map (λ e. e.j.0) l.edges.keys;
      by_i : l.by_i ≡ map (λ e. e.i.0) l.edges.keys;
      few : length l.edges.keys ≤ MOST_EDGES;
    } };
}

// Appends the edge unless it is in the list. On `Err` the set is unchanged.
fn insert<A: Allocator>(edges: &mut Formed<A>, edge: &Edge) -> Result<(), AllocError>
    ensures formed { OnOk result (edges.new.keys ≡ with_edge edges.old.keys edge.now) }
    ensures err { OnErr result (edges.new.keys ≡ edges.old.keys) }
{
    match edges.insert(*edge) {
        Ok(_) => Ok(()),
        Err(_) => Err(AllocError),
    }
}

// Appends the edge's transactions to both indexes. On `Err` both are unchanged.
fn note<A: Allocator>(
    by_j: &mut Places<A>,
    by_i: &mut Places<A>,
    edge: &Edge,
) -> Result<(), AllocError>
    requires j { edge.now.j.0 ≤ LAST_TXN }
    requires i { edge.now.i.0 ≤ LAST_TXN }
    requires few_j { length by_j.old < MOST_EDGES }
    requires few_i { length by_i.old < MOST_EDGES }
    ensures j { OnOk result (by_j.new ≡ by_j.old ++ edge.now.j.0 ∷ []) }
    ensures i { OnOk result (by_i.new ≡ by_i.old ++ edge.now.i.0 ∷ []) }
    ensures err_j { OnErr result (by_j.new ≡ by_j.old) }
    ensures err_i { OnErr result (by_i.new ≡ by_i.old) }
{
    by_j.push(edge.j)?;
    if let Err(error) = by_i.push(edge.i) {
        by_j.pop();
        return Err(error);
    }
    Ok(())
}

impl<A: Allocator> EdgeList<A> {
    /// The edges, numbered from 1.
    pub(crate) fn as_slice(&self) -> &[Edge]
        ensures edges { result.now ≡ self.now }
        ensures few { length self.now ≤ MOST_EDGES }
    {
        self.edges.as_slice()
    }

    /// The dependent transactions: the `j` of each edge.
    pub(crate) fn by_j(&self) -> &Places<A>
        ensures { result.now ≡ map (λ e. e.j.0) self.now }
    {
        &self.by_j
    }

    /// The transactions depended on: the `i` of each edge.
    pub(crate) fn by_i(&self) -> &Places<A>
        ensures { result.now ≡ map (λ e. e.i.0) self.now }
    {
        &self.by_i
    }

    /// Whether the edge is in the list.
    pub(crate) fn has(&self, edge: &Edge) -> bool
        ensures { result ≡ is_among self.now edge.now }
    {
        self.edges.contains(edge)
    }

    // Appends the edge unless it is in the list. On `Err` the list is unchanged.
    fn form(&mut self, edge: &Edge) -> Result<(), AllocError>
        requires j { edge.now.j.0 ≤ LAST_TXN }
        requires i { edge.now.i.0 ≤ LAST_TXN }
        requires fits { length (with_edge self.old edge.now) ≤ MOST_EDGES }
        ensures formed { OnOk result (self.new ≡ with_edge self.old edge.now) }
        ensures err { OnErr result (self.new ≡ self.old) }
    {
        if self.has(edge) {
            return Ok(());
        }
        note(&mut self.by_j, &mut self.by_i, edge)?;
        if let Err(error) = insert(&mut self.edges, edge) {
            self.by_j.pop();
            self.by_i.pop();
            return Err(error);
        }
        Ok(())
    }

    /// Keeps the first `n` edges and removes the others.
    pub(crate) fn truncate(&mut self, count: usize)
        ensures { self.new ≡ take count self.old }
    {
        self.edges.truncate(count);
        self.by_j.truncate(count);
        self.by_i.truncate(count);
    }

    // Appends the edges, each once. On `Err` some of them may have been appended.
    fn form_each(&mut self, more: &[Edge]) -> Result<(), AllocError>
        requires known { All (λ e. (e.j.0 ≤ LAST_TXN) × (e.i.0 ≤ LAST_TXN)) more.now }
        requires fits { length (formed self.old more.now) ≤ MOST_EDGES }
        ensures formed { OnOk result (self.new ≡ formed self.old more.now) }
        ensures before { take (length self.old) self.new ≡ self.old }
    {
        for edge in more {
            self.form(edge)?;
        }
        Ok(())
    }

    /// Appends the edges, each once. On `Err` none is appended.
    pub(crate) fn form_all(&mut self, more: &[Edge]) -> Result<(), AllocError>
        requires known { All (λ e. (e.j.0 ≤ LAST_TXN) × (e.i.0 ≤ LAST_TXN)) more.now }
        requires fits { length (formed self.old more.now) ≤ MOST_EDGES }
        ensures formed { OnOk result (self.new ≡ formed self.old more.now) }
        ensures err { OnErr result (self.new ≡ self.old) }
    {
        let count = self.as_slice().len();
        match self.form_each(more) {
            Ok(()) => Ok(()),
            Err(error) => {
                self.truncate(count);
                Err(error)
            }
        }
    }
}

// Returns a copy of the edges.
fn copy_of<A: Allocator + Copy>(edges: &Formed<A>) -> Result<Formed<A>, AllocError>
    ensures { IfOk result (λ copy. copy.keys ≡ edges.now.keys) }
{
    let copy = edges.clone()?;
    Ok(copy)
}

impl<A: Allocator + Copy> EdgeList<A> {
    /// The empty list. Allocates nothing.
    pub(crate) fn new(alloc: A) -> EdgeList<A>
        ensures { result ≡ [] }
    {
        EdgeList {
            edges: IndexSet::new(alloc),
            by_j: Places::new(alloc),
            by_i: Places::new(alloc),
        }
    }

    /// The allocator of the lists.
    pub(crate) fn allocator(&self) -> A {
        *self.edges.allocator()
    }

    /// Returns a copy of the list.
    pub(crate) fn copy(&self) -> Result<EdgeList<A>, AllocError>
        ensures { IfOk result (λ edges. edges ≡ self.now) }
    {
        Ok(EdgeList {
            edges: copy_of(&self.edges)?,
            by_j: self.by_j.copy()?,
            by_i: self.by_i.copy()?,
        })
    }
}
