//! The edges that a list forms, judged in parts by the courses of the whole list.

ghost use Rattle.std.specs.Prelude.{◌≡◌, ◌≤◌, ◌++◌, flat_map, map, IfOk, OnOk};
ghost use Rattle.std.specs.List.{enumerate_from};
ghost use Rattle.acta_axioms.specs.Legal.{debt_in, owed};
ghost use Rattle.acta_judge.specs.Broken.{place_in, edge_faults, faults_in_edges};
ghost use Rattle.acta_judge.specs.inside.Edges.{by_edges};

use crate::formulas::{debt, place_by};
use crate::reporting::Breach;
use acta_axioms::{Axiom, Fault, Handle, Walk};
use acta_table::{Edge, EdgeNo, Items, Missing, Owed};
use rayon::prelude::*;
use std::alloc::{AllocError, Allocator};
use std::thread::Threads;

// Consecutive edges. Contracts see each with its number.
#[derive(Drop)]
struct Stretch<'a> {
    first: u64,
    edges: &'a [Edge],
}

impl<'a> std::marker::Model for Stretch<'a> {
    ghost use Rattle.std.specs.Prelude.{ℕ, List, ◌+◌, ◌^◌, ◌<◌, length};
    ghost use Rattle.std.specs.List.{enumerate_from};
    ghost use Rattle.acta_table.specs.declared.dep.Edge.{Edge};

    ghost Value = { List (ℕ × Edge) };

    ghost view = { λ s. enumerate_from s.first s.edges.now };

    ghost invariant = { λ s. s.first + length s.edges.now < 2 ^ 64 };
}

/// The faults and the debts of some edges.
#[derive(Drop)]
pub(crate) struct ByEdges<A: Allocator> {
    pub(crate) faults: Items<Fault, A>,
    pub(crate) owed: Items<Owed, A>,
}

// The place where the edge's formula became false, if it is false and nothing is owed for it.
fn place_in<'a, A: Handle>(walk: &Walk<'a, A>, e: &Edge) -> Option<u32>
    ensures { result ≡ place_in walk.now.front e.now }
{
    place_by(e.kind, walk.course(e.j), walk.course(e.i))
}

// The debt of the edge.
fn debt_in<'a, A: Handle>(walk: &Walk<'a, A>, e: &Edge) -> Option<Missing>
    ensures { result ≡ debt_in walk.now.front e.now }
{
    debt(e.kind, walk.course(e.j), walk.course(e.i))
}

// Adds the fault of the edge with this number, if it has one.
fn report_edge<'a, A: Handle>(
    walk: &Walk<'a, A>,
    number: u64,
    e: &Edge,
    faults: &mut Vec<Fault, A>,
) -> Result<(), AllocError>
    ensures { OnOk result (faults.new.items ≡ faults.old.items ++ edge_faults walk.now.front (number, e.now)) }
{
    let Some(place) = place_in(walk, e) else {
        return Ok(());
    };
    let breach = Breach {
        broken: Axiom::Dependency(e.kind),
        place,
    };
    breach.report(number, faults)
}

impl<'a> Stretch<'a> {
    // The faults and the debts of these edges by the courses of the items so far.
    fn report<'w, A: Handle>(&self, alloc: A, walk: &Walk<'w, A>) -> Result<ByEdges<A>, AllocError>
        ensures { IfOk result (λ reported. reported ≡ by_edges walk.now.front self.now) }
    {
        let mut faults = Vec::new(alloc);
        let mut owed = Vec::new(alloc);
        let edges = self.edges;
        let mut number = self.first;
        for e in edges {
            report_edge(walk, number, e, &mut faults)?;
            if let Some(missing) = debt_in(walk, e) {
                owed.push(Owed {
                    edge: EdgeNo(number),
                    txn: e.j,
                    missing,
                })?;
            }
            number += 1;
        }
        Ok(ByEdges {
            faults: Items::of(faults),
            owed: Items::of(owed),
        })
    }
}

// Cuts the edges into stretches of this length; the last may be shorter.
fn stretches<'a, A: Handle>(
    alloc: A,
    edges: &'a [Edge],
    size: usize,
) -> Result<Vec<Stretch<'a>, A>, AllocError>
    requires { 1 ≤ size }
    ensures { IfOk result (λ all. flat_map (λ s. s) all.items ≡ enumerate_from 1 edges.now) }
{
    let mut all = Vec::new(alloc);
    let mut rest = edges;
    let mut first = 1;
    for _ in 0..edges.len().saturating_sub(1) / size {
        let (some, others) = rest.split_at(size.min(rest.len()));
        all.push(Stretch { first, edges: some })?;
        first += some.len() as u64;
        rest = others;
    }
    all.push(Stretch { first, edges: rest })?;
    Ok(all)
}

// The faults and the debts of each stretch, found in threads.
fn report_stretches<'a, 's, A: Handle + Send + Sync, R: Threads + Sync>(
    rt: &R,
    alloc: A,
    walk: &Walk<'a, A>,
    stretches: &[Stretch<'s>],
) -> Result<Vec<ByEdges<A>, A>, AllocError>
    ensures { IfOk result (λ reported. reported.items ≡ map (by_edges walk.now.front) stretches.now) }
{
    match stretches
        .par_iter()
        .with_min_len(1)
        .map(
            |stretch: &Stretch| -> Result<ByEdges<A>, AllocError>
                ensures { IfOk result (λ reported. reported ≡ by_edges walk.entry.now.front stretch.now) }
            { stretch.report(alloc, walk) },
        )
        .collect::<Result<Vec<ByEdges<A>, A>, AllocError>>(rt, alloc)
    {
        Ok(reported) => reported,
        Err(error) => Err(error),
    }
}

/// The faults and the debts of the edges that the items so far form, in parts of this size.
#[tactic(auto, unfolding(acta_axioms::specs::Legal::owed))]
pub(crate) fn report_edges<'a, A: Handle + Send + Sync, R: Threads + Sync>(
    rt: &R,
    alloc: A,
    walk: &Walk<'a, A>,
    size: usize,
) -> Result<Vec<ByEdges<A>, A>, AllocError>
    requires { 1 ≤ size }
    ensures faults { IfOk result (λ reported. flat_map (λ part. part.faults) reported.items ≡ faults_in_edges walk.now.model walk.now.front) }
    ensures owed { IfOk result (λ reported. flat_map (λ part. part.owed) reported.items ≡ owed walk.now.model walk.now.front) }
{
    let stretches = stretches(alloc, walk.edges(), size)?;
    report_stretches(rt, alloc, walk, stretches.as_slice())
}

/// The debts of all edges, in order.
pub(crate) fn owed_by<A: Handle>(alloc: A, parts: &[ByEdges<A>]) -> Result<Vec<Owed, A>, AllocError>
    ensures { IfOk result (λ debts. debts.items ≡ flat_map (λ part. part.owed) parts.now) }
{
    let mut debts = Vec::new(alloc);
    for part in parts {
        debts.extend_from_slice(part.owed.as_slice())?;
    }
    Ok(debts)
}
