//! Puts faults in order, each once.

ghost use Rattle.std.specs.Prelude.{◌≡◌, ◌++◌, flat_map, IfOk, OnOk};
ghost use Rattle.std.specs.List.Sorted.{IsStrictlySortedBy};
ghost use Rattle.acta_judge.specs.Order.{fault_cmp, with_fault, merged, in_order};
ghost use Rattle.acta_judge.specs.inside.Parts.{together};

use crate::edges::ByEdges;
use acta_axioms::{Fault, Handle};
use acta_table::Items;
use std::alloc::AllocError;
use std::collections::BTreeSet;

// Adds the fault, unless it is there.
fn put<A: Handle>(fault: Fault, ordered: &mut BTreeSet<Fault, A>) -> Result<(), AllocError>
    ensures { OnOk result (ordered.new.keys ≡ with_fault ordered.old.keys fault) }
{
    ordered.insert(fault)?;
    Ok(())
}

// Adds the faults that are not there.
fn put_all<A: Handle>(faults: &[Fault], ordered: &mut BTreeSet<Fault, A>) -> Result<(), AllocError>
    ensures { OnOk result (ordered.new.keys ≡ merged ordered.old.keys faults.now) }
{
    for fault in faults {
        put(*fault, ordered)?;
    }
    Ok(())
}

// Adds the faults at places, part by part.
fn put_places<A: Handle>(
    parts: &[Items<Fault, A>],
    ordered: &mut BTreeSet<Fault, A>,
) -> Result<(), AllocError>
    ensures { OnOk result (ordered.new.keys ≡ merged ordered.old.keys (together parts.now)) }
{
    for part in parts {
        put_all(part.as_slice(), ordered)?;
    }
    Ok(())
}

// Adds the faults of edges, part by part.
fn put_edges<A: Handle>(
    parts: &[ByEdges<A>],
    ordered: &mut BTreeSet<Fault, A>,
) -> Result<(), AllocError>
    ensures { OnOk result (ordered.new.keys ≡ merged ordered.old.keys (flat_map (λ part. part.faults) parts.now)) }
{
    for part in parts {
        put_all(part.faults.as_slice(), ordered)?;
    }
    Ok(())
}

// The faults, in order.
fn listed<A: Handle>(alloc: A, faults: &BTreeSet<Fault, A>) -> Result<Vec<Fault, A>, AllocError>
    ensures keys { IfOk result (λ listed. listed.items ≡ faults.now.keys) }
    ensures ascending { IfOk result (λ listed. IsStrictlySortedBy fault_cmp listed.items) }
{
    let mut listed = Vec::with_capacity(alloc, faults.len())?;
    for fault in faults.iter() {
        listed.push(*fault)?;
    }
    Ok(listed)
}

/// The faults at places, of edges, and of transactions that owe both a commit and an abort, in order and each once.
pub(crate) fn in_order<A: Handle>(
    alloc: A,
    places: &[Items<Fault, A>],
    edges: &[ByEdges<A>],
    clashes: &[Fault],
) -> Result<Vec<Fault, A>, AllocError>
    ensures listed { IfOk result (λ listed. listed.items ≡ in_order (together places.now ++ flat_map (λ part. part.faults) edges.now ++ clashes.now)) }
    ensures ascending { IfOk result (λ listed. IsStrictlySortedBy fault_cmp listed.items) }
{
    let mut ordered = BTreeSet::new(alloc);
    put_places(places, &mut ordered)?;
    put_edges(edges, &mut ordered)?;
    put_all(clashes, &mut ordered)?;
    listed(alloc, &ordered)
}
