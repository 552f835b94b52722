//! The start edges of a class: their number, and a row of two bytes for each, in canonical order.

ghost use Rattle.std.specs.Prelude.{◌≡◌, slice_get, true, IfErr};
ghost use Rattle.acta_table.specs.Dependencies.{all_kinds};
ghost use Rattle.acta_image.specs.Reading.{dependent_in, edge_in, field, rank, read_edges, read_rows, row_in};
ghost use Rattle.acta_image.specs.inside.Gives.{Gives, is_fault};

use crate::codes::dependent_code;
use crate::diagnostic::{Field, ReadError};
use crate::fields::{bad, byte, part};
use acta_table::{Dep, Dependent, StartEdge, StartEdges};
use std::alloc::Allocator;

// The kind with this code.
fn kind_of(code: u8) -> Option<Dep>
    ensures { result ≡ slice_get all_kinds code }
{
    Dep::ALL.get(usize::from(code)).copied()
}

// The end that depends, by its code.
fn dependent_of(code: u8) -> Option<Dependent>
    ensures { result ≡ dependent_in code }
{
    match code {
        0 => Some(Dependent::Starter),
        1 => Some(Dependent::Started),
        _ => None,
    }
}

// The start edge with these two codes.
fn edge_of(kind: u8, dependent: u8) -> Option<StartEdge>
    ensures { result ≡ edge_in kind dependent }
{
    let kind = kind_of(kind)?;
    let dependent = dependent_of(dependent)?;
    Some(StartEdge { kind, dependent })
}

// The rank of the start edge in the canonical order.
fn rank_of(edge: &StartEdge) -> u8
    ensures { result ≡ rank edge.now }
{
    2 * edge.kind.code() + dependent_code(edge.dependent)
}

// A row whose start edge has at least this rank.
fn row(which: Field, size: usize, least: u8, bytes: &[u8]) -> Result<(StartEdge, &[u8]), ReadError>
    ensures field { Gives (λ x. (x.0, x.1.now)) result (field which size 2 (row_in least) bytes.now) }
    ensures sure { IfErr result (λ e. is_fault e ≡ true) }
{
    let (found, rest) = part(which, size, bytes, 2)?;
    let Some(edge) = edge_of(found[0], found[1]) else {
        return Err(bad(which, size, bytes));
    };
    if least <= rank_of(&edge) {
        Ok((edge, rest))
    } else {
        Err(bad(which, size, bytes))
    }
}

// This many rows, in ascending order of rank.
fn rows<A: Allocator>(
    alloc: A,
    which: Field,
    size: usize,
    count: u8,
    bytes: &[u8],
) -> Result<(Vec<StartEdge, A>, &[u8]), ReadError>
    ensures { Gives (λ x. (x.0.items, x.1.now)) result (read_rows which size 0 count bytes.now) }
{
    let mut edges = Vec::new(alloc);
    let mut least = 0;
    let mut rest = bytes;
    for _ in 0..count {
        let (edge, behind) = row(which, size, least, rest)?;
        least = rank_of(&edge) + 1;
        edges.push(edge)?;
        rest = behind;
    }
    Ok((edges, rest))
}

/// One list of start edges of a class, read from these fields: the number of edges, and each edge.
#[tactic(auto, unfolding(crate::specs::Reading::read_edges))]
pub fn edges<A: Allocator>(
    alloc: A,
    counted: Field,
    which: Field,
    size: usize,
    bytes: &[u8],
) -> Result<(StartEdges<A>, &[u8]), ReadError>
    ensures { Gives (λ x. (x.0, x.1.now)) result (read_edges counted which size bytes.now) }
{
    let (count, rest) = byte(counted, size, 0, 24, bytes)?;
    let (edges, rest) = rows(alloc, which, size, count, rest)?;
    match StartEdges::ascending(edges) {
        Some(edges) => Ok((edges, rest)),
        None => unreachable!(),
    }
}
