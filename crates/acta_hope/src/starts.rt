//! Transactions that can never begin.

ghost use Rattle.std.specs.Prelude.{◌≡◌, Some, IfOk, false, length, set, true};
ghost use Rattle.acta_table.specs.Numbered.{item_at};
ghost use Rattle.acta_machine.specs.Table.{edges_in, status_in};
ghost use Rattle.acta_hope.specs.Starts.{AreLast, AreLost, AreNamed, bars_start, is_lost_by};

use acta_machine::{Handle, Machine};
use acta_table::{Dep, Edge, Status, TABLE_SIZE};
use std::alloc::AllocError;

// Whether an edge of this kind keeps its dependent transaction from ever starting, if the other has this status.
fn bars_start(kind: Dep, status: Status) -> bool
    ensures { result ≡ bars_start kind status }
{
    match status {
        Status::NotBegun | Status::InProgress => false,
        Status::Committed => matches!(kind, Dep::Bad),
        Status::Aborted => matches!(kind, Dep::Bcd),
        Status::Joined => matches!(kind, Dep::Sd | Dep::Bcd | Dep::Bad),
    }
}

// Whether the edge keeps its dependent transaction, which has not begun, from ever beginning.
fn is_lost_by<A: Handle>(machine: &Machine<A>, edge: &Edge) -> bool
    ensures { result ≡ is_lost_by (status_in machine.now) edge.now }
{
    matches!(machine.status(edge.j), Status::NotBegun)
        && bars_start(edge.kind, machine.status(edge.i))
}

// Notes the number of the edge for its dependent transaction, if the edge keeps that from ever beginning.
fn note<A: Handle>(machine: &Machine<A>, number: u32, edge: &Edge, lost: &mut [u32])
    requires at { item_at (edges_in machine.now) number ≡ Some edge.now }
    requires lost { AreLost machine.now lost.old }
    ensures lost { AreLost machine.now lost.new }
    ensures noted { is_lost_by (status_in machine.now) edge.now ≡ true → lost.new ≡ set lost.old edge.now.j.0 number }
    ensures same { is_lost_by (status_in machine.now) edge.now ≡ false → lost.new ≡ lost.old }
{
    let txn = edge.j.0 as usize;
    if txn < lost.len() && is_lost_by(machine, edge) {
        lost[txn] = number;
    }
}

/// For each transaction number, the number of the last edge that keeps the transaction from ever beginning, or 0. Such an
/// edge lets it begin only after another transaction commits, aborts, or either, and that one has ended otherwise. Returns
/// `Err` if memory runs out.
pub fn never_begin<A: Handle>(alloc: A, machine: &Machine<A>) -> Result<Vec<u32, A>, AllocError>
    ensures lost { IfOk result (λ lost. AreLost machine.now lost.items) }
    ensures long { IfOk result (λ lost. length lost.items ≡ TABLE_SIZE) }
    ensures named { IfOk result (λ lost. AreNamed (status_in machine.now) (edges_in machine.now) lost.items) }
    ensures last { IfOk result (λ lost. AreLast (status_in machine.now) (edges_in machine.now) lost.items) }
{
    let mut lost = Vec::new(alloc);
    lost.resize(TABLE_SIZE, 0u32)?;
    let edges = machine.edges();
    for place in 0..edges.len() {
        note(machine, place as u32 + 1, &edges[place], &mut lost);
    }
    Ok(lost)
}
