//! The keys of points: points have equal keys exactly if they are equivalent.

ghost use Rattle.std.specs.Prelude.{◌≡◌, ◌<◌, ◌≤◌, ◌+◌, ℕ, filter, get_or, IfOk};
ghost use Rattle.std.specs.List.Sorted.{IsPermutation, IsSorted, IsSortedByKey};
ghost use Rattle.std.specs.Ordering.{nat_cmp};
ghost use Rattle.acta_table.specs.declared.limits.TheConstants.{TABLE_SIZE};
ghost use Rattle.acta_sets.specs.declared.held_op.HeldOp.{HeldOp};
ghost use Rattle.acta_machine.specs.Table.{edges_in, operations_in};
ghost use Rattle.acta_explore.specs.Equivalence.{by_line, is_on, line_ops as ops_by_line};
ghost use Rattle.acta_explore.specs.Programs.{operated_lines};
ghost use Rattle.acta_explore.specs.inside.Keys.{edge_cmp, IsKeyOf, IsTrimmed, no_txn, txn_in};

use crate::plan::Plan;
use crate::point::{Done, Point, Step};
use acta_machine::{Handle, HeldOp, Machine, Permit};
use acta_table::{ClassId, Edge, Status, TxnId};
use std::alloc::{AllocError, Allocator};

/// An operation, with the position of the line that did it.
#[derive(Clone, Copy, PartialEq, Eq, Debug)]
#[derive_where(Hash)]
pub(crate) struct LineOp {
    pub(crate) line: usize,
    #[derive_where(skip(Hash))]
    pub(crate) held: HeldOp,
}

/// The machine's record of one transaction.
#[derive(Clone, Copy, PartialEq, Eq, Debug)]
pub(crate) struct Txn {
    pub(crate) status: Status,
    pub(crate) class: Option<ClassId>,
    pub(crate) parent: Option<TxnId>,
}

/// The key of a point. Its hash is that of what the lines did, and of the order of the operations on each object.
#[derive(Drop)]
#[derive_where(PartialEq, Eq, Hash)]
pub(crate) struct Key<A: Allocator> {
    /// How many events were admitted.
    #[derive_where(skip(Hash))]
    pub(crate) kept: usize,
    /// What each line did.
    pub(crate) lines: Vec<Option<Done>, A>,
    /// The machine's record of each transaction, by its number, up to the last one that has begun.
    #[derive_where(skip(Hash))]
    pub(crate) txns: Vec<Txn, A>,
    /// The edges in force, in a fixed order.
    #[derive_where(skip(Hash))]
    pub(crate) edges: Vec<Edge, A>,
    /// The operations, sorted by object.
    pub(crate) operations: Vec<LineOp, A>,
    #[derive_where(skip(Hash))]
    pub(crate) permits: Vec<Permit, A>,
}

// The machine's record of a transaction.
fn txn_of<A: Handle>(machine: &Machine<A>, t: usize) -> Txn
    requires { t < TABLE_SIZE }
    ensures { result ≡ txn_in machine.now t }
{
    let txn = TxnId(t as u16);
    Txn {
        status: machine.status(txn),
        class: machine.class(txn),
        parent: machine.parent(txn),
    }
}

// How many records there are, if those of transactions that have not begun are left out at the end.
fn txn_count<A: Handle>(machine: &Machine<A>) -> usize
    ensures few { result ≤ TABLE_SIZE }
    ensures beyond { (t : ℕ) → result ≤ t → txn_in machine.now t ≡ no_txn }
    ensures last { (t : ℕ) → result ≡ t + 1 → txn_in machine.now t ≡ no_txn → ⊥ }
{
    let not_begun = Txn {
        status: Status::NotBegun,
        class: None,
        parent: None,
    };
    let mut count = 0;
    for t in 0..machine.known_txns() {
        if txn_of(machine, t) != not_begun {
            count = t + 1;
        }
    }
    count
}

// The machine's record of each transaction.
fn txns_of<A: Handle>(alloc: A, machine: &Machine<A>) -> Result<Vec<Txn, A>, AllocError>
    ensures records { IfOk result (λ txns. (t : ℕ) → get_or txns.items t no_txn ≡ txn_in machine.now t) }
    ensures trimmed { IfOk result (λ txns. IsTrimmed txns.items) }
{
    let count = txn_count(machine);
    let mut txns = Vec::with_capacity(alloc, count)?;
    for t in 0..count {
        txns.push(txn_of(machine, t))?;
    }
    Ok(txns)
}

// The edges in force, in a fixed order.
fn edges_of<A: Handle>(alloc: A, machine: &Machine<A>) -> Result<Vec<Edge, A>, AllocError>
    ensures all { IfOk result (λ edges. IsPermutation (edges_in machine.now) edges.items) }
    ensures ascending { IfOk result (λ edges. IsSorted edge_cmp edges.items) }
{
    let mut edges = Vec::from_slice(alloc, machine.edges())?;
    edges.sort_by_key(|edge| (edge.kind.code(), edge.j.0, edge.i.0))?;
    Ok(edges)
}

// The operations, each with the line that did it.
fn line_ops<A: Allocator>(
    alloc: A,
    steps: &[Step],
    items: &[HeldOp],
) -> Result<Vec<LineOp, A>, AllocError>
    ensures { IfOk result (λ ops. ops.items ≡ by_line (operated_lines steps.now) items.now) }
{
    let mut ops = Vec::with_capacity(alloc, items.len())?;
    let mut number = 0;
    for step in steps {
        if step.ret.is_none() {
            continue;
        }
        let Some(held) = items.get(number) else {
            break;
        };
        ops.push(LineOp {
            line: step.line,
            held: *held,
        })?;
        number += 1;
    }
    Ok(ops)
}

// The same, sorted by object; operations on one object keep their order.
fn operations_of<A: Handle>(alloc: A, point: &Point<A>) -> Result<Vec<LineOp, A>, AllocError>
    ensures by_object { IfOk result (λ ops. (ob : ℕ) → filter (is_on ob) ops.items ≡ filter (is_on ob) (ops_by_line point.now)) }
    ensures ascending { IfOk result (λ ops. IsSortedByKey (λ o. o.held.ob.0) nat_cmp ops.items) }
{
    let mut ops = line_ops(alloc, point.steps(), point.machine().operations())?;
    ops.sort_by_key(|op| op.held.ob.0)?;
    Ok(ops)
}

impl<A: Handle> Key<A> {
    /// The key of the point.
    pub(crate) fn of(alloc: A, plan: &Plan<'_, A>, point: &Point<A>) -> Result<Key<A>, AllocError>
        ensures { IfOk result (IsKeyOf plan.now point.now) }
    {
        let machine = point.machine();
        Ok(Key {
            kept: machine.history().len(),
            lines: plan.lines_done(alloc, point.steps())?,
            txns: txns_of(alloc, machine)?,
            edges: edges_of(alloc, machine)?,
            operations: operations_of(alloc, point)?,
            permits: machine.permits()?,
        })
    }
}
