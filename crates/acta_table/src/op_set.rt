ghost use Rattle.std.specs.Prelude.{◌≡◌, Decides, [], fold, IfOk, IsTrue};
ghost use Rattle.std.specs.BTreeSet.{insert_key};
ghost use Rattle.std.specs.List.Sorted.{IsStrictlySortedBy};
ghost use Rattle.std.specs.Ordering.{nat_cmp};
ghost use Rattle.acta_table.specs.Sets.{numbers_of, numbered, each_once, is_named};

use crate::event::OpNo;
use crate::items::Items;
use std::alloc::{AllocError, Allocator};
use std::collections::BTreeSet;

/// A set of operation numbers. Contracts see the numbers in ascending order, each once.
#[derive(Drop)]
pub struct OpSet<A: Allocator> {
    ops: Items<OpNo, A>,
}

impl<A: Allocator> std::marker::Model for OpSet<A> {
    ghost use Rattle.std.specs.Prelude.{List};
    ghost use Rattle.std.specs.List.Sorted.{IsStrictlySortedBy};
    ghost use Rattle.std.specs.Ordering.{nat_cmp};
    ghost use Rattle.acta_table.specs.declared.event.OpNo.{OpNo};
    ghost use Rattle.acta_table.specs.Sets.{numbers_of};

    ghost Value = { List OpNo };

    ghost view = { λ s. s.ops };

    ghost invariant = { λ s. IsStrictlySortedBy nat_cmp (numbers_of s.ops) };
}

// The numbers as an ordered set.
fn ordered<A: Allocator + Copy>(alloc: A, ops: &[OpNo]) -> Result<BTreeSet<u32, A>, AllocError>
    ensures { IfOk result (λ set. set.keys ≡ fold (insert_key nat_cmp) [] (numbers_of ops.now)) }
{
    let mut set = BTreeSet::new(alloc);
    for op in ops {
        set.insert(op.0)?;
    }
    Ok(set)
}

// The elements of the ordered set, ascending.
fn listed<A: Allocator + Copy>(alloc: A, set: &BTreeSet<u32, A>) -> Result<Vec<OpNo, A>, AllocError>
    ensures listed { IfOk result (λ ops. ops.items ≡ numbered set.now.keys) }
    ensures ascending { IsStrictlySortedBy nat_cmp set.now.keys }
{
    let mut ops = Vec::with_capacity(alloc, set.len())?;
    for number in set.iter() {
        ops.push(OpNo(*number))?;
    }
    Ok(ops)
}

// Whether the numbers are strictly ascending.
fn ascend(ops: &[OpNo]) -> bool
    ensures { IsTrue result → IsStrictlySortedBy nat_cmp (numbers_of ops.now) }
{
    ops.is_sorted_by(|op, next| op.0 < next.0)
}

impl<A: Allocator> OpSet<A> {
    /// Whether the two sets have the same numbers.
    pub fn is_same(&self, other: &OpSet<A>) -> bool
        ensures { Decides result (self.now ≡ other.now) }
    {
        self.as_slice() == other.as_slice()
    }

    /// Whether the operation with this number is in the set.
    pub fn has_number(&self, number: usize) -> bool
        ensures { result ≡ is_named self.now number }
    {
        self.as_slice()
            .binary_search_by_key(&number, |op| op.0 as usize)
            .is_ok()
    }

    /// The numbers, ascending, each once.
    pub fn as_slice(&self) -> &[OpNo]
        ensures items { result.now ≡ self.now }
        ensures ascending { IsStrictlySortedBy nat_cmp (numbers_of self.now) }
    {
        self.ops.as_slice()
    }
}

impl<A: Allocator + Copy> OpSet<A> {
    /// The set of these numbers. Numbers of operations that do not exist are allowed.
    pub fn of(alloc: A, ops: &[OpNo]) -> Result<OpSet<A>, AllocError>
        ensures { IfOk result (λ set. set ≡ each_once ops.now) }
    {
        // (fast path: sets are nearly always written in ascending order)
        if ascend(ops) {
            return Ok(OpSet {
                ops: Items::of(Vec::from_slice(alloc, ops)?),
            });
        }
        let set = ordered(alloc, ops)?;
        Ok(OpSet {
            ops: Items::of(listed(alloc, &set)?),
        })
    }

    /// Returns a copy of the set.
    pub fn copy(&self) -> Result<OpSet<A>, AllocError>
        ensures { IfOk result (λ set. set ≡ self.now) }
    {
        Ok(OpSet {
            ops: self.ops.copy()?,
        })
    }
}
