ghost use Rattle.std.specs.Prelude.{◌≡◌, ◌+◌, ◌<◌, ◌^◌, [], length, IfOk, OnOk, OnErr};
ghost use Rattle.std.specs.Ordering.{int_eq};
ghost use Rattle.std.specs.Set.{is_member};
ghost use Rattle.acta_objects.specs.Objects.{set_return};
ghost use Rattle.acta_values.specs.Trails.{AreBelow};
ghost use Rattle.acta_values.specs.LiveSets.{IsOrdered, trail_at, is_on, one_if, count_on, elements_of, IsMarked, IsUnmarked};

use crate::trail::Trail;
use acta_objects::Members;
use acta_table::{Op, Ret};
use std::alloc::{AllocError, Allocator};
use std::collections::BTreeMap;

/// A finite set of numbers whose insertions and removals can be undone in any order. Contracts see the trail of each
/// element.
#[derive(Drop)]
pub struct LiveSet<A: Allocator> {
    alloc: A,
    marks: BTreeMap<i32, Trail<bool, A>, A>,
    // The number of elements present.
    present: usize,
}

impl<A: Allocator> std::marker::Model for LiveSet<A> {
    ghost use Rattle.std.specs.Prelude.{◌≡◌, ℤ, List, Bool};
    ghost use Rattle.acta_values.specs.declared.trail.Numbered.{Numbered};
    ghost use Rattle.acta_values.specs.LiveSets.{count_on};

    ghost Value = { List (ℤ × List (Numbered Bool)) };

    ghost view = { λ set. set.marks.entries };

    ghost invariant = { λ set. set.present ≡ count_on set.marks.entries };
}

// Does nothing: the proof learns from the call that the elements ascend and that their number is bounded.
fn read_order<A: Allocator>(marks: &BTreeMap<i32, Trail<bool, A>, A>)
    ensures ordered { IsOrdered marks.now.entries }
    ensures small { length marks.now.entries < 2 ^ 63 }
    ensures count { count_on marks.now.entries < 2 ^ 63 }
{
    let _len = marks.len();
}

// Appends an item to the trail of an element, and returns whether the element was present.
fn put_mark<A: Allocator + Copy>(
    alloc: A,
    marks: &mut BTreeMap<i32, Trail<bool, A>, A>,
    number: u32,
    x: i32,
    on: bool,
) -> Result<bool, AllocError>
    requires { AreBelow number (trail_at marks.old.entries x) }
    ensures was { IfOk result (λ was. was ≡ is_on (trail_at marks.old.entries x)) }
    ensures marked { OnOk result (IsMarked number x on marks.old.entries marks.new.entries) }
    ensures count { IfOk result (λ was. count_on marks.new.entries + one_if was ≡ count_on marks.old.entries + one_if on) }
    ensures err { OnErr result (marks.new.entries ≡ marks.old.entries) }
{
    match marks.get_mut(&x) {
        Some(trail) => {
            let was = trail.last_or(false);
            trail.push(number, on)?;
            Ok(was)
        }
        None => {
            let mut trail = Trail::new(alloc);
            trail.push(number, on)?;
            marks.insert(x, trail)?;
            Ok(false)
        }
    }
}

// Removes an item from the trail of an element, and returns whether the element was present before, and is now.
fn take_mark<A: Allocator>(
    marks: &mut BTreeMap<i32, Trail<bool, A>, A>,
    number: u32,
    x: i32,
) -> (bool, bool)
    ensures unmarked { IsUnmarked number x marks.old.entries marks.new.entries }
    ensures count { count_on marks.new.entries + one_if result.0 ≡ count_on marks.old.entries + one_if result.1 }
{
    match marks.get_mut(&x) {
        Some(trail) => {
            let was = trail.last_or(false);
            trail.remove(number);
            (was, trail.last_or(false))
        }
        None => (false, false),
    }
}

impl<A: Allocator + Copy> LiveSet<A> {
    /// The empty set. Allocates nothing.
    pub fn new(alloc: A) -> LiveSet<A>
        ensures { result ≡ [] }
    {
        LiveSet {
            alloc,
            marks: BTreeMap::new(alloc),
            present: 0,
        }
    }

    // Whether the element is present.
    fn has(&self, x: i32) -> bool
        ensures { result ≡ is_member int_eq (elements_of self.now) x }
    {
        read_order(&self.marks);
        match self.marks.get(&x) {
            Some(trail) => trail.last_or(false),
            None => false,
        }
    }

    // The number of elements present.
    fn len(&self) -> usize
        ensures len { result ≡ length (elements_of self.now) }
        ensures small { result < 2 ^ 63 }
    {
        read_order(&self.marks);
        self.present
    }

    /// The return that the operation would have. Allocates nothing.
    pub fn due(&self, op: &Op) -> Ret
        ensures returned { result ≡ set_return (elements_of self.now) op.now }
        ensures ordered { IsOrdered self.now }
    {
        read_order(&self.marks);
        match op {
            Op::Insert(x) => Ret::Flag(!self.has(*x)),
            Op::Remove(x) | Op::Has(x) => Ret::Flag(self.has(*x)),
            Op::Size => Ret::Value(self.len() as i64),
            _ => Ret::Done,
        }
    }

    /// Does the operation, an insertion or a removal. Its number is higher than all earlier ones. On `Err` the set is
    /// unchanged.
    pub fn mark(&mut self, number: u32, x: i32, on: bool) -> Result<(), AllocError>
        requires { AreBelow number (trail_at self.old x) }
        ensures marked { OnOk result (IsMarked number x on self.old self.new) }
        ensures err { OnErr result (self.new ≡ self.old) }
    {
        let was = put_mark(self.alloc, &mut self.marks, number, x, on)?;
        read_order(&self.marks);
        self.present = self.present + on as usize - was as usize;
        Ok(())
    }

    /// Undoes the insertion or removal with this number. Allocates nothing.
    pub fn unmark(&mut self, number: u32, x: i32)
        ensures { IsUnmarked number x self.old self.new }
    {
        let (was, is) = take_mark(&mut self.marks, number, x);
        read_order(&self.marks);
        self.present = self.present + is as usize - was as usize;
    }

    /// The elements present.
    pub fn members(&self) -> Result<Members<A>, AllocError>
        ensures members { IfOk result (λ members. members ≡ elements_of self.now) }
        ensures ordered { IsOrdered self.now }
    {
        read_order(&self.marks);
        let mut members = Members::new(self.alloc);
        for (x, trail) in &self.marks {
            if trail.last_or(false) {
                members.insert(*x)?;
            }
        }
        Ok(members)
    }

    /// Returns a copy of the set.
    pub fn copy(&self) -> Result<LiveSet<A>, AllocError>
        ensures { IfOk result (λ set. set ≡ self.now) }
    {
        Ok(LiveSet {
            alloc: self.alloc,
            marks: self.marks.clone()?,
            present: self.present,
        })
    }
}
