ghost use Rattle.std.specs.Prelude.{◌≡◌, ◌<◌, ◌^◌, [], ℤ, false, not, length, IfOk, OnOk, OnErr};
ghost use Rattle.std.specs.Ordering.{int_eq, int_cmp};
ghost use Rattle.std.specs.BTreeSet.{insert_key};
ghost use Rattle.std.specs.Set.{remove_key, is_member};
ghost use Rattle.std.specs.List.Sorted.{IsStrictlySortedBy};
ghost use Rattle.std.specs.Map.Iter.{ShowsInOrder, deref};

use std::alloc::{AllocError, Allocator};
use std::collections::BTreeSet;
use std::collections::btree_set::Iter;

/// A finite set of numbers. Contracts see its elements in ascending order.
#[derive(Drop)]
pub struct Members<A: Allocator> {
    elements: BTreeSet<i32, A>,
}

impl<A: Allocator> std::marker::Model for Members<A> {
    ghost use Rattle.std.specs.Prelude.{List, ℤ};

    ghost Value = { List ℤ };

    ghost view = { λ m. m.elements.keys };
}

impl<A: Allocator> Members<A> {
    /// The empty set. Allocates nothing.
    pub fn new(alloc: A) -> Members<A>
        ensures { result ≡ [] }
    {
        Members {
            elements: BTreeSet::new(alloc),
        }
    }

    /// Iterates over the elements, ascending, each once. Allocates nothing.
    pub fn items(&self) -> Iter<'_, i32>
        ensures elements { result ≡ self.now }
        ensures ascending { IsStrictlySortedBy int_cmp self.now }
        // What the iterator shows, from the first on, is what it has left.
        ensures runs { ShowsInOrder (deref {X = ℤ}) }
    {
        self.elements.iter()
    }

    /// The number of elements.
    pub fn len(&self) -> usize
        ensures len { result ≡ length self.now }
        ensures small { result < 2 ^ 63 }
    {
        self.elements.len()
    }

    /// Whether the element is present.
    pub fn contains(&self, x: i32) -> bool
        ensures { result ≡ is_member int_eq self.now x }
    {
        self.elements.contains(&x)
    }

    /// Removes the element, and returns whether it was present.
    pub fn remove(&mut self, x: i32) -> bool
        ensures was { result ≡ is_member int_eq self.old x }
        ensures without { self.new ≡ remove_key (int_eq x) self.old }
    {
        self.elements.remove(&x)
    }
}

impl<A: Allocator + Copy> Members<A> {
    /// The elements, ascending, as a list.
    pub fn listed(&self, alloc: A) -> Result<Vec<i32, A>, AllocError>
        ensures { IfOk result (λ list. list.items ≡ self.now) }
    {
        self.items().copied().collect(alloc)
    }

    /// Inserts the element, and returns whether it was absent. On `Err` the set is unchanged; only an absent element
    /// can fail.
    pub fn insert(&mut self, x: i32) -> Result<bool, AllocError>
        ensures was { IfOk result (λ added. added ≡ not (is_member int_eq self.old x)) }
        ensures with { OnOk result (self.new ≡ insert_key int_cmp self.old x) }
        ensures err { OnErr result (self.new ≡ self.old) }
        ensures absent { OnErr result (is_member int_eq self.old x ≡ false) }
    {
        Ok(self.elements.insert(x)?)
    }

    /// Returns a copy of the set.
    pub fn copy(&self) -> Result<Members<A>, AllocError>
        ensures { IfOk result (λ members. members ≡ self.now) }
    {
        Ok(Members {
            elements: self.elements.clone()?,
        })
    }
}
