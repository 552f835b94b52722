ghost use Rattle.std.specs.Prelude.{◌≡◌, ◌≤◌, [], ℕ, IfOk, OnErr, OnOk, get_or, length, max};

use std::alloc::{AllocError, Allocator};

/// A list for use in a field. Contracts see it as the list of its elements.
#[derive(Drop)]
pub struct Items<T, A: Allocator> {
    items: Vec<T, A>,
}

impl<T, A: Allocator> std::marker::Model for Items<T, A> {
    ghost use Rattle.std.specs.Prelude.{List};

    ghost Value = { List T };

    ghost view = { λ s. s.items.items };
}

impl<T, A: Allocator> Items<T, A> {
    /// The empty list. Allocates nothing.
    pub fn new(alloc: A) -> Items<T, A>
        ensures { result ≡ [] }
    {
        Items {
            items: Vec::new(alloc),
        }
    }

    /// Takes over the vector, without copying.
    pub fn of(items: Vec<T, A>) -> Items<T, A>
        ensures { result ≡ items.items }
    {
        Items { items }
    }

    /// The elements, in order.
    pub fn as_slice(&self) -> &[T]
        ensures { result.now ≡ self.now }
    {
        self.items.as_slice()
    }
}

impl<T, A: Allocator + Copy> Items<T, A> {
    /// The allocator of the list.
    pub(crate) fn allocator(&self) -> A {
        *self.items.allocator()
    }
}

impl<T: Copy, A: Allocator + Copy> Items<T, A> {
    /// Returns a copy of the list.
    pub fn copy(&self) -> Result<Items<T, A>, AllocError>
        ensures { IfOk result (λ items. items ≡ self.now) }
    {
        Ok(Items {
            items: Vec::from_slice(self.allocator(), self.as_slice())?,
        })
    }
}

/// Extends the list to the given length with copies of the item. A list that is long enough is unchanged, and so is the
/// list on `Err`.
pub fn lengthen<T: Copy, A: Allocator>(
    items: &mut Vec<T, A>,
    count: usize,
    item: T,
) -> Result<(), AllocError>
    ensures same { (k : ℕ) → get_or items.new.items k item ≡ get_or items.old.items k item }
    ensures room { OnOk result (count ≤ length items.new.items) }
    ensures few { length items.new.items ≤ max (length items.old.items) count }
    ensures err { OnErr result (items.new.items ≡ items.old.items) }
{
    if items.len() < count {
        items.resize(count, item)?;
    }
    Ok(())
}
