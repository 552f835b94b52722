ghost use Rattle.std.specs.Prelude.{◌≡◌, [], ◌∷◌, ◌++◌, OnOk, OnErr};
ghost use Rattle.acta_values.specs.Trails.{without, AreBelow, last_or};

use std::alloc::{AllocError, Allocator};

/// An item with the number of the operation that made it.
#[derive(Clone, Copy, PartialEq, Eq, Debug)]
pub struct Numbered<T> {
    pub number: u32,
    pub item: T,
}

/// The items of successive operations, each of which can be removed. Contracts see the list, by ascending number.
#[derive(Drop)]
pub struct Trail<T, A: Allocator> {
    items: Vec<Numbered<T>, A>,
}

impl<T, A: Allocator> std::marker::Model for Trail<T, A> {
    ghost use Rattle.std.specs.Prelude.{List};
    ghost use Rattle.acta_values.specs.declared.trail.Numbered.{Numbered};
    ghost use Rattle.acta_values.specs.Trails.{IsAscending};

    ghost Value = { List (Numbered T) };

    ghost view = { λ trail. trail.items.items };

    ghost invariant = { λ trail. IsAscending trail.items.items };
}

impl<T: Copy, A: Allocator> Trail<T, A> {
    /// The empty trail. Allocates nothing.
    pub fn new(alloc: A) -> Trail<T, A>
        ensures { result ≡ [] }
    {
        Trail {
            items: Vec::new(alloc),
        }
    }

    /// The last item, or the default if there is none.
    pub fn last_or(&self, default: T) -> T
        ensures { result ≡ last_or default self.now }
    {
        match self.items.last() {
            Some(last) => last.item,
            None => default,
        }
    }

    /// Appends an item. All earlier numbers are lower. On `Err` the trail is unchanged.
    pub fn push(&mut self, number: u32, item: T) -> Result<(), AllocError>
        requires { AreBelow number self.old }
        ensures ok { OnOk result (self.new ≡ self.old ++ (record { number = number; item = item }) ∷ []) }
        ensures err { OnErr result (self.new ≡ self.old) }
    {
        self.items.push(Numbered { number, item })?;
        Ok(())
    }

    /// Removes the item with this number, if there is one. Allocates nothing.
    pub fn remove(&mut self, number: u32)
        ensures { self.new ≡ without number self.old }
    {
        if let Ok(place) = self.items.binary_search_by_key(&number, |step| step.number) {
            self.items.remove(place);
        }
    }
}

impl<T: Copy, A: Allocator + Copy> Clone for Trail<T, A> {
    ghost is_clone = { λ trail clone. clone ≡ trail };

    /// Returns a copy of the trail.
    fn clone(&self) -> Result<Trail<T, A>, AllocError> {
        Ok(Trail {
            items: Vec::from_slice(*self.items.allocator(), self.items.as_slice())?,
        })
    }
}
