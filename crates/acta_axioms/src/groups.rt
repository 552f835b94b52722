ghost use Rattle.std.specs.Prelude.{◌≡◌, ◌<◌, ◌==◌, ℕ, [], ◌∷◌, ◌++◌, get_or, length, if◌then◌else◌, OnErr, OnOk};

use acta_table::TxnId;
use std::alloc::{AllocError, Allocator};

/// Items grouped by transaction number. Contracts see a list for each number up to the largest that was named.
#[derive(Drop)]
pub struct Groups<T, A: Allocator> {
    lists: Vec<Vec<T, A>, A>,
}

impl<T, A: Allocator> std::marker::Model for Groups<T, A> {
    ghost use Rattle.std.specs.Prelude.{List, map};

    ghost Value = { List (List T) };

    ghost view = { λ g. map (λ list. list.items) g.lists.items };
}

impl<T: Copy, A: Allocator + Copy> Groups<T, A> {
    /// No items.
    pub fn new(alloc: A) -> Groups<T, A>
        ensures { result ≡ [] }
    {
        Groups {
            lists: Vec::new(alloc),
        }
    }

    // Extends the table so that the transaction has a list. Nothing else changes.
    fn make_room(&mut self, t: TxnId) -> Result<(), AllocError>
        ensures same { (u : ℕ) → get_or self.new u [] ≡ get_or self.old u [] }
        ensures room { OnOk result (t.0 < length self.new) }
    {
        let alloc = *self.lists.allocator();
        for _ in self.lists.len()..usize::from(t.0) + 1 {
            self.lists.push(Vec::new(alloc))?;
        }
        Ok(())
    }

    /// Appends an item to the transaction's list. On `Err` the items are unchanged.
    pub fn put(&mut self, t: TxnId, item: T) -> Result<(), AllocError>
        ensures ok { OnOk result ((u : ℕ) → get_or self.new u [] ≡ get_or self.old u [] ++ (if t.0 == u then item ∷ [] else [])) }
        ensures err { OnErr result ((u : ℕ) → get_or self.new u [] ≡ get_or self.old u []) }
    {
        self.make_room(t)?;
        let list = &mut self.lists[usize::from(t.0)];
        list.push(item)?;
        Ok(())
    }

    /// The items of the transaction with this number, in the order in which they were added.
    pub fn of(&self, t: usize) -> &[T]
        ensures { result.now ≡ get_or self.now t [] }
    {
        match self.lists.get(t) {
            Some(list) => list.as_slice(),
            None => &[],
        }
    }
}
