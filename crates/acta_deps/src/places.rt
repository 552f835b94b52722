ghost use Rattle.std.specs.Prelude.{◌≡◌, ◌<◌, ◌≤◌, ◌-◌, ◌++◌, ◌∷◌, [], IfOk, OnOk, OnErr, length, take, get_or, vec_capacity};
ghost use Rattle.acta_deps.specs.inside.Places.{latest};

use acta_table::{LAST_TXN, MOST_EDGES, TxnId, lengthen};
use std::alloc::{AllocError, Allocator};

/// A list of at most 16,384 transactions (numbers 0 to 16,383). The places of each transaction are linked, from the
/// last to the one before. Places count from 1, and 0 means none. Contracts see the list.
#[derive(Drop)]
pub(crate) struct Places<A: Allocator> {
    txns: Vec<u16, A>,
    last: Vec<u16, A>,
    before: Vec<u16, A>,
}

impl<A: Allocator> std::marker::Model for Places<A> {
    ghost use Rattle.std.specs.Prelude.{◌≡◌, ◌≤◌, ◌<◌, ℕ, List, length, get_or};
    ghost use Rattle.acta_table.specs.declared.limits.TheConstants.{MOST_EDGES};
    ghost use Rattle.acta_deps.specs.inside.Places.{latest};

    ghost Value = { List ℕ };

    ghost view = { λ p. p.txns.items };

    ghost invariant = { λ p. record {
      linked : length p.before.items ≡ length p.txns.items;
      few : length p.txns.items ≤ MOST_EDGES;
      lasts : (t : ℕ) → get_or p.last.items t 0 ≡ latest p.txns.items t (length p.txns.items);
      befores : (k : ℕ) → k < length p.txns.items → get_or p.before.items k 0 ≡ latest p.txns.items (get_or p.txns.items k 0) k;
    } };
}

/// Appends the item to a vector that has room.
pub(crate) fn put<T: Copy, A: Allocator>(items: &mut Vec<T, A>, item: T)
    requires { length items.old.items < vec_capacity items.old }
    ensures { items.new.items ≡ items.old.items ++ item ∷ [] }
{
    let _ = items.push(item);
}

impl<A: Allocator> Places<A> {
    /// The number of transactions in the list.
    pub(crate) fn len(&self) -> usize
        ensures len { result ≡ length self.now }
        ensures few { result ≤ MOST_EDGES }
    {
        self.txns.len()
    }

    /// The last place of the transaction, or 0.
    pub(crate) fn last(&self, t: TxnId) -> u16
        ensures { result ≡ latest self.now t.0 (length self.now) }
    {
        self.last_of(u32::from(t.0))
    }

    /// The last place of the transaction with this number, or 0.
    pub(crate) fn last_of(&self, number: u32) -> u16
        ensures { result ≡ latest self.now number (length self.now) }
    {
        match self.last.get(number as usize) {
            Some(place) => *place,
            None => 0,
        }
    }

    /// The closest earlier place with the same transaction, or 0.
    pub(crate) fn before(&self, place: u16) -> u16
        requires place { 0 < place }
        requires within { place ≤ length self.now }
        ensures { result ≡ latest self.now (get_or self.now (place - 1) 0) (place - 1) }
    {
        self.before[place as usize - 1]
    }

    /// Appends the transaction. On `Err` the list is unchanged.
    pub(crate) fn push(&mut self, t: TxnId) -> Result<(), AllocError>
        requires known { t.0 ≤ LAST_TXN }
        requires few { length self.old < MOST_EDGES }
        ensures ok { OnOk result (self.new ≡ self.old ++ t.0 ∷ []) }
        ensures err { OnErr result (self.new ≡ self.old) }
    {
        self.txns.reserve(1)?;
        self.before.reserve(1)?;
        lengthen(&mut self.last, t.0 as usize + 1, 0)?;
        put(&mut self.before, self.last[t.0 as usize]);
        put(&mut self.txns, t.0);
        self.last[t.0 as usize] = self.txns.len() as u16;
        Ok(())
    }

    /// Removes the last transaction.
    pub(crate) fn pop(&mut self)
        requires { 0 < length self.old }
        ensures { self.new ≡ take (length self.old - 1) self.old }
    {
        let rest = self.txns.len() - 1;
        let t = self.txns[rest];
        self.last[t as usize] = self.before[rest];
        self.txns.truncate(rest);
        self.before.truncate(rest);
    }

    /// Keeps the first `n` transactions and removes the others.
    pub(crate) fn truncate(&mut self, count: usize)
        ensures { self.new ≡ take count self.old }
    {
        while self.len() > count {
            self.pop();
        }
    }
}

impl<A: Allocator + Copy> Places<A> {
    /// The empty list. Allocates nothing.
    pub(crate) fn new(alloc: A) -> Places<A>
        ensures { result ≡ [] }
    {
        Places {
            txns: Vec::new(alloc),
            last: Vec::new(alloc),
            before: Vec::new(alloc),
        }
    }

    /// Returns a copy of the list.
    pub(crate) fn copy(&self) -> Result<Places<A>, AllocError>
        ensures { IfOk result (λ places. places ≡ self.now) }
    {
        let alloc = *self.txns.allocator();
        Ok(Places {
            txns: Vec::from_slice(alloc, &self.txns)?,
            last: Vec::from_slice(alloc, &self.last)?,
            before: Vec::from_slice(alloc, &self.before)?,
        })
    }
}
