//! Who is whose parent.

ghost use Rattle.std.specs.Prelude.{◌≡◌, ◌≢◌, ◌<◌, ◌≤◌, ◌+◌, ℕ, suc, [], Some, true, false, IfOk, IfSome, get_or};
ghost use Rattle.acta_sets.specs.Lineages.{unknown, parent_in, depth_in, is_in_line, IsEntered, IsStill};

use acta_table::{TxnId, lengthen};
use std::alloc::{AllocError, Allocator};

/// What is remembered of a transaction.
#[derive(Clone, Copy)]
pub struct Entry {
    pub parent: Option<TxnId>,
    /// How many ancestors it has.
    pub depth: usize,
    /// One of its ancestors, if it has any, so that few steps lead to each.
    pub jump: u16,
    /// Whether it has a parent or is one.
    pub is_known: bool,
}

// What is remembered of other transactions.
const UNKNOWN: Entry = Entry {
    parent: None,
    depth: 0,
    jump: 0,
    is_known: false,
};

// What is remembered of the transaction, by its number.
fn entry_at(entries: &[Entry], t: u16) -> Entry
    ensures { result ≡ get_or entries.now t unknown }
{
    match entries.get(t as usize) {
        Some(entry) => *entry,
        None => UNKNOWN,
    }
}

/// The parents of transactions, as far as they are remembered. Where memory runs out they are not.
#[derive(Drop)]
pub(crate) struct Lineage<A: Allocator> {
    // By transaction number.
    entries: Vec<Entry, A>,
    // The greatest depth, at most.
    most: usize,
}

impl<A: Allocator> std::marker::Model for Lineage<A> {
    ghost use Rattle.acta_sets.specs.Lineages as lineages;

    ghost Value = { lineages.Lineage };

    ghost view = { λ l. record { entries = l.entries.items; most = l.most } };

    ghost invariant = { λ l. lineages.IsWellFounded (record { entries = l.entries.items; most = l.most }) };
}

impl<A: Allocator + Copy> Lineage<A> {
    /// No parents. Allocates nothing.
    pub(crate) fn new(alloc: A) -> Lineage<A>
        ensures { result ≡ record { entries = []; most = 0 } }
    {
        Lineage {
            entries: Vec::new(alloc),
            most: 0,
        }
    }

    /// Returns a copy.
    pub(crate) fn copy(&self) -> Result<Lineage<A>, AllocError>
        ensures { IfOk result (λ copied. copied ≡ self.now) }
    {
        let alloc = *self.entries.allocator();
        Ok(Lineage {
            entries: Vec::from_slice(alloc, self.entries.as_slice())?,
            most: self.most,
        })
    }

    /// Whether no parent is remembered. `false` says nothing.
    pub(crate) fn is_empty(&self) -> bool {
        self.entries.is_empty()
    }

    // What is remembered of the transaction.
    fn entry(&self, t: u16) -> Entry
        ensures { result ≡ get_or self.now.entries t unknown }
    {
        entry_at(&self.entries, t)
    }

    /// The parent of the transaction.
    pub(crate) fn parent(&self, t: u16) -> Option<TxnId>
        ensures parent { result ≡ parent_in self.now t }
        ensures deeper { IfSome result (λ p. depth_in self.now t ≡ suc (depth_in self.now p.0)) }
    {
        let _ = &self.entries;
        self.entry(t).parent
    }

    /// Whether `u` is the parent of `t`. Then it is above all who are below `t`.
    pub(crate) fn is_parent(&self, t: u16, u: u16) -> bool
        ensures { result ≡ true → (h : ℕ) → is_in_line self.now t h ≡ true → is_in_line self.now u h ≡ true }
    {
        let _ = &self.entries;
        match self.parent(t) {
            Some(parent) => parent.0 == u,
            None => false,
        }
    }

    /// How many ancestors the transaction has.
    pub(crate) fn depth(&self, t: u16) -> usize
        ensures depth { result ≡ depth_in self.now t }
        ensures shallow { result ≤ self.now.most }
    {
        let _ = &self.entries;
        self.entry(t).depth
    }

    /// An ancestor of the transaction, if it has any, that is as deep as this or deeper: as high as one step leads.
    pub(crate) fn next_above(&self, t: u16, depth: usize) -> Option<u16>
        ensures above { IfSome result (λ u. (x : ℕ) → is_in_line self.now x u ≡ true → is_in_line self.now x t ≡ true) }
        ensures higher { IfSome result (λ u. depth_in self.now u < depth_in self.now t) }
    {
        let _ = &self.entries;
        let parent = self.parent(t)?;
        let jump = self.entry(t).jump;
        if self.depth(jump) < depth {
            Some(parent.0)
        } else {
            Some(jump)
        }
    }

    // The jump of a child of the transaction: twice as far as its own jump leads, if that is as far as the one before, and
    // otherwise to the transaction itself.
    fn jump_from(&self, parent: u16) -> u16
        ensures { is_in_line self.now result parent ≡ true }
    {
        let _ = &self.entries;
        let Some(_) = self.parent(parent) else {
            return parent;
        };
        let near = self.entry(parent).jump;
        let Some(_) = self.parent(near) else {
            return parent;
        };
        let far = self.entry(near).jump;
        let gap = self.depth(parent).saturating_sub(self.depth(near));
        if gap == self.depth(near).saturating_sub(self.depth(far)) {
            far
        } else {
            parent
        }
    }

    /// Whether `u` is `t` or an ancestor of `t`. Then so are all ancestors of `u`.
    pub(crate) fn is_in_line(&self, u: u16, t: u16) -> bool
        ensures { result ≡ true → (x : ℕ) → is_in_line self.now x u ≡ true → is_in_line self.now x t ≡ true }
    {
        let depth = self.depth(u);
        let mut at = t;
        while self.depth(at) > depth {
            let Some(next) = self.next_above(at, depth) else {
                return false;
            };
            at = next;
        }
        at == u
    }

    // Remembers the parent of a transaction that is not known.
    fn link(&mut self, t: TxnId, parent: TxnId)
        requires unknown { (get_or self.old.entries t.0 unknown).is_known ≡ false }
        requires other { parent.0 ≢ t.0 }
        ensures entered { IsEntered self.old self.new t.0 (Some parent) }
        ensures most { self.new.most ≤ self.old.most + 1 }
        ensures still { IsStill self.old self.new }
    {
        let Some(most) = self.most.checked_add(1) else {
            return;
        };
        let depth = self.depth(parent.0) + 1;
        let jump = self.jump_from(parent.0);
        let count = t.0.max(parent.0) as usize + 1;
        if lengthen(&mut self.entries, count, UNKNOWN).is_err() {
            return;
        }
        let above = entry_at(&self.entries, parent.0);
        self.entries[parent.0 as usize] = Entry {
            is_known: true,
            ..above
        };
        self.entries[t.0 as usize] = Entry {
            parent: Some(parent),
            depth,
            jump,
            is_known: true,
        };
        self.most = most;
    }

    /// Remembers the parent of a transaction that begins, if it has one. Returns whether all that was remembered still
    /// is: a transaction that is known begins only in a history that is not legal, and then all parents are forgotten.
    pub(crate) fn enter(&mut self, t: TxnId, parent: Option<TxnId>) -> bool
        ensures entered { IsEntered self.old self.new t.0 parent }
        ensures most { self.new.most ≤ self.old.most + 1 }
        ensures still { result ≡ true → IsStill self.old self.new }
    {
        if self.entry(t.0).is_known {
            self.entries.clear();
            return false;
        }
        if let Some(parent) = parent {
            if parent.0 != t.0 {
                self.link(t, parent);
            }
        }
        true
    }
}
