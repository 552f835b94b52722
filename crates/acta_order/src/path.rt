ghost use Rattle.std.specs.Prelude.{◌≡◌, ◌<◌, ◌≤◌, ℕ, true, false, [], ◌∷◌, IfOk, OnOk, MatchOption, get_or, length, reverse};
ghost use Rattle.acta_order.specs.Orders.{is_in, AreDistinct};

use std::alloc::{AllocError, Allocator};

// The positions that are placed, in order. Contracts see them as a stack, the last first, and the number of all positions.
#[derive(Drop)]
pub(crate) struct Path<A: Allocator> {
    taken: Vec<usize, A>,
    marks: Vec<bool, A>,
}

impl<A: Allocator> std::marker::Model for Path<A> {
    ghost use Rattle.std.specs.Prelude.{◌≡◌, ℕ, false, reverse, get_or, length};
    ghost use Rattle.acta_order.specs.Paths.{Steps};
    ghost use Rattle.acta_order.specs.Orders.{is_in, AreDistinct};

    ghost Value = { Steps };

    ghost view = { λ p. record { stack = reverse p.taken.items; size = length p.marks.items } };

    ghost invariant = { λ p. ((j : ℕ) → get_or p.marks.items j false ≡ is_in (reverse p.taken.items) j) × AreDistinct (reverse p.taken.items) };
}

impl<A: Allocator + Copy> Path<A> {
    /// A path over `size` positions, none of which is placed.
    pub(crate) fn new(alloc: A, size: usize) -> Result<Path<A>, AllocError>
        ensures { IfOk result (λ path. path ≡ record { stack = []; size = size }) }
    {
        let mark = false;
        Ok(Path {
            taken: Vec::new(alloc),
            marks: vec![in alloc; mark; size]?,
        })
    }

    /// How many positions are placed.
    pub(crate) fn count(&self) -> usize
        ensures { result ≡ length self.now.stack }
    {
        self.taken.len()
    }

    /// Whether the position is placed.
    pub(crate) fn has(&self, j: usize) -> bool
        requires { j < self.now.size }
        ensures { result ≡ is_in self.now.stack j }
    {
        self.marks[j]
    }

    /// Places a position that isn't placed yet.
    pub(crate) fn push(&mut self, c: usize) -> Result<(), AllocError>
        requires within { c < self.old.size }
        requires new { is_in self.old.stack c ≡ false }
        ensures { OnOk result (self.new ≡ record self.old { stack = c ∷ self.old.stack }) }
    {
        self.taken.push(c)?;
        self.marks[c] = true;
        Ok(())
    }

    /// Takes back the position that was placed last.
    pub(crate) fn pop(&mut self) -> Option<usize>
        ensures none { MatchOption result (self.old.stack ≡ []) (λ c. self.old.stack ≡ c ∷ self.new.stack) }
        ensures size { self.new.size ≡ self.old.size }
    {
        let c = self.taken.pop()?;
        if c < self.marks.len() {
            self.marks[c] = false;
        }
        Some(c)
    }

    /// The first position from `from` on that isn't placed, or the number of positions.
    pub(crate) fn first_open(&self, from: usize) -> usize
        ensures passed { (j : ℕ) → from ≤ j → j < result → is_in self.now.stack j ≡ true }
        ensures distinct { AreDistinct self.now.stack }
        ensures within { (j : ℕ) → is_in self.now.stack j ≡ true → j < self.now.size }
        ensures open { result < self.now.size → is_in self.now.stack result ≡ false }
        ensures high { from ≤ self.now.size → result ≤ self.now.size }
        ensures low { from ≤ result }
    {
        for j in from..self.marks.len() {
            if !self.marks[j] {
                return j;
            }
        }
        from.max(self.marks.len())
    }

    /// A mark for each position: whether it is placed.
    pub(crate) fn marks(&self) -> &[bool]
        ensures long { length result.now ≡ self.now.size }
        ensures are { (j : ℕ) → get_or result.now j false ≡ is_in self.now.stack j }
    {
        &self.marks
    }

    /// The positions that are placed, in order.
    pub(crate) fn taken(&self) -> &[usize]
        ensures { result.now ≡ reverse self.now.stack }
    {
        &self.taken
    }
}
