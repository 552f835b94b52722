//! Which operations are held by one transaction and its ancestors, so that a class that exempts ancestors need not ask
//! for each of them.

ghost use Rattle.std.specs.Prelude.{◌≡◌, ◌≤◌, ◌+◌, ◌==◌, ◌||◌, ℕ, Bool, List, [], Some, true, false, IfOk, IfSome};
ghost use Rattle.std.specs.List.{list_any};
ghost use Rattle.acta_table.specs.Ancestors.{ancestors_from};
ghost use Rattle.acta_table.specs.Numbered.{numbers_where};
ghost use Rattle.acta_sets.specs.declared.held_op.HeldOp.{HeldOp as held_op};
ghost use Rattle.acta_sets.specs.declared.mode.Holder.TheVariants.{Anyone};
ghost use Rattle.acta_sets.specs.Lineages.{is_in_line, AreExempt, IsEntered};
ghost use Rattle.acta_sets.specs.Chains.{is_passed, ArePassed, AreRivals, IsMarked, AreChained, mark_at};
ghost use Rattle.acta_sets.specs.Operations.{is_against_but};
ghost use Rattle.acta_sets.specs.inside.Listing.{belongs, passes_at};
ghost use Rattle.acta_sets.specs.inside.Modes as modes;

use crate::handle::Handle;
use crate::lineage::Lineage;
use crate::mode::{LockMode, coarse_place};
use crate::table::OpTable;
use acta_table::{Fate, ObjId, Op, OpNo, TxnId, lengthen};
use std::alloc::AllocError;

/// How many operations at the start of a mode's list are passed: each has ended, or is held by `lowest` or by an
/// ancestor of it.
#[derive(Clone, Copy)]
pub struct Mark {
    pub upto: usize,
    pub lowest: u16,
}

const NO_MARK: Mark = Mark { upto: 0, lowest: 0 };

// The two coarse modes of operations that conflict with this one, or twice the same. `None` where it conflicts with
// operations that have no coarse mode.
fn rivals(op: &Op) -> Option<(LockMode, LockMode)>
    ensures { IfSome result (λ modes. AreRivals modes.0 modes.1 op.now) }
{
    match op {
        Op::Read => Some((LockMode::Writes, LockMode::Writes)),
        Op::Write(_) => Some((LockMode::Reads, LockMode::Writes)),
        Op::Get => Some((LockMode::Adds, LockMode::Adds)),
        Op::Add(_) => Some((LockMode::Gets, LockMode::Gets)),
        Op::Has(_) => Some((LockMode::Changes, LockMode::Changes)),
        Op::Size => Some((LockMode::Changes, LockMode::Changes)),
        Op::Insert(_) | Op::Remove(_) => None,
    }
}

/// The parents of transactions, as far as they are remembered, and the marks.
#[derive(Drop)]
pub struct Chains<A: Handle> {
    lineage: Lineage<A>,
    // By the place of the mode on the object.
    marks: Vec<Mark, A>,
}

impl<A: Handle> std::marker::Model for Chains<A> {
    ghost use Rattle.acta_sets.specs.Chains.{Chained};

    ghost Value = { Chained };

    ghost view = { λ c. record { lineage = c.lineage; marks = c.marks.items } };
}

impl<A: Handle> Chains<A> {
    /// No parents and no marks. Allocates nothing.
    pub fn new(alloc: A) -> Chains<A>
        ensures { result ≡ record { lineage = record { entries = []; most = 0 }; marks = [] } }
    {
        Chains {
            lineage: Lineage::new(alloc),
            marks: Vec::new(alloc),
        }
    }

    /// Returns a copy.
    pub fn copy(&self) -> Result<Chains<A>, AllocError>
        ensures { IfOk result (λ copied. copied ≡ self.now) }
    {
        let alloc = *self.marks.allocator();
        Ok(Chains {
            lineage: self.lineage.copy()?,
            marks: Vec::from_slice(alloc, self.marks.as_slice())?,
        })
    }

    /// Remembers the parent of a transaction that begins, if it has one and memory allows. All parents are forgotten if
    /// the transaction is known already, as in a history that is not legal.
    pub fn enter(&mut self, t: TxnId, parent: Option<TxnId>)
        ensures entered { IsEntered self.old.lineage self.new.lineage t.0 parent }
        ensures most { self.new.lineage.most ≤ self.old.lineage.most + 1 }
        ensures chained { (items : List held_op) → AreChained items self.old → AreChained items self.new }
    {
        if !self.lineage.enter(t, parent) {
            self.marks.clear();
        }
    }

    /// Forgets all marks.
    pub fn forget(&mut self)
        ensures lineage { self.new.lineage ≡ self.old.lineage }
        ensures chained { (items : List held_op) → AreChained items self.new }
    {
        self.marks.clear();
    }

    /// Whether `u` is known to be the parent of `t`. Then it is above all who are below `t`.
    pub fn is_parent(&self, t: TxnId, u: TxnId) -> bool
        ensures { result ≡ true → (h : ℕ) → is_in_line self.now.lineage t.0 h ≡ true → is_in_line self.now.lineage u.0 h ≡ true }
    {
        self.lineage.is_parent(t.0, u.0)
    }
}

// Passing by operations.
impl<A: Handle> Chains<A> {
    // Whether all that `lowest` and its ancestors hold in progress is held by `t` or an ancestor of it: those of `lowest`
    // and its ancestors that are not `t` or an ancestor of it hold nothing. `false` says nothing.
    fn covers(&self, table: &OpTable<A>, lowest: u16, t: u16) -> bool
        ensures { result ≡ true → (n : ℕ) → passes_at (is_passed self.now.lineage lowest) table.now n ≡ true → passes_at (is_passed self.now.lineage t) table.now n ≡ true }
    {
        let mut low = lowest;
        let mut at = t;
        while low != at {
            if self.lineage.depth(low) < self.lineage.depth(at) {
                let Some(next) = self.lineage.next_above(at, self.lineage.depth(low)) else {
                    return false;
                };
                at = next;
            } else {
                if !table.held(TxnId(low)).is_empty() {
                    return false;
                }
                let Some(parent) = self.lineage.parent(low) else {
                    return true;
                };
                low = parent.0;
            }
        }
        true
    }

    // Whether the operation with this number is passed for `t`: it has ended, or `t` or an ancestor of it holds it.
    fn passes(&self, table: &OpTable<A>, t: u16, number: u32) -> bool
        ensures { result ≡ true → passes_at (is_passed self.now.lineage t) table.now number ≡ true }
    {
        match table.operation(OpNo(number)) {
            Some(item) => {
                item.fate != Fate::InProgress || self.lineage.is_in_line(item.holder.0, t)
            }
            None => false,
        }
    }

    // The lowest of those who hold what `lowest` and its ancestors hold and the operation with this number, if they are
    // one transaction and ancestors of it.
    fn lower(&self, table: &OpTable<A>, lowest: u16, number: u32) -> Option<u16>
        ensures passed { IfSome result (λ next. passes_at (is_passed self.now.lineage next) table.now number ≡ true) }
        ensures kept { IfSome result (λ next. (n : ℕ) → passes_at (is_passed self.now.lineage lowest) table.now n ≡ true → passes_at (is_passed self.now.lineage next) table.now n ≡ true) }
    {
        if self.passes(table, lowest, number) {
            return Some(lowest);
        }
        let holder = table.operation(OpNo(number))?.holder.0;
        if self.covers(table, lowest, holder) && self.passes(table, holder, number) {
            Some(holder)
        } else {
            None
        }
    }

    // The mark, moved on as far as it goes.
    fn further(&self, table: &OpTable<A>, numbers: &[u32], mark: Mark) -> Mark
        requires { IsMarked self.now.lineage table.now numbers.now mark }
        ensures { IsMarked self.now.lineage table.now numbers.now result }
    {
        let mut upto = mark.upto;
        let mut lowest = mark.lowest;
        while upto < numbers.len() {
            let Some(next) = self.lower(table, lowest, numbers[upto]) else {
                break;
            };
            lowest = next;
            upto += 1;
        }
        Mark { upto, lowest }
    }

    // Moves on the mark of the mode on the object, if memory allows.
    fn advance(&mut self, table: &OpTable<A>, ob: u16, mode: LockMode)
        requires { AreChained table.now self.old }
        ensures lineage { self.new.lineage ≡ self.old.lineage }
        ensures chained { AreChained table.now self.new }
    {
        let Some(place) = coarse_place(ob, mode) else {
            return;
        };
        if lengthen(&mut self.marks, place + 1, NO_MARK).is_err() {
            return;
        }
        let mark = self.further(table, table.in_mode(ob, mode), self.marks[place]);
        self.marks[place] = mark;
    }

    // Whether all operations with these numbers are passed for `t`.
    fn are_passed(&self, table: &OpTable<A>, t: u16, numbers: &[u32]) -> bool
        ensures { result ≡ true → ArePassed self.now.lineage t table.now numbers.now }
    {
        for number in numbers {
            if !self.passes(table, t, *number) {
                return false;
            }
        }
        true
    }

    // The mark of the mode on the object.
    fn mark(&self, ob: u16, mode: LockMode) -> Mark
        ensures { result ≡ mark_at self.now.marks (modes.coarse_place ob mode) }
    {
        match coarse_place(ob, mode) {
            Some(place) => self.marks.get(place).copied().unwrap_or(NO_MARK),
            None => NO_MARK,
        }
    }

    // Whether all operations in the mode on the object have ended, or are held by `t` or an ancestor of it. `false` says
    // nothing.
    fn is_clear_of(&self, table: &OpTable<A>, t: u16, ob: u16, mode: LockMode) -> bool
        requires { AreChained table.now self.now }
        ensures { result ≡ true → ArePassed self.now.lineage t table.now (numbers_where (belongs modes.coarse (record { holder = Anyone; ob = ob; mode = mode })) table.now) }
    {
        let mark = self.mark(ob, mode);
        let numbers = table.in_mode(ob, mode);
        if mark.upto > numbers.len() {
            return false;
        }
        if mark.upto > 0 && !self.covers(table, mark.lowest, t) {
            return false;
        }
        self.are_passed(table, t, &numbers[mark.upto..])
    }

    /// Whether each operation in progress that conflicts with this one on the object is held by `t` or by an ancestor of it
    /// that is remembered. `false` says nothing.
    pub fn is_clear(&self, table: &OpTable<A>, t: TxnId, ob: ObjId, op: &Op) -> bool
        requires { AreChained table.now self.now }
        ensures { (exempt : ℕ → Bool) → AreExempt self.now.lineage t.0 exempt → result ≡ true → list_any (is_against_but t.0 exempt ob.0 op.now) table.now ≡ false }
    {
        // (one without ancestors has nothing to gain)
        if self.lineage.depth(t.0) == 0 {
            return false;
        }
        let Some((first, second)) = rivals(op) else {
            return false;
        };
        if !self.is_clear_of(table, t.0, ob.0, first) {
            return false;
        }
        self.is_clear_of(table, t.0, ob.0, second)
    }

    /// Moves on the marks of the modes that an operation, which was just added, has or conflicts with.
    pub fn note(&mut self, table: &OpTable<A>, ob: ObjId, op: &Op)
        requires { AreChained table.now self.old }
        ensures lineage { self.new.lineage ≡ self.old.lineage }
        ensures chained { AreChained table.now self.new }
    {
        if self.lineage.is_empty() {
            return;
        }
        let (first, second) = match op {
            Op::Read | Op::Write(_) => (LockMode::Reads, LockMode::Writes),
            Op::Get | Op::Add(_) => (LockMode::Gets, LockMode::Adds),
            Op::Insert(_) | Op::Remove(_) | Op::Has(_) | Op::Size => {
                (LockMode::Sizes, LockMode::Changes)
            }
        };
        self.advance(table, ob.0, first);
        self.advance(table, ob.0, second);
    }
}
