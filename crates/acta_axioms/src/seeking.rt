ghost use Rattle.std.specs.Prelude.{◌≡◌, ◌==◌, ◌||◌, ℕ, false, map, IfOk};
ghost use Rattle.std.specs.List.{list_any};
ghost use Rattle.acta_table.specs.Numbered.{ascending};
ghost use Rattle.acta_table.specs.Classes.{exempts};
ghost use Rattle.acta_objects.specs.Conflicts.{conflict_on};
ghost use Rattle.acta_axioms.specs.History.{has_begun, has_class, ancestors};
ghost use Rattle.acta_axioms.specs.Edges.{holders_against};
ghost use Rattle.acta_axioms.specs.Walks.{held_ops};
ghost use Rattle.acta_axioms.specs.Operations.{is_exempt, is_of_others};
ghost use Rattle.acta_axioms.specs.Permits.{is_permitted};
ghost use Rattle.acta_axioms.specs.inside.Walking.{standing_in, exempt_numbers, AreExempt, is_against, is_sought, numbers_of};

use crate::walk::Walk;
use acta_objects::ObjectState;
use acta_sets::{Handle, HeldOp};
use acta_table::{Fate, ObjId, Op, OpNo, Scope, TxnId};
use std::alloc::{AllocError, Allocator};
use std::collections::BTreeSet;

/// A search among the operations, for a transaction.
#[derive(Clone, Copy)]
pub enum Sought {
    /// The conflict set: operations in progress that others hold and that are not exempt.
    Others,
    /// The operations of the conflict set that conflict with this operation on this object.
    Against(ObjId, Op),
}

/// Adds these transactions to the set.
pub fn with_txns<A: Allocator + Copy>(
    numbers: BTreeSet<u16, A>,
    txns: &[TxnId],
) -> Result<BTreeSet<u16, A>, AllocError>
    ensures { IfOk result (λ all. (u : ℕ) → list_any (λ k. k == u) all.keys ≡ (list_any (λ k. k == u) numbers.keys || list_any (λ t. t.0 == u) txns.now)) }
{
    let mut all = numbers;
    for t in txns {
        all.insert(t.0)?;
    }
    Ok(all)
}

impl<'a, A: Handle> Walk<'a, A> {
    // The allocator of the lists.
    pub(crate) fn allocator(&self) -> A {
        *self.lines.allocator()
    }

    // The ancestors of the transaction.
    fn ancestors(&self, t: TxnId) -> Result<BTreeSet<u16, A>, AllocError>
        ensures { IfOk result (λ numbers. numbers.keys ≡ ascending (map (λ u. u.0) (ancestors self.now.front t.0))) }
    {
        let mut numbers = BTreeSet::new(self.allocator());
        let mut next = self.parent(t);
        for _ in 0..self.front().len() {
            let Some(parent) = next else {
                break;
            };
            numbers.insert(parent.0)?;
            next = self.parent(parent);
        }
        Ok(numbers)
    }

    // Whether the transaction's class exempts ancestors.
    fn exempts_ancestors(&self, t: TxnId) -> bool
        ensures { result ≡ has_class (λ k. exempts k.scope) self.now.model self.now.front t.0 }
    {
        match self.class(t) {
            Some(class) => matches!(class.scope, Scope::NonAncestors),
            None => false,
        }
    }

    // The ancestors of the transaction that its class exempts.
    fn exempt_numbers(&self, t: TxnId) -> Result<BTreeSet<u16, A>, AllocError>
        ensures { IfOk result (λ numbers. numbers.keys ≡ exempt_numbers self.now.model self.now.front t.0) }
    {
        if self.exempts_ancestors(t) {
            self.ancestors(t)
        } else {
            Ok(BTreeSet::new(self.allocator()))
        }
    }

    // Whether the transaction has started.
    fn has_begun(&self, t: TxnId) -> bool
        ensures { result ≡ has_begun self.now.front t.0 }
    {
        self.course(t).has_begun()
    }

    // Whether s has permitted t to work on the object, and both are in progress.
    #[tactic(auto, unfolding(crate::specs::Permits::is_permitted))]
    fn is_permitted(&self, s: TxnId, t: TxnId, object: ObjId) -> bool
        ensures { result ≡ is_permitted self.now.front s.0 t.0 object.0 }
    {
        if !self.has_begun(s) {
            return false;
        }
        if !self.has_begun(t) {
            return false;
        }
        self.permits.has(s, t, object)
    }

    // The transactions that permit the transaction to work on the object.
    fn permitters(&self, t: TxnId, object: ObjId) -> Result<Vec<TxnId, A>, AllocError>
        ensures { IfOk result (λ found. (u : ℕ) → list_any (λ s. s.0 == u) found.items ≡ is_permitted self.now.front u t.0 object.0) }
    {
        let mut found = Vec::new(self.allocator());
        let left = self.permits.permitters(t, object)?;
        for s in &left {
            if self.is_permitted(*s, t, object) {
                found.push(*s)?;
            }
        }
        Ok(found)
    }

    /// The transactions whose operations on the object are exempt from conflicts with the transaction: ancestors, if
    /// its class exempts them, and those that permit it to work there.
    pub(crate) fn exempt_on(&self, t: TxnId, object: ObjId) -> Result<BTreeSet<u16, A>, AllocError>
        ensures { IfOk result (λ numbers. AreExempt self.now.model self.now.front t.0 object.0 numbers.keys) }
    {
        let permitters = self.permitters(t, object)?;
        with_txns(self.exempt_numbers(t)?, &permitters)
    }

    // Whether u's operations on the object are exempt from conflicts with t, whose exempt ancestors are given.
    fn is_exempt(&self, t: TxnId, exempt: &BTreeSet<u16, A>, object: ObjId, u: TxnId) -> bool
        requires { exempt.now.keys ≡ exempt_numbers self.now.model self.now.front t.0 }
        ensures { result ≡ is_exempt self.now.model self.now.front t.0 object.0 u.0 }
    {
        exempt.contains(&u.0) || self.is_permitted(u, t, object)
    }

    // Whether the operation is in the conflict set of the transaction, whose exempt ancestors are given.
    fn is_of_others(&self, t: TxnId, exempt: &BTreeSet<u16, A>, item: &HeldOp) -> bool
        requires { exempt.now.keys ≡ exempt_numbers self.now.model self.now.front t.0 }
        ensures { result ≡ is_of_others self.now.model self.now.front t.0 item.now.ob.0 (standing_in item.now) }
    {
        matches!(item.fate, Fate::InProgress)
            && item.holder.0 != t.0
            && !self.is_exempt(t, exempt, item.ob, item.holder)
    }

    // Whether two operations on the object conflict.
    fn do_conflict(&self, object: ObjId, p: &Op, q: &Op) -> bool
        ensures { result ≡ conflict_on self.now.model object.0 p.now q.now }
    {
        match self.model.object(object) {
            Some(object) => ObjectState::<A>::conflicts(&object.kind, p, q),
            None => false,
        }
    }

    // Whether the operation is on this object, in the conflict set of the transaction, given those exempt, and
    // conflicts with this one.
    fn is_against(
        &self,
        t: TxnId,
        exempt: &BTreeSet<u16, A>,
        object: ObjId,
        op: &Op,
        item: &HeldOp,
    ) -> bool
        requires { exempt.now.keys ≡ exempt_numbers self.now.model self.now.front t.0 }
        ensures { result ≡ is_against self.now.model self.now.front t.0 object.0 op.now item.now }
    {
        item.ob.0 == object.0
            && self.is_of_others(t, exempt, item)
            && self.do_conflict(object, &item.op, op)
    }

    /// Whether an operation in progress of another on this object conflicts with this one, exempt or not, and not only those
    /// of ancestors that are exempt do. If none does, none of the conflict set does.
    pub(crate) fn may_conflict(&self, t: TxnId, object: ObjId, op: &Op) -> bool
        ensures { result ≡ false → list_any (is_against self.now.model self.now.front t.0 object.0 op.now) (held_ops self.now.model self.now.front) ≡ false }
    {
        let operations = self.store.operations();
        if !acta_values::may_conflict(self.allocator(), self.model, operations, t, object, op) {
            return false;
        }
        if !self.exempts_ancestors(t) {
            return true;
        }
        !self.store.is_clear(t, object, op)
    }

    /// Whether an operation on this object in the transaction's conflict set, given those exempt, conflicts with this
    /// one.
    pub(crate) fn has_conflict(
        &self,
        t: TxnId,
        exempt: &BTreeSet<u16, A>,
        object: ObjId,
        op: &Op,
    ) -> bool
        requires { AreExempt self.now.model self.now.front t.0 object.0 exempt.now.keys }
        ensures { result ≡ list_any (is_against self.now.model self.now.front t.0 object.0 op.now) (held_ops self.now.model self.now.front) }
    {
        acta_values::has_conflict(self.model, self.table(), t, exempt, object, op)
    }

    // Whether the operation matches the search of a transaction, given its exempt ancestors.
    fn is_sought(&self, t: TxnId, exempt: &BTreeSet<u16, A>, sought: &Sought, item: &HeldOp) -> bool
        requires { exempt.now.keys ≡ exempt_numbers self.now.model self.now.front t.0 }
        ensures { result ≡ is_sought self.now.model self.now.front t.0 sought.now item.now }
    {
        match sought {
            Sought::Others => self.is_of_others(t, exempt, item),
            Sought::Against(object, op) => self.is_against(t, exempt, *object, op, item),
        }
    }

    /// The numbers of the operations that match the search, ascending.
    pub(crate) fn seek(&self, t: TxnId, sought: &Sought) -> Result<Vec<OpNo, A>, AllocError>
        ensures { IfOk result (λ numbers. numbers.items ≡ numbers_of (is_sought self.now.model self.now.front t.0 sought.now) (held_ops self.now.model self.now.front)) }
    {
        let exempt = self.exempt_numbers(t)?;
        let mut numbers = Vec::new(self.allocator());
        let mut number = 1u32;
        for item in self.operations() {
            if self.is_sought(t, &exempt, sought, item) {
                numbers.push(OpNo(number))?;
            }
            number += 1;
        }
        Ok(numbers)
    }

    /// The conflicting holders for an operation of t on the object.
    pub(crate) fn holders_against(
        &self,
        t: TxnId,
        object: ObjId,
        op: &Op,
    ) -> Result<BTreeSet<u16, A>, AllocError>
        ensures { IfOk result (λ holders. holders.keys ≡ holders_against self.now.model self.now.front t.0 object.0 op.now) }
    {
        if !self.may_conflict(t, object, op) {
            return Ok(BTreeSet::new(self.allocator()));
        }
        let exempt = self.exempt_on(t, object)?;
        acta_values::holders_against(
            self.allocator(),
            self.model,
            self.table(),
            t,
            &exempt,
            object,
            op,
        )
    }
}
