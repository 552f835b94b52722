ghost use Rattle.std.specs.Prelude.{◌≡◌, ◌≤◌, ◌+◌, [], length, map, option_map, IfOk, IfSome, OnOk, OnErr};
ghost use Rattle.std.specs.Option.{option_copied};
ghost use Rattle.std.specs.Prelude.{slice_get};
ghost use Rattle.acta_table.specs.Classes.{kind_at};
ghost use Rattle.acta_axioms.specs.History.{course, class_of, parent_of};
ghost use Rattle.acta_axioms.specs.Operations.{access_set, conflict_set};
ghost use Rattle.acta_axioms.specs.Values.{value, return_due, conflicting};
ghost use Rattle.acta_axioms.specs.Edges.{edges};
ghost use Rattle.acta_axioms.specs.Faults.{has_number};
ghost use Rattle.acta_sets.specs.Operations.{operation_at};
ghost use Rattle.acta_axioms.specs.Walks.{stepped, held_ops, op_numbers};
ghost use Rattle.acta_axioms.specs.inside.TxnRecords.{txn_record};

use crate::course::Course;
use crate::forming::Formed;
use crate::seeking::Sought;
use crate::taking::{Before, go_on, remember};
use crate::txn_record::{TxnRecord, UNBEGUN, heir_of, is_late, largest_named, note, record_of};
use acta_objects::ObjectState;
use acta_sets::{Handle, HeldOp, OpTable, Permits};
use acta_table::{Class, Edge, Kept, MOST_EVENTS, Model, ObjId, Op, OpNo, Ret, TxnId};
use acta_values::Store;
use indexmap::IndexSet;
use std::alloc::AllocError;

/// A walk through a list of kept items, legal or not, from its first place. It answers questions about the state before
/// its current place. Contracts see the model, the items before that place, and those from it on.
#[derive(Drop)]
pub struct Walk<'a, A: Handle> {
    pub(crate) model: &'a Model<A>,
    kept: &'a [Kept<A>],
    pub(crate) taken: usize,
    pub(crate) lines: Vec<TxnRecord, A>,
    pub(crate) store: Store<A>,
    edges: Formed<A>,
    // The permits neither of whose transactions has ended.
    pub(crate) permits: Permits<A>,
}

impl<'a, A: Handle> std::marker::Model for Walk<'a, A> {
    ghost use Rattle.std.specs.Prelude.{take, drop};
    ghost use Rattle.acta_axioms.specs.Walks.{Walked};
    ghost use Rattle.acta_axioms.specs.inside.Walking.{IsKept};
    ghost use Rattle.acta_sets.specs.Permits.{permitted};

    ghost Value = { Walked A };

    ghost view = { λ w. record { model = w.model.now; front = take w.taken w.kept.now; ahead = drop w.taken w.kept.now } };

    ghost invariant = { λ w. IsKept w.model.now w.kept.now w.taken w.lines.items w.store w.edges.keys (permitted w.permits) };
}

impl<'a, A: Handle> Walk<'a, A> {
    /// A walk at the first place of a list of at most `MOST_EVENTS` items.
    pub fn of(alloc: A, model: &'a Model<A>, kept: &'a [Kept<A>]) -> Result<Walk<'a, A>, AllocError>
        requires { length kept.now ≤ MOST_EVENTS }
        ensures { IfOk result (λ walk. walk ≡ record { model = model.now; front = []; ahead = kept.now }) }
    {
        let line = UNBEGUN;
        let lines = vec![in alloc; line; largest_named(kept) as usize + 1]?;
        Ok(Walk {
            model,
            kept,
            taken: 0,
            lines,
            store: Store::new(alloc, model.objects())?,
            edges: IndexSet::new(alloc),
            permits: Permits::new(alloc),
        })
    }

    /// Takes the next item, if there is one. On `Err` the walk is unchanged.
    pub fn step(&mut self) -> Result<(), AllocError>
        ensures ok { OnOk result (self.new ≡ stepped self.old) }
        ensures err { OnErr result (self.new ≡ self.old) }
    {
        let Some(item) = self.next() else {
            return Ok(());
        };
        let due = self.edges_due(&item.event)?;
        let before = Before {
            heir: heir_of(self.model, self.lines.as_slice(), &item.event),
            is_late: is_late(self.lines.as_slice(), &item.event),
        };
        go_on(
            before,
            &item.event,
            due.as_slice(),
            &mut self.edges,
            &mut self.store,
            &mut self.permits,
        )?;
        self.taken += 1;
        note(self.lines.as_mut_slice(), self.taken as u32, &item.event);
        remember(&mut self.store, self.lines.as_slice(), &item.event);
        Ok(())
    }

    /// Returns a copy of the walk, at the same place of the same list.
    pub fn copy(&self) -> Result<Walk<'a, A>, AllocError>
        ensures { IfOk result (λ walk. walk ≡ self.now) }
    {
        Ok(Walk {
            model: self.model,
            kept: self.kept,
            taken: self.taken,
            lines: Vec::from_slice(self.allocator(), self.lines.as_slice())?,
            store: self.store.copy()?,
            edges: self.edges.clone()?,
            permits: self.permits.copy()?,
        })
    }

    /// The access set of the transaction: the operations that it holds in progress, by number, ascending.
    pub fn access_set(&self, t: TxnId) -> Result<Vec<OpNo, A>, AllocError>
        ensures { IfOk result (λ ops. ops.items ≡ op_numbers (access_set self.now.model self.now.front t.0)) }
    {
        self.table().access_set(t)
    }

    /// The conflict set of the transaction, by number, ascending: operations in progress that others hold, except those
    /// that are exempt, by ancestry if its class says so or by a permit.
    pub fn conflict_set(&self, t: TxnId) -> Result<Vec<OpNo, A>, AllocError>
        ensures { IfOk result (λ ops. ops.items ≡ op_numbers (conflict_set self.now.model self.now.front t.0)) }
    {
        self.seek(t, &Sought::Others)
    }

    /// The operations of the transaction's conflict set that conflict with this operation on this object, by number,
    /// ascending.
    pub fn conflicting(&self, t: TxnId, object: ObjId, op: &Op) -> Result<Vec<OpNo, A>, AllocError>
        ensures { IfOk result (λ ops. ops.items ≡ op_numbers (conflicting self.now.model self.now.front t.0 object.0 op.now)) }
    {
        if !self.may_conflict(t, object, op) {
            return Ok(Vec::new(self.allocator()));
        }
        let exempt = self.exempt_on(t, object)?;
        if self.has_conflict(t, &exempt, object, op) {
            self.seek(t, &Sought::Against(object, *op))
        } else {
            Ok(Vec::new(self.allocator()))
        }
    }

    /// The value of the object: its initial value after the operations on it that are not aborted, in order. `None` if
    /// the object is not in the model.
    pub fn value(&self, object: ObjId) -> Result<Option<ObjectState<A>>, AllocError>
        ensures { IfOk result (λ state. state ≡ option_map (value self.now.model self.now.front object.0) (kind_at self.now.model object.0)) }
    {
        self.store.value(object)
    }

    /// The return due for the operation on the object, from the object's value. `None` if the object is not in the
    /// model.
    pub fn return_due(&self, object: ObjId, op: &Op) -> Result<Option<Ret>, AllocError>
        ensures { IfOk result (λ due. due ≡ return_due self.now.model self.now.front object.0 op.now) }
    {
        Ok(self.store.due(object, op))
    }
}

impl<'a, A: Handle> Walk<'a, A> {
    /// The model.
    pub fn model(&self) -> &'a Model<A>
        ensures { result.now ≡ self.now.model }
    {
        self.model
    }

    /// The item at the current place, or `None` at the end of the list.
    pub fn next(&self) -> Option<&'a Kept<A>>
        ensures { option_copied result ≡ slice_get self.now.ahead 0 }
    {
        self.kept.get(self.taken)
    }

    /// The items before the current place.
    pub fn front(&self) -> &'a [Kept<A>]
        ensures front { result.now ≡ self.now.front }
        ensures few { length result.now ≤ MOST_EVENTS }
    {
        &self.kept[..self.taken]
    }

    /// The items from the current place on.
    pub fn ahead(&self) -> &'a [Kept<A>]
        ensures { result.now ≡ self.now.ahead }
    {
        &self.kept[self.taken..]
    }

    // The operations, with holders and fates.
    pub(crate) fn table(&self) -> &OpTable<A>
        ensures { result.now ≡ held_ops self.now.model self.now.front }
    {
        self.store.operations()
    }

    // The record of the transaction.
    fn line(&self, t: TxnId) -> TxnRecord
        ensures { result ≡ txn_record self.now.front t.0 }
    {
        record_of(self.lines.as_slice(), t)
    }

    /// The first places of the transaction's start, commit, abort and join.
    pub fn course(&self, t: TxnId) -> Course
        ensures { result ≡ course self.now.front t.0 }
    {
        self.line(t).course
    }

    /// The class with which the transaction started. `None` if it has not started, or if the class is not in the model.
    pub fn class(&self, t: TxnId) -> Option<&'a Class<A>>
        ensures { option_copied result ≡ class_of self.now.model self.now.front t.0 }
    {
        let class = self.line(t).class?;
        self.model.class(class)
    }

    /// The parent: the transaction that spawned the transaction at its start and had begun then, if there is one.
    pub fn parent(&self, t: TxnId) -> Option<TxnId>
        ensures { result ≡ parent_of self.now.front t.0 }
    {
        self.line(t).parent
    }

    /// The operations in order, each with its holder and fate, numbered from 1.
    pub fn operations(&self) -> &[HeldOp]
        ensures operations { result.now ≡ held_ops self.now.model self.now.front }
        ensures few { length result.now ≤ MOST_EVENTS }
    {
        self.table().operations()
    }

    // The operation with this number, with its holder and fate.
    fn operation(&self, op: OpNo) -> Option<HeldOp>
        ensures { result ≡ operation_at (held_ops self.now.model self.now.front) op.0 }
    {
        if op.0 == 0 {
            return None;
        }
        self.operations().get(op.0 as usize - 1).copied()
    }

    /// Whether the operation is in the transaction's access set: the transaction holds it in progress.
    pub fn holds(&self, t: TxnId, op: OpNo) -> bool
        ensures { result ≡ has_number (map (λ o. o.number) (access_set self.now.model self.now.front t.0)) op.0 }
    {
        match self.operation(op) {
            Some(item) => item.is_held(t),
            None => false,
        }
    }

    /// The edges that the items form, legal or not, in order of forming, numbered from 1. An edge that is formed again
    /// is not added again.
    pub fn edges(&self) -> &[Edge]
        ensures { result.now ≡ edges self.now.model self.now.front }
    {
        self.edges.as_slice()
    }
}
