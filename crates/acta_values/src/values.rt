//! The current values of objects. Each operation is known by its number, so that it can be undone.

ghost use Rattle.std.specs.Prelude.{◌≡◌, ◌+◌, ◌<◌, ◌≤◌, ◌-◌, [], true, false, List, ℕ, length, slice_get, option_map, map, IfOk, OnOk, OnErr};
ghost use Rattle.std.specs.List.{HoldsAt};
ghost use Rattle.acta_table.specs.declared.answer.Fate.TheVariants.{Aborted};
ghost use Rattle.acta_table.specs.declared.event.TxnId.{TxnId};
ghost use Rattle.acta_table.specs.declared.limits.TheConstants.{MOST_EVENTS};
ghost use Rattle.acta_table.specs.declared.model.Kind.{Kind};
ghost use Rattle.acta_table.specs.Numbered.{numbers_where};
ghost use Rattle.acta_objects.specs.Objects.{first_state, state_after, returned};
ghost use Rattle.acta_sets.specs.declared.held_op.HeldOp.{HeldOp};
ghost use Rattle.acta_sets.specs.Operations.{added, ended, is_held};
ghost use Rattle.acta_values.specs.Live.{live_ops};
ghost use Rattle.acta_values.specs.LiveValues.{Counts};
ghost use Rattle.acta_values.specs.KeptValues.{AreAfter, AreValues, Takes, CameLast, IsUndoneAt};

use crate::live_value::LiveValue;
use acta_objects::ObjectState;
use acta_sets::HeldOp;
use acta_table::{Kind, ObjId, Op, Ret, TxnId};
use std::alloc::{AllocError, Allocator};

/// The values of objects after the operations of a history. Contracts see the list of them, one for each object.
#[derive(Drop)]
pub struct Values<A: Allocator> {
    values: Vec<LiveValue<A>, A>,
}

impl<A: Allocator> std::marker::Model for Values<A> {
    ghost use Rattle.std.specs.Prelude.{List};
    ghost use Rattle.acta_values.specs.declared.live_value.LiveValue.{LiveValue};

    ghost Value = { List (LiveValue A) };

    ghost view = { λ values. values.values.items };
}

// Does the operation on its object, which exists.
fn add_at<A: Allocator + Copy>(
    values: &mut [LiveValue<A>],
    number: u32,
    ob: ObjId,
    op: &Op,
) -> Result<(), AllocError>
    requires there { ob.0 < length values.old }
    requires takes { Takes number values.old }
    ensures ok { OnOk result ((kinds : List Kind) (items : List HeldOp) → AreAfter kinds items values.old
        → number ≡ length items + 1 → length items < MOST_EVENTS
        → (t : TxnId) → AreAfter kinds (added items t ob op.now) values.new) }
    ensures err { OnErr result (values.new ≡ values.old) }
{
    values[ob.0 as usize].add(number, op)
}

// Undoes the operation on its object, which exists.
fn undo_at<A: Allocator + Copy>(values: &mut [LiveValue<A>], number: u32, ob: ObjId, op: &Op)
    requires there { ob.0 < length values.old }
    requires counts { HoldsAt (Counts number op.now) values.old ob.0 }
    ensures { IsUndoneAt number ob.0 op.now values.old values.new }
{
    values[ob.0 as usize].undo(number, op);
}

// Undoes the operation on its object, if the object exists.
fn undo<A: Allocator + Copy>(values: &mut [LiveValue<A>], number: u32, ob: ObjId, op: &Op)
    requires { ob.0 < length values.old → HoldsAt (Counts number op.now) values.old ob.0 }
    ensures { IsUndoneAt number ob.0 op.now values.old values.new }
{
    if (ob.0 as usize) < values.len() {
        undo_at(values, number, ob, op);
    }
}

// Undoes the operations that the transaction holds in progress, the last first.
fn take_back<A: Allocator + Copy>(
    values: &mut [LiveValue<A>],
    t: TxnId,
    items: &[HeldOp],
    held: &[u32],
)
    requires values { AreValues items.now values.old }
    requires held { held.now ≡ numbers_where (is_held t.0) items.now }
    ensures { (kinds : List Kind) → AreAfter kinds items.now values.old → AreAfter kinds (ended t.0 Aborted items.now) values.new }
{
    let mut left = held.len();
    while left > 0 {
        left -= 1;
        let number = held[left];
        let item = items[number as usize - 1];
        undo(values, number, item.ob, &item.op);
    }
}

impl<A: Allocator + Copy> Values<A> {
    /// The initial values of objects of these kinds.
    pub fn new(alloc: A, kinds: &[Kind]) -> Result<Values<A>, AllocError>
        ensures { IfOk result (λ values. AreAfter kinds.now [] values) }
    {
        let mut values = Vec::with_capacity(alloc, kinds.len())?;
        for kind in kinds {
            values.push(LiveValue::new(alloc, kind))?;
        }
        Ok(Values { values })
    }

    /// Returns what an operation on the object would return, or `None` if there is no such object. Allocates nothing.
    pub fn due(&self, ob: ObjId, op: &Op) -> Option<Ret>
        ensures { (kinds : List Kind) (items : List HeldOp) → AreAfter kinds items self.now
            → result ≡ option_map (λ kind. returned (state_after (first_state {A = A} kind) (live_ops kind items ob.0)) op.now) (slice_get kinds ob.0) }
    {
        match self.values.get(ob.0 as usize) {
            Some(value) => Some(value.due(op)),
            None => None,
        }
    }

    /// The value of the object with this number, from 0, or `None` if there is no such object. Only a set allocates.
    pub fn value(&self, object: usize) -> Result<Option<ObjectState<A>>, AllocError>
        ensures { IfOk result (λ value. (kinds : List Kind) (items : List HeldOp) → AreAfter kinds items self.now
            → value ≡ option_map (λ kind. state_after (first_state {A = A} kind) (live_ops kind items object)) (slice_get kinds object)) }
    {
        match self.values.get(object) {
            Some(value) => Ok(Some(value.value()?)),
            None => Ok(None),
        }
    }

    /// Adds one more operation, with the next number. On `Err` the values are unchanged.
    pub fn add(&mut self, number: u32, ob: ObjId, op: &Op) -> Result<(), AllocError>
        requires { Takes number self.old }
        ensures ok { OnOk result ((kinds : List Kind) (items : List HeldOp) → AreAfter kinds items self.old
            → number ≡ length items + 1 → length items < MOST_EVENTS
            → (t : TxnId) → AreAfter kinds (added items t ob op.now) self.new) }
        ensures err { OnErr result (self.new ≡ self.old) }
    {
        if (ob.0 as usize) < self.values.len() {
            add_at(&mut self.values, number, ob, op)
        } else {
            Ok(())
        }
    }

    /// Undoes all operations that the transaction holds in progress, given by number, ascending. Allocates nothing.
    pub fn abort(&mut self, t: TxnId, items: &[HeldOp], held: &[u32])
        requires values { AreValues items.now self.old }
        requires held { held.now ≡ numbers_where (is_held t.0) items.now }
        ensures { (kinds : List Kind) → AreAfter kinds items.now self.old → AreAfter kinds (ended t.0 Aborted items.now) self.new }
    {
        take_back(&mut self.values, t, items, held);
    }

    /// Undoes the last operation. Allocates nothing.
    pub fn forget(&mut self, number: u32, ob: ObjId, op: &Op)
        requires { CameLast number ob op.now self.old }
        ensures { (kinds : List Kind) (items : List HeldOp) (t : TxnId) → AreAfter kinds (added items t ob op.now) self.old
            → number ≡ length items + 1 → AreAfter kinds items self.new }
    {
        undo(&mut self.values, number, ob, op);
    }

    /// Returns a copy of the values.
    pub fn copy(&self) -> Result<Values<A>, AllocError>
        ensures { IfOk result (λ values. values ≡ self.now) }
    {
        let mut values = Vec::with_capacity(*self.values.allocator(), self.values.len())?;
        for value in &self.values {
            values.push(value.copy()?)?;
        }
        Ok(Values { values })
    }
}
