ghost use Rattle.std.specs.Prelude.{◌≡◌, ℕ, Bool, ◌+◌, ◌<◌, ◌≤◌, [], true, false, length, slice_get, option_map, IfOk, OnOk, OnErr};
ghost use Rattle.acta_table.specs.declared.limits.TheConstants.{MOST_EVENTS};
ghost use Rattle.acta_table.specs.Fates.{is_open};
ghost use Rattle.acta_objects.specs.Objects.{first_state, state_after, returned};
ghost use Rattle.std.specs.List.{list_any};
ghost use Rattle.acta_sets.specs.Lineages.{AreExempt, IsEntered};
ghost use Rattle.acta_sets.specs.Operations.{is_against_but, added, are_held, ended, transferred, transferred_of, moved};
ghost use Rattle.acta_values.specs.Live.{live_ops};
ghost use Rattle.acta_values.specs.KeptValues.{kinds_of};

use crate::values::Values;
use acta_objects::ObjectState;
use acta_sets::{Chains, Handle, OpTable};
use acta_table::{Fate, Kind, MOST_EVENTS, ObjId, Object, Op, OpNo, OpSet, Ret, TxnId};
use std::alloc::{AllocError, Allocator};

/// The objects of a model and the operations on them, legal or not, with holders and fates. An object's value is that
/// after its operations that are not aborted. Contracts see the kinds of the objects, the operations with holders and
/// fates, and the parents of transactions that are remembered. An operation on a missing object, or not of its object's kind, affects no value.
#[derive(Drop)]
pub struct Store<A: Handle> {
    kinds: Vec<Kind, A>,
    operations: OpTable<A>,
    chains: Chains<A>,
    values: Values<A>,
}

impl<A: Handle> std::marker::Model for Store<A> {
    ghost use Rattle.acta_values.specs.Stores.{Stored};
    ghost use Rattle.acta_values.specs.KeptValues.{IsInOrder};

    ghost Value = { Stored };

    ghost view = { λ s. record { kinds = s.kinds.items; items = s.operations; lineage = s.chains.lineage } };

    ghost invariant = { λ s. IsInOrder s.kinds.items s.operations s.values s.chains };
}

// The kinds of the objects.
fn kinds_of<A: Allocator + Copy>(
    alloc: A,
    objects: &[Object<A>],
) -> Result<Vec<Kind, A>, AllocError>
    ensures { IfOk result (λ kinds. kinds.items ≡ kinds_of objects.now) }
{
    let mut kinds = Vec::with_capacity(alloc, objects.len())?;
    for object in objects {
        kinds.push(object.kind)?;
    }
    Ok(kinds)
}

impl<A: Handle> Store<A> {
    /// The objects with their initial values, and no operations and parents.
    pub fn new(alloc: A, objects: &[Object<A>]) -> Result<Store<A>, AllocError>
        ensures { IfOk result (λ store. store ≡ record { kinds = kinds_of objects.now; items = []; lineage = record { entries = []; most = 0 } }) }
    {
        let kinds = kinds_of(alloc, objects)?;
        let values = Values::new(alloc, kinds.as_slice())?;
        Ok(Store {
            kinds,
            operations: OpTable::new(alloc),
            chains: Chains::new(alloc),
            values,
        })
    }

    /// The operations, with holders and fates.
    pub fn operations(&self) -> &OpTable<A>
        ensures operations { result.now ≡ self.now.items }
        ensures few { length self.now.items ≤ MOST_EVENTS }
    {
        &self.operations
    }

    /// Returns what an operation on the object would return now, or `None` if there is no such object. Allocates
    /// nothing.
    pub fn due(&self, ob: ObjId, op: &Op) -> Option<Ret>
        ensures { result ≡ option_map (λ kind. returned (state_after (first_state {A = A} kind) (live_ops kind self.now.items ob.0)) op.now) (slice_get self.now.kinds ob.0) }
    {
        self.values.due(ob, op)
    }

    /// Returns the object's value: its initial value after the operations on it that are not aborted, in order. `None`
    /// if there is no such object. Only a set allocates.
    pub fn value(&self, ob: ObjId) -> Result<Option<ObjectState<A>>, AllocError>
        ensures { IfOk result (λ value. value ≡ option_map (λ kind. state_after (first_state {A = A} kind) (live_ops kind self.now.items ob.0)) (slice_get self.now.kinds ob.0)) }
    {
        self.values.value(ob.0 as usize)
    }

    /// Remembers the parent of a transaction that begins, if it has one and memory allows. All parents are forgotten if the
    /// transaction is known already, as in a history that is not legal.
    pub fn enter(&mut self, t: TxnId, parent: Option<TxnId>)
        ensures entered { IsEntered self.old.lineage self.new.lineage t.0 parent }
        ensures most { self.new.lineage.most ≤ self.old.lineage.most + 1 }
        ensures others { self.new ≡ record self.old { lineage = self.new.lineage } }
    {
        self.chains.enter(t, parent);
    }

    /// Whether each operation in progress that conflicts with this one on the object is held by `t` or by an ancestor of it
    /// that is remembered. `false` says nothing.
    pub fn is_clear(&self, t: TxnId, ob: ObjId, op: &Op) -> bool
        ensures { (exempt : ℕ → Bool) → AreExempt self.now.lineage t.0 exempt → result ≡ true → list_any (is_against_but t.0 exempt ob.0 op.now) self.now.items ≡ false }
    {
        self.chains.is_clear(&self.operations, t, ob, op)
    }

    /// Adds an operation in progress, held by `t`. There must be fewer than `MOST_EVENTS`. On `Err` none is added.
    pub fn add(&mut self, t: TxnId, ob: ObjId, op: Op) -> Result<(), AllocError>
        requires { length self.old.items < MOST_EVENTS }
        ensures ok { OnOk result (self.new ≡ record self.old { items = added self.old.items t ob op }) }
        ensures err { OnErr result (self.new ≡ self.old) }
    {
        let number = self.operations.operations().len() as u32 + 1;
        self.values.add(number, ob, &op)?;
        match self.operations.add(t, ob, op) {
            Ok(_) => {
                self.chains.note(&self.operations, ob, &op);
                Ok(())
            }
            Err(error) => {
                self.values.forget(number, ob, &op);
                Err(error)
            }
        }
    }

    /// Transfers to `u` those of the named operations that `from` holds in progress. On `Err` none is transferred.
    pub fn transfer(&mut self, from: TxnId, ops: &OpSet<A>, u: TxnId) -> Result<(), AllocError>
        ensures ok { OnOk result (self.new ≡ record self.old { items = transferred_of from.0 ops.now u self.old.items }) }
        ensures err { OnErr result (self.new ≡ self.old) }
    {
        self.operations.transfer(from, ops, u)?;
        self.chains.forget();
        Ok(())
    }

    /// Transfers to `u` the named operations, all of which `from` holds in progress. On `Err` none is transferred.
    pub fn move_to(&mut self, from: TxnId, ops: &OpSet<A>, u: TxnId) -> Result<(), AllocError>
        requires { are_held from.0 ops.now self.old.items ≡ true }
        ensures ok { OnOk result (self.new ≡ record self.old { items = moved ops.now u self.old.items }) }
        ensures err { OnErr result (self.new ≡ self.old) }
    {
        self.operations.move_to(from, ops, u)?;
        self.chains.forget();
        Ok(())
    }

    /// Transfers to `u` all operations that `t` holds in progress. On `Err` none is transferred.
    pub fn transfer_all(&mut self, t: TxnId, u: TxnId) -> Result<(), AllocError>
        ensures ok { OnOk result (self.new ≡ record self.old { items = transferred t.0 u self.old.items }) }
        ensures err { OnErr result (self.new ≡ self.old) }
    {
        self.operations.transfer_all(t, u)?;
        if !self.chains.is_parent(t, u) {
            self.chains.forget();
        }
        Ok(())
    }

    /// Gives all operations that `t` holds in progress this fate, committed or aborted. Aborted operations are undone
    /// in the values. Allocates nothing.
    pub fn end_all(&mut self, t: TxnId, fate: Fate)
        requires { is_open fate ≡ false }
        ensures { self.new ≡ record self.old { items = ended t.0 fate self.old.items } }
    {
        if let Fate::Aborted = fate {
            let items = self.operations.operations();
            self.values.abort(t, items, self.operations.held(t));
        }
        self.operations.end_all(t, fate);
    }

    /// Returns a copy of the store.
    pub fn copy(&self) -> Result<Store<A>, AllocError>
        ensures { IfOk result (λ store. store ≡ self.now) }
    {
        Ok(Store {
            kinds: Vec::from_slice(*self.kinds.allocator(), self.kinds.as_slice())?,
            operations: self.operations.copy()?,
            chains: self.chains.copy()?,
            values: self.values.copy()?,
        })
    }
}
