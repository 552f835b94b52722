//! Conflicting operations on an object of a model. Walks through a history and the machine share this search.

ghost use Rattle.std.specs.Prelude.{◌≡◌, ℕ, Bool, false, ◌&&◌, [], None, IfOk, if◌then◌else◌};
ghost use Rattle.std.specs.List.{list_any};
ghost use Rattle.acta_table.specs.Numbered.{first_number};
ghost use Rattle.acta_sets.specs.Operations.{is_against, is_against_but, holders_against};
ghost use Rattle.acta_values.specs.Conflicts.{is_well_formed};

use acta_objects::is_of_kind;
use acta_sets::{Handle, OpTable};
use acta_table::{Model, ObjId, Op, TxnId};
use std::alloc::{AllocError, Allocator};
use std::collections::BTreeSet;

/// Whether the object is in the model and its kind has the operation.
pub fn is_well_formed<A: Allocator>(model: &Model<A>, object: ObjId, op: &Op) -> bool
    ensures { result ≡ is_well_formed model.now object.0 op.now }
{
    match model.object(object) {
        Some(object) => is_of_kind(&object.kind, op),
        None => false,
    }
}

/// Whether an operation in progress, held by another transaction that is not exempt, conflicts with this one on the
/// object. An ill-formed operation conflicts with none.
pub fn has_conflict<A: Handle>(
    model: &Model<A>,
    operations: &OpTable<A>,
    t: TxnId,
    exempts: &BTreeSet<u16, A>,
    object: ObjId,
    op: &Op,
) -> bool
    ensures { result ≡ (is_well_formed model.now object.0 op.now && list_any (is_against t.0 exempts.now.keys object.0 op.now) operations.now) }
{
    is_well_formed(model, object, op) && operations.has_conflict(t, exempts, object, op)
}

/// Whether an operation in progress of another transaction, exempt or not, conflicts with this one on the object. If
/// none does, the exempt transactions need not be found out.
pub fn may_conflict<A: Handle>(
    alloc: A,
    model: &Model<A>,
    operations: &OpTable<A>,
    t: TxnId,
    object: ObjId,
    op: &Op,
) -> bool
    ensures { (exempt : ℕ → Bool) → result ≡ false → (is_well_formed model.now object.0 op.now && list_any (is_against_but t.0 exempt object.0 op.now) operations.now) ≡ false }
{
    has_conflict(model, operations, t, &BTreeSet::new(alloc), object, op)
}

/// The number of the first conflicting operation.
pub fn first_conflict<A: Handle>(
    model: &Model<A>,
    operations: &OpTable<A>,
    t: TxnId,
    exempts: &BTreeSet<u16, A>,
    object: ObjId,
    op: &Op,
) -> Option<u32>
    ensures { result ≡ (if is_well_formed model.now object.0 op.now then first_number (is_against t.0 exempts.now.keys object.0 op.now) operations.now else None) }
{
    if is_well_formed(model, object, op) {
        operations.first_conflict(t, exempts, object, op)
    } else {
        None
    }
}

/// The conflicting holders.
pub fn holders_against<A: Handle>(
    alloc: A,
    model: &Model<A>,
    operations: &OpTable<A>,
    t: TxnId,
    exempts: &BTreeSet<u16, A>,
    object: ObjId,
    op: &Op,
) -> Result<BTreeSet<u16, A>, AllocError>
    ensures { IfOk result (λ holders. holders.keys ≡ (if is_well_formed model.now object.0 op.now then holders_against t.0 exempts.now.keys object.0 op.now operations.now else [])) }
{
    if is_well_formed(model, object, op) {
        operations.holders_against(t, exempts, object, op)
    } else {
        Ok(BTreeSet::new(alloc))
    }
}
