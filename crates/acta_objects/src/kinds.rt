ghost use Rattle.std.specs.Prelude.{◌≡◌, true, false, Bool, ⊤, FitsSigned, IsOk, IfOk, OnOk, OnErr};
ghost use Rattle.std.specs.Int.{w64};
ghost use Rattle.acta_objects.specs.Objects.{register_step, register_return, counter_step, counter_return, set_step, set_return, set_takes_memory};
ghost use Rattle.acta_objects.specs.Conflicts.{Commutes, Conflict, IsNumber, IsSet, register_conflicts, counter_conflicts, set_conflicts};
ghost use Rattle.acta_objects.specs.inside.RegisterLaws.{register_commutes, register_differs, register_symmetric};
ghost use Rattle.acta_objects.specs.inside.CounterLaws.{counter_commutes, counter_differs, counter_symmetric};
ghost use Rattle.acta_objects.specs.inside.SetLaws.{set_commutes, set_differs, set_symmetric};

use crate::members::Members;
use acta_table::{Op, Ret};
use std::alloc::{AllocError, Allocator};
use std::marker::PhantomData;

/// A kind of object: its values, its operations with their returns, and which operations conflict. Each implementation
/// proves three laws: operations that do not conflict commute from every state, operations that conflict do not commute
/// from some state, and conflict is symmetric.
pub trait ObjectKind {
    type Value;

    type Op;

    type Ret;

    // The states that conflict ranges over, and when an operation can be applied.
    ghost is_state: { Self.Value → Type 0 };

    ghost can_apply: { Self.Value → Self.Op → Type 0 };

    // The value after an operation, its return, and whether two operations conflict.
    ghost step: { Self.Value → Self.Op → Self.Value };

    ghost returned: { Self.Value → Self.Op → Self.Ret };

    ghost conflicting: { Self.Op → Self.Op → Bool };

    // Whether an operation allocates, and so may fail.
    ghost takes_memory: { Self.Value → Self.Op → Bool };

    /// Does the operation. On `Err` the value is unchanged.
    fn apply(value: &mut Self::Value, op: &Self::Op) -> Result<Self::Ret, AllocError>
        requires { can_apply value.old op.now }
        ensures answer { IfOk result (λ ret. ret ≡ returned value.old op.now) }
        ensures ok { OnOk result (value.new ≡ step value.old op.now) }
        ensures err { OnErr result (value.new ≡ value.old) }
        ensures sure { takes_memory value.old op.now ≡ false → IsOk result };

    /// Whether from some state the order of the two operations makes a difference.
    fn conflicts(p: &Self::Op, q: &Self::Op) -> bool
        ensures { result ≡ conflicting p.now q.now };

    ghost commutes: { (p q : Self.Op) → conflicting p q ≡ false → (v : Self.Value) → is_state v → Commutes step returned v p q };

    ghost differs: { (p q : Self.Op) → conflicting p q ≡ true → Conflict is_state step returned p q };

    ghost symmetric: { (p q : Self.Op) → conflicting p q ≡ conflicting q p };
}

/// Objects that hold one number. `apply` never answers `Err`.
pub struct Register;

impl ObjectKind for Register {
    type Value = i32;

    type Op = Op;

    type Ret = Ret;

    ghost is_state = { IsNumber };

    ghost can_apply = { λ v op. ⊤ };

    ghost step = { register_step };

    ghost returned = { register_return };

    ghost conflicting = { register_conflicts };

    ghost takes_memory = { λ v op. false };

    fn apply(value: &mut i32, op: &Op) -> Result<Ret, AllocError> {
        Ok(match op {
            Op::Read => Ret::Value(*value as i64),
            Op::Write(next) => {
                *value = *next;
                Ret::Done
            }
            _ => Ret::Done,
        })
    }

    fn conflicts(p: &Op, q: &Op) -> bool {
        match (*p, *q) {
            (Op::Read, Op::Write(_)) => true,
            (Op::Write(_), Op::Read) => true,
            (Op::Write(v), Op::Write(w)) => v != w,
            _ => false,
        }
    }

    ghost commutes = { register_commutes };

    ghost differs = { register_differs };

    ghost symmetric = { register_symmetric };
}

/// Objects that hold a sum. `apply` never answers `Err`.
pub struct Counter;

impl ObjectKind for Counter {
    type Value = i64;

    type Op = Op;

    type Ret = Ret;

    ghost is_state = { IsNumber };

    ghost can_apply = { λ v op. FitsSigned w64 (counter_step v op) };

    ghost step = { counter_step };

    ghost returned = { counter_return };

    ghost conflicting = { counter_conflicts };

    ghost takes_memory = { λ v op. false };

    fn apply(value: &mut i64, op: &Op) -> Result<Ret, AllocError> {
        Ok(match op {
            Op::Get => Ret::Value(*value),
            Op::Add(amount) => {
                *value += *amount as i64;
                Ret::Done
            }
            _ => Ret::Done,
        })
    }

    fn conflicts(p: &Op, q: &Op) -> bool {
        match (*p, *q) {
            (Op::Get, Op::Add(amount)) => amount != 0,
            (Op::Add(amount), Op::Get) => amount != 0,
            _ => false,
        }
    }

    ghost commutes = { counter_commutes };

    ghost differs = { counter_differs };

    ghost symmetric = { counter_symmetric };
}

/// Objects that hold a finite set of numbers.
pub struct ElementSet<A: Allocator>(PhantomData<A>);

impl<A: Allocator + Copy> ObjectKind for ElementSet<A> {
    type Value = Members<A>;

    type Op = Op;

    type Ret = Ret;

    ghost is_state = { IsSet };

    ghost can_apply = { λ v op. ⊤ };

    ghost step = { set_step };

    ghost returned = { set_return };

    ghost conflicting = { set_conflicts };

    ghost takes_memory = { set_takes_memory };

    fn apply(value: &mut Members<A>, op: &Op) -> Result<Ret, AllocError> {
        Ok(match op {
            Op::Insert(x) => Ret::Flag(value.insert(*x)?),
            Op::Remove(x) => Ret::Flag(value.remove(*x)),
            Op::Has(x) => Ret::Flag(value.contains(*x)),
            Op::Size => Ret::Value(value.len() as i64),
            _ => Ret::Done,
        })
    }

    fn conflicts(p: &Op, q: &Op) -> bool {
        match (*p, *q) {
            (Op::Insert(x), Op::Insert(y) | Op::Remove(y) | Op::Has(y)) => x == y,
            (Op::Remove(x), Op::Insert(y) | Op::Remove(y) | Op::Has(y)) => x == y,
            (Op::Has(x), Op::Insert(y) | Op::Remove(y)) => x == y,
            (Op::Size, Op::Insert(_) | Op::Remove(_)) => true,
            (Op::Insert(_) | Op::Remove(_), Op::Size) => true,
            _ => false,
        }
    }

    ghost commutes = { set_commutes };

    ghost differs = { set_differs };

    ghost symmetric = { set_symmetric };
}
