ghost use Rattle.std.specs.Prelude.{◌≡◌, false, IsTrue, IsOk, ◌↔◌, IfOk, OnOk, OnErr};
ghost use Rattle.acta_objects.specs.Objects.{first_state, suits, step, returned, is_set, takes_memory, StaysWithin};
ghost use Rattle.acta_objects.specs.Limits.{AmountFits, FirstFits};
ghost use Rattle.acta_objects.specs.Conflicts as table;
ghost use Rattle.acta_objects.specs.Conflicts.{IsConflict};

use crate::kinds::{Counter, ElementSet, ObjectKind, Register};
use crate::members::Members;
use acta_table::{Kind, Op, Ret};
use std::alloc::{AllocError, Allocator};

/// The value of an object.
#[derive(Drop)]
pub enum ObjectState<A: Allocator> {
    /// The number that a register holds.
    Register(i32),
    /// The sum of a counter.
    Counter(i64),
    /// The elements of a set.
    Elements(Members<A>),
}

impl<A: Allocator> ObjectState<A> {
    /// The initial value of an object of this kind. Allocates nothing.
    pub fn new(alloc: A, kind: &Kind) -> ObjectState<A>
        ensures first { result ≡ first_state kind.now }
        ensures fits { FirstFits kind.now }
    {
        match kind {
            Kind::Register(value) => ObjectState::Register(*value),
            Kind::Counter(value) => ObjectState::Counter(*value as i64),
            Kind::Elements => ObjectState::Elements(Members::new(alloc)),
        }
    }
}

impl<A: Allocator + Copy> ObjectState<A> {
    /// Does the operation. An operation of another kind changes nothing and returns `Done`. Only inserting an absent
    /// element allocates; on `Err` the value is unchanged. A counter must stay within 64 bits; the type bounds the
    /// amount to 32 bits.
    pub fn apply(&mut self, op: &Op) -> Result<Ret, AllocError>
        requires { AmountFits op.now → StaysWithin self.old op.now }
        ensures answer { IfOk result (λ ret. ret ≡ returned self.old op.now) }
        ensures ok { OnOk result (self.new ≡ step self.old op.now) }
        ensures err { OnErr result (self.new ≡ self.old) }
        ensures sure { takes_memory self.old op.now ≡ false → IsOk result }
        ensures fits { AmountFits op.now }
    {
        read_amount(op);
        match self {
            ObjectState::Register(value) => Register::apply(value, op),
            ObjectState::Counter(value) => Counter::apply(value, op),
            ObjectState::Elements(members) => ElementSet::apply(members, op),
        }
    }

    /// Whether two operations on an object of this kind conflict, as ACTA defines it: from some state their order
    /// changes the final state or one of the returns.
    pub fn conflicts(kind: &Kind, p: &Op, q: &Op) -> bool
        ensures table { result ≡ table.conflicts kind.now p.now q.now }
        ensures meaning { IsTrue result ↔ IsConflict kind.now p.now q.now }
    {
        match kind {
            Kind::Register(_) => Register::conflicts(p, q),
            Kind::Counter(_) => Counter::conflicts(p, q),
            Kind::Elements => ElementSet::<A>::conflicts(p, q),
        }
    }

    /// Returns a copy of the value. Only a set allocates.
    pub fn copy(&self) -> Result<ObjectState<A>, AllocError>
        ensures same { IfOk result (λ state. state ≡ self.now) }
        ensures sure { is_set self.now ≡ false → IsOk result }
    {
        Ok(match self {
            ObjectState::Register(value) => ObjectState::Register(*value),
            ObjectState::Counter(value) => ObjectState::Counter(*value),
            ObjectState::Elements(members) => ObjectState::Elements(members.copy()?),
        })
    }
}

// Does nothing: the proof learns from the type that the amount fits 32 bits.
fn read_amount(op: &Op)
    ensures { AmountFits op.now }
{
    if let Op::Add(amount) = op {
        let _amount = *amount;
    }
}

/// Whether the operation is of the kind.
pub fn is_of_kind(kind: &Kind, op: &Op) -> bool
    ensures { result ≡ suits kind.now op.now }
{
    match kind {
        Kind::Register(_) => matches!(op, Op::Read | Op::Write(_)),
        Kind::Counter(_) => matches!(op, Op::Get | Op::Add(_)),
        Kind::Elements => matches!(op, Op::Insert(_) | Op::Remove(_) | Op::Has(_) | Op::Size),
    }
}
