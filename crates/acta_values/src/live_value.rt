ghost use Rattle.std.specs.Prelude.{◌≡◌, ◌+◌, ◌<◌, ◌≤◌, ◌-ℤ◌, ℤ, List, [], ◌∷◌, ◌++◌, length, IfOk, OnOk, OnErr, FitsSigned, if◌then◌else◌, is_some};
ghost use Rattle.std.specs.Int.{w64};
ghost use Rattle.std.specs.List.{Contains, cons_option};
ghost use Rattle.acta_table.specs.declared.limits.TheConstants.{MOST_EVENTS};
ghost use Rattle.acta_objects.specs.Objects.{first_state, state_after, returned, register_return, counter_step, counter_return};
ghost use Rattle.acta_objects.specs.Limits.{AmountFits};
ghost use Rattle.acta_values.specs.declared.trail.Numbered.{Numbered};
ghost use Rattle.acta_values.specs.Trails.{without, AreBelow};
ghost use Rattle.acta_values.specs.LiveSets.{trail_at};
ghost use Rattle.acta_values.specs.LiveValues.{ops_of, write_by, mark_by, amount, IsAfter, HasRoom, Counts, state_of, IsInOrder};

use crate::live_set::LiveSet;
use crate::trail::Trail;
use acta_objects::ObjectState;
use acta_table::{Kind, Op, Ret};
use std::alloc::{AllocError, Allocator};

/// The value of an object after operations, each of which can be undone.
#[derive(Drop)]
pub enum LiveValue<A: Allocator> {
    /// The initial value of a register, and what was written.
    Register(i32, Trail<i32, A>),
    /// The sum of a counter.
    Counter(i64),
    /// The elements of a set.
    Elements(LiveSet<A>),
}

// Does nothing: the proof learns from the type that the amount fits 32 bits.
fn read_amount(op: &Op)
    ensures { AmountFits op.now }
{
    if let Op::Add(amount) = op {
        let _amount = *amount;
    }
}

// The return of an operation on a register.
fn register_due(value: i32, op: &Op) -> Ret
    ensures { result ≡ register_return value op.now }
{
    match op {
        Op::Read => Ret::Value(value as i64),
        _ => Ret::Done,
    }
}

// The return of an operation on a counter.
fn counter_due(sum: i64, op: &Op) -> Ret
    ensures { result ≡ counter_return sum op.now }
{
    match op {
        Op::Get => Ret::Value(sum),
        _ => Ret::Done,
    }
}

// Appends what the operation writes.
fn add_write<A: Allocator>(
    writes: &mut Trail<i32, A>,
    number: u32,
    op: &Op,
) -> Result<(), AllocError>
    requires { AreBelow number writes.old }
    ensures ok { OnOk result (writes.new ≡ writes.old ++ cons_option (write_by number op.now) []) }
    ensures err { OnErr result (writes.new ≡ writes.old) }
{
    if let Op::Write(value) = op {
        writes.push(number, *value)?;
    }
    Ok(())
}

// Adds the operation's amount.
fn add_amount(sum: &mut i64, op: &Op)
    requires { AmountFits op.now → FitsSigned w64 (counter_step sum.old op.now) }
    ensures { sum.new ≡ counter_step sum.old op.now }
{
    read_amount(op);
    if let Op::Add(amount) = op {
        *sum += *amount as i64;
    }
}

// Subtracts the operation's amount.
fn take_amount(sum: &mut i64, op: &Op)
    requires { AmountFits op.now → FitsSigned w64 (sum.old -ℤ amount op.now) }
    ensures { sum.new ≡ sum.old -ℤ amount op.now }
{
    read_amount(op);
    if let Op::Add(amount) = op {
        *sum -= *amount as i64;
    }
}

// Records the operation's insertion or removal.
fn add_mark<A: Allocator + Copy>(
    set: &mut LiveSet<A>,
    number: u32,
    op: &Op,
) -> Result<(), AllocError>
    requires { (x : ℤ) → AreBelow number (trail_at set.old x) }
    ensures ok { OnOk result ((x : ℤ) → trail_at set.new x ≡ trail_at set.old x ++ cons_option (mark_by x number op.now) []) }
    ensures err { OnErr result (set.new ≡ set.old) }
{
    match op {
        Op::Insert(x) => set.mark(number, *x, true),
        Op::Remove(x) => set.mark(number, *x, false),
        _ => Ok(()),
    }
}

// Undoes the operation's insertion or removal.
fn take_mark<A: Allocator + Copy>(set: &mut LiveSet<A>, number: u32, op: &Op)
    ensures { (x : ℤ) → trail_at set.new x ≡ (if is_some (mark_by x number op.now) then without number (trail_at set.old x) else trail_at set.old x) }
{
    if let Op::Insert(x) | Op::Remove(x) = op {
        set.unmark(number, *x);
    }
}

impl<A: Allocator + Copy> LiveValue<A> {
    /// The initial value of an object of this kind. Allocates nothing.
    pub fn new(alloc: A, kind: &Kind) -> LiveValue<A>
        ensures { IsAfter kind.now [] result }
    {
        match kind {
            Kind::Register(first) => LiveValue::Register(*first, Trail::new(alloc)),
            Kind::Counter(first) => LiveValue::Counter(*first as i64),
            Kind::Elements => LiveValue::Elements(LiveSet::new(alloc)),
        }
    }

    // The return that the operation would have.
    fn returned(&self, op: &Op) -> Ret
        ensures returned { result ≡ returned (state_of self.now) op.now }
        ensures ordered { IsInOrder self.now }
    {
        match self {
            LiveValue::Register(first, writes) => register_due(writes.last_or(*first), op),
            LiveValue::Counter(sum) => counter_due(*sum, op),
            LiveValue::Elements(set) => set.due(op),
        }
    }

    // The current value.
    fn state(&self) -> Result<ObjectState<A>, AllocError>
        ensures state { IfOk result (λ state. state ≡ state_of self.now) }
        ensures ordered { IsInOrder self.now }
    {
        Ok(match self {
            LiveValue::Register(first, writes) => ObjectState::Register(writes.last_or(*first)),
            LiveValue::Counter(sum) => ObjectState::Counter(*sum),
            LiveValue::Elements(set) => ObjectState::Elements(set.members()?),
        })
    }

    /// The return that the operation would have now. Allocates nothing.
    pub fn due(&self, op: &Op) -> Ret
        ensures { (kind : Kind) (ops : List (Numbered Op)) → IsAfter kind ops self.now
            → result ≡ returned (state_after (first_state {A = A} kind) (ops_of ops)) op.now }
    {
        self.returned(op)
    }

    /// The current value. Only a set allocates.
    pub fn value(&self) -> Result<ObjectState<A>, AllocError>
        ensures { IfOk result (λ value. (kind : Kind) (ops : List (Numbered Op)) → IsAfter kind ops self.now
            → value ≡ state_after (first_state kind) (ops_of ops)) }
    {
        self.state()
    }

    /// Does the operation after all others. On `Err` the value is unchanged.
    pub fn add(&mut self, number: u32, op: &Op) -> Result<(), AllocError>
        requires { HasRoom number self.old }
        ensures ok { OnOk result ((kind : Kind) (ops : List (Numbered Op)) → IsAfter kind ops self.old
            → AreBelow number ops → length ops < MOST_EVENTS
            → IsAfter kind (ops ++ (record { number = number; item = op.now }) ∷ []) self.new) }
        ensures err { OnErr result (self.new ≡ self.old) }
    {
        read_amount(op);
        match self {
            LiveValue::Register(_, writes) => add_write(writes, number, op)?,
            LiveValue::Counter(sum) => add_amount(sum, op),
            LiveValue::Elements(set) => add_mark(set, number, op)?,
        }
        Ok(())
    }

    /// Undoes the operation, which must be one of those that were done. Allocates nothing.
    pub fn undo(&mut self, number: u32, op: &Op)
        requires { Counts number op.now self.old }
        ensures { (kind : Kind) (ops : List (Numbered Op)) → IsAfter kind ops self.old
            → Contains ops (record { number = number; item = op.now })
            → IsAfter kind (without number ops) self.new }
    {
        match self {
            LiveValue::Register(_, writes) => writes.remove(number),
            LiveValue::Counter(sum) => take_amount(sum, op),
            LiveValue::Elements(set) => take_mark(set, number, op),
        }
    }

    /// Returns a copy of the value.
    pub fn copy(&self) -> Result<LiveValue<A>, AllocError>
        ensures { IfOk result (λ value. value ≡ self.now) }
    {
        Ok(match self {
            LiveValue::Register(first, writes) => LiveValue::Register(*first, writes.clone()?),
            LiveValue::Counter(sum) => LiveValue::Counter(*sum),
            LiveValue::Elements(set) => LiveValue::Elements(set.copy()?),
        })
    }
}
