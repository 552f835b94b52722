//! Operations that commute, done in both orders on a value of each kind.

ghost use Rattle.std.specs.Prelude.{◌≡◌, false, [], ◌∷◌, IfOk, OnOk};

use crate::expecting::{holds, made};
use acta_objects::{Counter, ElementSet, Members, ObjectKind, Register};
use acta_table::{Op, Ret};
use std::alloc::{AllocError, Global};
use std::process::Abort;

// Does two operations that don't conflict in one order on one value, and in the other on an equal one.
// By the kind's laws, whatever the kind, the two values end equal and each operation returns the same.
fn both_orders<K: ObjectKind<Op = Op, Ret = Ret>>(
    one: &mut K::Value,
    other: &mut K::Value,
    p: &Op,
    q: &Op,
) -> Result<[(Ret, Ret); 2], AllocError>
    requires equal { one.old ≡ other.old }
    requires state { K.is_state one.old }
    requires calm { K.conflicting p.now q.now ≡ false }
    requires p_first { K.can_apply one.old p.now }
    requires q_second { K.can_apply (K.step one.old p.now) q.now }
    requires q_first { K.can_apply other.old q.now }
    requires p_second { K.can_apply (K.step other.old q.now) p.now }
    ensures values { OnOk result (one.new ≡ other.new) }
    ensures returns { IfOk result (λ rets. rets ≡ (K.returned one.old p.now, K.returned other.old q.now) ∷ (K.returned one.old p.now, K.returned other.old q.now) ∷ []) }
{
    let p_then = K::apply(one, p)?;
    let q_after = K::apply(one, q)?;
    let q_then = K::apply(other, q)?;
    let p_after = K::apply(other, p)?;
    Ok([(p_then, q_after), (p_after, q_then)])
}

// Two operations that commute on a register.
fn on_registers(rt: &impl Abort) {
    let (mut one, mut other) = (4, 4);
    let (p, q) = (Op::Write(9), Op::Write(9));
    let rets = both_orders::<Register>(&mut one, &mut other, &p, &q);
    let rets = made(rt, rets, "on a register");
    holds(rt, (one, other) == (9, 9), "a register");
    holds(rt, rets == [(Ret::Done, Ret::Done); 2], "on a register");
}

// Two operations that commute on a counter.
fn on_counters(rt: &impl Abort) {
    let (mut one, mut other) = (4, 4);
    let (p, q) = (Op::Add(2), Op::Add(-9));
    let rets = both_orders::<Counter>(&mut one, &mut other, &p, &q);
    let rets = made(rt, rets, "on a counter");
    holds(rt, (one, other) == (-3, -3), "a counter");
    holds(rt, rets == [(Ret::Done, Ret::Done); 2], "on a counter");
}

// Two operations that commute on a set.
fn on_sets(rt: &impl Abort, alloc: Global) {
    let (mut one, mut other) = (Members::new(alloc), Members::new(alloc));
    let (p, q) = (Op::Insert(2), Op::Remove(5));
    let rets = both_orders::<ElementSet<Global>>(&mut one, &mut other, &p, &q);
    let rets = made(rt, rets, "on a set");
    holds(rt, (one.len(), other.len()) == (1, 1), "a set");
    holds(
        rt,
        rets == [(Ret::Flag(true), Ret::Flag(false)); 2],
        "on a set",
    );
}

#[test]
fn commute(rt: HostRuntime) {
    on_registers(&rt);
    on_counters(&rt);
    on_sets(&rt, rt.alloc());
}
