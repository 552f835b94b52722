//! The allocator that refuses one chosen allocation, on which other tests depend.

use crate::expecting::{holds, same};
use refusing::Refusing;

// A refused allocation leaves the list unchanged.
#[test]
fn refuses_one_allocation(rt: HostRuntime) {
    let heap = Refusing::new(rt.alloc());
    let mut list: Vec<u64, &Refusing<_>> = Vec::new(&heap);
    heap.refuse(1);
    holds(&rt, list.push(7).is_err(), "a refused allocation");
    holds(&rt, !heap.is_waiting(), "it was refused");
    same(&rt, &list.len(), &0, "nothing was pushed");
    heap.refuse(2);
    holds(&rt, list.push(7).is_ok(), "one allocation is enough");
    holds(&rt, heap.is_waiting(), "no second one came");
    same(&rt, &list.len(), &1, "one was pushed");
}

fn shared<T: Sync>(_: &T) {}

// Several threads may hold a `&` to it.
#[test]
fn may_be_shared(rt: HostRuntime) {
    shared(&Refusing::new(rt.alloc()));
}
