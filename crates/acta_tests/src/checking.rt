//! Checked models: a model from its parts, and a fault of parts that no text can have; neither allocates.

use crate::expecting::{holds, made, same};
use crate::models::model_of;
use acta_models::Standard;
use acta_table::{Class, Items, Kind, Model, ModelFault, Object, Parts};
use refusing::Refusing;
use std::alloc::Allocator;
use std::process::Abort;

// A register `x`, and `classes` copies of the class of flat transactions.
fn parts_of<A: Allocator + Copy>(rt: &impl Abort, alloc: A, classes: u8) -> Parts<A> {
    let name = Items::of(made(rt, Vec::from_slice(alloc, b"x"), "a name"));
    let (mut objects, mut found): (Vec<Object<A>, A>, Vec<Class<A>, A>) = (
        Vec::new(alloc),
        Vec::new(alloc),
    );
    let kind = Kind::Register(0);
    made(rt, objects.push(Object { name, kind }), "an object");
    let model = model_of(rt, alloc, Standard::Atomic.text());
    let class = model.classes().first().expect(rt, "a class");
    for _ in 0..classes {
        made(rt, found.push(made(rt, class.copy(), "a class")), "a class");
    }
    drop(model);
    Parts {
        objects: Items::of(objects),
        classes: Items::of(found),
    }
}

// The fault of parts with so many equal classes, while the next allocation would be refused.
fn fault_of<A: Allocator + Copy, B: Allocator>(
    rt: &impl Abort,
    heap: &Refusing<B>,
    alloc: A,
    classes: u8,
) -> Option<ModelFault> {
    let parts = parts_of(rt, alloc, classes);
    heap.refuse(1);
    let fault = Model::check(parts).err();
    holds(rt, heap.is_waiting(), "no memory is taken");
    heap.refuse(0);
    fault
}

#[test]
fn parts_are_checked_without_memory(rt: HostRuntime) {
    let heap = Refusing::new(rt.alloc());
    for (classes, due) in [
        (0u8, Some(ModelFault::NoClass)),
        (1, None),
        (2, Some(ModelFault::DuplicateName)),
        (17, Some(ModelFault::TooManyClasses)),
    ] {
        same(&rt, &fault_of(&rt, &heap, &heap, classes), &due, "a fault");
    }
}
