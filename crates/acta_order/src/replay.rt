ghost use Rattle.std.specs.Prelude.{◌≡◌, ◌+◌, ◌<◌, ◌≤◌, ◌++◌, ◌-◌, ◌∷◌, Decides, [], true, false, length, map, take, option_map, ℕ, IfOk, OnOk};
ghost use Rattle.std.specs.List.{list_all};
ghost use Rattle.acta_table.specs.declared.limits.TheConstants.{MOST_EVENTS};
ghost use Rattle.acta_objects.specs.Objects.{returned};
ghost use Rattle.acta_values.specs.KeptValues.{kinds_of};
ghost use Rattle.acta_order.specs.Blocks.{IsPlayed};
ghost use Rattle.acta_order.specs.Memos.{values_in};
ghost use Rattle.acta_order.specs.Search.{held, values_at, values_of, is_sound};

use crate::item::Item;
use crate::memo::{Changed, is_first};
use acta_objects::ObjectState;
use acta_table::{Kind, MOST_EVENTS, ObjId, Object, Op, Ret};
use acta_values::Values;
use std::alloc::{AllocError, Allocator};

// A replay: operations done in order, and the values of the objects after them. The last operations can be taken back.
// Contracts see the kinds of the objects and the operations.
#[derive(Drop)]
pub(crate) struct Replay<A: Allocator> {
    kinds: Vec<Kind, A>,
    values: Values<A>,
    done: Vec<Item, A>,
}

impl<A: Allocator> std::marker::Model for Replay<A> {
    ghost use Rattle.std.specs.Prelude.{map};
    ghost use Rattle.acta_values.specs.KeptValues.{AreAfter};
    ghost use Rattle.acta_order.specs.Search.{Replaying, held};

    ghost Value = { Replaying };

    ghost view = { λ b. record { kinds = b.kinds.items; done = b.done.items } };

    ghost invariant = { λ b. AreAfter b.kinds.items (map held b.done.items) b.values };
}

// The first operation of a group that would return something else than the history records: its position in the group,
// and what it would return.
#[derive(Clone, Copy)]
pub(crate) struct Difference {
    pub(crate) place: usize,
    pub(crate) would: Option<Ret>,
}

// The kinds of the objects.
fn kinds_of<A: Allocator + Copy>(
    alloc: A,
    objects: &[Object<A>],
) -> Result<Vec<Kind, A>, AllocError>
    ensures { IfOk result (λ kinds. kinds.items ≡ kinds_of objects.now) }
{
    let mut kinds = Vec::with_capacity(alloc, objects.len())?;
    for object in objects {
        kinds.push(object.kind)?;
    }
    Ok(kinds)
}

// Whether two returns are equal.
fn is_same(a: Option<Ret>, b: Option<Ret>) -> bool
    ensures { Decides result (a ≡ b) }
{
    match (a, b) {
        (Some(x), Some(y)) => x == y,
        (None, None) => true,
        _ => false,
    }
}

impl<A: Allocator + Copy> Replay<A> {
    /// A replay of no operation: each object has its first value.
    pub(crate) fn new(alloc: A, objects: &[Object<A>]) -> Result<Replay<A>, AllocError>
        ensures { IfOk result (λ replay. replay ≡ record { kinds = kinds_of objects.now; done = [] }) }
    {
        let kinds = kinds_of(alloc, objects)?;
        let values = Values::new(alloc, kinds.as_slice())?;
        Ok(Replay {
            kinds,
            values,
            done: Vec::new(alloc),
        })
    }

    // The return that an operation on the object would have. `None` if the object doesn't exist.
    fn due(&self, ob: ObjId, op: &Op) -> Option<Ret>
        ensures { result ≡ option_map (λ s. returned s op.now) (values_of {A = A} self.now ob.0) }
    {
        self.values.due(ob, op)
    }

    // The value of the object. `None` if it doesn't exist.
    fn state(&self, k: usize) -> Result<Option<ObjectState<A>>, AllocError>
        ensures { IfOk result (λ state. state ≡ values_of {A = A} self.now k) }
    {
        self.values.value(k)
    }

    /// The objects whose values differ from their first values, with these values.
    pub(crate) fn changes(&self, alloc: A) -> Result<Vec<Changed<A>, A>, AllocError>
        ensures { IfOk result (λ changes. (k : ℕ) → values_in (values_at {A = A} self.now.kinds []) changes.items k ≡ values_of {A = A} self.now k) }
    {
        let mut changes = Vec::new(alloc);
        for place in 0..self.kinds.len() {
            if let Some(state) = self.state(place)? {
                if !is_first(&self.kinds[place], &state) {
                    changes.push(Changed { place, state })?;
                }
            }
        }
        Ok(changes)
    }

    /// How many operations are done.
    pub(crate) fn len(&self) -> usize
        ensures is { result ≡ length self.now.done }
        ensures few { result ≤ MOST_EVENTS }
    {
        self.done.len()
    }

    // Does one operation more. `Err` leaves the replay unchanged.
    fn add(&mut self, item: Item) -> Result<(), AllocError>
        requires { length self.old.done < MOST_EVENTS }
        ensures { OnOk result (self.new ≡ record self.old { done = self.old.done ++ item ∷ [] }) }
    {
        let number = self.done.len() as u32 + 1;
        self.done.push(item)?;
        match self.values.add(number, item.ob, &item.op) {
            Ok(()) => Ok(()),
            Err(error) => {
                self.done.pop();
                Err(error)
            }
        }
    }

    // Takes back the last operation, if there is one.
    fn drop_last(&mut self)
        ensures { self.new ≡ record self.old { done = take (length self.old.done - 1) self.old.done } }
    {
        if let Some(last) = self.done.pop() {
            let number = self.done.len() as u32 + 1;
            self.values.forget(number, last.ob, &last.op);
        }
    }

    /// Takes back all operations but the first `len`.
    pub(crate) fn cut(&mut self, len: usize)
        ensures { self.new ≡ record self.old { done = take len self.old.done } }
    {
        for _ in len..self.done.len() {
            self.drop_last();
        }
    }

    /// Does these operations if each has its recorded return. Otherwise returns the first that would return something else,
    /// and does none of them.
    pub(crate) fn play(&mut self, group: &[Item]) -> Result<Option<Difference>, AllocError>
        requires room { length self.old.done + length group.now ≤ MOST_EVENTS }
        requires sound { list_all (is_sound self.old.kinds) group.now ≡ true }
        ensures { IfOk result (IsPlayed A self.old self.new group.now) }
    {
        let len = self.len();
        for place in 0..group.len() {
            let item = group[place];
            let would = self.due(item.ob, &item.op);
            if !is_same(would, item.ret) {
                self.cut(len);
                return Ok(Some(Difference { place, would }));
            }
            self.add(item)?;
        }
        Ok(None)
    }
}
