ghost use Rattle.std.specs.Prelude.{◌≡◌, Decides, option_map, IfOk};
ghost use Rattle.acta_table.specs.Events.{kind_of, acting, started, class_named};

use crate::dep::Dep;
use crate::op_set::OpSet;
use std::alloc::{AllocError, Allocator};

/// The number of a transaction: 1 to `LAST_TXN` in a history.
#[derive(Clone, Copy, PartialEq, Eq, Hash, Debug)]
pub struct TxnId(pub u16);

/// The position of a class in its model's list, from 0.
#[derive(Clone, Copy, PartialEq, Eq, Hash, Debug)]
pub struct ClassId(pub u8);

/// The position of an object in its model's list, from 0.
#[derive(Clone, Copy, PartialEq, Eq, Hash, Debug)]
pub struct ObjId(pub u16);

/// The number of an operation among the operations of a history, from 1.
#[derive(Clone, Copy, PartialEq, Eq, Hash, Debug)]
pub struct OpNo(pub u32);

/// An operation on an object.
#[derive(Clone, Copy, PartialEq, Eq, Hash, Debug)]
pub enum Op {
    /// Returns the value of a register.
    Read,
    /// Sets the value of a register.
    Write(i32),
    /// Returns the value of a counter.
    Get,
    /// Adds to the value of a counter.
    Add(i32),
    /// Inserts an element into a set, and returns whether it was absent.
    Insert(i32),
    /// Removes an element from a set, and returns whether it was present.
    Remove(i32),
    /// Returns whether an element is present in a set.
    Has(i32),
    /// Returns the number of elements of a set.
    Size,
}

/// The return of an operation.
#[derive(Clone, Copy, PartialEq, Eq, Hash, Debug)]
pub enum Ret {
    /// No value.
    Done,
    /// A number.
    Value(i64),
    /// Yes or no.
    Flag(bool),
}

/// The kinds of event. All but `Operate` are ACTA's significant events, or additions of the same kind.
#[derive(Clone, Copy, PartialEq, Eq, Hash, Debug)]
pub enum EventKind {
    Begin,
    Spawn,
    Split,
    Join,
    Delegate,
    Form,
    Operate,
    Commit,
    Abort,
    Permit,
}

/// An event of a history.
#[derive(Drop)]
pub enum Event<A: Allocator> {
    /// The transaction begins, with the class.
    Begin(TxnId, ClassId),
    /// The first transaction spawns the second, with the class, and becomes its parent.
    Spawn(TxnId, TxnId, ClassId),
    /// The first transaction splits off the second, with the class, and transfers the operations to it.
    Split(TxnId, TxnId, ClassId, OpSet<A>),
    /// The first transaction joins the second and so ends. The second holds all operations that the first held in
    /// progress.
    Join(TxnId, TxnId),
    /// The first transaction delegates the operations to the second, which then holds them.
    Delegate(TxnId, TxnId, OpSet<A>),
    /// A dependency is formed: of this kind, of the first transaction on the second.
    Form(Dep, TxnId, TxnId),
    /// The transaction does an operation on the object.
    Operate(TxnId, ObjId, Op),
    /// The transaction commits.
    Commit(TxnId),
    /// The transaction aborts.
    Abort(TxnId),
    /// The first transaction permits the second to work on the object: while both are in progress, operations that the
    /// first holds on the object do not conflict with the second's (ASSET's permit, for one object).
    Permit(TxnId, TxnId, ObjId),
}

impl<A: Allocator> Event<A> {
    /// The kind of the event.
    pub fn kind(&self) -> EventKind
        ensures { result ≡ kind_of self.now }
    {
        match self {
            Event::Begin(_, _) => EventKind::Begin,
            Event::Spawn(_, _, _) => EventKind::Spawn,
            Event::Split(_, _, _, _) => EventKind::Split,
            Event::Join(_, _) => EventKind::Join,
            Event::Delegate(_, _, _) => EventKind::Delegate,
            Event::Form(_, _, _) => EventKind::Form,
            Event::Operate(_, _, _) => EventKind::Operate,
            Event::Commit(_) => EventKind::Commit,
            Event::Abort(_) => EventKind::Abort,
            Event::Permit(_, _, _) => EventKind::Permit,
        }
    }

    /// The transaction that the event starts, by a begin, a spawn or a split.
    pub fn started(&self) -> Option<TxnId>
        ensures { option_map (λ t. t.0) result ≡ started self.now }
    {
        match self {
            Event::Begin(t, _) | Event::Spawn(_, t, _) | Event::Split(_, t, _, _) => Some(*t),
            _ => None,
        }
    }

    /// The transaction that does the event and must be in progress. None for a begin, and none for a form event, since
    /// edges may be formed before their transactions begin.
    pub fn acting(&self) -> Option<TxnId>
        ensures { option_map (λ t. t.0) result ≡ acting self.now }
    {
        match self {
            Event::Begin(_, _) | Event::Form(_, _, _) => None,
            Event::Spawn(t, _, _)
            | Event::Split(t, _, _, _)
            | Event::Join(t, _)
            | Event::Delegate(t, _, _)
            | Event::Operate(t, _, _)
            | Event::Commit(t)
            | Event::Abort(t)
            | Event::Permit(t, _, _) => Some(*t),
        }
    }

    /// The class of the transaction that the event starts.
    pub fn class(&self) -> Option<ClassId>
        ensures { option_map (λ class. class.0) result ≡ class_named self.now }
    {
        match self {
            Event::Begin(_, class) | Event::Spawn(_, _, class) | Event::Split(_, _, class, _) => {
                Some(*class)
            }
            _ => None,
        }
    }
}

// Equality of events, one function for each kind.
impl<A: Allocator> Event<A> {
    fn is_begin(&self, t: TxnId, class: ClassId) -> bool
        ensures { Decides result (Event.Begin t class ≡ self.now) }
    {
        match self {
            Event::Begin(u, named) => t.0 == u.0 && class.0 == named.0,
            _ => false,
        }
    }

    fn is_spawn(&self, t: TxnId, c: TxnId, class: ClassId) -> bool
        ensures { Decides result (Event.Spawn t c class ≡ self.now) }
    {
        match self {
            Event::Spawn(u, d, named) => t.0 == u.0 && c.0 == d.0 && class.0 == named.0,
            _ => false,
        }
    }

    fn is_split(&self, t: TxnId, v: TxnId, class: ClassId, ops: &OpSet<A>) -> bool
        ensures { Decides result (Event.Split t v class ops.now ≡ self.now) }
    {
        match self {
            Event::Split(u, w, named, others) => {
                t.0 == u.0 && v.0 == w.0 && class.0 == named.0 && ops.is_same(others)
            }
            _ => false,
        }
    }

    fn is_join(&self, t: TxnId, v: TxnId) -> bool
        ensures { Decides result (Event.Join t v ≡ self.now) }
    {
        match self {
            Event::Join(u, w) => t.0 == u.0 && v.0 == w.0,
            _ => false,
        }
    }

    fn is_delegate(&self, t: TxnId, v: TxnId, ops: &OpSet<A>) -> bool
        ensures { Decides result (Event.Delegate t v ops.now ≡ self.now) }
    {
        match self {
            Event::Delegate(u, w, others) => t.0 == u.0 && v.0 == w.0 && ops.is_same(others),
            _ => false,
        }
    }

    fn is_form(&self, kind: Dep, j: TxnId, i: TxnId) -> bool
        ensures { Decides result (Event.Form kind j i ≡ self.now) }
    {
        match self {
            Event::Form(other, l, k) => kind == *other && j.0 == l.0 && i.0 == k.0,
            _ => false,
        }
    }

    fn is_operate(&self, t: TxnId, ob: ObjId, op: Op) -> bool
        ensures { Decides result (Event.Operate t ob op ≡ self.now) }
    {
        match self {
            Event::Operate(u, on, other) => t.0 == u.0 && ob.0 == on.0 && op == *other,
            _ => false,
        }
    }

    fn is_commit(&self, t: TxnId) -> bool
        ensures { Decides result (Event.Commit t ≡ self.now) }
    {
        match self {
            Event::Commit(u) => t.0 == u.0,
            _ => false,
        }
    }

    fn is_abort(&self, t: TxnId) -> bool
        ensures { Decides result (Event.Abort t ≡ self.now) }
    {
        match self {
            Event::Abort(u) => t.0 == u.0,
            _ => false,
        }
    }

    fn is_permit(&self, t: TxnId, v: TxnId, ob: ObjId) -> bool
        ensures { Decides result (Event.Permit t v ob ≡ self.now) }
    {
        match self {
            Event::Permit(u, w, on) => t.0 == u.0 && v.0 == w.0 && ob.0 == on.0,
            _ => false,
        }
    }

    /// Whether the two events are equal.
    pub fn is_same(&self, other: &Event<A>) -> bool
        ensures { Decides result (self.now ≡ other.now) }
    {
        match self {
            Event::Begin(t, class) => other.is_begin(*t, *class),
            Event::Spawn(t, c, class) => other.is_spawn(*t, *c, *class),
            Event::Split(t, v, class, ops) => other.is_split(*t, *v, *class, ops),
            Event::Join(t, v) => other.is_join(*t, *v),
            Event::Delegate(t, v, ops) => other.is_delegate(*t, *v, ops),
            Event::Form(kind, j, i) => other.is_form(*kind, *j, *i),
            Event::Operate(t, ob, op) => other.is_operate(*t, *ob, *op),
            Event::Commit(t) => other.is_commit(*t),
            Event::Abort(t) => other.is_abort(*t),
            Event::Permit(t, u, ob) => other.is_permit(*t, *u, *ob),
        }
    }
}

impl<A: Allocator + Copy> Event<A> {
    /// Returns a copy of the event.
    pub fn copy(&self) -> Result<Event<A>, AllocError>
        ensures { IfOk result (λ event. event ≡ self.now) }
    {
        Ok(match self {
            Event::Begin(t, class) => Event::Begin(*t, *class),
            Event::Spawn(t, c, class) => Event::Spawn(*t, *c, *class),
            Event::Split(t, u, class, ops) => Event::Split(*t, *u, *class, ops.copy()?),
            Event::Join(t, u) => Event::Join(*t, *u),
            Event::Delegate(t, u, ops) => Event::Delegate(*t, *u, ops.copy()?),
            Event::Form(kind, j, i) => Event::Form(*kind, *j, *i),
            Event::Operate(t, ob, op) => Event::Operate(*t, *ob, *op),
            Event::Commit(t) => Event::Commit(*t),
            Event::Abort(t) => Event::Abort(*t),
            Event::Permit(t, u, ob) => Event::Permit(*t, *u, *ob),
        })
    }
}

/// An admitted event, with what it returned: `Some` for an operation, and `None` otherwise.
#[derive(Drop)]
pub struct Kept<A: Allocator> {
    pub event: Event<A>,
    pub ret: Option<Ret>,
}

impl<A: Allocator + Copy> Kept<A> {
    /// Returns a copy of the item.
    pub fn copy(&self) -> Result<Kept<A>, AllocError>
        ensures { IfOk result (λ kept. kept ≡ self.now) }
    {
        Ok(Kept {
            event: self.event.copy()?,
            ret: self.ret,
        })
    }
}
