//! The events that are tried for a transaction.

ghost use Rattle.std.specs.Prelude.{◌≡◌, ◌++◌, IfOk, OnOk, length, nat_lt, take};
ghost use Rattle.acta_table.specs.Events.{started};
ghost use Rattle.acta_next.specs.Candidates.{MOST_TRIED, begins, changing, class_allows, class_ids, events_of_kind, if_in_progress, in_progress, is_in_progress, is_other, joins, may, operations, others, reading, spawns, splits, tried_for, tried_onto};

use acta_machine::{Handle, Machine};
use acta_table::{ClassId, Event, EventKind, Kept, Kind, Model, ObjId, Op, OpSet, Status, TxnId};
use std::alloc::{AllocError, Allocator};

/// The kinds of event of a transaction in progress, in the order in which they are listed.
pub(crate) const KINDS: [EventKind; 9] = [
    EventKind::Commit,
    EventKind::Abort,
    EventKind::Operate,
    EventKind::Spawn,
    EventKind::Split,
    EventKind::Join,
    EventKind::Delegate,
    EventKind::Form,
    EventKind::Permit,
];

// How many objects, and how many other transactions, are tried.
const MOST_TRIED: usize = 12;

// Whether the status is that of a transaction in progress.
fn is_in_progress(status: Status) -> bool
    ensures { result ≡ is_in_progress status }
{
    status == Status::InProgress
}

// Adds the transaction that a kept event began, if it is in progress.
fn push_started<A: Handle>(
    active: &mut Vec<TxnId, A>,
    machine: &Machine<A>,
    kept: &Kept<A>,
) -> Result<(), AllocError>
    ensures { OnOk result (active.new.items ≡ active.old.items ++ if_in_progress machine.now (started kept.now.event)) }
{
    let Some(t) = kept.event.started() else {
        return Ok(());
    };
    if is_in_progress(machine.status(t)) {
        active.push(t)?;
    }
    Ok(())
}

/// The transactions in progress, in the order in which they began.
pub(crate) fn in_progress<A: Handle>(
    alloc: A,
    machine: &Machine<A>,
) -> Result<Vec<TxnId, A>, AllocError>
    ensures { IfOk result (λ active. active.items ≡ in_progress machine.now) }
{
    let mut active = Vec::new(alloc);
    for kept in machine.history() {
        push_started(&mut active, machine, kept)?;
    }
    Ok(active)
}

// The numbers of the classes.
fn class_ids<A: Handle>(alloc: A, model: &Model<A>) -> Result<Vec<ClassId, A>, AllocError>
    ensures { IfOk result (λ ids. ids.items ≡ class_ids model.now) }
{
    let mut ids = Vec::new(alloc);
    for (number, _class) in model.classes().iter().enumerate() {
        ids.push(ClassId(number as u8))?;
    }
    Ok(ids)
}

// Adds a begin of the transaction with each of these classes.
fn push_begins<A: Handle>(
    events: &mut Vec<Event<A>, A>,
    t: TxnId,
    classes: &[ClassId],
) -> Result<(), AllocError>
    ensures { OnOk result (events.new.items ≡ events.old.items ++ begins t classes.now) }
{
    for class in classes {
        events.push(Event::Begin(t, *class))?;
    }
    Ok(())
}

// Adds a spawn of the transaction u with each of these classes.
fn push_spawns<A: Handle>(
    events: &mut Vec<Event<A>, A>,
    t: TxnId,
    u: TxnId,
    classes: &[ClassId],
) -> Result<(), AllocError>
    ensures { OnOk result (events.new.items ≡ events.old.items ++ spawns t u classes.now) }
{
    for class in classes {
        events.push(Event::Spawn(t, u, *class))?;
    }
    Ok(())
}

// Adds a split of the transaction u with each of these classes, which transfers no operation.
fn push_splits<A: Handle>(
    alloc: A,
    events: &mut Vec<Event<A>, A>,
    t: TxnId,
    u: TxnId,
    classes: &[ClassId],
) -> Result<(), AllocError>
    ensures { OnOk result (events.new.items ≡ events.old.items ++ splits t u classes.now) }
{
    for class in classes {
        let none = OpSet::of(alloc, &[])?;
        events.push(Event::Split(t, u, *class, none))?;
    }
    Ok(())
}

// Whether the two transactions differ.
fn is_other(t: TxnId, u: TxnId) -> bool
    ensures { result ≡ is_other t u }
{
    u.0 != t.0
}

/// These transactions without this one.
pub(crate) fn others<A: Handle>(
    alloc: A,
    t: TxnId,
    active: &[TxnId],
) -> Result<Vec<TxnId, A>, AllocError>
    ensures { IfOk result (λ list. list.items ≡ others t active.now) }
{
    let mut list = Vec::new(alloc);
    for u in active {
        if is_other(t, *u) {
            list.push(*u)?;
        }
    }
    Ok(list)
}

// The first ones, those that are tried.
fn first_of<T>(items: &[T]) -> &[T]
    ensures { result.now ≡ take MOST_TRIED items.now }
{
    if items.len() <= MOST_TRIED {
        items
    } else {
        &items[..MOST_TRIED]
    }
}

/// Whether there are more than are tried.
pub(crate) fn has_more<T>(items: &[T]) -> bool
    ensures { result ≡ nat_lt MOST_TRIED (length items.now) }
{
    items.len() > MOST_TRIED
}

// Adds a join with each of these transactions.
fn push_joins<A: Handle>(
    events: &mut Vec<Event<A>, A>,
    t: TxnId,
    list: &[TxnId],
) -> Result<(), AllocError>
    ensures { OnOk result (events.new.items ≡ events.old.items ++ joins t list.now) }
{
    for u in list {
        events.push(Event::Join(t, *u))?;
    }
    Ok(())
}

// An operation that reads an object of this kind.
fn reading(kind: Kind) -> Op
    ensures { result ≡ reading kind }
{
    match kind {
        Kind::Register(_) => Op::Read,
        Kind::Counter(_) => Op::Get,
        Kind::Elements => Op::Size,
    }
}

// An operation that changes an object of this kind.
fn changing(kind: Kind) -> Op
    ensures { result ≡ changing kind }
{
    match kind {
        Kind::Register(_) => Op::Write(0),
        Kind::Counter(_) => Op::Add(1),
        Kind::Elements => Op::Insert(0),
    }
}

// Adds both operations on each of the first objects.
fn push_operations<A: Handle>(
    events: &mut Vec<Event<A>, A>,
    model: &Model<A>,
    t: TxnId,
) -> Result<(), AllocError>
    ensures { OnOk result (events.new.items ≡ events.old.items ++ operations model.now t) }
{
    for (number, object) in first_of(model.objects()).iter().enumerate() {
        let id = ObjId(number as u16);
        events.push(Event::Operate(t, id, reading(object.kind)))?;
        events.push(Event::Operate(t, id, changing(object.kind)))?;
    }
    Ok(())
}

// Adds the events of this kind that are tried.
#[tactic(auto, unfolding(crate::specs::Candidates::events_of_kind))]
fn push_events_of_kind<A: Handle>(
    alloc: A,
    events: &mut Vec<Event<A>, A>,
    model: &Model<A>,
    active: &[TxnId],
    u: TxnId,
    t: TxnId,
    kind: EventKind,
) -> Result<(), AllocError>
    ensures { OnOk result (events.new.items ≡ events.old.items ++ events_of_kind model.now active.now u t kind) }
{
    match kind {
        EventKind::Spawn => {
            let classes = class_ids(alloc, model)?;
            push_spawns(events, t, u, classes.as_slice())
        }
        EventKind::Split => {
            let classes = class_ids(alloc, model)?;
            push_splits(alloc, events, t, u, classes.as_slice())
        }
        EventKind::Join => {
            let list = others(alloc, t, active)?;
            push_joins(events, t, first_of(list.as_slice()))
        }
        EventKind::Operate => push_operations(events, model, t),
        EventKind::Commit => Ok(events.push(Event::Commit(t))?),
        EventKind::Abort => Ok(events.push(Event::Abort(t))?),
        EventKind::Begin | EventKind::Delegate | EventKind::Form | EventKind::Permit => Ok(()),
    }
}

// Whether there is a class, and it allows events of the kind.
fn class_allows<A: Handle>(model: &Model<A>, kind: EventKind, class: Option<ClassId>) -> bool
    ensures { result ≡ class_allows model.now kind class }
{
    let Some(id) = class else {
        return false;
    };
    match model.class(id) {
        Some(class) => class.may.has(kind),
        None => false,
    }
}

/// Whether the class of a transaction allows events of the kind.
#[tactic(auto, unfolding(crate::specs::Candidates::may))]
pub(crate) fn may<A: Handle>(machine: &Machine<A>, t: TxnId, kind: EventKind) -> bool
    ensures { result ≡ may machine.now t kind }
{
    class_allows(machine.model(), kind, machine.class(t))
}

// Adds the events of these kinds that are tried for a transaction in progress.
fn push_tried<A: Handle>(
    alloc: A,
    events: &mut Vec<Event<A>, A>,
    machine: &Machine<A>,
    active: &[TxnId],
    u: TxnId,
    t: TxnId,
    kinds: &[EventKind],
) -> Result<(), AllocError>
    ensures { OnOk result (events.new.items ≡ tried_onto machine.now active.now u t events.old.items kinds.now) }
{
    for kind in kinds {
        if may(machine, t, *kind) {
            push_events_of_kind(alloc, events, machine.model(), active, u, t, *kind)?;
        }
    }
    Ok(())
}

/// The events that are tried for a transaction that has not ended.
pub(crate) fn tried_for<A: Handle>(
    alloc: A,
    machine: &Machine<A>,
    active: &[TxnId],
    u: TxnId,
    t: TxnId,
    status: Status,
) -> Result<Vec<Event<A>, A>, AllocError>
    ensures { IfOk result (λ events. events.items ≡ tried_for status machine.now active.now u t) }
{
    let mut events = Vec::new(alloc);
    match status {
        Status::NotBegun => {
            let classes = class_ids(alloc, machine.model())?;
            push_begins(&mut events, t, classes.as_slice())?;
        }
        _ => push_tried(alloc, &mut events, machine, active, u, t, &KINDS)?,
    }
    Ok(events)
}
