//! The axioms on places: for each the numbers by which the event at the walk's place breaks it.

ghost use Rattle.std.specs.Prelude.{◌≡◌, false, ◌+◌, ◌++◌, ◌||◌, not, filter, map, length, Some, None, option_map, option_to_list, is_some, if◌then◌else◌, IfOk, OnOk};
ghost use Rattle.std.specs.Option.{option_map_or};
ghost use Rattle.acta_table.specs.Events.{acting, kind_of};
ghost use Rattle.acta_table.specs.Classes.{is_whole, has_heir};
ghost use Rattle.acta_table.specs.Policies.{refuses};
ghost use Rattle.acta_table.specs.Sets.{numbers_of, is_named};
ghost use Rattle.acta_axioms.specs.History.{is_in_progress, has_class};
ghost use Rattle.acta_axioms.specs.Operations.{number_after, access_set};
ghost use Rattle.acta_axioms.specs.Faults.{when, first_named, ended, begun_again, ended_unbegun, ended_again, operated_idle, ill_formed, lacks_start, lacks_kind, cannot_form, not_allowed, party, has_number, is_same_ret, is_due, wrong_return, without_heir, not_in_time};

use acta_axioms::{Handle, Walk};
use acta_objects::{form_refusal, is_of_kind};
use acta_table::{
    AtCommit, Event, EventKind, Extent, Kept, Model, ObjId, Op, Ret, TxnId, smallest_of,
};
use acta_values::is_well_formed;
use std::alloc::{AllocError, Allocator};

// The number of the transaction, if the test is true.
fn when(test: bool, t: TxnId) -> Option<u32>
    ensures { option_to_list result ≡ when test t.0 }
{
    if test { Some(u32::from(t.0)) } else { None }
}

// The first transaction that the event names.
fn first_named<A: Allocator>(event: &Event<A>) -> TxnId
    ensures { result.0 ≡ first_named event.now }
{
    match event {
        Event::Begin(t, _)
        | Event::Spawn(t, _, _)
        | Event::Split(t, _, _, _)
        | Event::Join(t, _)
        | Event::Delegate(t, _, _)
        | Event::Form(_, t, _)
        | Event::Operate(t, _, _)
        | Event::Commit(t)
        | Event::Abort(t)
        | Event::Permit(t, _, _) => *t,
    }
}

// The transaction that the event ends.
fn ended<A: Allocator>(event: &Event<A>) -> Option<TxnId>
    ensures { option_to_list (option_map (λ t. t.0) result) ≡ ended event.now }
{
    match event {
        Event::Join(t, _) | Event::Commit(t) | Event::Abort(t) => Some(*t),
        _ => None,
    }
}

/// The transaction that is started, if it has already begun.
pub(crate) fn begun_again<'a, A: Handle>(walk: &Walk<'a, A>, event: &Event<A>) -> Option<u32>
    ensures { option_to_list result ≡ begun_again walk.now.front event.now }
{
    let t = event.started()?;
    when(walk.course(t).has_begun(), t)
}

/// The transaction that ends, if it has not begun.
pub(crate) fn ended_unbegun<'a, A: Handle>(walk: &Walk<'a, A>, event: &Event<A>) -> Option<u32>
    ensures { option_to_list result ≡ ended_unbegun walk.now.front event.now }
{
    let t = ended(event)?;
    when(!walk.course(t).has_begun(), t)
}

/// The transaction that ends, if it has already ended.
pub(crate) fn ended_again<'a, A: Handle>(walk: &Walk<'a, A>, event: &Event<A>) -> Option<u32>
    ensures { option_to_list result ≡ ended_again walk.now.front event.now }
{
    let t = ended(event)?;
    when(walk.course(t).has_ended(), t)
}

/// The transaction of an operation, if it is not in progress.
pub(crate) fn operated_idle<'a, A: Handle>(walk: &Walk<'a, A>, event: &Event<A>) -> Option<u32>
    ensures { option_to_list result ≡ operated_idle walk.now.front event.now }
{
    match event {
        Event::Operate(t, _, _) => when(!walk.course(*t).is_in_progress(), *t),
        _ => None,
    }
}

/// The first transaction that the event names, if a number, the class, the object or the operation is bad, or the two
/// transactions are the same.
#[tactic(auto, using(crate::proofs::Forms::refused_some))]
pub(crate) fn ill_formed<A: Allocator>(model: &Model<A>, event: &Event<A>) -> Option<u32>
    ensures { option_to_list result ≡ ill_formed model.now event.now }
{
    let is_bad = form_refusal(model, event).is_some();
    when(is_bad, first_named(event))
}

// Whether the class named may not start by such an event.
fn lacks_start<A: Allocator>(model: &Model<A>, event: &Event<A>) -> bool
    ensures { result ≡ lacks_start model.now event.now }
{
    match event {
        Event::Begin(_, class) => match model.class(*class) {
            Some(class) => !class.starts.begin,
            None => false,
        },
        Event::Spawn(_, _, class) => match model.class(*class) {
            Some(class) => !class.starts.spawned,
            None => false,
        },
        Event::Split(_, _, class, _) => match model.class(*class) {
            Some(class) => !class.starts.split,
            None => false,
        },
        _ => false,
    }
}

// Whether the class of the transaction may not do such an event.
fn lacks_kind<'a, A: Handle>(walk: &Walk<'a, A>, kind: EventKind, t: TxnId) -> bool
    ensures { result ≡ lacks_kind walk.now.model walk.now.front kind t.0 }
{
    match walk.class(t) {
        Some(class) => !class.may.has(kind),
        None => false,
    }
}

// Whether the class of the acting transaction may not do the event.
fn lacks_its_kind<'a, A: Handle>(walk: &Walk<'a, A>, event: &Event<A>) -> bool
    ensures { result ≡ option_map_or (lacks_kind walk.now.model walk.now.front (kind_of event.now)) (acting event.now) false }
{
    match event.acting() {
        Some(t) => lacks_kind(walk, event.kind(), t),
        None => false,
    }
}

// Whether a form event is not allowed: no class may form edges, or the class of one of its transactions may not.
fn cannot_form<'a, A: Handle>(walk: &Walk<'a, A>, event: &Event<A>) -> bool
    ensures { result ≡ cannot_form walk.now.model walk.now.front event.now }
{
    match event {
        Event::Form(_, j, i) => {
            !walk.model().may_form()
                || lacks_kind(walk, EventKind::Form, *j)
                || lacks_kind(walk, EventKind::Form, *i)
        }
        _ => false,
    }
}

/// The first transaction that the event names, if the model does not allow the event.
pub(crate) fn not_allowed<'a, A: Handle>(walk: &Walk<'a, A>, event: &Event<A>) -> Option<u32>
    ensures { option_to_list result ≡ not_allowed walk.now.model walk.now.front event.now }
{
    let is_blocked = lacks_start(walk.model(), event)
        || lacks_its_kind(walk, event)
        || cannot_form(walk, event);
    when(is_blocked, first_named(event))
}

/// The transactions other than an ending one that must be in progress for the event, each once.
pub(crate) fn party<A: Allocator>(event: &Event<A>) -> (Option<TxnId>, Option<TxnId>)
    ensures { option_to_list (option_map (λ t. t.0) result.0) ++ option_to_list (option_map (λ t. t.0) result.1) ≡ party event.now }
{
    match event {
        Event::Spawn(t, _, _) | Event::Split(t, _, _, _) | Event::Join(_, t) => (Some(*t), None),
        Event::Delegate(t, u, _) | Event::Permit(t, u, _) => {
            if t.0 == u.0 {
                (Some(*t), None)
            } else {
                (Some(*t), Some(*u))
            }
        }
        _ => (None, None),
    }
}

/// The party, if it is not in progress.
pub(crate) fn idle<'a, A: Handle>(walk: &Walk<'a, A>, t: Option<TxnId>) -> Option<u32>
    ensures { option_to_list result ≡ filter (λ t. not (is_in_progress walk.now.front t)) (option_to_list (option_map (λ t. t.0) t)) }
{
    let t = t?;
    when(!walk.course(t).is_in_progress(), t)
}

/// Whether the transaction's class must transfer all operations that it holds, or none.
pub(crate) fn wants_whole<'a, A: Handle>(walk: &Walk<'a, A>, t: TxnId) -> bool
    ensures { result ≡ has_class (λ k. is_whole k.extent) walk.now.model walk.now.front t.0 }
{
    match walk.class(t) {
        Some(class) => matches!(class.extent, Extent::Whole),
        None => false,
    }
}

/// Whether the transaction's class refuses conflicting operations.
pub(crate) fn refuses<'a, A: Handle>(walk: &Walk<'a, A>, t: TxnId) -> bool
    ensures { result ≡ has_class (λ k. refuses k.policy) walk.now.model walk.now.front t.0 }
{
    match walk.class(t) {
        Some(class) => class.policy.refuses(),
        None => false,
    }
}

fn is_same_ret(a: Ret, b: Ret) -> bool
    ensures { result ≡ is_same_ret a b }
{
    match (a, b) {
        (Ret::Done, Ret::Done) => true,
        (Ret::Value(v), Ret::Value(w)) => v == w,
        (Ret::Flag(v), Ret::Flag(w)) => v == w,
        _ => false,
    }
}

// Whether there is a return, and it is the one due.
fn is_due(due: Option<Ret>, ret: Option<Ret>) -> bool
    ensures { result ≡ is_due due ret }
{
    match (due, ret) {
        (Some(due), Some(ret)) => is_same_ret(due, ret),
        _ => false,
    }
}

// The number that an operation at the walk's place has.
fn number_here<'a, A: Handle>(walk: &Walk<'a, A>) -> u32
    ensures { result ≡ number_after walk.now.front }
{
    walk.operations().len() as u32 + 1
}

/// The number of the operation whose return is not the one due, or 0 if an event that is no operation has a return.
pub(crate) fn wrong_return<'a, A: Handle>(
    walk: &Walk<'a, A>,
    item: &Kept<A>,
) -> Result<Option<u32>, AllocError>
    ensures { IfOk result (λ by. option_to_list by ≡ wrong_return walk.now.model walk.now.front item.now.ret item.now.event) }
{
    match &item.event {
        Event::Operate(_, object, op) => {
            if !is_well_formed(walk.model(), *object, op) {
                return Ok(None);
            }
            if is_due(walk.return_due(*object, op)?, item.ret) {
                Ok(None)
            } else {
                Ok(Some(number_here(walk)))
            }
        }
        _ => Ok(if item.ret.is_some() { Some(0) } else { None }),
    }
}

// Whether the transaction's class commits to parents.
fn commits_to_parent<'a, A: Handle>(walk: &Walk<'a, A>, t: TxnId) -> bool
    ensures { result ≡ has_class (λ k. has_heir k.at_commit) walk.now.model walk.now.front t.0 }
{
    match walk.class(t) {
        Some(class) => matches!(class.at_commit, AtCommit::ToParent),
        None => false,
    }
}

/// The parent of a transaction that commits to it, if it is not in progress, or 0 if there is none.
pub(crate) fn without_heir<'a, A: Handle>(walk: &Walk<'a, A>, event: &Event<A>) -> Option<u32>
    ensures { option_to_list result ≡ without_heir walk.now.model walk.now.front event.now }
{
    let Event::Commit(t) = event else {
        return None;
    };
    if !commits_to_parent(walk, *t) {
        return None;
    }
    match walk.parent(*t) {
        Some(u) => when(!walk.course(u).is_in_progress(), u),
        None => Some(0),
    }
}

/// The transaction that has already begun or ended when the edge is formed; the smaller number if both have.
pub(crate) fn not_in_time<'a, A: Handle>(walk: &Walk<'a, A>, event: &Event<A>) -> Option<u32>
    ensures { option_to_list result ≡ not_in_time walk.now.front event.now }
{
    let Event::Form(kind, j, i) = event else {
        return None;
    };
    let (of_j, of_i) = (walk.course(*j), walk.course(*i));
    if kind.is_begin_kind() {
        when(of_j.has_begun(), *j)
    } else {
        smallest_of(*j, of_j.has_ended(), *i, of_i.has_ended())
    }
}
