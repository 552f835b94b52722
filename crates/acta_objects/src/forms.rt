//! Checks the form of an event, which depends on the model alone and not on the history.

ghost use Rattle.std.specs.Prelude.{◌≡◌, ◌++◌, ◌∷◌, [], filter, if◌then◌else◌, option_map, IfSome};
ghost use Rattle.acta_table.specs.Events.{named};
ghost use Rattle.acta_table.specs.Numbered.{smallest};
ghost use Rattle.acta_table.specs.Refusals.{broken_by};
ghost use Rattle.acta_table.specs.WellFormed.{is_bad_number, bad_number, bad_class, bad_object, twice_in, same_transaction};
ghost use Rattle.acta_objects.specs.FormFaults.{refusal_of, IsNamed};
ghost use Rattle.acta_objects.specs.WellFormed.{bad_operation, form_refusal};

use crate::state::is_of_kind;
use acta_table::{ClassId, Event, LAST_TXN, Model, ObjId, Op, Refusal, Rule, TxnId, smallest_of};
use std::alloc::Allocator;

/// A fault in the form of an event.
#[derive(Clone, Copy, PartialEq, Eq, Debug)]
pub enum FormFault {
    /// The event names this number, which no transaction can have; the smallest such.
    BadNumber(u32),
    /// The model has no class at this position.
    BadClass(ClassId),
    /// The model has no object at this position.
    BadObject(ObjId),
    /// The object's kind has no such operation.
    BadOperation(ObjId, Op),
    /// The event names this transaction twice.
    SameTransaction(TxnId),
}

impl FormFault {
    /// The rule that the event breaks, with the number that the rule names.
    pub fn refusal(self) -> Refusal
        ensures { result ≡ refusal_of self }
    {
        match self {
            FormFault::BadNumber(number) => Refusal::by(Rule::BadNumber, number),
            FormFault::BadClass(_) => Refusal::of(Rule::BadClass),
            FormFault::BadObject(_) => Refusal::of(Rule::BadObject),
            FormFault::BadOperation(_, _) => Refusal::of(Rule::BadOperation),
            FormFault::SameTransaction(txn) => {
                Refusal::by(Rule::SameTransaction, u32::from(txn.0))
            }
        }
    }
}

fn is_bad_number(t: TxnId) -> bool
    ensures { result ≡ is_bad_number t.0 }
{
    t.0 == 0 || t.0 > LAST_TXN
}

// The smallest number named by the event that no transaction can have.
fn smallest_bad<A: Allocator>(event: &Event<A>) -> Option<u32>
    ensures { result ≡ smallest (filter is_bad_number (named event.now)) }
{
    match event {
        Event::Spawn(j, i, _)
        | Event::Split(j, i, _, _)
        | Event::Join(j, i)
        | Event::Delegate(j, i, _)
        | Event::Form(_, j, i)
        | Event::Permit(j, i, _) => { smallest_of(*j, is_bad_number(*j), *i, is_bad_number(*i)) }
        Event::Begin(t, _) | Event::Operate(t, _, _) | Event::Commit(t) | Event::Abort(t) => {
            smallest_of(*t, is_bad_number(*t), *t, false)
        }
    }
}

#[tactic(auto, unfolding(acta_table::specs::WellFormed::bad_number))]
fn bad_number<A: Allocator>(event: &Event<A>) -> Option<FormFault>
    ensures refusal { option_map refusal_of result ≡ bad_number event.now }
    ensures named { IfSome result (IsNamed event.now) }
{
    let number = smallest_bad(event)?;
    Some(FormFault::BadNumber(number))
}

#[tactic(auto, unfolding(acta_table::specs::WellFormed::bad_class))]
fn bad_class<A: Allocator>(model: &Model<A>, event: &Event<A>) -> Option<FormFault>
    ensures refusal { option_map refusal_of result ≡ bad_class model.now event.now }
    ensures named { IfSome result (IsNamed event.now) }
{
    let class = event.class()?;
    if (class.0 as usize) < model.classes().len() {
        None
    } else {
        Some(FormFault::BadClass(class))
    }
}

#[tactic(auto, unfolding(acta_table::specs::WellFormed::bad_object))]
fn bad_object<A: Allocator>(model: &Model<A>, event: &Event<A>) -> Option<FormFault>
    ensures refusal { option_map refusal_of result ≡ bad_object model.now event.now }
    ensures named { IfSome result (IsNamed event.now) }
{
    match event {
        Event::Operate(_, ob, _) | Event::Permit(_, _, ob)
            if ob.0 as usize >= model.objects().len() => { Some(FormFault::BadObject(*ob)) }
        _ => None,
    }
}

#[tactic(auto, unfolding(crate::specs::WellFormed::bad_operation))]
fn bad_operation<A: Allocator>(model: &Model<A>, event: &Event<A>) -> Option<FormFault>
    ensures refusal { option_map refusal_of result ≡ bad_operation model.now event.now }
    ensures named { IfSome result (IsNamed event.now) }
{
    let Event::Operate(_, ob, op) = event else {
        return None;
    };
    match model.object(*ob) {
        Some(object) if !is_of_kind(&object.kind, op) => Some(FormFault::BadOperation(*ob, *op)),
        _ => None,
    }
}

// The transaction, if both are the same.
fn one_twice(j: TxnId, i: TxnId) -> Option<FormFault>
    ensures refusal { option_map refusal_of result ≡ broken_by Rule.SameTransaction (twice_in (j.0 ∷ i.0 ∷ [])) }
    ensures one { IfSome result (λ fault. fault ≡ FormFault.SameTransaction j) }
{
    if j.0 == i.0 {
        Some(FormFault::SameTransaction(j))
    } else {
        None
    }
}

#[tactic(auto, unfolding(acta_table::specs::WellFormed::same_transaction))]
fn same_transaction<A: Allocator>(event: &Event<A>) -> Option<FormFault>
    ensures refusal { option_map refusal_of result ≡ same_transaction event.now }
    ensures named { IfSome result (IsNamed event.now) }
{
    match event {
        Event::Spawn(j, i, _)
        | Event::Split(j, i, _, _)
        | Event::Join(j, i)
        | Event::Delegate(j, i, _)
        | Event::Form(_, j, i)
        | Event::Permit(j, i, _) => one_twice(*j, *i),
        _ => None,
    }
}

/// The fault in the form of an event, by the lowest rule broken: bad transaction number, class, object or operation, or
/// the same transaction named twice.
pub fn form_fault<A: Allocator>(model: &Model<A>, event: &Event<A>) -> Option<FormFault>
    ensures refusal { option_map refusal_of result ≡ form_refusal model.now event.now }
    ensures named { IfSome result (IsNamed event.now) }
{
    bad_number(event)
        .or_else(|| bad_class(model, event))
        .or_else(|| bad_object(model, event))
        .or_else(|| bad_operation(model, event))
        .or_else(|| same_transaction(event))
}

/// The lowest rule on the form of an event that it breaks.
pub fn form_refusal<A: Allocator>(model: &Model<A>, event: &Event<A>) -> Option<Refusal>
    ensures { result ≡ form_refusal model.now event.now }
{
    let fault = form_fault(model, event)?;
    Some(fault.refusal())
}
