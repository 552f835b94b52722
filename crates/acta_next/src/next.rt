//! Which events can happen next, as lines.

ghost use Rattle.std.specs.Prelude.{◌≡◌, ◌++◌, ◌∷◌, [], codes, decimal, IfOk, OnOk, option_map, take};
ghost use Rattle.acta_machine.specs.Table.{debts_in, refusal_in, status_in};
ghost use Rattle.acta_next.specs.Candidates.{in_progress};
ghost use Rattle.acta_next.specs.Next.{IsNext, admitted_item, admitted_words, ended_line, has_ended, list_line, may_line, more_line, next_for, next_lines, next_of, next_of_all, next_of_each, nothing_more, onto_list, or_nothing, paid_item, paid_note, pays, refused_item, refused_words, sorted, with_item};
ghost use Rattle.acta_script.specs.Writing.{event_line};

use crate::candidates::{in_progress, tried_for};
use crate::lists::{lacking_for, push_digits, push_item, untried_for};
use crate::unused::first_unused;
use acta_machine::{Handle, Machine};
use acta_script::{push_event, status_word};
use acta_table::{Event, Missing, Model, Owed, Rule, Status, TxnId};
use acta_words::push_line;
use std::alloc::{AllocError, Allocator};

// How many transactions are listed at most, if none is named.
const MOST_TXNS: usize = 20;

// The rule that refuses the event, if one does.
fn refused_by<A: Handle>(machine: &Machine<A>, event: &Event<A>) -> Result<Option<Rule>, AllocError>
    ensures { IfOk result (λ rule. rule ≡ option_map (λ refusal. refusal.rule) (refusal_in machine.now event.now)) }
{
    match machine.why(event)? {
        Some(reason) => Ok(Some(reason.refusal().rule)),
        None => Ok(None),
    }
}

// Whether the event pays the debt.
fn pays<A: Handle>(event: &Event<A>, owed: &Owed) -> bool
    ensures { result ≡ pays event.now owed.now }
{
    match event {
        Event::Commit(t) => owed.txn.0 == t.0 && owed.missing == Missing::Commit,
        Event::Abort(t) => owed.txn.0 == t.0 && owed.missing == Missing::Abort,
        _ => false,
    }
}

// Adds the edge of a debt to a list.
fn push_edge<A: Handle>(alloc: A, list: &mut Vec<u8, A>, owed: &Owed) -> Result<(), AllocError>
    ensures { OnOk result (list.new.items ≡ with_item list.old.items (codes "edge " ++ decimal owed.now.edge.0)) }
{
    let mut item = Vec::from_slice(alloc, b"edge ")?;
    push_digits(&mut item, u64::from(owed.edge.0))?;
    push_item(list, item.as_slice())
}

// The edges of the debts that the event pays.
fn paid_list<A: Handle>(
    alloc: A,
    event: &Event<A>,
    debts: &[Owed],
) -> Result<Vec<u8, A>, AllocError>
    ensures { IfOk result (λ list. list.items ≡ onto_list (paid_item event.now) [] debts.now) }
{
    let mut list = Vec::new(alloc);
    for owed in debts {
        if pays(event, owed) {
            push_edge(alloc, &mut list, owed)?;
        }
    }
    Ok(list)
}

// Adds the edges that an event pays, if there are any.
fn push_paid<A: Allocator>(item: &mut Vec<u8, A>, list: &[u8]) -> Result<(), AllocError>
    ensures { OnOk result (item.new.items ≡ item.old.items ++ paid_note list.now) }
{
    if list.is_empty() {
        return Ok(());
    }
    item.extend_from_slice(b" (pays ")?;
    item.extend_from_slice(list)?;
    item.extend_from_slice(b")")
}

// The words for an event that is admitted.
fn admitted_words<A: Handle>(
    alloc: A,
    machine: &Machine<A>,
    event: &Event<A>,
    debts: &[Owed],
) -> Result<Vec<u8, A>, AllocError>
    ensures { IfOk result (λ item. item.items ≡ event_line machine.now.model event.now ++ paid_note (onto_list (paid_item event.now) [] debts.now)) }
{
    let mut item = Vec::new(alloc);
    push_event(&mut item, machine.model(), event)?;
    let list = paid_list(alloc, event, debts)?;
    push_paid(&mut item, list.as_slice())?;
    Ok(item)
}

// The words for an event that is refused.
fn refused_words<A: Handle>(
    alloc: A,
    machine: &Machine<A>,
    event: &Event<A>,
    rule: Rule,
) -> Result<Vec<u8, A>, AllocError>
    ensures { IfOk result (λ item. item.items ≡ refused_words machine.now event.now rule) }
{
    let mut item = Vec::new(alloc);
    push_event(&mut item, machine.model(), event)?;
    item.extend_from_slice(b" (")?;
    push_digits(&mut item, u64::from(rule.number()))?;
    item.extend_from_slice(b" ")?;
    item.extend_from_slice(rule.name().as_bytes())?;
    item.extend_from_slice(b")")?;
    Ok(item)
}

// The events tried, in two lists: admitted and refused.
#[derive(Drop)]
struct Sorted<A: Handle> {
    may: Vec<u8, A>,
    not: Vec<u8, A>,
}

impl<A: Handle> Sorted<A> {
    // Adds an event to its list.
    fn push(
        &mut self,
        alloc: A,
        machine: &Machine<A>,
        debts: &[Owed],
        event: &Event<A>,
    ) -> Result<(), AllocError>
        requires { debts.now ≡ debts_in machine.now }
        ensures may { OnOk result (self.new.may.items ≡ onto_list (admitted_item machine.now) self.old.may.items (event.now ∷ [])) }
        ensures not { OnOk result (self.new.not.items ≡ onto_list (refused_item machine.now) self.old.not.items (event.now ∷ [])) }
    {
        match refused_by(machine, event)? {
            None => {
                let item = admitted_words(alloc, machine, event, debts)?;
                push_item(&mut self.may, item.as_slice())
            }
            Some(rule) => {
                let item = refused_words(alloc, machine, event, rule)?;
                push_item(&mut self.not, item.as_slice())
            }
        }
    }

    // Sorts the events into two lists.
    fn of(
        alloc: A,
        machine: &Machine<A>,
        debts: &[Owed],
        tried: &[Event<A>],
    ) -> Result<Sorted<A>, AllocError>
        requires { debts.now ≡ debts_in machine.now }
        ensures may { IfOk result (λ sorted. sorted.may.items ≡ onto_list (admitted_item machine.now) [] tried.now) }
        ensures not { IfOk result (λ sorted. sorted.not.items ≡ onto_list (refused_item machine.now) [] tried.now) }
    {
        let mut sorted = Sorted {
            may: Vec::new(alloc),
            not: Vec::new(alloc),
        };
        for event in tried {
            sorted.push(alloc, machine, debts, event)?;
        }
        Ok(sorted)
    }
}

// Adds a line with a list, if it has an item.
fn push_list<A: Allocator>(
    text: &mut Vec<u8, A>,
    front: &[u8],
    list: &[u8],
) -> Result<(), AllocError>
    ensures { OnOk result (text.new.items ≡ text.old.items ++ list_line front.now list.now) }
{
    if list.is_empty() {
        return Ok(());
    }
    text.extend_from_slice(front)?;
    push_line(text, list)
}

// The list, or the word for an empty one.
fn or_nothing(list: &[u8]) -> &[u8]
    ensures { result.now ≡ or_nothing list.now }
{
    if list.is_empty() {
        b"nothing that was tried"
    } else {
        list
    }
}

// Adds the line of the events that are admitted.
fn push_may<A: Allocator>(text: &mut Vec<u8, A>, t: TxnId, may: &[u8]) -> Result<(), AllocError>
    ensures { OnOk result (text.new.items ≡ text.old.items ++ may_line t may.now) }
{
    push_digits(text, u64::from(t.0))?;
    text.extend_from_slice(b" may: ")?;
    push_line(text, or_nothing(may))
}

// Adds the events tried, sorted into the two lists.
fn push_sorted<A: Handle>(
    alloc: A,
    text: &mut Vec<u8, A>,
    machine: &Machine<A>,
    t: TxnId,
    tried: &[Event<A>],
) -> Result<(), AllocError>
    ensures { OnOk result (text.new.items ≡ text.old.items ++ sorted machine.now t tried.now) }
{
    let debts = machine.owed()?;
    let sorted = Sorted::of(alloc, machine, debts.as_slice(), tried)?;
    push_may(text, t, sorted.may.as_slice())?;
    push_list(text, b"  refused: ", sorted.not.as_slice())
}

// Adds what a transaction that has not ended can do next.
fn push_lines<A: Handle>(
    alloc: A,
    text: &mut Vec<u8, A>,
    machine: &Machine<A>,
    active: &[TxnId],
    u: TxnId,
    t: TxnId,
) -> Result<(), AllocError>
    ensures { OnOk result (text.new.items ≡ text.old.items ++ next_lines machine.now active.now u t) }
{
    let status = machine.status(t);
    let tried = tried_for(alloc, machine, active, u, t, status)?;
    push_sorted(alloc, text, machine, t, tried.as_slice())?;
    let untried = untried_for(alloc, machine, active, t, status)?;
    push_list(text, b"  not tried: ", untried.as_slice())?;
    let lacking = lacking_for(alloc, machine, t, status)?;
    push_list(text, b"  its class has no: ", lacking.as_slice())
}

// The text for an ended transaction, before how it ended.
#[tactic(auto, unfolding(crate::specs::Next::nothing_more))]
fn nothing_more() -> &'static [u8]
    ensures { result.now ≡ nothing_more }
{
    b" may: nothing, it is "
}

// Adds that a transaction has ended and can do nothing more, and how it ended.
fn push_ended<A: Allocator>(text: &mut Vec<u8, A>, t: TxnId, word: &[u8]) -> Result<(), AllocError>
    ensures { OnOk result (text.new.items ≡ text.old.items ++ ended_line t word.now) }
{
    push_digits(text, u64::from(t.0))?;
    text.extend_from_slice(nothing_more())?;
    push_line(text, word)
}

// Whether the status is that of a transaction that has ended.
fn has_ended(status: Status) -> bool
    ensures { result ≡ has_ended status }
{
    !matches!(status, Status::NotBegun | Status::InProgress)
}

// Adds what a transaction can do next.
fn push_next_of<A: Handle>(
    alloc: A,
    text: &mut Vec<u8, A>,
    machine: &Machine<A>,
    active: &[TxnId],
    u: TxnId,
    t: TxnId,
) -> Result<(), AllocError>
    ensures { OnOk result (text.new.items ≡ text.old.items ++ next_of machine.now active.now u t) }
{
    let status = machine.status(t);
    if has_ended(status) {
        return push_ended(text, t, status_word(status));
    }
    push_lines(alloc, text, machine, active, u, t)
}

// Adds what each of these transactions can do next.
fn push_next_of_each<A: Handle>(
    alloc: A,
    text: &mut Vec<u8, A>,
    machine: &Machine<A>,
    active: &[TxnId],
    u: TxnId,
    list: &[TxnId],
) -> Result<(), AllocError>
    ensures { OnOk result (text.new.items ≡ text.old.items ++ next_of_each machine.now active.now u list.now) }
{
    for t in list {
        push_next_of(alloc, text, machine, active, u, *t)?;
    }
    Ok(())
}

// The transactions that are listed: the first ones.
fn first_listed(active: &[TxnId]) -> &[TxnId]
    ensures { result.now ≡ take MOST_TXNS active.now }
{
    if active.len() <= MOST_TXNS {
        active
    } else {
        &active[..MOST_TXNS]
    }
}

// Adds that more transactions are in progress than are listed, if so.
fn push_more<A: Allocator>(text: &mut Vec<u8, A>, count: usize) -> Result<(), AllocError>
    ensures { OnOk result (text.new.items ≡ text.old.items ++ more_line count) }
{
    if count <= MOST_TXNS {
        return Ok(());
    }
    text.extend_from_slice(b"and ")?;
    push_digits(text, (count - MOST_TXNS) as u64)?;
    push_line(text, b" more in progress (`next T` asks about one)")
}

// Adds what the transactions in progress and a new one can do next.
fn push_next_of_all<A: Handle>(
    alloc: A,
    text: &mut Vec<u8, A>,
    machine: &Machine<A>,
    active: &[TxnId],
    u: TxnId,
) -> Result<(), AllocError>
    ensures { OnOk result (text.new.items ≡ text.old.items ++ next_of_all machine.now active.now u) }
{
    push_next_of_each(alloc, text, machine, active, u, first_listed(active))?;
    push_more(text, active.len())?;
    push_next_of(alloc, text, machine, active, u, u)
}

// Adds what one transaction can do next, or those in progress and a new one.
fn push_next_for<A: Handle>(
    alloc: A,
    text: &mut Vec<u8, A>,
    machine: &Machine<A>,
    active: &[TxnId],
    u: TxnId,
    t: Option<TxnId>,
) -> Result<(), AllocError>
    ensures { OnOk result (text.new.items ≡ text.old.items ++ next_for machine.now active.now u t) }
{
    match t {
        Some(t) => push_next_of(alloc, text, machine, active, u, t),
        None => push_next_of_all(alloc, text, machine, active, u),
    }
}

/// The lines of what can happen next: for one transaction; or for the first 20 in progress, in the order in which they
/// began, and for a new one.
pub fn next_text<A: Handle>(
    alloc: A,
    machine: &Machine<A>,
    t: Option<TxnId>,
) -> Result<Vec<u8, A>, AllocError>
    ensures { IfOk result (λ text. IsNext machine.now t text.items) }
{
    let active = in_progress(alloc, machine)?;
    let u = first_unused(machine);
    let mut text = Vec::new(alloc);
    push_next_for(alloc, &mut text, machine, active.as_slice(), u, t)?;
    Ok(text)
}
