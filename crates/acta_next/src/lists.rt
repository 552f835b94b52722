//! Lists of words separated by commas, and what is not tried for a transaction.

ghost use Rattle.std.specs.Prelude.{◌≡◌, ◌++◌, ℕ, decimal, List, IfOk, OnOk, Some};
ghost use Rattle.acta_next.specs.Candidates.{if_more, lacking_for, lacking_of, untried_of_kind};
ghost use Rattle.acta_next.specs.Next.{listed, onto_list, untried_for, untried_onto, with_item};

use crate::candidates::{KINDS, has_more, may, others};
use acta_machine::{Handle, Machine};
use acta_script::event_word;
use acta_table::{EventKind, Model, Status, TxnId};
use itoa::Buffer;
use std::alloc::{AllocError, Allocator};

/// Adds the digits of a number.
pub(crate) fn push_digits<A: Allocator>(
    text: &mut Vec<u8, A>,
    number: u64,
) -> Result<(), AllocError>
    ensures { OnOk result (text.new.items ≡ text.old.items ++ decimal number) }
{
    let mut digits = Buffer::new();
    text.extend_from_slice(digits.format(number).as_bytes())
}

// Adds the separator if the list has an item.
fn push_gap<A: Allocator>(list: &mut Vec<u8, A>) -> Result<(), AllocError>
    ensures { (item : List ℕ) → OnOk result (list.new.items ++ item ≡ with_item list.old.items item) }
{
    if list.is_empty() {
        return Ok(());
    }
    list.extend_from_slice(b", ")
}

/// Adds an item to a list.
pub(crate) fn push_item<A: Allocator>(list: &mut Vec<u8, A>, item: &[u8]) -> Result<(), AllocError>
    ensures { OnOk result (list.new.items ≡ with_item list.old.items item.now) }
{
    push_gap(list)?;
    list.extend_from_slice(item)
}

// Adds an item to a list, if `is_more`.
fn push_if<A: Allocator>(
    list: &mut Vec<u8, A>,
    is_more: bool,
    item: &[u8],
) -> Result<(), AllocError>
    ensures { OnOk result (list.new.items ≡ onto_list (λ word. Some word) list.old.items (if_more is_more item.now)) }
{
    if is_more {
        push_item(list, item)?;
    }
    Ok(())
}

// Adds what is not tried of a kind of event.
#[tactic(auto, unfolding(crate::specs::Candidates::untried_of_kind))]
fn push_untried_of_kind<A: Handle>(
    alloc: A,
    list: &mut Vec<u8, A>,
    model: &Model<A>,
    active: &[TxnId],
    t: TxnId,
    kind: EventKind,
) -> Result<(), AllocError>
    ensures { OnOk result (list.new.items ≡ onto_list (λ word. Some word) list.old.items (untried_of_kind model.now active.now t kind)) }
{
    match kind {
        EventKind::Join => {
            let found = others(alloc, t, active)?;
            push_if(list, has_more(found.as_slice()), b"join with others")
        }
        EventKind::Operate => push_if(list, has_more(model.objects()), b"do on other objects"),
        EventKind::Delegate | EventKind::Form | EventKind::Permit => {
            push_item(list, event_word(kind).as_bytes())
        }
        _ => Ok(()),
    }
}

// Adds what is not tried of these kinds.
fn push_untried<A: Handle>(
    alloc: A,
    list: &mut Vec<u8, A>,
    machine: &Machine<A>,
    active: &[TxnId],
    t: TxnId,
    kinds: &[EventKind],
) -> Result<(), AllocError>
    ensures { OnOk result (list.new.items ≡ untried_onto machine.now active.now t list.old.items kinds.now) }
{
    for kind in kinds {
        if may(machine, t, *kind) {
            push_untried_of_kind(alloc, list, machine.model(), active, t, *kind)?;
        }
    }
    Ok(())
}

/// What is not tried for a transaction that has not ended.
pub(crate) fn untried_for<A: Handle>(
    alloc: A,
    machine: &Machine<A>,
    active: &[TxnId],
    t: TxnId,
    status: Status,
) -> Result<Vec<u8, A>, AllocError>
    ensures { IfOk result (λ list. list.items ≡ untried_for status machine.now active.now t) }
{
    let mut list = Vec::new(alloc);
    match status {
        Status::NotBegun => {}
        _ => push_untried(alloc, &mut list, machine, active, t, &KINDS)?,
    }
    Ok(list)
}

// Adds the words of these kinds that the class doesn't allow.
fn push_lacking_of<A: Handle>(
    list: &mut Vec<u8, A>,
    machine: &Machine<A>,
    t: TxnId,
    kinds: &[EventKind],
) -> Result<(), AllocError>
    ensures { OnOk result (list.new.items ≡ onto_list (λ word. Some word) list.old.items (lacking_of machine.now t kinds.now)) }
{
    for kind in kinds {
        if !may(machine, t, *kind) {
            push_item(list, event_word(*kind).as_bytes())?;
        }
    }
    Ok(())
}

/// The words of the kinds of event that the class of a transaction doesn't allow, if it has not ended.
pub(crate) fn lacking_for<A: Handle>(
    alloc: A,
    machine: &Machine<A>,
    t: TxnId,
    status: Status,
) -> Result<Vec<u8, A>, AllocError>
    ensures { IfOk result (λ list. list.items ≡ listed (lacking_for status machine.now t)) }
{
    let mut list = Vec::new(alloc);
    match status {
        Status::NotBegun => {}
        _ => push_lacking_of(&mut list, machine, t, &KINDS)?,
    }
    Ok(list)
}
