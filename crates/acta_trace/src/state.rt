//! The state of a machine, as lines.

ghost use Rattle.std.specs.Prelude.{◌≡◌, ◌++◌, ◌∷◌, ℕ, List, [], map, OnOk};
ghost use Rattle.std.specs.Option.{option_map_or};
ghost use Rattle.acta_machine.specs.Table.{access_set_in, conflict_set_in, debts_in, value_in};
ghost use Rattle.acta_script.specs.Answers.{owed_line};
ghost use Rattle.acta_script.specs.Writing.{elements_word, txn_word};
ghost use Rattle.acta_table.specs.Events.{started};
ghost use Rattle.acta_words.specs.Text.{text_of};
ghost use Rattle.acta_trace.specs.States.{ArePermitLines, edge_line, edge_lines, is_of, operations_line, permit_line, started_line, state_lines, state_word, status_line, status_lines, value_line, value_lines};

use acta_machine::{Handle, Machine};
use acta_objects::{Members, ObjectState};
use acta_script::{object_name, owed_line, push_elements, status_word};
use acta_sets::Permit;
use acta_table::{Edge, Kept, Model, ObjId, OpNo, Owed, TxnId};
use acta_words::{push_integer, push_line, push_natural, push_word};
use std::alloc::{AllocError, Allocator};

/// Adds the status of a transaction.
pub fn push_status_line<A: Handle>(
    machine: &Machine<A>,
    t: TxnId,
    text: &mut Vec<u8, A>,
) -> Result<(), AllocError>
    ensures { OnOk result (text.new.items ≡ text.old.items ++ text_of (status_line machine.now t ∷ [])) }
{
    text.extend_from_slice(b"status")?;
    push_natural(text, u64::from(t.0))?;
    push_word(text, status_word(machine.status(t)))?;
    push_line(text, b"")
}

// Writes a space, and the elements of a set between braces.
fn push_members<A: Allocator + Copy>(
    alloc: A,
    members: &Members<A>,
    text: &mut Vec<u8, A>,
) -> Result<(), AllocError>
    ensures { OnOk result (text.new.items ≡ text.old.items ++ 32 ∷ elements_word members.now) }
{
    let elements = members.listed(alloc)?;
    push_elements(text, elements.as_slice())
}

// Writes a space and the value.
fn push_state<A: Allocator + Copy>(
    alloc: A,
    state: &ObjectState<A>,
    text: &mut Vec<u8, A>,
) -> Result<(), AllocError>
    ensures { OnOk result (text.new.items ≡ text.old.items ++ 32 ∷ state_word state.now) }
{
    match state {
        ObjectState::Register(value) => push_integer(text, i64::from(*value)),
        ObjectState::Counter(value) => push_integer(text, *value),
        ObjectState::Elements(members) => push_members(alloc, members, text),
    }
}

// Writes a space and the value of an object, if it has one.
fn push_value<A: Handle>(
    alloc: A,
    machine: &Machine<A>,
    object: ObjId,
    text: &mut Vec<u8, A>,
) -> Result<(), AllocError>
    ensures { OnOk result (text.new.items ≡ text.old.items ++ 32 ∷ option_map_or state_word (value_in machine.now object.0) []) }
{
    match machine.value(object)? {
        Some(state) => push_state(alloc, &state, text),
        None => push_word(text, b""),
    }
}

/// Adds the value of an object.
pub fn push_value_line<A: Handle>(
    alloc: A,
    machine: &Machine<A>,
    object: ObjId,
    text: &mut Vec<u8, A>,
) -> Result<(), AllocError>
    ensures { OnOk result (text.new.items ≡ text.old.items ++ text_of (value_line machine.now object ∷ [])) }
{
    text.extend_from_slice(b"value")?;
    push_word(text, object_name(machine.model(), object))?;
    push_value(alloc, machine, object, text)?;
    push_line(text, b"")
}

/// Adds these debts, one per line.
pub fn push_owed_lines<A: Allocator + Copy>(
    alloc: A,
    owed: &[Owed],
    text: &mut Vec<u8, A>,
) -> Result<(), AllocError>
    ensures { OnOk result (text.new.items ≡ text.old.items ++ text_of (map owed_line owed.now)) }
{
    for one in owed {
        push_line(text, owed_line(alloc, one)?.as_slice())?;
    }
    Ok(())
}

/// Adds the debts, one per line.
pub fn push_debt_lines<A: Handle>(
    alloc: A,
    machine: &Machine<A>,
    text: &mut Vec<u8, A>,
) -> Result<(), AllocError>
    ensures { OnOk result (text.new.items ≡ text.old.items ++ text_of (map owed_line (debts_in machine.now))) }
{
    let owed = machine.owed()?;
    push_owed_lines(alloc, owed.as_slice(), text)
}

// Adds the numbers of operations.
fn push_operations<A: Allocator + Copy>(
    alloc: A,
    ops: &[OpNo],
    text: &mut Vec<u8, A>,
) -> Result<(), AllocError>
    ensures { OnOk result (text.new.items ≡ text.old.items ++ text_of (operations_line ops.now ∷ [])) }
{
    let mut line = Vec::new(alloc);
    line.extend_from_slice(b"operations")?;
    for op in ops {
        push_natural(&mut line, u64::from(op.0))?;
    }
    push_line(text, line.as_slice())
}

/// Adds the numbers of the operations in the access set of a transaction.
pub fn push_held_line<A: Handle>(
    alloc: A,
    machine: &Machine<A>,
    t: TxnId,
    text: &mut Vec<u8, A>,
) -> Result<(), AllocError>
    ensures { OnOk result (text.new.items ≡ text.old.items ++ text_of (operations_line (access_set_in machine.now t.0) ∷ [])) }
{
    let held = machine.access_set(t)?;
    push_operations(alloc, held.as_slice(), text)
}

/// Adds the numbers of the operations in the conflict set of a transaction.
pub fn push_conflicts_line<A: Handle>(
    alloc: A,
    machine: &Machine<A>,
    t: TxnId,
    text: &mut Vec<u8, A>,
) -> Result<(), AllocError>
    ensures { OnOk result (text.new.items ≡ text.old.items ++ text_of (operations_line (conflict_set_in machine.now t.0) ∷ [])) }
{
    let set = machine.conflict_set(t)?;
    push_operations(alloc, set.as_slice(), text)
}

/// Whether the transaction is one of the edge's two; true for every edge if none is named.
pub fn is_edge_of(edge: &Edge, t: Option<TxnId>) -> bool
    ensures { result ≡ is_of t edge.now }
{
    match t {
        Some(t) => edge.j.0 == t.0 || edge.i.0 == t.0,
        None => true,
    }
}

// Writes a space before each of the two transactions of the edge.
fn push_ends<A: Allocator>(edge: &Edge, text: &mut Vec<u8, A>) -> Result<(), AllocError>
    ensures { OnOk result (text.new.items ≡ text.old.items ++ 32 ∷ txn_word edge.now.j ++ 32 ∷ txn_word edge.now.i) }
{
    push_natural(text, u64::from(edge.j.0))?;
    push_natural(text, u64::from(edge.i.0))
}

// Adds the edge with this number.
fn push_edge<A: Allocator>(
    number: usize,
    edge: &Edge,
    text: &mut Vec<u8, A>,
) -> Result<(), AllocError>
    ensures { OnOk result (text.new.items ≡ text.old.items ++ text_of (edge_line number edge.now ∷ [])) }
{
    text.extend_from_slice(b"edge")?;
    push_natural(text, number as u64)?;
    push_word(text, edge.kind.word().as_bytes())?;
    push_ends(edge, text)?;
    push_line(text, b"")
}

/// Adds the edges in force, one per line, or only those of a transaction.
pub fn push_edge_lines<A: Handle>(
    machine: &Machine<A>,
    t: Option<TxnId>,
    text: &mut Vec<u8, A>,
) -> Result<(), AllocError>
    ensures { OnOk result (text.new.items ≡ text.old.items ++ text_of (edge_lines machine.now t)) }
{
    for (place, edge) in machine.edges().iter().enumerate() {
        if is_edge_of(edge, t) {
            push_edge(place + 1, edge, text)?;
        }
    }
    Ok(())
}

// Adds a permit.
fn push_permit<A: Allocator>(
    model: &Model<A>,
    permit: &Permit,
    text: &mut Vec<u8, A>,
) -> Result<(), AllocError>
    ensures { OnOk result (text.new.items ≡ text.old.items ++ text_of (permit_line model.now permit.now ∷ [])) }
{
    text.extend_from_slice(b"permit")?;
    push_natural(text, u64::from(permit.by.0))?;
    push_natural(text, u64::from(permit.to.0))?;
    push_word(text, object_name(model, permit.object))?;
    push_line(text, b"")
}

// Adds permits, one per line.
fn push_permits<A: Allocator>(
    model: &Model<A>,
    permits: &[Permit],
    text: &mut Vec<u8, A>,
) -> Result<(), AllocError>
    ensures { OnOk result (text.new.items ≡ text.old.items ++ text_of (map (permit_line model.now) permits.now)) }
{
    for permit in permits {
        push_permit(model, permit, text)?;
    }
    Ok(())
}

/// Adds the permits in force, one per line.
pub fn push_permit_lines<A: Handle>(
    machine: &Machine<A>,
    text: &mut Vec<u8, A>,
) -> Result<(), AllocError>
    ensures { OnOk result ((lines : List (List ℕ)) × ArePermitLines machine.now lines × text.new.items ≡ text.old.items ++ text_of lines) }
{
    let permits = machine.permits()?;
    push_permits(machine.model(), permits.as_slice(), text)
}

// Adds the status of the transaction that a kept event began, if it began one.
fn push_started<A: Handle>(
    machine: &Machine<A>,
    kept: &Kept<A>,
    text: &mut Vec<u8, A>,
) -> Result<(), AllocError>
    ensures { OnOk result (text.new.items ≡ text.old.items ++ text_of (started_line machine.now (started kept.now.event))) }
{
    match kept.event.started() {
        Some(t) => push_status_line(machine, t, text),
        None => Ok(()),
    }
}

// Adds the statuses of the transactions that have begun.
fn push_status_lines<A: Handle>(
    machine: &Machine<A>,
    text: &mut Vec<u8, A>,
) -> Result<(), AllocError>
    ensures { OnOk result (text.new.items ≡ text.old.items ++ text_of (status_lines machine.now)) }
{
    for kept in machine.history() {
        push_started(machine, kept, text)?;
    }
    Ok(())
}

// Adds the values of the objects.
fn push_value_lines<A: Handle>(
    alloc: A,
    machine: &Machine<A>,
    text: &mut Vec<u8, A>,
) -> Result<(), AllocError>
    ensures { OnOk result (text.new.items ≡ text.old.items ++ text_of (value_lines machine.now)) }
{
    for (number, _object) in machine.model().objects().iter().enumerate() {
        push_value_line(alloc, machine, ObjId(number as u16), text)?;
    }
    Ok(())
}

/// Adds the statuses of the transactions, in the order in which they began, the values of the objects, and the debts.
pub fn push_state_lines<A: Handle>(
    alloc: A,
    machine: &Machine<A>,
    text: &mut Vec<u8, A>,
) -> Result<(), AllocError>
    ensures { OnOk result (text.new.items ≡ text.old.items ++ text_of (state_lines machine.now)) }
{
    push_status_lines(machine, text)?;
    push_value_lines(alloc, machine, text)?;
    push_debt_lines(alloc, machine, text)
}
