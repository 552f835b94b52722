//! The lines of transactions, objects and debts at an end.

ghost use Rattle.std.specs.Prelude.{◌≡◌, ◌++◌, ◌∷◌, [], map, option_map, OnOk};
ghost use Rattle.acta_script.specs.Writing.{object_word};
ghost use Rattle.acta_words.specs.Text.{text_of};
ghost use Rattle.acta_explore.specs.inside.Shown.{shown_value};
ghost use Rattle.acta_ends.specs.EndLines.{lines_from, owed_line, state_word, status_line, value_lines};

use acta_explore::{Debt, TxnStatus, Value};
use acta_script::{missing_word, push_elements, status_word};
use acta_table::Model;
use acta_words::{push_integer, push_line, push_natural, push_word};
use std::alloc::{AllocError, Allocator};

// Writes the status of a transaction.
fn push_status<A: Allocator>(text: &mut Vec<u8, A>, status: &TxnStatus) -> Result<(), AllocError>
    ensures { OnOk result (text.new.items ≡ text.old.items ++ text_of (status_line status.now ∷ [])) }
{
    text.extend_from_slice(b"status")?;
    push_natural(text, u64::from(status.txn.0))?;
    push_word(text, status_word(status.status))?;
    push_line(text, b"")
}

/// Writes the statuses of transactions, one per line.
pub(crate) fn push_statuses<A: Allocator>(
    text: &mut Vec<u8, A>,
    statuses: &[TxnStatus],
) -> Result<(), AllocError>
    ensures { OnOk result (text.new.items ≡ text.old.items ++ text_of (map status_line statuses.now)) }
{
    for status in statuses {
        push_status(text, status)?;
    }
    Ok(())
}

// Writes a space and the value.
fn push_state<A: Allocator>(text: &mut Vec<u8, A>, value: &Value<A>) -> Result<(), AllocError>
    ensures { OnOk result (text.new.items ≡ text.old.items ++ 32 ∷ state_word (shown_value value.now)) }
{
    match value {
        Value::Register(number) => push_integer(text, i64::from(*number)),
        Value::Counter(number) => push_integer(text, *number),
        Value::Elements(elements) => push_elements(text, elements.as_slice()),
    }
}

// The name of the object at this position in the model, or nothing if there is none.
fn name_at<A: Allocator>(model: &Model<A>, place: usize) -> &[u8]
    ensures { result.now ≡ object_word model.now (record { 0 = place }) }
{
    match model.objects().get(place) {
        Some(object) => object.name.as_slice(),
        None => b"",
    }
}

// Writes the value of an object, if it has one.
fn push_value<A: Allocator>(
    text: &mut Vec<u8, A>,
    model: &Model<A>,
    place: usize,
    value: &Option<Value<A>>,
) -> Result<(), AllocError>
    ensures { OnOk result (text.new.items ≡ text.old.items ++ text_of (value_lines model.now place (option_map shown_value value.now))) }
{
    let Some(value) = value else {
        return Ok(());
    };
    text.extend_from_slice(b"value")?;
    push_word(text, name_at(model, place))?;
    push_state(text, value)?;
    push_line(text, b"")
}

/// Writes the values of the objects, one per line.
pub(crate) fn push_values<A: Allocator>(
    text: &mut Vec<u8, A>,
    model: &Model<A>,
    values: &[Option<Value<A>>],
) -> Result<(), AllocError>
    ensures { OnOk result (text.new.items ≡ text.old.items ++ text_of (lines_from (value_lines model.now) 0 (map (option_map shown_value) values.now))) }
{
    for (place, value) in values.iter().enumerate() {
        push_value(text, model, place, value)?;
    }
    Ok(())
}

// Writes a debt.
fn push_debt<A: Allocator>(text: &mut Vec<u8, A>, debt: &Debt) -> Result<(), AllocError>
    ensures { OnOk result (text.new.items ≡ text.old.items ++ text_of (owed_line debt.now ∷ [])) }
{
    text.extend_from_slice(b"owed")?;
    push_word(text, debt.kind.word().as_bytes())?;
    push_natural(text, u64::from(debt.txn.0))?;
    push_natural(text, u64::from(debt.on.0))?;
    push_word(text, missing_word(debt.missing()))?;
    push_line(text, b"")?;
    Ok(())
}

/// Writes debts, one per line.
pub(crate) fn push_debts<A: Allocator>(
    text: &mut Vec<u8, A>,
    debts: &[Debt],
) -> Result<(), AllocError>
    ensures { OnOk result (text.new.items ≡ text.old.items ++ text_of (map owed_line debts.now)) }
{
    for debt in debts {
        push_debt(text, debt)?;
    }
    Ok(())
}
