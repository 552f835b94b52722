//! The line of an event.

ghost use Rattle.std.specs.Prelude.{◌≡◌, ◌++◌, ◌∷◌, Ok, IfOk, OnOk};
ghost use Rattle.acta_table.specs.Dependencies.{word_of};
ghost use Rattle.acta_words.specs.Text.{line_of};
ghost use Rattle.acta_table.specs.declared.event.EventKind.{EventKind};
ghost use Rattle.acta_script.specs.Laws.{IsInModel};
ghost use Rattle.acta_script.specs.Reading.{event_of};
ghost use Rattle.acta_script.specs.Words.{event_word};
ghost use Rattle.acta_script.specs.Writing.{txn_word, class_word, object_word, operation_words, event_line};

use crate::event_words::event_word;
use crate::laws::event_again;
use crate::names::{class_name, object_name};
use crate::numbers::push_txn;
use crate::op_sets::push_operations;
use crate::operations::push_operation;
use acta_table::{ClassId, Dep, Event, EventKind, Model, ObjId, Op, TxnId};
use acta_words::push_word;
use std::alloc::{AllocError, Allocator};

// Writes the first word of the line of an event of this kind, and the transaction.
fn push_start<A: Allocator>(
    line: &mut Vec<u8, A>,
    kind: EventKind,
    txn: TxnId,
) -> Result<(), AllocError>
    ensures { OnOk result (line.new.items ≡ line.old.items ++ event_word kind ++ 32 ∷ txn_word txn) }
{
    line.extend_from_slice(event_word(kind).as_bytes())?;
    push_txn(line, txn)
}

// The same, followed by a second transaction.
fn push_two<A: Allocator>(
    line: &mut Vec<u8, A>,
    kind: EventKind,
    t: TxnId,
    u: TxnId,
) -> Result<(), AllocError>
    ensures { OnOk result (line.new.items ≡ line.old.items ++ event_word kind ++ 32 ∷ txn_word t ++ 32 ∷ txn_word u) }
{
    push_start(line, kind, t)?;
    push_txn(line, u)
}

// The same, followed by the class that the second starts with.
fn push_started<A: Allocator>(
    line: &mut Vec<u8, A>,
    model: &Model<A>,
    kind: EventKind,
    t: TxnId,
    u: TxnId,
    class: ClassId,
) -> Result<(), AllocError>
    ensures { OnOk result (line.new.items ≡
        line.old.items ++ event_word kind ++ 32 ∷ txn_word t ++ 32 ∷ txn_word u ++ 32 ∷ class_word model.now class) }
{
    push_two(line, kind, t, u)?;
    push_word(line, class_name(model, class))
}

// begin T CLASS
fn push_begin<A: Allocator>(
    line: &mut Vec<u8, A>,
    model: &Model<A>,
    t: TxnId,
    class: ClassId,
) -> Result<(), AllocError>
    ensures { OnOk result (line.new.items ≡
        line.old.items ++ event_word EventKind.Begin ++ 32 ∷ txn_word t ++ 32 ∷ class_word model.now class) }
{
    push_start(line, EventKind::Begin, t)?;
    push_word(line, class_name(model, class))
}

// form KIND J I
fn push_form<A: Allocator>(
    line: &mut Vec<u8, A>,
    kind: Dep,
    j: TxnId,
    i: TxnId,
) -> Result<(), AllocError>
    ensures { OnOk result (line.new.items ≡
        line.old.items ++ event_word EventKind.Form ++ 32 ∷ word_of kind ++ 32 ∷ txn_word j ++ 32 ∷ txn_word i) }
{
    line.extend_from_slice(event_word(EventKind::Form).as_bytes())?;
    push_word(line, kind.word().as_bytes())?;
    push_txn(line, j)?;
    push_txn(line, i)
}

// do T OBJECT OP
fn push_do<A: Allocator>(
    line: &mut Vec<u8, A>,
    model: &Model<A>,
    t: TxnId,
    object: ObjId,
    op: Op,
) -> Result<(), AllocError>
    ensures { OnOk result (line.new.items ≡ line.old.items
        ++ event_word EventKind.Operate ++ 32 ∷ txn_word t ++ 32 ∷ object_word model.now object ++ 32 ∷ line_of (operation_words op)) }
{
    push_start(line, EventKind::Operate, t)?;
    push_word(line, object_name(model, object))?;
    push_operation(line, op)
}

// permit T U OBJECT
fn push_permit<A: Allocator>(
    line: &mut Vec<u8, A>,
    model: &Model<A>,
    t: TxnId,
    u: TxnId,
    object: ObjId,
) -> Result<(), AllocError>
    ensures { OnOk result (line.new.items ≡ line.old.items
        ++ event_word EventKind.Permit ++ 32 ∷ txn_word t ++ 32 ∷ txn_word u ++ 32 ∷ object_word model.now object) }
{
    push_two(line, EventKind::Permit, t, u)?;
    push_word(line, object_name(model, object))
}

/// Appends the line of the event, with single spaces and its operations ascending, each once. A class or an object that
/// is not in the model has an empty name.
#[tactic(auto, unfolding(crate::specs::Writing::event_line))]
pub fn push_event<A: Allocator>(
    line: &mut Vec<u8, A>,
    model: &Model<A>,
    event: &Event<A>,
) -> Result<(), AllocError>
    ensures { OnOk result (line.new.items ≡ line.old.items ++ event_line model.now event.now) }
{
    match event {
        Event::Begin(t, class) => push_begin(line, model, *t, *class),
        Event::Spawn(t, c, class) => push_started(line, model, EventKind::Spawn, *t, *c, *class),
        Event::Split(t, u, class, ops) => {
            push_started(line, model, EventKind::Split, *t, *u, *class)?;
            push_operations(line, ops)
        }
        Event::Join(t, u) => push_two(line, EventKind::Join, *t, *u),
        Event::Delegate(t, u, ops) => {
            push_two(line, EventKind::Delegate, *t, *u)?;
            push_operations(line, ops)
        }
        Event::Form(kind, j, i) => push_form(line, *kind, *j, *i),
        Event::Operate(t, object, op) => push_do(line, model, *t, *object, *op),
        Event::Commit(t) => push_start(line, EventKind::Commit, *t),
        Event::Abort(t) => push_start(line, EventKind::Abort, *t),
        Event::Permit(t, u, object) => push_permit(line, model, *t, *u, *object),
    }
}

/// The line of the event, as `push_event` writes it. Reading it gives the same event if its class and its object are in
/// the model.
pub fn write_event<A: Allocator + Copy>(
    alloc: A,
    model: &Model<A>,
    event: &Event<A>,
) -> Result<Vec<u8, A>, AllocError>
    ensures line { IfOk result (λ line. line.items ≡ event_line model.now event.now) }
    ensures again { IsInModel model.now event.now → event_of model.now (event_line model.now event.now) ≡ Ok event.now }
{
    event_again(model, event);
    let mut line = Vec::new(alloc);
    push_event(&mut line, model, event)?;
    Ok(line)
}
