//! Parses the line of an event. Unknown words are reported first, then a wrong number of words, then numbers, then
//! names, so that the lowest fault is reported.

ghost use Rattle.std.specs.Prelude.{◌≡◌, map, Ok, IfOk, IfErr};
ghost use Rattle.acta_script.specs.Laws.{IsInModel};
ghost use Rattle.acta_script.specs.inside.Again.{NamesNothing};
ghost use Rattle.acta_script.specs.Reading.{IsWhy, parse_begin, parse_spawn, parse_split, parse_join, parse_delegate, parse_form, form_of_kind, parse_do, parse_commit, parse_abort, parse_permit, parse_event_kind, event_of_kind, parse_event, event_of};

use crate::event_words::event_word;
use crate::fault::{LineError, LineFault};
use crate::names::{parse_class, parse_kind, parse_object};
use crate::numbers::parse_txn;
use crate::op_sets::parse_operations;
use crate::operations::parse_operation;
use acta_table::{Dep, Event, EventKind, Model};
use acta_words::{few_words, words_of};
use std::alloc::Allocator;

// begin T CLASS
#[tactic(auto, unfolding(crate::specs::Reading::parse_begin))]
fn parse_begin<A: Allocator>(model: &Model<A>, words: &[&[u8]]) -> Result<Event<A>, LineFault>
    ensures parsed { result ≡ parse_begin model.now (map (λ word. word.now) words.now) }
    ensures in_model { IfOk result (λ event. IsInModel model.now event) }
{
    let [t, class] = words else {
        return Err(LineFault::Arity);
    };
    let t = parse_txn(t)?;
    let class = parse_class(model, class)?;
    Ok(Event::Begin(t, class))
}

// spawn T C CLASS
#[tactic(auto, unfolding(crate::specs::Reading::parse_spawn))]
fn parse_spawn<A: Allocator>(model: &Model<A>, words: &[&[u8]]) -> Result<Event<A>, LineFault>
    ensures parsed { result ≡ parse_spawn model.now (map (λ word. word.now) words.now) }
    ensures in_model { IfOk result (λ event. IsInModel model.now event) }
{
    let [t, c, class] = words else {
        return Err(LineFault::Arity);
    };
    let t = parse_txn(t)?;
    let c = parse_txn(c)?;
    let class = parse_class(model, class)?;
    Ok(Event::Spawn(t, c, class))
}

// split T U CLASS OPS
#[tactic(auto, unfolding(crate::specs::Reading::parse_split))]
fn parse_split<A: Allocator + Copy>(
    alloc: A,
    model: &Model<A>,
    words: &[&[u8]],
) -> Result<Event<A>, LineError>
    ensures ok { IfOk result (λ event. parse_split model.now (map (λ word. word.now) words.now) ≡ Ok event) }
    ensures fault { IfErr result (IsWhy (parse_split model.now (map (λ word. word.now) words.now))) }
    ensures in_model { IfOk result (λ event. IsInModel model.now event) }
{
    let [t, u, class, ops] = words else {
        return Err(LineFault::Arity.into());
    };
    let t = parse_txn(t)?;
    let u = parse_txn(u)?;
    let ops = parse_operations(alloc, ops)?;
    let class = parse_class(model, class)?;
    Ok(Event::Split(t, u, class, ops))
}

// join T U
#[tactic(auto, unfolding(crate::specs::Reading::parse_join))]
fn parse_join<A: Allocator>(words: &[&[u8]]) -> Result<Event<A>, LineFault>
    ensures parsed { result ≡ parse_join (map (λ word. word.now) words.now) }
    ensures nowhere { IfOk result NamesNothing }
{
    let [t, u] = words else {
        return Err(LineFault::Arity);
    };
    let t = parse_txn(t)?;
    let u = parse_txn(u)?;
    Ok(Event::Join(t, u))
}

// delegate T U OPS
#[tactic(auto, unfolding(crate::specs::Reading::parse_delegate))]
fn parse_delegate<A: Allocator + Copy>(alloc: A, words: &[&[u8]]) -> Result<Event<A>, LineError>
    ensures ok { IfOk result (λ event. parse_delegate (map (λ word. word.now) words.now) ≡ Ok event) }
    ensures fault { IfErr result (IsWhy (parse_delegate {A = A} (map (λ word. word.now) words.now))) }
    ensures nowhere { IfOk result NamesNothing }
{
    let [t, u, ops] = words else {
        return Err(LineFault::Arity.into());
    };
    let t = parse_txn(t)?;
    let u = parse_txn(u)?;
    let ops = parse_operations(alloc, ops)?;
    Ok(Event::Delegate(t, u, ops))
}

// J I, after a kind
fn form_of_kind<A: Allocator>(kind: Dep, words: &[&[u8]]) -> Result<Event<A>, LineFault>
    ensures parsed { result ≡ form_of_kind kind (map (λ word. word.now) words.now) }
    ensures nowhere { IfOk result NamesNothing }
{
    let [j, i] = words else {
        return Err(LineFault::Arity);
    };
    let j = parse_txn(j)?;
    let i = parse_txn(i)?;
    Ok(Event::Form(kind, j, i))
}

// form KIND J I
#[tactic(auto, unfolding(crate::specs::Reading::parse_form))]
fn parse_form<A: Allocator>(words: &[&[u8]]) -> Result<Event<A>, LineFault>
    ensures parsed { result ≡ parse_form (map (λ word. word.now) words.now) }
    ensures nowhere { IfOk result NamesNothing }
{
    let [kind, words @ ..] = words else {
        return Err(LineFault::Arity);
    };
    form_of_kind(parse_kind(kind)?, words)
}

// do T OBJECT OP [INT]
#[tactic(auto, unfolding(crate::specs::Reading::parse_do))]
fn parse_do<A: Allocator>(model: &Model<A>, words: &[&[u8]]) -> Result<Event<A>, LineFault>
    ensures parsed { result ≡ parse_do model.now (map (λ word. word.now) words.now) }
    ensures in_model { IfOk result (λ event. IsInModel model.now event) }
{
    let [t, object, op, words @ ..] = words else {
        return Err(LineFault::Arity);
    };
    let op = parse_operation(op, words)?;
    let t = parse_txn(t)?;
    let object = parse_object(model, object)?;
    Ok(Event::Operate(t, object, op))
}

// commit T
#[tactic(auto, unfolding(crate::specs::Reading::parse_commit))]
fn parse_commit<A: Allocator>(words: &[&[u8]]) -> Result<Event<A>, LineFault>
    ensures parsed { result ≡ parse_commit (map (λ word. word.now) words.now) }
    ensures nowhere { IfOk result NamesNothing }
{
    let [t] = words else {
        return Err(LineFault::Arity);
    };
    Ok(Event::Commit(parse_txn(t)?))
}

// abort T
#[tactic(auto, unfolding(crate::specs::Reading::parse_abort))]
fn parse_abort<A: Allocator>(words: &[&[u8]]) -> Result<Event<A>, LineFault>
    ensures parsed { result ≡ parse_abort (map (λ word. word.now) words.now) }
    ensures nowhere { IfOk result NamesNothing }
{
    let [t] = words else {
        return Err(LineFault::Arity);
    };
    Ok(Event::Abort(parse_txn(t)?))
}

// permit T U OBJECT
#[tactic(auto, unfolding(crate::specs::Reading::parse_permit))]
fn parse_permit<A: Allocator>(model: &Model<A>, words: &[&[u8]]) -> Result<Event<A>, LineFault>
    ensures parsed { result ≡ parse_permit model.now (map (λ word. word.now) words.now) }
    ensures in_model { IfOk result (λ event. IsInModel model.now event) }
{
    let [t, u, object] = words else {
        return Err(LineFault::Arity);
    };
    let t = parse_txn(t)?;
    let u = parse_txn(u)?;
    let object = parse_object(model, object)?;
    Ok(Event::Permit(t, u, object))
}

/// The kind of event whose line has this first word.
pub(crate) fn parse_event_kind(word: &[u8]) -> Result<EventKind, LineFault>
    ensures { result ≡ parse_event_kind word.now }
{
    // (the word of most lines first)
    if word == event_word(EventKind::Operate).as_bytes() {
        Ok(EventKind::Operate)
    } else if word == event_word(EventKind::Begin).as_bytes() {
        Ok(EventKind::Begin)
    } else if word == event_word(EventKind::Spawn).as_bytes() {
        Ok(EventKind::Spawn)
    } else if word == event_word(EventKind::Split).as_bytes() {
        Ok(EventKind::Split)
    } else if word == event_word(EventKind::Join).as_bytes() {
        Ok(EventKind::Join)
    } else if word == event_word(EventKind::Delegate).as_bytes() {
        Ok(EventKind::Delegate)
    } else if word == event_word(EventKind::Form).as_bytes() {
        Ok(EventKind::Form)
    } else if word == event_word(EventKind::Commit).as_bytes() {
        Ok(EventKind::Commit)
    } else if word == event_word(EventKind::Abort).as_bytes() {
        Ok(EventKind::Abort)
    } else if word == event_word(EventKind::Permit).as_bytes() {
        Ok(EventKind::Permit)
    } else {
        Err(LineFault::Word)
    }
}

// The event of this kind, from the words after the first.
fn event_of_kind<A: Allocator + Copy>(
    alloc: A,
    model: &Model<A>,
    kind: EventKind,
    words: &[&[u8]],
) -> Result<Event<A>, LineError>
    ensures ok { IfOk result (λ event. event_of_kind model.now kind (map (λ word. word.now) words.now) ≡ Ok event) }
    ensures fault { IfErr result (IsWhy (event_of_kind model.now kind (map (λ word. word.now) words.now))) }
    ensures in_model { IfOk result (λ event. IsInModel model.now event) }
{
    match kind {
        EventKind::Begin => Ok(parse_begin(model, words)?),
        EventKind::Spawn => Ok(parse_spawn(model, words)?),
        EventKind::Split => parse_split(alloc, model, words),
        EventKind::Join => Ok(parse_join(words)?),
        EventKind::Delegate => parse_delegate(alloc, words),
        EventKind::Form => Ok(parse_form(words)?),
        EventKind::Operate => Ok(parse_do(model, words)?),
        EventKind::Commit => Ok(parse_commit(words)?),
        EventKind::Abort => Ok(parse_abort(words)?),
        EventKind::Permit => Ok(parse_permit(model, words)?),
    }
}

/// The event of these words.
#[tactic(auto, unfolding(crate::specs::Reading::parse_event))]
pub(crate) fn parse_event<A: Allocator + Copy>(
    alloc: A,
    model: &Model<A>,
    words: &[&[u8]],
) -> Result<Event<A>, LineError>
    ensures ok { IfOk result (λ event. parse_event model.now (map (λ word. word.now) words.now) ≡ Ok event) }
    ensures fault { IfErr result (IsWhy (parse_event model.now (map (λ word. word.now) words.now))) }
    ensures in_model { IfOk result (λ event. IsInModel model.now event) }
{
    let [word, words @ ..] = words else {
        return Err(LineFault::Empty.into());
    };
    let kind = parse_event_kind(word)?;
    event_of_kind(alloc, model, kind, words)
}

/// Parses the line of an event. Returns the lowest fault of the line, or `Memory` if memory runs out. Transactions have
/// 16 bits, operation numbers 32, and an INT is a signed number of 32 bits. Whether a machine admits the event does not
/// matter here.
pub fn read_event<A: Allocator + Copy>(
    alloc: A,
    model: &Model<A>,
    line: &[u8],
) -> Result<Event<A>, LineError>
    ensures ok { IfOk result (λ event. event_of model.now line.now ≡ Ok event) }
    ensures fault { IfErr result (IsWhy (event_of model.now line.now)) }
    ensures in_model { IfOk result (λ event. IsInModel model.now event) }
{
    match few_words(line) {
        Some(words) => parse_event(alloc, model, words.as_slice()),
        None => parse_event(alloc, model, &words_of(alloc, line)?),
    }
}
