//! The suggestion that follows from a verdict.

ghost use Rattle.std.specs.Prelude.{◌≡◌, IfOk};
ghost use Rattle.std.specs.List.{list_all, list_any};
ghost use Rattle.acta_explain.specs.Advice.{advice_by, advice_in, advice_of, advice_on, has_return, is_mild};
ghost use Rattle.acta_io.specs.Input.{parsed_in};
ghost use Rattle.acta_io.specs.Models.{of_either};
ghost use Rattle.acta_script.specs.Reading.{kept_of};

use acta_axioms::{Axiom, Fault};
use acta_io::{KeptLines, ModelError, read_lines, read_model};
use acta_judge::judge;
use acta_machine::Handle;
use acta_table::{Kept, MOST_EVENTS, Model};
use std::alloc::AllocError;
use std::thread::Threads;

/// A suggestion that follows from the verdict on kept lines.
#[derive(Clone, Copy, PartialEq, Eq, Debug)]
pub enum Advice {
    /// There are faults, all of them wrong returns or conflicts, and some line has a return: there may still be a serial
    /// order.
    Serialize,
    /// There are faults, all of them wrong returns or conflicts, and no line has a return: perhaps these are event lines.
    SayReturns,
}

// Whether the fault is a wrong return or a conflict.
fn is_mild(fault: &Fault) -> bool
    ensures { result ≡ is_mild fault.now }
{
    matches!(fault.broken, Axiom::Return | Axiom::Conflict)
}

// Whether the line has a return.
fn has_return<A: Handle>(kept: &Kept<A>) -> bool
    ensures { result ≡ has_return kept.now }
{
    kept.ret.is_some()
}

// Whether each fault is a wrong return or a conflict.
fn are_mild(faults: &[Fault]) -> bool
    ensures { result ≡ list_all is_mild faults.now }
{
    faults.iter().all(|fault| is_mild(fault))
}

// Whether a line has a return.
fn have_return<A: Handle>(kept: &[Kept<A>]) -> bool
    ensures { result ≡ list_any has_return kept.now }
{
    kept.iter().any(|one| has_return(one))
}

// The suggestion for items with these faults.
fn advice_in<A: Handle>(kept: &[Kept<A>], faults: &[Fault]) -> Option<Advice>
    ensures { result ≡ advice_in kept.now faults.now }
{
    if faults.len() == 0 || !are_mild(faults) {
        None
    } else if have_return(kept) {
        Some(Advice::Serialize)
    } else {
        Some(Advice::SayReturns)
    }
}

// The suggestion for kept items.
fn advice_of<A: Handle + Send + Sync, R: Threads + Sync>(
    rt: &R,
    alloc: A,
    model: &Model<A>,
    kept: &[Kept<A>],
) -> Result<Option<Advice>, AllocError>
    ensures { IfOk result (λ advice. advice ≡ advice_of model.now kept.now) }
{
    if kept.len() > MOST_EVENTS {
        return Ok(None);
    }
    match judge(rt, alloc, model, kept) {
        Ok(verdict) => Ok(advice_in(kept, verdict.faults.as_slice())),
        Err(_) => Err(AllocError),
    }
}

// The suggestion for the kept lines of an input.
fn advice_on<A: Handle + Send + Sync, R: Threads + Sync>(
    rt: &R,
    alloc: A,
    model: &Model<A>,
    input: &[u8],
) -> Result<Option<Advice>, AllocError>
    ensures { IfOk result (λ advice. advice ≡ advice_on model.now (parsed_in (kept_of model.now) input.now).parsed (parsed_in (kept_of model.now) input.now).stop) }
{
    let read = read_lines(alloc, &KeptLines { alloc, model }, input)?;
    match read.stop {
        Some(_) => Ok(None),
        None => advice_of(rt, alloc, model, read.parsed.as_slice()),
    }
}

/// The suggestion for the kept lines of an input, by the verdict on them. `None` if the model or a line is faulty, or if
/// there are too many lines. Returns `Err` if memory runs out.
pub fn advice_for<A: Handle + Send + Sync, R: Threads + Sync>(
    rt: &R,
    alloc: A,
    model: &[u8],
    input: &[u8],
) -> Result<Option<Advice>, AllocError>
    ensures { IfOk result (λ advice. advice ≡ advice_by {A = A} (of_either model.now) input.now) }
{
    let model = match read_model(alloc, model) {
        Ok(model) => model,
        Err(ModelError::Fault(_)) => return Ok(None),
        Err(ModelError::Memory) => return Err(AllocError),
    };
    advice_on(rt, alloc, &model, input)
}
