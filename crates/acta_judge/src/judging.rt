//! The judge.

ghost use Rattle.std.specs.Prelude.{◌≡◌, ◌<◌, [], length, Err, IfOk};
ghost use Rattle.acta_judge.specs.declared.verdict.JudgeError.{JudgeError};
ghost use Rattle.std.specs.List.Sorted.{IsStrictlySortedBy};
ghost use Rattle.acta_axioms.specs.declared.fault.Fault.{Fault};
ghost use Rattle.acta_judge.specs.Order.{fault_cmp, is_reported};
ghost use Rattle.acta_judge.specs.Verdicts.{all_faults, verdict};

use crate::clashes::report_clashes;
use crate::cut::Cut;
use crate::edges::{owed_by, report_edges};
use crate::ordering::in_order;
use crate::parts::report_places;
use crate::verdict::{JudgeError, Verdict};
use acta_axioms::{Handle, Walk};
use acta_table::{Items, Kept, MOST_EVENTS, Model};
use std::alloc::AllocError;
use std::thread::Threads;

// The verdict on the list of a walk that has not started.
fn reported<'a, A: Handle + Send + Sync, R: Threads + Sync>(
    rt: &R,
    alloc: A,
    cut: Cut,
    walk: &mut Walk<'a, A>,
) -> Result<Verdict<A>, AllocError>
    requires { walk.old.front ≡ [] }
    ensures verdict { IfOk result (λ v. v ≡ verdict walk.old.model walk.old.ahead) }
    ensures ascending { IfOk result (λ v. IsStrictlySortedBy fault_cmp v.faults) }
{
    let size = cut.size(walk.ahead().len(), cut.places);
    let places = report_places(rt, alloc, walk, size)?;
    let size = cut.size(walk.edges().len(), cut.edges);
    let edges = report_edges(rt, alloc, walk, size)?;
    let owed = owed_by(alloc, edges.as_slice())?;
    let clashes = report_clashes(alloc, walk.front().len() as u32, owed.as_slice())?;
    let faults = in_order(
        alloc,
        places.as_slice(),
        edges.as_slice(),
        clashes.as_slice(),
    )?;
    Ok(Verdict {
        faults: Items::of(faults),
        owed: Items::of(owed),
    })
}

/// The faults of a list of kept items, legal or not, and the debts at its end. If threads pay, a long list is judged in
/// parts (`Cut::usual`). Returns `TooLong` if the list has more than `MOST_EVENTS` items, and `Memory` if memory runs out.
pub fn judge<A: Handle + Send + Sync, R: Threads + Sync>(
    rt: &R,
    alloc: A,
    model: &Model<A>,
    kept: &[Kept<A>],
) -> Result<Verdict<A>, JudgeError>
    ensures verdict { IfOk result (λ v. v ≡ verdict model.now kept.now) }
    ensures ascending { IfOk result (λ v. IsStrictlySortedBy fault_cmp v.faults) }
    ensures each { (f : Fault) → IfOk result (λ v. is_reported f v.faults ≡ is_reported f (all_faults model.now kept.now)) }
    ensures long { MOST_EVENTS < length kept.now → result ≡ Err JudgeError.TooLong }
    ensures short { result ≡ Err JudgeError.TooLong → MOST_EVENTS < length kept.now }
{
    judge_in_parts(rt, alloc, Cut::usual(rt, model), model, kept)
}

/// As `judge`, with the list and its edges cut as given. The verdict does not depend on the cut.
pub fn judge_in_parts<A: Handle + Send + Sync, R: Threads + Sync>(
    rt: &R,
    alloc: A,
    cut: Cut,
    model: &Model<A>,
    kept: &[Kept<A>],
) -> Result<Verdict<A>, JudgeError>
    ensures verdict { IfOk result (λ v. v ≡ verdict model.now kept.now) }
    ensures ascending { IfOk result (λ v. IsStrictlySortedBy fault_cmp v.faults) }
    ensures each { (f : Fault) → IfOk result (λ v. is_reported f v.faults ≡ is_reported f (all_faults model.now kept.now)) }
    ensures long { MOST_EVENTS < length kept.now → result ≡ Err JudgeError.TooLong }
    ensures short { result ≡ Err JudgeError.TooLong → MOST_EVENTS < length kept.now }
{
    if kept.len() > MOST_EVENTS {
        return Err(JudgeError::TooLong);
    }
    let mut walk = Walk::of(alloc, model, kept)?;
    Ok(reported(rt, alloc, cut, &mut walk)?)
}
