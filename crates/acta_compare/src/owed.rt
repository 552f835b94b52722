//! The debts after the last line under only one of two models.

ghost use Rattle.std.specs.Prelude.{IfOk};
ghost use Rattle.acta_explore.specs.Outcomes.{debts_of};
ghost use Rattle.acta_compare.specs.OnlyIn.{IsMissing};
ghost use Rattle.acta_compare.specs.Selected.{Selects};

use acta_explore::{Debt, debts};
use acta_machine::{Handle, Machine};
use std::alloc::AllocError;

/// The debts of the first machine that the second does not have. The numbers of edges are ignored.
pub fn owed_only<A: Handle>(
    alloc: A,
    machine: &Machine<A>,
    other: &Machine<A>,
) -> Result<Vec<Debt, A>, AllocError>
    ensures { IfOk result (λ found. Selects (IsMissing (debts_of other.now)) (debts_of machine.now) found.items) }
{
    let owed = debts(alloc, machine)?;
    let others = debts(alloc, other)?;
    let mut found = Vec::new(alloc);
    for debt in owed.as_slice() {
        if !others.contains(debt) {
            found.push(*debt)?;
        }
    }
    Ok(found)
}
