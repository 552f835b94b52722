//! Transactions that owe both a commit and an abort.

ghost use Rattle.std.specs.Prelude.{◌≡◌, IfOk, Some, if◌then◌else◌};
ghost use Rattle.std.specs.BTreeSet.{insert_key};
ghost use Rattle.std.specs.Ordering.{nat_cmp};
ghost use Rattle.acta_table.specs.Dependencies.{is_abort};
ghost use Rattle.acta_axioms.specs.declared.fault.Axiom.TheVariants.{Clash};
ghost use Rattle.acta_axioms.specs.Faults.{faults_of};
ghost use Rattle.acta_judge.specs.inside.Edges.{aborting, clashes_among, clashing_among};

use crate::reporting::Breach;
use acta_axioms::{Axiom, Fault, Handle};
use acta_table::{Missing, Owed};
use std::alloc::AllocError;
use std::collections::BTreeSet;

// Adds the owing transaction, if an abort is owed.
fn put_aborting<A: Handle>(debt: &Owed, txns: &mut BTreeSet<u16, A>) -> Result<(), AllocError>
    ensures { IfOk result (λ _. txns.new.keys ≡ (if is_abort (Some debt.now.missing) then insert_key nat_cmp txns.old.keys debt.now.txn.0 else txns.old.keys)) }
{
    if matches!(debt.missing, Missing::Abort) {
        txns.insert(debt.txn.0)?;
    }
    Ok(())
}

// The transactions that owe an abort.
fn aborting<A: Handle>(alloc: A, debts: &[Owed]) -> Result<BTreeSet<u16, A>, AllocError>
    ensures { IfOk result (λ txns. txns.keys ≡ aborting debts.now) }
{
    let mut txns = BTreeSet::new(alloc);
    for debt in debts {
        put_aborting(debt, &mut txns)?;
    }
    Ok(txns)
}

// Whether the debt is a commit, owed by a transaction that also owes an abort.
#[tactic(auto, using(crate::proofs::Clashing::in_aborting))]
fn clashes_among<A: Handle>(owing: &BTreeSet<u16, A>, debts: &[Owed], debt: &Owed) -> bool
    requires { owing.now.keys ≡ aborting debts.now }
    ensures { result ≡ clashes_among debts.now debt.now }
{
    matches!(debt.missing, Missing::Commit) && owing.contains(&debt.txn.0)
}

/// The faults at this place of the transactions that owe both a commit and an abort by these debts.
pub(crate) fn report_clashes<A: Handle>(
    alloc: A,
    place: u32,
    debts: &[Owed],
) -> Result<Vec<Fault, A>, AllocError>
    ensures { IfOk result (λ reported. reported.items ≡ faults_of Clash place (clashing_among debts.now)) }
{
    let owing = aborting(alloc, debts)?;
    let clash = Breach {
        broken: Axiom::Clash,
        place,
    };
    let mut faults = Vec::new(alloc);
    for debt in debts {
        if clashes_among(&owing, debts, debt) {
            clash.report(u64::from(debt.txn.0), &mut faults)?;
        }
    }
    Ok(faults)
}
