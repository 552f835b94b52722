//! Adds faults to a list.

ghost use Rattle.std.specs.Prelude.{◌≡◌, ◌++◌, ◌∷◌, [], OnOk, map, option_to_list, if◌then◌else◌};
ghost use Rattle.acta_axioms.specs.Faults.{faults_of};

use acta_axioms::{Axiom, Fault, Handle};
use acta_table::OpNo;
use std::alloc::AllocError;

/// An axiom, and a place at which it may be broken.
#[derive(Clone, Copy)]
pub(crate) struct Breach {
    pub(crate) broken: Axiom,
    pub(crate) place: u32,
}

impl Breach {
    /// Adds the fault with this number.
    pub(crate) fn report<A: Handle>(
        self,
        by: u64,
        faults: &mut Vec<Fault, A>,
    ) -> Result<(), AllocError>
        ensures { OnOk result (faults.new.items ≡ faults.old.items ++ (faults_of self.broken self.place (by ∷ []))) }
    {
        faults.push(Fault {
            broken: self.broken,
            place: self.place,
            by,
        })?;
        Ok(())
    }

    /// Adds the fault with this number, if there is a number.
    pub(crate) fn report_any<A: Handle>(
        self,
        by: Option<u32>,
        faults: &mut Vec<Fault, A>,
    ) -> Result<(), AllocError>
        ensures { OnOk result (faults.new.items ≡ faults.old.items ++ (faults_of self.broken self.place (option_to_list by))) }
    {
        match by {
            Some(by) => self.report(u64::from(by), faults),
            None => Ok(()),
        }
    }

    /// Adds a fault for each of these operations.
    pub(crate) fn report_each<A: Handle>(
        self,
        ops: &[OpNo],
        faults: &mut Vec<Fault, A>,
    ) -> Result<(), AllocError>
        ensures { OnOk result (faults.new.items ≡ faults.old.items ++ (faults_of self.broken self.place (map (λ o. o.0) ops.now))) }
    {
        for op in ops {
            self.report(u64::from(op.0), faults)?;
        }
        Ok(())
    }
}
