ghost use Rattle.std.specs.Prelude.{◌≡◌, ◌==◌};
ghost use Rattle.std.proofs.Common.{rules};
ghost use Rattle.std.specs.Cmp.{partial_order_from_own_ties};
ghost use Rattle.std.specs.Cmp.Rules.{comparing};
ghost use Rattle.std.specs.Ordering.{nat_cmp, on, as_partial_cmp};
ghost use Rattle.acta_axioms.specs.Axioms.{axiom_number};

use acta_table::Dep;
use std::cmp::Ordering;

/// The axioms that a history can break. The first four are ACTA's, on the significant events. Those up to the
/// thirteenth are conditions of the model and its objects on single places. The last two are on dependencies and debts.
/// Axioms are ordered by their numbers.
#[derive(Clone, Copy, Debug)]
pub enum Axiom {
    /// A transaction begins at most once.
    BegunOnce,
    /// A transaction ends only after it began.
    EndedAfterBegun,
    /// A transaction ends at most once.
    EndedOnce,
    /// Only a transaction in progress does operations.
    OperatesInProgress,
    /// Numbers, classes, objects and operations exist in the model, and no event names one transaction twice.
    FormOfEvent,
    /// Classes start, act and form edges only as the model allows.
    Allowed,
    /// Only transactions in progress spawn, split, delegate or permit, and only such transactions are joined, delegated
    /// to or permitted.
    PartiesInProgress,
    /// A transaction transfers only operations that it holds in progress.
    Responsible,
    /// A transaction whose class requires it transfers all that it holds in progress.
    HandsWhole,
    /// If the class refuses conflicts, no operation conflicts with one in its transaction's conflict set: one in
    /// progress, held by another transaction, and not exempt.
    Conflict,
    /// Each operation has the return that replay gives, and no other event has a return.
    Return,
    /// A transaction that commits to its parent has a parent in progress.
    Heir,
    /// A form event forms an edge of a begin kind before the dependent transaction begins, and any other edge before
    /// either transaction ends.
    FormedInTime,
    /// The formula of each edge of this kind is true, or the event that would make it true is owed.
    Dependency(Dep),
    /// No transaction owes both a commit and an abort.
    Clash,
}

impl Axiom {
    /// The number of the axiom: from 1 to 13, or from 21 to 33 for dependencies and debts.
    #[tactic(auto, unfolding(crate::specs::Axioms::axiom_number))]
    pub fn number(self) -> u8
        ensures { result ≡ axiom_number self }
    {
        match self {
            Axiom::BegunOnce => 1,
            Axiom::EndedAfterBegun => 2,
            Axiom::EndedOnce => 3,
            Axiom::OperatesInProgress => 4,
            Axiom::FormOfEvent => 5,
            Axiom::Allowed => 6,
            Axiom::PartiesInProgress => 7,
            Axiom::Responsible => 8,
            Axiom::HandsWhole => 9,
            Axiom::Conflict => 10,
            Axiom::Return => 11,
            Axiom::Heir => 12,
            Axiom::FormedInTime => 13,
            Axiom::Dependency(kind) => 21 + kind.code(),
            Axiom::Clash => 33,
        }
    }
}

impl PartialEq for Axiom {
    ghost eq = { λ a b. axiom_number a == axiom_number b };

    ghost laws = { Prim.search (comparing, rules) };

    fn eq(&self, other: &Axiom) -> bool {
        self.number() == other.number()
    }
}

impl Eq for Axiom {
    ghost laws = { Prim.search (comparing, rules) };
}

impl Ord for Axiom {
    ghost cmp = { on axiom_number nat_cmp };

    ghost total = { Prim.search (comparing, rules) };

    ghost matches_partial_cmp = { Prim.search (comparing, rules) };

    ghost matches_eq = { Prim.search (comparing, rules) };

    fn cmp(&self, other: &Axiom) -> Ordering {
        self.number().cmp(&other.number())
    }
}

impl PartialOrd for Axiom {
    ghost partial_cmp = { as_partial_cmp (on axiom_number nat_cmp) };

    ghost laws = { partial_order_from_own_ties (Prim.search (comparing, rules)) (Prim.search (comparing, rules)) };

    fn partial_cmp(&self, other: &Axiom) -> Option<Ordering> {
        Some(self.cmp(other))
    }
}

/// A fault of a history: the axiom broken, the place, from 1, and the number of the transaction, operation or edge that
/// breaks it (0 for a return of an event that is no operation, and for a missing parent). Faults are ordered by axiom
/// number, place and number.
#[derive(Clone, Copy, PartialEq, Eq, PartialOrd, Ord, Debug)]
pub struct Fault {
    pub broken: Axiom,
    pub place: u32,
    pub by: u64,
}
