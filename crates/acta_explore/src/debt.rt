//! The debts at an end.

ghost use Rattle.std.specs.Prelude.{◌≡◌, ℕ, Some};
ghost use Rattle.std.proofs.Common.{rules};
ghost use Rattle.std.specs.Cmp.{partial_order_from_own_ties};
ghost use Rattle.std.specs.Cmp.Rules.{comparing, hashing};
ghost use Rattle.std.specs.Ordering.{as_partial_cmp};
ghost use Rattle.acta_table.specs.Dependencies.{code_of};
ghost use Rattle.acta_table.specs.declared.answer.Status.{Status as a_status};
ghost use Rattle.acta_table.specs.declared.dep.Edge.{Edge};
ghost use Rattle.acta_deps.specs.Debts.{debt_of};
ghost use Rattle.acta_explore.specs.Outcomes.{debt_by, missing_by};

use acta_table::{Dep, Missing, TxnId};
use std::cmp::Ordering;
use std::hash::{Hash, Hasher};

/// An event that a transaction still owes by a dependency. Debts are ordered by the kind's code, then by the owing
/// transaction, then by the other.
#[derive(Clone, Copy, Debug)]
pub struct Debt {
    pub kind: Dep,
    /// The transaction that owes the event.
    pub txn: TxnId,
    /// The transaction that it depends on.
    pub on: TxnId,
}

impl Debt {
    /// The event that is owed, determined by the kind.
    pub fn missing(&self) -> Missing
        ensures kind { result ≡ missing_by self.now.kind }
        ensures owed { (status : ℕ → a_status) (e : Edge) → debt_by status e ≡ Some self.now → debt_of status e ≡ Some result }
    {
        match self.kind {
            Dep::Scd | Dep::Cmd => Missing::Commit,
            Dep::Ad
            | Dep::Wd
            | Dep::Ed
            | Dep::Cd
            | Dep::Td
            | Dep::Bd
            | Dep::Sd
            | Dep::Bcd
            | Dep::Bad
            | Dep::Wcd => Missing::Abort,
        }
    }
}

impl PartialEq for Debt {
    ghost use Rattle.acta_explore.specs.inside.Debts.{debt_eq};

    ghost eq = { debt_eq };

    ghost laws = { Prim.search (comparing, rules) };

    fn eq(&self, other: &Debt) -> bool {
        self.kind.code() == other.kind.code()
            && self.txn.0 == other.txn.0
            && self.on.0 == other.on.0
    }
}

impl Eq for Debt {
    ghost laws = { Prim.search (comparing, rules) };
}

impl Ord for Debt {
    ghost use Rattle.acta_explore.specs.Outcomes.{debt_cmp};
    ghost use Rattle.acta_explore.specs.inside.Debts.{debt_ties};

    ghost cmp = { debt_cmp };

    ghost total = { Prim.search (comparing, rules) };

    ghost matches_partial_cmp = { Prim.search (comparing, rules) };

    ghost matches_eq = { debt_ties };

    fn cmp(&self, other: &Debt) -> Ordering {
        self.kind
            .code()
            .cmp(&other.kind.code())
            .then(self.txn.0.cmp(&other.txn.0))
            .then(self.on.0.cmp(&other.on.0))
    }
}

impl PartialOrd for Debt {
    ghost use Rattle.acta_explore.specs.Outcomes.{debt_cmp};
    ghost use Rattle.acta_explore.specs.inside.Debts.{debt_ties};

    ghost partial_cmp = { as_partial_cmp debt_cmp };

    ghost laws = { partial_order_from_own_ties (Prim.search (comparing, rules)) debt_ties };

    fn partial_cmp(&self, other: &Debt) -> Option<Ordering> {
        Some(self.cmp(other))
    }
}

impl Hash for Debt {
    ghost use Rattle.std.specs.Hash as fed;
    ghost use Rattle.std.specs.Prelude.{◌++◌};

    ghost hash_input = { λ d. fed.u8 (code_of d.kind) ++ fed.u16 d.txn.0 ++ fed.u16 d.on.0 };

    ghost respects_eq = { Prim.search (hashing, rules) };

    fn hash<H: Hasher>(&self, state: &mut H) {
        self.kind.code().hash(state);
        self.txn.0.hash(state);
        self.on.0.hash(state);
    }
}
