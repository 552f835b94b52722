ghost use Rattle.std.specs.Prelude.{◌≡◌, ◌==◌, ◌&&◌};
ghost use Rattle.std.proofs.Common.{rules};
ghost use Rattle.std.specs.Cmp.{partial_order_from_own_ties};
ghost use Rattle.std.specs.Cmp.Rules.{comparing};
ghost use Rattle.std.specs.Ordering.{as_partial_cmp};

use acta_table::{ObjId, TxnId};
use std::cmp::Ordering;

/// A permit to work on an object, as recorded with one of its two transactions. Grants are ordered by object, then by
/// partner.
#[derive(Clone, Copy, Debug)]
pub struct Grant {
    pub object: ObjId,
    /// The other transaction.
    pub partner: TxnId,
}

impl PartialEq for Grant {
    ghost use Rattle.acta_sets.specs.Permits.{is_grant};

    ghost eq = { λ g k. is_grant g.object.0 g.partner.0 k };

    ghost laws = { Prim.search (comparing, rules) };

    fn eq(&self, other: &Grant) -> bool {
        other.object.0 == self.object.0 && other.partner.0 == self.partner.0
    }
}

impl Eq for Grant {
    ghost laws = { Prim.search (comparing, rules) };
}

impl Ord for Grant {
    ghost use Rattle.acta_sets.specs.Permits.{grant_cmp};

    ghost cmp = { grant_cmp };

    ghost total = { Prim.search (comparing, rules) };

    ghost matches_partial_cmp = { Prim.search (comparing, rules) };

    ghost matches_eq = { Prim.search (comparing, rules) };

    fn cmp(&self, other: &Grant) -> Ordering {
        (self.object.0, self.partner.0).cmp(&(other.object.0, other.partner.0))
    }
}

impl PartialOrd for Grant {
    ghost use Rattle.acta_sets.specs.Permits.{grant_cmp};

    ghost partial_cmp = { as_partial_cmp grant_cmp };

    ghost laws = { partial_order_from_own_ties (Prim.search (comparing, rules)) (Prim.search (comparing, rules)) };

    fn partial_cmp(&self, other: &Grant) -> Option<Ordering> {
        Some(self.cmp(other))
    }
}
