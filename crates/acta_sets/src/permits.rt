ghost use Rattle.std.specs.Prelude.{◌≡◌, ℕ, IfOk, OnOk, OnErr};
ghost use Rattle.std.specs.List.Sorted.{IsStrictlySortedBy};
ghost use Rattle.acta_sets.specs.Operations.{is_among};
ghost use Rattle.acta_sets.specs.Permits.{none_permitted, with_permit, without_permits, has_grant, grant_cmp, is_listed, permit_cmp, permitted, txn_cmp};

use crate::grant::Grant;
use crate::granted;
use crate::granted::Granted;
use crate::permit::Permit;
use acta_table::{ObjId, TxnId};
use std::alloc::{AllocError, Allocator};

/// The permits in force: which transaction has permitted which other to work on an object. Contracts see for each
/// transaction the list of permits that it received, and read it by the predicate `permitted`.
#[derive(Drop)]
pub struct Permits<A: Allocator> {
    // The permits that each transaction received. The other field is an index of this one.
    taken: Granted<A>,
    // The permits that each transaction gave. After a failed allocation it may contain permits that are not in force.
    given: Granted<A>,
}

impl<A: Allocator> std::marker::Model for Permits<A> {
    ghost use Rattle.std.specs.Prelude.{List, ◌≤◌, length};
    ghost use Rattle.acta_sets.specs.declared.grant.Grant.{Grant as the_grant};
    ghost use Rattle.acta_sets.specs.inside.Granted.{grant_lists, AreMirrored};

    ghost Value = { List (List the_grant) };

    ghost view = { λ p. grant_lists p.taken.items };

    ghost invariant = { λ p. record {
      mirrored : AreMirrored p.taken.items p.given.items;
      few : length p.taken.items ≤ 65536;
    } };
}

impl<A: Allocator + Copy> Permits<A> {
    /// No permits. Allocates nothing.
    pub fn new(alloc: A) -> Permits<A>
        ensures { permitted result ≡ none_permitted }
    {
        Permits {
            taken: Vec::new(alloc),
            given: Vec::new(alloc),
        }
    }

    /// From now on `h` permits `t` to work on the object. On `Err` nothing changes.
    pub fn give(&mut self, h: TxnId, t: TxnId, ob: ObjId) -> Result<(), AllocError>
        ensures ok { OnOk result (permitted self.new ≡ with_permit (permitted self.old) h.0 t.0 ob.0) }
        ensures err { OnErr result (permitted self.new ≡ permitted self.old) }
    {
        let given = Grant {
            object: ob,
            partner: t,
        };
        let taken = Grant {
            object: ob,
            partner: h,
        };
        granted::add(&mut self.given, h.0, given)?;
        granted::add(&mut self.taken, t.0, taken)?;
        Ok(())
    }

    /// Removes all permits that the transaction gave or received, as when it ends. Allocates nothing.
    pub fn ended(&mut self, t: TxnId)
        ensures { permitted self.new ≡ without_permits (permitted self.old) t.0 }
    {
        let given = granted::taken_out(&mut self.given, t.0);
        let taken = granted::taken_out(&mut self.taken, t.0);
        granted::leave_out_each(&mut self.taken, &given, t);
        granted::leave_out_each(&mut self.given, &taken, t);
    }

    /// Whether `h` has permitted `t` to work on the object.
    pub fn has(&self, h: TxnId, t: TxnId, ob: ObjId) -> bool
        ensures { result ≡ permitted self.now h.0 t.0 ob.0 }
    {
        let taken = Grant {
            object: ob,
            partner: h,
        };
        granted::has(&self.taken, t.0, &taken)
    }

    /// The transactions that have permitted `t` to work on the object, ascending.
    pub fn permitters(&self, t: TxnId, ob: ObjId) -> Result<Vec<TxnId, A>, AllocError>
        ensures ascending { IfOk result (λ hs. IsStrictlySortedBy txn_cmp hs.items) }
        ensures named { IfOk result (λ hs. (h : TxnId) → is_among hs.items h ≡ permitted self.now h.0 t.0 ob.0) }
    {
        granted::partners(&self.taken, t.0, ob)
    }

    /// The permits that `t` received, each as the object and the permitting transaction, ascending.
    pub fn given_to(&self, t: TxnId) -> Result<Vec<Grant, A>, AllocError>
        ensures ascending { IfOk result (λ grants. IsStrictlySortedBy grant_cmp grants.items) }
        ensures given { IfOk result (λ grants. (h object : ℕ) → has_grant grants.items object h ≡ permitted self.now h t.0 object) }
    {
        granted::list_of(&self.taken, t.0)
    }

    /// All permits in force, each once, ordered by receiver, then by object, then by giver.
    pub fn listed(&self) -> Result<Vec<Permit, A>, AllocError>
        ensures ascending { IfOk result (λ list. IsStrictlySortedBy permit_cmp list.items) }
        ensures listed { IfOk result (λ list. (h t object : ℕ) → is_listed list.items h t object ≡ permitted self.now h t object) }
    {
        granted::permits(&self.taken)
    }

    /// Returns a copy of the permits.
    pub fn copy(&self) -> Result<Permits<A>, AllocError>
        ensures { IfOk result (λ p. p ≡ self.now) }
    {
        Ok(Permits {
            taken: granted::copied(&self.taken)?,
            given: granted::copied(&self.given)?,
        })
    }
}
