//! Sets of grants, one for each transaction, indexed by its number.

ghost use Rattle.std.specs.Prelude.{◌≡◌, ◌<◌, ◌≤◌, ◌==◌, ◌&&◌, ◌||◌, ◌++◌, ℕ, nat_le, length, not, IfOk, OnOk, OnErr};
ghost use Rattle.acta_sets.specs.Operations.{is_among};
ghost use Rattle.acta_sets.specs.Permits.{is_grant, has_grant, grant_cmp, is_listed, permit_cmp, txn_cmp};
ghost use Rattle.std.specs.List.Sorted.{IsStrictlySortedBy};
ghost use Rattle.acta_sets.specs.inside.Granted.{grant_lists, is_granted, partners_of, permits_to};

use crate::grant::Grant;
use crate::permit::Permit;
use acta_table::{ObjId, TxnId};
use std::alloc::{AllocError, Allocator};
use std::collections::BTreeSet;
use std::mem;

/// A set of grants.
pub(crate) type Grants<A> = BTreeSet<Grant, A>;

/// The grants of each transaction, indexed by its number.
pub(crate) type Granted<A> = Vec<BTreeSet<Grant, A>, A>;

/// Returns a copy of the table.
pub(crate) fn copied<A: Allocator + Copy>(table: &Granted<A>) -> Result<Granted<A>, AllocError>
    ensures { IfOk result (λ copied. grant_lists copied.items ≡ grant_lists table.now.items) }
{
    table.clone()
}

// Extends the table so that it has a set at this place. Nothing else changes.
fn grow_to<A: Allocator + Copy>(table: &mut Granted<A>, at: u16) -> Result<(), AllocError>
    ensures same { (v object partner : ℕ) → is_granted table.new.items v object partner ≡ is_granted table.old.items v object partner }
    ensures room { OnOk result (at < length table.new.items) }
    ensures few { length table.old.items ≤ 65536 → length table.new.items ≤ 65536 }
{
    let alloc = *table.allocator();
    for _ in table.len()..at as usize + 1 {
        table.push(BTreeSet::new(alloc))?;
    }
    Ok(())
}

// Inserts the grant. On `Err` the set is unchanged.
fn note<A: Allocator + Copy>(grants: &mut Grants<A>, grant: Grant) -> Result<(), AllocError>
    ensures ok { OnOk result ((object partner : ℕ) → has_grant grants.new.keys object partner ≡ (has_grant grants.old.keys object partner || is_grant object partner grant)) }
    ensures err { OnErr result (grants.new.keys ≡ grants.old.keys) }
{
    match grants.insert(grant) {
        Ok(_) => Ok(()),
        Err(_) => Err(AllocError),
    }
}

// Inserts the grant into the set at a place. On `Err` nothing changes.
fn note_at<A: Allocator + Copy>(
    table: &mut Granted<A>,
    at: u16,
    grant: Grant,
) -> Result<(), AllocError>
    requires { at < length table.old.items }
    ensures ok { OnOk result ((v object partner : ℕ) → is_granted table.new.items v object partner ≡ (is_granted table.old.items v object partner || ((at == v) && is_grant object partner grant))) }
    ensures err { OnErr result ((v object partner : ℕ) → is_granted table.new.items v object partner ≡ is_granted table.old.items v object partner) }
    ensures few { length table.old.items ≤ 65536 → length table.new.items ≤ 65536 }
{
    match table.get_mut(at as usize) {
        Some(grants) => note(grants, grant),
        None => Ok(()),
    }
}

/// Inserts the grant into a transaction's set. On `Err` nothing changes.
pub(crate) fn add<A: Allocator + Copy>(
    table: &mut Granted<A>,
    at: u16,
    grant: Grant,
) -> Result<(), AllocError>
    ensures ok { OnOk result ((v object partner : ℕ) → is_granted table.new.items v object partner ≡ (is_granted table.old.items v object partner || ((at == v) && is_grant object partner grant))) }
    ensures err { OnErr result ((v object partner : ℕ) → is_granted table.new.items v object partner ≡ is_granted table.old.items v object partner) }
    ensures few { length table.old.items ≤ 65536 → length table.new.items ≤ 65536 }
{
    match grow_to(table, at) {
        Ok(()) => note_at(table, at, grant),
        Err(error) => Err(error),
    }
}

/// Whether the grant is in a transaction's set.
pub(crate) fn has<A: Allocator + Copy>(table: &Granted<A>, at: u16, grant: &Grant) -> bool
    ensures { result ≡ is_granted table.now.items at grant.now.object.0 grant.now.partner.0 }
{
    match table.get(at as usize) {
        Some(grants) => grants.contains(grant),
        None => false,
    }
}

/// Removes and returns the grants of a transaction.
pub(crate) fn taken_out<A: Allocator + Copy>(table: &mut Granted<A>, at: u16) -> Grants<A>
    ensures grants { (object partner : ℕ) → has_grant result.keys object partner ≡ is_granted table.old.items at object partner }
    ensures others { (v object partner : ℕ) → is_granted table.new.items v object partner ≡ (is_granted table.old.items v object partner && not (at == v)) }
    ensures few { length table.old.items ≤ 65536 → length table.new.items ≤ 65536 }
{
    let none = BTreeSet::new(*table.allocator());
    match table.get_mut(at as usize) {
        Some(grants) => mem::replace(grants, none),
        None => none,
    }
}

// Removes the grant.
fn leave_out<A: Allocator + Copy>(grants: &mut Grants<A>, grant: &Grant)
    ensures { (object partner : ℕ) → has_grant grants.new.keys object partner ≡ (has_grant grants.old.keys object partner && not (is_grant object partner grant.now)) }
{
    grants.remove(grant);
}

// Removes the grant from the set at a place.
fn leave_out_at<A: Allocator + Copy>(table: &mut Granted<A>, at: u16, grant: &Grant)
    ensures left { (v object partner : ℕ) → is_granted table.new.items v object partner ≡ (is_granted table.old.items v object partner && not ((at == v) && is_grant object partner grant.now)) }
    ensures few { length table.old.items ≤ 65536 → length table.new.items ≤ 65536 }
{
    if let Some(grants) = table.get_mut(at as usize) {
        leave_out(grants, grant);
    }
}

/// For each of these grants, removes the matching grant from its partner's set.
pub(crate) fn leave_out_each<A: Allocator + Copy>(
    table: &mut Granted<A>,
    grants: &Grants<A>,
    t: TxnId,
)
    ensures left { (v object partner : ℕ) → is_granted table.new.items v object partner ≡ (is_granted table.old.items v object partner && not ((t.0 == partner) && has_grant grants.now.keys object v)) }
    ensures few { length table.old.items ≤ 65536 → length table.new.items ≤ 65536 }
{
    for grant in grants.iter() {
        let back = Grant {
            object: grant.object,
            partner: t,
        };
        leave_out_at(table, grant.partner.0, &back);
    }
}

// The partners of those of the grants that are on the object, ascending.
fn partners_among<A: Allocator + Copy>(
    alloc: A,
    grants: &Grants<A>,
    ob: ObjId,
) -> Result<Vec<TxnId, A>, AllocError>
    ensures named { IfOk result (λ partners. (h : TxnId) → is_among partners.items h ≡ (has_grant grants.now.keys ob.0 h.0 && nat_le h.0 65535)) }
    ensures ascending { IfOk result (λ partners. IsStrictlySortedBy txn_cmp partners.items) }
{
    let first = Grant {
        object: ob,
        partner: TxnId(0),
    };
    let last = Grant {
        object: ob,
        partner: TxnId(u16::MAX),
    };
    let mut partners = Vec::new(alloc);
    for grant in grants.range(first..=last) {
        partners.push(grant.partner)?;
    }
    Ok(partners)
}

/// The partners of a transaction's grants on the object, ascending.
pub(crate) fn partners<A: Allocator + Copy>(
    table: &Granted<A>,
    at: u16,
    ob: ObjId,
) -> Result<Vec<TxnId, A>, AllocError>
    ensures named { IfOk result (λ partners. (h : TxnId) → is_among partners.items h ≡ (is_granted table.now.items at ob.0 h.0 && nat_le h.0 65535)) }
    ensures ascending { IfOk result (λ partners. IsStrictlySortedBy txn_cmp partners.items) }
{
    let alloc = *table.allocator();
    match table.get(at as usize) {
        Some(grants) => partners_among(alloc, grants, ob),
        None => Ok(Vec::new(alloc)),
    }
}

// The grants as a list, in order.
fn listed<A: Allocator + Copy>(alloc: A, grants: &Grants<A>) -> Result<Vec<Grant, A>, AllocError>
    ensures listed { IfOk result (λ list. list.items ≡ grants.now.keys) }
    ensures ascending { IfOk result (λ list. IsStrictlySortedBy grant_cmp list.items) }
{
    let mut list = Vec::with_capacity(alloc, grants.len())?;
    for grant in grants.iter() {
        list.push(*grant)?;
    }
    Ok(list)
}

/// The grants of a transaction as a list, in order.
pub(crate) fn list_of<A: Allocator + Copy>(
    table: &Granted<A>,
    at: u16,
) -> Result<Vec<Grant, A>, AllocError>
    ensures listed { IfOk result (λ list. (object partner : ℕ) → has_grant list.items object partner ≡ is_granted table.now.items at object partner) }
    ensures ascending { IfOk result (λ list. IsStrictlySortedBy grant_cmp list.items) }
{
    let alloc = *table.allocator();
    match table.get(at as usize) {
        Some(grants) => listed(alloc, grants),
        None => Ok(Vec::new(alloc)),
    }
}

// Appends the permits that these grants stand for.
fn put_permits<A: Allocator + Copy>(
    permits: &mut Vec<Permit, A>,
    to: TxnId,
    grants: &Grants<A>,
) -> Result<(), AllocError>
    ensures put { OnOk result (permits.new.items ≡ permits.old.items ++ permits_to to grants.now.keys) }
    ensures ascending { IsStrictlySortedBy grant_cmp grants.now.keys }
{
    for grant in grants.iter() {
        permits.push(Permit {
            by: grant.partner,
            to,
            object: grant.object,
        })?;
    }
    Ok(())
}

/// The grants of all transactions as a list of permits, in order.
pub(crate) fn permits<A: Allocator + Copy>(table: &Granted<A>) -> Result<Vec<Permit, A>, AllocError>
    requires { length table.now.items ≤ 65536 }
    ensures listed { IfOk result (λ list. (h t object : ℕ) → is_listed list.items h t object ≡ is_granted table.now.items t object h) }
    ensures ascending { IfOk result (λ list. IsStrictlySortedBy permit_cmp list.items) }
{
    let mut permits = Vec::new(*table.allocator());
    for (to, grants) in table.iter().enumerate() {
        put_permits(&mut permits, TxnId(to as u16), grants)?;
    }
    Ok(permits)
}
