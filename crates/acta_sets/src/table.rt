ghost use Rattle.std.specs.Prelude.{◌≡◌, ◌<◌, ◌≤◌, ◌+◌, ◌++◌, ◌∷◌, [], true, false, not, find, IfOk, OnOk, OnErr, length};
ghost use Rattle.acta_table.specs.Fates.{is_open};
ghost use Rattle.acta_sets.specs.Operations.{is_held, operation_at, are_held, access_set, conflict_set, view_set, added, moved, ended, transferred, transferred_of, is_held_against, is_against, is_conflicting_holder, holders_against};
ghost use Rattle.std.specs.List.{list_any};
ghost use Rattle.acta_table.specs.Numbered.{first_number, numbers_where};
ghost use Rattle.acta_table.specs.Sets.{is_named};
ghost use Rattle.acta_sets.specs.Permits.{permitted};
ghost use Rattle.acta_sets.specs.declared.mode.Holder.TheVariants.{Anyone};
ghost use Rattle.acta_sets.specs.inside.Listing.{belongs};
ghost use Rattle.acta_sets.specs.inside.Modes as modes;

use crate::changing::{advance_each, end_each, transfer_each};
use crate::coarse_lists::CoarseLists;
use crate::counts::Counts;
use crate::handle::Handle;
use crate::held::{
    Held, Holders, add_held, clear_held, first_unnamed, leave_out_at, list_of, named_in, numbered,
    share_held,
};
use crate::held_op::HeldOp;
use crate::listing::ModeLists;
use crate::mode::{Holder, LockMode, coarse, coarse_place, listed_fine};
use crate::permits::Permits;
use crate::selection::{Selection, selected};
use crate::{coarse_lists, counts, held, listing};
use acta_table::{Fate, MOST_EVENTS, ObjId, Op, OpNo, OpSet, TxnId};
use std::alloc::{AllocError, Allocator};
use std::collections::BTreeSet;

/// The operations of a history, at most `MOST_EVENTS`, with their holders and fates. Contracts see them as a list in
/// the order in which they were added, numbered from 1.
#[derive(Drop)]
pub struct OpTable<A: Handle> {
    // The list; all other fields are indexes of it.
    items: Vec<HeldOp, A>,
    held: Held<A>,
    holders: Holders<A>,
    counts: Counts<A>,
    // The operations in each coarse mode, and in each fine mode that is searched.
    coarse: CoarseLists<A>,
    fine: ModeLists<A>,
}

impl<A: Handle> std::marker::Model for OpTable<A> {
    ghost use Rattle.std.specs.Prelude.{List};
    ghost use Rattle.acta_sets.specs.declared.held_op.HeldOp.{HeldOp};
    ghost use Rattle.acta_sets.specs.inside.Indexed.{IsIndexed};

    ghost Value = { List HeldOp };

    ghost view = { λ table. table.items.items };

    ghost invariant = { λ table. IsIndexed table.items.items table.held.items table.holders.keys table.counts table.coarse.items table.fine };
}

impl<A: Handle> OpTable<A> {
    /// The empty table. Allocates nothing.
    pub fn new(alloc: A) -> OpTable<A>
        ensures { result ≡ [] }
    {
        OpTable {
            items: Vec::new(alloc),
            held: Vec::new(alloc),
            holders: Holders::new(alloc),
            counts: counts::no_counts(alloc),
            coarse: CoarseLists::new(alloc),
            fine: ModeLists::new(alloc),
        }
    }

    /// The operations in the order in which they were added, at most `MOST_EVENTS`, numbered from 1.
    pub fn operations(&self) -> &[HeldOp]
        ensures operations { result.now ≡ self.now }
        ensures few { length self.now ≤ MOST_EVENTS }
    {
        self.items.as_slice()
    }

    /// The operation with this number, from 1, or `None` if there is none.
    pub fn operation(&self, op: OpNo) -> Option<HeldOp>
        ensures { result ≡ operation_at self.now op.0 }
    {
        if op.0 == 0 {
            return None;
        }
        self.items.get(op.0 as usize - 1).copied()
    }

    /// Adds an operation in progress, held by `t`, and returns its number: one more than there were operations. There
    /// must be fewer than `MOST_EVENTS`. On `Err` none is added.
    pub fn add(&mut self, t: TxnId, ob: ObjId, op: Op) -> Result<OpNo, AllocError>
        requires { length self.old < MOST_EVENTS }
        ensures number { IfOk result (λ number. number.0 ≡ length self.old + 1) }
        ensures added { OnOk result (self.new ≡ added self.old t ob op) }
        ensures err { OnErr result (self.new ≡ self.old) }
    {
        let number = self.items.len() as u32 + 1;
        let item = HeldOp {
            ob,
            op,
            holder: t,
            fate: Fate::InProgress,
        };
        self.items.reserve(1)?;
        let alloc = *self.items.allocator();
        let coarse = coarse(&op);
        let fine = listed_fine(&op);
        coarse_lists::make_place(&mut self.coarse, ob.0, coarse)?;
        listing::make_place(alloc, &mut self.fine, ob.0, fine)?;
        counts::make_totals(&mut self.counts, ob.0)?;
        counts::make_room(&mut self.counts, 4)?;
        add_held(&mut self.held, &mut self.holders, t.0, number)?;
        counts::count_in(&mut self.counts, &item);
        coarse_lists::list_under(&mut self.coarse, ob.0, coarse, number);
        listing::list_under(&mut self.fine, ob.0, fine, number);
        self.items.push_reserved(item);
        Ok(OpNo(number))
    }

    /// The access set of the transaction: the numbers of the operations that it holds in progress, ascending.
    pub fn held(&self, t: TxnId) -> &[u32]
        ensures { result.now ≡ numbers_where (is_held t.0) self.now }
    {
        list_of(&self.held, t.0)
    }

    /// Transfers to `u` those of the named operations that `from` holds in progress. On `Err` none is transferred.
    pub fn transfer(&mut self, from: TxnId, ops: &OpSet<A>, u: TxnId) -> Result<(), AllocError>
        ensures transferred { OnOk result (self.new ≡ transferred_of from.0 ops.now u self.old) }
        ensures err { OnErr result (self.new ≡ self.old) }
    {
        if from.0 == u.0 {
            return Ok(());
        }
        let named = named_in(*self.items.allocator(), list_of(&self.held, from.0), ops)?;
        counts::make_room(&mut self.counts, 2 * named.len())?;
        share_held(&mut self.held, &mut self.holders, u.0, named.as_slice())?;
        leave_out_at(&mut self.held, from.0, ops);
        transfer_each(&mut self.items, &mut self.counts, named.as_slice(), from, u);
        Ok(())
    }

    /// Transfers to `u` the named operations, all of which `from` holds in progress. On `Err` none is transferred.
    pub fn move_to(&mut self, from: TxnId, ops: &OpSet<A>, u: TxnId) -> Result<(), AllocError>
        requires { are_held from.0 ops.now self.old ≡ true }
        ensures moved { OnOk result (self.new ≡ moved ops.now u self.old) }
        ensures err { OnErr result (self.new ≡ self.old) }
    {
        self.transfer(from, ops, u)
    }

    /// Transfers to `u` all operations that `t` holds in progress. On `Err` none is transferred.
    pub fn transfer_all(&mut self, t: TxnId, u: TxnId) -> Result<(), AllocError>
        ensures transferred { OnOk result (self.new ≡ transferred t.0 u self.old) }
        ensures err { OnErr result (self.new ≡ self.old) }
    {
        if t.0 == u.0 {
            return Ok(());
        }
        let given = Vec::from_slice(*self.items.allocator(), list_of(&self.held, t.0))?;
        counts::make_room(&mut self.counts, 2 * given.len())?;
        share_held(&mut self.held, &mut self.holders, u.0, given.as_slice())?;
        clear_held(&mut self.held, &mut self.holders, t.0);
        transfer_each(&mut self.items, &mut self.counts, given.as_slice(), t, u);
        Ok(())
    }

    /// Gives all operations that `t` holds in progress this fate, committed or aborted. Allocates nothing.
    pub fn end_all(&mut self, t: TxnId, fate: Fate)
        requires { is_open fate ≡ false }
        ensures { self.new ≡ ended t.0 fate self.old }
    {
        end_each(
            &mut self.items,
            &mut self.counts,
            list_of(&self.held, t.0),
            t,
            fate,
        );
        advance_each(
            &mut self.coarse,
            &mut self.fine,
            self.items.as_slice(),
            list_of(&self.held, t.0),
        );
        clear_held(&mut self.held, &mut self.holders, t.0);
    }
}

// Which operations conflict with a given one.
impl<A: Handle> OpTable<A> {
    /// Whether the transaction holds an operation in progress on the object that conflicts with the operation.
    pub fn is_held_against(&self, t: TxnId, ob: ObjId, op: &Op) -> bool
        ensures { result ≡ list_any (is_held_against t.0 ob.0 op.now) self.now }
    {
        counts::number_against(&self.counts, Holder::Txn(t.0), ob.0, op) > 0
    }

    /// Whether an operation in progress on the object conflicts with the operation. Operations held by `t` or by a
    /// transaction in `exempts` (ancestors and givers of permits) do not count.
    pub fn has_conflict(&self, t: TxnId, exempts: &BTreeSet<u16, A>, ob: ObjId, op: &Op) -> bool
        ensures { result ≡ list_any (is_against t.0 exempts.now.keys ob.0 op.now) self.now }
    {
        counts::others_against(&self.counts, t, exempts, ob, op) > 0
    }

    /// The number of the first operation in progress on the object that conflicts with the operation. Operations held
    /// by `t` or by a transaction in `exempts` do not count.
    pub fn first_conflict(
        &self,
        t: TxnId,
        exempts: &BTreeSet<u16, A>,
        ob: ObjId,
        op: &Op,
    ) -> Option<u32>
        ensures { result ≡ first_number (is_against t.0 exempts.now.keys ob.0 op.now) self.now }
    {
        if self.has_conflict(t, exempts, ob, op) {
            listing::first_conflict(
                &self.coarse,
                &self.fine,
                self.items.as_slice(),
                t,
                exempts,
                ob,
                op,
            )
        } else {
            None
        }
    }
}

// Which transactions hold conflicting operations.
impl<A: Handle> OpTable<A> {
    // Whether the transaction with this number is a conflicting holder: neither the transaction itself nor exempt on
    // the object, and holding an operation in progress there that conflicts with the operation.
    fn is_conflicting_holder(
        &self,
        t: TxnId,
        exempts: &BTreeSet<u16, A>,
        ob: ObjId,
        op: &Op,
        number: u16,
    ) -> bool
        ensures { result ≡ is_conflicting_holder t.0 exempts.now.keys ob.0 op.now self.now number }
    {
        number != t.0 && !exempts.contains(&number) && self.is_held_against(TxnId(number), ob, op)
    }

    // The conflicting holders among these.
    fn conflicting_holders(
        &self,
        t: TxnId,
        exempts: &BTreeSet<u16, A>,
        ob: ObjId,
        op: &Op,
    ) -> Result<BTreeSet<u16, A>, AllocError>
        ensures { IfOk result (λ numbers. numbers.keys ≡ holders_against t.0 exempts.now.keys ob.0 op.now self.now) }
    {
        let mut numbers = BTreeSet::new(self.allocator());
        for number in self.holders.iter() {
            if self.is_conflicting_holder(t, exempts, ob, op, *number) {
                numbers.insert(*number)?;
            }
        }
        Ok(numbers)
    }

    /// The conflicting holders: those that hold an operation in progress on the object that conflicts with the
    /// operation, except `t` and the transactions in `exempts`.
    pub fn holders_against(
        &self,
        t: TxnId,
        exempts: &BTreeSet<u16, A>,
        ob: ObjId,
        op: &Op,
    ) -> Result<BTreeSet<u16, A>, AllocError>
        ensures { IfOk result (λ numbers. numbers.keys ≡ holders_against t.0 exempts.now.keys ob.0 op.now self.now) }
    {
        if self.has_conflict(t, exempts, ob, op) {
            self.conflicting_holders(t, exempts, ob, op)
        } else {
            Ok(BTreeSet::new(self.allocator()))
        }
    }
}

impl<A: Handle> OpTable<A> {
    /// The operations in this coarse mode on the object, by number, ascending, whatever their fate.
    pub(crate) fn in_mode(&self, ob: u16, mode: LockMode) -> &[u32]
        ensures { result.now ≡ numbers_where (belongs modes.coarse (record { holder = Anyone; ob = ob; mode = mode })) self.now }
    {
        let lists = &self.coarse;
        let Some(place) = coarse_place(ob, mode) else {
            return &[];
        };
        if place < lists.len() {
            lists[place].numbers.as_slice()
        } else {
            &[]
        }
    }

    // The allocator of the list.
    fn allocator(&self) -> A {
        *self.items.allocator()
    }

    /// The operations that `t` holds in progress, by number, ascending.
    pub fn access_set(&self, t: TxnId) -> Result<Vec<OpNo, A>, AllocError>
        ensures { IfOk result (λ ops. ops.items ≡ access_set t.0 self.now) }
    {
        numbered(self.allocator(), list_of(&self.held, t.0))
    }

    /// The number of the first operation that `t` holds in progress and that is not named.
    pub fn first_left_out(&self, t: TxnId, ops: &OpSet<A>) -> Option<u32>
        ensures { result ≡ find (λ n. not (is_named ops.now n)) (numbers_where (is_held t.0) self.now) }
    {
        first_unnamed(list_of(&self.held, t.0), ops)
    }

    /// The conflict set of `t`, by number, ascending: operations in progress held neither by `t`, nor by one of these
    /// ancestors, nor by a transaction that has permitted `t` to work on the operation's object.
    pub fn conflict_set(
        &self,
        t: TxnId,
        ancestors: &[TxnId],
        permits: &Permits<A>,
    ) -> Result<Vec<OpNo, A>, AllocError>
        ensures { IfOk result (λ ops. ops.items ≡ conflict_set t.0 ancestors.now (permitted permits.now) self.now) }
    {
        selected(
            self.allocator(),
            Selection::Conflict(t, ancestors, permits),
            self.operations(),
        )
    }

    /// The view: the operations that are not aborted, by number, ascending.
    pub fn view_set(&self) -> Result<Vec<OpNo, A>, AllocError>
        ensures { IfOk result (λ ops. ops.items ≡ view_set self.now) }
    {
        selected(self.allocator(), Selection::View, self.operations())
    }

    /// Returns a copy of the table.
    pub fn copy(&self) -> Result<OpTable<A>, AllocError>
        ensures { IfOk result (λ table. table ≡ self.now) }
    {
        Ok(OpTable {
            items: Vec::from_slice(self.allocator(), self.operations())?,
            held: held::copied(&self.held)?,
            holders: held::copied_holders(&self.holders)?,
            counts: counts::copied(&self.counts)?,
            coarse: coarse_lists::copied(&self.coarse)?,
            fine: listing::copied(&self.fine)?,
        })
    }
}
