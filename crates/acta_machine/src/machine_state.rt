//! The state of a machine, and the calls that read it.

ghost use Rattle.std.specs.Prelude.{◌≡◌, ◌+◌, ◌<◌, ◌≤◌, [], true, false, map, length, ℕ, IfOk, None, option_map};
ghost use Rattle.acta_table.specs.declared.answer.Status.{Status};
ghost use Rattle.acta_table.specs.WellFormed.{is_bad_number};
ghost use Rattle.acta_deps.specs.Debts.{owed_in};
ghost use Rattle.acta_deps.specs.Statuses.{is_in_progress};
ghost use Rattle.acta_sets.specs.Operations.{access_set};
ghost use Rattle.acta_sets.specs.Permits.{permitted};
ghost use Rattle.acta_values.specs.KeptValues.{kinds_of};
ghost use Rattle.acta_machine.specs.Places.{AreHeldWell};
ghost use Rattle.acta_table.specs.Numbered.{ascending};
ghost use Rattle.acta_table.specs.Classes.{exempts};
ghost use Rattle.acta_machine.specs.Families.{class_of, has_class, exempt, conflict_set_of, heir_of};
ghost use Rattle.acta_machine.specs.Values.{value_of, return_due};
ghost use Rattle.acta_machine.specs.inside.Abstraction.{abstraction, record_in};
ghost use Rattle.acta_machine.specs.inside.Exempt.{AreExempt, exempt_numbers};
ghost use Rattle.acta_machine.specs.Rules.{lowest_broken};

use acta_axioms::with_txns;
use acta_deps::Deps;
use acta_objects::ObjectState;
use acta_sets::{Handle, OpTable, Permits};
use acta_table::{
    AtCommit, Class, ClassId, Event, Kept, MOST_EVENTS, Model, ObjId, OpNo, Owed, Ret, Scope,
    Status, TABLE_SIZE, TxnId,
};
use acta_values::Store;
use std::alloc::{AllocError, Allocator};
use std::collections::BTreeSet;

/// How a transaction started: the class that it began with, and its parent.
#[derive(Clone, Copy)]
pub(crate) struct TxnRecord {
    pub(crate) class: Option<ClassId>,
    pub(crate) parent: Option<TxnId>,
}

impl TxnRecord {
    /// The record of a transaction that has not begun.
    pub(crate) const UNBEGUN: TxnRecord = TxnRecord {
        class: None,
        parent: None,
    };
}

/// The state of a machine, in plain lists. `abstraction` maps it to the summary that contracts use.
#[derive(Drop)]
pub(crate) struct MachineState<A: Handle> {
    pub(crate) model: Model<A>,
    pub(crate) deps: Deps<A>,
    // Indexed by transaction number. A transaction past the end has not begun.
    pub(crate) records: Vec<TxnRecord, A>,
    pub(crate) store: Store<A>,
    pub(crate) permits: Permits<A>,
    pub(crate) kept: Vec<Kept<A>, A>,
}

// Returns a copy of the items.
fn copy_all<A: Allocator + Copy>(alloc: A, items: &[Kept<A>]) -> Result<Vec<Kept<A>, A>, AllocError>
    ensures { IfOk result (λ copied. copied.items ≡ items.now) }
{
    let mut copied = Vec::with_capacity(alloc, items.len())?;
    for item in items {
        copied.push(item.copy()?)?;
    }
    Ok(copied)
}

// The numbers of the transactions, as a set.
fn txn_numbers<A: Allocator + Copy>(
    alloc: A,
    txns: &[TxnId],
) -> Result<BTreeSet<u16, A>, AllocError>
    ensures { IfOk result (λ numbers. numbers.keys ≡ ascending (map (λ t. t.0) txns.now)) }
{
    let mut numbers = BTreeSet::new(alloc);
    for txn in txns {
        numbers.insert(txn.0)?;
    }
    Ok(numbers)
}

impl<A: Handle> MachineState<A> {
    /// The allocator of the lists.
    pub(crate) fn allocator(&self) -> A {
        *self.kept.allocator()
    }

    /// The operations, with holders and fates.
    pub(crate) fn operations(&self) -> &OpTable<A>
        ensures { result.now ≡ self.now.store.items }
    {
        self.store.operations()
    }

    /// The value of an object, or `None` if it is not in the model.
    pub(crate) fn value(&self, ob: ObjId) -> Result<Option<ObjectState<A>>, AllocError>
        requires { self.now.store.kinds ≡ kinds_of self.now.model.objects }
        ensures { IfOk result (λ value. value ≡ value_of self.now.model (abstraction self.now) ob.0) }
    {
        self.store.value(ob)
    }

    /// The return that the event would have. Allocates nothing.
    pub(crate) fn return_of(&self, event: &Event<A>) -> Option<Ret>
        requires { self.now.store.kinds ≡ kinds_of self.now.model.objects }
        ensures { result ≡ return_due self.now.model (abstraction self.now) event.now }
    {
        match event {
            Event::Operate(_, ob, op) => self.store.due(*ob, op),
            Event::Begin(_, _)
            | Event::Spawn(_, _, _)
            | Event::Split(_, _, _, _)
            | Event::Join(_, _)
            | Event::Delegate(_, _, _)
            | Event::Form(_, _, _)
            | Event::Commit(_)
            | Event::Abort(_)
            | Event::Permit(_, _, _) => None,
        }
    }

    /// The place of the next event, which must break no rule.
    #[tactic(auto, unfolding(crate::specs::Rules::full))]
    pub(crate) fn next_place(&self, event: &Event<A>) -> u32
        requires { lowest_broken self.now.model (abstraction self.now) event.now ≡ None }
        ensures place { result ≡ length self.now.kept.items + 1 }
        ensures room { length self.now.kept.items < MOST_EVENTS }
    {
        self.kept.len() as u32 + 1
    }

    /// Returns a copy of the state.
    pub(crate) fn copy(&self) -> Result<MachineState<A>, AllocError>
        ensures model { IfOk result (λ machine_state. machine_state.model ≡ self.now.model) }
        ensures kept { IfOk result (λ machine_state. machine_state.kept.items ≡ self.now.kept.items) }
        ensures deps { IfOk result (λ machine_state. machine_state.deps ≡ self.now.deps) }
        ensures records { IfOk result (λ machine_state. machine_state.records.items ≡ self.now.records.items) }
        ensures store { IfOk result (λ machine_state. machine_state.store ≡ self.now.store) }
        ensures permits { IfOk result (λ machine_state. permitted machine_state.permits ≡ permitted self.now.permits) }
    {
        let alloc = self.allocator();
        let records = Vec::from_slice(alloc, &self.records)?;
        let store = self.store.copy()?;
        let deps = self.deps.copy()?;
        let permits = self.permits.copy()?;
        let kept = copy_all(alloc, &self.kept)?;
        Ok(MachineState {
            model: self.model.copy()?,
            deps,
            records,
            store,
            permits,
            kept,
        })
    }
}

impl<A: Handle> MachineState<A> {
    /// All debts, by edge number.
    pub(crate) fn owed(&self) -> Result<Vec<Owed, A>, AllocError>
        ensures { IfOk result (λ owed. owed.items ≡ owed_in (abstraction self.now).status (abstraction self.now).edges) }
    {
        self.deps.owed()
    }

    /// The operations in progress that the transaction holds: none unless it is in progress itself.
    pub(crate) fn access_set(&self, t: TxnId) -> Result<Vec<OpNo, A>, AllocError>
        requires { AreHeldWell (abstraction self.now) }
        ensures set { IfOk result (λ ops. ops.items ≡ access_set t.0 self.now.store.items) }
        ensures nobody { IfOk result (λ ops. is_bad_number t.0 ≡ true → ops.items ≡ []) }
    {
        if !self.is_in_progress(t) {
            return Ok(Vec::new(self.allocator()));
        }
        let ops = self.operations().access_set(t)?;
        Ok(ops)
    }

    /// The operations in progress that others hold and that are not exempt.
    pub(crate) fn conflict_set(&self, t: TxnId) -> Result<Vec<OpNo, A>, AllocError>
        ensures { IfOk result (λ ops. ops.items ≡ conflict_set_of self.now.model (abstraction self.now) t.0) }
    {
        let exempt = self.exempt(t)?;
        self.operations().conflict_set(t, &exempt, &self.permits)
    }

    // The ancestors of the transaction, if its class exempts them.
    fn exempt(&self, t: TxnId) -> Result<Vec<TxnId, A>, AllocError>
        ensures { IfOk result (λ txns. txns.items ≡ exempt self.now.model (abstraction self.now) t.0) }
    {
        let mut exempt = Vec::new(self.allocator());
        if !self.exempts_ancestors(t) {
            return Ok(exempt);
        }
        let mut next = self.parent(t);
        for _ in 0..self.kept.len() {
            let Some(parent) = next else {
                break;
            };
            exempt.push(parent)?;
            next = self.parent(parent);
        }
        Ok(exempt)
    }

    // The same by number, as a set.
    fn exempt_numbers(&self, t: TxnId) -> Result<BTreeSet<u16, A>, AllocError>
        ensures { IfOk result (λ numbers. numbers.keys ≡ exempt_numbers self.now.model (abstraction self.now) t.0) }
    {
        let exempt = self.exempt(t)?;
        txn_numbers(self.allocator(), &exempt)
    }

    /// The transactions whose operations on the object are exempt: ancestors, if the class exempts them, and those that
    /// permit the transaction to work there.
    pub(crate) fn exempt_on(&self, t: TxnId, ob: ObjId) -> Result<BTreeSet<u16, A>, AllocError>
        ensures { IfOk result (λ numbers. AreExempt self.now.model (abstraction self.now) t.0 ob.0 numbers.keys) }
    {
        let permitters = self.permits.permitters(t, ob)?;
        with_txns(self.exempt_numbers(t)?, &permitters)
    }
}

impl<A: Handle> MachineState<A> {
    /// The status of the transaction.
    pub(crate) fn status(&self, t: TxnId) -> Status
        ensures status { result ≡ (abstraction self.now).status t.0 }
        ensures nobody { is_bad_number t.0 ≡ true → result ≡ Status.NotBegun }
    {
        self.deps.status(t)
    }

    // Whether the transaction is in progress.
    fn is_in_progress(&self, t: TxnId) -> bool
        ensures status { result ≡ is_in_progress ((abstraction self.now).status t.0) }
        ensures nobody { is_bad_number t.0 ≡ true → result ≡ false }
    {
        matches!(self.status(t), Status::InProgress)
    }

    /// A bound on transaction numbers: no table has an entry for this number or above.
    pub(crate) fn known_txns(&self) -> usize
        requires { length self.now.records.items ≤ TABLE_SIZE }
        ensures status { (t : ℕ) → result ≤ t → (abstraction self.now).status t ≡ Status.NotBegun }
        ensures class { (t : ℕ) → result ≤ t → (abstraction self.now).class t ≡ None }
        ensures parent { (t : ℕ) → result ≤ t → (abstraction self.now).parent t ≡ None }
        ensures few { result ≤ TABLE_SIZE }
    {
        self.deps.known_txns().max(self.records.len())
    }

    fn record_of(&self, t: TxnId) -> TxnRecord
        ensures { result ≡ record_in self.now.records.items t.0 }
    {
        match self.records.get(t.0 as usize) {
            Some(record_of) => *record_of,
            None => TxnRecord::UNBEGUN,
        }
    }

    /// The parent of the transaction.
    pub(crate) fn parent(&self, t: TxnId) -> Option<TxnId>
        ensures { result ≡ (abstraction self.now).parent t.0 }
    {
        self.record_of(t).parent
    }

    /// The number of the class that the transaction began with.
    pub(crate) fn class_number(&self, t: TxnId) -> Option<ClassId>
        ensures { result ≡ (abstraction self.now).class t.0 }
    {
        self.record_of(t).class
    }

    /// The class that the transaction began with.
    pub(crate) fn class_of(&self, t: TxnId) -> Option<&Class<A>>
        ensures { option_map (λ class. class.now) result ≡ class_of self.now.model (abstraction self.now) t.0 }
    {
        let class = self.class_number(t)?;
        self.model.class(class)
    }

    /// Whether the transaction's class exempts ancestors.
    pub(crate) fn exempts_ancestors(&self, t: TxnId) -> bool
        ensures { result ≡ has_class (λ k. exempts k.scope) self.now.model (abstraction self.now) t.0 }
    {
        match self.class_of(t) {
            Some(class) => matches!(class.scope, Scope::NonAncestors),
            None => false,
        }
    }

    /// Who inherits the transaction's operations when it commits: its parent, if its class commits to parents.
    pub(crate) fn heir(&self, t: TxnId) -> Option<TxnId>
        ensures { result ≡ heir_of self.now.model (abstraction self.now) t.0 }
    {
        match self.class_of(t)?.at_commit {
            AtCommit::Keeps => None,
            AtCommit::ToParent => self.parent(t),
        }
    }
}
