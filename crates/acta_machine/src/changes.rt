//! The changes made by an admitted event. Each call says which lists it leaves unchanged, and those that allocate
//! change nothing on `Err`. They check no rules.

ghost use Rattle.std.specs.Prelude.{◌≡◌, take, ◌+◌, ◌-◌, ◌<◌, ◌≤◌, ◌++◌, ◌∷◌, [], true, false, length, OnOk, OnErr, IfOk, vec_capacity, None};
ghost use Rattle.acta_table.specs.declared.answer.Status.{Status};
ghost use Rattle.acta_table.specs.WellFormed.{bad_number};
ghost use Rattle.acta_table.specs.Events.{acting, operations_named};
ghost use Rattle.acta_table.specs.Fates.{is_open};
ghost use Rattle.std.specs.List.{list_all};
ghost use Rattle.std.specs.Option.{option_map_or};
ghost use Rattle.acta_sets.specs.Operations.{are_held};
ghost use Rattle.acta_sets.specs.Permits.{without_permits};
ghost use Rattle.acta_table.specs.Edges.{formed};
ghost use Rattle.acta_deps.specs.Dependencies.{start_refusal, join_refusal};
ghost use Rattle.acta_machine.specs.Families.{heir_of};
ghost use Rattle.acta_machine.specs.Summary.{stood, terminated, permit_given, entered, linked, given, inherited, operated, fated, counted};
ghost use Rattle.acta_machine.specs.Changes.{begun, settled, changed};
ghost use Rattle.acta_machine.specs.Rules.{not_in_progress, already_begun, dependency};
ghost use Rattle.acta_machine.specs.inside.FreshEdges.{is_fresh_edge};
ghost use Rattle.acta_machine.specs.inside.Abstraction.{abstraction};
ghost use Rattle.acta_machine.specs.inside.Remembered.{IsNoted};

use crate::machine_state::{MachineState, TxnRecord};
use acta_sets::Handle;
use acta_table::{
    ClassId, Edge, Event, Fate, Kept, LAST_TXN, MOST_EDGES, MOST_EVENTS, ObjId, Op, OpSet,
    TABLE_SIZE, TxnId, lengthen,
};
use std::alloc::AllocError;

impl<A: Handle> MachineState<A> {
    // Removes the last `count` edges.
    fn unlink(&mut self, count: usize)
        requires { count ≤ length (abstraction self.old).edges }
        ensures shows { abstraction self.new ≡ record (abstraction self.old) { edges = take (length (abstraction self.old).edges - count) (abstraction self.old).edges } }
        ensures others { self.new ≡ record self.old { deps = self.new.deps } }
    {
        self.deps.take_back(count);
    }

    #[tactic(auto, unfolding(crate::specs::Summary::entered))]
    fn enter(&mut self, t: TxnId, class: Option<ClassId>, parent: Option<TxnId>)
        requires { t.0 < length self.old.records.items }
        ensures shows { abstraction self.new ≡ entered (abstraction self.old) t class parent }
        ensures table { length self.new.records.items ≡ length self.old.records.items }
        ensures others { self.new ≡ record self.old { records = self.new.records } }
    {
        self.records[t.0 as usize] = TxnRecord { class, parent };
    }

    #[tactic(auto, unfolding(crate::specs::Summary::given))]
    fn give(&mut self, from: TxnId, ops: &OpSet<A>, u: TxnId) -> Result<(), AllocError>
        requires { are_held from.0 ops.now self.old.store.items ≡ true }
        ensures shows { OnOk result (abstraction self.new ≡ given (abstraction self.old) ops.now u) }
        ensures err { OnErr result (abstraction self.new ≡ abstraction self.old) }
        ensures others { self.new ≡ record self.old { store = record self.old.store { items = self.new.store.items } } }
    {
        self.store.move_to(from, ops, u)
    }

    #[tactic(auto, unfolding(crate::specs::Summary::inherited))]
    fn transfer_all(&mut self, t: TxnId, u: TxnId) -> Result<(), AllocError>
        ensures shows { OnOk result (abstraction self.new ≡ inherited (abstraction self.old) t u) }
        ensures err { OnErr result (abstraction self.new ≡ abstraction self.old) }
        ensures others { self.new ≡ record self.old { store = record self.old.store { items = self.new.store.items } } }
    {
        self.store.transfer_all(t, u)
    }

    #[tactic(auto, unfolding(crate::specs::Summary::fated))]
    fn end(&mut self, t: TxnId, fate: Fate)
        requires { is_open fate ≡ false }
        ensures shows { abstraction self.new ≡ fated (abstraction self.old) t fate }
        ensures others { self.new ≡ record self.old { store = record self.old.store { items = self.new.store.items } } }
    {
        self.store.end_all(t, fate);
    }

    #[tactic(auto, unfolding(crate::specs::Summary::counted))]
    fn keep(&mut self, kept: Kept<A>)
        requires { length self.old.kept.items < vec_capacity self.old.kept }
        ensures shows { abstraction self.new ≡ counted (abstraction self.old) }
        ensures kept { self.new.kept.items ≡ self.old.kept.items ++ kept ∷ [] }
        ensures others { self.new ≡ record self.old { kept = self.new.kept } }
    {
        let _ = self.kept.push(kept);
    }

    // Makes room for the transaction in the tables by number. Changes nothing visible.
    fn make_entry(&mut self, t: TxnId) -> Result<(), AllocError>
        requires high { t.0 ≤ LAST_TXN }
        requires records { length self.old.records.items ≤ TABLE_SIZE }
        ensures status { OnOk result (t.0 < length self.new.deps.statuses) }
        ensures record_of { OnOk result (t.0 < length self.new.records.items) }
        ensures records { length self.new.records.items ≤ TABLE_SIZE }
        ensures shows { abstraction self.new ≡ abstraction self.old }
        ensures others { self.new ≡ record self.old { deps = self.new.deps; records = self.new.records } }
    {
        self.deps.make_room(t)?;
        lengthen(&mut self.records, t.0 as usize + 1, TxnRecord::UNBEGUN)
    }

    #[tactic(auto, unfolding(crate::specs::Summary::stood))]
    fn begin(&mut self, t: TxnId, class: ClassId, parent: Option<TxnId>)
        requires low { 0 < t.0 }
        requires stands { (abstraction self.old).status t.0 ≡ Status.NotBegun }
        requires allowed { start_refusal (abstraction self.old).status (abstraction self.old).edges t.0 ≡ None }
        requires status { t.0 < length self.old.deps.statuses }
        requires record_of { t.0 < length self.old.records.items }
        requires records { length self.old.records.items ≤ TABLE_SIZE }
        ensures shows { abstraction self.new ≡ begun (abstraction self.old) t class parent }
        ensures records { length self.new.records.items ≤ TABLE_SIZE }
        ensures others { self.new ≡ record self.old { deps = self.new.deps; records = self.new.records } }
    {
        self.deps.started(t);
        self.enter(t, Some(class), parent);
    }

    // Removes the permits that the transaction gave or received.
    fn drop_permits(&mut self, t: TxnId)
        ensures shows { abstraction self.new ≡ record (abstraction self.old) { permits = without_permits (abstraction self.old).permits t.0 } }
        ensures others { self.new ≡ record self.old { permits = self.new.permits } }
    {
        self.permits.ended(t);
    }

    // `t` permits `u` to work on the object. On `Err` nothing changes.
    #[tactic(auto, unfolding(crate::specs::Summary::permit_given))]
    fn permit(&mut self, t: TxnId, u: TxnId, ob: ObjId) -> Result<(), AllocError>
        ensures shows { OnOk result (abstraction self.new ≡ permit_given (abstraction self.old) t u ob) }
        ensures err { OnErr result (abstraction self.new ≡ abstraction self.old) }
        ensures others { self.new ≡ record self.old { permits = self.new.permits } }
    {
        self.permits.give(t, u, ob)
    }

    #[tactic(auto, unfolding(crate::specs::Summary::terminated, crate::specs::Summary::inherited))]
    fn join(&mut self, t: TxnId, u: TxnId) -> Result<(), AllocError>
        requires low { 0 < t.0 }
        requires high { t.0 ≤ LAST_TXN }
        requires stands { (abstraction self.old).status t.0 ≡ Status.InProgress }
        requires allowed { join_refusal (abstraction self.old).status (abstraction self.old).edges t.0 ≡ None }
        ensures shows { OnOk result (abstraction self.new ≡ inherited (terminated (abstraction self.old) t Status.Joined) t u) }
        ensures err { OnErr result (abstraction self.new ≡ abstraction self.old) }
        ensures others { self.new ≡ record self.old { deps = self.new.deps; permits = self.new.permits; store = record self.old.store { items = self.new.store.items } } }
    {
        self.transfer_all(t, u)?;
        self.deps.joined(t);
        self.drop_permits(t);
        Ok(())
    }

    // Transfers what the transaction holds in progress to its heir, or commits it if there is none. On `Err` nothing
    // changes.
    fn settle(&mut self, t: TxnId) -> Result<(), AllocError>
        ensures shows { OnOk result (abstraction self.new ≡ settled (abstraction self.old) t (heir_of self.old.model (abstraction self.old) t.0)) }
        ensures err { OnErr result (abstraction self.new ≡ abstraction self.old) }
        ensures others { self.new ≡ record self.old { store = record self.old.store { items = self.new.store.items } } }
    {
        match self.heir(t) {
            Some(heir) => self.transfer_all(t, heir)?,
            None => self.end(t, Fate::Committed),
        }
        Ok(())
    }

    #[tactic(auto, unfolding(crate::specs::Summary::terminated))]
    fn commit(&mut self, t: TxnId) -> Result<(), AllocError>
        requires number { bad_number {A = A} (Event.Commit t) ≡ None }
        requires stands { not_in_progress {A = A} (abstraction self.old) (Event.Commit t) ≡ None }
        requires allowed { dependency {A = A} (abstraction self.old) (Event.Commit t) ≡ None }
        ensures shows { OnOk result (abstraction self.new ≡ settled (terminated (abstraction self.old) t Status.Committed) t (heir_of self.old.model (abstraction self.old) t.0)) }
        ensures err { OnErr result (abstraction self.new ≡ abstraction self.old) }
        ensures others { self.new ≡ record self.old { deps = self.new.deps; permits = self.new.permits; store = record self.old.store { items = self.new.store.items } } }
    {
        self.settle(t)?;
        self.deps.committed(t);
        self.drop_permits(t);
        Ok(())
    }

    #[tactic(auto, unfolding(crate::specs::Summary::terminated))]
    fn abort(&mut self, t: TxnId)
        requires number { bad_number {A = A} (Event.Abort t) ≡ None }
        requires stands { not_in_progress {A = A} (abstraction self.old) (Event.Abort t) ≡ None }
        requires allowed { dependency {A = A} (abstraction self.old) (Event.Abort t) ≡ None }
        ensures shows { abstraction self.new ≡ fated (terminated (abstraction self.old) t Status.Aborted) t Fate.Aborted }
        ensures others { self.new ≡ record self.old { deps = self.new.deps; permits = self.new.permits; store = record self.old.store { items = self.new.store.items } } }
    {
        self.deps.aborted(t);
        self.drop_permits(t);
        self.end(t, Fate::Aborted);
    }

    #[tactic(auto, unfolding(crate::specs::Summary::operated))]
    fn operate(&mut self, t: TxnId, ob: ObjId, op: Op) -> Result<(), AllocError>
        requires { length self.old.store.items < MOST_EVENTS }
        ensures shows { OnOk result (abstraction self.new ≡ operated (abstraction self.old) t ob op) }
        ensures err { OnErr result (abstraction self.new ≡ abstraction self.old) }
        ensures others { self.new ≡ record self.old { store = record self.old.store { items = self.new.store.items } } }
    {
        self.store.add(t, ob, op)
    }

    // Changes transactions, permits and operations. On `Err` nothing changes.
    #[tactic(auto, unfolding(acta_table::specs::WellFormed::bad_number))]
    fn change(&mut self, event: &Event<A>) -> Result<(), AllocError>
        requires records { length self.old.records.items ≤ TABLE_SIZE }
        requires few { length self.old.store.items < MOST_EVENTS }
        requires number { bad_number event.now ≡ None }
        requires progress { not_in_progress (abstraction self.old) event.now ≡ None }
        requires new { already_begun (abstraction self.old) event.now ≡ None }
        requires allowed { dependency (abstraction self.old) event.now ≡ None }
        requires named { option_map_or (λ t. are_held t (operations_named event.now) self.old.store.items) (acting event.now) true ≡ true }
        ensures shows { OnOk result (abstraction self.new ≡ changed self.old.model (abstraction self.old) event.now) }
        ensures err { OnErr result (abstraction self.new ≡ abstraction self.old) }
        ensures records { length self.new.records.items ≤ TABLE_SIZE }
        ensures others { self.new ≡ record self.old { deps = self.new.deps; records = self.new.records; permits = self.new.permits; store = record self.old.store { items = self.new.store.items } } }
    {
        match event {
            Event::Begin(t, class) => {
                self.make_entry(*t)?;
                self.begin(*t, *class, None);
            }
            Event::Spawn(t, c, class) => {
                self.make_entry(*c)?;
                self.begin(*c, *class, Some(*t));
            }
            Event::Split(t, u, class, ops) => {
                self.make_entry(*u)?;
                self.give(*t, ops, *u)?;
                self.begin(*u, *class, None);
            }
            Event::Join(t, u) => return self.join(*t, *u),
            Event::Delegate(t, u, ops) => return self.give(*t, ops, *u),
            Event::Form(_, _, _) => {}
            Event::Operate(t, ob, op) => return self.operate(*t, *ob, *op),
            Event::Commit(t) => return self.commit(*t),
            Event::Abort(t) => self.abort(*t),
            Event::Permit(t, u, ob) => return self.permit(*t, *u, *ob),
        }
        Ok(())
    }
}

impl<A: Handle> MachineState<A> {
    /// Makes room for one more event.
    pub(crate) fn make_room(&mut self) -> Result<(), AllocError>
        ensures shows { abstraction self.new ≡ abstraction self.old }
        ensures others { self.new ≡ record self.old { kept = self.new.kept } }
        ensures kept { self.new.kept.items ≡ self.old.kept.items }
        ensures room { OnOk result (length self.new.kept.items < vec_capacity self.new.kept) }
    {
        self.kept.reserve(1)
    }

    // Forms these edges, and returns how many are new. On `Err` none is formed.
    #[tactic(auto, unfolding(crate::specs::Summary::linked))]
    fn link(&mut self, due: &[Edge]) -> Result<usize, AllocError>
        requires fits { length (formed self.old.deps.edges due.now) ≤ MOST_EDGES }
        requires fresh { list_all (is_fresh_edge (abstraction self.old).status) due.now ≡ true }
        ensures shows { OnOk result (abstraction self.new ≡ linked (abstraction self.old) due.now) }
        ensures count { IfOk result (λ count. length (abstraction self.new).edges ≡ length (abstraction self.old).edges + count) }
        ensures kept { OnOk result (take (length (abstraction self.old).edges) (abstraction self.new).edges ≡ (abstraction self.old).edges) }
        ensures err { OnErr result (abstraction self.new ≡ abstraction self.old) }
        ensures others { self.new ≡ record self.old { deps = self.new.deps } }
    {
        let count = self.deps.form(due)?;
        Ok(count)
    }

    // Remembers the parent of the transaction that the event begins.
    fn remember(&mut self, event: &Event<A>)
        ensures noted { IsNoted self.old.store.lineage self.new.store.lineage event.now }
        ensures others { self.new ≡ record self.old { store = record self.old.store { lineage = self.new.store.lineage } } }
    {
        match event {
            Event::Begin(t, _) => self.store.enter(*t, None),
            Event::Spawn(t, c, _) => self.store.enter(*c, Some(*t)),
            Event::Split(_, u, _, _) => self.store.enter(*u, None),
            Event::Join(_, _)
            | Event::Delegate(_, _, _)
            | Event::Form(_, _, _)
            | Event::Operate(_, _, _)
            | Event::Commit(_)
            | Event::Abort(_)
            | Event::Permit(_, _, _) => {}
        }
    }

    /// Carries out an admitted event: forms these edges, changes transactions, permits and operations, and keeps the
    /// event. On `Err` nothing changes: new edges are removed again.
    pub(crate) fn admit(
        &mut self,
        event: &Event<A>,
        kept: Kept<A>,
        due: &[Edge],
    ) -> Result<(), AllocError>
        requires room { length self.old.kept.items < vec_capacity self.old.kept }
        requires records { length self.old.records.items ≤ TABLE_SIZE }
        requires few { length self.old.store.items < MOST_EVENTS }
        requires fits { length (formed self.old.deps.edges due.now) ≤ MOST_EDGES }
        requires fresh { list_all (is_fresh_edge (abstraction self.old).status) due.now ≡ true }
        requires number { bad_number event.now ≡ None }
        requires progress { not_in_progress (linked (abstraction self.old) due.now) event.now ≡ None }
        requires new { already_begun (linked (abstraction self.old) due.now) event.now ≡ None }
        requires allowed { dependency (linked (abstraction self.old) due.now) event.now ≡ None }
        requires named { option_map_or (λ t. are_held t (operations_named event.now) self.old.store.items) (acting event.now) true ≡ true }
        ensures shows { OnOk result (abstraction self.new ≡ counted (changed self.old.model (linked (abstraction self.old) due.now) event.now)) }
        ensures kept { OnOk result (self.new.kept.items ≡ self.old.kept.items ++ kept ∷ []) }
        ensures model { self.new.model ≡ self.old.model }
        ensures kinds { self.new.store.kinds ≡ self.old.store.kinds }
        ensures records { length self.new.records.items ≤ TABLE_SIZE }
        ensures noted { OnOk result (IsNoted self.old.store.lineage self.new.store.lineage event.now) }
        ensures forgotten { OnErr result (self.new.store.lineage ≡ self.old.store.lineage) }
        ensures err { OnErr result (abstraction self.new ≡ abstraction self.old) }
        ensures as_it_was { OnErr result (self.new.kept.items ≡ self.old.kept.items) }
    {
        let formed = self.link(due)?;
        if let Err(error) = self.change(event) {
            self.unlink(formed);
            return Err(error);
        }
        self.keep(kept);
        self.remember(event);
        Ok(())
    }
}
