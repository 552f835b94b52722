//! The operations that conflict with a next one, and the edges that an event forms.

ghost use Rattle.std.specs.Prelude.{◌≡◌, None, IfOk};
ghost use Rattle.acta_table.specs.Faults.{lowest_fault};
ghost use Rattle.acta_table.specs.Numbered.{first_number};
ghost use Rattle.acta_machine.specs.Changes.{edges_due};
ghost use Rattle.acta_machine.specs.Conflicts.{stands_against, conflicting_holders, conflict_edges};
ghost use Rattle.acta_machine.specs.inside.Abstraction.{abstraction};
ghost use Rattle.acta_machine.specs.inside.Remembered.{IsRemembered};

use crate::machine_state::MachineState;
use acta_axioms::edges_wanted;
use acta_sets::Handle;
use acta_table::{Edge, Event, ObjId, Op, TxnId};
use acta_values::{first_conflict, holders_against, may_conflict};
use std::alloc::AllocError;
use std::collections::BTreeSet;

impl<A: Handle> MachineState<A> {
    /// The number of the first operation that conflicts with this one.
    pub(crate) fn first_conflict(
        &self,
        t: TxnId,
        ob: ObjId,
        op: &Op,
    ) -> Result<Option<u32>, AllocError>
        requires { IsRemembered self.now.store.lineage (abstraction self.now) }
        ensures { IfOk result (λ number. number ≡ first_number (stands_against self.now.model (abstraction self.now) t.0 ob op.now) self.now.store.items) }
    {
        let alloc = self.allocator();
        if !may_conflict(alloc, &self.model, self.operations(), t, ob, op) {
            return Ok(None);
        }
        if self.exempts_ancestors(t) && self.store.is_clear(t, ob, op) {
            return Ok(None);
        }
        let exempts = self.exempt_on(t, ob)?;
        let number = first_conflict(&self.model, self.operations(), t, &exempts, ob, op);
        Ok(number)
    }

    // The conflicting holders for this operation.
    fn conflicting_holders(
        &self,
        t: TxnId,
        ob: ObjId,
        op: &Op,
    ) -> Result<BTreeSet<u16, A>, AllocError>
        ensures { IfOk result (λ holders. holders.keys ≡ conflicting_holders self.now.model (abstraction self.now) t.0 ob op.now) }
    {
        let alloc = self.allocator();
        if !may_conflict(alloc, &self.model, self.operations(), t, ob, op) {
            return Ok(BTreeSet::new(alloc));
        }
        let exempts = self.exempt_on(t, ob)?;
        holders_against(alloc, &self.model, self.operations(), t, &exempts, ob, op)
    }

    /// The edges that the operation forms, by the policy of its transaction's class.
    pub(crate) fn conflict_edges(
        &self,
        t: TxnId,
        ob: ObjId,
        op: &Op,
    ) -> Result<Vec<Edge, A>, AllocError>
        ensures { IfOk result (λ edges. edges.items ≡ conflict_edges self.now.model (abstraction self.now) t ob op.now) }
    {
        let alloc = self.allocator();
        let Some(class) = self.class_of(t) else {
            return Ok(Vec::new(alloc));
        };
        if class.policy.refuses() {
            return Ok(Vec::new(alloc));
        }
        let holders = self.conflicting_holders(t, ob, op)?;
        class.policy.edges_upon(alloc, t, &holders)
    }

    /// The edges that the event forms, in order.
    pub(crate) fn edges_due(&self, event: &Event<A>) -> Result<Vec<Edge, A>, AllocError>
        ensures due { IfOk result (λ edges. edges.items ≡ edges_due self.now.model (abstraction self.now) event.now) }
        ensures faultless { lowest_fault self.now.model ≡ None }
    {
        let classes = self.model.classes();
        match event {
            Event::Operate(t, ob, op) => self.conflict_edges(*t, *ob, op),
            _ => edges_wanted(self.allocator(), classes, event),
        }
    }
}
