ghost use Rattle.std.specs.Prelude.{◌≡◌, ◌+◌, ◌<◌, ◌≤◌, ◌++◌, ◌∷◌, [], filter, min, length, Some, None, is_none, is_some, option_map, option_and_then, if◌then◌else◌, IfErr, IfOk, IfSome};
ghost use Rattle.std.specs.List.{list_any};
ghost use Rattle.std.specs.Option.{option_map_or};
ghost use Rattle.acta_table.specs.Classes.{can_do};
ghost use Rattle.acta_table.specs.declared.event.EventKind.{EventKind};
ghost use Rattle.acta_table.specs.Events.{partner};
ghost use Rattle.acta_table.specs.Faults.{lowest_fault};
ghost use Rattle.acta_table.specs.Numbered.{smallest};
ghost use Rattle.acta_table.specs.Refusals.{first_of};
ghost use Rattle.acta_table.specs.Sets.{is_named};
ghost use Rattle.acta_deps.specs.Blocks.{refusal_of as refusal_by, IsBlock};
ghost use Rattle.acta_deps.specs.Statuses.{has_ended, is_in_progress};
ghost use Rattle.acta_objects.specs.WellFormed.{form_refusal};
ghost use Rattle.acta_sets.specs.Operations.{operation_at};
ghost use Rattle.acta_machine.specs.Changes.{edges_due};
ghost use Rattle.acta_machine.specs.Reasons.{refusal_of, statuses_after, IsLack, IsSo};
ghost use Rattle.acta_machine.specs.Rules.{full, not_in_progress, already_begun, class_may, txn_may, forms_none, is_allowed, not_in_model, partner_not_in_progress, is_of_another, not_held, not_responsible, wants_whole, left_out, partial_delegation, unknown_in, bad_set, refuses_conflicts, conflict, too_late, form_too_late, edges_full, broken_before_conflict, broken_before_edges, dependency, no_heir, lowest_broken};
ghost use Rattle.acta_machine.specs.inside.Remembered.{IsRemembered};
ghost use Rattle.acta_machine.specs.inside.Abstraction.{abstraction};
ghost use Rattle.acta_machine.specs.inside.Broken.{rule_of, IsBroken};

use crate::lowest::Broken;
use crate::machine_state::MachineState;
use crate::reason::{Lack, NumberedOp, Reason};
use acta_deps::Block;
use acta_objects::form_fault;
use acta_sets::Handle;
use acta_table::{
    ClassId, Dep, Edge, Event, EventKind, Extent, MOST_EDGES, MOST_EVENTS, OpNo, OpSet, Refusal,
    Status, TxnId, lesser,
};
use std::alloc::{AllocError, Allocator};

// The transaction that is joined, delegated to or permitted, which must be in progress too.
fn partner_of<A: Allocator>(event: &Event<A>) -> Option<TxnId>
    ensures { partner event.now ≡ option_map (λ t. t.0) result }
{
    match event {
        Event::Join(_, u) | Event::Delegate(_, u, _) | Event::Permit(_, u, _) => Some(*u),
        _ => None,
    }
}

fn has_ended(status: Status) -> bool
    ensures { result ≡ has_ended status }
{
    !matches!(status, Status::NotBegun | Status::InProgress)
}

impl<A: Handle> MachineState<A> {
    #[tactic(auto, unfolding(crate::specs::Rules::full))]
    fn full(&self) -> Option<Reason>
        ensures refusal { option_map refusal_of result ≡ full (abstraction self.now) }
        ensures so { IfSome result (λ reason. reason ≡ Reason.Full) }
    {
        if self.kept.len() >= MOST_EVENTS {
            Some(Reason::Full)
        } else {
            None
        }
    }

    #[tactic(auto, unfolding(crate::specs::Rules::not_in_progress))]
    fn not_in_progress(&self, event: &Event<A>) -> Option<Reason>
        ensures refusal { option_map refusal_of result ≡ not_in_progress (abstraction self.now) event.now }
        ensures so { IfSome result (IsSo self.now.model (abstraction self.now) event.now) }
    {
        let txn = event.acting()?;
        match self.status(txn) {
            Status::InProgress => None,
            status => Some(Reason::NotInProgress { txn, status }),
        }
    }

    #[tactic(auto, unfolding(crate::specs::Rules::already_begun))]
    fn already_begun(&self, event: &Event<A>) -> Option<Reason>
        ensures refusal { option_map refusal_of result ≡ already_begun (abstraction self.now) event.now }
        ensures so { IfSome result (IsSo self.now.model (abstraction self.now) event.now) }
    {
        let txn = event.started()?;
        match self.status(txn) {
            Status::NotBegun => None,
            status => Some(Reason::AlreadyBegun { txn, status }),
        }
    }

    // Whether the class with this number may start by a begin.
    fn may_begin(&self, class: ClassId) -> bool
        ensures { result ≡ class_may self.now.model class.0 EventKind.Begin }
    {
        match self.model.class(class) {
            Some(class) => class.starts.begin,
            None => false,
        }
    }

    // Whether the class with this number may start by a spawn.
    fn may_be_spawned(&self, class: ClassId) -> bool
        ensures { result ≡ class_may self.now.model class.0 EventKind.Spawn }
    {
        match self.model.class(class) {
            Some(class) => class.starts.spawned,
            None => false,
        }
    }

    // Whether the class with this number may start by a split.
    fn may_be_split(&self, class: ClassId) -> bool
        ensures { result ≡ class_may self.now.model class.0 EventKind.Split }
    {
        match self.model.class(class) {
            Some(class) => class.starts.split,
            None => false,
        }
    }

    // Whether the transaction's class may do events of this kind.
    fn may(&self, t: TxnId, kind: EventKind) -> bool
        ensures { result ≡ txn_may self.now.model (abstraction self.now) t.0 kind }
    {
        match self.class_of(t) {
            Some(class) => class.may.has(kind),
            None => false,
        }
    }

    // Whether the transaction has begun with a class that may form no edges.
    fn forms_none(&self, t: TxnId) -> bool
        ensures { result ≡ forms_none self.now.model (abstraction self.now) t.0 }
    {
        self.status(t) != Status::NotBegun && !self.may(t, EventKind::Form)
    }

    // What the class lacks if it may not start by such an event.
    fn lacks_start(&self, class: ClassId, kind: EventKind, may: bool) -> Option<Lack>
        requires { may ≡ class_may self.now.model class.0 kind }
        ensures none { is_none result ≡ class_may self.now.model class.0 kind }
        ensures some { IfSome result (λ lack. lack ≡ Lack.Start class kind) }
    {
        if may {
            None
        } else {
            Some(Lack::Start { class, kind })
        }
    }

    // What the transaction's class lacks if it may not do events of this kind.
    fn lacks_doing(&self, txn: TxnId, kind: EventKind) -> Option<Lack>
        ensures none { is_none result ≡ txn_may self.now.model (abstraction self.now) txn.0 kind }
        ensures some { IfSome result (λ lack. lack ≡ Lack.Doing txn ((abstraction self.now).class txn.0) kind) }
    {
        if self.may(txn, kind) {
            None
        } else {
            let class = self.class_number(txn);
            Some(Lack::Doing { txn, class, kind })
        }
    }

    // What the transaction's class lacks if the transaction has begun and the class may not form edges.
    fn lacks_forming(&self, txn: TxnId) -> Option<Lack>
        ensures none { is_some result ≡ forms_none self.now.model (abstraction self.now) txn.0 }
        ensures some { IfSome result (λ lack. lack ≡ Lack.Doing txn ((abstraction self.now).class txn.0) EventKind.Form) }
    {
        if self.forms_none(txn) {
            self.lacks_doing(txn, EventKind::Form)
        } else {
            None
        }
    }

    // What the model lacks if no class may form edges.
    fn lacks_formers(&self) -> Option<Lack>
        ensures none { is_none result ≡ list_any (can_do EventKind.Form) self.now.model.classes }
        ensures some { IfSome result (λ lack. lack ≡ Lack.Forming) }
    {
        if self.model.may_form() {
            None
        } else {
            Some(Lack::Forming)
        }
    }

    // What the classes lack for the event, if anything.
    fn lack(&self, event: &Event<A>) -> Option<Lack>
        ensures none { is_none result ≡ is_allowed self.now.model (abstraction self.now) event.now }
        ensures so { IfSome result (IsLack self.now.model (abstraction self.now) event.now) }
    {
        let kind = event.kind();
        match event {
            Event::Begin(_, class) => self.lacks_start(*class, kind, self.may_begin(*class)),
            Event::Form(_, j, i) => {
                self.lacks_formers()
                    .or_else(|| self.lacks_forming(*j))
                    .or_else(|| self.lacks_forming(*i))
            }
            Event::Spawn(t, _, class) => {
                self.lacks_start(*class, kind, self.may_be_spawned(*class))
                    .or_else(|| self.lacks_doing(*t, kind))
            }
            Event::Split(t, _, class, _) => {
                self.lacks_start(*class, kind, self.may_be_split(*class))
                    .or_else(|| self.lacks_doing(*t, kind))
            }
            Event::Join(t, _) => self.lacks_doing(*t, kind),
            Event::Delegate(t, _, _) => self.lacks_doing(*t, kind),
            Event::Operate(t, _, _) => self.lacks_doing(*t, kind),
            Event::Commit(t) => self.lacks_doing(*t, kind),
            Event::Abort(t) => self.lacks_doing(*t, kind),
            Event::Permit(t, _, _) => self.lacks_doing(*t, kind),
        }
    }

    #[tactic(auto, unfolding(crate::specs::Rules::not_in_model))]
    fn not_in_model(&self, event: &Event<A>) -> Option<Reason>
        ensures refusal { option_map refusal_of result ≡ not_in_model self.now.model (abstraction self.now) event.now }
        ensures so { IfSome result (IsSo self.now.model (abstraction self.now) event.now) }
    {
        let lack = self.lack(event)?;
        Some(Reason::NotInModel(lack))
    }

    #[tactic(auto, unfolding(crate::specs::Rules::partner_not_in_progress))]
    fn partner_not_in_progress(&self, event: &Event<A>) -> Option<Reason>
        ensures refusal { option_map refusal_of result ≡ partner_not_in_progress (abstraction self.now) event.now }
        ensures so { IfSome result (IsSo self.now.model (abstraction self.now) event.now) }
    {
        let txn = partner_of(event)?;
        match self.status(txn) {
            Status::InProgress => None,
            status => Some(Reason::PartnerNotInProgress { txn, status }),
        }
    }

    // The operation with this number, if there is one.
    fn numbered(&self, number: u32) -> Option<NumberedOp>
        ensures held { option_map (λ op. op.held) result ≡ operation_at (abstraction self.now).operations number }
        ensures number { IfSome result (λ op. op.number.0 ≡ number) }
    {
        let number = OpNo(number);
        let held = self.operations().operation(number)?;
        Some(NumberedOp { number, held })
    }

    // Whether the operation exists and the transaction does not hold it in progress.
    fn is_of_another(&self, t: TxnId, op: OpNo) -> bool
        ensures { result ≡ is_of_another (abstraction self.now) t.0 op.0 }
    {
        match self.operations().operation(op) {
            Some(item) => !item.is_held(t),
            None => false,
        }
    }

    // The smallest of these operations that exists and that the transaction does not hold in progress.
    #[tactic(auto, using(acta_table::proofs::Smallest::least_is_smallest))]
    fn not_held(&self, ops: &[OpNo], t: TxnId) -> Option<u32>
        ensures { result ≡ not_held (abstraction self.now) ops.now t.0 }
    {
        let mut least = None;
        for op in ops {
            if self.is_of_another(t, *op) {
                least = lesser(least, op.0);
            }
        }
        least
    }

    #[tactic(auto, unfolding(crate::specs::Rules::not_responsible))]
    fn not_responsible(&self, event: &Event<A>) -> Option<Reason>
        ensures refusal { option_map refusal_of result ≡ not_responsible (abstraction self.now) event.now }
        ensures so { IfSome result (IsSo self.now.model (abstraction self.now) event.now) }
    {
        let (Event::Split(t, _, _, ops) | Event::Delegate(t, _, ops)) = event else {
            return None;
        };
        let number = self.not_held(ops.as_slice(), *t)?;
        let op = self.numbered(number)?;
        Some(Reason::NotResponsible(op))
    }

    // Whether the transaction's class requires it to transfer all that it holds.
    fn wants_whole(&self, t: TxnId) -> bool
        ensures { result ≡ wants_whole self.now.model (abstraction self.now) t.0 }
    {
        match self.class_of(t) {
            Some(class) => matches!(class.extent, Extent::Whole),
            None => false,
        }
    }

    // The smallest operation that the transaction holds in progress and that is not named.
    fn left_out(&self, ops: &OpSet<A>, t: TxnId) -> Option<u32>
        ensures { result ≡ left_out (abstraction self.now) ops.now t.0 }
    {
        self.operations().first_left_out(t, ops)
    }

    #[tactic(auto, unfolding(crate::specs::Rules::partial_delegation))]
    fn partial_delegation(&self, event: &Event<A>) -> Option<Reason>
        ensures refusal { option_map refusal_of result ≡ partial_delegation self.now.model (abstraction self.now) event.now }
        ensures so { IfSome result (IsSo self.now.model (abstraction self.now) event.now) }
    {
        let (Event::Split(t, _, _, ops) | Event::Delegate(t, _, ops)) = event else {
            return None;
        };
        if !self.wants_whole(*t) {
            return None;
        }
        let number = self.left_out(ops, *t)?;
        let op = self.numbered(number)?;
        Some(Reason::PartialDelegation(op))
    }

    // The smallest of these operations that does not exist.
    #[tactic(auto, using(acta_table::proofs::Smallest::least_is_smallest))]
    fn unknown_in(&self, ops: &[OpNo]) -> Option<u32>
        ensures { result ≡ unknown_in (abstraction self.now) ops.now }
    {
        let mut least = None;
        for op in ops {
            if self.operations().operation(*op).is_none() {
                least = lesser(least, op.0);
            }
        }
        least
    }

    #[tactic(auto, unfolding(crate::specs::Rules::bad_set))]
    fn bad_set(&self, event: &Event<A>) -> Option<Reason>
        ensures refusal { option_map refusal_of result ≡ bad_set (abstraction self.now) event.now }
        ensures so { IfSome result (IsSo self.now.model (abstraction self.now) event.now) }
    {
        let (Event::Split(_, _, _, ops) | Event::Delegate(_, _, ops)) = event else {
            return None;
        };
        let number = OpNo(self.unknown_in(ops.as_slice())?);
        let operations = self.operations().operations().len();
        Some(Reason::BadSet { number, operations })
    }

    // Whether the transaction's class refuses conflicting operations.
    fn refuses_conflicts(&self, t: TxnId) -> bool
        ensures { result ≡ refuses_conflicts self.now.model (abstraction self.now) t.0 }
    {
        match self.class_of(t) {
            Some(class) => class.policy.refuses(),
            None => false,
        }
    }

    #[tactic(auto, unfolding(crate::specs::Rules::conflict))]
    fn conflict(&self, event: &Event<A>) -> Result<Option<Reason>, AllocError>
        requires { IsRemembered self.now.store.lineage (abstraction self.now) }
        ensures refusal { IfOk result (λ reason. option_map refusal_of reason ≡ conflict self.now.model (abstraction self.now) event.now) }
        ensures so { IfOk result (λ reason. IfSome reason (IsSo self.now.model (abstraction self.now) event.now)) }
    {
        let Event::Operate(t, ob, op) = event else {
            return Ok(None);
        };
        if !self.refuses_conflicts(*t) {
            return Ok(None);
        }
        let Some(number) = self.first_conflict(*t, *ob, op)? else {
            return Ok(None);
        };
        match self.numbered(number) {
            Some(op) => Ok(Some(Reason::Conflict(op))),
            None => Ok(None),
        }
    }

    // The smaller of j and i that has ended.
    fn smaller_ended(&self, j: TxnId, i: TxnId) -> Option<TxnId>
        ensures { option_map (λ t. t.0) result ≡ smallest (filter (λ t. has_ended ((abstraction self.now).status t)) (j.0 ∷ i.0 ∷ [])) }
    {
        match (has_ended(self.status(j)), has_ended(self.status(i))) {
            (true, true) => Some(if j.0 <= i.0 { j } else { i }),
            (true, false) => Some(j),
            (false, true) => Some(i),
            (false, false) => None,
        }
    }

    // The smaller of j and i that has already begun or ended, so that an edge of this kind comes too late.
    fn too_late(&self, kind: Dep, j: TxnId, i: TxnId) -> Option<TxnId>
        ensures { option_map (λ t. t.0) result ≡ too_late (abstraction self.now) kind j.0 i.0 }
    {
        if !kind.is_begin_kind() {
            return self.smaller_ended(j, i);
        }
        if self.status(j) == Status::NotBegun {
            None
        } else {
            Some(j)
        }
    }

    #[tactic(auto, unfolding(crate::specs::Rules::form_too_late))]
    fn form_too_late(&self, event: &Event<A>) -> Option<Reason>
        ensures refusal { option_map refusal_of result ≡ form_too_late (abstraction self.now) event.now }
        ensures so { IfSome result (IsSo self.now.model (abstraction self.now) event.now) }
    {
        let Event::Form(kind, j, i) = event else {
            return None;
        };
        let txn = self.too_late(*kind, *j, *i)?;
        let status = self.status(txn);
        Some(Reason::FormTooLate { txn, status })
    }

    // The reason if, with these edges formed, more would be in force than allowed.
    #[tactic(auto, unfolding(crate::specs::Rules::edges_full))]
    fn edges_full(&self, event: &Event<A>, due: &[Edge]) -> Option<Reason>
        requires { due.now ≡ edges_due self.now.model (abstraction self.now) event.now }
        ensures refusal { option_map refusal_of result ≡ edges_full self.now.model (abstraction self.now) event.now }
        ensures so { IfSome result (λ it. it ≡ Reason.EdgesFull) }
    {
        let room = MOST_EDGES - self.deps.edges().len();
        // (if all would fit, counting the new ones is unnecessary)
        if due.len() > room && self.deps.lacks(due) > room {
            Some(Reason::EdgesFull)
        } else {
            None
        }
    }

    // The fault in the event's form.
    fn bad_form(&self, event: &Event<A>) -> Option<Reason>
        ensures refusal { option_map refusal_of result ≡ form_refusal self.now.model event.now }
        ensures so { IfSome result (IsSo self.now.model (abstraction self.now) event.now) }
    {
        let fault = form_fault(&self.model, event)?;
        Some(Reason::Form(fault))
    }

    // The reason for the lowest broken rule among Full, the form rules, NotInProgress and AlreadyBegun.
    fn ill_timed(&self, event: &Event<A>) -> Option<Reason>
        ensures refusal { option_map refusal_of result ≡ first_of (full (abstraction self.now) ∷ form_refusal self.now.model event.now ∷ not_in_progress (abstraction self.now) event.now ∷ already_begun (abstraction self.now) event.now ∷ []) }
        ensures so { IfSome result (IsSo self.now.model (abstraction self.now) event.now) }
    {
        self.full()
            .or_else(|| self.bad_form(event))
            .or_else(|| self.not_in_progress(event))
            .or_else(|| self.already_begun(event))
    }

    // The reason for the lowest broken rule on transferred operations.
    fn ill_transferred(&self, event: &Event<A>) -> Option<Reason>
        ensures refusal { option_map refusal_of result ≡ first_of (not_responsible (abstraction self.now) event.now ∷ partial_delegation self.now.model (abstraction self.now) event.now ∷ bad_set (abstraction self.now) event.now ∷ []) }
        ensures so { IfSome result (IsSo self.now.model (abstraction self.now) event.now) }
    {
        self.not_responsible(event)
            .or_else(|| self.partial_delegation(event))
            .or_else(|| self.bad_set(event))
    }

    // The reason for the lowest broken rule before Conflict.
    fn before_conflict(&self, event: &Event<A>) -> Option<Reason>
        ensures refusal { option_map refusal_of result ≡ broken_before_conflict self.now.model (abstraction self.now) event.now }
        ensures so { IfSome result (IsSo self.now.model (abstraction self.now) event.now) }
    {
        self.ill_timed(event)
            .or_else(|| self.not_in_model(event))
            .or_else(|| self.partner_not_in_progress(event))
            .or_else(|| self.ill_transferred(event))
    }

    /// The reason for the lowest broken rule before EdgesFull.
    pub(crate) fn broken_before_edges(&self, event: &Event<A>) -> Result<Option<Reason>, AllocError>
        requires { IsRemembered self.now.store.lineage (abstraction self.now) }
        ensures refusal { IfOk result (λ reason. option_map refusal_of reason ≡ broken_before_edges self.now.model (abstraction self.now) event.now) }
        ensures so { IfOk result (λ reason. IfSome reason (IsSo self.now.model (abstraction self.now) event.now)) }
    {
        if let Some(reason) = self.before_conflict(event) {
            return Ok(Some(reason));
        }
        if let Some(reason) = self.conflict(event)? {
            return Ok(Some(reason));
        }
        Ok(self.form_too_late(event))
    }

    #[tactic(auto, unfolding(crate::specs::Rules::no_heir))]
    fn no_heir(&self, event: &Event<A>) -> Option<Reason>
        ensures refusal { option_map refusal_of result ≡ no_heir self.now.model (abstraction self.now) event.now }
        ensures so { IfSome result (IsSo self.now.model (abstraction self.now) event.now) }
    {
        let Event::Commit(t) = event else {
            return None;
        };
        let parent = self.heir(*t)?;
        match self.status(parent) {
            Status::InProgress => None,
            status => Some(Reason::NoHeir { parent, status }),
        }
    }

    // What blocks the event because of the edges in force.
    fn block(&self, event: &Event<A>) -> Option<Block>
        ensures refusal { option_map refusal_by result ≡ dependency (abstraction self.now) event.now }
        ensures so { IfSome result (IsBlock (abstraction self.now).status (statuses_after (abstraction self.now).status event.now) (abstraction self.now).edges) }
    {
        match event {
            Event::Begin(t, _) => self.deps.block(*t, Status::InProgress),
            Event::Spawn(_, c, _) => self.deps.block(*c, Status::InProgress),
            Event::Split(_, u, _, _) => self.deps.block(*u, Status::InProgress),
            Event::Join(t, _) => self.deps.block(*t, Status::Joined),
            Event::Commit(t) => self.deps.block(*t, Status::Committed),
            Event::Abort(t) => self.deps.block(*t, Status::Aborted),
            Event::Delegate(_, _, _)
            | Event::Form(_, _, _)
            | Event::Operate(_, _, _)
            | Event::Permit(_, _, _) => None,
        }
    }

    // The same, as a reason.
    fn why_by_edges(&self, event: &Event<A>) -> Option<Reason>
        ensures refusal { option_map refusal_of result ≡ dependency (abstraction self.now) event.now }
        ensures so { IfSome result (IsSo self.now.model (abstraction self.now) event.now) }
    {
        match self.block(event)? {
            Block::Edge(blocking_edge) => Some(Reason::Blocked(blocking_edge)),
            Block::Clash(clash) => Some(Reason::Clash(clash)),
        }
    }

    // The lowest rule on dependencies that the event breaks.
    fn broken_by_edges(&self, event: &Event<A>) -> Option<Refusal>
        ensures { result ≡ dependency (abstraction self.now) event.now }
    {
        match event {
            Event::Begin(t, _) => self.deps.may_start(*t),
            Event::Spawn(_, c, _) => self.deps.may_start(*c),
            Event::Split(_, u, _, _) => self.deps.may_start(*u),
            Event::Join(t, _) => self.deps.may_join(*t),
            Event::Commit(t) => self.deps.may_commit(*t),
            Event::Abort(t) => self.deps.may_abort(*t),
            Event::Delegate(_, _, _)
            | Event::Form(_, _, _)
            | Event::Operate(_, _, _)
            | Event::Permit(_, _, _) => None,
        }
    }

    /// The lowest broken rule, for an event that would form these edges and breaks no rule before EdgesFull.
    pub(crate) fn broken_from_edges(&self, event: &Event<A>, due: &[Edge]) -> Option<Broken>
        requires due { due.now ≡ edges_due self.now.model (abstraction self.now) event.now }
        requires none_before { broken_before_edges self.now.model (abstraction self.now) event.now ≡ None }
        ensures refusal { option_map rule_of result ≡ lowest_broken self.now.model (abstraction self.now) event.now }
        ensures so { IfSome result (IsBroken self.now.model (abstraction self.now) event.now) }
    {
        if let Some(reason) = self.edges_full(event, due) {
            return Some(Broken::For(reason));
        }
        if let Some(refusal) = self.broken_by_edges(event) {
            return Some(Broken::ByEdges(refusal));
        }
        let reason = self.no_heir(event)?;
        Some(Broken::For(reason))
    }

    /// The edges that the event forms if it breaks no rule, otherwise the lowest rule that it breaks.
    pub(crate) fn admission(
        &self,
        event: &Event<A>,
    ) -> Result<Result<Vec<Edge, A>, Broken>, AllocError>
        requires { IsRemembered self.now.store.lineage (abstraction self.now) }
        ensures refusal { IfOk result (λ outcome. IfErr outcome (λ broken. lowest_broken self.now.model (abstraction self.now) event.now ≡ Some (rule_of broken))) }
        ensures so { IfOk result (λ outcome. IfErr outcome (IsBroken self.now.model (abstraction self.now) event.now)) }
        ensures none { IfOk result (λ outcome. IfOk outcome (λ _. lowest_broken self.now.model (abstraction self.now) event.now ≡ None)) }
        ensures due { IfOk result (λ outcome. IfOk outcome (λ due. due.items ≡ edges_due self.now.model (abstraction self.now) event.now)) }
        ensures faultless { IfOk result (λ outcome. IfOk outcome (λ _. lowest_fault self.now.model ≡ None)) }
    {
        if let Some(reason) = self.broken_before_edges(event)? {
            return Ok(Err(Broken::For(reason)));
        }
        let due = self.edges_due(event)?;
        match self.broken_from_edges(event, &due) {
            Some(broken) => Ok(Err(broken)),
            None => Ok(Ok(due)),
        }
    }

    /// The reason of an event that breaks this rule.
    pub(crate) fn reason_for(&self, event: &Event<A>, broken: Broken) -> Option<Reason>
        requires { IsBroken self.now.model (abstraction self.now) event.now broken }
        ensures refusal { option_map refusal_of result ≡ Some (rule_of broken) }
        ensures so { IfSome result (IsSo self.now.model (abstraction self.now) event.now) }
    {
        match broken {
            Broken::For(reason) => Some(reason),
            Broken::ByEdges(_) => self.why_by_edges(event),
        }
    }

    /// Why the event is refused, or `None` if it breaks no rule.
    pub(crate) fn why(&self, event: &Event<A>) -> Result<Option<Reason>, AllocError>
        requires { IsRemembered self.now.store.lineage (abstraction self.now) }
        ensures refusal { IfOk result (λ reason. option_map refusal_of reason ≡ lowest_broken self.now.model (abstraction self.now) event.now) }
        ensures so { IfOk result (λ reason. IfSome reason (IsSo self.now.model (abstraction self.now) event.now)) }
    {
        match self.admission(event)? {
            Ok(_due) => Ok(None),
            Err(broken) => Ok(self.reason_for(event, broken)),
        }
    }
}
