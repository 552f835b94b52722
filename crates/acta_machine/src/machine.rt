ghost use Rattle.std.specs.Prelude.{◌≡◌, ◌<◌, ◌≤◌, All, true, false, [], length, map, None, Some, Err, OnOk, OnErr, IfOk, IfSome, option_map, ℕ};
ghost use Rattle.acta_table.specs.Faults.{lowest_fault};
ghost use Rattle.acta_table.specs.WellFormed.{is_bad_number};
ghost use Rattle.acta_machine.specs.Changes.{edges_due, summary_of};
ghost use Rattle.acta_machine.specs.Rules.{lowest_broken};
ghost use Rattle.acta_axioms.specs.Claims.{status_at};
ghost use Rattle.acta_axioms.specs.History.{class_number, parent_of};
ghost use Rattle.acta_axioms.specs.Permits.{is_permitted};
ghost use Rattle.acta_sets.specs.Permits.{is_listed, permit_cmp};
ghost use Rattle.std.specs.List.Sorted.{IsStrictlySortedBy};
ghost use Rattle.acta_axioms.specs.Edges as edges_by_places;
ghost use Rattle.acta_axioms.specs.Legal as debts_by_places;
ghost use Rattle.acta_axioms.specs.Operations as by_places;
ghost use Rattle.acta_axioms.specs.Serial.{is_strict, serial_order, replayed};
ghost use Rattle.acta_axioms.specs.SerialItems.{serial_items};
ghost use Rattle.acta_machine.specs.Places.{FollowsPlaces, op_numbers, value_at};
ghost use Rattle.acta_machine.specs.Table.{fresh, answer_to, answers_to, after, after_all, run_answers, run_state, status_in, class_in, parent_in, permitted_in, value_in, access_set_in, conflict_set_in, view_set_in, edges_in, operations_in, refusal_in, op_added, debts_in};
ghost use Rattle.acta_machine.specs.Reasons.{refusal_of, IsSo};
ghost use Rattle.acta_machine.specs.inside.Broken.{rule_of, IsBroken};
ghost use Rattle.acta_deps.specs.Waiting.{IsChain, IsClosed, StartsWith};

use crate::lowest::Broken;
use crate::machine_state::MachineState;
use crate::reason::Reason;
use crate::refused::{Refused, broken_among, keep_refused};
use crate::serial::SerialError;
use acta_axioms::{SerialItem, is_strict, serial_items};
use acta_deps::Deps;
use acta_objects::ObjectState;
use acta_sets::{Handle, HeldOp, Permit, Permits};
use acta_table::{
    Answer, ClassId, Edge, Event, Items, Kept, MOST_EDGES, MOST_EVENTS, Model, ObjId, OpNo, Owed,
    Refusal, Status, TABLE_SIZE, TxnId,
};
use acta_values::Store;
use std::alloc::{AllocError, Allocator};

/// Admits or refuses events of transactions by its model. Contracts see the model and the history.
#[derive(Drop)]
pub struct Machine<A: Handle> {
    machine_state: MachineState<A>,
    // Events that were refused since the last event that was admitted.
    refused: Vec<Refused<A>, A>,
}

impl<A: Handle> std::marker::Model for Machine<A> {
    ghost use Rattle.std.specs.Prelude.{◌≡◌, ◌≤◌, length};
    ghost use Rattle.acta_machine.specs.Table.{State};

    ghost Value = { State A };

    ghost use Rattle.acta_machine.specs.Changes.{summary_of};
    ghost use Rattle.acta_machine.specs.inside.Refused.{AreRefused};
    ghost use Rattle.acta_machine.specs.inside.Abstraction.{abstraction};
    ghost use Rattle.acta_machine.specs.inside.Remembered.{IsRemembered};
    ghost use Rattle.acta_machine.specs.Places.{FollowsPlaces};
    ghost use Rattle.acta_values.specs.KeptValues.{kinds_of};
    ghost use Rattle.acta_table.specs.declared.limits.TheConstants.{MOST_EVENTS, TABLE_SIZE};

    ghost view = { λ m. record { model = m.machine_state.model; kept = m.machine_state.kept.items } };

    ghost invariant = { λ m. record {
      agrees : abstraction m.machine_state ≡ summary_of m.machine_state.model m.machine_state.kept.items;
      records : length m.machine_state.records.items ≤ TABLE_SIZE;
      remembered : IsRemembered m.machine_state.store.lineage (abstraction m.machine_state);
      kinds : m.machine_state.store.kinds ≡ kinds_of m.machine_state.model.objects;
      within : length m.machine_state.kept.items ≤ MOST_EVENTS;
      follows : FollowsPlaces (record { model = m.machine_state.model; kept = m.machine_state.kept.items });
      refused : AreRefused m.machine_state.model (abstraction m.machine_state) m.refused.items;
    } };
}

impl<A: Handle> Machine<A> {
    /// A new machine on the model, with an empty history.
    pub fn new(alloc: A, model: Model<A>) -> Result<Machine<A>, AllocError>
        ensures fresh { IfOk result (λ machine. machine ≡ fresh model) }
        ensures follows { IfOk result FollowsPlaces }
    {
        let store = Store::new(alloc, model.objects())?;
        let machine_state = MachineState {
            model,
            deps: Deps::new(alloc),
            records: Vec::new(alloc),
            store,
            permits: Permits::new(alloc),
            kept: Vec::new(alloc),
        };
        Ok(Machine {
            machine_state,
            refused: Vec::new(alloc),
        })
    }

    /// Takes one event: admits and keeps it, or refuses it with the lowest rule that it breaks. A refusal leaves the
    /// machine unchanged, and so does `Err`.
    #[tactic(auto, unfolding(crate::specs::Table::answer_to, crate::specs::Table::after))]
    pub fn take(&mut self, event: &Event<A>) -> Result<Answer, AllocError>
        ensures answer { IfOk result (λ answer. answer ≡ answer_to self.old event.now) }
        ensures ok { OnOk result (self.new ≡ after self.old event.now) }
        ensures err { OnErr result (self.new ≡ self.old) }
        // Statuses, holders, fates and edges are those defined by places; the history satisfies the axioms; and the
        // rules on dependencies refuse exactly those next events that would make the history illegal.
        ensures follows { FollowsPlaces self.new }
    {
        if let Some(broken) = self.known_refusal(event) {
            return Ok(broken.answer());
        }
        match self.machine_state.admission(event)? {
            Ok(due) => self.keep(event, &due),
            Err(broken) => {
                self.note_refusal(event, broken);
                Ok(broken.answer())
            }
        }
    }

    /// Takes one event as `take` does. Also returns the number of the operation that the event adds, and how many edges
    /// were in force before it (new edges follow these).
    pub fn take_forming(&mut self, event: &Event<A>) -> Result<Formed, AllocError>
        ensures answer { IfOk result (λ formed. formed.answer ≡ answer_to self.old event.now) }
        ensures op { IfOk result (λ formed. formed.op ≡ op_added self.old event.now) }
        ensures edges { IfOk result (λ formed. formed.edges_before ≡ length (edges_in self.old)) }
        ensures ok { OnOk result (self.new ≡ after self.old event.now) }
        ensures err { OnErr result (self.new ≡ self.old) }
        ensures follows { FollowsPlaces self.new }
    {
        let edges_before = self.edges().len();
        let operations_before = self.operations().len();
        let answer = self.take(event)?;
        let operations = self.operations().len();
        let op = if operations_before < operations {
            Some(OpNo(operations as u32))
        } else {
            None
        };
        Ok(Formed {
            answer,
            op,
            edges_before,
        })
    }

    /// Returns why the event would be refused next: the rule and number that `take` would answer, and the part of the
    /// machine's state that breaks the rule. `None` if the event would be admitted. Right after `take` has refused the
    /// event, no rule is evaluated again.
    pub fn why(&self, event: &Event<A>) -> Result<Option<Reason>, AllocError>
        ensures refusal { IfOk result (λ reason. option_map refusal_of reason ≡ refusal_in self.now event.now) }
        ensures so { IfOk result (λ reason. IfSome reason (IsSo self.now.model (summary_of self.now.model self.now.kept) event.now)) }
    {
        match self.known_refusal(event) {
            Some(broken) => Ok(self.reason_for(event, broken)),
            None => self.machine_state.why(event),
        }
    }

    /// Returns a chain of transactions from `t` on, each waiting for the next to commit or abort, by a termination
    /// dependency in force between the two, both in progress. The last occurs in the chain earlier. The transactions of
    /// this cycle cannot commit or abort unless another event ends one of them. `None` if no such chain was found.
    pub fn waits_for_cycle(&self, t: TxnId) -> Result<Option<Items<TxnId, A>>, AllocError>
        ensures chain { IfOk result (λ found. IfSome found (IsChain (status_in self.now) (edges_in self.now))) }
        ensures closed { IfOk result (λ found. IfSome found IsClosed) }
        ensures start { IfOk result (λ found. IfSome found (StartsWith t)) }
    {
        self.machine_state.deps.waits_for_cycle(t)
    }

    // The lowest rule that the event breaks, if it was refused since the last admitted event.
    fn known_refusal(&self, event: &Event<A>) -> Option<Broken>
        ensures refusal { IfSome result (λ broken. lowest_broken self.now.model (summary_of self.now.model self.now.kept) event.now ≡ Some (rule_of broken)) }
        ensures so { IfSome result (IsBroken self.now.model (summary_of self.now.model self.now.kept) event.now) }
        ensures follows { FollowsPlaces self.now }
    {
        broken_among(&self.refused, event)
    }

    // The reason of an event that breaks this rule.
    fn reason_for(&self, event: &Event<A>, broken: Broken) -> Option<Reason>
        requires { IsBroken self.now.model (summary_of self.now.model self.now.kept) event.now broken }
        ensures refusal { option_map refusal_of result ≡ Some (rule_of broken) }
        ensures so { IfSome result (IsSo self.now.model (summary_of self.now.model self.now.kept) event.now) }
    {
        self.machine_state.reason_for(event, broken)
    }

    // Remembers the lowest rule that the event breaks.
    fn note_refusal(&mut self, event: &Event<A>, broken: Broken)
        requires refusal { lowest_broken self.old.model (summary_of self.old.model self.old.kept) event.now ≡ Some (rule_of broken) }
        requires so { IsBroken self.old.model (summary_of self.old.model self.old.kept) event.now broken }
        ensures same { self.new ≡ self.old }
        ensures follows { FollowsPlaces self.new }
    {
        keep_refused(&mut self.refused, event, broken);
    }

    // Keeps an event that breaks no rule, and forms these edges. On `Err` nothing changes.
    #[tactic(auto, unfolding(crate::specs::Table::answer_to, crate::specs::Table::after))]
    fn keep(&mut self, event: &Event<A>, due: &[Edge]) -> Result<Answer, AllocError>
        requires none { lowest_broken self.old.model (summary_of self.old.model self.old.kept) event.now ≡ None }
        requires due { due.now ≡ edges_due self.old.model (summary_of self.old.model self.old.kept) event.now }
        requires faultless { lowest_fault self.old.model ≡ None }
        ensures answer { IfOk result (λ answer. answer ≡ answer_to self.old event.now) }
        ensures ok { OnOk result (self.new ≡ after self.old event.now) }
        ensures err { OnErr result (self.new ≡ self.old) }
        ensures follows { FollowsPlaces self.new }
    {
        self.machine_state.deps.lemma_invariant();
        let place = self.machine_state.next_place(event);
        let ret = self.machine_state.return_of(event);
        let kept = Kept {
            event: event.copy()?,
            ret,
        };
        self.machine_state.make_room()?;
        self.machine_state.admit(event, kept, due)?;
        self.refused.clear();
        Ok(Answer::Admitted { place, ret })
    }

    /// Takes the events, in order, on a new machine on the model.
    pub fn run(alloc: A, model: Model<A>, events: &[Event<A>]) -> Result<Run<A>, AllocError>
        ensures answers { IfOk result (λ run. run.answers ≡ run_answers model events.now) }
        ensures machine { IfOk result (λ run. run.machine ≡ run_state model events.now) }
        ensures follows { IfOk result (λ run. FollowsPlaces run.machine) }
    {
        let mut machine = Machine::new(alloc, model)?;
        let answers = machine.take_all(alloc, events)?;
        Ok(Run { answers, machine })
    }

    // Takes the events, in order.
    fn take_all(&mut self, alloc: A, events: &[Event<A>]) -> Result<Items<Answer, A>, AllocError>
        requires { FollowsPlaces self.old }
        ensures answers { IfOk result (λ answers. answers ≡ answers_to self.old events.now) }
        ensures machine { OnOk result (self.new ≡ after_all self.old events.now) }
        ensures follows { OnOk result (FollowsPlaces self.new) }
    {
        let mut answers = Vec::new(alloc);
        for event in events {
            answers.push(self.take(event)?)?;
        }
        Ok(Items::of(answers))
    }

    /// The value of an object: its initial value after the operations that are not aborted, in order. `None` if the
    /// object is not in the model.
    pub fn value(&self, ob: ObjId) -> Result<Option<ObjectState<A>>, AllocError>
        ensures value { IfOk result (λ value. value ≡ value_in self.now ob.0) }
        ensures places { IfOk result (λ value. value ≡ value_at self.now ob.0) }
    {
        self.machine_state.value(ob)
    }

    /// The access set: the operations in progress that the transaction holds, ascending. Empty for a number that no
    /// transaction can have.
    pub fn access_set(&self, t: TxnId) -> Result<Vec<OpNo, A>, AllocError>
        ensures set { IfOk result (λ numbers. numbers.items ≡ access_set_in self.now t.0) }
        ensures places { IfOk result (λ numbers. numbers.items ≡ op_numbers (by_places.access_set self.now.model self.now.kept t.0)) }
        ensures nobody { IfOk result (λ numbers. is_bad_number t.0 ≡ true → numbers.items ≡ []) }
    {
        self.machine_state.access_set(t)
    }

    /// The conflict set: the operations in progress that others hold and that are not exempt, ascending. It is defined
    /// also after the transaction has ended.
    pub fn conflict_set(&self, t: TxnId) -> Result<Vec<OpNo, A>, AllocError>
        ensures set { IfOk result (λ numbers. numbers.items ≡ conflict_set_in self.now t.0) }
        ensures places { IfOk result (λ numbers. numbers.items ≡ op_numbers (by_places.conflict_set self.now.model self.now.kept t.0)) }
    {
        self.machine_state.conflict_set(t)
    }

    /// The view: the operations that are not aborted, ascending.
    pub fn view_set(&self) -> Result<Vec<OpNo, A>, AllocError>
        ensures set { IfOk result (λ numbers. numbers.items ≡ view_set_in self.now) }
        ensures places { IfOk result (λ numbers. numbers.items ≡ op_numbers (by_places.view_set self.now.model self.now.kept)) }
    {
        self.machine_state.operations().view_set()
    }

    /// The debts by edge number: events that transactions must still do, because another has committed or aborted.
    pub fn owed(&self) -> Result<Vec<Owed, A>, AllocError>
        ensures debts { IfOk result (λ owed. owed.items ≡ debts_in self.now) }
        ensures places { IfOk result (λ owed. owed.items ≡ debts_by_places.owed self.now.model self.now.kept) }
    {
        self.machine_state.owed()
    }

    /// The serial order of the history: the committed operations, grouped by holder, in the order of the commits, and
    /// within a group in the order of the history. Replayed in this order from the initial values, without aborted
    /// operations and those in progress, each returns what it returned in the history. Returns `NotStrict` if the model
    /// is not strict, and `Memory` if memory runs out.
    pub fn serial(&self) -> Result<Items<SerialItem, A>, SerialError>
        ensures items { IfOk result (λ items. items ≡ serial_items self.now.model self.now.kept) }
        ensures in_model { IfOk result (λ items. All (λ item. item.ob.0 < length self.now.model.objects) items) }
        ensures replayed { IfOk result (λ items. replayed self.now.model (serial_order self.now.model self.now.kept) ≡ map (λ item. Some item.ret) items) }
        ensures refused { is_strict self.now.model ≡ false → result ≡ Err SerialError.NotStrict }
        ensures strict { result ≡ Err SerialError.NotStrict → is_strict self.now.model ≡ false }
    {
        if !is_strict(&self.machine_state.model) {
            return Err(SerialError::NotStrict);
        }
        let kept = self.history();
        Ok(serial_items(
            self.machine_state.allocator(),
            &self.machine_state.model,
            kept,
        )?)
    }

    /// Returns a copy of the machine.
    pub fn copy(&self) -> Result<Machine<A>, AllocError>
        ensures { IfOk result (λ machine. machine ≡ self.now) }
    {
        Ok(Machine {
            machine_state: self.machine_state.copy()?,
            refused: Vec::new(self.machine_state.allocator()),
        })
    }
}

impl<A: Handle> Machine<A> {
    /// The machine's model.
    pub fn model(&self) -> &Model<A>
        ensures { result.now ≡ self.now.model }
    {
        &self.machine_state.model
    }

    /// The status of the transaction. A number that no transaction can have has not begun.
    pub fn status(&self, t: TxnId) -> Status
        ensures status { result ≡ status_in self.now t.0 }
        ensures places { result ≡ status_at self.now.kept t.0 }
        ensures nobody { is_bad_number t.0 ≡ true → result ≡ Status.NotBegun }
    {
        self.machine_state.status(t)
    }

    /// The class that the transaction began with, or `None` if it has not begun.
    pub fn class(&self, t: TxnId) -> Option<ClassId>
        ensures class { result ≡ class_in self.now t.0 }
        ensures places { option_map (λ class. class.0) result ≡ class_number self.now.kept t.0 }
    {
        self.machine_state.class_number(t)
    }

    /// The parent: the transaction that spawned this one. `None` if it began in another way, or has not begun.
    pub fn parent(&self, t: TxnId) -> Option<TxnId>
        ensures parent { result ≡ parent_in self.now t.0 }
        ensures places { result ≡ parent_of self.now.kept t.0 }
    {
        self.machine_state.parent(t)
    }

    /// All permits in force, each once, ordered by receiver, then by object, then by giver.
    pub fn permits(&self) -> Result<Vec<Permit, A>, AllocError>
        ensures permits { IfOk result (λ list. (h t object : ℕ) → is_listed list.items h t object ≡ permitted_in self.now h t object) }
        ensures places { IfOk result (λ list. (h t object : ℕ) → is_listed list.items h t object ≡ is_permitted self.now.kept h t object) }
        ensures ascending { IfOk result (λ list. IsStrictlySortedBy permit_cmp list.items) }
    {
        self.machine_state.permits.listed()
    }

    /// A bound on transaction numbers: none of this number or above has begun, or has a class or a parent.
    pub fn known_txns(&self) -> usize
        ensures status { (t : ℕ) → result ≤ t → status_in self.now t ≡ Status.NotBegun }
        ensures class { (t : ℕ) → result ≤ t → class_in self.now t ≡ None }
        ensures parent { (t : ℕ) → result ≤ t → parent_in self.now t ≡ None }
        ensures few { result ≤ TABLE_SIZE }
    {
        self.machine_state.known_txns()
    }

    /// The edges in force, in order of forming, each once: at most 16,384, numbered from 1.
    pub fn edges(&self) -> &[Edge]
        ensures edges { result.now ≡ edges_in self.now }
        ensures places { result.now ≡ edges_by_places.edges self.now.model self.now.kept }
        ensures few { length (edges_in self.now) ≤ MOST_EDGES }
    {
        self.machine_state.deps.edges()
    }

    /// The operations in order, each with its holder and fate: at most 65,536, numbered from 1.
    pub fn operations(&self) -> &[HeldOp]
        ensures operations { result.now ≡ operations_in self.now }
        ensures few { length (operations_in self.now) ≤ MOST_EVENTS }
    {
        self.machine_state.operations().operations()
    }

    /// The history: the admitted events with their returns, in order; at most 65,536.
    pub fn history(&self) -> &[Kept<A>]
        ensures history { result.now ≡ self.now.kept }
        ensures within { length self.now.kept ≤ MOST_EVENTS }
        // The axioms, legality, and everything else stated at `take`.
        ensures follows { FollowsPlaces self.now }
    {
        self.machine_state.kept.as_slice()
    }
}

/// The outcome of an event.
#[derive(Clone, Copy, PartialEq, Eq, Debug)]
pub struct Formed {
    /// The answer to it.
    pub answer: Answer,
    /// The number of the operation that the event added, if it did.
    pub op: Option<OpNo>,
    /// How many edges were in force before the event; the edges that it formed follow these.
    pub edges_before: usize,
}

/// The result of a run: the answer to each event, and the machine after the last.
#[derive(Drop)]
pub struct Run<A: Handle> {
    pub answers: Items<Answer, A>,
    pub machine: Machine<A>,
}
