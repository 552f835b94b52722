//! A run in words, event by event: its steps, and the words of each.

ghost use Rattle.std.specs.Prelude.{◌≡◌, not, map, IfOk, OnOk};
ghost use Rattle.acta_machine.specs.Table.{edges_in};
ghost use Rattle.acta_trace.specs.Steps.{is_admitted};
ghost use Rattle.acta_trace.specs.Traces.{not_begun};
ghost use Rattle.acta_prose.specs.Runs.{is_past, noted, noted_up_to};

use crate::lines::{LineIndex, StepText};
use crate::listing::MOST_LISTED;
use crate::phrases::{first_named, put_edges};
use crate::prose::Prose;
use crate::put;
use crate::reasons::Refused;
use acta_hope::why_and_hope;
use acta_io::NonBlankLine;
use acta_machine::{Handle, Machine, Reason};
use acta_table::{Answer, Edge, Event, LAST_TXN, Model, Rule, TxnId, lengthen};
use acta_trace::{Step, Trace};
use std::alloc::{AllocError, Allocator};

/// The most refused events of a run, and the most faults of a verdict, that are explained. Later ones are only counted, so
/// that millions of them cost neither time nor space.
pub const MOST_RENDERED: usize = 32_768;

// The most refused events that are remembered until one is admitted.
const MOST_REFUSED: usize = 64;

// How many edges a run may visit in searches for transactions that wait for each other. After that many visits the searches
// stop, so that a run with many edges and many waits isn't slow.
const MOST_LOOKS: usize = 2_000_000;

/// A run so far, in words. An event that was refused since the last admitted one is refused again for the same reason.
/// Contracts see the machine and the steps.
#[derive(Drop)]
pub struct RunTrace<A: Handle> {
    alloc: A,
    trace: Trace<A>,
    // One for each step.
    texts: Vec<StepText<A>, A>,
    // For each step why its event was refused, if it was.
    reasons: Vec<Option<Reason>, A>,
    // The places of the refused steps since the last admitted event.
    refused: Vec<usize, A>,
    // For each transaction the place of its last event, if that was refused.
    blocked: Vec<Option<usize>, A>,
    refused_steps: usize,
    skipped: usize,
    looks_left: usize,
}

// Why an event was refused, in lines, and the reason; nothing if it was admitted.
#[derive(Drop)]
struct Explained<A: Allocator> {
    text: String<A>,
    reason: Option<Reason>,
}

impl<A: Allocator> Explained<A> {
    // Of an event that was admitted.
    fn nothing(alloc: A) -> Explained<A> {
        Explained {
            text: String::new(alloc),
            reason: None,
        }
    }
}

// Whether the answer is a refusal.
fn is_refused(answer: &Answer) -> bool
    ensures { result ≡ not (is_admitted answer.now) }
{
    matches!(answer, Answer::Refused { .. })
}

impl<A: Handle> std::marker::Model for RunTrace<A> {
    ghost use Rattle.std.specs.Prelude.{◌≡◌};
    ghost use Rattle.acta_trace.specs.Traces.{Run};
    ghost use Rattle.acta_prose.specs.Runs.{count_refused};

    ghost Value = { Run A };

    ghost view = { λ run. run.trace };

    ghost invariant = { λ run. run.refused_steps ≡ count_refused run.trace.steps };
}

impl<A: Handle> RunTrace<A> {
    /// The run before any event.
    #[tactic(auto, unfolding(crate::specs::Runs::count_refused))]
    pub fn new(alloc: A, model: Model<A>) -> Result<RunTrace<A>, AllocError>
        ensures { IfOk result (λ run. run ≡ not_begun model) }
    {
        Ok(RunTrace {
            alloc,
            trace: Trace::new(alloc, model)?,
            texts: Vec::new(alloc),
            reasons: Vec::new(alloc),
            refused: Vec::new(alloc),
            blocked: Vec::new(alloc),
            refused_steps: 0,
            skipped: 0,
            looks_left: MOST_LOOKS,
        })
    }

    /// The allocator of the lists.
    pub fn allocator(&self) -> A {
        self.alloc
    }

    /// The machine that has taken the events.
    pub fn machine(&self) -> &Machine<A>
        ensures { result.now ≡ self.now.state }
    {
        self.trace.machine()
    }

    /// The steps.
    pub fn steps(&self) -> &[Step<A>]
        ensures { result.now ≡ self.now.steps }
    {
        self.trace.steps().as_slice()
    }

    /// The words of each step.
    pub fn texts(&self) -> &[StepText<A>] {
        self.texts.as_slice()
    }

    /// Why the event of the step of this number, from 0, was refused.
    pub fn reason(&self, number: usize) -> Option<Reason> {
        *self.reasons.get(number)?
    }

    /// The steps with their words.
    pub fn lines(&self) -> LineIndex<'_, A>
        ensures steps { result.steps.now.steps ≡ self.now.steps }
        ensures edges { result.edges.now ≡ edges_in self.now.state }
    {
        LineIndex {
            noun: "line",
            steps: self.trace.steps(),
            texts: self.texts.as_slice(),
            edges: self.machine().edges(),
        }
    }

    /// The steps, indexed by what they began and ended.
    pub fn trace(&self) -> &Trace<A>
        ensures { result.now ≡ self.now }
    {
        &self.trace
    }

    /// How many refused events have no step, because there were too many before.
    pub fn skipped(&self) -> usize {
        self.skipped
    }

    /// Takes the events, each with its line, up to the first that would get a place after the last one, where one is given.
    pub fn take_up_to(
        &mut self,
        events: Vec<Event<A>, A>,
        lines: &[NonBlankLine<'_>],
        last: Option<u32>,
    ) -> Result<(), AllocError>
        ensures { OnOk result (self.new ≡ noted_up_to last self.old (map (λ line. line.line) lines.now) events.items) }
    {
        let mut next = 0;
        for event in events {
            let Some(line) = lines.get(next) else {
                return Ok(());
            };
            if self.is_past(last, &event)? {
                return Ok(());
            }
            self.take(*line, event)?;
            next += 1;
        }
        Ok(())
    }

    // Whether the event would get a place after the last one.
    fn is_past(&self, last: Option<u32>, event: &Event<A>) -> Result<bool, AllocError>
        ensures { IfOk result (λ past. past ≡ is_past last self.now.state event.now) }
    {
        match last {
            Some(last) if self.machine().history().len() >= last as usize => {
                Ok(self.machine().why(event)?.is_none())
            }
            _ => Ok(false),
        }
    }

    /// Takes the event of the line. A refused event gets a step only if fewer than `MOST_RENDERED` refused ones have one.
    pub fn take(&mut self, line: NonBlankLine<'_>, event: Event<A>) -> Result<(), AllocError>
        ensures { OnOk result (self.new ≡ noted self.old line.entry.line event) }
    {
        let t = first_named(&event);
        let place = self.steps().len();
        let answer = self.take_event(line.line, event)?;
        if self.steps().len() == place {
            self.skipped = self.skipped.saturating_add(1);
            return Ok(());
        }
        let Explained { text, reason } = self.reason_for(t, place, answer)?;
        self.texts.push(StepText::of(self.alloc, line, text)?)?;
        self.reasons.push(reason)?;
        Ok(())
    }

    // Takes the event of the line, and returns the answer.
    #[tactic(auto, using(crate::proofs::Counted::counted))]
    fn take_event(&mut self, line: usize, event: Event<A>) -> Result<Answer, AllocError>
        ensures { OnOk result (self.new ≡ noted self.old line event) }
    {
        let is_kept = self.refused_steps < MOST_RENDERED;
        let answer = self.trace.take(line, event, is_kept)?;
        self.refused_steps += usize::from(is_kept && is_refused(&answer));
        Ok(answer)
    }

    // Why the event of the step at this place was refused, if it was. The transaction is noted as refused or not.
    fn reason_for(
        &mut self,
        t: TxnId,
        place: usize,
        answer: Answer,
    ) -> Result<Explained<A>, AllocError>
        ensures { self.new ≡ self.old }
    {
        match answer {
            Answer::Admitted { .. } => {
                self.unblock(t);
                Ok(Explained::nothing(self.alloc))
            }
            Answer::Refused { rule, .. } => {
                self.block(t, place)?;
                self.reason_at(place, rule)
            }
        }
    }

    // Notes that the last event of the transaction was admitted. No earlier refusal counts any more.
    fn unblock(&mut self, t: TxnId)
        ensures { self.new ≡ self.old }
    {
        self.refused.clear();
        if let Some(last) = self.blocked.get_mut(t.0 as usize) {
            *last = None;
        }
    }

    /// The last event of the transaction, if that was refused, and the place of its step.
    pub fn blocked(&self, t: TxnId) -> Option<(&Event<A>, usize)> {
        match self.blocked.get(t.0 as usize)? {
            Some(place) => Some((&self.steps().get(*place)?.event, *place)),
            None => None,
        }
    }

    /// An upper bound: no transaction with this number or a greater one has a last event that was refused.
    pub fn blocked_below(&self) -> u16 {
        u16::try_from(self.blocked.len()).unwrap_or(u16::MAX)
    }

    // Notes the step at this place, which was refused, as the last of the transaction.
    fn block(&mut self, t: TxnId, place: usize) -> Result<(), AllocError>
        ensures { self.new ≡ self.old }
    {
        if t.0 > LAST_TXN {
            return Ok(());
        }
        lengthen(&mut self.blocked, t.0 as usize + 1, None)?;
        if let Some(last) = self.blocked.get_mut(t.0 as usize) {
            *last = Some(place);
        }
        Ok(())
    }

    // The place of an earlier step that refused the same event as the one at this place, since the last admitted event.
    fn refused_before(&self, place: usize) -> Option<usize> {
        let event = &self.steps().get(place)?.event;
        for earlier in self.refused.iter() {
            if self.steps().get(*earlier)?.event.is_same(event) {
                return Some(*earlier);
            }
        }
        None
    }

    // Remembers the refused step at this place, unless too many are.
    fn remember(&mut self, place: usize) -> Result<(), AllocError>
        ensures { self.new ≡ self.old }
    {
        if self.refused.len() < MOST_REFUSED {
            self.refused.push(place)?;
        }
        Ok(())
    }

    // Whether a refusal by this rule may look for transactions that wait for each other.
    fn may_look(&mut self, rule: Rule) -> bool
        ensures { self.new ≡ self.old }
    {
        let looks = self.machine().edges().len();
        let may_look = looks <= self.looks_left;
        if rule == Rule::TerminationDep {
            self.looks_left = self.looks_left.saturating_sub(looks);
        }
        may_look
    }

    // Why this rule refuses the event of the step at this place. The step is remembered in case the event comes again.
    fn reason_at(&mut self, place: usize, rule: Rule) -> Result<Explained<A>, AllocError>
        ensures { self.new ≡ self.old }
    {
        if let Some(earlier) = self.refused_before(place) {
            return self.as_before(earlier);
        }
        self.remember(place)?;
        let may_look = self.may_look(rule);
        self.explained(place, may_look)
    }

    // Why the event of the step at this place was refused, as it was explained.
    fn as_before(&self, place: usize) -> Result<Explained<A>, AllocError> {
        let prose = Prose::new(self.alloc);
        let prose = match self.texts.get(place) {
            Some(text) => prose.put(text.reason.as_str()),
            None => prose,
        };
        Ok(Explained {
            text: prose.done()?,
            reason: self.reason(place),
        })
    }

    // Why the machine refuses the event of the step at this place.
    fn explained(&self, place: usize, looks_for_waits: bool) -> Result<Explained<A>, AllocError> {
        let nothing = Explained::nothing(self.alloc);
        let Some(step) = self.steps().get(place) else {
            return Ok(nothing);
        };
        let machine = self.machine();
        let Some((reason, hope)) = why_and_hope(machine, &step.event)? else {
            return Ok(nothing);
        };
        let refused = Refused {
            machine,
            lines: self.lines(),
            event: &step.event,
        };
        let prose = Prose::new(self.alloc);
        let text = refused
            .put_reason(prose, looks_for_waits, &reason, hope)
            .done()?;
        Ok(Explained {
            text,
            reason: Some(reason),
        })
    }

    /// Adds the operation that a step did, and the edges that it formed.
    pub fn put_formed(&self, prose: Prose<A>, step: &Step<A>) -> Prose<A> {
        put_formed(prose, self.machine().edges(), step)
    }
}

/// Adds the operation that a step did, and the edges that it formed; `edges` are all edges.
pub fn put_formed<A: Allocator>(prose: Prose<A>, edges: &[Edge], step: &Step<A>) -> Prose<A> {
    let prose = match step.op {
        Some(op) => put!(prose; "operation ", op.0),
        None => prose,
    };
    let formed = edges
        .get(step.edges_before..step.edges_after)
        .unwrap_or(&[]);
    put_edges(prose, step.edges_before, formed, MOST_LISTED)
}
