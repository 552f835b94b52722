//! The debugger.

ghost use Rattle.std.specs.Prelude.{◌≡◌, ◌⊎◌, ◌<◌, ◌≤◌, ℕ, Ok, Err, filter, take, length, slice_index_or};
ghost use Rattle.std.specs.Prelude.{IfErr, IfOk, IfSome, IsOkUnless, OnErr, OnOk};
ghost use Rattle.acta_table.specs.declared.limits.TheConstants.{MOST_EVENTS};
ghost use Rattle.acta_machine.specs.Places.{FollowsPlaces};
ghost use Rattle.acta_machine.specs.Table.{State, answer_to, run_state};
ghost use Rattle.acta_debug.specs.Histories.{IsFirstOther, IsHistory, state_at};
ghost use Rattle.acta_debug.specs.Moves.{gone_to, stepped, stepped_back, taken, with_break, without_breaks};
ghost use Rattle.acta_debug.specs.Sessions.{moved_to, opened};
ghost use Rattle.acta_debug.specs.Stops.{IsStop, run_to_stop, stop_of};
ghost use Rattle.acta_debug.specs.inside.Shown.{AreFronts, IsFront, has_kept_within};
ghost use Rattle.acta_debug.specs.declared.errors.MoveError.{MoveError as Fault};
ghost use Rattle.acta_debug.specs.declared.errors.NewError.TheVariants as new;

use crate::breaks::{Break, Stop};
use crate::errors::{MoveError, NewError};
use crate::recording::{LEAST_DISTANCE, Recording};
use crate::replay::{accepted, take_events};
use crate::running::{place_of, run_on};
use acta_machine::{Handle, Machine};
use acta_table::{Answer, Event, Kept, MOST_EVENTS, Model};
use std::alloc::AllocError;
use std::mem::replace;

// The distance in events, at most, between a place and a checkpoint before it when moves go back one by one.
const NEAR: usize = 256;

/// A history, a place in it, the machine after the events before that place, and breaks. Contracts see the model, the
/// history, the number of events before the place, and the breaks.
#[derive(Drop)]
pub struct Debugger<A: Handle> {
    machine: Machine<A>,
    history: Vec<Kept<A>, A>,
    at: usize,
    breaks: Vec<Break, A>,
    // Machines after prefixes of the history, from which moves can start.
    checkpoints: Vec<Machine<A>, A>,
}

impl<A: Handle> std::marker::Model for Debugger<A> {
    ghost use Rattle.acta_debug.specs.Sessions.{Session};
    ghost use Rattle.acta_debug.specs.inside.Shown.{IsCurrent, session_of};

    ghost Value = { Session A };

    ghost view = { λ d. session_of d.machine d.history.items d.at d.breaks.items };

    ghost invariant = { λ d. IsCurrent d.machine d.history.items d.at d.checkpoints.items };
}

// Returns a copy of the items.
fn copied<A: Handle>(alloc: A, items: &[Kept<A>]) -> Result<Vec<Kept<A>, A>, AllocError>
    ensures { IfOk result (λ copies. copies.items ≡ items.now) }
{
    let mut copies = Vec::with_capacity(alloc, items.len())?;
    for item in items {
        copies.push(item.copy()?)?;
    }
    Ok(copies)
}

// The index of the machine with the longest history among those with at most `events` events.
fn nearest_of<A: Handle>(machines: &[Machine<A>], events: usize) -> Option<usize>
    ensures within { IfSome result (λ k. k < length machines.now) }
    ensures up_to { (t : State A) → IfSome result (λ k. length (slice_index_or machines.now k t).kept ≤ events) }
{
    let mut found = None;
    let mut most = 0;
    for (k, machine) in machines.iter().enumerate() {
        let kept = machine.history().len();
        if most <= kept && kept <= events {
            found = Some(k);
            most = kept;
        }
    }
    found
}

// Whether one of the machines has kept at least `least` and at most `most` events.
fn has_between<A: Handle>(machines: &[Machine<A>], least: usize, most: usize) -> bool {
    for machine in machines {
        let kept = machine.history().len();
        if least <= kept && kept <= most {
            return true;
        }
    }
    false
}

// How many events machine number `number` from the end (1 is the last) has kept, or 0 if there is none.
fn kept_from_end<A: Handle>(machines: &[Machine<A>], number: usize) -> usize {
    let Some(place) = machines.len().checked_sub(number) else {
        return 0;
    };
    match machines.get(place) {
        Some(machine) => machine.history().len(),
        None => 0,
    }
}

// Whether the machine has kept at most this many events.
fn has_kept_within<A: Handle>(machine: &Machine<A>, events: usize) -> bool
    ensures { result ≡ has_kept_within events machine.now }
{
    machine.history().len() <= events
}

// Keeps the machines that have kept at most this many events.
fn keep_within<A: Handle>(machines: &mut Vec<Machine<A>, A>, events: usize)
    ensures { machines.new.items ≡ filter (has_kept_within events) machines.old.items }
{
    machines.retain(|machine| has_kept_within(machine, events));
}

impl<A: Handle> Debugger<A> {
    /// A debugger on a history, at its start, with no breaks. It accepts exactly the lists that a machine on the model
    /// keeps as its history when it takes their events. Otherwise `NotAHistory` has the first place, from 1, at which
    /// the machine does not admit the event with the return in the list, so a list of more than 65,536 events is never
    /// accepted. Returns `Memory` if memory runs out. An error drops the model and the list.
    pub fn new(alloc: A, model: Model<A>, history: Vec<Kept<A>, A>) -> Result<Debugger<A>, NewError>
        ensures ok { IfOk result (λ debugger. debugger ≡ opened model history.items) }
        ensures only { OnOk result (IsHistory model history.items) }
        ensures accepted { IsHistory model history.items → IsOkUnless result new.Memory }
        ensures other { (n : ℕ) → result ≡ Err (new.NotAHistory n) → IsFirstOther model history.items n }
    {
        match accepted(alloc, &model, history.as_slice()) {
            Ok(checkpoints) => Ok(Debugger::at_start(alloc, model, history, checkpoints)?),
            Err(error) => {
                drop(model);
                drop(history);
                Err(error)
            }
        }
    }

    /// A debugger on the history that a machine on the model keeps of the events, at its start, with no breaks. The
    /// events are run once. `Err` drops the model.
    pub fn of_events(
        alloc: A,
        model: Model<A>,
        events: &[Event<A>],
    ) -> Result<Debugger<A>, AllocError>
        ensures { IfOk result (λ debugger. debugger ≡ opened model (run_state model events.now).kept) }
    {
        let mut recording = Recording::new(alloc, model.copy()?, events.len().min(MOST_EVENTS))?;
        recording.take_all(events)?;
        let history = copied(alloc, recording.machine().history())?;
        let checkpoints = recording.checkpoints()?;
        Ok(Debugger::at_start(alloc, model, history, checkpoints)?)
    }

    // A debugger on a history, at its start, with no breaks.
    fn at_start(
        alloc: A,
        model: Model<A>,
        history: Vec<Kept<A>, A>,
        checkpoints: Vec<Machine<A>, A>,
    ) -> Result<Debugger<A>, AllocError>
        requires whole { IsHistory model history.items }
        requires few { length history.items ≤ MOST_EVENTS }
        requires fronts { AreFronts model history.items checkpoints.items }
        ensures { IfOk result (λ debugger. debugger ≡ opened model history.items) }
    {
        match Machine::new(alloc, model) {
            Ok(machine) => Ok(Debugger {
                machine,
                history,
                at: 0,
                breaks: Vec::new(alloc),
                checkpoints,
            }),
            Err(error) => {
                drop(history);
                drop(checkpoints);
                Err(error)
            }
        }
    }

    /// Moves one event forward. Returns `AtEnd` exactly if the debugger is after the last event, and `Memory` if memory
    /// runs out. On an error it does not move.
    pub fn step(&mut self) -> Result<(), MoveError>
        ensures ok { OnOk result (stepped self.old ≡ Ok self.new) }
        ensures err { OnErr result (self.new ≡ self.old) }
        ensures blocked { (e : Fault) → stepped self.old ≡ Err e → result ≡ Err e }
        ensures only { IfErr result (λ e. (stepped self.old ≡ Err e) ⊎ (e ≡ MoveError.Memory)) }
    {
        let at = self.at;
        let history = self.history.as_slice();
        if at >= history.len() {
            return Err(MoveError::AtEnd);
        }
        self.machine.take(&history[at].event)?;
        self.at += 1;
        Ok(())
    }

    /// Moves one event back. Returns `AtStart` exactly if the debugger is before the first event, and `Memory` if
    /// memory runs out. On an error it does not move.
    pub fn back(&mut self) -> Result<(), MoveError>
        ensures ok { OnOk result (stepped_back self.old ≡ Ok self.new) }
        ensures err { OnErr result (self.new ≡ self.old) }
        ensures blocked { (e : Fault) → stepped_back self.old ≡ Err e → result ≡ Err e }
        ensures only { IfErr result (λ e. (stepped_back self.old ≡ Err e) ⊎ (e ≡ MoveError.Memory)) }
    {
        let at = self.at;
        if at == 0 {
            return Err(MoveError::AtStart);
        }
        self.draw_near(at - 1)?;
        self.move_machine(at - 1)?;
        Ok(())
    }

    /// Moves to the place after the first n events; 0 is the start. Returns `OutOfRange` exactly if the history has
    /// fewer events, and `Memory` if memory runs out. On an error it does not move.
    pub fn goto(&mut self, n: u32) -> Result<(), MoveError>
        ensures ok { OnOk result (gone_to self.old n ≡ Ok self.new) }
        ensures err { OnErr result (self.new ≡ self.old) }
        ensures blocked { (e : Fault) → gone_to self.old n ≡ Err e → result ≡ Err e }
        ensures only { IfErr result (λ e. (gone_to self.old n ≡ Err e) ⊎ (e ≡ MoveError.Memory)) }
    {
        self.come_near(n as usize);
        self.goto_place(n)
    }

    // Before a short move back, makes sure that a checkpoint is near, so that repeated moves back replay few events. If
    // memory runs out, there is none.
    fn come_near(&mut self, n: usize)
        ensures { self.new ≡ self.old }
    {
        if n < self.at && self.at - n <= LEAST_DISTANCE {
            let _near = self.draw_near(n);
        }
    }

    // Moves to the place after the first n events, as `goto` does.
    fn goto_place(&mut self, n: u32) -> Result<(), MoveError>
        ensures ok { OnOk result (gone_to self.old n ≡ Ok self.new) }
        ensures err { OnErr result (self.new ≡ self.old) }
        ensures blocked { (e : Fault) → gone_to self.old n ≡ Err e → result ≡ Err e }
        ensures only { IfErr result (λ e. (gone_to self.old n ≡ Err e) ⊎ (e ≡ MoveError.Memory)) }
    {
        if n > self.last() {
            return Err(MoveError::OutOfRange);
        }
        self.move_machine(n as usize)?;
        Ok(())
    }

    /// Lets the machine take an event at the current place, and returns its answer. An admitted event becomes the last
    /// of the history: later events are forgotten. A refusal changes nothing, and neither does `Err`.
    pub fn take(&mut self, event: &Event<A>) -> Result<Answer, AllocError>
        ensures answer { IfOk result (λ answer. answer ≡ answer_to (state_at self.old.model self.old.history self.old.at) event.now) }
        ensures ok { OnOk result (self.new ≡ taken self.old event.now) }
        ensures err { OnErr result (self.new ≡ self.old) }
    {
        let answer = self.take_here(event)?;
        // (without a checkpoint later moves only take longer)
        let _marked = self.mark();
        Ok(answer)
    }

    // Makes a checkpoint if the last one is not near. It replaces the last one if that is close to the one before it,
    // so that all checkpoints together hold about seventeen times the items of the history.
    fn mark(&mut self) -> Result<(), AllocError>
        ensures { self.new ≡ self.old }
    {
        let kept = self.machine.history().len();
        let last = kept_from_end(self.checkpoints.as_slice(), 1);
        if kept.saturating_sub(last) < LEAST_DISTANCE.max(kept / 64) {
            return Ok(());
        }
        let step = last.saturating_sub(kept_from_end(self.checkpoints.as_slice(), 2));
        self.leave(step < LEAST_DISTANCE.max(kept / 16))
    }

    // Stores a copy of the machine as a checkpoint, or as the last one if `replaces`. On `Err` none is stored.
    fn leave(&mut self, replaces: bool) -> Result<(), AllocError>
        ensures { self.new ≡ self.old }
    {
        self.checkpoints.reserve(1)?;
        let checkpoint = self.machine.copy()?;
        let count = self.checkpoints.len();
        if replaces && count > 0 {
            drop(replace(&mut self.checkpoints[count - 1], checkpoint));
        } else {
            self.checkpoints.push_reserved(checkpoint);
        }
        Ok(())
    }

    // Lets the machine take an event, as `take` does.
    fn take_here(&mut self, event: &Event<A>) -> Result<Answer, AllocError>
        ensures answer { IfOk result (λ answer. answer ≡ answer_to (state_at self.old.model self.old.history self.old.at) event.now) }
        ensures ok { OnOk result (self.new ≡ taken self.old event.now) }
        ensures err { OnErr result (self.new ≡ self.old) }
    {
        let at = self.at;
        let event_copy = event.copy()?;
        self.history.reserve(1)?;
        let answer = self.machine.take(event)?;
        match answer {
            Answer::Admitted { ret, .. } => {
                self.history.truncate(at);
                self.history.push_reserved(Kept {
                    event: event_copy,
                    ret,
                });
                keep_within(&mut self.checkpoints, at);
                self.at = self.machine.history().len();
            }
            Answer::Refused { .. } => drop(event_copy),
        }
        Ok(answer)
    }

    // A copy of the last checkpoint after at most n events, or a new machine.
    fn checkpoint_before(&self, n: usize) -> Result<Machine<A>, AllocError>
        ensures front { IfOk result (IsFront self.now.model self.now.history) }
        ensures before { IfOk result (λ machine. length machine.kept ≤ n) }
    {
        match nearest_of(self.checkpoints.as_slice(), n) {
            Some(k) => Ok(self.checkpoints[k].copy()?),
            None => {
                let model = self.machine.model().copy()?;
                Ok(Machine::new(*self.history.allocator(), model)?)
            }
        }
    }

    // A machine after at most n events: a copy of the current one unless a checkpoint is nearer.
    fn machine_before(&self, n: usize) -> Result<Machine<A>, AllocError>
        ensures front { IfOk result (IsFront self.now.model self.now.history) }
        ensures before { IfOk result (λ machine. length machine.kept ≤ n) }
    {
        if self.at > n || has_between(self.checkpoints.as_slice(), self.at, n) {
            return self.checkpoint_before(n);
        }
        Ok(self.machine.copy()?)
    }

    // The machine after the first n events.
    fn machine_at_place(&self, n: usize) -> Result<Machine<A>, AllocError>
        requires { n ≤ length self.now.history }
        ensures kept { IfOk result (λ machine. machine ≡ record { model = self.now.model; kept = take n self.now.history }) }
        ensures follows { IfOk result FollowsPlaces }
    {
        let mut machine = self.machine_before(n)?;
        let taken = machine.history().len();
        match take_events(&mut machine, &self.history.as_slice()[taken..n]) {
            Ok(()) => Ok(machine),
            Err(error) => {
                drop(machine);
                Err(error)
            }
        }
    }

    // Makes sure that a checkpoint is at most n and not many fewer events from the start, by moving the last one there
    // if necessary. Then repeated moves back replay few events. On `Err` nothing changes.
    fn draw_near(&mut self, n: usize) -> Result<(), AllocError>
        requires { n ≤ length self.old.history }
        ensures { self.new ≡ self.old }
    {
        let start = n.saturating_sub(NEAR);
        if has_between(self.checkpoints.as_slice(), start, n) {
            return Ok(());
        }
        let machine = self.machine_at_place(start)?;
        let count = self.checkpoints.len();
        if count == 0 {
            drop(machine);
        } else {
            drop(replace(&mut self.checkpoints[count - 1], machine));
        }
        Ok(())
    }

    // Moves one event further, again and again, to the place after the first n events. `Err` may leave it before that.
    fn step_to(&mut self, n: u32) -> Result<(), AllocError>
        requires { n ≤ length self.old.history }
        ensures ok { self.old.at ≤ n → OnOk result (self.new ≡ moved_to self.old n) }
        ensures same { moved_to self.new n ≡ moved_to self.old n }
    {
        for _ in self.at()..n {
            if self.step().is_err() {
                return Err(AllocError);
            }
        }
        Ok(())
    }

    // Moves to the place after the first n events, with the machine that it has where no checkpoint is nearer. `Err`, which comes
    // if memory runs out, may leave it at another place.
    pub(crate) fn come_to(&mut self, n: u32) -> Result<(), AllocError>
        requires { n ≤ length self.old.history }
        ensures ok { OnOk result (self.new ≡ moved_to self.old n) }
        ensures same { moved_to self.new n ≡ moved_to self.old n }
    {
        if self.at <= n as usize
            && !has_between(self.checkpoints.as_slice(), self.at + 1, n as usize)
        {
            return self.step_to(n);
        }
        match self.goto(n) {
            Ok(()) => Ok(()),
            Err(_) => Err(AllocError),
        }
    }

    // Moves to the place after the first n events. On `Err` the debugger does not move.
    fn move_machine(&mut self, n: usize) -> Result<(), AllocError>
        requires { n ≤ length self.old.history }
        ensures ok { OnOk result (self.new ≡ moved_to self.old n) }
        ensures err { OnErr result (self.new ≡ self.old) }
    {
        let machine = self.machine_at_place(n)?;
        drop(replace(&mut self.machine, machine));
        self.at = n;
        Ok(())
    }

    /// Runs to the next place at which a break holds, and returns the place and the lowest number of such a break; or
    /// to the end if there is none. Breaks are not tested at the current place. On `Err` the debugger does not move.
    pub fn run(&mut self) -> Result<Stop, AllocError>
        ensures stop { IfOk result (λ stop. stop ≡ stop_of self.old) }
        ensures first { IfOk result (IsStop self.old) }
        ensures ok { OnOk result (self.new ≡ run_to_stop self.old) }
        ensures err { OnErr result (self.new ≡ self.old) }
    {
        let history = self.history.as_slice();
        let mut machine = self.machine.copy()?;
        match run_on(&mut machine, history, self.at, &self.breaks) {
            Ok(stop) => {
                drop(replace(&mut self.machine, machine));
                self.at = place_of(stop, self.history.len());
                Ok(stop)
            }
            Err(error) => {
                drop(machine);
                Err(error)
            }
        }
    }
}

impl<A: Handle> Debugger<A> {
    /// The number of events before the current place: 0 at the start.
    pub fn at(&self) -> u32
        ensures at { result ≡ self.now.at }
        ensures within { self.now.at ≤ length self.now.history }
    {
        self.at as u32
    }

    /// The number of events of the history, at most 65,536.
    pub fn last(&self) -> u32
        ensures last { result ≡ length self.now.history }
        ensures few { length self.now.history ≤ MOST_EVENTS }
        ensures history { IsHistory self.now.model self.now.history }
    {
        self.history.len() as u32
    }

    /// The machine after the first `at()` events.
    pub fn machine(&self) -> &Machine<A>
        ensures machine { result.now ≡ state_at self.now.model self.now.history self.now.at }
        ensures kept { result.now ≡ record { model = self.now.model; kept = take self.now.at self.now.history } }
        ensures follows { FollowsPlaces result.now }
    {
        &self.machine
    }

    /// Adds a break, and returns its number, from 1. On `Err` the breaks are unchanged.
    pub fn add_break(&mut self, one: Break) -> Result<u64, AllocError>
        ensures number { IfOk result (λ number. number ≡ length self.new.breaks) }
        ensures ok { OnOk result (self.new ≡ with_break self.old one) }
        ensures err { OnErr result (self.new ≡ self.old) }
    {
        self.breaks.push(one)?;
        Ok(self.breaks.len() as u64)
    }

    /// Removes all breaks. The next one gets the number 1.
    pub fn clear_breaks(&mut self)
        ensures { self.new ≡ without_breaks self.old }
    {
        self.breaks.clear();
    }
}
