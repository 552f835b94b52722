//! Recordings: a machine that takes events and makes checkpoints, copies of itself.

ghost use Rattle.std.specs.Prelude.{◌≡◌, IfOk, OnErr, OnOk};
ghost use Rattle.acta_machine.specs.Table.{after, after_all, answer_to, fresh};
ghost use Rattle.acta_debug.specs.inside.Shown.{AreFronts};

use acta_machine::{Handle, Machine};
use acta_table::{Answer, Event, Model};
use std::alloc::AllocError;

// The most checkpoints of a recording, and the least distance between them in events. A checkpoint holds all earlier
// items, so the checkpoints of the longest history hold about sixteen times its items.
const MOST_CHECKPOINTS: usize = 32;

pub const LEAST_DISTANCE: usize = 64;

// The distance between checkpoints for at most this many events.
fn distance_for(events: usize) -> usize {
    LEAST_DISTANCE * events.div_ceil(MOST_CHECKPOINTS * LEAST_DISTANCE).max(1)
}

/// A machine that takes events, and its checkpoints: earlier copies of it. Contracts see the machine.
#[derive(Drop)]
pub struct Recording<A: Handle> {
    machine: Machine<A>,
    checkpoints: Vec<Machine<A>, A>,
    // The distance between checkpoints in events, and the number of events after which the next one is due.
    distance: usize,
    due: usize,
}

impl<A: Handle> std::marker::Model for Recording<A> {
    ghost use Rattle.acta_machine.specs.Table.{State};
    ghost use Rattle.acta_debug.specs.inside.Shown.{AreFronts};

    ghost Value = { State A };

    ghost view = { λ r. r.machine };

    ghost invariant = { λ r. AreFronts r.machine.model r.machine.kept r.checkpoints.items };
}

impl<A: Handle> Recording<A> {
    /// A new recording, for at most this many events.
    pub fn new(alloc: A, model: Model<A>, events: usize) -> Result<Recording<A>, AllocError>
        ensures { IfOk result (λ recording. recording ≡ fresh model) }
    {
        let machine = Machine::new(alloc, model)?;
        let distance = distance_for(events);
        Ok(Recording {
            machine,
            checkpoints: Vec::new(alloc),
            distance,
            due: distance,
        })
    }

    /// The machine.
    pub fn machine(&self) -> &Machine<A>
        ensures { result.now ≡ self.now }
    {
        &self.machine
    }

    // Makes a checkpoint if one is due. On `Err` there is none.
    fn mark(&mut self) -> Result<(), AllocError>
        ensures { self.new ≡ self.old }
    {
        let taken = self.machine.history().len();
        if taken >= self.due {
            let checkpoint = self.machine.copy()?;
            self.checkpoints.push(checkpoint)?;
            self.due = taken.saturating_add(self.distance);
        }
        Ok(())
    }

    /// Takes one event. On `Err` it is not taken.
    pub fn take(&mut self, event: &Event<A>) -> Result<Answer, AllocError>
        ensures answer { IfOk result (λ answer. answer ≡ answer_to self.old event.now) }
        ensures ok { OnOk result (self.new ≡ after self.old event.now) }
        ensures err { OnErr result (self.new ≡ self.old) }
    {
        self.mark()?;
        let answer = self.machine.take(event)?;
        Ok(answer)
    }

    /// Takes the events, in order. On `Err` some may have been taken.
    pub fn take_all(&mut self, events: &[Event<A>]) -> Result<(), AllocError>
        ensures { OnOk result (self.new ≡ after_all self.old events.now) }
    {
        for event in events {
            self.take(event)?;
        }
        Ok(())
    }

    /// The checkpoints, followed by the machine itself.
    pub fn checkpoints(self) -> Result<Vec<Machine<A>, A>, AllocError>
        ensures { IfOk result (λ checkpoints. AreFronts self.model self.kept checkpoints.items) }
    {
        let mut checkpoints = self.checkpoints;
        checkpoints.push(self.machine)?;
        Ok(checkpoints)
    }
}
