//! Cursors: debuggers that move when the machine is needed.

ghost use Rattle.std.specs.Prelude.{◌≡◌, ◌≤◌, length, Err, Ok, IfErr, IfOk, OnErr, OnOk};
ghost use Rattle.acta_machine.specs.Table.{answer_to};
ghost use Rattle.acta_debug.specs.Cursors.{arrived, moving};
ghost use Rattle.acta_debug.specs.Histories.{state_at};
ghost use Rattle.acta_debug.specs.Moves.{gone_to, stepped, stepped_back, taken, with_break, without_breaks};
ghost use Rattle.acta_debug.specs.Stops.{run_to_stop, stop_of};

use crate::breaks::{Break, Stop};
use crate::debugger::Debugger;
use crate::errors::MoveError;
use acta_machine::{Handle, Machine};
use acta_table::{Answer, Event, Model};
use std::alloc::AllocError;

/// A debugger whose machine moves only when it is needed: a move takes the same time wherever it leads, and moves that
/// follow one another cost nothing. Contracts see the debugger as if it had moved, and the place of its machine.
#[derive(Drop)]
pub struct Cursor<A: Handle> {
    debugger: Debugger<A>,
    at: u32,
}

impl<A: Handle> std::marker::Model for Cursor<A> {
    ghost use Rattle.std.specs.Prelude.{◌≤◌, length};
    ghost use Rattle.acta_debug.specs.Cursors.{CursorState};
    ghost use Rattle.acta_debug.specs.Sessions.{moved_to};

    ghost Value = { CursorState A };

    ghost view = { λ c. record { session = moved_to c.debugger c.at; reached = c.debugger.at } };

    ghost invariant = { λ c. c.at ≤ length c.debugger.history };
}

impl<A: Handle> Cursor<A> {
    /// A cursor at the place of the debugger.
    pub fn new(debugger: Debugger<A>) -> Cursor<A>
        ensures { result ≡ arrived debugger }
    {
        let at = debugger.at();
        Cursor { debugger, at }
    }

    /// How many events are before it: 0 at the start.
    pub fn at(&self) -> u32
        ensures at { result ≡ self.now.session.at }
        ensures within { self.now.session.at ≤ length self.now.session.history }
    {
        self.at
    }

    /// How many events the history has.
    pub fn last(&self) -> u32
        ensures { result ≡ length self.now.session.history }
    {
        self.debugger.last()
    }

    /// The model.
    pub fn model(&self) -> &Model<A>
        ensures { result.now ≡ self.now.session.model }
    {
        self.debugger.machine().model()
    }

    /// Moves one event further. `AtEnd` comes exactly where it is after the last event.
    pub fn step(&mut self) -> Result<(), MoveError>
        ensures ok { OnOk result (stepped self.old.session ≡ Ok self.new.session) }
        ensures only { IfErr result (λ e. stepped self.old.session ≡ Err e) }
        ensures err { OnErr result (self.new ≡ self.old) }
        ensures reached { self.new.reached ≡ self.old.reached }
    {
        if self.at >= self.last() {
            return Err(MoveError::AtEnd);
        }
        self.at += 1;
        Ok(())
    }

    /// Moves one event back. `AtStart` comes exactly where it is before the first event.
    pub fn back(&mut self) -> Result<(), MoveError>
        ensures ok { OnOk result (stepped_back self.old.session ≡ Ok self.new.session) }
        ensures only { IfErr result (λ e. stepped_back self.old.session ≡ Err e) }
        ensures err { OnErr result (self.new ≡ self.old) }
        ensures reached { self.new.reached ≡ self.old.reached }
    {
        if self.at == 0 {
            return Err(MoveError::AtStart);
        }
        self.at -= 1;
        Ok(())
    }

    /// Moves to the place after the first n events, of which 0 is the start. `OutOfRange` comes exactly where the history has
    /// fewer events.
    pub fn goto(&mut self, n: u32) -> Result<(), MoveError>
        ensures ok { OnOk result (gone_to self.old.session n ≡ Ok self.new.session) }
        ensures only { IfErr result (λ e. gone_to self.old.session n ≡ Err e) }
        ensures err { OnErr result (self.new ≡ self.old) }
        ensures reached { self.new.reached ≡ self.old.reached }
    {
        if n > self.last() {
            return Err(MoveError::OutOfRange);
        }
        self.at = n;
        Ok(())
    }

    /// Brings the machine to the place. `Err`, which comes if memory runs out, may leave it at another.
    pub fn settle(&mut self) -> Result<(), AllocError>
        ensures ok { OnOk result (self.new ≡ arrived self.old.session) }
        ensures same { self.new.session ≡ self.old.session }
    {
        self.debugger.come_to(self.at)
    }

    /// The machine: after `settle` the one at the place.
    pub fn machine(&self) -> &Machine<A>
        ensures machine { result.now ≡ state_at self.now.session.model self.now.session.history self.now.reached }
        ensures model { result.now.model ≡ self.now.session.model }
    {
        self.debugger.machine()
    }

    /// Has the machine take an event at the place, and answers as the machine does. An event that is admitted becomes the last
    /// of the history: the events after the place are forgotten. A refusal changes nothing. `Err`, which comes if memory runs
    /// out, may leave the machine at another place.
    pub fn take(&mut self, event: &Event<A>) -> Result<Answer, AllocError>
        ensures answer { IfOk result (λ answer. answer ≡ answer_to (state_at self.old.session.model self.old.session.history self.old.session.at) event.now) }
        ensures ok { OnOk result (self.new ≡ arrived (taken self.old.session event.now)) }
        ensures err { OnErr result (self.new.session ≡ self.old.session) }
    {
        self.settle()?;
        let answer = self.debugger.take(event)?;
        self.at = self.debugger.at();
        Ok(answer)
    }

    /// Runs on to the first place ahead at which a break holds, and answers it with the lowest number of a break that holds
    /// there; or to the end, where none does. `Err`, which comes if memory runs out, may leave the machine at another place.
    pub fn run(&mut self) -> Result<Stop, AllocError>
        ensures stop { IfOk result (λ stop. stop ≡ stop_of self.old.session) }
        ensures ok { OnOk result (self.new ≡ arrived (run_to_stop self.old.session)) }
        ensures err { OnErr result (self.new.session ≡ self.old.session) }
    {
        self.settle()?;
        let stop = self.debugger.run()?;
        self.at = self.debugger.at();
        Ok(stop)
    }

    /// Adds a break, and answers its number: the first has the number 1. `Err` leaves the breaks as they were.
    pub fn add_break(&mut self, one: Break) -> Result<u64, AllocError>
        ensures number { IfOk result (λ number. number ≡ length self.new.session.breaks) }
        ensures ok { OnOk result (self.new ≡ moving self.old (with_break self.old.session one)) }
        ensures err { OnErr result (self.new ≡ self.old) }
    {
        self.debugger.add_break(one)
    }

    /// Takes away all breaks: the next one has the number 1.
    pub fn clear_breaks(&mut self)
        ensures { self.new ≡ moving self.old (without_breaks self.old.session) }
    {
        self.debugger.clear_breaks();
    }
}
