//! Programs, with the tables that a search needs.

ghost use Rattle.std.specs.Prelude.{◌≡◌, ◌≤◌, ◌++◌, ◌==◌, ◌&&◌, is_none, length, map, None, replicate, IfOk, IfSome, OnOk};
ghost use Rattle.std.specs.List.{list_any};
ghost use Rattle.acta_table.specs.Numbered.{item_at};
ghost use Rattle.acta_table.specs.Sets.{each_once};
ghost use Rattle.acta_table.specs.declared.limits.TheConstants.{MOST_EVENTS};
ghost use Rattle.acta_explore.specs.Outcomes.{alternatives_at, seats_of};
ghost use Rattle.acta_explore.specs.Programs.{event_at, event_now, is_operation, lines_done, next_from, number_now, number_of_line, operation_lines};
ghost use Rattle.acta_explore.specs.inside.Noting.{noted};
ghost use Rattle.acta_explore.specs.inside.Turns.{turns_at, turns_of_seat};

use crate::point::{Done, Point, Step, Turn};
use acta_machine::Handle;
use acta_script::ProgramLine;
use acta_table::{Event, OpNo, OpSet};
use std::alloc::{AllocError, Allocator};
use std::collections::BTreeSet;

/// The lines of all programs, with their seats and the lines that contain a `do`. Contracts see the lines.
#[derive(Drop)]
pub struct Plan<'a, A: Handle> {
    lines: &'a [ProgramLine<A>],
    // The seats, ascending.
    seats: Vec<u8, A>,
    // The positions of the lines that contain a `do`.
    operation_lines: Vec<usize, A>,
}

impl<'a, A: Handle> std::marker::Model for Plan<'a, A> {
    ghost use Rattle.std.specs.Prelude.{◌≡◌};
    ghost use Rattle.acta_explore.specs.Outcomes.{seats_of};
    ghost use Rattle.acta_explore.specs.Programs.{Programs, operation_lines as lines_with_operation};

    ghost Value = { Programs A };

    ghost view = { λ p. p.lines.now };

    ghost invariant = { λ p. record {
      seats : p.seats.items ≡ seats_of p.lines.now;
      operations : p.operation_lines.items ≡ lines_with_operation p.lines.now;
    } };
}

// Whether the line is of the seat, and was not done.
fn is_next<A: Handle>(line: &ProgramLine<A>, done: &Option<Done>, seat: u8) -> bool
    ensures { result ≡ ((line.now.seat == seat) && is_none done.now) }
{
    line.seat == seat && done.is_none()
}

// A table for this many lines, none of which is done.
fn undone<A: Allocator>(alloc: A, count: usize) -> Result<Vec<Option<Done>, A>, AllocError>
    ensures { IfOk result (λ table. table.items ≡ replicate count None) }
{
    let undone: Option<Done> = None;
    vec![in alloc; undone; count]
}

// Notes what a step did, if its line was not done before.
fn note<A: Allocator>(done: &mut Vec<Option<Done>, A>, step: &Step)
    ensures { done.new.items ≡ noted step.now done.old.items }
{
    let line = step.line;
    if line >= done.len() {
        return;
    }
    if done[line].is_some() {
        return;
    }
    done[line] = Some(step.done());
}

// The number of the operation that a line did.
fn number_of_line(steps: &[Step], line: usize) -> Option<usize>
    ensures number { result ≡ number_of_line steps.now line }
    ensures few { IfSome result (λ number. number ≤ length steps.now) }
{
    let mut number = 0;
    for step in steps {
        if step.ret.is_none() {
            continue;
        }
        number += 1;
        if step.line == line {
            return Some(number);
        }
    }
    None
}

// Whether the event is an operation.
fn is_operation<A: Allocator>(event: &Event<A>) -> bool
    ensures { result ≡ is_operation event.now }
{
    matches!(event, Event::Operate(_, _, _))
}

// Whether one of the events is an operation.
fn has_operation<A: Allocator>(events: &[Event<A>]) -> bool
    ensures { result ≡ list_any is_operation events.now }
{
    events.iter().any(|event| is_operation(event))
}

// The positions of the lines that contain a `do`.
fn operation_lines<A: Handle>(
    alloc: A,
    lines: &[ProgramLine<A>],
) -> Result<Vec<usize, A>, AllocError>
    ensures { IfOk result (λ positions. positions.items ≡ operation_lines lines.now) }
{
    let mut positions = Vec::new(alloc);
    for line in 0..lines.len() {
        if !has_operation(lines[line].alternatives.as_slice()) {
            continue;
        }
        positions.push(line)?;
    }
    Ok(positions)
}

// The seats of the lines, as a set.
fn seat_set<A: Handle>(alloc: A, lines: &[ProgramLine<A>]) -> Result<BTreeSet<u8, A>, AllocError>
    ensures { IfOk result (λ seats. seats.keys ≡ seats_of lines.now) }
{
    let mut seats = BTreeSet::new(alloc);
    for line in lines {
        seats.insert(line.seat)?;
    }
    Ok(seats)
}

/// The elements of the set, in order.
pub(crate) fn listed<T: Copy + Ord, A: Allocator + Copy>(
    alloc: A,
    set: &BTreeSet<T, A>,
) -> Result<Vec<T, A>, AllocError>
    ensures { IfOk result (λ list. list.items ≡ set.now.keys) }
{
    set.iter().copied().collect(alloc)
}

impl<'a, A: Handle> Plan<'a, A> {
    /// The plan of these lines.
    pub fn of(alloc: A, lines: &'a [ProgramLine<A>]) -> Result<Plan<'a, A>, AllocError>
        ensures { IfOk result (λ plan. plan ≡ lines.now) }
    {
        let seats = listed(alloc, &seat_set(alloc, lines)?)?;
        Ok(Plan {
            lines,
            seats,
            operation_lines: operation_lines(alloc, lines)?,
        })
    }

    /// The lines, in order.
    pub(crate) fn lines(&self) -> &[ProgramLine<A>]
        ensures { result.now ≡ self.now }
    {
        self.lines
    }

    /// The seats that have programs, ascending.
    pub(crate) fn seats(&self) -> &[u8]
        ensures { result.now ≡ seats_of self.now }
    {
        self.seats.as_slice()
    }

    /// How many alternatives the line has.
    pub(crate) fn alternatives_at(&self, line: usize) -> usize
        ensures { result ≡ alternatives_at self.now line }
    {
        match self.lines.get(line) {
            Some(line) => line.alternatives.as_slice().len(),
            None => 0,
        }
    }

    /// What each line did, by these steps.
    pub(crate) fn lines_done(
        &self,
        alloc: A,
        steps: &[Step],
    ) -> Result<Vec<Option<Done>, A>, AllocError>
        ensures { IfOk result (λ done. done.items ≡ lines_done self.now steps.now) }
    {
        let mut done = undone(alloc, self.lines.len())?;
        for step in steps {
            note(&mut done, step);
        }
        Ok(done)
    }

    /// The position of the seat's next line. `done` is what each line did.
    pub(crate) fn next_line(&self, done: &[Option<Done>], seat: u8) -> Option<usize>
        ensures { result ≡ next_from 0 self.now done.now seat }
    {
        for line in 0..self.lines.len() {
            let Some(did) = done.get(line) else {
                return None;
            };
            if is_next(&self.lines[line], did, seat) {
                return Some(line);
            }
        }
        None
    }

    // Appends the turns of a seat: one for each alternative of its next line.
    fn push_turns(
        &self,
        done: &[Option<Done>],
        seat: u8,
        turns: &mut Vec<Turn, A>,
    ) -> Result<(), AllocError>
        ensures { OnOk result (turns.new.items ≡ turns.old.items ++ turns_of_seat self.now done.now seat) }
    {
        let Some(line) = self.next_line(done, seat) else {
            return Ok(());
        };
        for alternative in 0..self.alternatives_at(line) {
            turns.push(Turn { seat, alternative })?;
        }
        Ok(())
    }

    /// The turns that may be tried, by seat and then by alternative. `done` is what each line did.
    pub(crate) fn turns(&self, alloc: A, done: &[Option<Done>]) -> Result<Vec<Turn, A>, AllocError>
        ensures { IfOk result (λ turns. turns.items ≡ turns_at self.now done.now) }
    {
        let mut turns = Vec::new(alloc);
        for seat in self.seats.as_slice() {
            self.push_turns(done, *seat, &mut turns)?;
        }
        Ok(turns)
    }

    /// The position of the line whose operation has this number in the programs. They number the lines that contain a `do`,
    /// in order from 1. `None` if no line has the number.
    pub fn operation_line(&self, op: OpNo) -> Option<usize>
        ensures { result ≡ item_at (operation_lines self.now) op.0 }
    {
        if op.0 == 0 {
            return None;
        }
        self.operation_lines.get(op.0 as usize - 1).copied()
    }

    // The machine's number for the operation of this number in the programs.
    fn number_now(&self, steps: &[Step], op: OpNo) -> OpNo
        requires { length steps.now ≤ MOST_EVENTS }
        ensures { result ≡ number_now self.now steps.now op }
    {
        let Some(line) = self.operation_line(op) else {
            return OpNo(0);
        };
        match number_of_line(steps, line) {
            Some(number) => OpNo(number as u32),
            None => OpNo(0),
        }
    }

    // The same for each of these operations.
    fn numbers_now(&self, alloc: A, steps: &[Step], ops: &OpSet<A>) -> Result<OpSet<A>, AllocError>
        requires { length steps.now ≤ MOST_EVENTS }
        ensures { IfOk result (λ set. set ≡ each_once (map (number_now self.now steps.now) ops.now)) }
    {
        let mut numbers = Vec::with_capacity(alloc, ops.as_slice().len())?;
        for op in ops.as_slice() {
            numbers.push(self.number_now(steps, *op))?;
        }
        OpSet::of(alloc, numbers.as_slice())
    }

    // The event with the machine's numbers of its operations.
    fn event_now(&self, alloc: A, steps: &[Step], event: &Event<A>) -> Result<Event<A>, AllocError>
        requires { length steps.now ≤ MOST_EVENTS }
        ensures { IfOk result (λ copy. copy ≡ event_now self.now steps.now event.now) }
    {
        match event {
            Event::Split(t, u, class, ops) => {
                let ops = self.numbers_now(alloc, steps, ops)?;
                Ok(Event::Split(*t, *u, *class, ops))
            }
            Event::Delegate(t, u, ops) => {
                let ops = self.numbers_now(alloc, steps, ops)?;
                Ok(Event::Delegate(*t, *u, ops))
            }
            Event::Begin(_, _)
            | Event::Spawn(_, _, _)
            | Event::Join(_, _)
            | Event::Form(_, _, _)
            | Event::Operate(_, _, _)
            | Event::Commit(_)
            | Event::Abort(_)
            | Event::Permit(_, _, _) => event.copy(),
        }
    }

    /// The event of an alternative of a line, both by their positions from 0, with the operation numbers of the machine at
    /// the point. `None` if there is no such line or alternative.
    pub fn event_at(
        &self,
        alloc: A,
        point: &Point<A>,
        line: usize,
        alternative: usize,
    ) -> Result<Option<Event<A>>, AllocError>
        ensures { IfOk result (λ event. event ≡ event_at self.now point.now.steps line alternative) }
    {
        point.lemma_few();
        let Some(line) = self.lines.get(line) else {
            return Ok(None);
        };
        match line.alternatives.as_slice().get(alternative) {
            Some(event) => Ok(Some(self.event_now(alloc, point.steps(), event)?)),
            None => Ok(None),
        }
    }
}
