//! Why seats wait at an end, the deadlocks among them, and the debts.

use crate::programs::Programs;
use acta_explore::{Debt, Done, Outcome, Point, Wait, deadlock};
use acta_hope::never_begin;
use acta_machine::{Handle, Reason};
use acta_prose::{Prose, Refused, RunTrace, put, put_barred, put_prospect, put_standing};
use acta_table::{Event, Missing, OpNo, OpSet};

// The operations that the event names.
fn operations_of<A: Handle>(event: &Event<A>) -> Option<&OpSet<A>> {
    match event {
        Event::Split(_, _, _, ops) | Event::Delegate(_, _, ops) => Some(ops),
        _ => None,
    }
}

// Whether the line did an operation.
fn did_operation(lines: &[Option<Done>], line: usize) -> bool {
    match lines.get(line) {
        Some(Some(done)) => done.ret.is_some(),
        _ => false,
    }
}

// Adds that no line does an operation with this number, or that it was not done; nothing if it was.
fn put_undone<A: Handle>(
    prose: Prose<A>,
    programs: &Programs<'_, A>,
    lines: &[Option<Done>],
    op: OpNo,
) -> Prose<A> {
    let Some(line) = programs.plan.operation_line(op) else {
        return put!(prose; "BadSet: the programs have no line with an operation ", op.0, ".\n");
    };
    if did_operation(lines, line) {
        return prose;
    }
    let prose = put!(prose; "BadSet: operation ", op.0, " belongs to line ", programs.number(line),
        " (");
    programs
        .put_line(prose, line)
        .put("), which has not done it.\n")
}

// Adds the first of the operations that was not done; nothing if all were.
fn put_first_undone<A: Handle>(
    prose: Prose<A>,
    programs: &Programs<'_, A>,
    lines: &[Option<Done>],
    ops: &OpSet<A>,
) -> Prose<A> {
    for op in ops.as_slice() {
        let undone = put_undone(Prose::new(programs.alloc), programs, lines, *op);
        if !undone.is_empty() {
            return prose.add(undone);
        }
    }
    prose
}

// Adds an operation that the alternative of the line names and that was not done; nothing if all were.
fn put_bad_set<A: Handle>(
    prose: Prose<A>,
    programs: &Programs<'_, A>,
    lines: &[Option<Done>],
    line: usize,
    alternative: usize,
) -> Prose<A> {
    let Some(found) = programs.lines.get(line) else {
        return prose;
    };
    let Some(event) = found.alternatives.as_slice().get(alternative) else {
        return prose;
    };
    match operations_of(event) {
        Some(ops) => put_first_undone(prose, programs, lines, ops),
        None => prose,
    }
}

// Adds why the event is refused, without the hope, since no later event comes.
fn put_facts<A: Handle>(
    prose: Prose<A>,
    run: &RunTrace<A>,
    event: &Event<A>,
    reason: &Reason,
) -> Prose<A> {
    let refused = Refused {
        machine: run.machine(),
        lines: run.lines(),
        event,
    };
    refused.put_facts(prose, reason)
}

// Whether an event names an operation of the programs that was not done: the machine's number for it is then 0.
fn is_undone(reason: &Reason) -> bool {
    match reason {
        Reason::BadSet { number, .. } => number.0 == 0,
        _ => false,
    }
}

// Adds why an alternative of the line is refused, in lines.
fn put_reason<A: Handle>(
    prose: Prose<A>,
    programs: &Programs<'_, A>,
    (outcome, point, run): (&Outcome<A>, &Point<A>, &RunTrace<A>),
    line: usize,
    alternative: usize,
) -> Prose<A> {
    let alloc = programs.alloc;
    let event = match programs.plan.event_at(alloc, point, line, alternative) {
        Ok(Some(event)) => event,
        Ok(None) => return prose,
        Err(_) => return prose.fail(),
    };
    let reason = match run.machine().why(&event) {
        Ok(Some(reason)) => reason,
        Ok(None) => return prose,
        Err(_) => return prose.fail(),
    };
    if is_undone(&reason) {
        put_bad_set(prose, programs, outcome.lines.as_slice(), line, alternative)
    } else {
        put_facts(prose, run, &event, &reason)
    }
}

// Adds why an alternative of the line is refused, in lines that begin with the alternative if there are several.
fn put_alternative<A: Handle>(
    prose: Prose<A>,
    programs: &Programs<'_, A>,
    end: (&Outcome<A>, &Point<A>, &RunTrace<A>),
    line: usize,
    alternative: usize,
) -> Prose<A> {
    let prose = if programs.alternatives(line) > 1 {
        programs.put_alternative(prose, line, alternative).put(": ")
    } else {
        prose
    };
    put_reason(prose, programs, end, line, alternative)
}

// Adds the line at which a seat waits, and why.
fn put_wait<A: Handle>(
    prose: Prose<A>,
    programs: &Programs<'_, A>,
    end: (&Outcome<A>, &Point<A>, &RunTrace<A>),
    wait: &Wait<A>,
) -> Prose<A> {
    let line = wait.line;
    let prose = put!(prose; "  seat ", wait.seat, " waits at line ", programs.number(line), ": ");
    let mut prose = programs.put_line(prose, line).put("\n");
    for alternative in 0..programs.alternatives(line) {
        let text = Prose::new(programs.alloc);
        let (text, has_failed) = put_alternative(text, programs, end, line, alternative).parts();
        prose = put_barred(prose, 4, text.as_str());
        if has_failed {
            return prose.fail();
        }
    }
    prose
}

/// Adds for each seat that is not done the line at which it waits, and why.
pub(crate) fn put_waits<A: Handle>(
    mut prose: Prose<A>,
    programs: &Programs<'_, A>,
    end: (&Outcome<A>, &Point<A>, &RunTrace<A>),
) -> Prose<A> {
    for wait in end.0.waits.iter() {
        prose = put_wait(prose, programs, end, wait);
    }
    prose
}

// Adds a chain of seats, each of which waits for the next.
fn put_circle<A: Handle>(prose: Prose<A>, circle: &[u8]) -> Prose<A> {
    let mut prose = prose.put("  deadlock:");
    let mut is_first = true;
    for seat in circle {
        prose = put!(prose; if is_first { " " } else { " -> " }, "seat ", *seat);
        is_first = false;
    }
    prose.put("\n")
}

/// Adds the deadlocks among seats, one cycle each.
pub(crate) fn put_deadlocks<A: Handle>(
    mut prose: Prose<A>,
    programs: &Programs<'_, A>,
    waits: &[Wait<A>],
    point: &Point<A>,
) -> Prose<A> {
    let alloc = programs.alloc;
    let mut named: Vec<u8, A> = Vec::new(alloc);
    for wait in waits {
        if named.contains(&wait.seat) {
            continue;
        }
        match deadlock(alloc, programs.plan, point, wait.seat) {
            Ok(Some(circle)) => {
                prose = put_circle(prose, circle.as_slice());
                if named.extend_from_slice(circle.as_slice()).is_err() {
                    return prose.fail();
                }
            }
            Ok(None) => {}
            Err(_) => return prose.fail(),
        }
    }
    prose
}

// Adds a debt, and the statuses of the two transactions.
fn put_debt<A: Handle>(prose: Prose<A>, run: &RunTrace<A>, debt: &Debt) -> Prose<A> {
    let owed = match debt.missing() {
        Missing::Commit => "a commit",
        Missing::Abort => "an abort",
    };
    let machine = run.machine();
    let prose = put!(prose; "  ", debt.txn.0, " owes ", owed, " by ", debt.kind.word(), " ",
        debt.txn.0, " on ", debt.on.0, ": ", debt.on.0, " ");
    let prose = put_standing(prose, run.lines(), debt.on, machine.status(debt.on));
    let prose = put!(prose; ", ", debt.txn.0, " ");
    put_standing(prose, run.lines(), debt.txn, machine.status(debt.txn)).put("\n")
}

/// Adds the debts, and for each whether it can be paid now, later or never.
pub fn put_debts<A: Handle>(mut prose: Prose<A>, run: &RunTrace<A>, debts: &[Debt]) -> Prose<A> {
    if debts.is_empty() {
        return prose;
    }
    let Ok(lost) = never_begin(run.allocator(), run.machine()) else {
        return prose.fail();
    };
    for debt in debts {
        prose = put_debt(prose, run, debt);
        let prospect = Prose::new(run.allocator());
        let prospect = put_prospect(
            prospect,
            run.machine(),
            run.lines(),
            &lost,
            debt.txn,
            debt.missing(),
        );
        let (prospect, has_failed) = prospect.parts();
        prose = put_barred(prose, 4, prospect.as_str());
        if has_failed {
            return prose.fail();
        }
    }
    prose
}
