//! Debuggers on lists: which lists are histories, and what commands answer. The program's cases have whole sessions.

use crate::expecting::{made, number, parted, same};
use crate::models::{items_of, model_of};
use crate::shown::put_value;
use acta_debug::{Break, Debugger, MoveError, NewError};
use acta_machine::Handle;
use acta_models::Standard;
use acta_script::{BreakOn, DebugCommand};
use acta_table::{Dep, Event, Kept, Model, ObjId, TxnId};
use std::alloc::{AllocError, Allocator, Global};
use std::process::Abort;

/// A debugger on the list, in a function of its own, so that callers need not load its contract.
pub fn opened<A: Handle>(
    alloc: A,
    model: Model<A>,
    list: Vec<Kept<A>, A>,
) -> Result<Debugger<A>, NewError> {
    Debugger::new(alloc, model, list)
}

/// A debugger on a machine's history of the events, in a function of its own too.
pub fn on_events<A: Handle>(
    alloc: A,
    model: Model<A>,
    events: &[Event<A>],
) -> Result<Debugger<A>, AllocError> {
    Debugger::of_events(alloc, model, events)
}

/// A debugger on the history of the lines, on the model of the text.
pub fn debugger_of<A: Handle>(rt: &impl Abort, alloc: A, model: &str, text: &str) -> Debugger<A> {
    let model = model_of(rt, alloc, model);
    let history = items_of(rt, alloc, &model, text);
    made(rt, opened(alloc, model, history), "a debugger")
}

/// Events, the third and the sixth of which are refused.
pub const EVENTS: &str = "\
form SCD 2 1
begin 1 try
begin 1 try
begin 2 try
do 2 n add 5
commit 7
commit 1
commit 2";

// After place 4 transaction 2 owes a commit, which it pays at place 5; and a third begins.
const PAID: &str = "\
form SCD 2 1
begin 1 try
begin 2 try
commit 1
commit 2
begin 3 try
";

/// The kept lines of a history with this many additions of 1 to n.
pub fn sums(rt: &impl Abort, other: Global, times: u32) -> String {
    let mut text = made(rt, String::from_str(other, PAID), "a text");
    for _ in 0..times {
        made(rt, text.push_str("do 3 n add 1 = done\n"), "a text");
    }
    text
}

// The break of a command.
fn break_of(on: BreakOn) -> Break {
    match on {
        BreakOn::Kind(kind) => Break::Kind(kind),
        BreakOn::Txn(t) => Break::Touches(t),
        BreakOn::Object(object) => Break::Object(object),
        BreakOn::Owed(n) => Break::OwedAtLeast(n),
        BreakOn::Ended(t) => Break::Ended(t),
    }
}

// How a move ended. `Err` if memory ran out.
fn moved(other: Global, done: Result<(), MoveError>) -> Result<String, AllocError> {
    match done {
        Ok(()) => Ok(String::new(other)),
        Err(MoveError::Memory) => Err(AllocError),
        Err(error) => format!(in other; "{error:?} "),
    }
}

// Adds a break. Returns its number.
fn broken<A: Handle>(
    other: Global,
    debugger: &mut Debugger<A>,
    on: BreakOn,
) -> Result<String, AllocError> {
    let number = debugger.add_break(break_of(on))?;
    format!(in other; "break {number} ")
}

// Runs on. Returns where it stopped.
fn ran<A: Handle>(other: Global, debugger: &mut Debugger<A>) -> Result<String, AllocError> {
    let stop = debugger.run()?;
    format!(in other; "{stop:?} ")
}

/// The debugger's answer to a command that moves it, or that adds a break. `Err` if memory ran out.
pub fn answer<A: Handle>(
    other: Global,
    debugger: &mut Debugger<A>,
    command: DebugCommand,
) -> Result<String, AllocError> {
    match command {
        DebugCommand::Step => moved(other, debugger.step()),
        DebugCommand::Back => moved(other, debugger.back()),
        DebugCommand::Goto(n) => moved(other, debugger.goto(n)),
        DebugCommand::Run => ran(other, debugger),
        DebugCommand::Break(on) => broken(other, debugger, on),
        _ => Ok(String::new(other)),
    }
}

/// The answer, the place of the debugger after it, and the value of n there.
pub fn at_and_sum<A: Handle>(
    rt: &impl Abort,
    other: Global,
    debugger: &Debugger<A>,
    answer: &str,
) -> String {
    let at = debugger.at();
    let mut text = made(rt, format!(in other; "{answer}at {at}, n ="), "a text");
    let value = made(rt, debugger.machine().value(ObjId(1)), "a value");
    put_value(rt, &mut text, value.as_ref());
    text
}

// Lists, each after the first place at which it is no history: a refused event; a return that is wrong, missing or not due;
// and a refused event before one that would be admitted.
const OTHERS: &str = "\
1
commit 1
begin 1 flat
# 2
begin 1 flat
begin 1 flat
# 2
begin 1 flat
do 1 x read = 9
# 2
begin 1 flat
do 1 x read
commit 1
# 1
begin 1 flat = done
# 3
begin 1 flat
do 1 x write 5 = done
commit 1 = done
# 2
begin 1 flat
do 1 s insert 3 = no
do 1 s insert 3 = no
# 3
begin 1 flat
abort 1
commit 1
begin 2 flat
commit 2
# 3
begin 1 flat
do 1 n add 1 = done
do 1 n get = 2
commit 1";

// The text has a place and lines, which are no history from that place on.
fn is_other<A: Handle>(rt: &impl Abort, alloc: A, text: &str) {
    let (place, lines) = parted(rt, text, "\n");
    let model = model_of(rt, alloc, Standard::Atomic.text());
    let list = items_of(rt, alloc, &model, lines);
    let found = opened(alloc, model, list).err();
    let due = NewError::NotAHistory(number(rt, place));
    same(rt, &found, &Some(due), text);
}

// A debugger on a list that forms one edge this many times.
fn on_forms<A: Handle>(rt: &impl Abort, alloc: A, times: u32) -> Result<Debugger<A>, NewError> {
    let model = model_of(rt, alloc, Standard::Contingent.text());
    let mut list = Vec::new(alloc);
    for _ in 0..times {
        let event = Event::Form(Dep::Cd, TxnId(2), TxnId(1));
        made(rt, list.push(Kept { event, ret: None }), "an item");
    }
    opened(alloc, model, list)
}

// A history has at most 65,536 events.
fn longest<A: Handle>(rt: &impl Abort, alloc: A) {
    let mut debugger = made(rt, on_forms(rt, alloc, 65_536), "the longest history");
    same(rt, &debugger.last(), &65_536, "the longest history");
    same(rt, &debugger.goto(65_536), &Ok(()), "its last place");
    same(rt, &debugger.step(), &Err(MoveError::AtEnd), "no more");
    drop(debugger);
    let longer = on_forms(rt, alloc, 65_537).err();
    let due = NewError::NotAHistory(65_537);
    same(rt, &longer, &Some(due), "a longer list");
}

#[test]
fn lists_that_are_no_histories(rt: HostRuntime) {
    for text in OTHERS.split("# ") {
        is_other(&rt, rt.alloc(), text);
    }
}

#[test]
fn the_longest_history(rt: HostRuntime) {
    longest(&rt, rt.alloc());
}
