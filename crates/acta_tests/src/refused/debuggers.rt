//! New debuggers and commands to debuggers, each allocation refused in turn.

use crate::debugging::{EVENTS, answer, at_and_sum, debugger_of, on_events, opened, sums};
use crate::expecting::made;
use crate::models::{events_of, items_of, model_of};
use crate::refused::{Setting, at_least, call_and_answer, refuse};
use crate::shown::{of_debugger, put};
use acta_debug::Debugger;
use acta_machine::Handle;
use acta_models::Standard;
use acta_script::{DebugCommand, read_command};
use acta_table::{Event, Kept, Model};
use refusing::{Case, Refusing, refuse_in_place};
use std::alloc::Allocator;
use std::process::Abort;

// A command to a debugger, which starts on an empty history.
#[derive(Drop)]
struct Commanding<'a, 's, R, A: Handle> {
    on: &'a Setting<'s, R, A>,
    command: DebugCommand,
}

impl<'a, 's, R: Abort, A: Handle> Case for Commanding<'a, 's, R, A> {
    type State = Debugger<A>;

    type Answer = String;

    fn start(&self) -> Debugger<A> {
        let text = Standard::Contingent.text();
        debugger_of(self.on.rt, self.on.alloc, text, "")
    }

    fn call(&self, debugger: &mut Debugger<A>) -> Option<String> {
        answer(self.on.other, debugger, self.command).ok()
    }

    fn describe(&self, answer: &String, debugger: &Debugger<A>) -> String {
        at_and_sum(self.on.rt, self.on.other, debugger, answer.as_str())
    }

    // Of a long history only the place and a value.
    fn read(&self, debugger: &Debugger<A>) -> String {
        if debugger.last() < 1_000 {
            of_debugger(self.on.rt, self.on.other, debugger)
        } else {
            at_and_sum(self.on.rt, self.on.other, debugger, "")
        }
    }
}

// A command to the debugger, each allocation refused. Returns how many were.
fn refuse_command<'a, 's, R: Abort, A: Handle, B: Allocator>(
    on: &'a Setting<'s, R, A>,
    heap: &Refusing<B>,
    debugger: &mut Debugger<A>,
    command: DebugCommand,
    due: &str,
) -> u64 {
    made(
        on.rt,
        refuse_in_place(heap, &Commanding { on, command }, debugger, due),
        due,
    )
}

// The commands of the lines, one after another, to one debugger on a history with so many additions. Returns how many
// allocations were refused.
fn refuse_commands<R: Abort, A: Handle, B: Allocator>(
    on: &Setting<'_, R, A>,
    heap: &Refusing<B>,
    additions: u32,
    lines: &str,
) -> u64 {
    let (text, mut refused) = (sums(on.rt, on.other, additions), 0u64);
    let model = Standard::Contingent.text();
    let mut debugger = debugger_of(on.rt, on.alloc, model, text.as_str());
    for line in lines.lines() {
        let (parsed, due) = call_and_answer(on.rt, line);
        let command = read_command(on.alloc, debugger.machine().model(), parsed.as_bytes());
        let command = made(on.rt, command, line);
        let more = refuse_command(&*on, heap, &mut debugger, command, due);
        refused = refused.wrapping_add(more);
    }
    drop(debugger);
    refused
}

// Checkpoints are 64 events apart.
const NEAR: &str = "\
goto 65 -- at 65, n = 59
back -- at 64, n = 58
break kind begin -- break 1 at 64, n = 58
goto 0 -- at 0, n = 0
step -- at 1, n = 0
run -- Broke { number: 1, place: 2 } at 2, n = 0
run -- Broke { number: 1, place: 3 } at 3, n = 0
run -- Broke { number: 1, place: 6 } at 6, n = 0
run -- Finished at 70, n = 64";

const TWO_CHECKPOINTS: &str = "\
goto 65 -- at 65, n = 59
back -- at 64, n = 58
break kind commit -- break 1 at 64, n = 58
run -- Finished at 130, n = 124
back -- at 129, n = 123
goto 65 -- at 65, n = 59
goto 0 -- at 0, n = 0
run -- Broke { number: 1, place: 4 } at 4, n = 0
run -- Broke { number: 1, place: 5 } at 5, n = 0
run -- Finished at 130, n = 124";

// Checkpoints are 128 events apart, so that the first move back brings one near.
const FAR: &str = "\
goto 2505 -- at 2505, n = 2499
back -- at 2504, n = 2498
back -- at 2503, n = 2497
goto 2506 -- at 2506, n = 2500";

fn refuse_all_commands<R: Abort, A: Handle, B: Allocator>(
    on: &Setting<'_, R, A>,
    heap: &Refusing<B>,
) {
    for (additions, lines) in [(64u32, NEAR), (124, TWO_CHECKPOINTS), (2_500, FAR)] {
        at_least(
            on.rt,
            refuse_commands(on, heap, additions, lines),
            20,
            lines,
        );
    }
}

#[test]
fn commands_to_debuggers(rt: HostRuntime) {
    let heap = Refusing::new(rt.alloc());
    let on = Setting {
        rt: &rt,
        alloc: &heap,
        other: rt.alloc(),
    };
    refuse_all_commands(&on, &heap);
}

// The parts of a new debugger.
#[derive(Drop)]
struct Parts<A: Handle> {
    model: Model<A>,
    history: Vec<Kept<A>, A>,
    events: Vec<Event<A>, A>,
}

// A new debugger on the kept items of the lines; or, if these are events, on a machine's history of them.
#[derive(Drop)]
struct Opening<'a, 's, R, A: Handle> {
    on: &'a Setting<'s, R, A>,
    lines: &'a str,
    are_kept: bool,
}

impl<'a, 's, R: Abort, A: Handle> Opening<'a, 's, R, A> {
    fn parts(&self) -> Parts<A> {
        let (rt, alloc) = (self.on.rt, self.on.alloc);
        let model = model_of(rt, alloc, Standard::Contingent.text());
        let (kept, events) = if self.are_kept {
            (self.lines, "")
        } else {
            ("", self.lines)
        };
        Parts {
            history: items_of(rt, alloc, &model, kept),
            events: events_of(rt, alloc, &model, events),
            model,
        }
    }
}

impl<'a, 's, R: Abort, A: Handle> Case for Opening<'a, 's, R, A> {
    type State = Option<Parts<A>>;

    type Answer = Debugger<A>;

    fn start(&self) -> Option<Parts<A>> {
        Some(self.parts())
    }

    // The parts are used up, so that a second call has new ones.
    fn call(&self, parts: &mut Option<Parts<A>>) -> Option<Debugger<A>> {
        let Parts {
            model,
            history,
            events,
        } = match parts.take() {
            Some(parts) => parts,
            None => self.parts(),
        };
        if self.are_kept {
            opened(self.on.alloc, model, history).ok()
        } else {
            on_events(self.on.alloc, model, events.as_slice()).ok()
        }
    }

    fn describe(&self, answer: &Debugger<A>, _parts: &Option<Parts<A>>) -> String {
        let mut text = at_and_sum(self.on.rt, self.on.other, answer, "");
        put(self.on.rt, &mut text, &answer.last());
        text
    }

    fn read(&self, _parts: &Option<Parts<A>>) -> String {
        String::new(self.on.other)
    }
}

// A new debugger, each allocation refused. Returns how many were.
fn refuse_new<'a, 's, R: Abort, A: Handle, B: Allocator>(
    on: &'a Setting<'s, R, A>,
    heap: &Refusing<B>,
    (lines, are_kept): (&'a str, bool),
    due: &str,
) -> u64 {
    let case = Opening {
        on,
        lines,
        are_kept,
    };
    refuse(on.rt, heap, &case, due)
}

fn refuse_all_new<R: Abort, A: Handle, B: Allocator>(on: &Setting<'_, R, A>, heap: &Refusing<B>) {
    let (short, long) = (sums(on.rt, on.other, 10), sums(on.rt, on.other, 124));
    let short = refuse_new(&*on, heap, (short.as_str(), true), "at 0, n = 0 16");
    at_least(on.rt, short, 10, "a short history");
    let long = refuse_new(&*on, heap, (long.as_str(), true), "at 0, n = 0 130");
    at_least(on.rt, long, 10, "a long history");
    let kept = refuse_new(&*on, heap, (EVENTS, false), "at 0, n = 0 6");
    at_least(on.rt, kept, 10, EVENTS);
}

#[test]
fn new_debuggers(rt: HostRuntime) {
    let heap = Refusing::new(rt.alloc());
    let on = Setting {
        rt: &rt,
        alloc: &heap,
        other: rt.alloc(),
    };
    refuse_all_new(&on, &heap);
}
