//! Sessions, each allocation refused in turn. With one refused, the session either ends for lack of memory after whole
//! replies to its first lines, or it does without that memory and answers each line.

use crate::expecting::{MOST, at_least, expect_text, holds};
use acta_args::ModelName;
use acta_draw::Screen;
use acta_io::{Outcome, ReadFault};
use acta_machine::Handle;
use acta_models::Standard;
use acta_session::Streams;
use acta_shell::{NotingEnd, shell_tool};
use refusing::Refusing;
use std::alloc::{Allocator, Global};
use std::process::Abort;

// Each command, with and without its optional words, and faulty lines.
const LINES: &str = "\
begin 1 try
form CMD 3 2
do 1 x write 5
can do 2 x read
can do 1 s insert 3
begin 2 try
do 2 x read
abort 2
owed
undo 2
redo
undo
do 2 s insert 4
state
status 2
value s
held 1
conflicts 2
edges
edges 3
permits
next
next 3
why
help
help form
draw
history
events
goto 9
gotto 1
value y
why 9
explore
1 begin 7 try
1 do 7 x write 1 | abort 7
2 begin
# no end yet

quit";

// Runs a session.
fn serve<A: Handle>(alloc: A, output: &mut Vec<u8>) -> Outcome {
    let standard = Standard::Contingent;
    shell_tool(
        alloc,
        ModelName::Standard(standard),
        standard.text().as_bytes(),
        Screen::PLAIN,
        false,
        &mut NotingEnd::new(Streams::new(LINES.as_bytes(), output)),
    )
}

// Runs the session with these replies, its nth allocation refused. Returns whether it made that allocation.
fn refuse_one<B: Allocator>(
    rt: &impl Abort,
    (heap, other): (&Refusing<B>, Global),
    whole: &[u8],
    nth: u64,
) -> bool {
    let mut output = Vec::new(other);
    heap.refuse(nth);
    let ended = serve(heap, &mut output);
    let was_refused = !heap.is_waiting();
    heap.refuse(0);
    if ended == Outcome::Unread(ReadFault::Memory) {
        let is_front = whole.starts_with(output.as_slice());
        let is_whole_lines = output.last().is_none_or(|last| *last == b'\n');
        holds(rt, was_refused && is_front && is_whole_lines, "a session");
    } else {
        holds(rt, ended == Outcome::Done, "the end of a session");
        expect_text(rt, output.as_slice(), whole, "a session");
    }
    was_refused
}

#[test]
fn sessions(rt: HostRuntime) {
    let other = rt.alloc();
    let heap = Refusing::new(other);
    let mut whole = Vec::new(other);
    let ended = serve(other, &mut whole);
    holds(&rt, ended == Outcome::Done, "the end of a session");
    let mut refused = 0u64;
    for nth in 1..MOST {
        if !refuse_one(&rt, (&heap, other), whole.as_slice(), nth) {
            break;
        }
        refused = nth;
    }
    at_least(&rt, refused, 100, "a session");
}
