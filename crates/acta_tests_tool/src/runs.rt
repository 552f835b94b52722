//! Runs of the tool, each allocation refused in turn. With an allocation refused, the run either ends for lack of memory or
//! of a thread and has written nothing, or it does without that memory and writes its whole output.

mod table;

use crate::expecting::{MOST, at_least, expect_text, holds, made};
use acta_args::ModelName;
use acta_io::{Metered, Outcome, ReadFault, Watched};
use acta_locked::DriveError;
use acta_tool::{Args, Command, Failure, drive_tool, exit_status, parse, run_tool};
use refusing::Refusing;
use std::alloc::{Allocator, Global};
use std::process::Abort;
use std::sync::Wait;
use std::thread::Threads;

/// Runs a command on the bytes of a model and of an input.
pub fn serve<R: Threads + Wait + Sync, B: Allocator + Send + Sync>(
    rt: &R,
    heap: &Refusing<B>,
    args: &Args<'_>,
    model: &[u8],
    input: &[u8],
    output: &mut Vec<u8>,
) -> Result<Outcome, DriveError> {
    let mut input = Metered::new(input);
    let mut output = Watched::new(output);
    match args.command {
        Command::Drive { .. } => drive_tool(rt, heap, args, model, &mut input, &mut output),
        _ => Ok(run_tool(rt, heap, args, model, &mut input, &mut output)),
    }
}

// A case of the table, as far as it has been read.
#[derive(Drop)]
struct Row<'a> {
    command: &'a str,
    model: Vec<u8>,
    input: Vec<u8>,
    output: Vec<u8>,
}

// Returns the bytes of the model that the command names.
fn model_of<'a>(args: &Args<'_>, row: &'a Row<'_>) -> &'a [u8] {
    match args.model {
        ModelName::Standard(name) => name.text().as_bytes(),
        ModelName::Path(_) => row.model.as_slice(),
    }
}

// Whether the run ended for lack of memory or of a thread.
fn is_short(ended: Result<Outcome, DriveError>) -> bool {
    matches!(
        ended,
        Ok(Outcome::Unread(ReadFault::Memory)) | Err(DriveError::Memory | DriveError::NoThread)
    )
}

// Returns the words of a command line, with the program's name before them.
fn words(rt: &impl Abort, alloc: Global, line: &str) -> Vec<String> {
    let mut words = Vec::new(alloc);
    let name = made(rt, String::from_str(alloc, "acta"), line);
    made(rt, words.push(name), line);
    for word in line.split(' ') {
        let word = made(rt, String::from_str(alloc, word), line);
        made(rt, words.push(word), line);
    }
    words
}

// Runs a case with its nth allocation refused. Returns whether the case made that allocation.
fn refuse_one<R: Threads + Wait + Sync + Abort, B: Allocator + Send + Sync>(
    rt: &R,
    (heap, other): (&Refusing<B>, Global),
    args: &Args<'_>,
    (row, due): (&Row<'_>, &str),
    nth: u64,
) -> bool {
    let (model, input, mut output) = (model_of(args, row), row.input.as_slice(), Vec::new(other));
    heap.refuse(nth);
    let ended = serve(rt, heap, args, model, input, &mut output);
    let was_refused = !heap.is_waiting();
    heap.refuse(0);
    if is_short(ended) {
        holds(rt, was_refused && output.is_empty(), row.command);
    } else {
        expect_text(rt, output.as_slice(), row.output.as_slice(), row.command);
        ends(rt, ended.map_err(Failure::Undriven), due, row.command);
    }
    was_refused
}

/// Asserts that a run ends with this exit status.
pub fn ends(rt: &impl Abort, ended: Result<Outcome, Failure>, due: &str, line: &str) {
    let is_due = Some(exit_status(&ended)) == due.parse().ok();
    holds(rt, is_due, line);
}

// Refuses each allocation of a case, which ends with this status. Returns how many were refused.
fn refuse_row<R: Threads + Wait + Sync + Abort, B: Allocator + Send + Sync>(
    rt: &R,
    (heap, other): (&Refusing<B>, Global),
    row: &Row<'_>,
    due: &str,
) -> u64 {
    let words = words(rt, other, row.command);
    let args = made(rt, parse(other, words.as_slice()), row.command);
    for nth in 1..MOST {
        if !refuse_one(rt, (heap, other), &args, (row, due), nth) {
            return nth.wrapping_sub(1);
        }
    }
    rt.panic("a run makes too many allocations")
}

// Begins the case of a command line.
fn begin<'a>(row: &mut Row<'a>, command: &'a str) {
    row.command = command;
    row.model.clear();
    row.input.clear();
    row.output.clear();
}

// Adds a line to a text.
fn add(rt: &impl Abort, text: &mut Vec<u8>, line: &str) {
    made(rt, text.extend_from_slice(line.as_bytes()), line);
    made(rt, text.push(b'\n'), line);
}

// Adds bytes that are written as pairs of hexadecimal digits, with blanks between them.
fn add_bytes(rt: &impl Abort, bytes: &mut Vec<u8>, line: &str) {
    let mut high: Option<u32> = None;
    for c in line.chars() {
        match (c.to_digit(16), high) {
            (Some(digit), Some(first)) => {
                let [byte, ..] = first.wrapping_mul(16).wrapping_add(digit).to_le_bytes();
                made(rt, bytes.push(byte), line);
                high = None;
            }
            (Some(digit), None) => high = Some(digit),
            (None, _) => {}
        }
    }
}

// Adds a line to the part of the case that its mark names.
fn put(rt: &impl Abort, row: &mut Row<'_>, (mark, rest): (&str, &str), line: &str) {
    match mark {
        "%" => add(rt, &mut row.model, rest),
        "&" => add_bytes(rt, &mut row.model, rest),
        "|" => add(rt, &mut row.input, rest),
        "=" => add_bytes(rt, &mut row.output, rest),
        ">" => add(rt, &mut row.output, rest),
        "" | "#" => {}
        _ => add(rt, &mut row.output, line),
    }
}

// Refuses each allocation of each case, at least this many.
fn refuse_rows<R: Threads + Wait + Sync + Abort, B: Allocator + Send + Sync>(
    rt: &R,
    other: Global,
    heap: &Refusing<B>,
    (cases, least): (&str, u64),
) {
    let mut refused = 0u64;
    let mut row = Row {
        command: "",
        model: Vec::new(other),
        input: Vec::new(other),
        output: Vec::new(other),
    };
    for line in cases.lines() {
        let (mark, rest) = line.split_once(' ').unwrap_or((line, ""));
        match mark {
            "$" => begin(&mut row, rest),
            "status" => {
                refused = refused.wrapping_add(refuse_row(rt, (heap, other), &row, rest));
            }
            _ => put(rt, &mut row, (mark, rest), line),
        }
    }
    at_least(rt, refused, least, row.command);
    drop(row);
}

#[test]
fn runs(rt: HostRuntime) {
    let heap = Refusing::new(rt.alloc());
    refuse_rows(&rt, rt.alloc(), &heap, (table::RUNS, 100));
}

#[test]
fn kept_and_traces(rt: HostRuntime) {
    let heap = Refusing::new(rt.alloc());
    refuse_rows(&rt, rt.alloc(), &heap, (table::KEPT_AND_TRACES, 100));
}

#[test]
fn histories(rt: HostRuntime) {
    let heap = Refusing::new(rt.alloc());
    refuse_rows(&rt, rt.alloc(), &heap, (table::HISTORIES, 100));
}

#[test]
fn debuggers(rt: HostRuntime) {
    let heap = Refusing::new(rt.alloc());
    refuse_rows(&rt, rt.alloc(), &heap, (table::DEBUGGERS, 100));
}

#[test]
fn models(rt: HostRuntime) {
    let heap = Refusing::new(rt.alloc());
    refuse_rows(&rt, rt.alloc(), &heap, (table::MODELS, 50));
}

#[test]
fn drives(rt: HostRuntime) {
    let heap = Refusing::new(rt.alloc());
    refuse_rows(&rt, rt.alloc(), &heap, (table::DRIVES, 50));
}
