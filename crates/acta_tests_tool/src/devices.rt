//! Readers and writers that fail, a reader without end, and the longest input. No contract promises that `Metered` reads
//! once for each of its reads and forwards each error, nor the same of the writes of `Watched`.

use crate::expecting::{counts, expect_text, holds, made};
use acta_args::ModelName;
use acta_io::{Metered, Outcome, ReadFault, Watched};
use acta_models::Standard;
use acta_tool::{Args, Command, run_tool};
use std::alloc::Global;
use std::io;
use std::io::{ErrorKind, Read, Write};
use std::process::Abort;
use std::thread::Threads;

// Runs flat transactions, or the text of another model, over a reader and a writer.
fn run<T: Threads + Sync, R: Read, W: Write>(
    rt: &T,
    alloc: Global,
    text: &[u8],
    input: &mut R,
    output: &mut W,
) -> Outcome {
    let (command, model) = (
        Command::Run { kept: false },
        ModelName::Standard(Standard::Atomic),
    );
    let args = Args { command, model };
    let mut input = Metered::new(input);
    let mut output = Watched::new(output);
    run_tool(rt, alloc, &args, text, &mut input, &mut output)
}

fn text() -> &'static [u8] {
    Standard::Atomic.text().as_bytes()
}

// A reader that gives its bytes in pieces, fails at one read, and counts the reads.
#[derive(Drop)]
struct Pieces<'a> {
    rest: &'a [u8],
    piece: usize,
    fails_at: u32,
    reads: u32,
}

impl<'a> Read for Pieces<'a> {
    fn read(&mut self, buf: &mut [u8]) -> io::Result<usize> {
        self.reads = self.reads.saturating_add(1);
        if self.reads == self.fails_at {
            return Err(io::Error::from(ErrorKind::Other));
        }
        let n = self.piece.min(self.rest.len()).min(buf.len());
        let (front, rest) = self.rest.split_at(n);
        buf[..n].copy_from_slice(front);
        self.rest = rest;
        Ok(n)
    }
}

// Reads a line in pieces of 2 bytes, with this read failing. The run ends in this way, after this many reads.
fn fail_at(
    rt: &(impl Threads + Sync + Abort),
    alloc: Global,
    fails_at: u32,
    (due, reads, written): (Outcome, u32, &[u8]),
) {
    let mut input = Pieces {
        rest: b"begin 1 flat\n",
        piece: 2,
        fails_at,
        reads: 0,
    };
    let mut output = Vec::new(alloc);
    let ended = run(rt, alloc, text(), &mut input, &mut output);
    holds(rt, ended == due, "a read that fails");
    counts(rt, u64::from(input.reads), u64::from(reads), "reads");
    expect_text(rt, output.as_slice(), written, "a read that fails");
}

// The line takes seven reads, and the eighth finds its end. No read follows the one that fails.
#[test]
fn each_read_fails_in_turn(rt: HostRuntime) {
    for fails_at in 1..9u32 {
        let due = (Outcome::Unread(ReadFault::Device), fails_at, b"".as_slice());
        fail_at(&rt, rt.alloc(), fails_at, due);
    }
    let due = (Outcome::Done, 8, b"ok 1\n".as_slice());
    fail_at(&rt, rt.alloc(), 9, due);
}

// A reader that fills each buffer with whatever is in it, without end, and counts the reads.
#[derive(Drop)]
struct Endless {
    reads: u32,
}

impl Read for Endless {
    fn read(&mut self, buf: &mut [u8]) -> io::Result<usize> {
        self.reads = self.reads.saturating_add(1);
        Ok(buf.len())
    }
}

// The run reads as much as an input may have, in buffers of 4,096 bytes, and then once more.
#[test]
fn a_reader_without_end(rt: HostRuntime) {
    let mut input = Endless { reads: 0 };
    let mut output = Vec::new(rt.alloc());
    let ended = run(&rt, rt.alloc(), text(), &mut input, &mut output);
    let too_much = Outcome::Unread(ReadFault::TooMuch);
    holds(&rt, ended == too_much, "a reader without end");
    counts(&rt, u64::from(input.reads), 4_097, "reads");
    holds(&rt, output.is_empty(), "a reader without end");
}

// A writer that fails at every write, or takes every write and fails at the flush, and counts the writes.
#[derive(Drop)]
struct Stuck {
    takes: bool,
    writes: u32,
}

impl Write for Stuck {
    fn write(&mut self, buf: &[u8]) -> io::Result<usize> {
        self.writes = self.writes.saturating_add(1);
        if self.takes {
            Ok(buf.len())
        } else {
            Err(io::Error::from(ErrorKind::Other))
        }
    }

    fn flush(&mut self) -> io::Result<()> {
        if self.takes {
            Err(io::Error::from(ErrorKind::Other))
        } else {
            Ok(())
        }
    }
}

// The run writes once, and then no more.
fn is_stuck(rt: &(impl Threads + Sync + Abort), alloc: Global, takes: bool, writer: &str) {
    let mut input = b"begin 1 flat\n".as_slice();
    let mut output = Stuck { takes, writes: 0 };
    let ended = run(rt, alloc, text(), &mut input, &mut output);
    holds(rt, ended == Outcome::Unwritten, writer);
    counts(rt, u64::from(output.writes), 1, writer);
}

#[test]
fn writers(rt: HostRuntime) {
    is_stuck(&rt, rt.alloc(), false, "a writer that fails at a write");
    is_stuck(&rt, rt.alloc(), true, "a writer that fails at a flush");
}

// Runs a model's text on an input. The run ends in this way, without writing anything.
fn ends(
    rt: &(impl Threads + Sync + Abort),
    alloc: Global,
    (text, mut input): (&[u8], &[u8]),
    due: Outcome,
    row: &str,
) {
    let mut output = Vec::new(alloc);
    let ended = run(rt, alloc, text, &mut input, &mut output);
    holds(rt, ended == due, row);
    holds(rt, output.is_empty(), row);
}

// An input or a model that is one byte longer is too long.
#[test]
fn the_longest_input(rt: HostRuntime) {
    let too_much = Outcome::Unread(ReadFault::TooMuch);
    let mut bytes = made(&rt, vec![in rt.alloc(); b'#'; 16_777_216], "a long input");
    let long = (text(), bytes.as_slice());
    ends(&rt, rt.alloc(), long, Outcome::Done, "the longest input");
    made(&rt, bytes.push(b'#'), "a longer input");
    let longer = (text(), bytes.as_slice());
    ends(&rt, rt.alloc(), longer, too_much, "a longer input");
    let model = (bytes.as_slice(), b"".as_slice());
    ends(&rt, rt.alloc(), model, too_much, "a longer model");
}
