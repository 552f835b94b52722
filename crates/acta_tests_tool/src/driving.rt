//! Driven runs whose output depends on the order in which threads run.

use crate::expecting::{counts, holds, made};
use crate::runs::serve;
use acta_args::ModelName;
use acta_io::Outcome;
use acta_models::Standard;
use acta_tool::{Args, Command};
use refusing::Refusing;
use std::alloc::Global;
use std::process::Abort;
use std::sync::Wait;
use std::thread::Threads;

// Returns the output of a driven run of flat transactions.
fn driven<R: Threads + Wait + Sync + Abort>(
    rt: &R,
    alloc: Global,
    command: Command,
    input: &str,
) -> String {
    let heap = Refusing::new(alloc);
    let model = ModelName::Standard(Standard::Atomic);
    let args = Args { command, model };
    let text = Standard::Atomic.text().as_bytes();
    let mut output = Vec::new(alloc);
    let ended = serve(rt, &heap, &args, text, input.as_bytes(), &mut output);
    holds(rt, ended == Ok(Outcome::Done), input);
    let output = made(rt, str::from_utf8(output.as_slice()), input);
    made(rt, String::from_str(alloc, output), input)
}

// Returns the lines of a seat, without the entry numbers at their start.
fn lines_of(rt: &impl Abort, alloc: Global, output: &str, seat: &str) -> String {
    let mut lines = String::new(alloc);
    for line in output.lines() {
        if let Some((_, rest)) = line.split_once(' ') {
            if rest.split(' ').next() == Some(seat) {
                made(rt, lines.push_str(rest), line);
                made(rt, lines.push_str("\n"), line);
            }
        }
    }
    lines
}

// Asserts that the seat has two lines, the last of which starts and ends with these texts.
fn has_two(rt: &impl Abort, alloc: Global, output: &str, seat: &str, (start, end): (&str, &str)) {
    let lines = lines_of(rt, alloc, output, seat);
    counts(rt, lines.lines().count() as u64, 2, lines.as_str());
    let last = lines.lines().last().expect(rt, "the last line of a seat");
    holds(rt, last.starts_with(start) && last.ends_with(end), last);
}

const THREE: &str = "\
3 begin 3 flat
1 begin 1 flat
2 begin 2 flat
1 do 1 n add 5
3 abort 9
2 do 2 m add 7
";

// The lines of each seat are entered in order, whichever worker comes first. The first two seats add to objects that no
// other seat uses.
#[test]
fn three_workers(rt: HostRuntime) {
    let command = Command::Drive {
        workers: 3,
        turns: 0,
    };
    let output = driven(&rt, rt.alloc(), command, THREE);
    let output = output.as_str();
    counts(&rt, output.lines().count() as u64, 6, output);
    for (seat, last) in [
        ("1", ("1 do 1 n add 5 : ok ", " done")),
        ("2", ("2 do 2 m add 7 : ok ", " done")),
        ("3", ("3 abort 9 : no 7 by 9", " : no 7 by 9")),
    ] {
        has_two(&rt, rt.alloc(), output, seat, last);
    }
}

const ONE: &str = "\
1 begin 1 flat
1 commit 1
";

// Returns the number of events in the line of a verdict without faults and debts.
fn length_of(rt: &impl Abort, line: Option<&str>) -> u64 {
    let line = line.expect(rt, "a verdict");
    let length = line.strip_prefix("front ").expect(rt, line);
    let length = length.strip_suffix(" 0 0").expect(rt, line);
    made(rt, length.parse::<u64>(), line)
}

// Two verdicts follow the entries; the second is about at least as many events as the first.
#[test]
fn one_watched_worker(rt: HostRuntime) {
    let command = Command::Drive {
        workers: 1,
        turns: 2,
    };
    let output = driven(&rt, rt.alloc(), command, ONE);
    let output = output.as_str();
    let entries = "1 1 begin 1 flat : ok 1\n2 1 commit 1 : ok 2\n";
    holds(&rt, output.starts_with(entries), output);
    counts(&rt, output.lines().count() as u64, 4, output);
    let mut verdicts = output.lines().skip(2);
    let first = length_of(&rt, verdicts.next());
    let second = length_of(&rt, verdicts.next());
    holds(&rt, first <= second && second <= 2, output);
}
