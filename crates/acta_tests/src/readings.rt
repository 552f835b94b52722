//! Answers of machines about sets of operations and edges, worked out by hand; the verdict on each history must have no
//! fault. A scenario is a title, events with their answers, and readings:
//!
//! ```text
//! # A title
//! do 1 x write 5 -- ok 2 done
//! ? access 1 -- 1
//! ```

use crate::calls::{new_machine, places_of, take};
use crate::expecting::{expect_text, made, parted, same};
use crate::judging::is_faultless;
use crate::models::{
    KINDRED as KINDRED_MODEL, PARTING as PARTING_MODEL, PERMITTING as PERMITTING_MODEL,
    SHARING as SHARING_MODEL, TRUSTING as TRUSTING_MODEL, UNTIED as UNTIED_MODEL, event_of,
    items_of, model_of,
};
use acta_axioms::Places;
use acta_machine::{Handle, Machine};
use acta_models::Standard;
use acta_script::answer_line;
use acta_table::{Fate, Model, OpNo, TxnId};
use std::alloc::Global;
use std::process::Abort;
use std::thread::Threads;

const FLAT: &str = "\
# Equal writes commute, and others conflict
begin 1 flat -- ok 1
begin 2 flat -- ok 2
do 1 x write 5 -- ok 3 done
do 2 x write 5 -- ok 4 done
do 2 x write 6 -- no 14 by 1
? conflict 2 -- 1
? conflict 9 -- 1 2
do 1 x write 6 -- no 14 by 2
abort 1 -- ok 5
do 2 x write 6 -- ok 6 done
# Sums commute, and a reading conflicts with them
begin 1 flat -- ok 1
begin 2 flat -- ok 2
do 1 n add 5 -- ok 3 done
do 2 n add 7 -- ok 4 done
do 2 n get -- no 14 by 1
abort 1 -- ok 5
do 2 n get -- ok 6 7
? view -- 2 3
? access 2 -- 2 3";

const SPLIT_JOIN: &str = "\
# A transaction splits off a part, and joins it with the rest
begin 1 part -- ok 1
do 1 x write 5 -- ok 2 done
do 1 n add 3 -- ok 3 done
split 1 2 part 2 -- ok 4
? access 1 -- 1
? access 2 -- 2
do 2 m add 1 -- ok 5 done
join 1 2 -- ok 6
? access 1 --
? access 2 -- 1 2 3
commit 1 -- no 7 by 1
join 1 2 -- no 7 by 1
abort 2 -- ok 7";

const PARTING: &str = "\
# A transaction that was split off must abort with the one that split
begin 1 part -- ok 1
split 1 2 part - -- ok 2
abort 1 -- ok 3
commit 2 -- no 22 by 2
join 2 1 -- no 10 by 1
begin 3 part -- ok 4
join 2 3 -- no 22 by 2
abort 2 -- ok 5
? edges -- CD 1 2 WD 2 1";

const NESTED: &str = "\
# Two commits hand on what a grandchild did
begin 1 top -- ok 1
do 1 n add 1 -- ok 2 done
spawn 1 2 sub -- ok 3
do 2 n add 2 -- ok 4 done
spawn 2 3 sub -- ok 5
do 3 n get -- ok 6 3
begin 4 top -- ok 7
do 4 m add 1 -- ok 8 done
? conflict 1 -- 2 3 4
? conflict 2 -- 3 4
? conflict 3 -- 4
? conflict 4 -- 1 2 3
? conflict 5 -- 1 2 3 4
commit 3 -- ok 9
? access 2 -- 2 3
? conflict 3 -- 4
commit 2 -- ok 10
? access 1 -- 1 2 3
? conflict 1 -- 4";

const UNTIED: &str = "\
# A child whose parent has aborted has no heir
begin 1 top -- ok 1
spawn 1 2 sub -- ok 2
abort 1 -- ok 3
commit 2 -- no 28 by 1
abort 2 -- ok 4
? edges --";

const RECOVERABLE: &str = "\
# A transaction waits for the one whose uncommitted write it has read
begin 1 loose -- ok 1
begin 2 loose -- ok 2
do 1 x write 5 -- ok 3 done
do 2 x read -- ok 4 5
? edges -- AD 2 1 TD 2 1
commit 2 -- no 21 by 2
abort 1 -- ok 5
commit 2 -- no 22 by 1
abort 2 -- ok 6";

const PERMITTING: &str = "\
# A permit holds for one object, in one direction
begin 1 flat -- ok 1
begin 2 flat -- ok 2
do 1 x write 5 -- ok 3 done
do 2 x read -- no 14 by 1
? conflict 2 -- 1
permit 1 2 x -- ok 4
? conflict 2 --
do 2 x read -- ok 5 5
? conflict 1 -- 2
do 1 n add 1 -- ok 6 done
do 2 n get -- no 14 by 3
do 1 x write 6 -- no 14 by 2
? conflict 2 -- 3
abort 1 -- ok 7
permit 1 2 x -- no 7 by 1
permit 2 3 x -- no 10 by 3
permit 2 2 x -- no 6 by 2
# A permit ends with the transaction that got it
begin 1 flat -- ok 1
begin 2 flat -- ok 2
do 1 x write 5 -- ok 3 done
permit 1 2 x -- ok 4
do 2 x read -- ok 5 5
do 1 x write 6 -- no 14 by 2
commit 2 -- ok 6
? conflict 2 -- 1
do 1 x write 6 -- ok 7 done
begin 3 flat -- ok 8
do 3 x read -- no 14 by 1
? conflict 2 -- 1 3
commit 1 -- ok 9
? conflict 2 --
? conflict 3 --";

const SHARING: &str = "\
# A permit is not passed on by a delegation
begin 1 part -- ok 1
begin 2 part -- ok 2
begin 3 part -- ok 3
do 1 x write 5 -- ok 4 done
permit 1 2 x -- ok 5
delegate 1 3 1 -- ok 6
do 2 x read -- no 14 by 1
? conflict 2 -- 1
permit 3 2 x -- ok 7
? conflict 2 --
do 2 x read -- ok 8 5";

const TRUSTING: &str = "\
# One of two holders permits
begin 1 loose -- ok 1
begin 2 loose -- ok 2
begin 3 loose -- ok 3
do 1 n add 1 -- ok 4 done
do 2 n add 2 -- ok 5 done
permit 1 3 n -- ok 6
do 3 n get -- ok 7 3
? edges -- AD 3 2 TD 3 2
do 1 n add 1 -- ok 8 done
? edges -- AD 3 2 TD 3 2 AD 1 3 TD 1 3";

const KINDRED: &str = "\
# A permit to a parent is none to its child, and ends with the commit of the one that gave it
begin 1 top -- ok 1
spawn 1 2 sub -- ok 2
begin 3 top -- ok 3
do 3 x write 5 -- ok 4 done
permit 3 1 x -- ok 5
do 2 x read -- no 14 by 1
do 1 x read -- ok 6 5
permit 3 2 x -- ok 7
do 2 x write 6 -- ok 8 done
permit 2 3 x -- ok 9
do 3 x read -- ok 10 6
commit 2 -- ok 11
? access 1 -- 2 3
do 3 x read -- no 14 by 3";

// Adds numbers of operations.
fn put_ops(rt: &impl Abort, text: &mut String, ops: &[OpNo]) {
    for op in ops {
        made(rt, write!(text, " {}", op.0), "a text");
    }
}

// The transaction of a number.
fn txn(rt: &impl Abort, word: &str) -> TxnId {
    TxnId(word.parse().ok().expect(rt, word))
}

// Adds the machine's answer.
fn put_reading<A: Handle>(rt: &impl Abort, text: &mut String, machine: &Machine<A>, asked: &str) {
    let (word, rest) = asked.split_once(' ').unwrap_or((asked, "0"));
    match word {
        "access" => put_ops(
            rt,
            text,
            &made(rt, machine.access_set(txn(rt, rest)), asked),
        ),
        "conflict" => put_ops(
            rt,
            text,
            &made(rt, machine.conflict_set(txn(rt, rest)), asked),
        ),
        "view" => put_ops(rt, text, &made(rt, machine.view_set(), asked)),
        _ => {
            for edge in machine.edges() {
                let (kind, j, i) = (edge.kind.word(), edge.j.0, edge.i.0);
                made(rt, write!(text, " {kind} {j} {i}"), "a text");
            }
        }
    }
}

// Asks the machine the question of the line, and compares the answer.
fn ask<A: Handle>(rt: &impl Abort, other: Global, machine: &Machine<A>, line: &str) {
    let (asked, due) = parted(rt, line, " --");
    let mut text = String::new(other);
    put_reading(rt, &mut text, machine, asked);
    expect_text(rt, text.as_bytes(), due, line);
}

// Gives the machine the event of the line, and compares the answer.
fn answer<A: Handle>(rt: &impl Abort, alloc: A, machine: &mut Machine<A>, line: &str) {
    let (parsed, due) = parted(rt, line, " -- ");
    let event = event_of(rt, alloc, machine.model(), parsed);
    let answer = made(rt, take(machine, &event), line);
    let found = made(rt, answer_line(alloc, &answer), line);
    expect_text(rt, found.as_slice(), due, line);
    drop(event);
}

// A machine that has gone through the lines of a scenario.
fn machine_after<A: Handle>(
    rt: &impl Abort,
    (alloc, other): (A, Global),
    model: &Model<A>,
    lines: &str,
) -> Machine<A> {
    let mut machine = made(rt, new_machine(alloc, model), "a machine");
    for line in lines.lines() {
        match line.strip_prefix("? ") {
            Some(asked) => ask(rt, other, &machine, asked),
            None => answer(rt, alloc, &mut machine, line),
        }
    }
    machine
}

// Runs the scenarios on the model of the text.
fn go<A: Handle + Send + Sync>(
    rt: &(impl Threads + Sync + Abort),
    (alloc, other): (A, Global),
    model: &str,
    scenarios: &str,
) {
    let model = model_of(rt, alloc, model);
    for scenario in scenarios.split("# ") {
        let (title, lines) = scenario.split_once('\n').unwrap_or(("", ""));
        let machine = machine_after(rt, (alloc, other), &model, lines);
        is_faultless(rt, (alloc, other), &machine, title);
        drop(machine);
    }
    drop(model);
}

#[test]
fn sets_and_edges_of_machines(rt: HostRuntime) {
    for (model, scenarios) in [
        (Standard::Atomic.text(), FLAT),
        (Standard::SplitJoin.text(), SPLIT_JOIN),
        (PARTING_MODEL, PARTING),
        (Standard::Nested.text(), NESTED),
        (UNTIED_MODEL, UNTIED),
        (Standard::Recoverable.text(), RECOVERABLE),
        (PERMITTING_MODEL, PERMITTING),
        (SHARING_MODEL, SHARING),
        (TRUSTING_MODEL, TRUSTING),
        (KINDRED_MODEL, KINDRED),
    ] {
        go(&rt, (rt.alloc(), rt.alloc()), model, scenarios);
    }
}

// An operation that is delegated: its first places, and its holder after each.
const HANDED: &str = "\
begin 1 part
begin 2 part
do 1 x write 5 = done
delegate 1 2 1
join 1 2
commit 2";

// The answers of places.
fn answers<A: Handle>(rt: &impl Abort, places: &Places<'_, A>) {
    let one = (places.start(TxnId(1)), places.join(TxnId(1)));
    same(rt, &one, &(Some(1), Some(5)), "the first transaction");
    let two = (places.commit(TxnId(2)), places.abort(TxnId(2)));
    same(rt, &two, &(Some(6), None), "the second transaction");
    let holders = (places.holder(OpNo(1), 3), places.holder(OpNo(1), 4));
    same(
        rt,
        &holders,
        &(Some(TxnId(1)), Some(TxnId(2))),
        "the holders",
    );
    let fates = (places.fate(OpNo(1), 5), places.fate(OpNo(1), 6));
    same(
        rt,
        &fates,
        &(Some(Fate::InProgress), Some(Fate::Committed)),
        "the fates",
    );
    same(rt, &places.edges().len(), &0, "no edge");
}

// The places of the list.
fn places_answer<A: Handle>(rt: &impl Abort, alloc: A) {
    let model = model_of(rt, alloc, Standard::SplitJoin.text());
    let kept = items_of(rt, alloc, &model, HANDED);
    let places = made(rt, places_of(alloc, &model, kept.as_slice()), "places");
    answers(rt, &places);
    drop(places);
    drop(kept);
    drop(model);
}

#[test]
fn places_of_a_list(rt: HostRuntime) {
    places_answer(&rt, rt.alloc());
}
