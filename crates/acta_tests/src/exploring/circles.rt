//! Seats that wait for each other at ends of programs.

use crate::expecting::{expect_text, made};
use crate::exploring::{FOUR, programs_of};
use crate::models::model_of;
use acta_explore::{Plan, deadlock, explore};
use acta_machine::Handle;
use acta_models::Standard;
use std::alloc::{Allocator, Global};
use std::process::Abort;

// The seats, each after a space.
fn put_seats<A: Allocator>(rt: &impl Abort, other: Global, seats: &[u8], text: &mut String<A>) {
    for seat in seats {
        let word = made(rt, format!(in other; " {seat}"), "a seat");
        made(rt, text.push_str(word.as_str()), "a text");
    }
}

// The cycle found from the seat at each end of the programs; a dash if there is none.
fn circles<A: Handle>(
    rt: &impl Abort,
    (alloc, other): (A, Global),
    (model, lines): (&str, &str),
    seat: u8,
) -> String {
    let model = model_of(rt, alloc, model);
    let programs = programs_of(rt, alloc, &model, lines);
    let explored = explore(alloc, &model, programs.as_slice(), 1_000, &mut ());
    let explored = made(rt, explored, lines);
    let plan = made(rt, Plan::of(alloc, programs.as_slice()), lines);
    let mut text = String::new(other);
    for place in 0..explored.len() {
        let end = explored.end(place).expect(rt, lines);
        match made(rt, deadlock(alloc, &plan, end, seat), lines) {
            Some(seats) => put_seats(rt, other, seats.as_slice(), &mut text),
            None => made(rt, text.push_str(" -"), lines),
        }
        made(rt, text.push_str(";"), lines);
    }
    drop(plan);
    drop(explored);
    drop(programs);
    drop(model);
    text
}

const CROSSED: &str = "\
1 begin 1 flat
1 do 1 x1 write 5
1 do 1 x2 write 6
1 commit 1
2 begin 2 flat
2 do 2 x2 write 7
2 do 2 x1 write 8
2 commit 2";

// Two seats write the same two objects in opposite orders.
#[test]
fn two_that_cross(rt: HostRuntime) {
    for (seat, due) in [
        (1u8, " 1 2 1; -; -;"),
        (2, " 2 1 2; -; -;"),
        (3, " -; -; -;"),
    ] {
        let found = circles(&rt, (rt.alloc(), rt.alloc()), (FOUR, CROSSED), seat);
        expect_text(&rt, found.as_bytes(), due, CROSSED);
    }
}

const ROUND: &str = "\
1 begin 1 flat
1 do 1 x1 write 1
1 do 1 x2 write 1
2 begin 2 flat
2 do 2 x2 write 2
2 do 2 x3 write 2
3 begin 3 flat
3 do 3 x3 write 3
3 do 3 x1 write 3";

// Each of three writes what the next one wrote before, and none of them commits. At three of the four ends one of them has
// written twice, and what waits for it waits for no seat.
#[test]
fn three_in_a_round(rt: HostRuntime) {
    let found = circles(&rt, (rt.alloc(), rt.alloc()), (FOUR, ROUND), 2);
    expect_text(&rt, found.as_bytes(), " -; -; 2 3 1 2; -;", ROUND);
}

// A seat that waits for a transaction that begins by its own later line.
#[test]
fn one_alone(rt: HostRuntime) {
    let programs = (Standard::Atomic.text(), "1 commit 1\n1 begin 1 flat");
    let found = circles(&rt, (rt.alloc(), rt.alloc()), programs, 1);
    expect_text(&rt, found.as_bytes(), " 1 1;", programs.1);
}

// A seat that waits for a transaction that no line begins, and one that waits for a transaction whose lines were all done.
#[test]
fn nobody_to_wait_for(rt: HostRuntime) {
    let atomic = Standard::Atomic.text();
    for (lines, seat, due) in [
        ("1 commit 1", 1u8, " -;"),
        ("2 do 2 m add 7\n2 commit 2", 2, " -;"),
        (
            "1 begin 1 flat\n1 do 1 x write 1\n2 begin 2 flat\n2 do 2 x write 2",
            2,
            " -; -;",
        ),
    ] {
        let found = circles(&rt, (rt.alloc(), rt.alloc()), (atomic, lines), seat);
        expect_text(&rt, found.as_bytes(), due, lines);
    }
}
