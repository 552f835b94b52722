//! Why a drive has no result: the faults of its scripts, and a gate that gives up.

use crate::driving::gates::{Pass, Shut};
use crate::driving::scripts::{ADDITIONS, fault_of, scripts};
use crate::expecting::{made, same};
use acta_locked::{DriveError, OpenGate, Script};
use acta_machine::Handle;
use acta_models::Standard;
use acta_table::{Event, TxnId};
use std::alloc::Allocator;
use std::process::Abort;
use std::sync::Wait;
use std::thread::Threads;

// The script that commits the first transaction so often.
fn commits<A: Allocator + Copy>(rt: &impl Abort, alloc: A, times: usize) -> Script<A> {
    let mut events = made(rt, Vec::with_capacity(alloc, times), "a script");
    for _ in 0..times {
        made(rt, events.push(Event::Commit(TxnId(1))), "a script");
    }
    Script::of(events)
}

// Scripts of so many such commits each.
fn all_commits<A: Allocator + Copy>(
    rt: &impl Abort,
    alloc: A,
    calls: &[usize],
) -> Vec<Script<A>, A> {
    let mut scripts = Vec::new(alloc);
    for times in calls {
        made(rt, scripts.push(commits(rt, alloc, *times)), "scripts");
    }
    scripts
}

// Scripts of so many commits each are not run, for this reason.
fn are_barred<A: Handle + Send + Sync, R: Threads + Wait + Sync + Abort>(
    rt: &R,
    alloc: A,
    calls: &[usize],
    why: DriveError,
) {
    let scripts = all_commits(rt, alloc, calls);
    let found = fault_of(rt, alloc, Standard::Atomic, scripts.as_slice(), &OpenGate);
    same(rt, &found, &Some(why), "barred scripts");
}

// If the gate returns false at these places, the run gives up at the seat.
fn gives_up<A: Handle + Send + Sync, R: Threads + Wait + Sync + Abort>(
    rt: &R,
    alloc: A,
    at: &[Pass],
    seat: u8,
) {
    let scripts = scripts(rt, alloc, &ADDITIONS);
    let found = fault_of(
        rt,
        alloc,
        Standard::Atomic,
        scripts.as_slice(),
        &Shut { at },
    );
    same(
        rt,
        &found,
        &Some(DriveError::GaveUp(seat)),
        "a gate that gives up",
    );
}

// Each place of two workers with two calls each, alone; and a place of each, where the fault names the lower seat.
fn gives_up_anywhere<A: Handle + Send + Sync, R: Threads + Wait + Sync + Abort>(rt: &R, alloc: A) {
    for seat in [1u8, 2] {
        for call in [1usize, 2] {
            for is_after in [false, true] {
                let at = [Pass {
                    seat,
                    call,
                    is_after,
                }];
                gives_up(rt, alloc, &at, seat);
            }
        }
    }
    let both = [
        Pass {
            seat: 2,
            call: 1,
            is_after: false,
        },
        Pass {
            seat: 1,
            call: 2,
            is_after: true,
        },
    ];
    gives_up(rt, alloc, &both, 1);
}

#[test]
fn drives_that_have_no_result(rt: HostRuntime) {
    let alloc = rt.alloc();
    are_barred(&rt, alloc, &[], DriveError::NoWorker);
    are_barred(&rt, alloc, &[1; 17], DriveError::TooManyWorkers);
    // (TooManyWorkers comes before TooManyEvents)
    are_barred(&rt, alloc, &[4_000; 17], DriveError::TooManyWorkers);
    are_barred(&rt, alloc, &[32_768, 32_769], DriveError::TooManyEvents);
    gives_up_anywhere(&rt, alloc);
}
