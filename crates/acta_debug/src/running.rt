//! Runs to the next place at which a break holds.

ghost use Rattle.std.specs.Prelude.{◌≡◌, length, IfOk, OnOk};
ghost use Rattle.acta_debug.specs.Stops.{stop_of, stopped_at};
ghost use Rattle.acta_debug.specs.inside.Shown.{IsInside, session_of};

use crate::breaks::{Break, Stop, lowest_that_holds};
use acta_machine::{Handle, Machine};
use acta_table::Kept;
use std::alloc::AllocError;

/// The number of events before the place where a run stopped, if the history has `last` events.
pub fn place_of(stop: Stop, last: usize) -> usize
    ensures { result ≡ stopped_at last stop }
{
    match stop {
        Stop::Broke { place, .. } => place as usize,
        Stop::Finished => last,
    }
}

/// Lets the machine, which has taken the first `at` events, take the following ones up to the first after which a break
/// holds, and returns where it stopped. On `Err` some may have been taken.
pub fn run_on<A: Handle>(
    machine: &mut Machine<A>,
    history: &[Kept<A>],
    at: usize,
    breaks: &[Break],
) -> Result<Stop, AllocError>
    requires { IsInside machine.old history.now at }
    ensures stop { IfOk result (λ stop. stop ≡ stop_of (session_of machine.old history.now at breaks.now)) }
    ensures inside { IfOk result (λ stop. IsInside machine.new history.now (stopped_at (length history.now) stop)) }
    ensures model { OnOk result (machine.new.model ≡ machine.old.model) }
{
    for k in at..history.len() {
        let item = &history[k];
        machine.take(&item.event)?;
        if let Some(number) = lowest_that_holds(breaks, &item.event, machine)? {
            return Ok(Stop::Broke {
                number,
                place: k as u32 + 1,
            });
        }
    }
    Ok(Stop::Finished)
}
