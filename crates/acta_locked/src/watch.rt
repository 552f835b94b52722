//! Driven runs over one book, optionally with a thread that judges the history while the workers make it.

ghost use Rattle.std.specs.Prelude.{◌≡◌, ◌+◌, ◌≤◌, ◌++◌, true, drop, length, Err, Some, IfErr, IfOk, MatchResult};
ghost use Rattle.acta_locked.specs.Books.{state_of};
ghost use Rattle.acta_locked.specs.Drives.{EachLetOn, IsDriven, MayFail, is_of_scripts, scripts_fault};
ghost use Rattle.acta_locked.specs.Fronts.{AreFronts};
ghost use Rattle.acta_locked.specs.inside.Outcomes.{IsOfGate, MayEnd};
ghost use Rattle.acta_locked.specs.inside.Watches.{IsWatched};
ghost use Rattle.acta_locked.specs.declared.run.DriveError.{DriveError};

use crate::book::{Book, Entry};
use crate::desk::{Job, SharedLog};
use crate::limits::MOST_WORKERS;
use crate::run::{DriveError, Driven, Run, fault_of, settled};
use crate::worker::{Gate, Script};
use acta_judge::Verdict;
use acta_machine::Handle;
use acta_table::{Items, Kept, Model};
use std::alloc::Allocator;
use std::marker::{Brand, PhantomData};
use std::sync::ledger::Blank;
use std::sync::{Mutex, Wait};
use std::thread::Threads;

/// The verdict on the first items of a history, and their number.
#[derive(Drop)]
pub struct Front<A: Allocator> {
    pub length: usize,
    pub verdict: Verdict<A>,
}

/// The state of a judging thread: the last copy of the history, and a front for each copy.
#[derive(Drop)]
pub struct Watch<A: Allocator, J: Job<A>> {
    pub history: Vec<Kept<A>, A>,
    pub fronts: Vec<Front<A>, A>,
    pub job: PhantomData<J>,
}

/// Whether the second list begins with the first.
pub fn begins<A: Allocator>(first: &[Kept<A>], second: &[Kept<A>]) -> bool
    ensures { result ≡ true → second.now ≡ first.now ++ drop (length first.now) second.now }
{
    if second.len() < first.len() {
        return false;
    }
    for k in 0..first.len() {
        if first[k].ret != second[k].ret || !first[k].event.is_same(&second[k].event) {
            return false;
        }
    }
    true
}

/// The result of a watched run: that of a driven run, and a front for each turn of the judging thread.
#[derive(Drop)]
pub struct Watched<A: Handle> {
    pub driven: Driven<A>,
    pub fronts: Items<Front<A>, A>,
}

// The watched run of valid scripts, with a ledger of one part for each worker and one more.
fn watch_run<
    A: Handle + Send + Sync,
    J: Job<A> + Send + Sync,
    R: Threads + Wait + Sync,
    G: Gate<Entry<A>> + Sync,
>(
    rt: &R,
    alloc: A,
    blank: Blank,
    model: Model<A>,
    scripts: &[Script<A>],
    gate: &G,
    turns: u8,
) -> Result<Watched<A>, DriveError>
    requires name { blank.name ≡ J.name }
    requires cut { blank.parts ≡ J.parts }
    requires one_more { blank.parts ≡ length scripts.now + 1 }
    requires few { length scripts.now ≤ MOST_WORKERS }
    requires of_model { model ≡ J.model }
    requires of_gate { IsOfGate (G.may_stop gate.now) (G.may_pass gate.now) (G.may_go_on gate.now) J.may_stop J.may_pass J.may_go_on }
    requires of_scripts { scripts.now ≡ J.scripts }
    ensures { MatchResult result (IsWatched J.may_pass J.may_go_on model scripts.now turns) (MayEnd J.may_stop scripts.now) }
{
    let (calls, rest) = blank.open::<J>();
    let copy = model.copy()?;
    let shared_log = Mutex::new(SharedLog::new(Book::new(alloc, model)?, calls));
    let run = Run {
        rt,
        alloc,
        model: &copy,
        shared_log: &shared_log,
        scripts,
        gate,
        turns,
    };
    let (gathered, watch) = run.run(rest)?;
    let driven = settled(shared_log.into_inner(), gathered, scripts)?;
    if !begins(watch.history.as_slice(), driven.book.machine().history()) {
        drop(driven);
        return Err(DriveError::Unsettled);
    }
    let fronts = Items::of(watch.fronts);
    Ok(Watched { driven, fronts })
}

/// As `drive`, with one more thread that in each of `turns` turns copies the kept history under the lock, judges the copy
/// outside it, and shows the front to the gate. With 0 turns there is no such thread. On `Ok` each front is of the first
/// items of the book's history, and the lengths never fall. Returns `NoThread` if the judging thread could not be started.
/// After the faults of the seats, returns `Memory` if the judging thread runs out of memory, and `Unsettled` if a copy is
/// not a front of the book's history. Not promised: when a copy is made.
pub fn drive_watched<A: Handle + Send + Sync, R: Threads + Wait + Sync, G: Gate<Entry<A>> + Sync>(
    rt: &R,
    alloc: A,
    model: Model<A>,
    scripts: &[Script<A>],
    gate: &G,
    turns: u8,
) -> Result<Watched<A>, DriveError>
    ensures driven { IfOk result (λ w. IsDriven model scripts.now w.driven) }
    ensures turns { IfOk result (λ w. length w.fronts ≡ turns) }
    ensures fronts { IfOk result (λ w. AreFronts model (state_of w.driven.book).kept w.fronts) }
    ensures blocked { (e : DriveError) → scripts_fault scripts.now ≡ Some e → result ≡ Err e }
    ensures only { IfErr result (λ e. is_of_scripts e ≡ true → scripts_fault scripts.now ≡ Some e) }
    ensures let_on { IfOk result (λ w. EachLetOn (G.may_pass gate.now) (G.may_go_on gate.now) w.driven.reports) }
    ensures why { IfErr result (MayFail (G.may_stop gate.now) scripts.now) }
{
    if let Some(fault) = fault_of(scripts) {
        return Err(fault);
    }
    let blank = Blank::new(scripts.len() as u64 + 1);
    watch_run::<A, Brand, R, G>(rt, alloc, blank, model, scripts, gate, turns)
}

/// Runs each script in its own thread, over one book of the model, with the gate called around each call. On `Ok` the book
/// has as many entries as the workers made calls, and each seat's report is its part of the book, whose events are its
/// script, in order. Returns `NoWorker`, `TooManyWorkers` and `TooManyEvents`, the lowest first, exactly if they apply,
/// before any thread starts. Later errors come after all started threads have ended: `NoThread` if one could not be started,
/// otherwise the fault of the lowest seat that failed (`GaveUp` or `Memory`), otherwise `Unsettled`. Not promised: the order
/// in which the threads reach the book, fairness, and termination.
pub fn drive<A: Handle + Send + Sync, R: Threads + Wait + Sync, G: Gate<Entry<A>> + Sync>(
    rt: &R,
    alloc: A,
    model: Model<A>,
    scripts: &[Script<A>],
    gate: &G,
) -> Result<Driven<A>, DriveError>
    ensures driven { IfOk result (IsDriven model scripts.now) }
    ensures blocked { (e : DriveError) → scripts_fault scripts.now ≡ Some e → result ≡ Err e }
    ensures only { IfErr result (λ e. is_of_scripts e ≡ true → scripts_fault scripts.now ≡ Some e) }
    ensures let_on { IfOk result (λ d. EachLetOn (G.may_pass gate.now) (G.may_go_on gate.now) d.reports) }
    ensures why { IfErr result (MayFail (G.may_stop gate.now) scripts.now) }
{
    let watched = drive_watched(rt, alloc, model, scripts, gate, 0)?;
    Ok(watched.driven)
}
