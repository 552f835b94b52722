//! A driven run: what its threads share, and its result.

ghost use Rattle.std.specs.Prelude.{◌≡◌, ◌+◌, ◌-◌, ◌<◌, ◌≤◌, ℕ, [], None, true, get_or, length, sum_by, vec_capacity, vec_len, Decides, IfErr, IfOk, IfSome, MatchResult};
ghost use Rattle.std.specs.Result.{ForOk};
ghost use Rattle.acta_locked.specs.Books.{events_of, seat_part};
ghost use Rattle.acta_locked.specs.Drives.{AreParts, EachLetOn, IsDriven, IsPart, fault_by, is_of_scripts, scripts_fault};
ghost use Rattle.acta_locked.specs.declared.limits.TheConstants.{MOST_WORKERS};
ghost use Rattle.acta_locked.specs.inside.Outcomes.{AreSeen, IsOfGate, IsOutcome, MayEnd, is_free};
ghost use Rattle.acta_locked.specs.declared.run.DriveError.TheVariants.{Memory, Unsettled};

use crate::book::{Book, Entry};
use crate::desk::{Job, LockedDesk, SharedLog};
use crate::limits::MOST_WORKERS;
use crate::watch::{Front, Watch, begins};
use crate::worker::{Gate, Report, Script, WorkError, work};
use acta_judge::judge;
use acta_machine::Handle;
use acta_table::{Event, Items, MOST_EVENTS, Model};
use std::alloc::{AllocError, Allocator};
use std::marker::PhantomData;
use std::sync::ledger::Share;
use std::sync::{Mutex, Wait};
use std::thread::{self, Promise, PromisedHandle, Scope, Threads};

/// The result of a driven run: the book, and the reports in order of seats.
#[derive(Drop)]
pub struct Driven<A: Handle> {
    pub book: Book<A>,
    pub reports: Items<Report<A>, A>,
}

/// Why a driven run has no result. The first three are found before any thread starts, the lowest first. `Memory` may
/// replace any of the others.
#[derive(Clone, Copy, PartialEq, Eq, Debug)]
pub enum DriveError {
    /// There is no script.
    NoWorker,
    /// There are more than 16 scripts.
    TooManyWorkers,
    /// The scripts have more than 65,536 events together.
    TooManyEvents,
    /// Memory ran out.
    Memory,
    /// A thread could not be started.
    NoThread,
    /// The gate gave up at this seat.
    GaveUp(u8),
    /// A report is not its seat's part of the book, or does not answer its script.
    Unsettled,
}

impl From<AllocError> for DriveError {
    ghost from_gives = { λ _ e. e ≡ Memory };

    fn from(_error: AllocError) -> DriveError {
        DriveError::Memory
    }
}

impl From<WorkError> for DriveError {
    ghost from_gives = { λ w e. e ≡ fault_by w };

    // A worker that met a full book has no report, and so differs from its script.
    fn from(error: WorkError) -> DriveError {
        match error {
            WorkError::GaveUp(seat) => DriveError::GaveUp(seat),
            WorkError::BookFull => DriveError::Unsettled,
            WorkError::Memory => DriveError::Memory,
        }
    }
}

// Whether the scripts have more events together than a book has room for.
fn are_too_long<A: Allocator>(scripts: &[Script<A>]) -> bool
    ensures { Decides result (MOST_EVENTS < sum_by length scripts.now) }
{
    let mut room = MOST_EVENTS;
    for script in scripts {
        let calls = script.as_slice().len();
        if calls > room {
            return true;
        }
        room -= calls;
    }
    false
}

/// Why the scripts are not run.
pub(crate) fn fault_of<A: Allocator>(scripts: &[Script<A>]) -> Option<DriveError>
    ensures fault { result ≡ scripts_fault scripts.now }
    ensures few { result ≡ None → length scripts.now ≤ MOST_WORKERS }
    ensures of_scripts { IfSome result (λ e. is_of_scripts e ≡ true) }
{
    if scripts.is_empty() {
        Some(DriveError::NoWorker)
    } else if scripts.len() > MOST_WORKERS {
        Some(DriveError::TooManyWorkers)
    } else if are_too_long(scripts) {
        Some(DriveError::TooManyEvents)
    } else {
        None
    }
}

/// What a worker's thread returns: the report, and the share that has counted its entries.
#[derive(Drop)]
pub struct Done<A: Allocator, J: Job<A>> {
    pub share: Share<J>,
    pub outcome: Result<Report<A>, WorkError>,
    pub ghost one_part: { share.parts ≡ 1 },
    pub ghost counted: { ForOk outcome (λ report. length report.entries ≡ share.amount) },
}

/// All reports, in order of seats, and the combined share of all threads, which has counted their entries.
#[derive(Drop)]
pub struct Gathered<A: Allocator, J: Job<A>> {
    pub all: Share<J>,
    pub reports: Vec<Report<A>, A>,
    pub ghost counted: { all.amount ≡ sum_by (λ report. length report.entries) reports.items },
}

// A seat, whose thread promises an outcome of this seat; or the number of turns of the judging thread, which promises as
// many fronts.
#[derive(Clone, Copy)]
struct Task(u8);

impl<A: Allocator, J: Job<A>> Promise<Done<A, J>> for Task {
    ghost kept_by = { λ p done. IsOutcome J.may_stop J.may_pass J.may_go_on p.0 (get_or J.scripts (p.0 - 1) []) done.outcome };
}

impl<A: Allocator, J: Job<A>> Promise<Result<Watch<A, J>, DriveError>> for Task {
    ghost kept_by = { λ p r. MatchResult r (λ w. AreSeen J.model p.0 w.history.items w.fronts.items) (λ e. is_free e ≡ true) };
}

// Joins the threads, in order of seats, and combines their results, or returns why the lowest seat that failed has none.
fn joined<A: Allocator, J: Job<A>, R: Threads>(
    rt: &R,
    running: Vec<PromisedHandle<Done<A, J>, Task>, A>,
    rest: Share<J>,
    reports: Vec<Report<A>, A>,
) -> Result<Gathered<A, J>, DriveError>
    requires none { rest.amount ≡ 0 }
    requires empty { vec_len reports ≡ 0 }
    requires room { vec_len running ≤ vec_capacity reports }
    requires few { vec_len running ≤ length J.scripts }
    requires seats { (k : ℕ) (r : _) → k < vec_len running → (get_or running.items k r).promise.0 ≡ k + 1 }
    ensures { MatchResult result (λ g. (g.all.parts ≡ rest.parts + vec_len running) × EachLetOn J.may_pass J.may_go_on g.reports.items) (MayEnd J.may_stop J.scripts) }
{
    let (mut all, mut reports, mut fault) = (rest, reports, None);
    for one in running {
        let Done { share, outcome } = one.join(rt);
        all.merge(share);
        match outcome {
            Ok(report) => {
                let Ok(()) = reports.push(report) else {
                    unreachable!()
                };
            }
            Err(error) => fault = fault.or(Some(error.into())),
        }
    }
    match fault {
        Some(fault) => Err(fault),
        None => Ok(Gathered { all, reports }),
    }
}

// The result of a run or of its threads.
type DriveResult<T> = Result<T, DriveError>;

type Ended<A, J> = DriveResult<(Gathered<A, J>, Watch<A, J>)>;

/// What the threads of a run share: the model, the book under its lock, the scripts of the seats, from 1, and the gate.
#[derive(Drop)]
pub struct Run<'s, A: Handle, J: Job<A>, R: Wait, G: Gate<Entry<A>>> {
    pub rt: &'s R,
    pub alloc: A,
    pub model: &'s Model<A>,
    pub shared_log: &'s Mutex<SharedLog<A, J>>,
    pub scripts: &'s [Script<A>],
    pub gate: &'s G,
    pub turns: u8,
    pub ghost of_model: { model.now ≡ J.model },
    pub ghost of_scripts: { scripts.now ≡ J.scripts },
    pub ghost few: { length scripts.now ≤ MOST_WORKERS },
}

impl<
    's,
    A: Handle + Send + Sync + 's,
    J: Job<A> + Send + Sync + 's,
    R: Threads + Wait + Sync + 's,
    G: Gate<Entry<A>> + Sync + 's,
> Run<'s, A, J, R, G> {
    // The work of the thread of a seat.
    fn work(&self, seat: u8, share: Share<J>, script: &Script<A>) -> Done<A, J>
        requires fresh { (share.parts ≡ 1) × (share.amount ≡ 0) }
        requires of_seat { script.now ≡ get_or J.scripts (seat - 1) [] }
        requires of_gate { IsOfGate (G.may_stop self.now.gate.now) (G.may_pass self.now.gate.now) (G.may_go_on self.now.gate.now) J.may_stop J.may_pass J.may_go_on }
        ensures { IsOutcome J.may_stop J.may_pass J.may_go_on seat (get_or J.scripts (seat - 1) []) result.outcome }
    {
        let mut desk = LockedDesk {
            seat,
            share,
            shared_log: self.shared_log,
            rt: self.rt,
        };
        let outcome = work(self.alloc, &mut desk, script, self.gate);
        let LockedDesk { share, .. } = desk;
        Done { share, outcome }
    }

    // Starts a thread for each script, and joins each that was started, even if one could not be.
    fn workers<E: 's>(&'s self, scope: &Scope<'s, E>, rest: Share<J>) -> DriveResult<Gathered<A, J>>
        requires fresh { (rest.parts ≡ length J.scripts + 1) × (rest.amount ≡ 0) }
        requires of_gate { IsOfGate (G.may_stop self.now.gate.now) (G.may_pass self.now.gate.now) (G.may_go_on self.now.gate.now) J.may_stop J.may_pass J.may_go_on }
        ensures { MatchResult result (λ g. (g.all.parts ≡ length J.scripts + 1) × EachLetOn J.may_pass J.may_go_on g.reports.items) (MayEnd J.may_stop J.scripts) }
    {
        let mut rest = rest;
        let reports = Vec::with_capacity(self.alloc, self.scripts.len())?;
        let mut running = Vec::with_capacity(self.alloc, self.scripts.len())?;
        for k in 0..self.scripts.len() {
            let share = rest.split_off(1, 0);
            let seat = k as u8 + 1;
            let script = &self.scripts[k];
            let job = move || -> Done<A, J>
                requires { (share.parts ≡ 1) × (share.amount ≡ 0) × (script.now ≡ get_or J.scripts (seat - 1) []) × IsOfGate (G.may_stop self.now.gate.now) (G.may_pass self.now.gate.now) (G.may_go_on self.now.gate.now) J.may_stop J.may_pass J.may_go_on }
                ensures { IsOutcome J.may_stop J.may_pass J.may_go_on seat (get_or J.scripts (seat - 1) []) result.outcome }
            { self.work(seat, share, script) };
            let Ok(one) = scope.spawn_with(Task(seat), job) else {
                drop(joined(self.rt, running, rest, reports));
                return Err(DriveError::NoThread);
            };
            let Ok(()) = running.push(one) else {
                unreachable!()
            };
        }
        joined(self.rt, running, rest, reports)
    }

    // In each turn copies the history under the lock, judges the copy outside it, and shows the front to the gate.
    fn judge(&self) -> Result<Watch<A, J>, DriveError>
        ensures { MatchResult result (λ w. AreSeen J.model self.now.turns w.history.items w.fronts.items) (λ e. is_free e ≡ true) }
    {
        let mut history = Vec::new(self.alloc);
        let mut fronts = Vec::with_capacity(self.alloc, self.turns as usize)?;
        for turn in 0..self.turns {
            let copy = self.shared_log.lock(self.rt).history(self.alloc)?;
            // (the history of a book is never too long for a verdict)
            let Ok(verdict) = judge(self.rt, self.alloc, self.model, copy.as_slice()) else {
                return Err(DriveError::Memory);
            };
            if !begins(history.as_slice(), copy.as_slice()) {
                return Err(DriveError::Unsettled);
            }
            let length = copy.len();
            let Ok(()) = fronts.push(Front { length, verdict }) else {
                unreachable!()
            };
            history = copy;
            self.gate.judged(turn + 1, &fronts[turn as usize]);
        }
        Ok(Watch {
            history,
            fronts,
            job: PhantomData,
        })
    }

    /// Runs each script in its own thread, and the judging in one more if it has turns. Returns once all threads have ended.
    pub fn run(&'s self, rest: Share<J>) -> Ended<A, J>
        requires fresh { (rest.parts ≡ length J.scripts + 1) × (rest.amount ≡ 0) }
        requires of_gate { IsOfGate (G.may_stop self.now.gate.now) (G.may_pass self.now.gate.now) (G.may_go_on self.now.gate.now) J.may_stop J.may_pass J.may_go_on }
        ensures { MatchResult result (λ r. (r.0.all.parts ≡ length J.scripts + 1) × EachLetOn J.may_pass J.may_go_on r.0.reports.items × AreSeen J.model self.now.turns r.1.history.items r.1.fronts.items) (MayEnd J.may_stop J.scripts) }
    {
        thread::scope(
            thread::scope_env(),
            self.rt,
            |scope| -> Ended<A, J>
                requires { (rest.parts ≡ length J.scripts + 1) × (rest.amount ≡ 0) × IsOfGate (G.may_stop self.now.gate.now) (G.may_pass self.now.gate.now) (G.may_go_on self.now.gate.now) J.may_stop J.may_pass J.may_go_on }
                ensures { MatchResult result (λ r. (r.0.all.parts ≡ length J.scripts + 1) × EachLetOn J.may_pass J.may_go_on r.0.reports.items × AreSeen J.model self.entry.now.turns r.1.history.items r.1.fronts.items) (MayEnd J.may_stop J.scripts) }
            {
                if self.turns == 0 {
                    return Ok((self.workers(scope, rest)?, self.judge()?));
                }
                let job = move || -> DriveResult<Watch<A, J>>
                    ensures { MatchResult result (λ w. AreSeen J.model self.entry.now.turns w.history.items w.fronts.items) (λ e. is_free e ≡ true) }
                { self.judge() };
                let Ok(judging) = scope.spawn_with(Task(self.turns), job) else {
                    return Err(DriveError::NoThread);
                };
                let gathered = self.workers(scope, rest);
                let watch = judging.join(self.rt);
                Ok((gathered?, watch?))
            },
        )
    }
}

// Whether the entries are of these events, in order.
fn answers_script<A: Allocator>(entries: &[Entry<A>], script: &[Event<A>]) -> bool
    ensures { Decides result (events_of entries.now ≡ script.now) }
{
    if entries.len() != script.len() {
        return false;
    }
    for k in 0..script.len() {
        if !entries[k].event.is_same(&script[k]) {
            return false;
        }
    }
    true
}

// Whether the report is the seat's part of the entries.
fn is_part<A: Allocator>(entries: &[Entry<A>], seat: u8, report: &[Entry<A>]) -> bool
    ensures { Decides result (report.now ≡ seat_part seat entries.now) }
{
    let mut next = 0;
    for entry in entries {
        if entry.seat == seat {
            if next >= report.len() || !entry.is_same(&report[next]) {
                return false;
            }
            next += 1;
        }
    }
    next == report.len()
}

// Whether the report is that of the seat, is its part of the book, and answers the script.
fn is_settled<A: Handle>(book: &Book<A>, seat: u8, script: &Script<A>, report: &Report<A>) -> bool
    ensures { Decides result (IsPart book.now seat script.now report.now) }
{
    report.seat == seat
        && is_part(book.entries(), seat, report.entries.as_slice())
        && answers_script(report.entries.as_slice(), script.as_slice())
}

// Whether each report is its seat's part of the book, and answers its script.
fn are_settled<A: Handle>(book: &Book<A>, scripts: &[Script<A>], reports: &[Report<A>]) -> bool
    requires few { length scripts.now ≤ MOST_WORKERS }
    ensures { Decides result (AreParts book.now 1 scripts.now reports.now) }
{
    if reports.len() != scripts.len() {
        return false;
    }
    for k in 0..scripts.len() {
        if !is_settled(book, k as u8 + 1, &scripts[k], &reports[k]) {
            return false;
        }
    }
    true
}

/// The book and the reports, if these are its parts and answer the scripts, otherwise `Unsettled`.
pub(crate) fn settled<A: Handle, J: Job<A>>(
    shared_log: SharedLog<A, J>,
    gathered: Gathered<A, J>,
    scripts: &[Script<A>],
) -> Result<Driven<A>, DriveError>
    requires few { length scripts.now ≤ MOST_WORKERS }
    requires parts { gathered.all.parts ≡ J.parts }
    ensures same { IfOk result (λ d. d.reports ≡ gathered.reports.items) }
    ensures why { IfErr result (λ e. (e ≡ Unsettled) × (AreParts shared_log.book 1 scripts.now gathered.reports.items → ⊥)) }
    ensures driven { IfOk result (IsDriven J.model scripts.now) }
{
    let Gathered { mut all, reports } = gathered;
    let book = shared_log.close(&mut all);
    if !are_settled(&book, scripts, reports.as_slice()) {
        return Err(DriveError::Unsettled);
    }
    let reports = Items::of(reports);
    Ok(Driven { book, reports })
}
