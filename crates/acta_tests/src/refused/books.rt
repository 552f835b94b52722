//! Calls of books and desks, verdicts on books, and driven runs, each allocation refused in turn.

use crate::driving::books::{answers, taken};
use crate::driving::desks::{ANSWERS, CALLS, reported};
use crate::driving::scripts::{ADDITIONS, script, scripts};
use crate::expecting::{holds, made, same};
use crate::judging::lines_of;
use crate::models::{assembled, model_of};
use crate::refused::{MOST, Setting, at_least, is_over, refuse};
use crate::shown::{of_book, put};
use acta_locked::{
    Book, DriveError, Entry, OpenGate, PlainDesk, Report, Script, drive, drive_watched,
};
use acta_machine::Handle;
use acta_models::Standard;
use acta_table::Event;
use refusing::{Case, Refusing};
use std::alloc::{AllocError, Allocator, Global};
use std::process::Abort;
use std::sync::Wait;
use std::thread::Threads;

// A book of the model that has taken the calls before.
fn book_after<A: Handle>(rt: &impl Abort, alloc: A, name: Standard, calls: &[Event<A>]) -> Book<A> {
    let model = model_of(rt, alloc, name.text());
    let mut book = made(rt, Book::new(alloc, model), "a book");
    for event in calls {
        let event = made(rt, event.copy(), "an event");
        made(rt, taken(&mut book, event), "a call");
    }
    book
}

// One more call of a book.
#[derive(Drop)]
struct Taking<'a, 's, R, A: Handle> {
    on: &'a Setting<'s, R, A>,
    before: &'a [Event<A>],
    event: &'a Event<A>,
}

impl<'a, 's, R: Abort, A: Handle> Case for Taking<'a, 's, R, A> {
    type State = Book<A>;

    type Answer = Entry<A>;

    fn start(&self) -> Book<A> {
        book_after(self.on.rt, self.on.alloc, Standard::SplitJoin, self.before)
    }

    fn call(&self, book: &mut Book<A>) -> Option<Entry<A>> {
        let event = self.event.copy().ok()?;
        taken(book, event).ok()
    }

    // How many entries and events there are.
    fn describe(&self, answer: &Entry<A>, book: &Book<A>) -> String {
        let mut text = String::new(self.on.other);
        put(self.on.rt, &mut text, &answer.number);
        put(self.on.rt, &mut text, &book.entries().len());
        put(self.on.rt, &mut text, &book.machine().history().len());
        text
    }

    fn read(&self, book: &Book<A>) -> String {
        of_book(self.on.rt, self.on.other, book)
    }
}

// Calls of a book, the third of which is refused.
const TAKEN: &str = "\
begin 1 part
begin 2 part
begin 1 part
do 1 x write 5
do 1 s insert 3
delegate 1 2 1,2
do 1 n add 1
split 1 4 part 3
join 1 2
commit 2";

// One call more, each allocation refused. Returns how many were.
fn refuse_call<'a, 's, R: Abort, A: Handle, B: Allocator>(
    on: &'a Setting<'s, R, A>,
    heap: &Refusing<B>,
    (before, event): (&'a [Event<A>], &'a Event<A>),
    due: &str,
) -> u64 {
    refuse(on.rt, heap, &Taking { on, before, event }, due)
}

fn refuse_calls<R: Abort, A: Handle, B: Allocator>(on: &Setting<'_, R, A>, heap: &Refusing<B>) {
    let model = model_of(on.rt, on.alloc, Standard::SplitJoin.text());
    let calls = script(on.rt, on.alloc, &model, TAKEN);
    let (mut number, mut refused) = (0usize, 0u64);
    for event in calls.as_slice() {
        let before = calls.as_slice().get(..number).unwrap_or(&[]);
        number = number.wrapping_add(1);
        let admitted = if number < 3 {
            number
        } else {
            number.wrapping_sub(1)
        };
        let due = format!(in on.other; " {number} {number} {admitted}");
        let due = made(on.rt, due, "an answer");
        let more = refuse_call(&*on, heap, (before, event), due.as_str());
        refused = refused.wrapping_add(more);
    }
    at_least(on.rt, refused, 10, TAKEN);
    drop(calls);
    drop(model);
}

// A new desk at the second seat.
#[derive(Drop)]
struct Seating<'a, 's, R, A: Handle> {
    on: &'a Setting<'s, R, A>,
}

impl<'a, 's, R: Abort, A: Handle> Case for Seating<'a, 's, R, A> {
    type State = ();

    type Answer = PlainDesk<A>;

    fn start(&self) {}

    fn call(&self, _state: &mut ()) -> Option<PlainDesk<A>> {
        let model = assembled(self.on.alloc, Standard::Atomic.text())?;
        PlainDesk::new(self.on.alloc, 2, model).ok()
    }

    fn describe(&self, answer: &PlainDesk<A>, _state: &()) -> String {
        let mut text = String::new(self.on.other);
        put(
            self.on.rt,
            &mut text,
            &(answer.seat, answer.book.entries().len()),
        );
        text
    }

    fn read(&self, _state: &()) -> String {
        String::new(self.on.other)
    }
}

// A worker at a desk of its own. After a refusal it begins anew, at a new desk.
#[derive(Drop)]
struct Working<'a, 's, R, A: Handle> {
    on: &'a Setting<'s, R, A>,
    script: &'a Script<A>,
}

impl<'a, 's, R: Abort, A: Handle> Working<'a, 's, R, A> {
    // Whether the entries are the first of the script's, and the machine is the one after their events.
    fn is_kept(&self, book: &Book<A>) -> bool {
        let (rt, alloc, other) = (self.on.rt, self.on.alloc, self.on.other);
        let events = self.script.as_slice();
        let before = events.get(..book.entries().len()).unwrap_or(&[]);
        let due = book_after(rt, alloc, Standard::Atomic, before);
        let (found, due_text) = (of_book(rt, other, book), of_book(rt, other, &due));
        drop(due);
        found.as_str() == due_text.as_str()
    }
}

impl<'a, 's, R: Abort, A: Handle> Case for Working<'a, 's, R, A> {
    type State = PlainDesk<A>;

    type Answer = Report<A>;

    fn start(&self) -> PlainDesk<A> {
        let model = model_of(self.on.rt, self.on.alloc, Standard::Atomic.text());
        made(
            self.on.rt,
            PlainDesk::new(self.on.alloc, 1, model),
            "a desk",
        )
    }

    fn call(&self, desk: &mut PlainDesk<A>) -> Option<Report<A>> {
        if !desk.book.entries().is_empty() {
            *desk = self.start();
        }
        reported(self.on.alloc, desk, self.script).ok()
    }

    fn describe(&self, answer: &Report<A>, desk: &PlainDesk<A>) -> String {
        let (rt, other) = (self.on.rt, self.on.other);
        holds(rt, self.is_kept(&desk.book), "the book of a desk");
        answers(rt, other, answer.entries.as_slice())
    }

    fn read(&self, desk: &PlainDesk<A>) -> String {
        let mut text = String::new(self.on.other);
        put(self.on.rt, &mut text, &self.is_kept(&desk.book));
        text
    }
}

// A new desk, each allocation refused. Returns how many were.
fn refuse_seat<'a, 's, R: Abort, A: Handle, B: Allocator>(
    on: &'a Setting<'s, R, A>,
    heap: &Refusing<B>,
    due: &str,
) -> u64 {
    refuse(on.rt, heap, &Seating { on }, due)
}

// A worker with this script, each allocation refused. Returns how many were.
fn refuse_work<'a, 's, R: Abort, A: Handle, B: Allocator>(
    on: &'a Setting<'s, R, A>,
    heap: &Refusing<B>,
    script: &'a Script<A>,
    due: &str,
) -> u64 {
    refuse(on.rt, heap, &Working { on, script }, due)
}

fn refuse_desks<R: Abort, A: Handle, B: Allocator>(on: &Setting<'_, R, A>, heap: &Refusing<B>) {
    at_least(on.rt, refuse_seat(&*on, heap, " (2, 0)"), 5, "a new desk");
    let scripts = scripts(on.rt, on.alloc, &[CALLS]);
    let script = scripts.as_slice().first().expect(on.rt, "a script");
    at_least(
        on.rt,
        refuse_work(&*on, heap, script, ANSWERS),
        20,
        "a worker",
    );
    drop(scripts);
}

#[test]
fn calls_of_books_and_workers(rt: HostRuntime) {
    let heap = Refusing::new(rt.alloc());
    let on = Setting {
        rt: &rt,
        alloc: &heap,
        other: rt.alloc(),
    };
    refuse_calls(&on, &heap);
    refuse_desks(&on, &heap);
}

const OWING: &str = "\
form SCD 2 1
begin 1 try
begin 2 try
begin 2 try
do 2 s insert 4
commit 1";

// The lines of the verdict on a book. `None` if memory ran out.
fn verdict_on<A: Handle + Send + Sync>(
    rt: &(impl Threads + Sync + Abort),
    other: Global,
    book: &Book<A>,
) -> Option<String> {
    match book.verdict(rt) {
        Ok(verdict) => Some(lines_of(rt, other, &verdict)),
        Err(AllocError) => None,
    }
}

// The verdict on a book, each allocation refused. Returns how many were.
fn refuse_verdict<A: Handle + Send + Sync, B: Allocator>(
    rt: &(impl Threads + Sync + Abort),
    (heap, alloc, other): (&Refusing<B>, A, Global),
) -> u64 {
    let model = model_of(rt, alloc, Standard::Contingent.text());
    let calls = script(rt, alloc, &model, OWING);
    let book = book_after(rt, alloc, Standard::Contingent, calls.as_slice());
    let before = of_book(rt, other, &book);
    for nth in 1..MOST {
        heap.refuse(nth);
        let answer = verdict_on(rt, other, &book);
        if is_over(rt, heap, answer, "owed 1 2 commit\n") {
            drop(book);
            drop(calls);
            drop(model);
            return nth.wrapping_sub(1);
        }
        same(
            rt,
            &of_book(rt, other, &book).as_str(),
            &before.as_str(),
            "a book",
        );
    }
    rt.panic("a verdict makes too many allocations")
}

// The run that a drive gives, if memory and threads sufficed. Another error ends the test.
fn unless_short<T>(rt: &impl Abort, driven: Result<T, DriveError>) -> Option<T> {
    match driven {
        Ok(driven) => Some(driven),
        Err(DriveError::Memory | DriveError::NoThread) => None,
        Err(_) => rt.panic("a drive has another fault"),
    }
}

// The numbers of entries and fronts of a drive of the scripts that is watched this often. `None` if memory ran out.
fn driven<A: Handle + Send + Sync, R: Threads + Wait + Sync + Abort>(
    rt: &R,
    (alloc, other): (A, Global),
    scripts: &[Script<A>],
    turns: u8,
) -> Option<String> {
    let model = assembled(alloc, Standard::Atomic.text())?;
    let mut text = String::new(other);
    if turns == 0 {
        let driven = unless_short(rt, drive(rt, alloc, model, scripts, &OpenGate))?;
        put(rt, &mut text, &driven.book.entries().len());
        drop(driven);
    } else {
        let watched = drive_watched(rt, alloc, model, scripts, &OpenGate, turns);
        let watched = unless_short(rt, watched)?;
        put(rt, &mut text, &watched.driven.book.entries().len());
        put(rt, &mut text, &watched.fronts.as_slice().len());
        drop(watched);
    }
    Some(text)
}

// A drive of two seats that each begin and add once, each allocation refused. Returns how many were.
fn refuse_drive<A: Handle + Send + Sync, R: Threads + Wait + Sync + Abort, B: Allocator>(
    rt: &R,
    (heap, alloc, other): (&Refusing<B>, A, Global),
    (turns, due): (u8, &str),
) -> u64 {
    let scripts = scripts(rt, alloc, &ADDITIONS);
    for nth in 1..MOST {
        heap.refuse(nth);
        let answer = driven(rt, (alloc, other), scripts.as_slice(), turns);
        if is_over(rt, heap, answer, due) {
            drop(scripts);
            return nth.wrapping_sub(1);
        }
    }
    rt.panic("a drive makes too many allocations")
}

// The verdict with an allocator that threads may share, since they may share the one inside it.
fn refuse_shared_verdict<B: Allocator + Send + Sync>(
    rt: &(impl Threads + Sync + Abort),
    other: Global,
    heap: &Refusing<B>,
) -> u64 {
    refuse_verdict(rt, (heap, heap, other))
}

// A drive with such an allocator.
fn refuse_shared_drive<R: Threads + Wait + Sync + Abort, B: Allocator + Send + Sync>(
    rt: &R,
    other: Global,
    heap: &Refusing<B>,
    due: (u8, &str),
) -> u64 {
    refuse_drive(rt, (heap, heap, other), due)
}

#[test]
fn verdicts_on_books_and_driven_runs(rt: HostRuntime) {
    let heap = Refusing::new(rt.alloc());
    let refused = refuse_shared_verdict(&rt, rt.alloc(), &heap);
    at_least(&rt, refused, 8, "a verdict");
    let refused = refuse_shared_drive(&rt, rt.alloc(), &heap, (0, " 4"));
    at_least(&rt, refused, 8, "a drive");
    let refused = refuse_shared_drive(&rt, rt.alloc(), &heap, (3, " 4 3"));
    at_least(&rt, refused, 12, "a watched drive");
}
