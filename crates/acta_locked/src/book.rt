//! The book, and a desk with its own book.

ghost use Rattle.std.specs.Prelude.{◌≡◌, ◌<◌, ◌≤◌, ◌∷◌, List, [], Err, None, length, true, false, Decides, IfOk, OnErr, OnOk};
ghost use Rattle.acta_table.specs.declared.event.Event.{Event};
ghost use Rattle.acta_table.specs.declared.model.Parts.{Parts};
ghost use Rattle.acta_table.specs.Faults.{lowest_fault};
ghost use Rattle.acta_judge.specs.Verdicts.{verdict};
ghost use Rattle.acta_machine.specs.Places.{FollowsPlaces};
ghost use Rattle.acta_machine.specs.Table.{debts_in, run_state};
ghost use Rattle.acta_locked.specs.Books.{IsRun, entered, entry_of, no_entries, state_of, with_entries};
ghost use Rattle.acta_locked.specs.declared.book.TakeError.TheVariants.{Memory};

use crate::desk::Desk;
use acta_judge::{JudgeError, Verdict, judge};
use acta_machine::{Handle, Machine};
use acta_table::{Answer, Event, Kept, MOST_EVENTS, Model};
use std::alloc::{AllocError, AllocFailed, Allocator};
use std::thread::Threads;

/// One call at a desk: its number in the book, from 1, the seat, the event and the answer.
#[derive(Drop)]
pub struct Entry<A: Allocator> {
    pub number: u32,
    pub seat: u8,
    pub event: Event<A>,
    pub answer: Answer,
}

impl<A: Allocator> Entry<A> {
    /// Whether the two are the same entry.
    pub fn is_same(&self, other: &Entry<A>) -> bool
        ensures { Decides result (self.now ≡ other.now) }
    {
        self.number == other.number
            && self.seat == other.seat
            && self.event.is_same(&other.event)
            && self.answer == other.answer
    }
}

impl<A: Allocator + Copy> Entry<A> {
    /// A copy of the entry in memory of its own.
    pub fn copy(&self) -> Result<Entry<A>, AllocError>
        ensures { IfOk result (λ entry. entry ≡ self.now) }
    {
        Ok(Entry {
            number: self.number,
            seat: self.seat,
            event: self.event.copy()?,
            answer: self.answer,
        })
    }
}

/// Why a call made no entry.
#[derive(Clone, Copy, PartialEq, Eq, Debug)]
pub enum TakeError {
    /// The book has 65,536 entries.
    BookFull,
    /// Memory ran out.
    Memory,
}

impl From<AllocError> for TakeError {
    ghost from_gives = { λ _ e. e ≡ Memory };

    fn from(_error: AllocError) -> TakeError {
        TakeError::Memory
    }
}

impl<T: Drop> From<AllocFailed<T>> for TakeError {
    ghost from_gives = { λ _ e. e ≡ Memory };

    fn from(_error: AllocFailed<T>) -> TakeError {
        TakeError::Memory
    }
}

/// A machine with a log of every call made of it, in order, with its answer. Contracts see the model and the entries, which
/// determine the machine.
#[derive(Drop)]
pub struct Book<A: Handle> {
    machine: Machine<A>,
    entries: Vec<Entry<A>, A>,
}

impl<A: Handle> std::marker::Model for Book<A> {
    ghost use Rattle.acta_locked.specs.Books.{Entries};
    ghost use Rattle.acta_locked.specs.inside.Shown.{IsMachineOf};

    ghost Value = { Entries A };

    ghost view = { λ b. record { model = b.machine.model; entries = b.entries.items } };

    ghost invariant = { λ b. IsMachineOf b.machine (record { model = b.machine.model; entries = b.entries.items }) };
}

impl<A: Handle> Book<A> {
    /// A book on the model without entries.
    pub fn new(alloc: A, model: Model<A>) -> Result<Book<A>, AllocError>
        ensures { IfOk result (λ book. book ≡ no_entries model) }
    {
        Ok(Book {
            machine: Machine::new(alloc, model)?,
            entries: Vec::new(alloc),
        })
    }

    /// Takes one event: the machine answers it, and the new entry is added and returned. Returns `BookFull` exactly if there
    /// are 65,536 entries. An error leaves the book unchanged.
    pub fn take(&mut self, seat: u8, event: Event<A>) -> Result<Entry<A>, TakeError>
        ensures entry { IfOk result (λ entry. entry ≡ entry_of self.old seat event) }
        ensures ok { IfOk result (λ entry. self.new ≡ entered self.old entry) }
        ensures err { OnErr result (self.new ≡ self.old) }
        ensures full { result ≡ Err TakeError.BookFull → length self.old.entries ≡ MOST_EVENTS }
        ensures run { IsRun self.new }
        ensures blocked { length self.old.entries ≡ MOST_EVENTS → result ≡ Err TakeError.BookFull }
    {
        if self.is_full() {
            return Err(TakeError::BookFull);
        }
        let (number, answer) = self.enter(seat, &event)?;
        Ok(Entry {
            number,
            seat,
            event,
            answer,
        })
    }

    // Whether there is no room for an entry.
    fn is_full(&self) -> bool
        ensures full { result ≡ true → length self.now.entries ≡ MOST_EVENTS }
        ensures room { result ≡ false → length self.now.entries < MOST_EVENTS }
        ensures run { IsRun self.now }
    {
        self.entries.len() >= MOST_EVENTS
    }

    // Has the machine answer the event, and logs it; returns the number and the answer of the entry. Room is reserved first,
    // so that an error leaves the book unchanged.
    fn enter(&mut self, seat: u8, event: &Event<A>) -> Result<(u32, Answer), AllocError>
        requires room { length self.old.entries < MOST_EVENTS }
        ensures entry { IfOk result (λ r.
            record { number = r.0; seat = seat; event = event.now; answer = r.1 } ≡ entry_of self.old seat event.now) }
        ensures ok { OnOk result (self.new ≡ entered self.old (entry_of self.old seat event.now)) }
        ensures err { OnErr result (self.new ≡ self.old) }
        ensures run { IsRun self.new }
    {
        self.entries.reserve(1)?;
        let copied = event.copy()?;
        let answer = self.machine.take(event)?;
        let number = self.entries.len() as u32 + 1;
        let Ok(()) = self.entries.push(Entry {
            number,
            seat,
            event: copied,
            answer,
        })
        else {
            unreachable!()
        };
        Ok((number, answer))
    }

    /// A copy of the machine's history, in which a verdict finds no fault.
    pub fn history(&self, alloc: A) -> Result<Vec<Kept<A>, A>, AllocError>
        ensures all { IfOk result (λ copy. copy.items ≡ (state_of self.now).kept) }
        ensures few { IfOk result (λ copy. length copy.items ≤ MOST_EVENTS) }
        ensures faultless { IfOk result (λ copy. (verdict self.now.model copy.items).faults ≡ []) }
    {
        let history = self.machine().history();
        let mut copy = Vec::with_capacity(alloc, history.len())?;
        for item in history {
            copy.push(item.copy()?)?;
        }
        Ok(copy)
    }

    /// The entries, in order; at most 65,536.
    pub fn entries(&self) -> &[Entry<A>]
        ensures entries { result.now ≡ self.now.entries }
        ensures run { IsRun self.now }
    {
        self.entries.as_slice()
    }

    /// The machine after the entries.
    pub fn machine(&self) -> &Machine<A>
        ensures machine { result.now ≡ state_of self.now }
        ensures model { result.now.model ≡ self.now.model }
        ensures follows { FollowsPlaces result.now }
    {
        &self.machine
    }
}

impl<A: Handle + Send + Sync> Book<A> {
    /// The verdict on the machine's history: it has no fault, and its debts are those of the machine.
    pub fn verdict<R: Threads + Sync>(&self, rt: &R) -> Result<Verdict<A>, AllocError>
        ensures { IfOk result (λ verdict. verdict ≡ record { faults = []; owed = debts_in (state_of self.now) }) }
    {
        let machine = self.machine();
        let history = machine.history();
        match judge(rt, *self.entries.allocator(), machine.model(), history) {
            Ok(verdict) => Ok(verdict),
            Err(JudgeError::Memory) => Err(AllocError),
            Err(JudgeError::TooLong) => unreachable!(),
        }
    }
}

/// A desk with a book of its own.
#[derive(Drop)]
pub struct PlainDesk<A: Handle> {
    pub seat: u8,
    pub book: Book<A>,
}

impl<A: Handle> PlainDesk<A> {
    /// A desk at this seat, with a book on the model without entries.
    pub fn new(alloc: A, seat: u8, model: Model<A>) -> Result<PlainDesk<A>, AllocError>
        ensures { IfOk result (λ desk. desk ≡ record { seat = seat; book = no_entries model }) }
    {
        let book = Book::new(alloc, model)?;
        Ok(PlainDesk { seat, book })
    }
}

impl<A: Handle> Desk<Event<A>, Entry<A>> for PlainDesk<A> {
    ghost use Rattle.acta_table.specs.declared.limits.TheConstants.{MOST_EVENTS};
    ghost use Rattle.acta_locked.specs.Desks.{Gives};
    ghost use Rattle.acta_locked.specs.inside.Growth.{book-nothing, book-further, gives-nothing, gives-further};

    ghost seat_of = { λ d. d.seat };

    ghost seat_in = { λ e. e.seat };

    ghost event_in = { λ e. e.event };

    ghost answered = { λ d xs e. e.book ≡ with_entries d.book xs };

    ghost gave = { λ d answers e. Gives d.book answers e.book };

    fn seat(&self) -> u8 {
        self.seat
    }

    /// As `Book::take` on the desk's book.
    fn hand(&mut self, event: Event<A>) -> Result<Entry<A>, TakeError>
        ensures same_seat { self.new.seat ≡ self.old.seat }
        ensures seat { IfOk result (λ entry. entry.seat ≡ self.old.seat) }
        ensures event { IfOk result (λ entry. entry.event ≡ event) }
        ensures entry { IfOk result (λ entry. entry ≡ entry_of self.old.book self.old.seat event) }
        ensures answered { IfOk result (λ entry. self.new.book ≡ entered self.old.book entry) }
        ensures none { OnErr result (self.new.book ≡ with_entries self.old.book []) }
        ensures gave { Gives self.old.book (result ∷ []) self.new.book }
        ensures full { result ≡ Err TakeError.BookFull → length self.old.book.entries ≡ MOST_EVENTS }
        ensures blocked { length self.old.book.entries ≡ MOST_EVENTS → result ≡ Err TakeError.BookFull }
    {
        self.book.take(self.seat, event)
    }

    ghost nothing = { λ d. book-nothing d.book };

    ghost further = { λ d e f xs ys p q. book-further d.book e.book f.book xs ys p q };

    ghost silent = { λ d. gives-nothing d.book };

    ghost onward = { λ d e f xs ys one two. gives-further d.book e.book f.book xs ys one two };
}

/// Whatever events a machine is given, the verdict on its history has no fault, and its debts are those of the machine. So
/// the written table and the axioms on places agree.
pub fn runs_are_faultless<A: Allocator>()
    ensures { (m : Parts A) → lowest_fault m ≡ None → (es : List (Event A)) → verdict m (run_state m es).kept ≡ record { faults = []; owed = debts_in (run_state m es) } }
{}
