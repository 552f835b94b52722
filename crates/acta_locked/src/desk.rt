//! Desks: where a worker submits its events. The desks of many workers share a book and its ledger under a lock.

ghost use Rattle.std.specs.Prelude.{◌≡◌, ◌+◌, ◌<◌, ◌≤◌, ◌++◌, ◌∷◌, [], ℕ, List, Result, Err, length, IfOk, OnErr, OnOk};
ghost use Rattle.acta_judge.specs.Verdicts.{verdict};
ghost use Rattle.acta_locked.specs.declared.book.TakeError.{TakeError as Refusal};
ghost use Rattle.acta_locked.specs.Books.{IsRun, entered, entry_of, state_of};

use crate::book::{Book, Entry, TakeError};
use acta_machine::Handle;
use acta_table::{Event, Kept, MOST_EVENTS};
use std::alloc::AllocError;
use std::marker::Brand;
use std::sync::ledger::{self, Ledger, Share};
use std::sync::{Mutex, Wait};

/// Where a worker submits its events of type E and gets entries of type X.
pub trait Desk<E, X> {
    ghost seat_of: { Self → ℕ };

    // The seat and the event of an entry.
    ghost seat_in: { X → ℕ };

    ghost event_in: { X → E };

    // Between the two states, the desk answered exactly these entries.
    ghost answered: { Self → List X → Self → Type 0 };

    // Between the two states, the desk gave exactly these answers, including errors.
    ghost gave: { Self → List (Result X Refusal) → Self → Type 0 };

    /// The desk's seat, which no call changes.
    fn seat(&self) -> u8
        ensures { result ≡ seat_of self.now };

    /// Submits one event, and returns its entry. On `Err` the desk has answered nothing.
    fn hand(&mut self, event: E) -> Result<X, TakeError>
        ensures same_seat { seat_of self.new ≡ seat_of self.old }
        ensures seat { IfOk result (λ entry. seat_in entry ≡ seat_of self.old) }
        ensures event { IfOk result (λ entry. event_in entry ≡ event) }
        ensures answered { IfOk result (λ entry. answered self.old (entry ∷ []) self.new) }
        ensures none { OnErr result (answered self.old [] self.new) }
        ensures gave { gave self.old (result ∷ []) self.new };

    // An unchanged desk has answered nothing, and answers of consecutive stretches add up.
    ghost nothing: { (d : Self) → answered d [] d };

    ghost further: { (d e f : Self) (xs ys : List X) → answered d xs e → answered e ys f
        → answered d (xs ++ ys) f };

    // The same for all its answers, including errors.
    ghost silent: { (d : Self) → gave d [] d };

    ghost onward: { (d e f : Self) (xs ys : List (Result X Refusal)) → gave d xs e → gave e ys f → gave d (xs ++ ys) f };
}

/// The setting of a run: the ledger that counts its entries, its model, the scripts of its workers, and its gate. A is the
/// model's allocator.
pub trait Job<A>: Ledger {
    ghost use Rattle.std.specs.Prelude.{ℕ, List};
    ghost use Rattle.acta_table.specs.declared.event.Event.{Event};
    ghost use Rattle.acta_table.specs.declared.model.Parts.{Parts};
    ghost use Rattle.acta_locked.specs.declared.book.Entry.{Entry};

    ghost model: { Parts A };

    ghost scripts: { List (List (Event A)) };

    // The contract of the gate: where it may stop, pass and go on.
    ghost may_stop: { ℕ → ℕ → Type 0 };

    ghost may_pass: { ℕ → ℕ → Type 0 };

    ghost may_go_on: { ℕ → ℕ → Entry A → Type 0 };
}

impl<A> Job<A> for Brand {
    ghost use Rattle.std.specs.Prelude.{[]};

    ghost model = { record { objects = []; classes = [] } };

    ghost scripts = { [] };

    ghost may_stop = { λ _ _. Unit {0} };

    ghost may_pass = { λ _ _. Unit {0} };

    ghost may_go_on = { λ _ _ _. Unit {0} };
}

/// The data under the lock: a book on the run's model, and a ledger whose total is the number of its entries.
#[derive(Drop)]
pub struct SharedLog<A: Handle, J: Job<A>> {
    book: Book<A>,
    calls: ledger::Book<J>,
    ghost counted: { length book.entries ≡ calls.total },
    ghost of_model: { book.model ≡ J.model },
}

impl<A: Handle, J: Job<A>> SharedLog<A, J> {
    /// A book without entries, with a ledger that has counted none.
    pub fn new(book: Book<A>, calls: ledger::Book<J>) -> SharedLog<A, J>
        requires empty { book.entries ≡ [] }
        requires none { calls.total ≡ 0 }
        requires of_model { book.model ≡ J.model }
        ensures book { result.book ≡ book }
        ensures calls { result.calls ≡ calls }
    {
        SharedLog { book, calls }
    }

    /// Takes one event as `Book::take` does. The share grows by one if an entry is added, and is unchanged otherwise.
    pub fn take(
        &mut self,
        seat: u8,
        event: Event<A>,
        mine: &mut Share<J>,
    ) -> Result<Entry<A>, TakeError>
        requires { 0 < mine.old.parts }
        ensures entry { IfOk result (λ entry. entry ≡ entry_of self.old.book seat event) }
        ensures ok { IfOk result (λ entry. self.new.book ≡ entered self.old.book entry) }
        ensures counted { OnOk result (mine.new.amount ≡ mine.old.amount + 1) }
        ensures err { OnErr result (self.new.book ≡ self.old.book) }
        ensures same { OnErr result (mine.new.amount ≡ mine.old.amount) }
        ensures parts { mine.new.parts ≡ mine.old.parts }
        ensures full { result ≡ Err TakeError.BookFull → length self.old.book.entries ≡ MOST_EVENTS }
        ensures run { IsRun self.new.book }
        ensures blocked { length self.old.book.entries ≡ MOST_EVENTS → result ≡ Err TakeError.BookFull }
    {
        let SharedLog { book, calls } = self;
        let entry = book.take(seat, event)?;
        calls.add(mine, 1);
        Ok(entry)
    }

    /// A copy of the machine's history, in which a verdict finds no fault.
    pub fn history(&self, alloc: A) -> Result<Vec<Kept<A>, A>, AllocError>
        ensures all { IfOk result (λ copy. copy.items ≡ (state_of self.now.book).kept) }
        ensures few { IfOk result (λ copy. length copy.items ≤ MOST_EVENTS) }
        ensures faultless { IfOk result (λ copy. (verdict J.model copy.items).faults ≡ []) }
    {
        self.book.history(alloc)
    }

    /// The book, once all shares are returned: it has as many entries as they counted.
    pub fn close(self, all: &mut Share<J>) -> Book<A>
        requires { all.old.parts ≡ J.parts }
        ensures book { result ≡ self.book }
        ensures of_model { result.model ≡ J.model }
        ensures counted { length result.entries ≡ all.old.amount }
        ensures same { all.new.amount ≡ all.old.amount }
        ensures parts { all.new.parts ≡ all.old.parts }
    {
        let SharedLog { book, mut calls } = self;
        calls.audit(all);
        book
    }
}

/// A worker's desk at the shared book: its seat, its share of the ledger, and the lock.
#[derive(Drop)]
pub struct LockedDesk<'a, A: Handle, J: Job<A>, R: Wait> {
    pub seat: u8,
    pub share: Share<J>,
    pub shared_log: &'a Mutex<SharedLog<A, J>>,
    pub rt: &'a R,
    pub ghost some: { 0 < share.parts },
}

impl<'a, A: Handle, J: Job<A>, R: Wait> Desk<Event<A>, Entry<A>> for LockedDesk<'a, A, J, R> {
    ghost use Rattle.std.specs.Prelude.{◌≡◌, ◌∷◌, [], Err, IfOk, OnErr};
    ghost use Rattle.acta_locked.specs.Desks.{Counts, IsOfSomeRun, entries_in};
    ghost use Rattle.acta_locked.specs.inside.Growth.{count-nothing, count-further, counts-nothing, counts-further};

    ghost seat_of = { λ d. d.seat };

    ghost seat_in = { λ e. e.seat };

    ghost event_in = { λ e. e.event };

    ghost answered = { λ d es e. Counts d.share.parts d.share.amount es e.share.parts e.share.amount };

    ghost gave = { λ d answers e. Counts d.share.parts d.share.amount (entries_in answers) e.share.parts e.share.amount };

    fn seat(&self) -> u8 {
        self.seat
    }

    /// Locks, and takes the event as `SharedLog::take` does: the desk's share grows by one if the book gets an entry, and is
    /// unchanged otherwise.
    fn hand(&mut self, event: Event<A>) -> Result<Entry<A>, TakeError>
        ensures same_seat { self.new.seat ≡ self.old.seat }
        ensures seat { IfOk result (λ entry. entry.seat ≡ self.old.seat) }
        ensures event { IfOk result (λ entry. entry.event ≡ event) }
        ensures entry { IfOk result (IsOfSomeRun J.model self.old.seat event) }
        ensures answered { IfOk result (λ entry.
            Counts self.old.share.parts self.old.share.amount (entry ∷ []) self.new.share.parts self.new.share.amount) }
        ensures none { OnErr result
            (Counts {A = A} self.old.share.parts self.old.share.amount [] self.new.share.parts self.new.share.amount) }
        ensures gave { Counts self.old.share.parts self.old.share.amount (entries_in (result ∷ [])) self.new.share.parts self.new.share.amount }
    {
        let mut shared_log = self.shared_log.lock(self.rt);
        shared_log.take(self.seat, event, &mut self.share)
    }

    ghost nothing = { λ d. count-nothing d.share.parts d.share.amount };

    ghost further = { λ d e f xs ys one two. count-further d.share.parts d.share.amount e.share.parts e.share.amount
        f.share.parts f.share.amount xs ys one two };

    ghost silent = { λ d. counts-nothing d.share.parts d.share.amount };

    ghost onward = { λ d e f xs ys one two. counts-further d.share.parts d.share.amount e.share.parts e.share.amount
        f.share.parts f.share.amount xs ys one two };
}
