//! A full book: it has 65,536 entries, whether admitted or not, and takes no more.

use crate::driving::books::taken;
use crate::expecting::{holds, made, same};
use crate::models::model_of;
use acta_locked::{Book, TakeError};
use acta_machine::Handle;
use acta_models::Standard;
use acta_table::{Answer, Event, Rule, TxnId};
use std::process::Abort;

// Whether the answer is that the transaction has not begun.
fn is_due(answer: &Answer) -> bool {
    *answer
        == Answer::Refused {
            rule: Rule::NotInProgress,
            by: Some(1),
        }
}

// Commits a transaction that has not begun, and returns whether that is why it is refused, with this number.
fn is_refused<A: Handle>(rt: &impl Abort, book: &mut Book<A>, number: u32) -> bool {
    let entry = made(rt, taken(book, Event::Commit(TxnId(1))), "a call");
    let is_so = entry.number == number && entry.seat == 1 && is_due(&entry.answer);
    drop(entry);
    is_so
}

// Fills the book with such calls.
fn fill<A: Handle>(rt: &impl Abort, book: &mut Book<A>) {
    for number in 1..65_537u32 {
        let is_so = is_refused(rt, book, number);
        assert!(rt; is_so, "call {number}");
    }
}

// Whether the book is full of refusals.
fn is_full<A: Handle>(book: &Book<A>) -> bool {
    book.entries().len() == 65_536 && book.machine().history().is_empty()
}

// A full book takes no more.
fn is_filled<A: Handle>(rt: &impl Abort, alloc: A) {
    let model = model_of(rt, alloc, Standard::Atomic.text());
    let mut book = made(rt, Book::new(alloc, model), "a book");
    fill(rt, &mut book);
    let more = taken(&mut book, Event::Commit(TxnId(1))).err();
    same(rt, &more, &Some(TakeError::BookFull), "one call more");
    holds(rt, is_full(&book), "the full book");
    drop(book);
}

#[test]
fn a_full_book_takes_no_more(rt: HostRuntime) {
    is_filled(&rt, rt.alloc());
}
