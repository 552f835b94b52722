//! Permits that are given and end, each allocation refused in turn. A line has a change, and the permits after it:
//! `1>2@0` says that transaction 1 permits 2 to work on object 0.

use crate::expecting::{made, parted};
use crate::refused::{Setting, asked_and_answer, at_least, refuse};
use crate::shown::{of_permits, put};
use acta_machine::Handle;
use acta_sets::Permits;
use acta_table::{ObjId, TxnId};
use refusing::{Case, Refusing};
use std::alloc::{AllocError, Allocator};
use std::process::Abort;

// One more than the largest number of a transaction.
const TXNS: u16 = 7;

// A permit that ends where `given` lacks: the transaction that gives it, the one that gets it, and the object.
#[derive(Clone, Copy)]
struct Change {
    txn: TxnId,
    given: Option<(TxnId, ObjId)>,
}

// The number that a word is.
fn number(rt: &impl Abort, word: &str) -> u16 {
    word.parse().ok().expect(rt, word)
}

// The change that the words say.
fn change_of(rt: &impl Abort, parsed: &str) -> Change {
    let (word, rest) = parted(rt, parsed, " ");
    if word == "ended" {
        return Change {
            txn: TxnId(number(rt, rest)),
            given: None,
        };
    }
    let (h, rest) = parted(rt, rest, " ");
    let (t, object) = parted(rt, rest, " ");
    Change {
        txn: TxnId(number(rt, h)),
        given: Some((TxnId(number(rt, t)), ObjId(number(rt, object)))),
    }
}

// Makes the change.
fn make<A: Handle>(permits: &mut Permits<A>, change: Change) -> Result<(), AllocError> {
    match change.given {
        Some((t, object)) => permits.give(change.txn, t, object)?,
        None => permits.ended(change.txn),
    }
    Ok(())
}

// After some changes, one more.
#[derive(Drop)]
struct Changing<'a, 's, R, A: Handle> {
    on: &'a Setting<'s, R, A>,
    before: &'a [Change],
    change: Change,
}

impl<'a, 's, R: Abort, A: Handle> Changing<'a, 's, R, A> {
    // Adds what a transaction was permitted.
    fn put_given(&self, text: &mut String, permits: &Permits<A>, t: u16) {
        let given = made(self.on.rt, permits.given_to(TxnId(t)), "permits");
        for grant in &given {
            let (h, object) = (grant.partner.0, grant.object.0);
            made(self.on.rt, write!(text, " {h}>{t}@{object}"), "a text");
        }
    }
}

impl<'a, 's, R: Abort, A: Handle> Case for Changing<'a, 's, R, A> {
    type State = Permits<A>;

    type Answer = ();

    fn start(&self) -> Permits<A> {
        let mut permits = Permits::new(self.on.alloc);
        for one in self.before {
            made(self.on.rt, make(&mut permits, *one), "a change");
        }
        permits
    }

    fn call(&self, permits: &mut Permits<A>) -> Option<()> {
        make(permits, self.change).ok()
    }

    fn describe(&self, _answer: &(), permits: &Permits<A>) -> String {
        let mut text = String::new(self.on.other);
        for t in 0..TXNS {
            self.put_given(&mut text, permits, t);
        }
        text
    }

    fn read(&self, permits: &Permits<A>) -> String {
        of_permits(self.on.rt, self.on.other, permits)
    }
}

// Questions to permits.
#[derive(Drop)]
struct Asking<'a, 's, R, A: Handle> {
    changing: Changing<'a, 's, R, A>,
    call: &'a str,
}

impl<'a, 's, R: Abort, A: Handle> Case for Asking<'a, 's, R, A> {
    type State = Permits<A>;

    type Answer = String;

    fn start(&self) -> Permits<A> {
        self.changing.start()
    }

    fn call(&self, permits: &mut Permits<A>) -> Option<String> {
        let (rt, mut text) = (self.changing.on.rt, String::new(self.changing.on.other));
        match self.call {
            "given" => put(rt, &mut text, &permits.given_to(TxnId(2)).ok()?.len()),
            "listed" => {
                for permit in &permits.listed().ok()? {
                    let (h, t, object) = (permit.by.0, permit.to.0, permit.object.0);
                    made(rt, write!(text, " {h}>{t}@{object}"), "a text");
                }
            }
            "permitters" => {
                let permitters = permits.permitters(TxnId(2), ObjId(0)).ok()?;
                put(rt, &mut text, &permitters.as_slice());
            }
            _ => {
                let copied = permits.copy().ok()?;
                put(rt, &mut text, &copied.has(TxnId(1), TxnId(2), ObjId(0)));
            }
        }
        Some(text)
    }

    fn describe(&self, answer: &String, _permits: &Permits<A>) -> String {
        let (rt, other) = (self.changing.on.rt, self.changing.on.other);
        made(rt, String::from_str(other, answer.as_str()), "a text")
    }

    fn read(&self, permits: &Permits<A>) -> String {
        self.changing.read(permits)
    }
}

const CHANGES: &str = "\
give 1 2 0 -- 1>2@0
give 1 2 0 -- 1>2@0
give 3 2 0 -- 1>2@0 3>2@0
give 1 2 1 -- 1>2@0 3>2@0 1>2@1
give 2 1 0 -- 2>1@0 1>2@0 3>2@0 1>2@1
give 2 5 3 -- 2>1@0 1>2@0 3>2@0 1>2@1 2>5@3
give 5 2 0 -- 2>1@0 1>2@0 3>2@0 5>2@0 1>2@1 2>5@3
ended 6 -- 2>1@0 1>2@0 3>2@0 5>2@0 1>2@1 2>5@3
ended 1 -- 3>2@0 5>2@0 2>5@3
ended 2 --
give 1 2 0 -- 1>2@0
give 2 2 0 -- 1>2@0 2>2@0
ended 2 --";

// How many changes are made before permits are asked.
const GIVEN: usize = 7;

const ANSWERS: [(&str, &str); 4] = [
    ("given", " 4"),
    ("listed", " 2>1@0 1>2@0 3>2@0 5>2@0 1>2@1 2>5@3"),
    ("permitters", " [TxnId(1), TxnId(3), TxnId(5)]"),
    ("copy", " true"),
];

// One change more, each allocation refused. Returns how many were.
fn refuse_change<'a, 's, R: Abort, A: Handle, B: Allocator>(
    on: &'a Setting<'s, R, A>,
    heap: &Refusing<B>,
    before: &'a [Change],
    change: Change,
    due: &str,
) -> u64 {
    refuse(on.rt, heap, &Changing { on, before, change }, due)
}

// Questions to permits after some changes, each allocation refused. Returns how many were.
fn refuse_answer<'a, 's, R: Abort, A: Handle, B: Allocator>(
    on: &'a Setting<'s, R, A>,
    heap: &Refusing<B>,
    before: &'a [Change],
    call: &'a str,
    due: &str,
) -> u64 {
    // (the last change has no part in it)
    let change = Change {
        txn: TxnId(0),
        given: None,
    };
    let changing = Changing { on, before, change };
    refuse(on.rt, heap, &Asking { changing, call }, due)
}

fn refuse_all<R: Abort, A: Handle, B: Allocator>(on: &Setting<'_, R, A>, heap: &Refusing<B>) {
    let (mut changes, mut refused) = (Vec::new(on.other), 0u64);
    for line in CHANGES.lines() {
        let (parsed, due) = asked_and_answer(on.rt, line);
        let change = change_of(on.rt, parsed);
        let more = refuse_change(&*on, heap, changes.as_slice(), change, due);
        refused = refused.wrapping_add(more);
        made(on.rt, changes.push(change), line);
    }
    let before = changes.get(..GIVEN).unwrap_or(&[]);
    for (call, due) in ANSWERS {
        let more = refuse_answer(&*on, heap, before, call, due);
        refused = refused.wrapping_add(more);
    }
    at_least(on.rt, refused, 15, "permits");
}

#[test]
fn permits_that_are_given_and_end(rt: HostRuntime) {
    let heap = Refusing::new(rt.alloc());
    let on = Setting {
        rt: &rt,
        alloc: &heap,
        other: rt.alloc(),
    };
    refuse_all(&on, &heap);
}
