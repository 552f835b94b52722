//! For each axiom a list that breaks it and no other; and two lists that break two. A list is its axiom, kept items, and
//! the lines of the verdict on it.

use crate::expecting::made;
use crate::models::{DELEGATING, PARTING, PERMITTING, UNTIED};
use acta_models::Standard;
use acta_script::read_kept;
use acta_table::{Kept, Model};
use std::alloc::Allocator;
use std::process::Abort;

/// The text of each model, with its lists.
pub fn by_model() -> [(&'static str, &'static str); 7] {
    [
        (Standard::Atomic.text(), FLAT),
        (Standard::Contingent.text(), CONTINGENT),
        (PARTING, PARTED),
        (DELEGATING, HANDED),
        (Standard::Nested.text(), NESTED),
        (UNTIED, ORPHANED),
        (PERMITTING, PERMITTED),
    ]
}

/// The lists that break two axioms, one of them by edges.
pub fn with_two() -> [(&'static str, &'static str); 2] {
    [
        (Standard::Contingent.text(), CLASHING),
        (Standard::Recoverable.text(), FOLLOWING),
    ]
}

const FLAT: &str = "\
BegunOnce
begin 2 flat
begin 3 flat
begin 2 flat
fault 1 3 2
# EndedAfterBegun
commit 1
begin 1 flat
fault 2 1 1
# EndedOnce
begin 7 flat
commit 7
abort 7
fault 3 3 7
# OperatesInProgress
begin 7 flat
commit 7
do 7 x read = 0
fault 4 3 7
# FormOfEvent
begin 6 flat
begin 0 flat
fault 5 2 0
# Return
begin 1 flat
do 1 x read = 9
fault 11 2 1";

const CONTINGENT: &str = "\
FormedInTime
begin 6 try
begin 7 try
form BD 7 6
fault 13 3 7
# SCD
form CD 4 3
form SCD 4 3
begin 3 try
begin 4 try
abort 4
commit 3
begin 5 try
fault 22 6 2
# AD
form CD 4 3
form AD 4 3
begin 3 try
begin 4 try
commit 4
abort 3
begin 5 try
fault 23 6 2
# WD
form WD 5 3
form WD 4 3
begin 3 try
begin 4 try
begin 5 try
commit 5
abort 3
commit 4
begin 6 try
fault 24 8 2
# TD
form CD 4 3
form TD 4 3
begin 4 try
begin 3 try
abort 4
abort 3
fault 25 5 2
# ED
form SCD 3 2
form ED 3 2
begin 2 try
begin 3 try
commit 2
commit 3
fault 26 6 2
# CMD
form CD 4 3
form CMD 4 3
begin 3 try
abort 3
begin 4 try
abort 4
begin 5 try
fault 27 6 2
# BD
form CD 4 3
form BD 4 3
begin 5 try
begin 4 try
begin 3 try
fault 28 4 2
# SD
form CD 4 3
form SD 4 3
begin 3 try
begin 4 try
abort 3
fault 29 4 2
# BCD
form CD 4 3
form BCD 4 3
begin 3 try
abort 3
begin 4 try
fault 30 5 2
# BAD
form CD 4 3
form BAD 4 3
begin 3 try
commit 3
begin 4 try
fault 31 5 2
# WCD
form CD 4 3
form WCD 4 3
begin 3 try
begin 4 try
commit 3
begin 5 try
fault 32 5 2
# Clash
form SCD 3 2
form ED 3 2
begin 2 try
begin 3 try
commit 2
begin 4 try
fault 33 6 3
owed 1 3 commit
owed 2 3 abort";

const PARTED: &str = "\
PartiesInProgress
begin 6 part
split 7 8 part -
fault 7 2 7
# HandsWhole
begin 6 part
do 6 n add 1 = done
do 6 n add 2 = done
split 6 7 part 1
fault 9 4 2
# CD
begin 1 part
split 1 2 part -
commit 1
commit 2
fault 21 4 1";

const HANDED: &str = "\
Responsible
begin 6 part
begin 7 part
do 7 n add 5 = done
do 6 n add 5 = done
delegate 7 6 1,2
fault 8 5 2";

const NESTED: &str = "\
Allowed
begin 6 top
begin 7 sub
fault 6 2 7";

const ORPHANED: &str = "\
Heir
begin 6 top
spawn 6 7 sub
abort 6
commit 7
fault 12 4 6";

const PERMITTED: &str = "\
Conflict
begin 1 flat
begin 2 flat
do 1 x write 5 = done
do 2 x read = 5
fault 10 4 1";

const CLASHING: &str = "\
A transaction that owes both, and a wrong return
form SCD 3 2
form ED 3 2
begin 2 try
begin 3 try
do 3 s insert 4 = no
commit 2
fault 11 5 1
fault 33 6 3
owed 1 3 commit
owed 2 3 abort";

const FOLLOWING: &str = "\
Two dependencies, of which one is owed
begin 1 loose
begin 2 loose
begin 3 loose
do 3 s insert 4 = yes
do 1 s insert 4 = no
do 2 s size = 9
abort 1
fault 11 6 3
fault 25 7 2
owed 3 2 abort";

/// A list of items, and the lines of the verdict on it.
#[derive(Drop)]
pub struct Judged<A: Allocator> {
    pub items: Vec<Kept<A>, A>,
    pub due: String<A>,
}

impl<A: Allocator + Copy> Judged<A> {
    // One line more: of the verdict, or a kept item.
    fn push(&mut self, rt: &impl Abort, alloc: A, model: &Model<A>, line: &str) {
        if line.starts_with("fault ") || line.starts_with("owed ") {
            made(rt, self.due.push_str(line), line);
            made(rt, self.due.push_str("\n"), line);
        } else {
            let kept = made(rt, read_kept(alloc, model, line.as_bytes()), line);
            made(rt, self.items.push(kept), line);
        }
    }

    /// The list that the lines say after their title, in the words of the model.
    pub fn read(rt: &impl Abort, alloc: A, model: &Model<A>, lines: &str) -> Judged<A> {
        let mut judged = Judged {
            items: Vec::new(alloc),
            due: String::new(alloc),
        };
        for line in lines.lines().skip(1) {
            judged.push(rt, alloc, model, line);
        }
        judged
    }
}
