//! Why machines refuse events, and which transactions wait for each other, as readings of scenarios:
//!
//! ```text
//! do 1 x write 5
//! ? do 2 x read -- Conflict(NumberedOp { .. })
//! ? wait 1 -- 1 2 1
//! ```
//!
//! The first line has an event that is admitted, the second asks why an event would be refused, and the third for a cycle
//! of transactions that wait for each other.

use crate::calls::{new_machine, take, waits_for_cycle, why};
use crate::expecting::{expect_text, holds, made, parted, same};
use crate::models::{Models, PARTING, event_of};
use acta_machine::{Handle, Machine, Reason};
use acta_models::Standard;
use acta_table::{Answer, Items, TxnId};
use std::process::Abort;

const FLAT: &str = "\
begin 1 flat
begin 2 flat
? begin 3 flat -- none
? begin 0 flat -- Form(BadNumber(0))
? begin 3 stranger -- Form(BadClass(ClassId(1)))
? do 1 nowhere read -- Form(BadObject(ObjId(4)))
? do 1 x get -- Form(BadOperation(ObjId(0), Get))
? delegate 1 1 - -- Form(SameTransaction(TxnId(1)))
? do 3 x read -- NotInProgress { txn: TxnId(3), status: NotBegun }
? begin 2 flat -- AlreadyBegun { txn: TxnId(2), status: InProgress }
? join 1 2 -- NotInModel(Doing { txn: TxnId(1), class: Some(ClassId(0)), kind: Join })
? form CD 1 2 -- NotInModel(Forming)
do 1 n add 5
do 2 m add 1
? do 2 n get -- Conflict(NumberedOp { number: OpNo(1), held: HeldOp { ob: ObjId(1), op: Add(5), holder: TxnId(1), fate: InProgress } })
commit 1
? do 2 n get -- none
? commit 1 -- NotInProgress { txn: TxnId(1), status: Committed }
? begin 1 flat -- AlreadyBegun { txn: TxnId(1), status: Committed }";

const HANDED: &str = "\
begin 1 part
begin 2 part
do 1 n add 5
do 1 n add 6
do 2 m add 7
? spawn 1 3 part -- NotInModel(Start { class: ClassId(0), kind: Spawn })
? delegate 1 2 3 -- NotResponsible(NumberedOp { number: OpNo(3), held: HeldOp { ob: ObjId(2), op: Add(7), holder: TxnId(2), fate: InProgress } })
? delegate 1 2 1 -- PartialDelegation(NumberedOp { number: OpNo(2), held: HeldOp { ob: ObjId(1), op: Add(6), holder: TxnId(1), fate: InProgress } })
? split 1 3 part 1,2,9 -- BadSet { number: OpNo(9), operations: 3 }
? delegate 1 4 1,2 -- PartnerNotInProgress { txn: TxnId(4), status: NotBegun }
join 2 1
? join 1 2 -- PartnerNotInProgress { txn: TxnId(2), status: Joined }
? form CD 1 2 -- FormTooLate { txn: TxnId(2), status: Joined }
? form BD 1 3 -- FormTooLate { txn: TxnId(1), status: InProgress }";

const WAITING: &str = "\
begin 1 loose
begin 2 loose
do 1 x write 5
? wait 1 -- none
do 2 n add 1
do 2 x read
? commit 2 -- Blocked(BlockingEdge { rule: TerminationDep, by: NumberedEdge { number: 2, edge: Edge { kind: Td, j: TxnId(2), i: TxnId(1) } }, j: InProgress, i: InProgress })
? wait 2 -- none
do 1 n get
? commit 1 -- Blocked(BlockingEdge { rule: TerminationDep, by: NumberedEdge { number: 4, edge: Edge { kind: Td, j: TxnId(1), i: TxnId(2) } }, j: InProgress, i: InProgress })
? wait 1 -- 1 2 1
? wait 2 -- 2 1 2
begin 3 loose
do 3 x read
? wait 3 -- 3 1 2 1
? wait 4 -- none";

const OWING: &str = "\
form SCD 3 1
form AD 3 2
form BCD 4 3
form SCD 5 1
begin 1 try
begin 2 try
begin 3 try
begin 5 try
? begin 4 try -- Blocked(BlockingEdge { rule: BeginOnCommit, by: NumberedEdge { number: 3, edge: Edge { kind: Bcd, j: TxnId(4), i: TxnId(3) } }, j: NotBegun, i: InProgress })
commit 1
? abort 5 -- Blocked(BlockingEdge { rule: OwesCommit, by: NumberedEdge { number: 4, edge: Edge { kind: Scd, j: TxnId(5), i: TxnId(1) } }, j: InProgress, i: Committed })
? abort 2 -- Clash(Clash { commit: NumberedEdge { number: 1, edge: Edge { kind: Scd, j: TxnId(3), i: TxnId(1) } }, abort: NumberedEdge { number: 2, edge: Edge { kind: Ad, j: TxnId(3), i: TxnId(2) } } })
commit 5
commit 3
? abort 2 -- Blocked(BlockingEdge { rule: Unpayable, by: NumberedEdge { number: 2, edge: Edge { kind: Ad, j: TxnId(3), i: TxnId(2) } }, j: Committed, i: InProgress })";

// The machine takes the event of the line.
fn admits<A: Handle>(
    rt: &impl Abort,
    alloc: A,
    models: &Models<A>,
    machine: &mut Machine<A>,
    line: &str,
) {
    let event = event_of(rt, alloc, &models.wider, line);
    let answer = made(rt, take(machine, &event), line);
    holds(rt, matches!(answer, Answer::Admitted { .. }), line);
}

// A reason as `Debug` prints it.
fn spelled<A: Handle>(rt: &impl Abort, alloc: A, reason: Option<Reason>, line: &str) -> String<A> {
    match reason {
        Some(reason) => made(rt, format!(in alloc; "{reason:?}"), line),
        None => made(rt, format!(in alloc; "none"), line),
    }
}

// The transactions of a chain, in order.
fn chain_of<A: Handle>(rt: &impl Abort, alloc: A, chain: Option<&Items<TxnId, A>>) -> String<A> {
    let mut text = String::new(alloc);
    match chain {
        Some(chain) => {
            for t in chain.as_slice() {
                let t = t.0;
                made(rt, write!(text, "{t} "), "a chain");
            }
        }
        None => made(rt, text.push_str("none "), "no chain"),
    }
    text
}

// The transaction of a number.
fn txn(rt: &impl Abort, word: &str) -> TxnId {
    TxnId(word.parse().ok().expect(rt, word))
}

// The machine answers what is asked.
fn answers<A: Handle>(
    rt: &impl Abort,
    alloc: A,
    models: &Models<A>,
    machine: &Machine<A>,
    (asked, due): (&str, &str),
) {
    if let Some(word) = asked.strip_prefix("wait ") {
        let chain = made(rt, waits_for_cycle(machine, txn(rt, word)), asked);
        let found = chain_of(rt, alloc, chain.as_ref());
        same(rt, &found.as_str().trim_end(), &due, asked);
        return;
    }
    let event = event_of(rt, alloc, &models.wider, asked);
    let reason = made(rt, why(machine, &event), asked);
    let spelled = spelled(rt, alloc, reason, asked);
    expect_text(rt, spelled.as_bytes(), due, asked);
}

// A machine on the model goes through the lines.
fn go<A: Handle>(rt: &impl Abort, alloc: A, model: &str, lines: &str) {
    let models = Models::of(rt, alloc, model);
    let mut machine = made(rt, new_machine(alloc, &models.model), "a machine");
    for line in lines.lines() {
        match line.strip_prefix("? ") {
            Some(asked) => answers(rt, alloc, &models, &machine, parted(rt, asked, " -- ")),
            None => admits(rt, alloc, &models, &mut machine, line),
        }
    }
    drop(machine);
    drop(models);
}

#[test]
fn machines_say_why(rt: HostRuntime) {
    let alloc = rt.alloc();
    go(&rt, alloc, Standard::Atomic.text(), FLAT);
    go(&rt, alloc, PARTING, HANDED);
    go(&rt, alloc, Standard::Recoverable.text(), WAITING);
    go(&rt, alloc, Standard::Contingent.text(), OWING);
}
