//! Conditions on how programs ended.

ghost use Rattle.std.specs.Prelude.{◌≡◌, map, option_map};
ghost use Rattle.std.specs.List.{list_any};
ghost use Rattle.acta_explore.specs.inside.Shown.{shown, shown_value};
ghost use Rattle.acta_ends.specs.Conditions.{has_elements, has_number, holds, is_same_return, is_same_status, is_status, return_at, term_holds, test_holds, value_at};

use acta_explore::{Outcome, TxnStatus, Value};
use acta_table::{ObjId, Ret, Status, TxnId};
use std::alloc::Allocator;

/// A question about an end.
#[derive(Drop)]
pub enum Test<A: Allocator> {
    /// No seat waits, and there is no debt.
    Complete,
    /// A seat waits.
    Stuck,
    /// There is a debt.
    Owing,
    /// The transaction has begun, and has this status.
    Status(TxnId, Status),
    /// The register or the counter has this value.
    Number(ObjId, i64),
    /// The set has exactly these elements, which are ascending here.
    Elements(ObjId, Vec<i32, A>),
    /// The line at this position among the lines of the programs, from 0, did an operation with this return.
    Returned(usize, Ret),
}

/// A test, or its opposite.
#[derive(Drop)]
pub struct Term<A: Allocator> {
    /// Whether the test must fail.
    pub is_negated: bool,
    pub test: Test<A>,
}

/// Tests that an end must all pass. Every end meets a condition without tests.
#[derive(Drop)]
pub struct Condition<A: Allocator> {
    pub terms: Vec<Term<A>, A>,
}

// Whether the two statuses are the same.
fn is_same_status(one: Status, other: Status) -> bool
    ensures { result ≡ is_same_status one other }
{
    one == other
}

// Whether the two returns are the same.
fn is_same_return(one: Ret, other: Ret) -> bool
    ensures { result ≡ is_same_return one other }
{
    one == other
}

// Whether the transaction has begun, and has this status.
fn has_status(statuses: &[TxnStatus], txn: TxnId, status: Status) -> bool
    ensures { result ≡ list_any (is_status txn status) statuses.now }
{
    statuses.iter().any(|one| one.txn.0 == txn.0 && is_same_status(one.status, status))
}

// Whether the value of a register or a counter is this number.
fn has_number<A: Allocator>(value: &Value<A>, number: i64) -> bool
    ensures { result ≡ has_number number (shown_value value.now) }
{
    match value {
        Value::Register(found) => i64::from(*found) == number,
        Value::Counter(found) => *found == number,
        Value::Elements(_) => false,
    }
}

// Whether a set has exactly these elements, ascending.
fn has_elements<A: Allocator>(value: &Value<A>, elements: &[i32]) -> bool
    ensures { result ≡ has_elements elements.now (shown_value value.now) }
{
    match value {
        Value::Register(_) | Value::Counter(_) => false,
        Value::Elements(found) => found.as_slice() == elements,
    }
}

// The value of the object, if it has one.
fn value_at<A: Allocator>(outcome: &Outcome<A>, object: ObjId) -> Option<&Value<A>>
    ensures { option_map (λ value. shown_value value.now) result ≡ value_at (shown outcome.now) object }
{
    match outcome.values.as_slice().get(usize::from(object.0)) {
        Some(value) => value.as_ref(),
        None => None,
    }
}

// The return of the line, if it did an operation.
fn return_at<A: Allocator>(outcome: &Outcome<A>, line: usize) -> Option<Ret>
    ensures { result ≡ return_at (shown outcome.now) line }
{
    match outcome.lines.as_slice().get(line) {
        Some(Some(done)) => done.ret,
        _ => None,
    }
}

impl<A: Allocator> Test<A> {
    // Whether the test holds of the outcome.
    fn holds(&self, outcome: &Outcome<A>) -> bool
        ensures { result ≡ test_holds (shown outcome.now) self.now }
    {
        match self {
            Test::Complete => outcome.waits.is_empty() && outcome.debts.is_empty(),
            Test::Stuck => !outcome.waits.is_empty(),
            Test::Owing => !outcome.debts.is_empty(),
            Test::Status(txn, status) => has_status(outcome.statuses.as_slice(), *txn, *status),
            Test::Number(object, number) => match value_at(outcome, *object) {
                Some(value) => has_number(value, *number),
                None => false,
            },
            Test::Elements(object, elements) => match value_at(outcome, *object) {
                Some(value) => has_elements(value, elements.as_slice()),
                None => false,
            },
            Test::Returned(line, ret) => match return_at(outcome, *line) {
                Some(found) => is_same_return(*ret, found),
                None => false,
            },
        }
    }
}

impl<A: Allocator> Term<A> {
    // Whether the test holds of the outcome, or fails if it must.
    fn holds(&self, outcome: &Outcome<A>) -> bool
        ensures { result ≡ term_holds (shown outcome.now) self.now }
    {
        if self.is_negated {
            !self.test.holds(outcome)
        } else {
            self.test.holds(outcome)
        }
    }
}

impl<A: Allocator> Condition<A> {
    /// Whether each test of the condition holds of the outcome.
    pub fn holds(&self, outcome: &Outcome<A>) -> bool
        ensures { result ≡ holds self.now (shown outcome.now) }
    {
        self.terms.iter().all(|term| term.holds(outcome))
    }
}
