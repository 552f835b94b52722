//! How programs ended: what all runs that end in the same way have in common.

ghost use Rattle.std.specs.Prelude.{◌≡◌, [], fold, length, map, option_map, IfOk};
ghost use Rattle.std.specs.BTreeSet.{insert_key};
ghost use Rattle.std.specs.List.{filter_map, range_with_len};
ghost use Rattle.acta_table.specs.declared.limits.TheConstants.{LAST_TXN};
ghost use Rattle.acta_machine.specs.Table.{status_in, value_in};
ghost use Rattle.acta_explore.specs.Outcomes.{begun_status, debt_cmp, debts_of, outcome, rule_at, rules_at, seats_of, waiting_at};
ghost use Rattle.acta_explore.specs.Programs.{lines_done};
ghost use Rattle.acta_explore.specs.inside.Shown.{debt_among, shown, shown_value, shown_wait};

use crate::debt::Debt;
use crate::plan::{Plan, listed};
use crate::point::{Done, Point};
use acta_machine::{Handle, Machine};
use acta_objects::ObjectState;
use acta_table::{Edge, ObjId, Owed, Rule, Status, TxnId};
use std::alloc::{AllocError, Allocator};
use std::collections::BTreeSet;

/// A seat that waits for ever, and its line.
#[derive(Drop)]
#[derive_where(PartialEq, Eq, Hash)]
pub struct Wait<A: Allocator> {
    pub seat: u8,
    /// The position of the line among the lines of the programs, from 0.
    pub line: usize,
    /// The lowest rule that each alternative of the line breaks.
    pub rules: Vec<Rule, A>,
}

/// The status of a transaction that has begun.
#[derive(Clone, Copy, PartialEq, Eq, Hash, Debug)]
pub struct TxnStatus {
    pub txn: TxnId,
    pub status: Status,
}

/// The value of an object.
#[derive(Drop)]
#[derive_where(PartialEq, Eq, Hash)]
pub enum Value<A: Allocator> {
    Register(i32),
    Counter(i64),
    /// The elements of a set, ascending.
    Elements(Vec<i32, A>),
}

/// How programs ended.
#[derive(Drop)]
#[derive_where(PartialEq, Eq, Hash)]
pub struct Outcome<A: Allocator> {
    /// What each line of the programs did, if it was done.
    pub lines: Vec<Option<Done>, A>,
    /// The seats that are not done, ascending.
    pub waits: Vec<Wait<A>, A>,
    /// The transactions that have begun, ascending.
    pub statuses: Vec<TxnStatus, A>,
    /// The values of the objects, in the order of the model.
    pub values: Vec<Option<Value<A>>, A>,
    /// The debts, ordered by the kind's code, the owing transaction and the other transaction.
    pub debts: Vec<Debt, A>,
}

// The lowest rule that an alternative of a line breaks.
fn rule_at<A: Handle>(
    alloc: A,
    plan: &Plan<'_, A>,
    point: &Point<A>,
    line: usize,
    alternative: usize,
) -> Result<Option<Rule>, AllocError>
    ensures { IfOk result (λ rule. rule ≡ rule_at plan.now point.now line alternative) }
{
    let Some(event) = plan.event_at(alloc, point, line, alternative)? else {
        return Ok(None);
    };
    match point.machine().why(&event)? {
        Some(reason) => Ok(Some(reason.refusal().rule)),
        None => Ok(None),
    }
}

// The lowest rule that each alternative of a line breaks.
fn rules_at<A: Handle>(
    alloc: A,
    plan: &Plan<'_, A>,
    point: &Point<A>,
    line: usize,
) -> Result<Vec<Rule, A>, AllocError>
    ensures { IfOk result (λ rules. rules.items ≡ rules_at plan.now point.now line) }
{
    let mut rules = Vec::new(alloc);
    for alternative in 0..plan.alternatives_at(line) {
        let Some(rule) = rule_at(alloc, plan, point, line, alternative)? else {
            continue;
        };
        rules.push(rule)?;
    }
    Ok(rules)
}

// The line at which a seat waits, if it is not done. `done` is what each line did.
fn waiting_at<A: Handle>(
    alloc: A,
    plan: &Plan<'_, A>,
    done: &[Option<Done>],
    point: &Point<A>,
    seat: u8,
) -> Result<Option<Wait<A>>, AllocError>
    requires { done.now ≡ lines_done plan.now point.now.steps }
    ensures { IfOk result (λ wait. option_map shown_wait wait ≡ waiting_at plan.now point.now seat) }
{
    match plan.next_line(done, seat) {
        Some(line) => Ok(Some(Wait {
            seat,
            line,
            rules: rules_at(alloc, plan, point, line)?,
        })),
        None => Ok(None),
    }
}

// The seats that are not done.
fn waiting<A: Handle>(
    alloc: A,
    plan: &Plan<'_, A>,
    done: &[Option<Done>],
    point: &Point<A>,
) -> Result<Vec<Wait<A>, A>, AllocError>
    requires { done.now ≡ lines_done plan.now point.now.steps }
    ensures { IfOk result (λ waits. map shown_wait waits.items ≡ filter_map (waiting_at plan.now point.now) (seats_of plan.now)) }
{
    let mut waits = Vec::new(alloc);
    for seat in plan.seats() {
        let Some(wait) = waiting_at(alloc, plan, done, point, *seat)? else {
            continue;
        };
        waits.push(wait)?;
    }
    Ok(waits)
}

// The status of the transaction, if it has begun.
fn begun_status<A: Handle>(machine: &Machine<A>, txn: TxnId) -> Option<TxnStatus>
    ensures { result ≡ begun_status (status_in machine.now) txn.0 }
{
    match machine.status(txn) {
        Status::NotBegun => None,
        status => Some(TxnStatus { txn, status }),
    }
}

// The transactions that have begun.
fn statuses<A: Handle>(alloc: A, machine: &Machine<A>) -> Result<Vec<TxnStatus, A>, AllocError>
    ensures { IfOk result (λ statuses. statuses.items ≡ filter_map (begun_status (status_in machine.now)) (range_with_len 1 LAST_TXN)) }
{
    let mut statuses = Vec::new(alloc);
    for t in 1..machine.known_txns() {
        let Some(status) = begun_status(machine, TxnId(t as u16)) else {
            continue;
        };
        statuses.push(status)?;
    }
    Ok(statuses)
}

// The value in the form that an outcome has.
fn value_of<A: Allocator + Copy>(alloc: A, state: &ObjectState<A>) -> Result<Value<A>, AllocError>
    ensures { IfOk result (λ value. shown_value value ≡ state.now) }
{
    Ok(match state {
        ObjectState::Register(value) => Value::Register(*value),
        ObjectState::Counter(value) => Value::Counter(*value),
        ObjectState::Elements(members) => Value::Elements(members.listed(alloc)?),
    })
}

// The value of an object.
fn object_value<A: Handle>(
    alloc: A,
    machine: &Machine<A>,
    ob: ObjId,
) -> Result<Option<Value<A>>, AllocError>
    ensures { IfOk result (λ value. option_map shown_value value ≡ value_in machine.now ob.0) }
{
    match machine.value(ob)? {
        Some(state) => Ok(Some(value_of(alloc, &state)?)),
        None => Ok(None),
    }
}

// The values of the objects.
fn values<A: Handle>(alloc: A, machine: &Machine<A>) -> Result<Vec<Option<Value<A>>, A>, AllocError>
    ensures { IfOk result (λ values. map (option_map shown_value) values.items ≡ map (value_in machine.now) (range_with_len 0 (length machine.now.model.objects))) }
{
    let mut values = Vec::new(alloc);
    for ob in 0..machine.model().objects().len() {
        values.push(object_value(alloc, machine, ObjId(ob as u16))?)?;
    }
    Ok(values)
}

// The debt of an edge.
fn debt_of(edges: &[Edge], owed: &Owed) -> Option<Debt>
    ensures { result ≡ debt_among edges.now owed.now }
{
    let edge = edges.get((owed.edge.0 as usize).checked_sub(1)?)?;
    Some(Debt {
        kind: edge.kind,
        txn: edge.j,
        on: edge.i,
    })
}

// The debts of these edges, as a set.
fn debt_set<A: Allocator + Copy>(
    alloc: A,
    edges: &[Edge],
    owed: &[Owed],
) -> Result<BTreeSet<Debt, A>, AllocError>
    ensures { IfOk result (λ debts. debts.keys ≡ fold (insert_key debt_cmp) [] (filter_map (debt_among edges.now) owed.now)) }
{
    let mut debts = BTreeSet::new(alloc);
    for one in owed {
        let Some(debt) = debt_of(edges, one) else {
            continue;
        };
        debts.insert(debt)?;
    }
    Ok(debts)
}

/// The debts, in order and each once.
pub fn debts<A: Handle>(alloc: A, machine: &Machine<A>) -> Result<Vec<Debt, A>, AllocError>
    ensures { IfOk result (λ debts. debts.items ≡ debts_of machine.now) }
{
    let owed = machine.owed()?;
    let set = debt_set(alloc, machine.edges(), owed.as_slice())?;
    listed(alloc, &set)
}

impl<A: Handle> Outcome<A> {
    /// The outcome at a point.
    #[tactic(auto, unfolding(crate::specs::Outcomes::outcome))]
    pub(crate) fn of(
        alloc: A,
        plan: &Plan<'_, A>,
        point: &Point<A>,
    ) -> Result<Outcome<A>, AllocError>
        ensures { IfOk result (λ found. shown found ≡ outcome plan.now point.now) }
    {
        let machine = point.machine();
        let lines = plan.lines_done(alloc, point.steps())?;
        let waits = waiting(alloc, plan, lines.as_slice(), point)?;
        let statuses = statuses(alloc, machine)?;
        let values = values(alloc, machine)?;
        let debts = debts(alloc, machine)?;
        Ok(Outcome {
            lines,
            waits,
            statuses,
            values,
            debts,
        })
    }
}
