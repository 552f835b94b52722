//! The greatest number of edges: all of them are found, and a further one is refused, unless it is already in force.

use crate::calls::{new_machine, take};
use crate::expecting::{made, same};
use crate::models::model_of;
use acta_machine::{Handle, Machine};
use acta_models::Standard;
use acta_table::{Answer, Dep, Event, LAST_TXN, MOST_EDGES, Rule, TxnId};
use std::process::Abort;

// The machine's answer if an edge of this kind on the first transaction is formed.
fn form_on_first<A: Handle>(
    rt: &impl Abort,
    machine: &mut Machine<A>,
    kind: Dep,
    j: u16,
) -> Answer {
    let event = Event::Form(kind, TxnId(j), TxnId(1));
    made(rt, take(machine, &event), "an edge")
}

// Forms an edge of this kind on the first transaction from each one from the second up to this one.
fn form_up_to<A: Handle>(rt: &impl Abort, machine: &mut Machine<A>, kind: Dep, last: u16) {
    for j in 2..=last {
        form_on_first(rt, machine, kind, j);
    }
}

#[test]
fn as_many_as_there_may_be(rt: HostRuntime) {
    let alloc = rt.alloc();
    let model = model_of(&rt, alloc, Standard::Contingent.text());
    let mut machine = made(&rt, new_machine(alloc, &model), "a machine");
    form_up_to(&rt, &mut machine, Dep::Cd, LAST_TXN);
    form_up_to(&rt, &mut machine, Dep::Td, 3);
    same(&rt, &machine.edges().len(), &MOST_EDGES, "the edges");
    let (rule, by) = (Rule::EdgesFull, None);
    let one_more = form_on_first(&rt, &mut machine, Dep::Td, 4);
    same(&rt, &one_more, &Answer::Refused { rule, by }, "one more");
    let (place, ret) = (16_385, None);
    let again = form_on_first(&rt, &mut machine, Dep::Td, 3);
    same(&rt, &again, &Answer::Admitted { place, ret }, "one again");
    same(&rt, &machine.edges().len(), &MOST_EDGES, "no new edge");
    drop(machine);
    drop(model);
}
