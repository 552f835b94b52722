//! Whether debts can still be paid.

use crate::lines::LineIndex;
use crate::phrases::{first_named, put_formed_edge, put_standing};
use crate::prose::Prose;
use crate::put;
use crate::reasons::Refused;
use acta_hope::{Hope, why_and_hope};
use acta_machine::{Handle, Machine};
use acta_script::event_word;
use acta_table::{Event, Missing, TxnId};

// Adds that the edge with this number keeps the owing transaction from ever beginning.
fn put_lost<A: Handle>(
    prose: Prose<A>,
    machine: &Machine<A>,
    lines: LineIndex<'_, A>,
    debtor: TxnId,
    number: u32,
) -> Prose<A> {
    let number = u64::from(number);
    let prose = put!(prose; "It can no longer be paid: ", debtor.0, " can never begin");
    let Some(edge) = lines.edge(number) else {
        return prose.put(".");
    };
    let prose = put_formed_edge(prose.put(", because of "), lines, number);
    let prose = put!(prose; "\n", edge.i.0, " ");
    put_standing(prose, lines, edge.i, machine.status(edge.i)).put(".")
}

// Adds whether the paying event would be admitted, or why it is refused, for now or for ever.
fn put_payment<A: Handle>(
    prose: Prose<A>,
    machine: &Machine<A>,
    lines: LineIndex<'_, A>,
    payment: &Event<A>,
) -> Prose<A> {
    let (word, debtor) = (event_word(payment.kind()), first_named(payment).0);
    let refused = Refused {
        machine,
        lines,
        event: payment,
    };
    match why_and_hope(machine, payment) {
        Ok(None) => put!(prose; "It can be paid now: `", word, " ", debtor, "` would be admitted."),
        Ok(Some((reason, Hope::Never))) => {
            let prose = put!(prose; "It can no longer be paid: `", word, " ", debtor,
                "` can never be admitted.\n");
            refused.put_facts(prose, &reason)
        }
        Ok(Some((reason, hope))) => {
            let prose =
                put!(prose; "It can't be paid now: `", word, " ", debtor, "` is refused.\n");
            refused.put_reason(prose, true, &reason, hope)
        }
        Err(_) => prose.fail(),
    }
}

/// Adds whether a debt of this transaction can be paid now, later or never, in lines. `lost` is the result of
/// `acta_hope::never_begin` for the machine.
pub fn put_prospect<A: Handle>(
    prose: Prose<A>,
    machine: &Machine<A>,
    lines: LineIndex<'_, A>,
    lost: &[u32],
    debtor: TxnId,
    missing: Missing,
) -> Prose<A> {
    match lost.get(debtor.0 as usize) {
        Some(number) if *number != 0 => return put_lost(prose, machine, lines, debtor, *number),
        _ => {}
    }
    match missing {
        Missing::Commit => put_payment(prose, machine, lines, &Event::Commit(debtor)),
        Missing::Abort => put_payment(prose, machine, lines, &Event::Abort(debtor)),
    }
}
