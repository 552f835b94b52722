//! The lines of answers, debts and faults.

ghost use Rattle.std.specs.Prelude.{◌≡◌, ◌++◌, IfOk, OnOk};
ghost use Rattle.acta_script.specs.Answers.{answer_line, missing_word, owed_line, fault_line};
ghost use Rattle.acta_table.specs.declared.answer.Answer.TheVariants.{Admitted, Refused};

use crate::returns::push_return;
use acta_table::{Answer, Missing, Owed, Ret, Rule};
use acta_words::{push_natural, push_word};
use std::alloc::{AllocError, Allocator};

// Adds `ok PLACE [RETURN]`.
#[tactic(auto, unfolding(crate::specs::Answers::answer_line))]
fn push_admitted<A: Allocator>(
    text: &mut Vec<u8, A>,
    place: u32,
    ret: Option<Ret>,
) -> Result<(), AllocError>
    ensures { OnOk result (text.new.items ≡ text.old.items ++ answer_line (Admitted place ret)) }
{
    text.extend_from_slice(b"ok")?;
    push_natural(text, u64::from(place))?;
    match ret {
        Some(ret) => push_return(text, ret),
        None => Ok(()),
    }
}

// Adds `no RULE [by N]`.
#[tactic(auto, unfolding(crate::specs::Answers::answer_line))]
fn push_refused<A: Allocator>(
    text: &mut Vec<u8, A>,
    rule: Rule,
    by: Option<u32>,
) -> Result<(), AllocError>
    ensures { OnOk result (text.new.items ≡ text.old.items ++ answer_line (Refused rule by)) }
{
    text.extend_from_slice(b"no")?;
    push_natural(text, u64::from(rule.number()))?;
    let Some(number) = by else {
        return Ok(());
    };
    push_word(text, b"by")?;
    push_natural(text, u64::from(number))
}

/// Adds the line of an answer, without a line feed: `ok`, the place, and the return of an operation; or `no`, the number
/// of the rule, and, if the rule names one, `by` and the number that breaks it.
pub fn push_answer<A: Allocator>(text: &mut Vec<u8, A>, answer: &Answer) -> Result<(), AllocError>
    ensures { OnOk result (text.new.items ≡ text.old.items ++ answer_line answer.now) }
{
    match *answer {
        Answer::Admitted { place, ret } => push_admitted(text, place, ret),
        Answer::Refused { rule, by } => push_refused(text, rule, by),
    }
}

/// The line of an answer.
pub fn answer_line<A: Allocator + Copy>(alloc: A, answer: &Answer) -> Result<Vec<u8, A>, AllocError>
    ensures { IfOk result (λ line. line.items ≡ answer_line answer.now) }
{
    let mut line = Vec::new(alloc);
    push_answer(&mut line, answer)?;
    Ok(line)
}

/// The word of a missing event.
pub fn missing_word(missing: Missing) -> &'static [u8]
    ensures { result.now ≡ missing_word missing }
{
    match missing {
        Missing::Commit => b"commit",
        Missing::Abort => b"abort",
    }
}

/// The line of a debt: `owed`, the number of the edge, the transaction, and the missing event.
#[tactic(auto, unfolding(crate::specs::Answers::owed_line))]
pub fn owed_line<A: Allocator + Copy>(alloc: A, owed: &Owed) -> Result<Vec<u8, A>, AllocError>
    ensures { IfOk result (λ line. line.items ≡ owed_line owed.now) }
{
    let mut line = Vec::new(alloc);
    line.extend_from_slice(b"owed")?;
    push_natural(&mut line, u64::from(owed.edge.0))?;
    push_natural(&mut line, u64::from(owed.txn.0))?;
    push_word(&mut line, missing_word(owed.missing))?;
    Ok(line)
}

/// The line of a fault in a history: `fault`, the number of the axiom, the place, from 1, and the number that breaks
/// the axiom there.
#[tactic(auto, unfolding(crate::specs::Answers::fault_line))]
pub fn fault_line<A: Allocator + Copy>(
    alloc: A,
    number: u8,
    place: u32,
    by: u64,
) -> Result<Vec<u8, A>, AllocError>
    ensures { IfOk result (λ line. line.items ≡ fault_line number place by) }
{
    let mut line = Vec::new(alloc);
    line.extend_from_slice(b"fault")?;
    push_natural(&mut line, u64::from(number))?;
    push_natural(&mut line, u64::from(place))?;
    push_natural(&mut line, by)?;
    Ok(line)
}
