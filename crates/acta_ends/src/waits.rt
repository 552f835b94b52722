//! The first line of an end, and the seats that wait.

ghost use Rattle.std.specs.Prelude.{◌≡◌, ◌++◌, ◌∷◌, [], map, flat_map, OnOk};
ghost use Rattle.acta_words.specs.Text.{text_of};
ghost use Rattle.acta_explore.specs.inside.Shown.{shown, shown_wait};
ghost use Rattle.acta_ends.specs.EndLines.{head_line, kind_words, rule_word, wait_line};

use crate::words::{COMPLETE, OWING, STUCK, push_number};
use acta_explore::{Outcome, Wait};
use acta_table::Rule;
use acta_words::{push_line, push_natural, push_word};
use std::alloc::{AllocError, Allocator};

// Writes how programs ended, each word after a space.
fn push_kind<A: Allocator>(text: &mut Vec<u8, A>, outcome: &Outcome<A>) -> Result<(), AllocError>
    ensures { OnOk result (text.new.items ≡ text.old.items ++ flat_map (λ word. 32 ∷ word) (kind_words (shown outcome.now).waiting (shown outcome.now).debts)) }
{
    match (outcome.waits.is_empty(), outcome.debts.is_empty()) {
        (true, true) => push_word(text, COMPLETE),
        (false, true) => push_word(text, STUCK),
        (true, false) => push_word(text, OWING),
        (false, false) => push_word(text, b"stuck owing"),
    }
}

/// Writes the first line of an end.
pub(crate) fn push_head<A: Allocator>(
    text: &mut Vec<u8, A>,
    number: usize,
    outcome: &Outcome<A>,
) -> Result<(), AllocError>
    ensures { OnOk result (text.new.items ≡ text.old.items ++ text_of (head_line number (shown outcome.now) ∷ [])) }
{
    text.extend_from_slice(b"end")?;
    push_natural(text, number as u64)?;
    push_kind(text, outcome)?;
    push_line(text, b"")
}

// Writes the numbers of the rules, each after a space.
fn push_rules<A: Allocator>(text: &mut Vec<u8, A>, rules: &[Rule]) -> Result<(), AllocError>
    ensures { OnOk result (text.new.items ≡ text.old.items ++ flat_map (λ word. 32 ∷ word) (map rule_word rules.now)) }
{
    for rule in rules {
        push_natural(text, u64::from(rule.number()))?;
    }
    Ok(())
}

// Writes the line at which a seat waits.
fn push_wait<A: Allocator>(
    text: &mut Vec<u8, A>,
    numbers: &[usize],
    wait: &Wait<A>,
) -> Result<(), AllocError>
    ensures { OnOk result (text.new.items ≡ text.old.items ++ text_of (wait_line numbers.now (shown_wait wait.now) ∷ [])) }
{
    text.extend_from_slice(b"wait")?;
    push_natural(text, u64::from(wait.seat))?;
    push_number(text, numbers, wait.line)?;
    push_rules(text, wait.rules.as_slice())?;
    push_line(text, b"")?;
    Ok(())
}

/// Writes the waiting seats, one per line.
pub(crate) fn push_waits<A: Allocator>(
    text: &mut Vec<u8, A>,
    numbers: &[usize],
    waits: &[Wait<A>],
) -> Result<(), AllocError>
    ensures { OnOk result (text.new.items ≡ text.old.items ++ text_of (map (wait_line numbers.now) (map shown_wait waits.now))) }
{
    for wait in waits {
        push_wait(text, numbers, wait)?;
    }
    Ok(())
}
