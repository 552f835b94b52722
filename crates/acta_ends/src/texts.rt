//! Conditions written in the form in which they are read.

ghost use Rattle.std.specs.Prelude.{◌≡◌, ◌++◌, ◌∷◌, [], codes, drop, flat_map, IfOk, OnOk};
ghost use Rattle.std.specs.Fmt.{signed_decimal};
ghost use Rattle.acta_script.specs.Writing.{elements_word, object_word, return_word, status_word, txn_word};
ghost use Rattle.acta_words.specs.Text.{line_of};
ghost use Rattle.acta_ends.specs.ConditionWords.{and_words, condition_words, term_words, test_words};
ghost use Rattle.acta_ends.specs.EndLines.{number_word};

use crate::condition::{Condition, Term, Test};
use crate::words::{AND, COMPLETE, NOT, OWING, STUCK, push_number};
use acta_script::{object_name, push_elements, push_return, status_word};
use acta_table::{Model, ObjId, Ret, Status, TxnId};
use acta_words::{push_integer, push_natural, push_word};
use std::alloc::{AllocError, Allocator};

// Writes a transaction and its status.
fn push_status<A: Allocator>(
    text: &mut Vec<u8, A>,
    txn: TxnId,
    status: Status,
) -> Result<(), AllocError>
    ensures { OnOk result (text.new.items ≡ text.old.items ++ flat_map (λ word. 32 ∷ word) (txn_word txn ∷ status_word status ∷ [])) }
{
    push_natural(text, u64::from(txn.0))?;
    push_word(text, status_word(status))
}

// Writes an object and the sign before its value.
fn push_object<A: Allocator>(
    text: &mut Vec<u8, A>,
    model: &Model<A>,
    object: ObjId,
) -> Result<(), AllocError>
    ensures { OnOk result (text.new.items ≡ text.old.items ++ flat_map (λ word. 32 ∷ word) (object_word model.now object ∷ codes "=" ∷ [])) }
{
    push_word(text, object_name(model, object))?;
    push_word(text, b"=")
}

// Writes an object and its value, a number.
fn push_value<A: Allocator>(
    text: &mut Vec<u8, A>,
    model: &Model<A>,
    object: ObjId,
    number: i64,
) -> Result<(), AllocError>
    ensures { OnOk result (text.new.items ≡ text.old.items ++ flat_map (λ word. 32 ∷ word) (object_word model.now object ∷ codes "=" ∷ signed_decimal number ∷ [])) }
{
    push_object(text, model, object)?;
    push_integer(text, number)
}

// Writes an object and the elements of its set.
fn push_set<A: Allocator>(
    text: &mut Vec<u8, A>,
    model: &Model<A>,
    object: ObjId,
    elements: &[i32],
) -> Result<(), AllocError>
    ensures { OnOk result (text.new.items ≡ text.old.items ++ flat_map (λ word. 32 ∷ word) (object_word model.now object ∷ codes "=" ∷ elements_word elements.now ∷ [])) }
{
    push_object(text, model, object)?;
    push_elements(text, elements)
}

// Writes a line and its return.
fn push_returned<A: Allocator>(
    text: &mut Vec<u8, A>,
    numbers: &[usize],
    line: usize,
    ret: Ret,
) -> Result<(), AllocError>
    ensures { OnOk result (text.new.items ≡ text.old.items ++ flat_map (λ word. 32 ∷ word) (number_word numbers.now line ∷ codes "=" ∷ return_word ret ∷ [])) }
{
    push_number(text, numbers, line)?;
    push_word(text, b"=")?;
    push_return(text, ret)
}

// Writes a test, each word after a space.
fn push_test<A: Allocator>(
    text: &mut Vec<u8, A>,
    model: &Model<A>,
    numbers: &[usize],
    test: &Test<A>,
) -> Result<(), AllocError>
    ensures { OnOk result (text.new.items ≡ text.old.items ++ flat_map (λ word. 32 ∷ word) (test_words model.now numbers.now test.now)) }
{
    match test {
        Test::Complete => push_word(text, COMPLETE),
        Test::Stuck => push_word(text, STUCK),
        Test::Owing => push_word(text, OWING),
        Test::Status(txn, status) => push_status(text, *txn, *status),
        Test::Number(object, number) => push_value(text, model, *object, *number),
        Test::Elements(object, elements) => push_set(text, model, *object, elements.as_slice()),
        Test::Returned(line, ret) => push_returned(text, numbers, *line, *ret),
    }
}

// Writes a test, after a `not` if it must fail, each word after a space.
fn push_term<A: Allocator>(
    text: &mut Vec<u8, A>,
    model: &Model<A>,
    numbers: &[usize],
    term: &Term<A>,
) -> Result<(), AllocError>
    ensures { OnOk result (text.new.items ≡ text.old.items ++ flat_map (λ word. 32 ∷ word) (term_words model.now numbers.now term.now)) }
{
    if !term.is_negated {
        return push_test(text, model, numbers, &term.test);
    }
    push_word(text, NOT)?;
    push_test(text, model, numbers, &term.test)
}

// Writes an `and` and a term, each word after a space.
fn push_and<A: Allocator>(
    text: &mut Vec<u8, A>,
    model: &Model<A>,
    numbers: &[usize],
    term: &Term<A>,
) -> Result<(), AllocError>
    ensures { OnOk result (text.new.items ≡ text.old.items ++ flat_map (λ word. 32 ∷ word) (and_words model.now numbers.now term.now)) }
{
    push_word(text, AND)?;
    push_term(text, model, numbers, term)
}

// Writes terms, each word after a space.
fn push_ands<A: Allocator>(
    text: &mut Vec<u8, A>,
    model: &Model<A>,
    numbers: &[usize],
    terms: &[Term<A>],
) -> Result<(), AllocError>
    ensures { OnOk result (text.new.items ≡ text.old.items ++ flat_map (λ word. 32 ∷ word) (flat_map (and_words model.now numbers.now) terms.now)) }
{
    for term in terms {
        push_and(text, model, numbers, term)?;
    }
    Ok(())
}

// Writes the words of terms, each after a space.
fn push_terms<A: Allocator>(
    text: &mut Vec<u8, A>,
    model: &Model<A>,
    numbers: &[usize],
    terms: &[Term<A>],
) -> Result<(), AllocError>
    ensures { OnOk result (text.new.items ≡ text.old.items ++ flat_map (λ word. 32 ∷ word) (condition_words model.now numbers.now terms.now)) }
{
    let [first, others @ ..] = terms else {
        return Ok(());
    };
    push_term(text, model, numbers, first)?;
    push_ands(text, model, numbers, others)
}

// The text without the space before its first word.
fn unspaced(text: &[u8]) -> &[u8]
    ensures { result.now ≡ drop 1 text.now }
{
    match text {
        [_, words @ ..] => words,
        [] => text,
    }
}

/// The words of the condition, separated by spaces, in the form that `read_condition` reads. `numbers` has the number in the
/// input of each line of the programs.
pub fn condition_text<A: Allocator + Copy>(
    alloc: A,
    model: &Model<A>,
    numbers: &[usize],
    condition: &Condition<A>,
) -> Result<Vec<u8, A>, AllocError>
    ensures { IfOk result (λ text. text.items ≡ line_of (condition_words model.now numbers.now condition.now.terms.items)) }
{
    let mut text = Vec::new(alloc);
    push_terms(&mut text, model, numbers, condition.terms.as_slice())?;
    Vec::from_slice(alloc, unspaced(text.as_slice()))
}
