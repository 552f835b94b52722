//! Conditions, read from their words: tests joined by `and`, each with an optional `not` before it.
//!
//! ```text
//! complete | stuck | owing | T STATUS | OBJECT = VALUE | LINE = RETURN
//! ```
//!
//! The sign may touch its neighbours. A word before a sign is always an object or a line, even if it has another meaning
//! elsewhere.

ghost use Rattle.std.specs.Prelude.{◌<◌, length, IfOk};

use crate::condition::{Condition, Term, Test};
use crate::fault::{ConditionError, ConditionFault, Expected};
use crate::tokens::{Rest, Token, tokens_of};
use crate::words::{AND, COMPLETE, NOT, OWING, STUCK};
use acta_objects::Members;
use acta_script::{ProgramLine, parse_return, status_word};
use acta_table::{Event, Kind, Model, ObjId, Status, TxnId};
use acta_words::{read_i32, read_i64, read_u16, read_u32, words_of};
use std::alloc::{AllocError, Allocator};

// The status that the word names, of a transaction that has begun.
fn status_named(word: &[u8]) -> Option<Status> {
    [
        Status::InProgress,
        Status::Committed,
        Status::Aborted,
        Status::Joined,
    ]
    .iter()
    .copied()
    .find(|status| word == status_word(*status))
}

// The position of the line of the programs with this number in the input.
fn line_named(numbers: &[usize], word: &[u8]) -> Option<usize> {
    let number = read_u32(word)? as usize;
    numbers.iter().position(|one| *one == number)
}

// Whether an alternative of the line at this position is an operation.
fn has_operation<A: Allocator>(lines: &[ProgramLine<A>], line: usize) -> bool {
    let Some(found) = lines.get(line) else {
        return false;
    };
    for event in found.alternatives.as_slice() {
        if matches!(event, Event::Operate(_, _, _)) {
            return true;
        }
    }
    false
}

// Whether an alternative of the line starts the transaction.
fn starts<A: Allocator>(line: &ProgramLine<A>, txn: TxnId) -> bool {
    for event in line.alternatives.as_slice() {
        if event.started() == Some(txn) {
            return true;
        }
    }
    false
}

// Whether an event of the programs starts the transaction.
fn is_started<A: Allocator>(lines: &[ProgramLine<A>], txn: TxnId) -> bool {
    for line in lines {
        if starts(line, txn) {
            return true;
        }
    }
    false
}

// The object of the model with this name.
fn object_named<A: Allocator>(model: &Model<A>, word: &[u8]) -> Option<ObjId> {
    let place = model
        .objects()
        .iter()
        .position(|object| word == object.name.as_slice())?;
    Some(ObjId(u16::try_from(place).ok()?))
}

// Adds the element that the word names; returns whether it names one.
fn add_element<A: Allocator + Copy>(
    members: &mut Members<A>,
    word: &[u8],
) -> Result<bool, AllocError> {
    match read_i32(word) {
        Some(element) => {
            members.insert(element)?;
            Ok(true)
        }
        None => Ok(false),
    }
}

// Adds the elements of a list separated by commas; returns whether each part is one.
fn add_elements<A: Allocator + Copy>(
    members: &mut Members<A>,
    word: &[u8],
) -> Result<bool, AllocError> {
    let mut start = 0;
    for (place, byte) in word.iter().enumerate() {
        if *byte == b',' {
            if !add_element(members, &word[start..place])? {
                return Ok(false);
            }
            start = place + 1;
        }
    }
    add_element(members, &word[start..])
}

// The elements of the set that the word names, ascending, each once.
fn elements_of<A: Allocator + Copy>(
    alloc: A,
    word: &[u8],
) -> Result<Option<Vec<i32, A>>, AllocError> {
    let [b'{', inside @ .., b'}'] = word else {
        return Ok(None);
    };
    let mut members = Members::new(alloc);
    if inside.is_empty() || add_elements(&mut members, inside)? {
        return Ok(Some(members.listed(alloc)?));
    }
    drop(members);
    Ok(None)
}

// The test that an object of this kind has the value that the word names.
fn value_test<A: Allocator + Copy>(
    alloc: A,
    object: ObjId,
    kind: &Kind,
    word: &[u8],
) -> Result<Option<Test<A>>, AllocError> {
    match kind {
        Kind::Register(_) => match read_i32(word) {
            Some(number) => Ok(Some(Test::Number(object, i64::from(number)))),
            None => Ok(None),
        },
        Kind::Counter(_) => match read_i64(word) {
            Some(number) => Ok(Some(Test::Number(object, number))),
            None => Ok(None),
        },
        Kind::Elements => match elements_of(alloc, word)? {
            Some(elements) => Ok(Some(Test::Elements(object, elements))),
            None => Ok(None),
        },
    }
}

// The test, if no token follows it.
fn alone<A: Allocator>(test: Test<A>, rest: Rest<'_, '_>) -> Result<Test<A>, ConditionFault> {
    match rest.tokens.first() {
        None => Ok(test),
        Some(next) => Err(next.fault(Expected::And)),
    }
}

// OBJECT = VALUE, read from VALUE on
fn read_value<A: Allocator + Copy>(
    alloc: A,
    model: &Model<A>,
    name: Token<'_>,
    rest: Rest<'_, '_>,
) -> Result<Test<A>, ConditionError> {
    let Some(object) = object_named(model, name.text) else {
        return Err(name.fault(Expected::Object).into());
    };
    let Some(found) = model.objects().get(usize::from(object.0)) else {
        return Err(name.fault(Expected::Object).into());
    };
    let Some((value, rest)) = rest.split() else {
        return Err(rest.fault(Expected::Value(object)).into());
    };
    match value_test(alloc, object, &found.kind, value.text)? {
        Some(test) => Ok(alone(test, rest)?),
        None => Err(value.fault(Expected::Value(object)).into()),
    }
}

// LINE = RETURN, read from RETURN on
fn read_returned<A: Allocator>(
    lines: &[ProgramLine<A>],
    numbers: &[usize],
    number: Token<'_>,
    rest: Rest<'_, '_>,
) -> Result<Test<A>, ConditionFault> {
    let Some(line) = line_named(numbers, number.text) else {
        return Err(number.fault(Expected::Line));
    };
    if !has_operation(lines, line) {
        return Err(number.fault(Expected::Operation));
    }
    let Some((value, rest)) = rest.split() else {
        return Err(rest.fault(Expected::Return));
    };
    let Ok(ret) = parse_return(&[value.text]) else {
        return Err(value.fault(Expected::Return));
    };
    alone(Test::Returned(line, ret), rest)
}

// T STATUS, read from STATUS on
fn read_status<A: Allocator>(
    lines: &[ProgramLine<A>],
    first: Token<'_>,
    txn: TxnId,
    rest: Rest<'_, '_>,
) -> Result<Test<A>, ConditionFault> {
    if !is_started(lines, txn) {
        return Err(first.fault(Expected::Started));
    }
    let Some((word, rest)) = rest.split() else {
        return Err(rest.fault(Expected::Status));
    };
    let Some(status) = status_named(word.text) else {
        return Err(word.fault(Expected::Status));
    };
    alone(Test::Status(txn, status), rest)
}

// The test of one word.
fn plain_test<A: Allocator>(word: &[u8]) -> Option<Test<A>> {
    if word == COMPLETE {
        Some(Test::Complete)
    } else if word == STUCK {
        Some(Test::Stuck)
    } else if word == OWING {
        Some(Test::Owing)
    } else {
        None
    }
}

// complete, stuck or owing, already read
fn read_plain<A: Allocator>(
    word: Token<'_>,
    rest: Rest<'_, '_>,
) -> Result<Test<A>, ConditionFault> {
    match plain_test(word.text) {
        Some(test) => alone(test, rest),
        None => Err(word.fault(Expected::Test)),
    }
}

// Whether the word begins with a digit, as no name does.
fn is_number(word: &[u8]) -> bool {
    match word.first() {
        Some(byte) => byte.is_ascii_digit(),
        None => false,
    }
}

// A test.
fn read_test<A: Allocator + Copy>(
    alloc: A,
    model: &Model<A>,
    lines: &[ProgramLine<A>],
    numbers: &[usize],
    rest: Rest<'_, '_>,
) -> Result<Test<A>, ConditionError> {
    let Some((first, others)) = rest.split() else {
        return Err(rest.fault(Expected::Test).into());
    };
    match others.after_sign() {
        Some(value) if is_number(first.text) => { Ok(read_returned(lines, numbers, first, value)?) }
        Some(value) => read_value(alloc, model, first, value),
        None => match read_u16(first.text) {
            Some(txn) => Ok(read_status(lines, first, TxnId(txn), others)?),
            None => Ok(read_plain(first, others)?),
        },
    }
}

// The tokens after a `not`, if the first token is one.
fn after_not<'t, 'a>(rest: Rest<'t, 'a>) -> Option<Rest<'t, 'a>> {
    let (first, others) = rest.split()?;
    if first.text == NOT && others.after_sign().is_none() {
        Some(others)
    } else {
        None
    }
}

// A test with an optional `not` before it.
fn read_term<A: Allocator + Copy>(
    alloc: A,
    model: &Model<A>,
    lines: &[ProgramLine<A>],
    numbers: &[usize],
    rest: Rest<'_, '_>,
) -> Result<Term<A>, ConditionError> {
    match after_not(rest) {
        Some(others) => Ok(Term {
            is_negated: true,
            test: read_test(alloc, model, lines, numbers, others)?,
        }),
        None => Ok(Term {
            is_negated: false,
            test: read_test(alloc, model, lines, numbers, rest)?,
        }),
    }
}

// Whether the token at this place is an `and` between two tests.
fn is_joint(tokens: &[Token<'_>], place: usize, token: &Token<'_>) -> bool {
    if token.text != AND {
        return false;
    }
    match tokens.iter().skip(place).nth(1) {
        Some(next) => !next.is_sign(),
        None => true,
    }
}

// Tests joined by `and`. `end` is the position of the word after them.
fn read_terms<A: Allocator + Copy>(
    alloc: A,
    model: &Model<A>,
    lines: &[ProgramLine<A>],
    numbers: &[usize],
    tokens: &[Token<'_>],
    end: usize,
) -> Result<Condition<A>, ConditionError>
    ensures { IfOk result (λ condition. 0 < length condition.terms.items) }
{
    let mut terms = Vec::new(alloc);
    let mut start = 0;
    for (place, token) in tokens.iter().enumerate() {
        if is_joint(tokens, place, token) {
            let rest = Rest {
                tokens: &tokens[start..place],
                end: token.word,
            };
            terms.push(read_term(alloc, model, lines, numbers, rest)?)?;
            start = place + 1;
        }
    }
    let rest = Rest {
        tokens: &tokens[start..],
        end,
    };
    terms.push(read_term(alloc, model, lines, numbers, rest)?)?;
    Ok(Condition { terms })
}

/// Parses the text into a condition on the ends of these lines of programs, with at least one test. `numbers` has the number
/// of each line in the input. The elements of a set are sorted, each once. `Fault` has the first unexpected word; a
/// transaction that no event starts, and a line without an operation, are unexpected, too.
pub fn read_condition<A: Allocator + Copy>(
    alloc: A,
    model: &Model<A>,
    lines: &[ProgramLine<A>],
    numbers: &[usize],
    text: &[u8],
) -> Result<Condition<A>, ConditionError>
    ensures { IfOk result (λ condition. 0 < length condition.terms.items) }
{
    let words = words_of(alloc, text)?;
    let tokens = tokens_of(alloc, words.as_slice())?;
    read_terms(alloc, model, lines, numbers, tokens.as_slice(), words.len())
}
