//! The lowest code of a line: the tests are independent, and the first that passes, in the order of codes, decides.

ghost use Rattle.std.specs.Prelude.{◌≡◌, map};
ghost use Rattle.std.specs.List.{list_all};
ghost use Rattle.acta_lang.specs.Drafts.{extended};
ghost use Rattle.acta_lang.specs.Faults.{bad_name, bad_number, bad_policy_kind, bad_word, begin_kind_at_start, code_if, is_printable, lowest_of, not_ascii};
ghost use Rattle.acta_lang.specs.inside.Abstraction.{abstraction};

use crate::draft::{Draft, name_in, value_in};
use crate::fault::Code;
use crate::form::Form;
use acta_table::is_named_well;
use acta_words::read_i32;
use std::alloc::Allocator;

/// Whether a text may have the byte: a tab, or one from the space to the tilde.
pub(crate) fn is_plain(b: u8) -> bool
    ensures { result ≡ is_printable b }
{
    b == b'\t' || (b' ' <= b && b <= b'~')
}

fn is_printable(line: &[u8]) -> bool
    ensures { result ≡ list_all is_printable line.now }
{
    line.iter().all(|b| is_plain(*b))
}

#[tactic(auto, unfolding(crate::specs::Faults::not_ascii))]
fn not_ascii(line: &[u8]) -> bool
    ensures { result ≡ not_ascii line.now }
{
    !is_printable(line)
}

#[tactic(auto, unfolding(crate::specs::Faults::bad_word))]
fn bad_word(parsed: &Form) -> bool
    ensures { result ≡ bad_word parsed.now }
{
    matches!(parsed, Form::Unknown)
}

#[tactic(auto, unfolding(crate::specs::Faults::bad_name))]
fn bad_name(words: &[&[u8]], parsed: &Form) -> bool
    ensures { result ≡ bad_name (map (λ word. word.now) words.now) parsed.now }
{
    (parsed.is_object() || parsed.is_class()) && !is_named_well(name_in(words))
}

#[tactic(auto, unfolding(crate::specs::Faults::bad_number))]
fn bad_number(words: &[&[u8]], parsed: &Form) -> bool
    ensures { result ≡ bad_number (map (λ word. word.now) words.now) parsed.now }
{
    match parsed {
        Form::Register | Form::Counter => read_i32(value_in(words)).is_none(),
        _ => false,
    }
}

#[tactic(auto, unfolding(crate::specs::Faults::begin_kind_at_start))]
fn begin_kind_at_start(parsed: &Form) -> bool
    ensures { result ≡ begin_kind_at_start parsed.now }
{
    match parsed {
        Form::Spawn(edge) | Form::Split(edge) => edge.kind.is_begin_kind(),
        _ => false,
    }
}

#[tactic(auto, unfolding(crate::specs::Faults::bad_policy_kind))]
fn bad_policy_kind(parsed: &Form) -> bool
    ensures { result ≡ bad_policy_kind parsed.now }
{
    match parsed {
        Form::Policy(policy) => policy.is_bad(),
        _ => false,
    }
}

fn code_where(is_there: bool, code: Code) -> Option<Code>
    ensures { result ≡ code_if is_there code }
{
    if is_there { Some(code) } else { None }
}

/// The lowest code of a line of these words, of this form.
pub(crate) fn lowest_code<'a, A: Allocator + Copy>(
    draft: &Draft<'a, A>,
    is_last: bool,
    line: &[u8],
    words: &[&'a [u8]],
    parsed: &Form,
) -> Option<Code>
    ensures { result ≡ lowest_of (abstraction draft.now) (extended (abstraction draft.now) (map (λ word. word.now) words.now) parsed.now) is_last line.now (map (λ word. word.now) words.now) parsed.now }
{
    code_where(not_ascii(line), Code::NotAscii)
        .or(code_where(bad_word(parsed), Code::BadWord))
        .or(code_where(bad_name(words, parsed), Code::BadName))
        .or(code_where(draft.duplicate_name(words, parsed), Code::DuplicateName))
        .or(code_where(draft.wrong_place(parsed), Code::WrongPlace))
        .or(code_where(bad_number(words, parsed), Code::BadNumber))
        .or(code_where(draft.too_many(parsed), Code::TooMany))
        .or(code_where(draft.missing_end(is_last, words, parsed), Code::MissingEnd))
        .or(code_where(
            draft.missing_part(is_last, words, parsed),
            Code::MissingPart,
        ))
        .or(code_where(begin_kind_at_start(parsed), Code::BeginKindAtStart))
        .or(code_where(draft.heir_without_spawn(parsed), Code::HeirWithoutSpawn))
        .or(code_where(bad_policy_kind(parsed), Code::BadPolicyKind))
}
