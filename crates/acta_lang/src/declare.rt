//! Reads line after line, up to the first faulty one.

ghost use Rattle.std.specs.Prelude.{◌≡◌, false, None, Ok, IfOk, IfErr, option_map};
ghost use Rattle.acta_lang.specs.Diagnostics.{reported};
ghost use Rattle.acta_lang.specs.Forms.{form_of};
ghost use Rattle.acta_words.specs.Text.{words_of};
ghost use Rattle.acta_lang.specs.inside.Noted.{diagnosis, noted, noted_by};
ghost use Rattle.acta_lang.specs.Drafts.{extended_by, parts_of};
ghost use Rattle.acta_lang.specs.Faults.{code_at};
ghost use Rattle.acta_lang.specs.Meaning.{meaning};
ghost use Rattle.acta_lang.specs.inside.Read.{IsWhyRead};
ghost use Rattle.acta_lang.specs.inside.Abstraction.{is_current_taken, abstraction};

use crate::codes::lowest_code;
use crate::diagnostic::{ReadError, TextDiagnostic};
use crate::draft::Draft;
use crate::line_forms::form_of;
use crate::places::place_of;
use acta_words::{Lines, words_of};
use std::alloc::{AllocError, Allocator};

// Adds what the line of this number declares, or returns its fault.
fn read_line<'a, A: Allocator + Copy>(
    draft: &mut Draft<'a, A>,
    alloc: A,
    number: usize,
    is_last: bool,
    line: &'a [u8],
) -> Result<Option<TextDiagnostic<'a>>, AllocError>
    requires { is_current_taken (abstraction draft.old) ≡ false }
    ensures code { IfOk result (λ found. option_map reported found ≡ option_map (diagnosis (abstraction draft.old) (noted draft.old) number line.now) (code_at (abstraction draft.old) is_last line.now)) }
    ensures added { result ≡ Ok None → abstraction draft.new ≡ extended_by (abstraction draft.old) line.now }
    ensures noted { result ≡ Ok None → noted draft.new ≡ noted_by number (words_of line.now) (form_of (words_of line.now)) (noted draft.old) }
{
    let words = words_of(alloc, line)?;
    let parsed = form_of(&words);
    match lowest_code(draft, is_last, line, &words, &parsed) {
        Some(code) => {
            let (place, expected) = place_of(draft, line, &words, &parsed, code);
            Ok(Some(TextDiagnostic {
                line: number,
                code,
                place,
                expected,
                earlier: draft.earlier(&words, &parsed, code),
                class: draft.class_at(number, &words, &parsed, code),
            }))
        }
        None => {
            draft.extend(alloc, number, &words, &parsed)?;
            Ok(None)
        }
    }
}

/// What a text declares, or its first fault. `Memory` if memory runs out.
pub(crate) fn declare_all<'a, A: Allocator + Copy>(
    alloc: A,
    text: &'a [u8],
) -> Result<Draft<'a, A>, ReadError<'a>>
    ensures ok { IfOk result (λ all. meaning text.now ≡ Ok (parts_of (abstraction all))) }
    ensures fault { IfErr result (IsWhyRead A text.now) }
{
    let mut draft = Draft::nothing(alloc);
    let mut lines = Lines::of(text);
    let mut number = 0usize;
    while let Some(line) = lines.next() {
        number += 1;
        if let Some(found) = read_line(&mut draft, alloc, number, lines.is_over(), line)? {
            return Err(ReadError::Fault(found));
        }
    }
    Ok(draft)
}
