//! The lines that report a faulty input or model.

ghost use Rattle.std.specs.Prelude.{◌≡◌, ◌++◌, ◌∷◌, [], decimal, flat_map, OnOk};
ghost use Rattle.acta_image.specs.Claims.{image_fault_number};
ghost use Rattle.acta_words.specs.Text.{line_of, text_of};
ghost use Rattle.acta_io.specs.Reports.{fault_number_words, fault_words, image_line, model_line, no_model_line, stop_line};

use crate::input::BadLine;
use crate::models::NoModel;
use acta_image::ImageFault;
use acta_lang::AsmFault;
use acta_words::{push_line, push_natural, push_word};
use std::alloc::{AllocError, Allocator};

/// Adds the line about a faulty line of the input.
pub fn push_stop<A: Allocator>(text: &mut Vec<u8, A>, stop: BadLine) -> Result<(), AllocError>
    ensures { OnOk result (text.new.items ≡ text.old.items ++ text_of (stop_line stop ∷ [])) }
{
    text.extend_from_slice(b"line")?;
    push_natural(text, stop.line as u64)?;
    push_word(text, b"fault")?;
    push_natural(text, u64::from(stop.fault.number()))?;
    push_line(text, b"")
}

// Adds the line about a faulty line of a model's text.
fn push_text_fault<A: Allocator>(text: &mut Vec<u8, A>, fault: AsmFault) -> Result<(), AllocError>
    ensures { OnOk result (text.new.items ≡ text.old.items ++ text_of (model_line fault ∷ [])) }
{
    text.extend_from_slice(b"model line")?;
    push_natural(text, fault.line as u64)?;
    push_word(text, b"fault")?;
    push_natural(text, u64::from(fault.code.number()))?;
    push_line(text, b"")
}

// Adds the number of an image's fault.
fn push_number<A: Allocator>(text: &mut Vec<u8, A>, fault: ImageFault) -> Result<(), AllocError>
    ensures { OnOk result (text.new.items ≡ text.old.items ++ line_of (fault_number_words (image_fault_number fault))) }
{
    text.extend_from_slice(b"image fault")?;
    push_natural(text, u64::from(fault.number()))
}

// Adds a word and a number, and ends the line.
fn push_pair<A: Allocator>(
    text: &mut Vec<u8, A>,
    word: &[u8],
    number: u64,
) -> Result<(), AllocError>
    ensures { OnOk result (text.new.items ≡ text.old.items ++ 32 ∷ (word.now ++ 32 ∷ (decimal number ++ 10 ∷ []))) }
{
    push_word(text, word)?;
    push_natural(text, number)?;
    push_line(text, b"")
}

// Adds the rest of the line, after the number of an image's fault.
fn push_rest<A: Allocator>(text: &mut Vec<u8, A>, fault: ImageFault) -> Result<(), AllocError>
    ensures { OnOk result (text.new.items ≡ text.old.items ++ (flat_map (λ word. 32 ∷ word) (fault_words fault) ++ 10 ∷ [])) }
{
    match fault {
        ImageFault::Magic | ImageFault::Version | ImageFault::Truncated => push_line(text, b""),
        ImageFault::BadField(offset) | ImageFault::Trailing(offset) => {
            push_pair(text, b"at", offset as u64)
        }
        ImageFault::Model(fault) => push_pair(text, b"model", u64::from(fault.number())),
    }
}

// Adds the line about an image's fault, with the offset of a field or the fault of a model.
fn push_image_fault<A: Allocator>(
    text: &mut Vec<u8, A>,
    fault: ImageFault,
) -> Result<(), AllocError>
    ensures { OnOk result (text.new.items ≡ text.old.items ++ text_of (image_line fault ∷ [])) }
{
    push_number(text, fault)?;
    push_rest(text, fault)?;
    Ok(())
}

/// Adds the line about bytes that are not a model.
pub fn push_no_model<A: Allocator>(text: &mut Vec<u8, A>, fault: NoModel) -> Result<(), AllocError>
    ensures { OnOk result (text.new.items ≡ text.old.items ++ text_of (no_model_line fault ∷ [])) }
{
    match fault {
        NoModel::Text(fault) => push_text_fault(text, fault),
        NoModel::Image(fault) => push_image_fault(text, fault),
    }
}
