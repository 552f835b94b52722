//! Writes the line of an object.

ghost use Rattle.std.specs.Prelude.{◌≡◌, ◌++◌, ◌∷◌, [], OnOk};
ghost use Rattle.acta_lang.specs.Canonical.{kind_words, object_words};
ghost use Rattle.acta_lang.specs.inside.Written.{spaced, written};

use crate::words::{COUNTER, OBJECT, REGISTER, SET};
use acta_table::{Kind, Object};
use acta_words::{push_integer, push_word};
use std::alloc::{AllocError, Allocator};

// The words after `object NAME`.
fn push_kind<A: Allocator>(text: &mut Vec<u8, A>, kind: Kind) -> Result<(), AllocError>
    ensures { OnOk result (text.new.items ≡ text.old.items ++ spaced (kind_words kind)) }
{
    match kind {
        Kind::Register(first) => {
            push_word(text, REGISTER.as_bytes())?;
            push_integer(text, i64::from(first))?;
        }
        Kind::Counter(first) => {
            push_word(text, COUNTER.as_bytes())?;
            push_integer(text, i64::from(first))?;
        }
        Kind::Elements => push_word(text, SET.as_bytes())?,
    }
    Ok(())
}

/// Appends the line of the object to the text.
pub(crate) fn push_object<A: Allocator>(
    text: &mut Vec<u8, A>,
    object: &Object<A>,
) -> Result<(), AllocError>
    ensures { OnOk result (text.new.items ≡ text.old.items ++ written (object_words object.now ∷ [])) }
{
    text.extend_from_slice(OBJECT.as_bytes())?;
    push_word(text, object.name.as_slice())?;
    push_kind(text, object.kind)?;
    text.push(b'\n')?;
    Ok(())
}
