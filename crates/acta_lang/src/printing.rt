//! From a model to its canonical text.

ghost use Rattle.std.specs.Prelude.{◌≡◌, ◌++◌, map, Ok, IfOk, OnOk};
ghost use Rattle.std.specs.List.{flat_map};
ghost use Rattle.acta_lang.specs.Canonical.{canonical, class_words, object_words};
ghost use Rattle.acta_lang.specs.Meaning.{meaning};
ghost use Rattle.acta_lang.specs.inside.Written.{written};

use crate::class_lines::push_class;
use crate::object_lines::push_object;
use acta_table::{Class, Model, Object};
use std::alloc::{AllocError, Allocator};

fn push_objects<A: Allocator>(
    text: &mut Vec<u8, A>,
    objects: &[Object<A>],
) -> Result<(), AllocError>
    ensures { OnOk result (text.new.items ≡ text.old.items ++ written (map object_words objects.now)) }
{
    for object in objects {
        push_object(text, object)?;
    }
    Ok(())
}

fn push_classes<A: Allocator>(text: &mut Vec<u8, A>, classes: &[Class<A>]) -> Result<(), AllocError>
    ensures { OnOk result (text.new.items ≡ text.old.items ++ written (flat_map class_words classes.now)) }
{
    for class in classes {
        push_class(text, class)?;
    }
    Ok(())
}

// The canonical text of a model parses to that model.
fn means_again<A: Allocator>(model: &Model<A>)
    ensures { meaning (canonical model.now) ≡ Ok model.now }
{
    model.lemma_invariant();
}

/// The canonical text of the model: its objects, then its classes, in order, with one space between words and a line feed
/// after each line. It parses to the same model.
pub fn print_model<A: Allocator + Copy>(
    alloc: A,
    model: &Model<A>,
) -> Result<Vec<u8, A>, AllocError>
    ensures text { IfOk result (λ text. text.items ≡ canonical model.now) }
    ensures again { meaning (canonical model.now) ≡ Ok model.now }
{
    means_again(model);
    let mut text = Vec::new(alloc);
    push_objects(&mut text, model.objects())?;
    push_classes(&mut text, model.classes())?;
    Ok(text)
}
