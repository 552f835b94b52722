//! The names of classes and objects, and the short names of the kinds of dependency.

ghost use Rattle.std.specs.Prelude.{◌≡◌, ◌<◌, length, find, IfOk, IfSome};
ghost use Rattle.std.specs.List.{position_from};
ghost use Rattle.std.specs.Str.{bytes_eq};
ghost use Rattle.acta_table.specs.Dependencies.{all_kinds, word_of};
ghost use Rattle.acta_script.specs.Reading.{parse_class, parse_object, parse_kind};
ghost use Rattle.acta_script.specs.Writing.{class_word, object_word};

use crate::fault::LineFault;
use acta_table::{Class, ClassId, Dep, Model, ObjId, Object};
use std::alloc::Allocator;

// The position of the first class with this name.
fn class_place<A: Allocator>(classes: &[Class<A>], word: &[u8]) -> Option<usize>
    ensures first { result ≡ position_from (λ class. bytes_eq word.now class.name) 0 classes.now }
    ensures within { IfSome result (λ place. place < length classes.now) }
{
    classes
        .iter()
        .position(|class| word == class.name.as_slice())
}

// The position of the first object with this name.
fn object_place<A: Allocator>(objects: &[Object<A>], word: &[u8]) -> Option<usize>
    ensures first { result ≡ position_from (λ object. bytes_eq word.now object.name) 0 objects.now }
    ensures within { IfSome result (λ place. place < length objects.now) }
{
    objects
        .iter()
        .position(|object| word == object.name.as_slice())
}

/// The class of the model with this name.
pub(crate) fn parse_class<A: Allocator>(model: &Model<A>, word: &[u8]) -> Result<ClassId, LineFault>
    ensures parsed { result ≡ parse_class model.now word.now }
    ensures within { IfOk result (λ class. class.0 < length model.now.classes) }
{
    let place = class_place(model.classes(), word).ok_or(LineFault::Name)?;
    Ok(ClassId(place as u8))
}

/// The object of the model with this name.
pub(crate) fn parse_object<A: Allocator>(model: &Model<A>, word: &[u8]) -> Result<ObjId, LineFault>
    ensures parsed { result ≡ parse_object model.now word.now }
    ensures within { IfOk result (λ object. object.0 < length model.now.objects) }
{
    let place = object_place(model.objects(), word).ok_or(LineFault::Name)?;
    Ok(ObjId(place as u16))
}

// The first kind of dependency with this short name.
fn kind_named(word: &[u8]) -> Option<Dep>
    ensures { result ≡ find (λ kind. bytes_eq word.now (word_of kind)) all_kinds }
{
    Dep::ALL
        .iter()
        .copied()
        .find(|kind| word == kind.word().as_bytes())
}

/// The kind of dependency with this short name.
pub(crate) fn parse_kind(word: &[u8]) -> Result<Dep, LineFault>
    ensures { result ≡ parse_kind word.now }
{
    kind_named(word).ok_or(LineFault::Word)
}

/// The name of the class; empty if the class is not in the model.
pub(crate) fn class_name<A: Allocator>(model: &Model<A>, class: ClassId) -> &[u8]
    ensures { result.now ≡ class_word model.now class }
{
    match model.class(class) {
        Some(found) => found.name.as_slice(),
        None => b"",
    }
}

/// The name of the object; empty if the object is not in the model.
pub fn object_name<A: Allocator>(model: &Model<A>, object: ObjId) -> &[u8]
    ensures { result.now ≡ object_word model.now object }
{
    match model.objects().get(usize::from(object.0)) {
        Some(found) => found.name.as_slice(),
        None => b"",
    }
}
