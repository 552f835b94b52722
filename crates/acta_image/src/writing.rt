//! From a model to its image.

ghost use Rattle.std.specs.Prelude.{◌≡◌, ◌++◌, ◌∷◌, ◌≤◌, length, Ok, IfOk, OnOk};
ghost use Rattle.std.specs.List.{All, flat_map};
ghost use Rattle.acta_table.specs.declared.limits.TheConstants.{MOST_CLASSES, MOST_OBJECTS};
ghost use Rattle.acta_image.specs.Reading.{loaded};
ghost use Rattle.acta_image.specs.declared.version.ImageVersion.TheVariants.{Two};
ghost use Rattle.acta_image.specs.Spelling.{choices, class_bytes, head, image, object_bytes, row_bytes, rows_bytes};

use crate::codes::{
    commit_code, dependent_code, extent_code, first_bits, object_code, policy_bits, policy_code,
    scope_code, starts_bits,
};
use crate::version::ImageVersion;
use acta_table::{Class, LONGEST_NAME, Model, Object, StartEdge, StartEdges};
use std::alloc::{AllocError, Allocator};

// Appends the length of a name, and the name.
fn push_name<A: Allocator>(image: &mut Vec<u8, A>, name: &[u8]) -> Result<(), AllocError>
    requires { length name.now ≤ LONGEST_NAME }
    ensures { OnOk result (image.new.items ≡ image.old.items ++ (length name.now ∷ name.now)) }
{
    image.push(name.len() as u8)?;
    image.extend_from_slice(name)
}

// Appends an object.
fn push_object<A: Allocator>(image: &mut Vec<u8, A>, object: &Object<A>) -> Result<(), AllocError>
    requires { length object.now.name ≤ LONGEST_NAME }
    ensures { OnOk result (image.new.items ≡ image.old.items ++ object_bytes object.now) }
{
    push_name(image, object.name.as_slice())?;
    image.push(object_code(object.kind))?;
    image.extend_from_slice(&first_bits(object.kind).to_be_bytes())
}

fn push_objects<A: Allocator>(
    image: &mut Vec<u8, A>,
    objects: &[Object<A>],
) -> Result<(), AllocError>
    requires { All (λ object. length object.name ≤ LONGEST_NAME) objects.now }
    ensures { OnOk result (image.new.items ≡ image.old.items ++ flat_map object_bytes objects.now) }
{
    for object in objects {
        push_object(image, object)?;
    }
    Ok(())
}

// Appends a row for each of the start edges.
fn push_rows<A: Allocator>(image: &mut Vec<u8, A>, edges: &[StartEdge]) -> Result<(), AllocError>
    ensures { OnOk result (image.new.items ≡ image.old.items ++ flat_map row_bytes edges.now) }
{
    for edge in edges {
        image.extend_from_slice(&[edge.kind.code(), dependent_code(edge.dependent)])?;
    }
    Ok(())
}

// Appends the number of start edges, and their rows.
fn push_edges<A: Allocator>(image: &mut Vec<u8, A>, edges: &StartEdges<A>) -> Result<(), AllocError>
    ensures { OnOk result (image.new.items ≡ image.old.items ++ rows_bytes edges.now) }
{
    let edges = edges.as_slice();
    image.push(edges.len() as u8)?;
    push_rows(image, edges)
}

// Appends the fields of fixed length of a class.
fn push_choices<A: Allocator>(image: &mut Vec<u8, A>, class: &Class<A>) -> Result<(), AllocError>
    ensures { OnOk result (image.new.items ≡ image.old.items ++ choices class.now) }
{
    let [may_high, may_low] = class.may.bits().to_be_bytes();
    let [kinds_high, kinds_low] = policy_bits(class.policy).to_be_bytes();
    image.extend_from_slice(&[
        starts_bits(class.starts),
        may_high,
        may_low,
        scope_code(class.scope),
        policy_code(class.policy),
        kinds_high,
        kinds_low,
        commit_code(class.at_commit),
        extent_code(class.extent),
    ])
}

// Appends a class.
fn push_class<A: Allocator>(image: &mut Vec<u8, A>, class: &Class<A>) -> Result<(), AllocError>
    requires { length class.now.name ≤ LONGEST_NAME }
    ensures { OnOk result (image.new.items ≡ image.old.items ++ class_bytes class.now) }
{
    push_name(image, class.name.as_slice())?;
    push_choices(image, class)?;
    push_edges(image, &class.spawn_edges)?;
    push_edges(image, &class.split_edges)
}

fn push_classes<A: Allocator>(
    image: &mut Vec<u8, A>,
    classes: &[Class<A>],
) -> Result<(), AllocError>
    requires { All (λ class. length class.name ≤ LONGEST_NAME) classes.now }
    ensures { OnOk result (image.new.items ≡ image.old.items ++ flat_map class_bytes classes.now) }
{
    for class in classes {
        push_class(image, class)?;
    }
    Ok(())
}

// Appends the magic, the version that is written, and the numbers of classes and of objects.
fn push_head<A: Allocator>(
    image: &mut Vec<u8, A>,
    classes: u8,
    objects: u16,
) -> Result<(), AllocError>
    ensures { OnOk result (image.new.items ≡ image.old.items ++ head Two classes objects) }
{
    let [high, low] = objects.to_be_bytes();
    let version = ImageVersion::Two.number();
    image.extend_from_slice(&[b'A', b'C', b'T', b'A', version, classes, high, low])
}

// Appends the image of a model whose names and parts fit the length fields.
#[tactic(auto, unfolding(crate::specs::Spelling::image_in))]
fn push_model<A: Allocator>(bytes: &mut Vec<u8, A>, model: &Model<A>) -> Result<(), AllocError>
    requires objects { All (λ object. length object.name ≤ LONGEST_NAME) model.now.objects }
    requires classes { All (λ class. length class.name ≤ LONGEST_NAME) model.now.classes }
    requires few { (length model.now.classes ≤ MOST_CLASSES) × (length model.now.objects ≤ MOST_OBJECTS) }
    ensures { OnOk result (bytes.new.items ≡ bytes.old.items ++ image model.now) }
{
    let (classes, objects) = (model.classes(), model.objects());
    push_head(bytes, classes.len() as u8, objects.len() as u16)?;
    push_objects(bytes, objects)?;
    push_classes(bytes, classes)
}

// The image of a model loads as that model, and its names and parts fit the length fields.
fn lemma_invariant<A: Allocator>(model: &Model<A>)
    ensures again { loaded (image model.now) ≡ Ok model.now }
    ensures objects { All (λ object. length object.name ≤ LONGEST_NAME) model.now.objects }
    ensures classes { All (λ class. length class.name ≤ LONGEST_NAME) model.now.classes }
    ensures few { (length model.now.classes ≤ MOST_CLASSES) × (length model.now.objects ≤ MOST_OBJECTS) }
{
    model.lemma_invariant();
}

/// The image of the model in version 2: the only bytes of that version that `load` reads as this model.
pub fn write_image<A: Allocator + Copy>(
    alloc: A,
    model: &Model<A>,
) -> Result<Vec<u8, A>, AllocError>
    ensures image { IfOk result (λ bytes. bytes.items ≡ image model.now) }
    ensures again { loaded (image model.now) ≡ Ok model.now }
{
    lemma_invariant(model);
    let mut bytes = Vec::new(alloc);
    push_model(&mut bytes, model)?;
    Ok(bytes)
}
