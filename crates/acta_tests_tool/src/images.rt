//! Damaged images of the standard models, in either version: each proper prefix, and each byte set to each other value.
//! An image in version 1 differs from that in version 2 by the number of the version alone.

use crate::expecting::{expect_text, made};
use acta_image::{ImageFault, LoadError, load, upgrade, write_image};
use acta_lang::assemble;
use acta_models::Standard;
use acta_table::{EventKind, Model};
use acta_tool::{images_are_upgraded, images_run_as_their_texts};
use std::alloc::Global;
use std::process::Abort;

/// Returns the image of a standard model, in version 2.
pub fn image_of(rt: &impl Abort, alloc: Global, name: Standard) -> Vec<u8> {
    let text = name.text().as_bytes();
    let model = assemble(alloc, text).expect(rt, "a model");
    images_run_as_their_texts(text, &model);
    images_are_upgraded(&model);
    let image = made(rt, write_image(alloc, &model), "an image");
    drop(model);
    image
}

// Sets the version of an image.
fn set_version(rt: &impl Abort, image: &mut [u8], number: u8) {
    *image.get_mut(4).expect(rt, "a version") = number;
}

// Whether a class of the model may permit.
fn may_permit(model: &Model<Global>) -> bool {
    let mut may = false;
    for class in model.classes() {
        may = may || class.may.has(EventKind::Permit);
    }
    may
}

// Whether the bytes are the image of the model in the version that they name. Version 1 has no image of a model with a
// class that may permit.
fn is_image_of(rt: &impl Abort, alloc: Global, model: &Model<Global>, bytes: &[u8]) -> bool {
    let number = *bytes.get(4).expect(rt, "a version");
    let mut image = made(rt, write_image(alloc, model), "an image");
    set_version(rt, image.as_mut_slice(), number);
    let has_image = number == 2 || number == 1 && !may_permit(model);
    has_image && image.as_slice() == bytes
}

// Whether `load` refuses the bytes, or they are the image of the model that it returns.
fn is_refused_or_image(rt: &impl Abort, alloc: Global, bytes: &[u8]) -> bool {
    match load(alloc, bytes) {
        Ok(model) => {
            let is_image = is_image_of(rt, alloc, &model, bytes);
            drop(model);
            is_image
        }
        Err(LoadError::Fault(_)) => true,
        Err(LoadError::Memory) => rt.panic("memory ran out"),
    }
}

// Whether `load` answers that the bytes end too early.
fn is_truncated(alloc: Global, bytes: &[u8]) -> bool {
    matches!(
        load(alloc, bytes),
        Err(LoadError::Fault(ImageFault::Truncated))
    )
}

// Asserts that the condition holds for the image with this byte changed or left out.
fn holds_at(rt: &impl Abort, is_so: bool, place: usize) {
    assert!(rt; is_so, "at {place}");
}

// Sets the byte to each other value, and back.
fn change_byte(rt: &impl Abort, alloc: Global, image: &mut [u8], place: usize) {
    for _ in 0..256 {
        let byte = image.get_mut(place).expect(rt, "a place of an image");
        *byte = byte.wrapping_add(1);
        holds_at(rt, is_refused_or_image(rt, alloc, image), place);
    }
}

fn damage(rt: &impl Abort, alloc: Global, image: &mut [u8]) {
    for place in 0..image.len() {
        holds_at(rt, is_truncated(alloc, &image[..place]), place);
        change_byte(rt, alloc, image, place);
    }
}

#[test]
fn prefixes_and_bytes(rt: HostRuntime) {
    for name in Standard::ALL {
        let mut image = image_of(&rt, rt.alloc(), name);
        damage(&rt, rt.alloc(), image.as_mut_slice());
        set_version(&rt, image.as_mut_slice(), 1);
        damage(&rt, rt.alloc(), image.as_mut_slice());
    }
}

// Asserts that the image is upgraded to the one in version 2.
fn upgrades(rt: &impl Abort, alloc: Global, image: &[u8], due: &[u8]) {
    let found = made(rt, upgrade(alloc, image), "an image");
    expect_text(rt, found.as_slice(), due, "an image");
}

// Upgrades an image in version 2, and the same in version 1.
fn upgrade_both(rt: &impl Abort, alloc: Global, due: &[u8]) {
    upgrades(rt, alloc, due, due);
    let mut image = made(rt, Vec::from_slice(alloc, due), "an image");
    set_version(rt, image.as_mut_slice(), 1);
    upgrades(rt, alloc, image.as_slice(), due);
}

#[test]
fn upgraded(rt: HostRuntime) {
    for name in Standard::ALL {
        let image = image_of(&rt, rt.alloc(), name);
        upgrade_both(&rt, rt.alloc(), image.as_slice());
    }
}
