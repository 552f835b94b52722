//! Describes a faulty image: the field at fault, and what it may have.

use acta_image::{Field, ImageDiagnostic, ImageFault, diagnose};
use acta_machine::Handle;
use acta_prose::{Prose, put};

// What each field is, and what it may have.
#[rattlefmt::skip]
const FIELDS: [(Field, &str, &str); 22] = [
    (Field::Magic, "the magic", "the four bytes `ACTA`"),
    (Field::Version, "the version", "1 or 2"),
    (Field::Classes, "the number of classes", "1 to 16, in one byte"),
    (Field::Objects, "the number of objects", "0 to 256, in two bytes"),
    (Field::ObjectNameLength, "the length of an object's name", NAME_LENGTH),
    (Field::ObjectName, "an object's name", NAME),
    (Field::ObjectKind, "an object's kind", "0 a register, 1 a counter, 2 a set"),
    (Field::FirstValue, "an object's first value", "any four bytes; 0 for a set"),
    (Field::ClassNameLength, "the length of a class's name", NAME_LENGTH),
    (Field::ClassName, "a class's name", NAME),
    (Field::Starts, "how a class's transactions start", STARTS),
    (Field::May, "what a class's transactions may do", MAY),
    (Field::Scope, "a class's scope", "0 others, 1 all but ancestors"),
    (Field::Policy, "a class's policy", "0 refuse, 1 depend"),
    (Field::PolicyKinds, "the kinds by which a class depends", KINDS),
    (Field::Commit, "what a commit does", "0 keeps, 1 to the parent"),
    (Field::Delegation, "how much a delegation hands over", "0 the whole, 1 any part"),
    (Field::SpawnEdges, "the number of edges that a spawn forms", "0 to 24, in one byte"),
    (Field::SpawnEdge, "an edge that a spawn forms", EDGE),
    (Field::SplitEdges, "the number of edges that a split forms", "0 to 24, in one byte"),
    (Field::SplitEdge, "an edge that a split forms", EDGE),
    (Field::End, "after the last field", "nothing"),
];

const NAME_LENGTH: &str = "1 to 32, in one byte";

const NAME: &str = "a letter first, then letters, digits or underscores";

const STARTS: &str = "1 by a begin, 2 spawned, 4 split off, added up";

const MAY: &str =
    "1 spawn, 2 split, 4 join, 8 delegate, 16 form, 32 operate, 64 commit, 128 abort, and in version 2 256 permit, added up, in two bytes";

const KINDS: &str =
    "0 for a class that refuses; otherwise 2 to the power of each kind's code, added up, at most 4,095, in two bytes";

const EDGE: &str =
    "two bytes: the code of a kind, 0 to 11, then 0 if the starter depends or 1 if the started does; edges ascend by code, and of one code the starter's comes first";

// What the field is, and what it may have.
fn field_words(field: Field) -> (&'static str, &'static str) {
    for (known, what, holds) in FIELDS {
        if known == field {
            return (what, holds);
        }
    }
    ("", "")
}

// Adds the field at fault: its offset, what it is and what it may have; and the size of the image, if it ends too early.
fn put_diagnostic<A: Handle>(prose: Prose<A>, bytes: &[u8], found: ImageDiagnostic) -> Prose<A> {
    if let ImageFault::Model(fault) = found.fault {
        return put!(prose; ": all fields are valid, but the model has a fault\n", fault.name(),
            ": ", fault.sentence());
    }
    let (what, holds) = field_words(found.field);
    let prose = put!(prose; ", at offset ", found.offset, ": ", what, "\nexpected ", holds);
    match found.fault {
        ImageFault::Truncated => {
            put!(prose;
                "\nthe image ends inside or before this field, after ", bytes.len(), " bytes")
        }
        ImageFault::Trailing(_) => {
            put!(prose; "; bytes left over: ", bytes.len().saturating_sub(found.offset))
        }
        _ => prose,
    }
}

/// Adds the description of the image's fault.
pub fn put_image_fault<A: Handle>(prose: Prose<A>, alloc: A, bytes: &[u8]) -> Prose<A> {
    match diagnose(alloc, bytes) {
        Ok(Some(found)) => put_diagnostic(prose, bytes, found),
        Ok(None) => prose,
        Err(_) => prose.fail(),
    }
}
