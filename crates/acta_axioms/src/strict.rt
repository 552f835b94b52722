ghost use Rattle.std.specs.Prelude.{◌≡◌};
ghost use Rattle.acta_axioms.specs.Serial.{is_strict_class, is_strict};

use acta_table::{Class, EventKind, Model, Scope};
use std::alloc::Allocator;

// Whether the class cannot be spawned or split off, exempts no ancestors, refuses conflicting operations, and may not
// spawn, split, join, delegate or permit.
fn is_strict_class<A: Allocator>(class: &Class<A>) -> bool
    ensures { result ≡ is_strict_class class.now }
{
    !class.starts.spawned
        && !class.starts.split
        && matches!(class.scope, Scope::Others)
        && class.policy.refuses()
        && !class.may.has(EventKind::Spawn)
        && !class.may.has(EventKind::Split)
        && !class.may.has(EventKind::Join)
        && !class.may.has(EventKind::Delegate)
        && !class.may.has(EventKind::Permit)
}

/// Whether the model is strict: no class can be spawned or split off; each exempts no ancestors, refuses conflicting
/// operations, and may not spawn, split, join, delegate or permit.
pub fn is_strict<A: Allocator>(model: &Model<A>) -> bool
    ensures { result ≡ is_strict model.now }
{
    model.classes().iter().all(|class| is_strict_class(class))
}
