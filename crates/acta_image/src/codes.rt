//! The codes of the choices of a model.

ghost use Rattle.std.specs.Prelude.{◌≡◌, ◌<◌, ◌^◌};
ghost use Rattle.acta_table.specs.Starts.{rank_of};
ghost use Rattle.acta_image.specs.Codes.{commit_code, extent_code, first_bits, object_code, policy_bits, policy_code, scope_code, starts_bits};

use acta_table::{AtCommit, Dependent, Extent, Kind, Policy, Scope, Starts};

/// The code of the end of an edge that depends: 0 for the starter, 1 for the started.
pub fn dependent_code(dependent: Dependent) -> u8
    ensures { result ≡ rank_of dependent }
{
    match dependent {
        Dependent::Starter => 0,
        Dependent::Started => 1,
    }
}

/// The code of an object's kind.
pub fn object_code(kind: Kind) -> u8
    ensures { result ≡ object_code kind }
{
    match kind {
        Kind::Register(_) => 0,
        Kind::Counter(_) => 1,
        Kind::Elements => 2,
    }
}

/// The bits of an object's first value, in two's complement; 0 for a set.
pub fn first_bits(kind: Kind) -> u32
    ensures { result ≡ first_bits kind }
{
    match kind {
        Kind::Register(first) => first.cast_unsigned(),
        Kind::Counter(first) => first.cast_unsigned(),
        Kind::Elements => 0,
    }
}

/// The bits of how transactions may start.
pub fn starts_bits(starts: Starts) -> u8
    ensures { result ≡ starts_bits starts }
{
    u8::from(starts.begin) + 2 * u8::from(starts.spawned) + 4 * u8::from(starts.split)
}

/// The code of a scope.
pub fn scope_code(scope: Scope) -> u8
    ensures { result ≡ scope_code scope }
{
    match scope {
        Scope::Others => 0,
        Scope::NonAncestors => 1,
    }
}

/// The code of a policy.
pub fn policy_code(policy: Policy) -> u8
    ensures { result ≡ policy_code policy }
{
    match policy {
        Policy::Refuse => 0,
        Policy::Depend(_) => 1,
    }
}

/// The bits of a policy's kinds; 0 if it refuses.
pub fn policy_bits(policy: Policy) -> u16
    ensures { result ≡ policy_bits policy }
{
    match policy {
        Policy::Refuse => 0,
        Policy::Depend(kinds) => kinds.bits(),
    }
}

/// The code of what a commit does.
pub fn commit_code(at_commit: AtCommit) -> u8
    ensures { result ≡ commit_code at_commit }
{
    match at_commit {
        AtCommit::Keeps => 0,
        AtCommit::ToParent => 1,
    }
}

/// The code of how much a delegation transfers.
pub fn extent_code(extent: Extent) -> u8
    ensures { result ≡ extent_code extent }
{
    match extent {
        Extent::Whole => 0,
        Extent::Any => 1,
    }
}
