ghost use Rattle.std.specs.Prelude.{◌≡◌, ◌||◌, bit_or, ◌<◌, ◌^◌, ◌↔◌, false, IfSome, IsSome};
ghost use Rattle.acta_table.specs.declared.dep.Dep.{Dep};
ghost use Rattle.acta_table.specs.Dependencies.{code_of, word_of, is_begin_kind, has_dep, only_dep};
ghost use Rattle.acta_table.specs.Edges.{same_edge, is_among};

use crate::event::TxnId;
use bitflags::{Flag, Flags};

/// The kinds of dependency, by code from 0. A transaction t_j depends on a t_i.
#[derive(Clone, Copy, PartialEq, Eq, PartialOrd, Ord, Hash, Debug)]
pub enum Dep {
    /// Commit: if both commit, t_i commits first.
    Cd,
    /// Strong-commit: if t_i commits, t_j commits.
    Scd,
    /// Abort: if t_i aborts, t_j aborts.
    Ad,
    /// Weak-abort: if t_i aborts and t_j has not committed, t_j aborts.
    Wd,
    /// Termination: t_j does not commit or abort before t_i has committed or aborted.
    Td,
    /// Exclusion: if t_i commits and t_j has begun, t_j aborts.
    Ed,
    /// Force-commit-on-abort: if t_i aborts, t_j commits.
    Cmd,
    /// Begin: t_j does not begin before t_i has.
    Bd,
    /// Serial: t_j does not begin before t_i has committed or aborted.
    Sd,
    /// Begin-on-commit: t_j does not begin before t_i has committed.
    Bcd,
    /// Begin-on-abort: t_j does not begin before t_i has aborted.
    Bad,
    /// Weak-begin-on-commit: if t_i commits, t_j does not begin before that.
    Wcd,
}

/// The short names of the kinds, by code.
pub const DEP_WORDS: [&str; 12] = [
    "CD", "SCD", "AD", "WD", "TD", "ED", "CMD", "BD", "SD", "BCD", "BAD", "WCD",
];

impl Dep {
    /// All kinds, by code.
    pub const ALL: [Dep; 12] = [
        Dep::Cd,
        Dep::Scd,
        Dep::Ad,
        Dep::Wd,
        Dep::Td,
        Dep::Ed,
        Dep::Cmd,
        Dep::Bd,
        Dep::Sd,
        Dep::Bcd,
        Dep::Bad,
        Dep::Wcd,
    ];

    /// The code of the kind, from 0 to 11.
    pub fn code(self) -> u8
        ensures { result ≡ code_of self }
    {
        match self {
            Dep::Cd => 0,
            Dep::Scd => 1,
            Dep::Ad => 2,
            Dep::Wd => 3,
            Dep::Td => 4,
            Dep::Ed => 5,
            Dep::Cmd => 6,
            Dep::Bd => 7,
            Dep::Sd => 8,
            Dep::Bcd => 9,
            Dep::Bad => 10,
            Dep::Wcd => 11,
        }
    }

    /// The short name of the kind, two or three capital letters.
    pub fn word(self) -> &'static str
        ensures { result.now ≡ word_of self }
    {
        DEP_WORDS[self.code() as usize]
    }

    /// Whether the kind limits when the dependent transaction may begin.
    pub fn is_begin_kind(self) -> bool
        ensures { result ≡ is_begin_kind self }
    {
        matches!(self, Dep::Bd | Dep::Sd | Dep::Bcd | Dep::Bad | Dep::Wcd)
    }
}

// The bits of a set of kinds. A value of `DepKinds` has no other bit.
#[derive(Clone, Copy, PartialEq, Eq, Debug)]
struct DepBits(u16);

impl DepBits {
    const CD: DepBits = DepBits(1);

    const SCD: DepBits = DepBits(2);

    const AD: DepBits = DepBits(4);

    const WD: DepBits = DepBits(8);

    const TD: DepBits = DepBits(16);

    const ED: DepBits = DepBits(32);

    const CMD: DepBits = DepBits(64);

    const BD: DepBits = DepBits(128);

    const SD: DepBits = DepBits(256);

    const BCD: DepBits = DepBits(512);

    const BAD: DepBits = DepBits(1024);

    const WCD: DepBits = DepBits(2048);

    #[rattlefmt::skip]
    const FLAGS: &'static [Flag<DepBits>] = &[
        Flag { name: "CD", value: DepBits::CD },
        Flag { name: "SCD", value: DepBits::SCD },
        Flag { name: "AD", value: DepBits::AD },
        Flag { name: "WD", value: DepBits::WD },
        Flag { name: "TD", value: DepBits::TD },
        Flag { name: "ED", value: DepBits::ED },
        Flag { name: "CMD", value: DepBits::CMD },
        Flag { name: "BD", value: DepBits::BD },
        Flag { name: "SD", value: DepBits::SD },
        Flag { name: "BCD", value: DepBits::BCD },
        Flag { name: "BAD", value: DepBits::BAD },
        Flag { name: "WCD", value: DepBits::WCD },
    ];
}

impl Flags for DepBits {
    ghost use Rattle.std.specs.Prelude.{⊤, ◌∷◌, [], codes};

    type Bits = u16;

    ghost exact = { ⊤ };

    ghost table = { (codes "CD", 1) ∷ (codes "SCD", 2) ∷ (codes "AD", 4) ∷ (codes "WD", 8) ∷ (codes "TD", 16) ∷ (codes "ED", 32) ∷ (codes "CMD", 64) ∷ (codes "BD", 128) ∷ (codes "SD", 256) ∷ (codes "BCD", 512) ∷ (codes "BAD", 1024) ∷ (codes "WCD", 2048) ∷ [] };

    ghost set_of = { λ kinds. kinds.0 };

    fn flags<'a>() -> &'a [Flag<DepBits>] {
        DepBits::FLAGS
    }

    fn bits(&self) -> u16 {
        self.0
    }

    fn from_bits_retain(bits: u16) -> DepBits {
        DepBits(bits)
    }
}

// The bit of a kind.
fn bit_of(kind: Dep) -> DepBits
    ensures { result.0 ≡ 2 ^ code_of kind }
{
    match kind {
        Dep::Cd => DepBits::CD,
        Dep::Scd => DepBits::SCD,
        Dep::Ad => DepBits::AD,
        Dep::Wd => DepBits::WD,
        Dep::Td => DepBits::TD,
        Dep::Ed => DepBits::ED,
        Dep::Cmd => DepBits::CMD,
        Dep::Bd => DepBits::BD,
        Dep::Sd => DepBits::SD,
        Dep::Bcd => DepBits::BCD,
        Dep::Bad => DepBits::BAD,
        Dep::Wcd => DepBits::WCD,
    }
}

/// A set of kinds of dependency. In contracts it is a bit mask: the kind with code c has bit c, from `Cd` the lowest to
/// `Wcd` the twelfth.
#[derive(Clone, Copy, PartialEq, Eq, Debug)]
pub struct DepKinds {
    bits: DepBits,
}

impl std::marker::Model for DepKinds {
    ghost use Rattle.std.specs.Prelude.{ℕ, ◌<◌, ◌^◌};

    ghost Value = { ℕ };

    ghost view = { λ kinds. kinds.bits.0 };

    ghost invariant = { λ kinds. kinds.bits.0 < 2 ^ 12 };

    ghost inverse = { λ bits. record { bits = record { 0 = bits } } };
}

impl DepKinds {
    /// The empty set.
    pub fn none() -> DepKinds
        ensures empty { (kind : Dep) → has_dep result kind ≡ false }
        ensures bits { result ≡ 0 }
    {
        DepKinds {
            bits: DepBits::empty(),
        }
    }

    /// The set of this kind alone.
    pub fn of(kind: Dep) -> DepKinds
        ensures { result ≡ only_dep kind }
    {
        DepKinds { bits: bit_of(kind) }
    }

    /// The union of the two sets.
    pub fn union(self, other: DepKinds) -> DepKinds
        ensures either { (kind : Dep) → has_dep result kind ≡ (has_dep self kind || has_dep other kind) }
        ensures bits { result ≡ bit_or self other }
    {
        DepKinds {
            bits: self.bits.union(other.bits),
        }
    }

    /// Whether the kind is in the set.
    pub fn has(self, kind: Dep) -> bool
        ensures { result ≡ has_dep self kind }
    {
        self.bits.contains(bit_of(kind))
    }

    // States the type's invariant: no other bit is set.
    pub(crate) fn lemma_invariant(self)
        ensures { self < 2 ^ 12 }
    {}

    /// The bit mask of the set, below 4,096.
    pub fn bits(self) -> u16
        ensures bits { result ≡ self }
        ensures known { result < 2 ^ 12 }
    {
        self.bits.bits()
    }

    /// The set with this bit mask, or `None` if a bit is set that belongs to no kind.
    pub fn from_bits(bits: u16) -> Option<DepKinds>
        ensures known { IsSome result ↔ (bits < 2 ^ 12) }
        ensures same { IfSome result (λ kinds. kinds ≡ bits) }
    {
        if bits < 4096 {
            Some(DepKinds {
                bits: DepBits(bits),
            })
        } else {
            None
        }
    }
}

/// An edge: the transaction `j` depends on the transaction `i`.
#[derive(Clone, Copy, PartialEq, Eq, Hash, Debug)]
pub struct Edge {
    pub kind: Dep,
    pub j: TxnId,
    pub i: TxnId,
}

impl Edge {
    /// Whether the two edges are equal: same kind, same transactions.
    pub fn is_same(&self, other: &Edge) -> bool
        ensures { result ≡ same_edge self.now other.now }
    {
        self.kind.code() == other.kind.code() && self.j.0 == other.j.0 && self.i.0 == other.i.0
    }

    /// Whether the edge is in the list.
    pub fn is_among(&self, edges: &[Edge]) -> bool
        ensures { result ≡ is_among edges.now self.now }
    {
        edges.iter().any(|edge| self.is_same(edge))
    }
}

/// The number of an edge among those in force, from 1 in order of forming.
#[derive(Clone, Copy, PartialEq, Eq, Hash, Debug)]
pub struct EdgeNo(pub u64);

/// The event that would settle a debt.
#[derive(Clone, Copy, PartialEq, Eq, Hash, Debug)]
pub enum Missing {
    Commit,
    Abort,
}

/// A debt: because of the edge with this number, the transaction must still do an event.
#[derive(Clone, Copy, PartialEq, Eq, Hash, Debug)]
pub struct Owed {
    pub edge: EdgeNo,
    pub txn: TxnId,
    pub missing: Missing,
}
