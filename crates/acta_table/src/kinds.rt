ghost use Rattle.std.specs.Prelude.{◌≡◌, ◌||◌, bit_or, ◌<◌, ◌^◌, ◌↔◌, false, IfSome, IsSome, option_map};
ghost use Rattle.acta_table.specs.declared.event.EventKind.{EventKind};
ghost use Rattle.acta_table.specs.Kinds.{has_kind, kind_code, only_kind};

use crate::event::EventKind;
use bitflags::{Flag, Flags};

// The bits of a set of kinds. A value of `Kinds` has no other bit.
#[derive(Clone, Copy, PartialEq, Eq, Debug)]
struct KindBits(u16);

impl KindBits {
    const SPAWN: KindBits = KindBits(1);

    const SPLIT: KindBits = KindBits(2);

    const JOIN: KindBits = KindBits(4);

    const DELEGATE: KindBits = KindBits(8);

    const FORM: KindBits = KindBits(16);

    const OPERATE: KindBits = KindBits(32);

    const COMMIT: KindBits = KindBits(64);

    const ABORT: KindBits = KindBits(128);

    const PERMIT: KindBits = KindBits(256);

    #[rattlefmt::skip]
    const FLAGS: &'static [Flag<KindBits>] = &[
        Flag { name: "SPAWN", value: KindBits::SPAWN },
        Flag { name: "SPLIT", value: KindBits::SPLIT },
        Flag { name: "JOIN", value: KindBits::JOIN },
        Flag { name: "DELEGATE", value: KindBits::DELEGATE },
        Flag { name: "FORM", value: KindBits::FORM },
        Flag { name: "OPERATE", value: KindBits::OPERATE },
        Flag { name: "COMMIT", value: KindBits::COMMIT },
        Flag { name: "ABORT", value: KindBits::ABORT },
        Flag { name: "PERMIT", value: KindBits::PERMIT },
    ];
}

impl Flags for KindBits {
    ghost use Rattle.std.specs.Prelude.{⊤, ◌∷◌, [], codes};

    type Bits = u16;

    ghost exact = { ⊤ };

    ghost table = { (codes "SPAWN", 1) ∷ (codes "SPLIT", 2) ∷ (codes "JOIN", 4) ∷ (codes "DELEGATE", 8) ∷ (codes "FORM", 16) ∷ (codes "OPERATE", 32) ∷ (codes "COMMIT", 64) ∷ (codes "ABORT", 128) ∷ (codes "PERMIT", 256) ∷ [] };

    ghost set_of = { λ kinds. kinds.0 };

    fn flags<'a>() -> &'a [Flag<KindBits>] {
        KindBits::FLAGS
    }

    fn bits(&self) -> u16 {
        self.0
    }

    fn from_bits_retain(bits: u16) -> KindBits {
        KindBits(bits)
    }
}

// The bit of a kind; Begin has none.
fn bit_of(kind: EventKind) -> Option<KindBits>
    ensures { option_map (λ bit. bit.0) result ≡ option_map (λ code. 2 ^ code) (kind_code kind) }
{
    match kind {
        EventKind::Begin => None,
        EventKind::Spawn => Some(KindBits::SPAWN),
        EventKind::Split => Some(KindBits::SPLIT),
        EventKind::Join => Some(KindBits::JOIN),
        EventKind::Delegate => Some(KindBits::DELEGATE),
        EventKind::Form => Some(KindBits::FORM),
        EventKind::Operate => Some(KindBits::OPERATE),
        EventKind::Commit => Some(KindBits::COMMIT),
        EventKind::Abort => Some(KindBits::ABORT),
        EventKind::Permit => Some(KindBits::PERMIT),
    }
}

/// A set of the kinds of event that a class may do: all but Begin, which `Starts` covers. In contracts it is a bit
/// mask, `Spawn` the lowest bit and `Permit` the ninth.
#[derive(Clone, Copy, PartialEq, Eq, Debug)]
pub struct Kinds {
    bits: KindBits,
}

impl std::marker::Model for Kinds {
    ghost use Rattle.std.specs.Prelude.{ℕ, ◌<◌, ◌^◌};

    ghost Value = { ℕ };

    ghost view = { λ kinds. kinds.bits.0 };

    ghost invariant = { λ kinds. kinds.bits.0 < 2 ^ 9 };

    ghost inverse = { λ bits. record { bits = record { 0 = bits } } };
}

impl Kinds {
    /// The empty set.
    pub fn none() -> Kinds
        ensures empty { (kind : EventKind) → has_kind result kind ≡ false }
        ensures bits { result ≡ 0 }
    {
        Kinds {
            bits: KindBits::empty(),
        }
    }

    /// The set of this kind alone; the empty set for Begin, which is in no set.
    pub fn of(kind: EventKind) -> Kinds
        ensures { result ≡ only_kind kind }
    {
        match bit_of(kind) {
            Some(bits) => Kinds { bits },
            None => Kinds::none(),
        }
    }

    /// The union of the two sets.
    pub fn union(self, other: Kinds) -> Kinds
        ensures either { (kind : EventKind) → has_kind result kind ≡ (has_kind self kind || has_kind other kind) }
        ensures bits { result ≡ bit_or self other }
    {
        Kinds {
            bits: self.bits.union(other.bits),
        }
    }

    /// Whether the kind is in the set. Begin is in none.
    pub fn has(self, kind: EventKind) -> bool
        ensures { result ≡ has_kind self kind }
    {
        match bit_of(kind) {
            Some(bit) => self.bits.contains(bit),
            None => false,
        }
    }

    // States the type's invariant: no other bit is set.
    pub(crate) fn lemma_invariant(self)
        ensures { self < 2 ^ 9 }
    {}

    /// The bit mask of the set, below 512.
    pub fn bits(self) -> u16
        ensures bits { result ≡ self }
        ensures known { result < 2 ^ 9 }
    {
        self.bits.bits()
    }

    /// The set with this bit mask, or `None` if a bit is set that belongs to no kind.
    pub fn from_bits(bits: u16) -> Option<Kinds>
        ensures known { IsSome result ↔ (bits < 2 ^ 9) }
        ensures same { IfSome result (λ kinds. kinds ≡ bits) }
    {
        if bits < 512 {
            Some(Kinds {
                bits: KindBits(bits),
            })
        } else {
            None
        }
    }
}
