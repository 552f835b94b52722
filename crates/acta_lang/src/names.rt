//! Declared names in order, each with its value, found by hash.

ghost use Rattle.std.specs.Prelude.{◌≡◌, ◌++◌, ◌∷◌, [], false, OnOk};
ghost use Rattle.std.specs.Map.{lookup};
ghost use Rattle.std.specs.Option.{option_copied};
ghost use Rattle.std.specs.Str.{bytes_eq};
ghost use Rattle.acta_words.specs.Text.{is_word_among};
ghost use Rattle.acta_lang.specs.inside.Named.{names_in};

use indexmap::IndexMap;
use std::alloc::{AllocError, Allocator};
use std::hash::{BuildHasherDefault, FoldHasher};

/// Values by their names, which are borrowed from the text.
pub(crate) type Named<'a, V, A> = IndexMap<&'a [u8], V, BuildHasherDefault<FoldHasher>, A>;

/// Whether something has this name. Does not allocate.
pub(crate) fn is_declared<'a, V, A: Allocator + Copy>(
    named: &Named<'a, V, A>,
    name: &'a [u8],
) -> bool
    ensures { result ≡ is_word_among (names_in named.now) name.now }
{
    named.contains_key(&name)
}

/// The value declared under this name. Does not allocate.
pub(crate) fn found<'b, 'a, V, A: Allocator + Copy>(
    named: &'b Named<'a, V, A>,
    name: &'a [u8],
) -> Option<&'b V>
    ensures { option_copied result ≡ lookup (λ key. bytes_eq name.now key.now) named.now.entries }
{
    named.get(&name)
}

/// Appends a declaration.
pub(crate) fn add_name<'a, V: Drop, A: Allocator + Copy>(
    named: &mut Named<'a, V, A>,
    name: &'a [u8],
    value: V,
) -> Result<(), AllocError>
    requires { is_word_among (names_in named.old) name.now ≡ false }
    ensures { OnOk result (named.new.entries ≡ named.old.entries ++ (name.entry, value) ∷ []) }
{
    named.insert(name, value)?;
    Ok(())
}
