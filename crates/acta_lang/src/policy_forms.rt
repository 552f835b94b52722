//! The words after `policy`.

ghost use Rattle.std.specs.Prelude.{◌≡◌, map};
ghost use Rattle.acta_lang.specs.Forms.{policy_form, depend_form};

use crate::form::Form;
use crate::words::{DEPEND, REFUSE, dep_named};
use acta_table::{DepKinds, Policy};

// [KIND]...
fn depend_form(words: &[&[u8]]) -> Form
    ensures { result ≡ depend_form (map (λ word. word.now) words.now) }
{
    let mut kinds = DepKinds::none();
    for word in words {
        let Some(kind) = dep_named(word) else {
            return Form::Unknown;
        };
        kinds = kinds.union(DepKinds::of(kind));
    }
    Form::Policy(Policy::Depend(kinds))
}

/// `refuse`, `depend [KIND]...`, after `policy`
pub(crate) fn policy_form(words: &[&[u8]]) -> Form
    ensures { result ≡ policy_form (map (λ word. word.now) words.now) }
{
    let [word, kinds @ ..] = words else {
        return Form::Unknown;
    };
    if *word == REFUSE.as_bytes() && kinds.is_empty() {
        Form::Policy(Policy::Refuse)
    } else if *word == DEPEND.as_bytes() {
        depend_form(kinds)
    } else {
        Form::Unknown
    }
}
