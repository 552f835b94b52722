//! The form of a line, determined by its words alone.

ghost use Rattle.std.specs.Prelude.{◌≡◌};
ghost use Rattle.acta_lang.specs.Faults.{is_object, is_class, is_end};

use acta_table::{AtCommit, Extent, Kinds, Policy, Scope, StartEdge, Starts};

/// The form of a line. The name is the line's second word and the first value its fourth; the form does not check them.
#[derive(Clone, Copy)]
pub(crate) enum Form {
    /// No word.
    Blank,
    /// `object NAME register INT`
    Register,
    /// `object NAME counter INT`
    Counter,
    /// `object NAME set`
    Elements,
    /// `class NAME`
    Class,
    /// `starts [begin|spawned|split]...`
    Starts(Starts),
    /// `may [spawn|split|join|delegate|form|operate|commit|abort|permit]...`
    May(Kinds),
    /// `scope others|nonancestors`
    Scope(Scope),
    /// `policy refuse`, `policy depend [KIND]...`
    Policy(Policy),
    /// `commit keeps|toparent`
    Commit(AtCommit),
    /// `delegation whole|any`
    Delegation(Extent),
    /// `spawn starter KIND started`, `spawn started KIND starter`
    Spawn(StartEdge),
    /// `split starter KIND started`, `split started KIND starter`
    Split(StartEdge),
    /// `end`
    End,
    /// The words fit no form.
    Unknown,
}

impl Form {
    /// Whether the line declares an object.
    pub(crate) fn is_object(&self) -> bool
        ensures { result ≡ is_object self.now }
    {
        matches!(self, Form::Register | Form::Counter | Form::Elements)
    }

    /// Whether it begins a class.
    pub(crate) fn is_class(&self) -> bool
        ensures { result ≡ is_class self.now }
    {
        matches!(self, Form::Class)
    }

    /// Whether it ends one.
    pub(crate) fn is_end(&self) -> bool
        ensures { result ≡ is_end self.now }
    {
        matches!(self, Form::End)
    }
}
