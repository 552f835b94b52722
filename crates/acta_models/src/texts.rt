//! The texts of the standard models.

ghost use Rattle.std.specs.Prelude.{◌≡◌};
ghost use Rattle.acta_models.specs.Standards.{text_of_standard, name_of_standard};

/// A standard model.
#[derive(Clone, Copy, Debug, PartialEq, Eq)]
pub enum Standard {
    /// Flat transactions: conflicting operations are refused.
    Atomic,
    /// Nested transactions: when a subtransaction commits, its parent inherits its operations.
    Nested,
    /// Transactions that split, join and delegate.
    SplitJoin,
    /// Transactions that conflict are not refused but depend on those whose work they saw.
    Recoverable,
    /// Transactions between which form events form dependencies.
    Contingent,
}

const ATOMIC: &str = "\
object x register 0
object n counter 0
object m counter 0
object s set
class flat
starts begin
may operate commit abort
scope others
policy refuse
commit keeps
delegation whole
end
";

const NESTED: &str = "\
object x register 0
object n counter 0
object m counter 0
object s set
class top
starts begin
may spawn operate commit abort
scope nonancestors
policy refuse
commit keeps
delegation whole
end
class sub
starts spawned
may spawn operate commit abort
scope nonancestors
policy refuse
commit toparent
delegation whole
spawn starter CD started
spawn started WD starter
end
";

const SPLIT_JOIN: &str = "\
object x register 0
object n counter 0
object m counter 0
object s set
class part
starts begin split
may split join delegate operate commit abort
scope others
policy refuse
commit keeps
delegation any
end
";

const RECOVERABLE: &str = "\
object x register 0
object n counter 0
object m counter 0
object s set
class loose
starts begin
may operate commit abort
scope others
policy depend AD TD
commit keeps
delegation whole
end
";

const CONTINGENT: &str = "\
object x register 0
object n counter 0
object m counter 0
object s set
class try
starts begin
may form operate commit abort
scope others
policy refuse
commit keeps
delegation whole
end
";

/// The canonical text of flat transactions.
pub fn atomic() -> &'static str
    ensures { result.now ≡ ATOMIC.now }
{
    ATOMIC
}

/// The canonical text of nested transactions.
pub fn nested() -> &'static str
    ensures { result.now ≡ NESTED.now }
{
    NESTED
}

/// The canonical text of transactions that split and join.
pub fn split_join() -> &'static str
    ensures { result.now ≡ SPLIT_JOIN.now }
{
    SPLIT_JOIN
}

/// The canonical text of transactions that depend on those whose work they saw.
pub fn recoverable() -> &'static str
    ensures { result.now ≡ RECOVERABLE.now }
{
    RECOVERABLE
}

/// The canonical text of transactions between which all twelve kinds of dependency can be formed.
pub fn contingent() -> &'static str
    ensures { result.now ≡ CONTINGENT.now }
{
    CONTINGENT
}

impl Standard {
    /// All of them, in the order in which they are listed.
    pub const ALL: [Standard; 5] = [
        Standard::Atomic,
        Standard::Nested,
        Standard::SplitJoin,
        Standard::Recoverable,
        Standard::Contingent,
    ];

    /// Its name, as written after an `@`.
    pub fn name(self) -> &'static str
        ensures { result.now ≡ name_of_standard self }
    {
        match self {
            Standard::Atomic => "atomic",
            Standard::Nested => "nested",
            Standard::SplitJoin => "split_join",
            Standard::Recoverable => "recoverable",
            Standard::Contingent => "contingent",
        }
    }

    /// Its canonical text.
    pub fn text(self) -> &'static str
        ensures { result.now ≡ text_of_standard self }
    {
        match self {
            Standard::Atomic => atomic(),
            Standard::Nested => nested(),
            Standard::SplitJoin => split_join(),
            Standard::Recoverable => recoverable(),
            Standard::Contingent => contingent(),
        }
    }
}
