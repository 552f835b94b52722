//! The models of the tests, as texts, and parsed texts and lines.

use crate::expecting::made;
use acta_lang::assemble;
use acta_script::{read_event, read_kept};
use acta_table::{Event, Kept, Model};
use std::alloc::Allocator;
use std::process::Abort;

/// Flat transactions that form edges and must delegate all their operations.
pub const DELEGATING: &str = "\
object x register 0
object n counter 0
object m counter 0
object s set
class part
starts begin
may delegate form operate commit abort
scope others
policy refuse
commit keeps
delegation whole
end
";

/// Transactions that split with edges in both directions, must transfer all operations, and form edges.
pub const PARTING: &str = "\
object x register 0
object n counter 0
object m counter 0
object s set
class part
starts begin split
may split join delegate form operate commit abort
scope others
policy refuse
commit keeps
delegation whole
split starter CD started
split started WD starter
end
";

/// The same, with other edges.
pub const FOLLOWING: &str = "\
object x register 0
object n counter 0
object m counter 0
object s set
class part
starts begin split
may split join delegate form operate commit abort
scope others
policy refuse
commit keeps
delegation whole
split starter CD started
split started AD starter
end
";

/// Nested transactions with no edges at a spawn.
pub const UNTIED: &str = "\
object x register 0
object n counter 0
object m counter 0
object s set
class top
starts begin
may spawn operate commit abort
scope nonancestors
policy refuse
commit keeps
delegation whole
end
class sub
starts spawned
may spawn operate commit abort
scope nonancestors
policy refuse
commit toparent
delegation whole
end
";

/// Families: nested transactions with no edges at a spawn, which also delegate, join and form edges; those of `top` also
/// split or are split off, and may transfer any operations. The class `leaf` has spawned transactions that are otherwise
/// flat.
pub const FAMILIES: &str = "\
object x register 0
object n counter 0
object m counter 0
object s set
class top
starts begin split
may spawn split join delegate form operate commit abort
scope nonancestors
policy refuse
commit keeps
delegation any
end
class sub
starts spawned
may spawn join delegate form operate commit abort
scope nonancestors
policy refuse
commit toparent
delegation whole
end
class leaf
starts spawned
may operate commit abort
scope others
policy refuse
commit keeps
delegation whole
end
";

/// Transactions that lend: they depend by CD and WD on holders, spawn others of their class, may delegate any operations,
/// and exempt their ancestors.
pub const LENDING: &str = "\
object x register 0
object n counter 0
object m counter 0
object s set
class loose
starts begin spawned
may spawn delegate operate commit abort
scope nonancestors
policy depend CD WD
commit keeps
delegation any
end
";

/// Flat transactions that permit.
pub const PERMITTING: &str = "\
object x register 0
object n counter 0
object m counter 0
object s set
class flat
starts begin
may operate commit abort permit
scope others
policy refuse
commit keeps
delegation whole
end
";

/// Transactions that permit, and may transfer any operations. The class `quiet` has flat ones.
pub const SHARING: &str = "\
object x register 0
object n counter 0
object m counter 0
object s set
class part
starts begin split
may split join delegate operate commit abort permit
scope others
policy refuse
commit keeps
delegation any
end
class quiet
starts begin
may operate commit abort
scope others
policy refuse
commit keeps
delegation whole
end
";

/// Transactions that depend by AD and TD on holders, and permit.
pub const TRUSTING: &str = "\
object x register 0
object n counter 0
object m counter 0
object s set
class loose
starts begin
may operate commit abort permit
scope others
policy depend AD TD
commit keeps
delegation whole
end
";

/// Nested transactions with no edges at a spawn, which permit.
pub const KINDRED: &str = "\
object x register 0
object n counter 0
object m counter 0
object s set
class top
starts begin
may spawn operate commit abort permit
scope nonancestors
policy refuse
commit keeps
delegation whole
end
class sub
starts spawned
may spawn operate commit abort permit
scope nonancestors
policy refuse
commit toparent
delegation whole
end
";

// Appended to a model's text, this declares one more object and one more class.
const MORE: &str = "\
object nowhere register 0
class stranger
starts begin
may operate
scope others
policy refuse
commit keeps
delegation whole
end
";

/// A model, and a larger one on which its lines are parsed. The larger one also has the object `nowhere` and the class
/// `stranger`, so that a line can name what the model lacks.
#[derive(Drop)]
pub struct Models<A: Allocator> {
    pub model: Model<A>,
    pub wider: Model<A>,
}

/// The model of the text.
pub fn model_of<A: Allocator + Copy>(rt: &impl Abort, alloc: A, text: &str) -> Model<A> {
    made(rt, assemble(alloc, text.as_bytes()), "a model")
}

/// The same. `None` if memory ran out.
pub fn assembled<A: Allocator + Copy>(alloc: A, text: &str) -> Option<Model<A>> {
    assemble(alloc, text.as_bytes()).ok()
}

/// The event of the line.
pub fn event_of<A: Allocator + Copy>(
    rt: &impl Abort,
    alloc: A,
    model: &Model<A>,
    line: &str,
) -> Event<A> {
    made(rt, read_event(alloc, model, line.as_bytes()), line)
}

/// The events of the lines.
pub fn events_of<A: Allocator + Copy>(
    rt: &impl Abort,
    alloc: A,
    model: &Model<A>,
    lines: &str,
) -> Vec<Event<A>, A> {
    let mut events = Vec::new(alloc);
    for line in lines.lines() {
        let event = event_of(rt, alloc, model, line);
        made(rt, events.push(event), line);
    }
    events
}

/// The kept items of the lines.
pub fn items_of<A: Allocator + Copy>(
    rt: &impl Abort,
    alloc: A,
    model: &Model<A>,
    lines: &str,
) -> Vec<Kept<A>, A> {
    let mut items = Vec::new(alloc);
    for line in lines.lines() {
        let item = made(rt, read_kept(alloc, model, line.as_bytes()), line);
        made(rt, items.push(item), line);
    }
    items
}

impl<A: Allocator + Copy> Models<A> {
    /// The model of the text, and the larger one.
    pub fn of(rt: &impl Abort, alloc: A, text: &str) -> Models<A> {
        let mut more = made(rt, String::from_str(alloc, text), "a text");
        made(rt, more.push_str(MORE), "a text");
        Models {
            model: model_of(rt, alloc, text),
            wider: model_of(rt, alloc, more.as_str()),
        }
    }
}
