//! A cache of the events that were refused since the last admitted event, with the rules. A refusal changes nothing,
//! so an event that is submitted again, such as a waiting one, can be answered at once.

ghost use Rattle.std.specs.Prelude.{◌≡◌, IfSome};
ghost use Rattle.acta_table.specs.declared.model.Parts.{Parts};
ghost use Rattle.acta_machine.specs.Summary.{Summary};
ghost use Rattle.acta_machine.specs.inside.Refused.{AreRefused, IsRefusedBy};

use crate::lowest::Broken;
use acta_table::Event;
use std::alloc::Allocator;

// The capacity of the cache.
const ROOM: usize = 64;

/// A refused event, and the lowest rule that it breaks.
#[derive(Drop)]
pub(crate) struct Refused<A: Allocator> {
    pub(crate) event: Event<A>,
    pub(crate) broken: Broken,
}

/// The lowest rule that the event breaks, if it is in the list.
pub(crate) fn broken_among<A: Allocator>(refused: &[Refused<A>], event: &Event<A>) -> Option<Broken>
    ensures { (m : Parts A) → (s : Summary) → AreRefused m s refused.now → IfSome result (IsRefusedBy m s event.now) }
{
    for one in refused {
        if one.event.is_same(event) {
            return Some(one.broken);
        }
    }
    None
}

// Reserves the capacity on first use. If memory runs out, nothing changes.
fn get_room<A: Allocator>(refused: &mut Vec<Refused<A>, A>)
    ensures { refused.new.items ≡ refused.old.items }
{
    if refused.capacity() == 0 {
        let _ = refused.reserve(ROOM);
    }
}

// Appends a refusal, after the list was emptied if it was full. If memory runs out, nothing is appended.
fn put_refused<A: Allocator>(refused: &mut Vec<Refused<A>, A>, one: Refused<A>)
    ensures { (m : Parts A) → (s : Summary) → AreRefused m s refused.old.items → IsRefusedBy m s one.event one.broken → AreRefused m s refused.new.items }
{
    get_room(refused);
    if refused.len() == refused.capacity() {
        refused.clear();
    }
    let _ = refused.push(one);
}

/// Remembers the rule by which the event is refused, unless memory runs out. An event that is not remembered is checked
/// again when it comes again.
pub(crate) fn keep_refused<A: Allocator + Copy>(
    refused: &mut Vec<Refused<A>, A>,
    event: &Event<A>,
    broken: Broken,
)
    ensures { (m : Parts A) → (s : Summary) → AreRefused m s refused.old.items → IsRefusedBy m s event.now broken → AreRefused m s refused.new.items }
{
    if let Ok(event) = event.copy() {
        put_refused(refused, Refused { event, broken });
    }
}
