ghost use Rattle.std.specs.Prelude.{◌≡◌, ◌<◌, ℕ, false, ◌==◌, ◌&&◌, if◌then◌else◌, get_or, length, replicate, IfOk};
ghost use Rattle.std.specs.Option.{option_map_or};
ghost use Rattle.acta_order.specs.Earlier.{limit};
ghost use Rattle.acta_order.specs.Orders.{is_event_of};

use crate::orders::Orders;
use acta_table::{Event, TxnId};
use std::alloc::{AllocError, Allocator};

// How many numbers transactions can have. Fewer transactions can commit before an event, so that this count marks a
// transaction without events.
const NUMBERS: usize = 65_536;

// For each transaction, how many others commit before its first event. Contracts see these counts, and which orders are
// asked for.
#[derive(Drop)]
pub(crate) struct Earlier<A: Allocator> {
    orders: Orders,
    counts: Vec<usize, A>,
}

impl<A: Allocator> std::marker::Model for Earlier<A> {
    ghost use Rattle.std.specs.Prelude.{◌≡◌, length};
    ghost use Rattle.acta_order.specs.Earlier.{Counted};

    ghost Value = { Counted };

    ghost view = { λ e. record { orders = e.orders; counts = e.counts.items } };

    ghost invariant = { λ e. length e.counts.items ≡ 65536 };
}

impl<A: Allocator + Copy> Earlier<A> {
    /// The counts of an empty list, in which no transaction has an event.
    pub(crate) fn new(alloc: A, orders: Orders) -> Result<Earlier<A>, AllocError>
        ensures { IfOk result (λ earlier. earlier ≡ record { orders = orders; counts = replicate 65536 65536 }) }
    {
        let none = NUMBERS;
        Ok(Earlier {
            orders,
            counts: vec![in alloc; none; NUMBERS]?,
        })
    }

    // Notes an event of the transaction, before which `count` transactions have committed.
    fn mark(&mut self, t: TxnId, count: usize)
        ensures orders { self.new.orders ≡ self.old.orders }
        ensures long { length self.new.counts ≡ length self.old.counts }
        ensures each { (u : ℕ) → get_or self.new.counts u 65536 ≡ (if t.0 == u && get_or self.old.counts u 65536 == 65536 then count else get_or self.old.counts u 65536) }
    {
        let place = usize::from(t.0);
        if self.counts[place] == NUMBERS {
            self.counts[place] = count;
        }
    }

    // The same for a transaction that may be missing.
    fn mark_some(&mut self, who: Option<TxnId>, count: usize)
        ensures orders { self.new.orders ≡ self.old.orders }
        ensures long { length self.new.counts ≡ length self.old.counts }
        ensures each { (u : ℕ) → get_or self.new.counts u 65536 ≡ (if option_map_or (λ t. t.0 == u) who false && get_or self.old.counts u 65536 == 65536 then count else get_or self.old.counts u 65536) }
    {
        if let Some(t) = who {
            self.mark(t, count);
        }
    }

    /// Notes the next event, before which `count` transactions have committed.
    pub(crate) fn note(&mut self, event: &Event<A>, count: usize)
        ensures orders { self.new.orders ≡ self.old.orders }
        ensures long { length self.new.counts ≡ length self.old.counts }
        ensures each { (u : ℕ) → get_or self.new.counts u 65536 ≡ (if is_event_of u event.now && get_or self.old.counts u 65536 == 65536 then count else get_or self.old.counts u 65536) }
    {
        self.mark_some(event.started(), count);
        self.mark_some(event.acting(), count);
    }

    /// How many transactions have to be placed before this one: the first ones to commit.
    pub(crate) fn of(&self, t: usize) -> usize
        ensures { result ≡ limit self.now t }
    {
        match self.orders {
            Orders::All => 0,
            Orders::RealTime => match self.counts.get(t) {
                Some(count) => *count,
                None => NUMBERS,
            },
        }
    }
}
