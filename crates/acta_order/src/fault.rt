ghost use Rattle.std.specs.Prelude.{◌≡◌};
ghost use Rattle.acta_order.specs.declared.fault.OrderFault.TheVariants as fault;

use std::alloc::{AllocError, AllocFailed};

/// Why a search for a serial order gives no answer.
#[derive(Clone, Copy, PartialEq, Eq, Debug)]
pub enum OrderFault {
    /// The search comes to more states than it may.
    TooMany,
    /// The list has more than `MOST_EVENTS` events.
    TooLong,
    /// Memory runs out.
    Memory,
}

impl From<AllocError> for OrderFault {
    ghost from_gives = { λ _ e. e ≡ fault.Memory };

    fn from(_: AllocError) -> OrderFault {
        OrderFault::Memory
    }
}

impl<T: Drop> From<AllocFailed<T>> for OrderFault {
    ghost from_gives = { λ _ e. e ≡ fault.Memory };

    fn from(_: AllocFailed<T>) -> OrderFault {
        OrderFault::Memory
    }
}
