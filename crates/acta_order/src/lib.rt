//! The search for a serial order of a list of kept events, which need not be legal: an order of the committed transactions
//! in which a replay of their committed operations, one transaction after another, gives each recorded return. Each
//! function that allocates returns `Err` if memory runs out.
#![tactic(auto)]

mod dead_end;
mod earlier;
mod fault;
mod groups;
mod item;
mod longest;
mod memo;
mod order;
mod orders;
mod packed;
mod path;
mod replay;
mod search;

pub use dead_end::{Block, DeadEnd};
pub use fault::OrderFault;
pub use item::Item;
pub use order::{Cause, Order, serial_order_of};
pub use orders::Orders;
