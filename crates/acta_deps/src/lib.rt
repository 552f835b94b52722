//! Dependencies between transactions. `Deps` holds the status of each transaction and the edges in force, in order of
//! forming. It answers which rule an event of a transaction would break, and which events transactions owe because
//! another has committed or aborted. Every rule but the last tests single edges, by the kind and two statuses, and
//! names the first edge that breaks it. The last rule, `Clash`, forbids that a transaction comes to owe both a commit
//! and an abort.
//!
//! A call that allocates returns `Err` if memory runs out.
#![tactic(auto)]

mod block;
mod block_kind;
mod clash;
mod debt;
mod deps;
mod edge_list;
mod lacking;
mod owing;
mod places;
mod rules;
mod waiting;

pub use block::{Block, BlockingEdge, Clash, NumberedEdge};
pub use deps::Deps;
