//! The types of the framework: transactions, operations, events, classes, checked models, rules and answers, and when
//! they are well formed. No behaviour.
//!
//! A call that allocates returns `Err` if memory runs out.
#![tactic(auto)]

mod answer;
mod dep;
mod event;
mod items;
mod kinds;
mod limits;
mod model;
mod op_set;
mod policy;
mod sentences;
mod start_edges;

pub use answer::{Answer, Fate, Refusal, Rule, Status, lesser, smallest_of};
pub use dep::{DEP_WORDS, Dep, DepKinds, Edge, EdgeNo, Missing, Owed};
pub use event::{ClassId, Event, EventKind, Kept, ObjId, Op, OpNo, Ret, TxnId};
pub use items::{Items, lengthen};
pub use kinds::Kinds;
pub use limits::{
    LAST_TXN, LONGEST_NAME, MOST_CLASSES, MOST_EDGES, MOST_EVENTS, MOST_OBJECTS, TABLE_SIZE,
};
pub use model::{
    AtCommit, Class, Extent, Kind, Model, ModelFault, Object, Parts, Scope, Starts, is_named_well,
};
pub use op_set::OpSet;
pub use policy::Policy;
pub use start_edges::{Dependent, StartEdge, StartEdges};
