use acta_table::{ObjId, Op, OpNo, Ret};

/// A committed operation and the return that the history records.
#[derive(Clone, Copy, PartialEq, Eq, Debug)]
pub struct Item {
    /// The number of the operation in the history, from 1.
    pub number: OpNo,
    pub ob: ObjId,
    pub op: Op,
    pub ret: Option<Ret>,
}
