use acta_table::{ObjId, TxnId};

/// A permit in force: `by` has permitted `to` to work on the object.
#[derive(Clone, Copy, PartialEq, Eq, Hash, Debug)]
pub struct Permit {
    pub by: TxnId,
    pub to: TxnId,
    pub object: ObjId,
}
