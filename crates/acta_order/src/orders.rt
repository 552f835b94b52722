/// The orders of the committed transactions among which a search may choose.
#[derive(Clone, Copy, PartialEq, Eq, Debug)]
pub enum Orders {
    /// Any order.
    All,
    /// An order in real time: a transaction that commits before the first event of another is placed before it.
    RealTime,
}
