//! A callback for the progress of a search.

/// Is called with the progress of a search.
pub trait Watch {
    /// This many points and ends were found so far.
    fn found(&mut self, points: u64, ends: usize);

    /// The search is over, and its answer comes next. `explore` leaves this call to its caller.
    fn end(&mut self);
}

/// Ignores the progress.
impl Watch for () {
    fn found(&mut self, _points: u64, _ends: usize) {}

    fn end(&mut self) {}
}
