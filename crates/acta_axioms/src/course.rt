ghost use Rattle.std.specs.Prelude.{◌≡◌, ◌&&◌, not, is_some};
ghost use Rattle.acta_axioms.specs.History.{least, end};

/// The first places, from 1, of a transaction's start, commit, abort and join, whether or not it has begun. `None` if
/// there is no such place.
#[derive(Clone, Copy, PartialEq, Eq, Debug)]
pub struct Course {
    pub start: Option<u32>,
    pub commit: Option<u32>,
    pub abort: Option<u32>,
    pub join: Option<u32>,
}

// The smaller of two places, or the only one.
fn least(m: Option<u32>, n: Option<u32>) -> Option<u32>
    ensures { result ≡ least m n }
{
    match m {
        Some(m) => match n {
            Some(n) => Some(m.min(n)),
            None => Some(m),
        },
        None => n,
    }
}

impl Course {
    /// The place where the transaction first committed or aborted.
    pub fn decided(self) -> Option<u32>
        ensures { result ≡ least self.commit self.abort }
    {
        least(self.commit, self.abort)
    }

    /// The place where the transaction first ended, in any way.
    pub fn end(self) -> Option<u32>
        ensures { result ≡ end self }
    {
        least(self.commit, least(self.abort, self.join))
    }

    /// Whether the transaction has started.
    pub fn has_begun(self) -> bool
        ensures { result ≡ is_some self.start }
    {
        self.start.is_some()
    }

    /// Whether the transaction has ended, even if it never started.
    pub fn has_ended(self) -> bool
        ensures { result ≡ is_some (end self) }
    {
        self.end().is_some()
    }

    /// Whether the transaction has started and not ended.
    pub fn is_in_progress(self) -> bool
        ensures { result ≡ (is_some self.start && not (is_some (end self))) }
    {
        self.has_begun() && !self.has_ended()
    }
}
