ghost use Rattle.std.specs.Prelude.{◌≡◌, IfOk};
ghost use Rattle.acta_table.specs.Dependencies.{is_commit, is_abort};
ghost use Rattle.acta_deps.specs.Deps.{status_of};
ghost use Rattle.acta_deps.specs.Statuses.{may_end};
ghost use Rattle.acta_deps.specs.Debts.{missing_if, debt_by, debt_of, owed_in};

use crate::deps::Deps;
use acta_table::{Dep, Edge, EdgeNo, Missing, Owed, Status};
use std::alloc::{AllocError, Allocator};

fn may_end(s: Status) -> bool
    ensures { result ≡ may_end s }
{
    matches!(s, Status::NotBegun | Status::InProgress)
}

fn missing_if(test: bool, missing: Missing) -> Option<Missing>
    ensures { result ≡ missing_if test missing }
{
    if test { Some(missing) } else { None }
}

/// The debt of `j` by an edge of this kind, from the statuses of `i` and `j`.
pub(crate) fn debt_by(kind: Dep, i: Status, j: Status) -> Option<Missing>
    ensures { result ≡ debt_by kind i j }
{
    let i_committed = matches!(i, Status::Committed);
    let i_aborted = matches!(i, Status::Aborted);
    let j_is_running = matches!(j, Status::InProgress);
    match kind {
        Dep::Scd => missing_if(i_committed && may_end(j), Missing::Commit),
        Dep::Ad => missing_if(i_aborted && may_end(j), Missing::Abort),
        Dep::Wd => missing_if(i_aborted && may_end(j), Missing::Abort),
        Dep::Cmd => missing_if(i_aborted && may_end(j), Missing::Commit),
        Dep::Ed => missing_if(i_committed && j_is_running, Missing::Abort),
        _ => None,
    }
}

pub(crate) fn is_commit(missing: Option<Missing>) -> bool
    ensures { result ≡ is_commit missing }
{
    matches!(missing, Some(Missing::Commit))
}

pub(crate) fn is_abort(missing: Option<Missing>) -> bool
    ensures { result ≡ is_abort missing }
{
    matches!(missing, Some(Missing::Abort))
}

impl<A: Allocator> Deps<A> {
    /// The debt of the edge.
    pub(crate) fn debt(&self, e: &Edge) -> Option<Missing>
        ensures { result ≡ debt_of (status_of self.now) e.now }
    {
        debt_by(e.kind, self.status(e.i), self.status(e.j))
    }
}

impl<A: Allocator + Copy> Deps<A> {
    /// All debts, by edge number.
    pub fn owed(&self) -> Result<Vec<Owed, A>, AllocError>
        ensures { IfOk result (λ owed. owed.items ≡ owed_in (status_of self.now) self.now.edges) }
    {
        let mut owed = Vec::new(self.allocator());
        let edges = self.edges();
        let mut number = 0;
        for e in edges {
            number += 1;
            if let Some(missing) = self.debt(e) {
                owed.push(Owed {
                    edge: EdgeNo(number),
                    txn: e.j,
                    missing,
                })?;
            }
        }
        Ok(owed)
    }
}
