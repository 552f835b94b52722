//! The formulas of the dependencies, over the courses of two transactions.

ghost use Rattle.std.specs.Prelude.{◌≡◌, is_some};
ghost use Rattle.acta_axioms.specs.Formulas.{is_before, is_decided_before, is_false, payment, debt};
ghost use Rattle.acta_judge.specs.Broken.{greatest, place_broken};
ghost use Rattle.acta_judge.specs.inside.Edges.{place_by};

use acta_axioms::Course;
use acta_table::{Dep, Missing};

fn is_before(m: Option<u32>, n: Option<u32>) -> bool
    ensures { result ≡ is_before m n }
{
    match (m, n) {
        (Some(m), Some(n)) => m < n,
        _ => false,
    }
}

fn greatest(m: Option<u32>, n: Option<u32>) -> Option<u32>
    ensures { result ≡ greatest m n }
{
    match (m, n) {
        (Some(m), Some(n)) => Some(m.max(n)),
        (None, n) => n,
        (m, None) => m,
    }
}

fn is_decided_before(i: Course, n: Option<u32>) -> bool
    ensures { result ≡ is_decided_before i n }
{
    is_before(i.commit, n) || is_before(i.abort, n)
}

#[tactic(auto, unfolding(acta_axioms::specs::Formulas::is_false))]
fn is_false(kind: Dep, j: Course, i: Course) -> bool
    ensures { result ≡ is_false kind j i }
{
    match kind {
        Dep::Cd => i.commit.is_some() && j.commit.is_some() && !is_before(i.commit, j.commit),
        Dep::Scd => i.commit.is_some() && j.commit.is_none(),
        Dep::Ad => i.abort.is_some() && j.abort.is_none(),
        Dep::Wd => i.abort.is_some() && j.abort.is_none() && !is_before(j.commit, i.abort),
        Dep::Td => j.decided().is_some() && !is_decided_before(i, j.decided()),
        Dep::Ed => i.commit.is_some() && j.start.is_some() && j.abort.is_none(),
        Dep::Cmd => i.abort.is_some() && j.commit.is_none(),
        Dep::Bd => j.start.is_some() && !is_before(i.start, j.start),
        Dep::Sd => j.start.is_some() && !is_decided_before(i, j.start),
        Dep::Bcd => j.start.is_some() && !is_before(i.commit, j.start),
        Dep::Bad => j.start.is_some() && !is_before(i.abort, j.start),
        Dep::Wcd => i.commit.is_some() && j.start.is_some() && !is_before(i.commit, j.start),
    }
}

// The event of j that would make a false formula of this kind true.
fn payment(kind: Dep) -> Option<Missing>
    ensures { result ≡ payment kind }
{
    match kind {
        Dep::Scd | Dep::Cmd => Some(Missing::Commit),
        Dep::Ad | Dep::Wd | Dep::Ed => Some(Missing::Abort),
        Dep::Cd | Dep::Td | Dep::Bd | Dep::Sd | Dep::Bcd | Dep::Bad | Dep::Wcd => None,
    }
}

/// The debt of j by an edge of this kind on i.
pub(crate) fn debt(kind: Dep, j: Course, i: Course) -> Option<Missing>
    ensures { result ≡ debt kind j i }
{
    if is_false(kind, j, i) && !j.has_ended() {
        payment(kind)
    } else {
        None
    }
}

#[tactic(auto, unfolding(crate::specs::Broken::place_broken))]
fn place_broken(kind: Dep, j: Course, i: Course) -> Option<u32>
    ensures { result ≡ place_broken kind j i }
{
    match kind {
        Dep::Cd | Dep::Wcd => i.commit,
        Dep::Scd => greatest(i.commit, j.end()),
        Dep::Ad | Dep::Wd | Dep::Cmd => greatest(i.abort, j.end()),
        Dep::Td => j.decided(),
        Dep::Ed => greatest(i.commit, greatest(j.start, j.end())),
        Dep::Bd | Dep::Sd | Dep::Bcd | Dep::Bad => j.start,
    }
}

/// The place where the formula of an edge of this kind of j on i became false, if it is false and j owes nothing for it.
pub(crate) fn place_by(kind: Dep, j: Course, i: Course) -> Option<u32>
    ensures { result ≡ place_by kind j i }
{
    if is_false(kind, j, i) && debt(kind, j, i).is_none() {
        place_broken(kind, j, i)
    } else {
        None
    }
}
