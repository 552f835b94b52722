ghost use Rattle.std.specs.Prelude.{◌≡◌, ◌<◌, ◌≤◌, length, take};
ghost use Rattle.std.specs.List.{All};
ghost use Rattle.acta_table.specs.Edges.{is_among};

use acta_table::{Edge, TxnId};

/// Whether the edge is in `before`. No edge there has an `i` above `highest`, and those before `start` have a lower
/// one. So few are compared if edges are sorted by `i`.
pub(crate) fn is_named_before(edge: &Edge, before: &[Edge], start: usize, highest: TxnId) -> bool
    requires start { start ≤ length before.now }
    requires lower { All (λ e. e.i.0 < highest.0) (take start before.now) }
    requires highest { All (λ e. e.i.0 ≤ highest.0) before.now }
    ensures { result ≡ is_among before.now edge.now }
{
    if edge.i.0 > highest.0 {
        return false;
    }
    if edge.i.0 == highest.0 {
        return edge.is_among(&before[start..]);
    }
    edge.is_among(before)
}
