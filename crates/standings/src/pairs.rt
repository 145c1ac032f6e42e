//! Whether two machines that are to be kept apart surely are on a node.
ghost use Rattle.std.specs.Prelude.{◌≡◌, IsTrue, false};
ghost use Rattle.standings.specs.Prelude.{IsElement, IsPair, IsSized, seen, sure};

use crate::stays::surely_at;
use catalogue::{Constraint, Problem};
use cluster::{Element, Instant, NodeId, VmId};
use domains::View;
use relax::forbidden::forbids_pair;

/// Whether two machines that a constraint keeps apart are surely on a node.
pub fn is_pair(
    p: &Problem,
    view: &View,
    constraint: &Constraint,
    v: VmId,
    w: VmId,
    n: NodeId,
    t: Instant,
) -> bool
    requires region { IsSized p.now.given view.now.region.now }
    requires first { IsElement p.now.given (Element.Vm v) }
    requires second { IsElement p.now.given (Element.Vm w) }
    ensures yes { IsTrue result → IsPair p.now.given (sure p.now.given (seen view.now.region.now view.now.lens) t) constraint.now v.0 w.0 n.0 }
    ensures no { result ≡ false → ¬ IsPair p.now.given (sure p.now.given (seen view.now.region.now view.now.lens) t) constraint.now v.0 w.0 n.0 }
{
    if v.0 == w.0 || !forbids_pair(constraint, v, w) {
        return false;
    }
    surely_at(p, view, v, n, t) && surely_at(p, view, w, n, t)
}
