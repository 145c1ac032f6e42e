//! Reasons of one or two elements: a machine where it must not be, two that must not be together.
ghost use Rattle.std.specs.Prelude.{◌≡◌, ◌<◌, false, IsTrue};
ghost use Rattle.relax.specs.Prelude.{IsElement, IsPair, IsPlace, IsSized, IsUnusable, machine_count, seen, sure};

use crate::area::Area;
use crate::forbidden::{forbids_pair, forbids_place};
use crate::sure::{may_be_usable, surely_has_image, surely_in};
use catalogue::{Constraint, Problem};
use cluster::{Element, Instant, NodeId, VmId};
use domains::View;

/// Whether two machines that a constraint keeps apart are surely on a node.
pub fn is_pair(
    p: &Problem,
    view: &View,
    constraint: &Constraint,
    v: VmId,
    w: VmId,
    n: NodeId,
    t: Instant,
) -> bool
    requires region { IsSized p.now.given view.now.region.now }
    requires first { IsElement p.now.given (Element.Vm v) }
    requires second { IsElement p.now.given (Element.Vm w) }
    ensures yes { IsTrue result → IsPair p.now.given (sure p.now.given (seen view.now.region.now view.now.lens) t) constraint.now v.0 w.0 n.0 }
    ensures no { result ≡ false → ¬ IsPair p.now.given (sure p.now.given (seen view.now.region.now view.now.lens) t) constraint.now v.0 w.0 n.0 }
{
    if v.0 == w.0 || !forbids_pair(constraint, v, w) {
        return false;
    }
    surely_in(p, view, v, &Area::One(n), t) && surely_in(p, view, w, &Area::One(n), t)
}

/// Whether a machine is surely on a node where a constraint lets it not be.
pub fn is_place(
    p: &Problem,
    view: &View,
    constraint: &Constraint,
    v: VmId,
    n: NodeId,
    t: Instant,
) -> bool
    requires region { IsSized p.now.given view.now.region.now }
    requires machine { IsElement p.now.given (Element.Vm v) }
    ensures yes { IsTrue result → IsPlace p.now.given (sure p.now.given (seen view.now.region.now view.now.lens) t) constraint.now v.0 n.0 }
    ensures no { result ≡ false → ¬ IsPlace p.now.given (sure p.now.given (seen view.now.region.now view.now.lens) t) constraint.now v.0 n.0 }
{
    forbids_place(p, constraint, v, n) && surely_in(p, view, v, &Area::One(n), t)
}

/// Whether a machine is surely on a node or surely has its image there, and the node is surely not
/// usable.
pub fn is_unusable(p: &Problem, view: &View, v: VmId, n: NodeId, t: Instant) -> bool
    requires region { IsSized p.now.given view.now.region.now }
    requires machine { IsElement p.now.given (Element.Vm v) }
    requires node { IsElement p.now.given (Element.Node n) }
    ensures yes { IsTrue result → IsUnusable (sure p.now.given (seen view.now.region.now view.now.lens) t) v.0 n.0 }
    ensures no { result ≡ false → ¬ IsUnusable (sure p.now.given (seen view.now.region.now view.now.lens) t) v.0 n.0 }
{
    if may_be_usable(p, view, n, t) {
        return false;
    }
    let area = Area::One(n);
    surely_in(p, view, v, &area, t) || surely_has_image(p, view, v, &area, t)
}
