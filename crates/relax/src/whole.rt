//! What is sure in a region as it is.
ghost use Rattle.std.specs.Prelude.{◌≡◌, ◌<◌, length};
ghost use Rattle.relax.specs.Prelude.{Amount, AreLegal, end_of, has_node, IsElement, IsSized, lowest as lowest_of, one, sets, sure};

use crate::area::Area;
use crate::sure;
use catalogue::Problem;
use cluster::{Element, Instant, NodeId, NodeSet, VmId};
use domains::{Lens, Region, View};
use slices::Weight;

/// The least that a machine uses of a resource on the nodes of a set at an instant, 0 where it has no
/// choice.
pub fn least_use(p: &Problem, g: &Region, v: VmId, nodes: &NodeSet, r: u8, t: Instant) -> u64
    requires region { IsSized p.now.given g.now }
    requires machine { IsElement p.now.given (Element.Vm v) }
    requires resource { r < length p.now.given.resources }
    ensures { result ≡ (sure p.now.given (sets g.now) t).held v.0 (Amount r) (has_node nodes.now) }
{
    sure::least_held(p, &whole(g), v, Weight::Amount(r), &Area::In(*nodes), t)
}

/// Whether a machine is present on a node at an instant under each of its choices.
pub fn surely_on(p: &Problem, g: &Region, v: VmId, n: NodeId, t: Instant) -> bool
    requires region { IsSized p.now.given g.now }
    requires machine { IsElement p.now.given (Element.Vm v) }
    ensures { result ≡ (sure p.now.given (sets g.now) t).present v.0 (one n.0) }
{
    sure::surely_in(p, &whole(g), v, &Area::One(n), t)
}

/// Whether a node is usable at an instant under some choice.
pub fn may_be_usable(p: &Problem, g: &Region, n: NodeId, t: Instant) -> bool
    requires region { IsSized p.now.given g.now }
    requires node { IsElement p.now.given (Element.Node n) }
    ensures { result ≡ (sure p.now.given (sets g.now) t).usable n.0 }
{
    sure::may_be_usable(p, &whole(g), n, t)
}

/// The least instant at which the action of an element ends, where its choices are legal; None exactly
/// where it has none.
pub fn least_end(p: &Problem, g: &Region, e: Element) -> Option<Instant>
    requires region { IsSized p.now.given g.now }
    requires element { IsElement p.now.given e }
    requires legal { AreLegal p.now.given (sets g.now) }
    ensures { result ≡ lowest_of (end_of p.now.given e) (sets g.now e) }
{
    match sure::least_end(p, &whole(g), e) {
        None => None,
        Some(end) => Some(end as u32),
    }
}

// the region as it is
fn whole(g: &Region) -> View<'_>
    ensures region { result.region.now ≡ g.now }
    ensures lens { result.lens ≡ Lens.Whole }
{
    View {
        region: g,
        lens: Lens::Whole,
    }
}
