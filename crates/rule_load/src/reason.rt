//! The reason why nodes are overloaded.
ghost use Rattle.std.specs.Prelude.{◌+◌, ◌<◌, ◌≤◌, IfNone, IfSome, length};
ghost use Rattle.rule_load.specs.Prelude.{cache_of, FailHolds, has_node, IsCacheFor, IsOverload, IsOverloaded, IsSized, node_count, nodes_at, seen, sets, sure};

use crate::LoadKeeper;
use crate::nodes::{node_at, watched_nodes};
use load_bounds::over::overloaded_at;
use relax::amounts::is_overload;
use rule_frame::{Instant, NodeSet, Problem, Reason, View};

/// The first resource of which the nodes of a set lack capacity.
pub(crate) fn overloaded(p: &Problem, view: &View, set: &NodeSet, t: Instant) -> Option<u8>
    requires { IsSized p.now.given view.now.region.now }
    ensures none { IfNone result (¬ IsOverloaded p.now.given (has_node set.now) (sure p.now.given (seen view.now.region.now view.now.lens) t)) }
    ensures some { IfSome result (λ r. (r < length p.now.given.resources) × IsOverload p.now.given (sure p.now.given (seen view.now.region.now view.now.lens) t) r (has_node set.now)) }
{
    for r in 0..p.cluster().resources().len() {
        if is_overload(p, view, r as u8, set, t) {
            return Some(r as u8);
        }
    }
    None
}

/// The reason why the watch of a number is broken: the first resource that its nodes lack.
pub(crate) fn load_reason(k: &LoadKeeper, p: &Problem, view: &View, i: usize, t: Instant) -> Reason
    requires region { IsSized p.now.given view.now.region.now }
    requires right { IsCacheFor (cache_of k.now.table k.now.fixed k.now.near k.now.firsts k.now.movers k.now.rooms k.now.hold_on) p.now.given (sets view.now.region.now) }
    requires watch { i < node_count p.now.given + 1 }
    requires within { t ≤ p.now.given.horizon }
    requires broken { IsOverloaded p.now.given (nodes_at p.now.given i) (sure p.now.given (seen view.now.region.now view.now.lens) t) }
    ensures { FailHolds p.now.given (seen view.now.region.now view.now.lens) result }
{
    let set = watched_nodes(p, i);
    if let Some(r) = lacking_near(k, p, view, i, t) {
        return Reason::Load(t, r, set);
    }
    // a resource is found, as the watch is broken
    let r = overloaded(p, view, &set, t).unwrap_or(0);
    Reason::Load(t, r, set)
}

// the first resource that the node of a watch, if it is one node, is seen to lack by the machines near it
fn lacking_near(k: &LoadKeeper, p: &Problem, view: &View, i: usize, t: Instant) -> Option<u8>
    requires region { IsSized p.now.given view.now.region.now }
    requires right { IsCacheFor (cache_of k.now.table k.now.fixed k.now.near k.now.firsts k.now.movers k.now.rooms k.now.hold_on) p.now.given (sets view.now.region.now) }
    requires watch { i < node_count p.now.given + 1 }
    requires within { t ≤ p.now.given.horizon }
    ensures { IfSome result (λ r. (r < length p.now.given.resources) × IsOverload p.now.given (sure p.now.given (seen view.now.region.now view.now.lens) t) r (nodes_at p.now.given i)) }
{
    let n = node_at(p, i)?;
    overloaded_at(p, view, k.at(p, view.region, n), n, t)
}
