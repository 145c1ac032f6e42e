//! Which watches of nodes are dirty.
ghost use Rattle.std.specs.Prelude.{◌≡◌, ◌≢◌, ◌⊎◌, ◌<◌, false, IfNone, IfSome, IsTrue, [], length};
ghost use Rattle.std.specs.List.{Contains};
ghost use Rattle.rule_place.specs.Prelude.{AreDirtyUpTo, AreFewer, AreNodesDirty, AreSpared, Choice as AnyChoice, choices, domain_at, domain_before, GivesUp, goes_in, hosted_in, IsElement, IsRegionOf, IsSized, machine_count, node_count, one, sets, state_of};

use crate::shutdowns::goes_elsewhere;
use machine_bounds::leaving::leaves_as_soon;
use rule_constraint::host;
use rule_frame::{Before, Choice, DirtySet, Domain, Element, NodeId, Place, Problem, Region, VmId};

// sets dirty each watch
fn set_all_dirty(dirty: &mut DirtySet)
    ensures { AreDirtyUpTo (length dirty.old.top) dirty.old dirty.new }
{
    for i in 0..dirty.count() {
        dirty.set_dirty(i, true);
    }
}

// sets dirty the watch of a node, if there is one
#[tactic(auto, using(crate::proofs::NodeLemmas::one_dirty, crate::proofs::NodeLemmas::past_dirty))]
fn set_node_dirty(p: &Problem, n: NodeId, dirty: &mut DirtySet)
    requires count { length dirty.old.top ≡ node_count p.now.given }
    ensures { AreSpared (λ k. k ≢ n.0) dirty.old dirty.new }
{
    if (n.0 as usize) < p.cluster().nodes().len() {
        dirty.set_dirty(n.0 as usize, true);
    }
}

// sets dirty that of the node at a place
fn set_place_dirty(p: &Problem, place: Place, dirty: &mut DirtySet)
    requires count { length dirty.old.top ≡ node_count p.now.given }
    ensures { AreSpared (λ k. goes_in (AnyChoice.Act place 0) (one k) ≡ false) dirty.old dirty.new }
{
    match place {
        Place::Nowhere => {}
        Place::At(n) => set_node_dirty(p, n, dirty),
    }
}

// whether a machine is seen to give a node up no later than before, which is its host
fn gives_up(p: &Problem, g: &Region, v: VmId, n: NodeId, before: Before, kept: &Domain) -> bool
    requires region { IsSized p.now.given g.now }
    requires machine { v.0 < machine_count p.now.given }
    requires fewer { AreFewer (sets g.now (Element.Vm v)) (choices (domain_before before kept.now (domain_at g.now (Element.Vm v)))) }
    ensures { IsTrue result → GivesUp p.now.given v.0 (choices (domain_before before kept.now (domain_at g.now (Element.Vm v)))) (sets g.now (Element.Vm v)) n.0 }
{
    let domain = g.domain(Element::Vm(v));
    !domain.is_empty() && leaves_as_soon(p, v, domain, before, kept) && goes_elsewhere(p, g, v, n)
}

// whether the watch of a node is dirty already, so that nothing has to be asked
fn is_dirty(n: NodeId, dirty: &DirtySet) -> bool {
    (n.0 as usize) < dirty.count() && dirty.is_dirty(n.0 as usize)
}

// sets dirty that of a machine's host, but where the machine gives it up no later than before
fn set_host_dirty(
    p: &Problem,
    g: &Region,
    v: VmId,
    before: Before,
    kept: &Domain,
    dirty: &mut DirtySet,
)
    requires region { IsSized p.now.given g.now }
    requires machine { v.0 < machine_count p.now.given }
    requires fewer { AreFewer (sets g.now (Element.Vm v)) (choices (domain_before before kept.now (domain_at g.now (Element.Vm v)))) }
    requires count { length dirty.old.top ≡ node_count p.now.given }
    ensures { AreSpared (λ k. (hosted_in (state_of p.now.given v.0) (one k) ≡ false) ⊎ GivesUp p.now.given v.0 (choices (domain_before before kept.now (domain_at g.now (Element.Vm v)))) (sets g.now (Element.Vm v)) k) dirty.old dirty.new }
{
    let Some(h) = host(p, v) else {
        return;
    };
    if is_dirty(h, dirty) || !gives_up(p, g, v, h, before, kept) {
        set_node_dirty(p, h, dirty);
    }
}

// sets dirty that of the node to which a choice goes
fn set_choice_dirty(p: &Problem, c: Choice, dirty: &mut DirtySet)
    requires count { length dirty.old.top ≡ node_count p.now.given }
    ensures { AreSpared (λ k. goes_in c (one k) ≡ false) dirty.old dirty.new }
{
    match c {
        Choice::Idle => {}
        Choice::Act { place, start: _ } => set_place_dirty(p, place, dirty),
    }
}

// a choice of a domain, if there is one
fn some_choice(domain: &Domain) -> Option<Choice>
    ensures none { IfNone result (choices domain.now ≡ []) }
    ensures some { IfSome result (Contains (choices domain.now)) }
{
    if domain.idle() {
        return Some(Choice::Idle);
    }
    match domain.rows() {
        [] => None,
        [row, ..] => Some(Choice::Act {
            place: row.place,
            start: row.lo,
        }),
    }
}

// sets dirty those of the nodes to which all choices of a domain go
fn set_only_dirty(p: &Problem, domain: &Domain, dirty: &mut DirtySet)
    requires count { length dirty.old.top ≡ node_count p.now.given }
    ensures { AreSpared (λ k. (c : AnyChoice) × Contains (choices domain.now) c × (goes_in c (one k) ≡ false)) dirty.old dirty.new }
{
    match some_choice(domain) {
        None => set_all_dirty(dirty),
        Some(c) => set_choice_dirty(p, c, dirty),
    }
}

/// Sets dirty the watches of nodes on which it may weigh that an element has lost choices: of a machine its host, unless
/// it gives that up no later, and the node to which all choices go that are left; of a node its own. On any other node a
/// machine that starts later there needs it no sooner.
pub fn set_nodes_dirty(
    p: &Problem,
    g: &Region,
    x: Element,
    before: Before,
    kept: &Domain,
    dirty: &mut DirtySet,
)
    requires region { IsRegionOf p.now.given g.now }
    requires element { IsElement p.now.given x }
    requires fewer { AreFewer (sets g.now x) (choices (domain_before before kept.now (domain_at g.now x))) }
    requires count { length dirty.old.top ≡ node_count p.now.given }
    ensures { AreNodesDirty p.now.given x (choices (domain_before before kept.now (domain_at g.now x))) (sets g.now x) dirty.old dirty.new }
{
    match x {
        Element::Vm(v) => {
            set_host_dirty(p, g, v, before, kept, dirty);
            set_only_dirty(p, g.domain(Element::Vm(v)), dirty);
        }
        Element::Node(n) => dirty.set_dirty(n.0 as usize, true),
    }
}
