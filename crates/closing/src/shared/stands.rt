//! On which nodes a machine surely is.
ghost use Rattle.std.specs.Prelude.{◌≡◌, ℕ, ◌<◌, ◌&&◌, [], None, Some, IfNone, IfSome, IsTrue, false};
ghost use Rattle.std.specs.List.{Contains};
ghost use Rattle.relax.specs.Prelude.{choices, is_in, IsHeldWithin, IsSized, machine_count, node_count, one, sets, sure, vm};
ghost use Rattle.closing.specs.{Parts.FailAtEnds, Parts.IsEndThat, declared.shared.stands.Stands.Stands as AnyStands, Stands.AreWithin, Stands.IsOn, Stands.IsWithin, Stands.has_node_of, Stands.is_node};

use crate::shared::counts::nodes_of;
use crate::shared::ends::{Test, end_at, end_that};
use catalogue::Problem;
use cluster::{Choice, Element, Instant, NodeId, Place, VmId};
use domains::{Domain, Lens, Region, View};
use relax::{Area, is_host, surely_in};
use slices::choice::holding;
use slices::holding::Held;

/// Where a machine is under each of its choices.
#[derive(Clone, Copy)]
pub enum Stands {
    /// It has no choice, so what is said of each of them is true of each node.
    Everywhere,
    /// On these nodes and no others.
    On(Option<NodeId>, Option<NodeId>),
}

/// A choice of a domain, if there is one.
pub fn some_choice(domain: &Domain) -> Option<Choice>
    ensures none { IfNone result (choices domain.now ≡ []) }
    ensures some { IfSome result (Contains (choices domain.now)) }
{
    if domain.idle() {
        return Some(Choice::Idle);
    }
    match domain.rows() {
        [] => None,
        [row, ..] => Some(Choice::Act {
            place: row.place,
            start: row.lo,
        }),
    }
}

// the node of what is held, if the machine surely is there
fn sure_node(p: &Problem, g: &Region, v: VmId, held: Option<Held>, t: Instant) -> Option<NodeId>
    requires region { IsSized p.now.given g.now }
    requires machine { v.0 < machine_count p.now.given }
    requires within { IsHeldWithin (node_count p.now.given) held }
    ensures within { IsWithin (node_count p.now.given) result }
    ensures node { (n : ℕ) → is_node result n ≡ (is_in (one n) held && (sure p.now.given (sets g.now) t).present v.0 (one n)) }
{
    let view = View {
        region: g,
        lens: Lens::Whole,
    };
    match held {
        None => None,
        Some(h) => {
            if surely_in(p, &view, v, &Area::One(h.node), t) {
                Some(h.node)
            } else {
                None
            }
        }
    }
}

/// The nodes on which a machine is under each of its choices.
pub fn standing(p: &Problem, g: &Region, v: VmId, t: Instant) -> Stands
    requires region { IsSized p.now.given g.now }
    requires machine { v.0 < machine_count p.now.given }
    ensures within { AreWithin (node_count p.now.given) result }
    ensures nodes { (n : ℕ) → has_node_of result n ≡ (sure p.now.given (sets g.now) t).present v.0 (one n) }
{
    match some_choice(g.domain(Element::Vm(v))) {
        None => Stands::Everywhere,
        Some(c) => {
            let now = holding(p, v, c, t);
            Stands::On(
                sure_node(p, g, v, now.source, t),
                sure_node(p, g, v, now.target, t),
            )
        }
    }
}

// whether a node is this one
fn is_same(node: Option<NodeId>, n: NodeId) -> bool
    ensures { result ≡ is_node node n.0 }
{
    match node {
        None => false,
        Some(m) => m.0 == n.0,
    }
}

/// Whether a machine that stands so is on a node.
pub fn is_there(stands: Stands, n: NodeId) -> bool
    ensures { result ≡ has_node_of stands n.0 }
{
    match stands {
        Stands::Everywhere => true,
        Stands::On(a, b) => is_same(a, n) || is_same(b, n),
    }
}

// whether what is held is on one of the nodes
fn is_held_there(stands: Stands, held: Option<Held>) -> bool
    ensures yes { IsTrue result → (n : ℕ) × IsTrue (has_node_of stands n) × IsTrue (is_in (one n) held) }
    ensures no { result ≡ false → (n : ℕ) → IsTrue (has_node_of stands n) → is_in (one n) held ≡ false }
{
    match held {
        None => false,
        Some(h) => is_there(stands, h.node),
    }
}

// whether a machine is on a node on which another one stands
#[derive(Drop)]
struct IsBeside<'a> {
    problem: &'a Problem,
    machine: VmId,
    stands: Stands,
    at: Instant,
}

impl Test for IsBeside<'_> {
    ghost ready = { λ m. m.machine.0 < machine_count m.problem.now.given };

    ghost meant = { λ m. IsOn m.problem.now.given m.machine.0 (has_node_of m.stands) m.at };

    fn passes(&self, c: Choice) -> bool {
        let now = holding(self.problem, self.machine, c, self.at);
        is_held_there(self.stands, now.source) || is_held_there(self.stands, now.target)
    }
}

// an end of a machine's choices under which it is on a node; where that is not its host, one row alone is looked at
fn end_on_node(p: &Problem, g: &Region, v: VmId, n: NodeId, t: Instant) -> Option<Choice>
    requires region { IsSized p.now.given g.now }
    requires machine { v.0 < machine_count p.now.given }
    ensures none { IfNone result (FailAtEnds (IsOn p.now.given v.0 (has_node_of (AnyStands.On (Some n) None)) t) (sets g.now (vm v.0))) }
    ensures some { IfSome result (IsEndThat (IsOn p.now.given v.0 (has_node_of (AnyStands.On (Some n) None)) t) (sets g.now (vm v.0))) }
{
    let test = IsBeside {
        problem: p,
        machine: v,
        stands: Stands::On(Some(n), None),
        at: t,
    };
    let domain = g.domain(Element::Vm(v));
    if is_host(p, v, n) {
        end_that(domain, &test)
    } else {
        end_at(domain, Place::At(n), &test)
    }
}

// of a node, if there is one
#[tactic(auto, using(crate::proofs::StandLemmas::fail_on_none))]
fn end_on(p: &Problem, g: &Region, v: VmId, node: Option<NodeId>, t: Instant) -> Option<Choice>
    requires region { IsSized p.now.given g.now }
    requires machine { v.0 < machine_count p.now.given }
    ensures none { IfNone result (FailAtEnds (IsOn p.now.given v.0 (has_node_of (AnyStands.On node None)) t) (sets g.now (vm v.0))) }
    ensures some { IfSome result (IsEndThat (IsOn p.now.given v.0 (has_node_of (AnyStands.On node None)) t) (sets g.now (vm v.0))) }
{
    match node {
        None => None,
        Some(n) => end_on_node(p, g, v, n, t),
    }
}

// an end of a machine's choices under which it is on any node
fn end_anywhere(p: &Problem, g: &Region, v: VmId, t: Instant) -> Option<Choice>
    requires region { IsSized p.now.given g.now }
    requires machine { v.0 < machine_count p.now.given }
    ensures none { IfNone result (FailAtEnds (IsOn p.now.given v.0 (has_node_of AnyStands.Everywhere) t) (sets g.now (vm v.0))) }
    ensures some { IfSome result (IsEndThat (IsOn p.now.given v.0 (has_node_of AnyStands.Everywhere) t) (sets g.now (vm v.0))) }
{
    let test = IsBeside {
        problem: p,
        machine: v,
        stands: Stands::Everywhere,
        at: t,
    };
    end_that(g.domain(Element::Vm(v)), &test)
}

/// An end of a machine's choices under which it is on a node on which another one stands.
#[tactic(auto, using(crate::proofs::StandLemmas::fail_on_both, crate::proofs::StandLemmas::end_on_first, crate::proofs::StandLemmas::end_on_second))]
pub fn end_beside(p: &Problem, g: &Region, v: VmId, stands: Stands, t: Instant) -> Option<Choice>
    requires region { IsSized p.now.given g.now }
    requires machine { v.0 < machine_count p.now.given }
    ensures none { IfNone result (FailAtEnds (IsOn p.now.given v.0 (has_node_of stands) t) (sets g.now (vm v.0))) }
    ensures some { IfSome result (IsEndThat (IsOn p.now.given v.0 (has_node_of stands) t) (sets g.now (vm v.0))) }
{
    match stands {
        Stands::Everywhere => end_anywhere(p, g, v, t),
        Stands::On(a, b) => match end_on(p, g, v, a, t) {
            Some(c) => Some(c),
            None => end_on(p, g, v, b, t),
        },
    }
}

// whether another machine stands on a node, if there is one
fn is_shared(node: Option<NodeId>, other: Stands) -> bool
    ensures yes { IsTrue result → (n : ℕ) × IsTrue (is_node node n) × IsTrue (has_node_of other n) }
    ensures no { result ≡ false → (n : ℕ) → IsTrue (is_node node n) → has_node_of other n ≡ false }
{
    match node {
        None => false,
        Some(n) => is_there(other, n),
    }
}

// whether it stands anywhere
fn is_anywhere(p: &Problem, stands: Stands) -> bool
    requires within { AreWithin (node_count p.now.given) stands }
    ensures yes { IsTrue result → (n : ℕ) × (n < node_count p.now.given) × IsTrue (has_node_of stands n) }
    ensures no { result ≡ false → (n : ℕ) → n < node_count p.now.given → has_node_of stands n ≡ false }
{
    match stands {
        Stands::Everywhere => nodes_of(p) > 0,
        Stands::On(a, b) => a.is_some() || b.is_some(),
    }
}

/// Whether two machines that stand so are on one node.
pub fn are_beside(p: &Problem, a: Stands, b: Stands) -> bool
    requires first { AreWithin (node_count p.now.given) a }
    requires second { AreWithin (node_count p.now.given) b }
    ensures yes { IsTrue result → (n : ℕ) × (n < node_count p.now.given) × IsTrue (has_node_of a n) × IsTrue (has_node_of b n) }
    ensures no { result ≡ false → (n : ℕ) → n < node_count p.now.given → IsTrue (has_node_of a n) → has_node_of b n ≡ false }
{
    match a {
        Stands::Everywhere => is_anywhere(p, b),
        Stands::On(m, n) => is_shared(m, b) || is_shared(n, b),
    }
}
