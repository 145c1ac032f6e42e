//! Nodes that stay usable, and loads that fit at every instant, whatever the starts are.
ghost use Rattle.std.specs.Prelude.{◌≡◌, ℕ, ◌+◌, ◌<◌, ◌≤◌, ◌*◌, [], ◌∷◌, IsTrue, length};
ghost use Rattle.closing.specs.Prelude.{choices, HasSteadyRoom, IsFreeOf, IsNeeded, IsOverload, IsOverloaded, IsSized, max_capacity, max_nodes, node, node_count, nodes_of, sets, StaysUsable};
ghost use Rattle.cluster.specs.declared.choices.Choice.TheVariants.{Idle};

use crate::quick::within::stays_within;
use crate::shared::counts::{nodes_of, resources_of};
use catalogue::Problem;
use cluster::{Choice, Element, NodeId};
use domains::{Domain, Region};
use relax::{Area, has};
use slices::Weight;
use slices::choice::usable;

// whether Idle is the only choice
fn can_only_stay(domain: &Domain) -> bool
    ensures { IsTrue result → choices domain.now ≡ Idle ∷ [] }
{
    domain.idle() && domain.rows().is_empty()
}

/// Whether a node is usable, and can only stay as it is.
pub fn stays_usable(p: &Problem, g: &Region, n: NodeId) -> bool
    requires region { IsSized p.now.given g.now }
    requires node { n.0 < node_count p.now.given }
    ensures free { IsTrue result → (t : ℕ) → IsFreeOf (IsNeeded p.now.given n.0) p.now.given (sets g.now) t }
    ensures steady { IsTrue result → StaysUsable p.now.given (sets g.now) n.0 }
{
    can_only_stay(g.domain(Element::Node(n))) && usable(p, n, Choice::Idle, 0)
}

// the sum of the capacities of those nodes of an area that are usable and can only stay so
fn steady_room(p: &Problem, g: &Region, r: u8, area: &Area) -> u64
    requires region { IsSized p.now.given g.now }
    requires resource { r < length p.now.given.resources }
    ensures room { HasSteadyRoom p.now.given (sets g.now) r (nodes_of p.now.given area.now) (node_count p.now.given) result }
    ensures small { result ≤ max_nodes * max_capacity }
{
    let mut total = 0;
    for i in 0..nodes_of(p) {
        let n = NodeId(i as u32);
        if has(p, area, n) && stays_usable(p, g, n) {
            total += p.capacity(n, r);
        }
    }
    total
}

// whether it is seen that the uses of a resource never exceed the capacities
fn fits(p: &Problem, g: &Region, r: u8, area: &Area) -> bool
    requires region { IsSized p.now.given g.now }
    requires resource { r < length p.now.given.resources }
    ensures { IsTrue result → (t : ℕ) → IsFreeOf (λ s. IsOverload p.now.given s r (nodes_of p.now.given area.now)) p.now.given (sets g.now) t }
{
    stays_within(p, g, Weight::Amount(r), area, steady_room(p, g, r, area))
}

/// Whether it is seen at once that the nodes of an area are overloaded at no instant, whatever the starts are.
pub fn is_never_overloaded(p: &Problem, g: &Region, area: &Area) -> bool
    requires region { IsSized p.now.given g.now }
    ensures { IsTrue result → (t : ℕ) → IsFreeOf (IsOverloaded p.now.given (nodes_of p.now.given area.now)) p.now.given (sets g.now) t }
{
    for r in 0..resources_of(p) {
        if !fits(p, g, r as u8, area) {
            return false;
        }
    }
    true
}
