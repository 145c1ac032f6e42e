//! Whether all that a reason names is there.
ghost use Rattle.std.specs.Prelude.{◌≡◌, ◌↔◌, ℕ, ◌<◌, ◌≤◌, false, length, IsTrue};
ghost use Rattle.relax.specs.Prelude.{AreListed, has_node, IsElement, IsNamed, machine_count, max_nodes, node_count};

use crate::area::is_node;
use catalogue::Problem;
use cluster::{Element, Instant, NodeId, NodeSet, VmId};
use reasons::Reason;
use slices::elements::has_element;

// whether a machine is listed
fn is_machine(p: &Problem, v: VmId) -> bool
    ensures { IsTrue result ↔ IsElement p.now.given (Element.Vm v) }
{
    (v.0 as usize) < p.cluster().machines().len()
}

// whether a set has one of the first nodes
fn has_some(set: &NodeSet, count: usize) -> bool
    requires { count ≤ max_nodes }
    ensures some { IsTrue result → (n : ℕ) × IsTrue (has_node set.now n) }
    ensures none { result ≡ false → (n : ℕ) → n < count → has_node set.now n ≡ false }
{
    match set.first_from(0) {
        None => false,
        Some(n) => (n.0 as usize) < count,
    }
}

// whether the nodes of a set are listed, and there is one unless the problem has no node
fn are_listed(p: &Problem, set: &NodeSet) -> bool
    ensures yes { IsTrue result → AreListed p.now.given set.now }
    ensures no { result ≡ false → ¬ AreListed p.now.given set.now }
{
    let count = p.cluster().nodes().len();
    if !set.is_within(count) {
        return false;
    }
    count == 0 || has_some(set, count)
}

// whether an instant is at most the horizon, and a constraint is listed
fn is_constraint_at(p: &Problem, c: u32, t: Instant) -> bool
    ensures yes { IsTrue result → (c < length p.now.given.constraints) × (t ≤ p.now.given.horizon) }
    ensures no { result ≡ false → ¬ ((c < length p.now.given.constraints) × (t ≤ p.now.given.horizon)) }
{
    (c as usize) < p.constraints().len() && t <= p.horizon()
}

// whether a machine and a node are listed
fn are_elements(p: &Problem, v: VmId, n: NodeId) -> bool
    ensures yes { IsTrue result → (v.0 < machine_count p.now.given) × (n.0 < node_count p.now.given) }
    ensures no { result ≡ false → ¬ ((v.0 < machine_count p.now.given) × (n.0 < node_count p.now.given)) }
{
    is_machine(p, v) && is_node(p, n)
}

/// Whether all that a reason names is there, and its instant is at most the horizon.
pub fn is_named(p: &Problem, reason: &Reason) -> bool
    ensures yes { IsTrue result → IsNamed p.now.given reason.now }
    ensures no { result ≡ false → ¬ IsNamed p.now.given reason.now }
{
    match reason {
        Reason::Empty(e) => has_element(p, *e),
        Reason::Bound => true,
        Reason::Load(t, r, set) => {
            *t <= p.horizon() && (*r as usize) < p.cluster().resources().len() && are_listed(p, set)
        }
        Reason::Pair(c, t, v, w, n) => {
            is_constraint_at(p, *c, *t) && is_machine(p, *v) && are_elements(p, *w, *n)
        }
        Reason::Place(c, t, v, n) => is_constraint_at(p, *c, *t) && are_elements(p, *v, *n),
        Reason::Group(c, t) | Reason::SetLoad(c, t) | Reason::Power(c, t) => {
            is_constraint_at(p, *c, *t)
        }
        Reason::Usable(t, v, n) => *t <= p.horizon() && are_elements(p, *v, *n),
        Reason::Hall(c, t, set) => is_constraint_at(p, *c, *t) && are_listed(p, set),
    }
}
