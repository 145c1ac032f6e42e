//! Whether a region is closed.
ghost use Rattle.std.specs.Prelude.{◌≡◌, ◌≢◌, ◌↔◌, ℕ, ◌+◌, ◌<◌, ◌≤◌, [], false, IsTrue, length};
ghost use Rattle.closing.specs.Prelude.{AreClean, constraint_watch, HasElement, HaveChoices, IsClean, IsClosed, IsElement, IsSized, load_watch, machine_count, node, node_count, sets, total_load_watch, usable_watch, vm};

use crate::look::Look;
use crate::shared::counts::{machines_of, nodes_of};
use crate::watch::{look_at_constraint, look_at_load, look_at_total_load, look_at_usable};
use catalogue::Problem;
use cluster::{Element, NodeId, VmId};
use domains::Region;

// whether each element has a choice
fn have_choices(p: &Problem, g: &Region) -> bool
    requires { IsSized p.now.given g.now }
    ensures yes { IsTrue result → HaveChoices p.now.given (sets g.now) }
    ensures no { result ≡ false → ¬ HaveChoices p.now.given (sets g.now) }
{
    for v in 0..machines_of(p) {
        if g.domain(Element::Vm(VmId(v as u32))).is_empty() {
            return false;
        }
    }
    for n in 0..nodes_of(p) {
        if g.domain(Element::Node(NodeId(n as u32))).is_empty() {
            return false;
        }
    }
    true
}

// whether a look says that all is clean
fn is_clean(look: Look) -> bool
    ensures yes { IsTrue result → look ≡ Look.Clean }
    ensures no { result ≡ false → look ≢ Look.Clean }
{
    match look {
        Look::Clean => true,
        Look::Fail(_) => false,
        Look::Cut(_, _, _) => false,
    }
}

// whether the load of each node is
fn are_loads_clean(p: &Problem, g: &Region) -> bool
    requires region { IsSized p.now.given g.now }
    ensures yes { IsTrue result → (n : ℕ) → n < node_count p.now.given → IsClean (load_watch p.now.given n) p.now.given (sets g.now) }
    ensures no { result ≡ false → ¬ AreClean p.now.given (sets g.now) }
{
    for i in 0..nodes_of(p) {
        if !is_clean(look_at_load(p, g, NodeId(i as u32))) {
            return false;
        }
    }
    true
}

// whether each node is usable where it is needed
fn are_usable_clean(p: &Problem, g: &Region) -> bool
    requires region { IsSized p.now.given g.now }
    ensures yes { IsTrue result → (n : ℕ) → n < node_count p.now.given → IsClean (usable_watch p.now.given n) p.now.given (sets g.now) }
    ensures no { result ≡ false → ¬ AreClean p.now.given (sets g.now) }
{
    for i in 0..nodes_of(p) {
        if !is_clean(look_at_usable(p, g, NodeId(i as u32))) {
            return false;
        }
    }
    true
}

// whether all constraints are
fn are_constraints_clean(p: &Problem, g: &Region) -> bool
    requires region { IsSized p.now.given g.now }
    ensures yes { IsTrue result → (c : ℕ) → c < length p.now.given.constraints → IsClean (constraint_watch p.now.given c) p.now.given (sets g.now) }
    ensures no { result ≡ false → ¬ AreClean p.now.given (sets g.now) }
{
    for c in 0..p.constraints().len() {
        if !is_clean(look_at_constraint(p, g, c as u32)) {
            return false;
        }
    }
    true
}

// whether the load of all nodes together is
fn is_total_clean(p: &Problem, g: &Region) -> bool
    requires region { IsSized p.now.given g.now }
    ensures yes { IsTrue result → IsClean (total_load_watch p.now.given) p.now.given (sets g.now) }
    ensures no { result ≡ false → ¬ AreClean p.now.given (sets g.now) }
{
    is_clean(look_at_total_load(p, g))
}

// whether all is clean at each instant
fn are_always_clean(p: &Problem, g: &Region) -> bool
    requires region { IsSized p.now.given g.now }
    ensures yes { IsTrue result → AreClean p.now.given (sets g.now) }
    ensures no { result ≡ false → ¬ AreClean p.now.given (sets g.now) }
{
    if !are_loads_clean(p, g) {
        return false;
    }
    if !are_usable_clean(p, g) {
        return false;
    }
    if !are_constraints_clean(p, g) {
        return false;
    }
    is_total_clean(p, g)
}

/// Whether each element has a choice, and with any one element set to an end of its choices no standard
/// reason refutes the region at any instant. It takes no memory.
pub fn closed(p: &Problem, g: &Region) -> bool
    requires { IsSized p.now.given g.now }
    ensures { IsTrue result ↔ IsClosed p.now.given (sets g.now) }
{
    if machines_of(p) + nodes_of(p) == 0 {
        return true;
    }
    have_choices(p, g) && are_always_clean(p, g)
}
