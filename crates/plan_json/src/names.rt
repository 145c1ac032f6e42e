//! The names of elements.

ghost use Rattle.std.specs.Prelude.{◌≡◌, ◌↔◌, IsTrue};
ghost use Rattle.cluster.specs.Inventory.{IsListed, name_of};

use cluster::{Cluster, Element};

fn is_listed(cluster: &Cluster, e: Element) -> bool
    ensures { IsTrue result ↔ IsListed cluster.now.given e }
{
    match e {
        Element::Vm(v) => (v.0 as usize) < cluster.machines().len(),
        Element::Node(n) => (n.0 as usize) < cluster.nodes().len(),
    }
}

/// The name of an element; that of one that is not listed is empty.
#[tactic(auto, using(crate::proofs::NameLemmas::past_rules))]
pub(crate) fn name(cluster: &Cluster, e: Element) -> &str
    ensures { result.now ≡ name_of cluster.now.given e }
{
    if is_listed(cluster, e) {
        cluster.name(e)
    } else {
        ""
    }
}
