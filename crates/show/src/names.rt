//! What the lines name: elements, and the nodes where they are and where they go.
ghost use Rattle.std.specs.Prelude.{◌≡◌, ◌↔◌, IsTrue};
ghost use Rattle.show.specs.Prelude.{host_of_element, IsElement, kind_text, name_of, inventory_of, node_name, target_of};

use catalogue::Problem;
use cluster::{Choice, Element, NodeId, Place};
use slices::actions::kind_of;
use slices::elements::{has_element, state_of};

/// The name of an element; that of one that is not listed is empty.
#[tactic(auto, using(crate::proofs::NameLemmas::past_rules))]
pub fn name(p: &Problem, e: Element) -> &str
    ensures { result.now ≡ name_of (inventory_of p.now.given) e }
{
    if has_element(p, e) {
        p.cluster().name(e)
    } else {
        ""
    }
}

/// The name of a node, or `-` where there is none.
pub fn node_name(p: &Problem, node: Option<NodeId>) -> &str
    ensures { result.now ≡ node_name p.now.given node }
{
    match node {
        Some(n) => name(p, Element::Node(n)),
        None => "-",
    }
}

/// The node on which an element runs, or on which its image lies, at present. A node is on none.
pub fn host_of(p: &Problem, e: Element) -> Option<NodeId>
    requires { IsElement p.now.given e }
    ensures { result ≡ host_of_element p.now.given e }
{
    match e {
        Element::Vm(v) => state_of(p, v).host(),
        Element::Node(_) => None,
    }
}

/// The node to which a choice takes its element, if it takes it to one.
pub fn target_of(choice: Choice) -> Option<NodeId>
    ensures { result ≡ target_of choice }
{
    match choice {
        Choice::Idle => None,
        Choice::Act { place, start: _ } => match place {
            Place::Nowhere => None,
            Place::At(n) => Some(n),
        },
    }
}

/// The word of the kind of a choice's action, or `-` where there is none.
pub fn kind_text(p: &Problem, e: Element, choice: Choice) -> &'static str
    requires { IsElement p.now.given e }
    ensures { result.now ≡ kind_text p.now.given e choice }
{
    match choice {
        Choice::Idle => "-",
        Choice::Act { place, start: _ } => match kind_of(p, e, place) {
            Some(kind) => kind.word(),
            None => "-",
        },
    }
}
