//! Which step of a problem the text of a step names.
ghost use Rattle.std.specs.Prelude.{◌≡◌, ◌<◌, IfSome};
ghost use Rattle.cert_check.specs.Prelude.{as_instant as the_instant, first_nodes, named_constraint, named_element, named_hall, named_load, named_machine, named_node, named_nodes, named_pair, named_part, named_place, named_reason, named_resource, named_stay, named_step, named_use, no_nodes, node_added, node_count, nodes_added};

use catalogue::Problem;
use cert_text::text::{NodesText, PartText, ReasonText, StepText};
use cluster::{Element, Instant, Name, NodeId, NodeSet, Place, VmId};
use domains::Part;
use reasons::Reason;
use trees::Step;

/// The step of a text; None exactly where one of its names is none of the problem's, or not of the
/// sort that its place wants, a constraint's number is none of the problem's, or a list of nodes has
/// one twice.
#[tactic(auto, unfolding(crate::specs::Names::named_step))]
pub fn step_of(p: &Problem, text: &StepText) -> Option<Step>
    ensures { result ≡ named_step p.now.given text.now }
{
    match text {
        StepText::Decide(e, part) => Some(Step::Decide(element_of(p, e)?, part_of(p, part)?)),
        StepText::Cut(e, part, reason) => Some(Step::Cut(
            element_of(p, e)?,
            part_of(p, part)?,
            reason_of(p, reason)?,
        )),
        StepText::Fail(reason) => Some(Step::Fail(reason_of(p, reason)?)),
        StepText::Plan(cost) => Some(Step::Plan(*cost)),
        StepText::Left => Some(Step::Left),
    }
}

// the element of a name
#[tactic(auto, unfolding(crate::specs::Names::named_element))]
fn element_of(p: &Problem, name: &Name) -> Option<Element>
    ensures { result ≡ named_element p.now.given name.now }
{
    p.cluster().find(name.as_text().as_bytes())
}

// the machine of a name
#[tactic(auto, unfolding(crate::specs::Names::named_machine))]
fn machine_of(p: &Problem, name: &Name) -> Option<VmId>
    ensures { result ≡ named_machine p.now.given name.now }
{
    match element_of(p, name)? {
        Element::Vm(v) => Some(v),
        Element::Node(_) => None,
    }
}

// the node of a name
#[tactic(auto, unfolding(crate::specs::Names::named_node, crate::specs::Names::named_element))]
fn node_of(p: &Problem, name: &Name) -> Option<NodeId>
    ensures node { result ≡ named_node p.now.given name.now }
    ensures there { IfSome result (λ n. n.0 < node_count p.now.given) }
{
    match p.cluster().find(name.as_text().as_bytes())? {
        Element::Vm(_) => None,
        Element::Node(n) => Some(n),
    }
}

// the resource of a name
#[tactic(auto, unfolding(crate::specs::Names::named_resource))]
fn resource_of(p: &Problem, name: &Name) -> Option<u8>
    ensures { result ≡ named_resource p.now.given name.now }
{
    p.cluster().resource(name.as_text().as_bytes())
}

// the constraint of a number
#[tactic(auto, unfolding(crate::specs::Names::named_constraint))]
fn constraint_of(p: &Problem, number: u64) -> Option<u32>
    ensures { result ≡ named_constraint p.now.given number }
{
    if number < p.constraints().len() as u64 {
        Some(number as u32)
    } else {
        None
    }
}

// an instant that is past each horizon where it is more than 32 bits hold
#[tactic(auto, unfolding(crate::specs::Names::as_instant))]
fn instant_of(t: u64) -> Instant
    ensures { result ≡ the_instant t }
{
    t.min(u64::from(u32::MAX)) as u32
}

// the place of a name, nowhere where there is none
#[tactic(auto, unfolding(crate::specs::Names::named_place))]
fn place_of(p: &Problem, name: &Option<Name>) -> Option<Place>
    ensures { result ≡ named_place p.now.given name.now }
{
    match name {
        None => Some(Place::Nowhere),
        Some(name) => Some(Place::At(node_of(p, name)?)),
    }
}

// the part of a text
#[tactic(auto, unfolding(crate::specs::Names::named_part))]
fn part_of(p: &Problem, text: &PartText) -> Option<Part>
    ensures { result ≡ named_part p.now.given text.now }
{
    match text {
        PartText::Idle => Some(Part::Idle),
        PartText::Upto(place, start) => Some(Part::Upto(place_of(p, place)?, instant_of(*start))),
        PartText::From(place, start) => Some(Part::From(place_of(p, place)?, instant_of(*start))),
    }
}

// all nodes of the problem
#[tactic(auto, unfolding(crate::specs::Names::first_nodes))]
fn all_nodes(p: &Problem) -> NodeSet
    ensures { result ≡ first_nodes (node_count p.now.given) }
{
    let mut set = NodeSet::new();
    for n in 0..p.cluster().nodes().len() {
        set.insert(NodeId(n as u32));
    }
    set
}

// a set with one more node, None where it has that already
#[tactic(auto, unfolding(crate::specs::Names::node_added))]
fn with_one_more(p: &Problem, set: NodeSet, name: &Name) -> Option<NodeSet>
    ensures { result ≡ node_added p.now.given set name.now }
{
    let n = node_of(p, name)?;
    if set.has(n) {
        return None;
    }
    let mut more = set;
    more.insert(n);
    Some(more)
}

// the nodes of these names, None where one stands twice
#[tactic(auto, unfolding(crate::specs::Names::nodes_added))]
fn listed(p: &Problem, names: &[Name]) -> Option<NodeSet>
    ensures { result ≡ nodes_added p.now.given no_nodes names.now }
{
    let mut set = NodeSet::new();
    for name in names {
        set = with_one_more(p, set, name)?;
    }
    Some(set)
}

// the nodes of a text
#[tactic(auto, unfolding(crate::specs::Names::named_nodes))]
fn nodes_of(p: &Problem, text: &NodesText) -> Option<NodeSet>
    ensures { result ≡ named_nodes p.now.given text.now }
{
    match text {
        NodesText::All => Some(all_nodes(p)),
        NodesText::Listed(names) => listed(p, names.items()),
    }
}

// the reason of a text
#[tactic(auto, unfolding(crate::specs::Names::named_reason))]
fn reason_of(p: &Problem, text: &ReasonText) -> Option<Reason>
    ensures { result ≡ named_reason p.now.given text.now }
{
    match text {
        ReasonText::Empty(e) => Some(Reason::Empty(element_of(p, e)?)),
        ReasonText::Bound => Some(Reason::Bound),
        ReasonText::Load(t, r, nodes) => load_of(p, *t, r, nodes),
        ReasonText::Pair(c, t, v, w, n) => pair_of(p, *c, *t, v, w, n),
        ReasonText::Place(c, t, v, n) => stay_of(p, *c, *t, v, n),
        ReasonText::Group(c, t) => Some(Reason::Group(constraint_of(p, *c)?, instant_of(*t))),
        ReasonText::SetLoad(c, t) => Some(Reason::SetLoad(constraint_of(p, *c)?, instant_of(*t))),
        ReasonText::Power(c, t) => Some(Reason::Power(constraint_of(p, *c)?, instant_of(*t))),
        ReasonText::Usable(t, v, n) => use_of(p, *t, v, n),
        ReasonText::Hall(c, t, nodes) => hall_of(p, *c, *t, nodes),
    }
}

#[tactic(auto, unfolding(crate::specs::Names::named_load))]
fn load_of(p: &Problem, t: u64, r: &Name, nodes: &NodesText) -> Option<Reason>
    ensures { result ≡ named_load p.now.given t r.now nodes.now }
{
    let resource = resource_of(p, r)?;
    let set = nodes_of(p, nodes)?;
    Some(Reason::Load(instant_of(t), resource, set))
}

#[tactic(auto, unfolding(crate::specs::Names::named_pair))]
fn pair_of(p: &Problem, c: u64, t: u64, v: &Name, w: &Name, n: &Name) -> Option<Reason>
    ensures { result ≡ named_pair p.now.given c t v.now w.now n.now }
{
    let rule = constraint_of(p, c)?;
    let one = machine_of(p, v)?;
    let other = machine_of(p, w)?;
    let at = node_of(p, n)?;
    Some(Reason::Pair(rule, instant_of(t), one, other, at))
}

#[tactic(auto, unfolding(crate::specs::Names::named_stay))]
fn stay_of(p: &Problem, c: u64, t: u64, v: &Name, n: &Name) -> Option<Reason>
    ensures { result ≡ named_stay p.now.given c t v.now n.now }
{
    let rule = constraint_of(p, c)?;
    let one = machine_of(p, v)?;
    let at = node_of(p, n)?;
    Some(Reason::Place(rule, instant_of(t), one, at))
}

#[tactic(auto, unfolding(crate::specs::Names::named_use))]
fn use_of(p: &Problem, t: u64, v: &Name, n: &Name) -> Option<Reason>
    ensures { result ≡ named_use p.now.given t v.now n.now }
{
    let one = machine_of(p, v)?;
    let at = node_of(p, n)?;
    Some(Reason::Usable(instant_of(t), one, at))
}

#[tactic(auto, unfolding(crate::specs::Names::named_hall))]
fn hall_of(p: &Problem, c: u64, t: u64, nodes: &NodesText) -> Option<Reason>
    ensures { result ≡ named_hall p.now.given c t nodes.now }
{
    let rule = constraint_of(p, c)?;
    let set = nodes_of(p, nodes)?;
    Some(Reason::Hall(rule, instant_of(t), set))
}
