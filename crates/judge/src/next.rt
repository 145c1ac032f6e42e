//! The next start after an instant: of all elements, or of those alone that matter to a form.
ghost use Rattle.std.specs.Prelude.{◌≡◌, ◌+◌, ◌<◌, ◌≤◌, true, length, nat_lt, IsTrue};
ghost use Rattle.std.specs.List.{list_all};
ghost use Rattle.judge.specs.Prelude.{Apart, AreMachines, AreNodes, choices_of, form_seen, has_node, IsElement, IsInSome, IsMember, IsNext, IsPlanOf, IsSound, machine_count, Matters, node, node_count, separated, separation_seen};

use crate::standing::{machines_of, nodes_of};
use catalogue::{Problem, Vms};
use cluster::{Element, Instant, NodeId, NodeSet, VmId};
use slices::actions::start;
use slices::form::Separation;
use slices::{Form, Plan};

/// The start of an element's action, where that is after t and before next, or else next.
fn sooner(p: &Problem, plan: &Plan, e: Element, t: Instant, next: u32) -> u32
    requires plan { IsPlanOf p.now.given plan.now }
    requires element { IsElement p.now.given e }
    requires later { t < next }
    ensures { IsNext (choices_of plan.now) (λ x. x ≡ e) t next result }
{
    match start(plan.choice(e)) {
        Some(at) => if t < at && at < next { at } else { next },
        None => next,
    }
}

/// The same of the machines of a list.
fn next_member(p: &Problem, plan: &Plan, machines: &[VmId], t: Instant, next: u32) -> u32
    requires plan { IsPlanOf p.now.given plan.now }
    requires machines { list_all (λ x. nat_lt x.0 (machine_count p.now.given)) machines.now ≡ true }
    requires later { t < next }
    ensures { IsNext (choices_of plan.now) (AreMachines (IsMember machines.now)) t next result }
{
    let mut least = next;
    for v in machines {
        least = sooner(p, plan, Element::Vm(*v), t, least);
    }
    least
}

/// The same of the machines of some parts.
fn next_in_parts(p: &Problem, plan: &Plan, parts: &[Vms], t: Instant, next: u32) -> u32
    requires plan { IsPlanOf p.now.given plan.now }
    requires machines { list_all (list_all (λ x. nat_lt x.0 (machine_count p.now.given))) parts.now ≡ true }
    requires later { t < next }
    ensures { IsNext (choices_of plan.now) (AreMachines (IsInSome parts.now (length parts.now))) t next result }
{
    let mut least = next;
    for i in 0..parts.len() {
        least = next_member(p, plan, parts[i].items(), t, least);
    }
    least
}

/// The same of all machines.
fn next_machine(p: &Problem, plan: &Plan, t: Instant, next: u32) -> u32
    requires plan { IsPlanOf p.now.given plan.now }
    requires later { t < next }
    ensures { IsNext (choices_of plan.now) (AreMachines (λ v. v < machine_count p.now.given)) t next result }
{
    let mut least = next;
    for v in 0..machines_of(p) {
        least = sooner(p, plan, Element::Vm(VmId(v as u32)), t, least);
    }
    least
}

/// The same of a node, if it is in the set.
fn sooner_in(p: &Problem, plan: &Plan, nodes: &NodeSet, n: NodeId, t: Instant, next: u32) -> u32
    requires plan { IsPlanOf p.now.given plan.now }
    requires node { n.0 < node_count p.now.given }
    requires later { t < next }
    ensures { IsNext (choices_of plan.now) (λ x. (x ≡ node n.0) × IsTrue (has_node nodes.now n.0)) t next result }
{
    if nodes.has(n) {
        sooner(p, plan, Element::Node(n), t, next)
    } else {
        next
    }
}

/// The same of the nodes of a set.
fn next_node(p: &Problem, plan: &Plan, nodes: &NodeSet, t: Instant, next: u32) -> u32
    requires plan { IsPlanOf p.now.given plan.now }
    requires later { t < next }
    ensures { IsNext (choices_of plan.now) (AreNodes (λ n. (n < node_count p.now.given) × IsTrue (has_node nodes.now n))) t next result }
{
    let mut least = next;
    for i in 0..nodes_of(p) {
        least = sooner_in(p, plan, nodes, NodeId(i as u32), t, least);
    }
    least
}

/// The same of the machines that can come together with one that they are kept apart from.
fn next_apart(p: &Problem, plan: &Plan, separation: &Separation, t: Instant, next: u32) -> u32
    requires plan { IsPlanOf p.now.given plan.now }
    requires machines { list_all (λ x. nat_lt x.0 (machine_count p.now.given)) (separated (separation_seen separation.now)) ≡ true }
    requires later { t < next }
    ensures { IsNext (choices_of plan.now) (Matters p.now.given (Apart (separation_seen separation.now))) t next result }
{
    match separation {
        Separation::Each(machines) => next_member(p, plan, machines.items(), t, next),
        Separation::Between(parts) => next_in_parts(p, plan, parts.items(), t, next),
        Separation::FromOthers(_) => next_machine(p, plan, t, next),
    }
}

/// The least start after t of an element that matters to the form, or one past the horizon where
/// there is none.
pub(crate) fn next_that_matters(p: &Problem, plan: &Plan, form: &Form, t: Instant) -> u32
    requires plan { IsPlanOf p.now.given plan.now }
    requires sound { IsSound p.now.given (form_seen form.now) }
    requires in_time { t ≤ p.now.given.horizon }
    ensures { IsNext (choices_of plan.now) (Matters p.now.given (form_seen form.now)) t (p.now.given.horizon + 1) result }
{
    let past = p.horizon() + 1;
    match form {
        Form::Apart(separation) => next_apart(p, plan, separation, t, past),
        Form::Allowed(machines, _) | Form::Together(machines, _) | Form::InTurn(machines) => {
            next_member(p, plan, machines.items(), t, past)
        }
        Form::Ordered(_, after) => sooner(p, plan, Element::Vm(*after), t, past),
        Form::Bounded(..) => next_machine(p, plan, t, past),
        Form::Powered(nodes, _) => next_node(p, plan, nodes, t, past),
        Form::Settled => past,
    }
}

/// The least start after t of any element, or one past the horizon where there is none.
pub(crate) fn next_start(p: &Problem, plan: &Plan, t: Instant) -> u32
    requires plan { IsPlanOf p.now.given plan.now }
    requires in_time { t ≤ p.now.given.horizon }
    ensures { IsNext (choices_of plan.now) (IsElement p.now.given) t (p.now.given.horizon + 1) result }
{
    let mut least = p.horizon() + 1;
    for x in 0..p.cluster().element_count() {
        least = sooner(p, plan, p.cluster().element(x), t, least);
    }
    least
}
