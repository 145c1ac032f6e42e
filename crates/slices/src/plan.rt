//! Plans: one legal choice for each element.
ghost use Rattle.std.specs.Prelude.{◌≡◌, ◌↔◌, ◌≤◌, IsTrue};
ghost use Rattle.catalogue.specs.Instance.{IsElement};
ghost use Rattle.slices.specs.Actions.{end_of};
ghost use Rattle.slices.specs.Limits.{max_cost};
ghost use Rattle.slices.specs.Plans.{choices_of, parted, HasElement, IsPlanOf};
ghost use Rattle.slices.specs.Costs.{cost_of};

use crate::actions::{end_of, is_legal};
use catalogue::Problem;
use cluster::{Choice, Element, Instant, NodeId, VmId};
use std::marker::Model;

/// One choice for each element.
///
/// Contracts see two lists, the machines' choices and the nodes'.
#[derive(Drop)]
pub struct Plan {
    machine_count: usize,
    choices: Vec<Choice>,
}

impl Model for Plan {
    ghost use Rattle.std.specs.Prelude.{◌≤◌, length, take, drop};
    ghost use Rattle.slices.specs.Plans.{PlanChoices};

    ghost Value = { PlanChoices };

    ghost view = { λ a. record { machines = take a.machine_count a.choices.items; nodes = drop a.machine_count a.choices.items } };

    ghost invariant = { λ a. a.machine_count ≤ length a.choices.items };
}

impl Plan {
    /// The plan of these choices, one legal choice for each element in order, machines first.
    pub fn idle_or(p: &Problem, choices: Vec<Choice>) -> Plan
        requires { IsPlanOf p.now.given (parted p.now.given choices.items) }
        ensures plan { result ≡ parted p.now.given choices.items }
    {
        Plan {
            machine_count: p.cluster().machines().len(),
            choices,
        }
    }

    /// The choices of the machines in order.
    pub fn machines(&self) -> &[Choice]
        ensures { result.now ≡ self.now.machines }
    {
        &self.choices[..self.machine_count]
    }

    /// The choices of the nodes in order.
    pub fn nodes(&self) -> &[Choice]
        ensures { result.now ≡ self.now.nodes }
    {
        &self.choices[self.machine_count..]
    }

    /// The choice of an element.
    pub fn choice(&self, e: Element) -> Choice
        requires { HasElement self.now e }
        ensures { result ≡ choices_of self.now e }
    {
        match e {
            Element::Vm(v) => self.machines()[v.0 as usize],
            Element::Node(n) => self.nodes()[n.0 as usize],
        }
    }
}

/// Whether a list of choices is a plan: one legal choice for each element in order, machines first.
pub fn is_plan(p: &Problem, choices: &[Choice]) -> bool
    ensures { IsTrue result ↔ IsPlanOf p.now.given (parted p.now.given choices.now) }
{
    if choices.len() != p.cluster().element_count() {
        return false;
    }
    for x in 0..choices.len() {
        if !is_legal(p, p.cluster().element(x), choices[x]) {
            return false;
        }
    }
    true
}

/// The instant at which the action of an element of a plan ends, 0 where it has none.
pub fn end_in(p: &Problem, plan: &Plan, e: Element) -> Instant
    requires plan { IsPlanOf p.now.given plan.now }
    requires element { IsElement p.now.given e }
    ensures end { result ≡ end_of p.now.given e (choices_of plan.now e) }
    ensures in_time { result ≤ p.now.given.horizon }
{
    end_of(p, e, plan.choice(e))
}

/// The sum of the ends of all actions.
pub fn cost(p: &Problem, plan: &Plan) -> u64
    requires { IsPlanOf p.now.given plan.now }
    ensures cost { result ≡ cost_of p.now.given (choices_of plan.now) }
    ensures small { result ≤ max_cost }
{
    let mut total = 0;
    for v in 0..p.cluster().machines().len() {
        total += u64::from(end_in(p, plan, Element::Vm(VmId(v as u32))));
    }
    for n in 0..p.cluster().nodes().len() {
        total += u64::from(end_in(p, plan, Element::Node(NodeId(n as u32))));
    }
    total
}
