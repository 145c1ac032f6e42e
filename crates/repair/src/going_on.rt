//! Going on after a failure: the problem that is left once some actions have ended, and a valid plan of it.
ghost use Rattle.std.specs.Prelude.{◌≡◌, ◌≢◌, ℕ, ◌<◌, length, slice_index_or, IfOk, MatchOption};
ghost use Rattle.cluster.specs.declared.ids.Element.{Element as AnElement};
ghost use Rattle.repair.specs.Prelude.{AreChanged, choices_of, done_choices, element_at, element_count, inventory_of, IsElement, IsFirst, IsMonitor, IsRest, machine_after, node, node_after, phases_of, rest_choices, RestGives, vm};
ghost use Rattle.executor.specs.declared.phase.Phase.TheVariants as Phase;
ghost use Rattle.cluster.specs.declared.choices.Choice.TheVariants as Choice;

use crate::ended::{machine_after, node_after};
use crate::faults::RestFault;
use base::Memory;
use catalogue::Problem;
use cluster::{Choice, Element, Machine, Node, NodeId, VmId};
use executor::{Monitor, Phase};
use remake::{cluster_with, copy_constraints, problem_with};
use slices::Plan;
use std::alloc::Global;

/// The first element whose action runs.
fn first_running(p: &Problem, m: &Monitor<'_>) -> Option<Element>
    requires { m.now.problem ≡ p.now }
    ensures { MatchOption result ((e : AnElement) → phases_of m.now e ≢ Phase.Running) (IsFirst p.now.given (λ x. phases_of m.now x ≡ Phase.Running)) }
{
    m.known();
    for x in 0..p.cluster().element_count() {
        let e = p.cluster().element(x);
        if let Phase::Running = m.phase(e) {
            return Some(e);
        }
    }
    None
}

/// The choice of an element whose action has ended, and Idle of all others.
fn done_choice(p: &Problem, plan: &Plan, m: &Monitor<'_>, e: Element) -> Choice
    requires problem { m.now.problem ≡ p.now }
    requires plan { m.now.plan ≡ plan.now }
    requires element { IsElement p.now.given e }
    ensures { result ≡ done_choices (choices_of plan.now) (phases_of m.now) e }
{
    m.known();
    match m.phase(e) {
        Phase::Ended => plan.choice(e),
        Phase::None | Phase::Waiting | Phase::Running | Phase::Failed => Choice::Idle,
    }
}

/// Idle for an element whose action has ended, and the choice of all others.
fn rest_choice(p: &Problem, plan: &Plan, m: &Monitor<'_>, e: Element) -> Choice
    requires problem { m.now.problem ≡ p.now }
    requires plan { m.now.plan ≡ plan.now }
    requires element { IsElement p.now.given e }
    ensures { result ≡ rest_choices (choices_of plan.now) (phases_of m.now) e }
{
    m.known();
    match m.phase(e) {
        Phase::Ended => Choice::Idle,
        Phase::None | Phase::Waiting | Phase::Running | Phase::Failed => plan.choice(e),
    }
}

/// The machines that are left.
fn rest_machines(
    alloc: Global,
    p: &Problem,
    plan: &Plan,
    m: &Monitor<'_>,
) -> Result<Vec<Machine>, Memory>
    requires problem { m.now.problem ≡ p.now }
    requires plan { m.now.plan ≡ plan.now }
    ensures { let done = done_choices (choices_of plan.now) (phases_of m.now) in
        IfOk result (λ machines. AreChanged (λ v. machine_after p.now.given v (done (vm v))) p.now.given.machines machines.items) }
{
    let mut machines = Vec::new(alloc);
    for i in 0..p.cluster().machines().len() {
        let v = VmId(i as u32);
        machines.push(machine_after(p, v, done_choice(p, plan, m, Element::Vm(v)))?)?;
    }
    Ok(machines)
}

/// The nodes that are left.
fn rest_nodes(alloc: Global, p: &Problem, plan: &Plan, m: &Monitor<'_>) -> Result<Vec<Node>, Memory>
    requires problem { m.now.problem ≡ p.now }
    requires plan { m.now.plan ≡ plan.now }
    ensures { let done = done_choices (choices_of plan.now) (phases_of m.now) in
        IfOk result (λ nodes. AreChanged (λ n. node_after (done (node n))) p.now.given.nodes nodes.items) }
{
    let mut nodes = Vec::new(alloc);
    for i in 0..p.cluster().nodes().len() {
        let n = NodeId(i as u32);
        nodes.push(node_after(p, n, done_choice(p, plan, m, Element::Node(n)))?)?;
    }
    Ok(nodes)
}

/// The problem that is left. That it is sound, its hosts online among all else, is why no part of it is refused.
fn rest_problem(alloc: Global, p: &Problem, plan: &Plan, m: &Monitor<'_>) -> Result<Problem, Memory>
    requires problem { m.now.problem ≡ p.now }
    requires plan { m.now.plan ≡ plan.now }
    ensures { IfOk result (λ q. IsRest p.now.given (choices_of plan.now) (phases_of m.now) q.given) }
{
    m.known();
    let nodes = rest_nodes(alloc, p, plan, m)?;
    let machines = rest_machines(alloc, p, plan, m)?;
    let constraints = copy_constraints(alloc, p.constraints())?;
    let cluster = cluster_with(alloc, p.cluster(), nodes, machines)?;
    problem_with(alloc, cluster, p.horizon(), constraints)
}

/// The choices that are left, in the order of the elements.
fn rest_choices(
    alloc: Global,
    p: &Problem,
    plan: &Plan,
    m: &Monitor<'_>,
) -> Result<Vec<Choice>, Memory>
    requires problem { m.now.problem ≡ p.now }
    requires plan { m.now.plan ≡ plan.now }
    ensures count { IfOk result (λ choices. length choices.items ≡ element_count (inventory_of p.now.given)) }
    ensures each { IfOk result (λ choices. (x : ℕ) → x < element_count (inventory_of p.now.given)
        → slice_index_or choices.items x Choice.Idle ≡ rest_choices (choices_of plan.now) (phases_of m.now) (element_at (inventory_of p.now.given) x)) }
{
    let mut choices = Vec::new(alloc);
    for x in 0..p.cluster().element_count() {
        choices.push(rest_choice(p, plan, m, p.cluster().element(x)))?;
    }
    Ok(choices)
}

/// What is left of a problem and its plan, whatever has failed: the problem after what has ended, and a valid plan
/// of it with the choices of all else, at their old starts.
///
/// `Running` exactly where an action runs, with the first such; `Memory` for want of memory, and only where none runs.
pub fn rest(
    alloc: Global,
    p: &Problem,
    plan: &Plan,
    m: &Monitor<'_>,
) -> Result<(Problem, Plan), RestFault>
    requires problem { m.now.problem ≡ p.now }
    requires plan { m.now.plan ≡ plan.now }
    ensures { RestGives p.now.given (choices_of plan.now) (phases_of m.now) result }
{
    m.known();
    if let Some(e) = first_running(p, m) {
        return Err(RestFault::Running(e));
    }
    let problem = rest_problem(alloc, p, plan, m)?;
    let choices = rest_choices(alloc, p, plan, m)?;
    let after = Plan::idle_or(&problem, choices);
    Ok((problem, after))
}
