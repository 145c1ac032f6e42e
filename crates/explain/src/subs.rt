//! Problems with some of the constraints of another one.
ghost use Rattle.std.specs.Prelude.{All, ◌≡◌, ◌↔◌, ◌<◌, IfOk, IsTrue, length};
ghost use Rattle.explain.specs.Prelude.{all_numbers, AreNumbers, form_of as the_form_of, picked, Settled, sub, without};

use base::Memory;
use catalogue::{Constraint, Problem};
use cluster::{Cluster, Machine, Node};
use remake::{cluster_with, copy_machine, copy_node, problem_with};
use slices::form::{Form, form_of};
use std::alloc::Global;

/// Equal nodes.
fn copy_nodes(alloc: Global, nodes: &[Node]) -> Result<Vec<Node>, Memory>
    ensures { IfOk result (λ copies. copies.items ≡ nodes.now) }
{
    let mut copies = Vec::new(alloc);
    for node in nodes {
        let copy = copy_node(node)?;
        copies.push(copy)?;
    }
    Ok(copies)
}

/// Equal machines.
fn copy_machines(alloc: Global, machines: &[Machine]) -> Result<Vec<Machine>, Memory>
    ensures { IfOk result (λ copies. copies.items ≡ machines.now) }
{
    let mut copies = Vec::new(alloc);
    for machine in machines {
        let copy = copy_machine(machine)?;
        copies.push(copy)?;
    }
    Ok(copies)
}

/// An equal cluster.
fn copy_cluster(alloc: Global, cluster: &Cluster) -> Result<Cluster, Memory>
    ensures { IfOk result (λ copy. copy.given ≡ cluster.now.given) }
{
    let nodes = copy_nodes(alloc, cluster.nodes())?;
    let machines = copy_machines(alloc, cluster.machines())?;
    cluster_with(alloc, cluster, nodes, machines)
}

/// The constraints of these numbers, in the order of the numbers.
#[tactic(auto, using(crate::proofs::PickLemmas::picked_more))]
fn pick(alloc: Global, constraints: &[Constraint], kept: &[u32]) -> Result<Vec<Constraint>, Memory>
    requires { All (λ c. c < length constraints.now) kept.now }
    ensures { IfOk result (λ picks. picks.items ≡ picked constraints.now kept.now) }
{
    let mut picks = Vec::new(alloc);
    for c in kept {
        let copy = constraints[*c as usize].copy()?;
        picks.push(copy)?;
    }
    Ok(picks)
}

/// The problem with the constraints of these numbers alone, numbered anew in their order. The numbers ascend, and each is
/// one of the problem.
#[tactic(auto, using(crate::proofs::SubLemmas::sub_sound), unfolding(crate::specs::Subs::sub))]
pub fn sub_problem(alloc: Global, p: &Problem, kept: &[u32]) -> Result<Problem, Memory>
    requires { AreNumbers p.now.given kept.now }
    ensures { IfOk result (λ q. q.given ≡ sub p.now.given kept.now) }
{
    let cluster = copy_cluster(alloc, p.cluster())?;
    let constraints = pick(alloc, p.constraints(), kept)?;
    problem_with(alloc, cluster, p.horizon(), constraints)
}

/// The numbers of all constraints.
#[tactic(auto, using(base::proofs::Ranges::range_more))]
pub(crate) fn all_numbers(alloc: Global, p: &Problem) -> Result<Vec<u32>, Memory>
    ensures { IfOk result (λ all. all.items ≡ all_numbers p.now.given) }
{
    let mut all = Vec::new(alloc);
    for c in 0..p.constraints().len() {
        all.push(c as u32)?;
    }
    Ok(all)
}

/// The numbers without one of them.
pub(crate) fn without(alloc: Global, c: u32, kept: &[u32]) -> Result<Vec<u32>, Memory>
    ensures { IfOk result (λ fewer. fewer.items ≡ without c kept.now) }
{
    let mut fewer = Vec::new(alloc);
    for x in kept {
        if *x != c {
            fewer.push(*x)?;
        }
    }
    Ok(fewer)
}

/// Whether a constraint is part of the demand, of the capacity or of the legal choices.
pub(crate) fn is_settled(constraint: &Constraint) -> bool
    ensures { IsTrue result ↔ (the_form_of constraint.now ≡ Settled) }
{
    match form_of(constraint) {
        Form::Settled => true,
        Form::Apart(_)
        | Form::Allowed(_, _)
        | Form::Together(_, _)
        | Form::Ordered(_, _)
        | Form::InTurn(_)
        | Form::Bounded(_, _, _)
        | Form::Powered(_, _) => false,
    }
}
