//! The curves of the nodes: their loads at each instant at which something starts or ends.
ghost use Rattle.std.specs.Prelude.{◌≡◌, ◌^◌, ◌<◌, length, IfOk};
ghost use Rattle.picture.specs.Prelude.{AreCurves, AreLoads, choices_of, height_at, IsCurve, IsPlanOf, max_nodes, steps_of};

use crate::marks::{Curve, LoadCurve, Step};
use base::Memory;
use catalogue::Problem;
use cluster::{Instant, NodeId};
use judge::{Loads, loads_at};
use slices::Plan;
use std::alloc::Global;

/// How high the curve of a load is.
const LOAD_TALL: u64 = 18;

/// The loads of all nodes at each of some instants, by one pass over the machines for each.
pub(crate) fn tables(
    alloc: Global,
    p: &Problem,
    plan: &Plan,
    instants: &[Instant],
) -> Result<Vec<Loads>, Memory>
    requires { IsPlanOf p.now.given plan.now }
    ensures { IfOk result (λ tables. AreLoads p.now.given (choices_of plan.now) instants.now tables.items) }
{
    let mut tables = Vec::new(alloc);
    for t in instants {
        tables.push(loads_at(p, plan, *t))?;
    }
    Ok(tables)
}

/// The steps of a node for a resource.
#[tactic(auto, using(crate::proofs::Lists::map_more))]
fn steps(
    alloc: Global,
    p: &Problem,
    plan: &Plan,
    instants: &[Instant],
    tables: &[Loads],
    n: NodeId,
    r: u8,
) -> Result<Vec<Step>, Memory>
    requires tables { AreLoads p.now.given (choices_of plan.now) instants.now tables.now }
    requires node { n.0 < max_nodes }
    requires resource { r < length p.now.given.resources }
    ensures { IfOk result (λ steps. steps.items ≡ steps_of p.now.given (choices_of plan.now) n.0 r instants.now) }
{
    let mut steps = Vec::new(alloc);
    for i in 0..instants.len() {
        let load = tables[i][n.0 as usize][r as usize];
        steps.push(Step {
            at: instants[i],
            amount: load,
        })?;
    }
    Ok(steps)
}

/// The greatest amount of some steps.
pub(crate) fn peak_of(steps: &[Step]) -> u64 {
    steps.iter().fold(0, |peak, step| step.amount.max(peak))
}

/// Where an amount is drawn.
pub(crate) fn height_at(curve: &Curve, amount: u64) -> u64
    ensures { result ≡ height_at curve.now amount }
{
    let rise = amount.saturating_mul(curve.tall) / curve.most.max(1);
    curve.base.saturating_sub(rise)
}

/// The greatest of a capacity, a peak and 1: what takes the whole height of a strip.
fn most_of(p: &Problem, n: NodeId, r: u8, steps: &[Step]) -> u64
    requires node { n.0 < length p.now.given.nodes }
    requires resource { r < length p.now.given.resources }
{
    p.capacity(n, r).max(peak_of(steps)).max(1)
}

/// The curve of a node for a resource, with a load of 0 at the base.
fn curve(
    alloc: Global,
    p: &Problem,
    plan: &Plan,
    instants: &[Instant],
    tables: &[Loads],
    n: NodeId,
    r: u8,
    base: u64,
) -> Result<LoadCurve, Memory>
    requires tables { AreLoads p.now.given (choices_of plan.now) instants.now tables.now }
    requires node { n.0 < length p.now.given.nodes }
    requires resource { r < length p.now.given.resources }
    ensures resource { IfOk result (λ c. c.resource ≡ r) }
    ensures curve { IfOk result (IsCurve p.now.given (choices_of plan.now) n.0 instants.now) }
{
    let steps = steps(alloc, p, plan, instants, tables, n, r)?;
    let most = most_of(p, n, r, &steps);
    Ok(LoadCurve {
        resource: r,
        curve: Curve {
            base,
            tall: LOAD_TALL,
            most,
            steps,
        },
    })
}

/// The curves of a node, one for each resource in order, one below the other from a top on.
#[tactic(auto, using(base::proofs::Ranges::range_more))]
pub(crate) fn curves_of(
    alloc: Global,
    p: &Problem,
    plan: &Plan,
    instants: &[Instant],
    tables: &[Loads],
    n: NodeId,
    top: u64,
) -> Result<Vec<LoadCurve>, Memory>
    requires tables { AreLoads p.now.given (choices_of plan.now) instants.now tables.now }
    requires node { n.0 < length p.now.given.nodes }
    requires top { top < 2 ^ 42 }
    ensures { IfOk result (λ curves. AreCurves p.now.given (choices_of plan.now) n.0 instants.now curves.items) }
{
    let mut curves = Vec::new(alloc);
    for r in 0..p.cluster().resources().len() {
        let base = top + 26 * r as u64 + 22;
        let curve = curve(alloc, p, plan, instants, tables, n, r as u8, base)?;
        curves.push(curve)?;
    }
    Ok(curves)
}
