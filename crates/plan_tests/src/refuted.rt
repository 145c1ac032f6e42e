//! What is sure in a start region, and reasons that no certificate can name.
ghost use Rattle.std.specs.Prelude.{◌<◌, length};
ghost use Rattle.domains.specs.Sets.{sets};
ghost use Rattle.relax.specs.Areas.{AreLegal, IsSized};
ghost use Rattle.slices.specs.Elements.{machine_count, node_count};

use catalogue::Problem;
use cluster::{Element, Instant, NodeId, NodeSet, VmId};
use domains::Region;
use fixtures::problem;
use reasons::Reason;
use relax::plan::plan_of;
use relax::refutes::refutes;
use relax::start::start_region;
use relax::whole::{least_end, least_use, may_be_usable, surely_on};
use slices::plan::cost;
use std::alloc::Global;
use std::test::Fail;

/// A machine that uses 2 of the 1 that its node has, and may not leave it in time.
const INSTANCE: &str = r#"{"horizon":2,"resources":["cpu"],"durations":{"migrate":{"base":3}},
"nodes":[{"name":"n0","capacity":{"cpu":1}},{"name":"n1"}],
"machines":[{"name":"v0","state":"running","node":"n0","use":{"cpu":2}}],
"constraints":[{"kind":"online","nodes":["n0","n1"]}]}"#;

const V0: VmId = VmId(0);

const N0: NodeId = NodeId(0);

fn first_node() -> NodeSet {
    let mut set = NodeSet::new();
    set.insert(N0);
    set
}

/// What the machine surely uses on the node, whether it surely is there, whether the node may be usable, and when the
/// machine ends at the earliest.
fn look(p: &Problem, g: &Region) -> (u64, bool, bool, Option<Instant>)
    requires region { IsSized p.now.given g.now }
    requires legal { AreLegal p.now.given (sets g.now) }
    requires machine { 0 < machine_count p.now.given }
    requires node { 0 < node_count p.now.given }
    requires resource { 0 < length p.now.given.resources }
{
    (
        least_use(p, g, V0, &first_node(), 0, 2),
        surely_on(p, g, V0, N0, 2),
        may_be_usable(p, g, N0, 2),
        least_end(p, g, Element::Vm(V0)),
    )
}

#[test]
fn what_is_sure(rt: HostRuntime) -> Result<(), Fail> {
    let p = problem(rt.alloc(), INSTANCE)?;
    let g = start_region(rt.alloc(), &p)?;
    assert!(rt; p.cluster().machines().len() == 1);
    assert!(rt; p.cluster().nodes().len() == 2);
    assert!(rt; p.cluster().resources().len() == 1);
    assert_eq!(rt; look(&p, &g), (2, true, true, Some(0)));
    Ok(())
}

/// The cost of the plan that is left, if it is one.
fn cost_left(alloc: Global, p: &Problem) -> Result<Option<u64>, Fail> {
    let g = start_region(alloc, p)?;
    if !g.is_fixed() {
        return Ok(None);
    }
    let plan = plan_of(alloc, p, &g)?;
    Ok(Some(cost(p, &plan)))
}

#[test]
fn one_plan_is_left(rt: HostRuntime) -> Result<(), Fail> {
    let p = problem(rt.alloc(), INSTANCE)?;
    assert_eq!(rt; cost_left(rt.alloc(), &p)?, Some(0));
    Ok(())
}

fn is_refuted(alloc: Global, reason: &Reason) -> Result<bool, Fail> {
    let p = problem(alloc, INSTANCE)?;
    let g = start_region(alloc, &p)?;
    Ok(refutes(&p, None, &g, reason))
}

#[test]
fn no_such_reason(rt: HostRuntime) -> Result<(), Fail> {
    let alloc = rt.alloc();
    assert!(rt; is_refuted(alloc, &Reason::Load(0, 0, first_node()))?);
    assert!(rt; !is_refuted(alloc, &Reason::Load(0, 0, NodeSet::new()))?);
    assert!(rt; !is_refuted(alloc, &Reason::Load(0, 1, first_node()))?);
    assert!(rt; !is_refuted(alloc, &Reason::Place(9, 2, V0, N0))?);
    Ok(())
}
