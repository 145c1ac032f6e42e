//! A sum that follows a trail: changes of each sort, a mark, and back.
ghost use Rattle.std.specs.Prelude.{◌≡◌, ◌<◌, ◌≤◌, IfOk, OnOk, length};
ghost use Rattle.catalogue.specs.Instance.{IsElement};
ghost use Rattle.domains.specs.Sets.{sets};
ghost use Rattle.reasons.specs.Sure.{least_cost as least_cost_of};
ghost use Rattle.relax.specs.Areas.{AreLegal, IsSized};
ghost use Rattle.slices.specs.Elements.{machine_count};

use bound::lower_bound::LowerBound;
use catalogue::Problem;
use cluster::{Element, NodeId, Place, VmId};
use domains::{Change, Domain, Part, Side};
use fixtures::problem;
use relax::start::start_region;
use std::alloc::Global;
use std::test::Fail;
use trail::Trail;

const THERE: Place = Place::At(NodeId(1));

/// A machine on node 0, which may move to node 1 or stay; a migration lasts 3.
const INSTANCE: &str = r#"{"horizon":20,"resources":[],"durations":{"migrate":{"base":3}},
"nodes":[{"name":"n0"},{"name":"n1"}],
"machines":[{"name":"v0","state":"running","node":"n0"}],"constraints":[]}"#;

/// Narrows the machine, and tells the sum of it.
fn narrow(
    p: &Problem,
    trail: &mut Trail,
    bound: &mut LowerBound,
    kept: &mut Domain,
    part: Part,
    side: Side,
) -> Result<u64, Fail>
    requires machine { 0 < machine_count p.now.given }
    requires sized { IsSized p.now.given trail.old.region }
    requires legal { AreLegal p.now.given (sets trail.old.region) }
    requires agreed { bound.old.top ≡ least_cost_of p.now.given (sets trail.old.region) }
    ensures sized { OnOk result (IsSized p.now.given trail.new.region) }
    ensures legal { OnOk result (AreLegal p.now.given (sets trail.new.region)) }
    ensures agreed { OnOk result (bound.new.top ≡ least_cost_of p.now.given (sets trail.new.region)) }
    ensures older { bound.new.older ≡ bound.old.older }
{
    let element = Element::Vm(VmId(0));
    let change = Change {
        element,
        part,
        side,
    };
    let before = trail.apply_told(change, kept)?;
    bound.told(p, trail.region(), element, before, kept);
    Ok(bound.sum())
}

/// The sums after a mark and three changes, and after going back.
fn sums(alloc: Global, p: &Problem) -> Result<[u64; 5], Fail>
    requires { 0 < machine_count p.now.given }
{
    let region = start_region(alloc, p)?;
    let mut bound = LowerBound::new(alloc, p, &region)?;
    let mut trail = Trail::new(alloc, region);
    let mut kept = Domain::new(alloc, false);
    let first = bound.sum();
    bound.mark()?;
    let moves = narrow(
        p,
        &mut trail,
        &mut bound,
        &mut kept,
        Part::Idle,
        Side::Outside,
    )?;
    let later = narrow(
        p,
        &mut trail,
        &mut bound,
        &mut kept,
        Part::Upto(THERE, 4),
        Side::Outside,
    )?;
    let last = narrow(
        p,
        &mut trail,
        &mut bound,
        &mut kept,
        Part::From(THERE, 9),
        Side::Inside,
    )?;
    bound.back();
    Ok([first, moves, later, last, bound.sum()])
}

#[test]
fn follows_a_trail(rt: HostRuntime) -> Result<(), Fail> {
    let p = problem(rt.alloc(), INSTANCE)?;
    if !p.cluster().machines().is_empty() {
        assert_eq!(&rt; sums(rt.alloc(), &p)?, [0, 3, 8, 12, 0]);
    }
    Ok(())
}
