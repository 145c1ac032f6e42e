//! The profile of a node while two machines change places, from the first region on and back to it.
ghost use Rattle.std.specs.Prelude.{◌≡◌, ◌<◌, length, OnOk};
ghost use Rattle.catalogue.specs.Instance.{IsElement};
ghost use Rattle.domains.specs.Sets.{sets};
ghost use Rattle.relax.specs.Areas.{IsSized};
ghost use Rattle.profiles.specs.NodeLoad.{IsProfile};

use catalogue::Problem;
use cluster::{Element, Instant, NodeId, Place, VmId};
use domains::{Before, Change, Domain, Part, Region, Side};
use fixtures::problem;
use profiles::node_load::profile::Profile;
use relax::start::start_region;
use std::alloc::Global;
use std::process::Abort;
use std::test::Fail;

const V0: Element = Element::Vm(VmId(0));

/// Three nodes of capacity 4, of which two have a machine of 3 each; a migration lasts 3.
const INSTANCE: &str = r#"{"horizon":20,"resources":["cpu"],"durations":{"migrate":{"base":3}},
"nodes":[{"name":"n0","capacity":{"cpu":4}},{"name":"n1","capacity":{"cpu":4}},
{"name":"n2","capacity":{"cpu":4}}],
"machines":[{"name":"v0","state":"running","node":"n0","use":{"cpu":3}},
{"name":"v1","state":"running","node":"n1","use":{"cpu":3}}],"constraints":[]}"#;

/// Takes choices from the region, and tells the profile.
#[tactic(auto, using(profiles::proofs::Public::before_law))]
fn cut(
    p: &Problem,
    g: &mut Region,
    profile: &mut Profile,
    x: Element,
    part: Part,
    kept: &Domain,
) -> Result<(), Fail>
    requires sized { IsSized p.now.given g.old }
    requires element { IsElement p.now.given x }
    requires right { IsProfile p.now.given (sets g.old) profile.old }
    ensures sized { IsSized p.now.given g.new }
    ensures right { OnOk result (IsProfile p.now.given (sets g.new) profile.new) }
    ensures older { profile.new.table.older ≡ profile.old.table.older }
{
    let lost = g.cut(x, part);
    let change = Change {
        element: x,
        part,
        side: Side::Outside,
    };
    profile.told(p, g, change, Before::Lost(lost), kept)?;
    Ok(())
}

/// The element may neither stay nor go to node 2.
fn send(
    alloc: Global,
    p: &Problem,
    g: &mut Region,
    profile: &mut Profile,
    x: Element,
) -> Result<(), Fail>
    requires sized { IsSized p.now.given g.old }
    requires element { IsElement p.now.given x }
    requires right { IsProfile p.now.given (sets g.old) profile.old }
    ensures { profile.new.table.older ≡ profile.old.table.older }
{
    let kept = Domain::new(alloc, false);
    cut(p, g, profile, x, Part::Idle, &kept)?;
    let elsewhere = Part::From(Place::At(NodeId(2)), 0);
    cut(p, g, profile, x, elsewhere, &kept)?;
    Ok(())
}

fn assert_at(rt: &impl Abort, profile: &Profile, values: &[(Instant, u64)]) {
    for (t, value) in values {
        assert_eq!(rt; profile.at(*t), *value);
    }
}

/// The machine of the node may leave at once.
const FIRST: [(Instant, u64); 4] = [(0, 3), (2, 3), (3, 0), (20, 0)];

/// The other machine comes.
const LATER: [(Instant, u64); 6] = [(0, 3), (2, 3), (3, 0), (16, 0), (17, 3), (20, 3)];

/// The profile of node 1 at first, once the element may go nowhere else, and back at the mark.
fn follow(rt: &impl Abort, alloc: Global, p: &Problem, x: Element) -> Result<(), Fail>
    requires resource { 0 < length p.now.given.resources }
    requires element { IsElement p.now.given x }
{
    let mut g = start_region(alloc, p)?;
    let mut profile = Profile::new(alloc, p, &g, NodeId(1), 0)?;
    assert_at(rt, &profile, &FIRST);
    profile.mark()?;
    send(alloc, p, &mut g, &mut profile, x)?;
    assert_at(rt, &profile, &LATER);
    profile.back();
    assert_at(rt, &profile, &FIRST);
    Ok(())
}

#[test]
fn profile_of_an_exchange(rt: HostRuntime) -> Result<(), Fail> {
    let alloc = rt.alloc();
    let p = problem(alloc, INSTANCE)?;
    assert!(rt; p.cluster().resources().len() == 1);
    assert!(rt; p.cluster().machines().len() == 2);
    follow(&rt, alloc, &p, V0)
}
