//! A brancher counts failures, and splits the element that has most.
ghost use Rattle.domains.specs.Sets.{sets};
ghost use Rattle.relax.specs.Areas.{AreLegal, IsSized};

use branching::brancher::Brancher;
use branching::most_failures::MostFailures;
use catalogue::Problem;
use closing::closed::closed;
use cluster::{Element, NodeId, VmId};
use domains::{Part, Region};
use fixtures::problem;
use reasons::Reason;
use relax::start::start_region;
use std::process::Abort;
use std::test::Fail;

/// Three machines, of which each may stay or go to the other node; the nodes stay online.
const INSTANCE: &str = r#"{"horizon":6,"resources":[],"nodes":[{"name":"n0"},{"name":"n1"}],
"machines":[{"name":"v0","state":"running","node":"n0"},
{"name":"v1","state":"running","node":"n0"},
{"name":"v2","state":"running","node":"n1"}],
"constraints":[{"kind":"online","nodes":["n0","n1"]}]}"#;

const V0: Element = Element::Vm(VmId(0));

const V1: Element = Element::Vm(VmId(1));

const V2: Element = Element::Vm(VmId(2));

const N0: Element = Element::Node(NodeId(0));

/// Failures that are reported, each of an element or of none.
const REPORTED: [Option<Element>; 7] = [
    Some(V2),
    None,
    Some(N0),
    Some(N0),
    Some(N0),
    Some(V1),
    Some(V2),
];

/// What is chosen in a region that is closed and not fixed.
fn chosen(brancher: &mut MostFailures, p: &Problem, g: &Region) -> Option<(Element, Part)>
    requires sized { IsSized p.now.given g.now }
    requires legal { AreLegal p.now.given (sets g.now) }
{
    if closed(p, g) && !g.is_fixed() {
        Some(brancher.choose(p, g))
    } else {
        None
    }
}

/// Reports failures of these elements.
fn report(brancher: &mut MostFailures, p: &Problem, reported: &[Option<Element>]) {
    for element in reported {
        brancher.failed(p, *element, &Reason::Bound);
    }
}

fn check(rt: &impl Abort, p: &Problem, g: &Region, brancher: &mut MostFailures)
    requires sized { IsSized p.now.given g.now }
    requires legal { AreLegal p.now.given (sets g.now) }
{
    assert_eq!(rt; chosen(brancher, p, g), Some((V0, Part::Idle)));
    report(brancher, p, &REPORTED);
    assert_eq!(rt; brancher.failures(V0), 0);
    assert_eq!(rt; brancher.failures(V1), 1);
    assert_eq!(rt; brancher.failures(V2), 2);
    assert_eq!(rt; brancher.failures(N0), 3);
    // node 0 is fixed
    assert_eq!(rt; chosen(brancher, p, g), Some((V2, Part::Idle)));
}

#[test]
fn failures_are_counted(rt: HostRuntime) -> Result<(), Fail> {
    let p = problem(rt.alloc(), INSTANCE)?;
    let g = start_region(rt.alloc(), &p)?;
    let mut brancher = MostFailures::new(rt.alloc(), &p)?;
    check(&rt, &p, &g, &mut brancher);
    Ok(())
}
