//! Constraints that a problem refuses, and those that apply at the horizon alone. Readers find these faults before.

use catalogue::constraint::RuleFault;
use catalogue::lists::{Groups, Parts};
use catalogue::{Constraint, Vms};
use cluster::{NodeId, NodeSet, VmId};
use fixtures::problem;
use std::alloc::Global;
use std::test::Fail;

/// Two machines on a node, and two constraints that say nothing of instants.
const INSTANCE: &str = r#"{"horizon":20,"resources":["cpu"],"nodes":[{"name":"n0"}],
"machines":[{"name":"v0","state":"running","node":"n0"},{"name":"v1","state":"running","node":"n0"}],
"constraints":[{"kind":"overbook","nodes":["n0"],"resource":"cpu","num":5,"den":4},
{"kind":"preserve","machines":["v0","v1"],"resource":"cpu","amount":5}]}"#;

/// Why the problem refuses a constraint, if it does.
fn fault_of(alloc: Global, constraint: Constraint) -> Result<Option<RuleFault>, Fail> {
    let mut p = problem(alloc, INSTANCE)?;
    Ok(p.add(constraint).err())
}

fn vms(alloc: Global, ids: &[u32]) -> Result<Vms, Fail> {
    let mut list = Vec::new(alloc);
    for id in ids {
        list.push(VmId(*id))?;
    }
    Ok(Vms::new(list))
}

fn split(alloc: Global) -> Result<Constraint, Fail> {
    let mut parts = Vec::new(alloc);
    parts.push(vms(alloc, &[0])?)?;
    parts.push(vms(alloc, &[1, 0])?)?;
    Ok(Constraint::Split {
        parts: Parts::new(parts),
        continuous: true,
    })
}

fn preserve(alloc: Global) -> Result<Constraint, Fail> {
    Ok(Constraint::Preserve {
        machines: vms(alloc, &[0, 0, 2])?,
        resource: 0,
        amount: 1,
    })
}

fn among(alloc: Global) -> Result<Constraint, Fail> {
    Ok(Constraint::Among {
        machines: vms(alloc, &[0])?,
        groups: Groups::new(Vec::new(alloc)),
        continuous: false,
    })
}

fn serialize(alloc: Global) -> Result<Constraint, Fail> {
    Ok(Constraint::Serialize {
        machines: vms(alloc, &[1, 0, 1])?,
    })
}

fn overbook() -> Constraint {
    let mut nodes = NodeSet::new();
    nodes.insert(NodeId(0));
    Constraint::Overbook {
        nodes,
        resource: 0,
        num: 1,
        den: 0,
    }
}

#[test]
fn too_great(rt: HostRuntime) -> Result<(), Fail> {
    let alloc = rt.alloc();
    assert_eq!(rt; fault_of(alloc, overbook())?, Some(RuleFault::TooGreat));
    assert_eq!(rt; fault_of(alloc, among(alloc)?)?, Some(RuleFault::TooGreat));
    Ok(())
}

#[test]
fn named_twice(rt: HostRuntime) -> Result<(), Fail> {
    let alloc = rt.alloc();
    let same = Constraint::Precedence {
        before: VmId(1),
        after: VmId(1),
    };
    assert_eq!(rt; fault_of(alloc, same)?, Some(RuleFault::Twice));
    assert_eq!(rt; fault_of(alloc, split(alloc)?)?, Some(RuleFault::Twice));
    assert_eq!(rt; fault_of(alloc, serialize(alloc)?)?, Some(RuleFault::Twice));
    Ok(())
}

#[test]
fn no_such_machine(rt: HostRuntime) -> Result<(), Fail> {
    let alloc = rt.alloc();
    assert_eq!(rt; fault_of(alloc, preserve(alloc)?)?, Some(RuleFault::NoSuch));
    Ok(())
}

#[test]
fn applies_at_instants(rt: HostRuntime) -> Result<(), Fail> {
    let p = problem(rt.alloc(), INSTANCE)?;
    assert_eq!(rt; p.constraints().len(), 2);
    assert!(rt; p.applies(0, 19) && !p.applies(1, 19) && p.applies(1, p.horizon()));
    Ok(())
}
