//! Sets have the last node and the last machine that there may be.

use cluster::{MachineSet, NodeId, NodeSet, VmId};
use std::test::Fail;

#[test]
fn the_last_of_nodes(rt: HostRuntime) -> Result<(), Fail> {
    let mut nodes = NodeSet::new();
    nodes.insert(NodeId(511));
    assert!(rt; nodes.has(NodeId(511)) && nodes.is_within(512));
    Ok(())
}

#[test]
fn the_last_of_machines(rt: HostRuntime) -> Result<(), Fail> {
    let mut machines = MachineSet::new();
    machines.insert(VmId(4095));
    assert!(rt; machines.has(VmId(4095)));
    Ok(())
}
