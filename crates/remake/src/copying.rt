//! Equal nodes, machines and constraints. Want of memory is the only error.
ghost use Rattle.std.specs.Prelude.{◌≡◌, IfOk};

use base::Memory;
use catalogue::Constraint;
use cluster::{Machine, Name, Node};
use std::alloc::Global;

/// Equal names.
pub(crate) fn copy_names(alloc: Global, names: &[Name]) -> Result<Vec<Name>, Memory>
    ensures { IfOk result (λ copies. copies.items ≡ names.now) }
{
    let mut copies = Vec::new(alloc);
    for name in names {
        let copy = name.copy()?;
        copies.push(copy)?;
    }
    Ok(copies)
}

/// An equal node.
pub fn copy_node(node: &Node) -> Result<Node, Memory>
    ensures { IfOk result (λ copy. copy ≡ node.now) }
{
    Ok(Node {
        name: node.name.copy()?,
        online: node.online,
        capacity: node.capacity,
        own: node.own,
    })
}

/// An equal machine.
pub fn copy_machine(machine: &Machine) -> Result<Machine, Memory>
    ensures { IfOk result (λ copy. copy ≡ machine.now) }
{
    Ok(Machine {
        name: machine.name.copy()?,
        state: machine.state,
        usage: machine.usage,
        own: machine.own,
    })
}

/// Equal constraints.
pub fn copy_constraints(
    alloc: Global,
    constraints: &[Constraint],
) -> Result<Vec<Constraint>, Memory>
    ensures { IfOk result (λ copies. copies.items ≡ constraints.now) }
{
    let mut copies = Vec::new(alloc);
    for constraint in constraints {
        let copy = constraint.copy()?;
        copies.push(copy)?;
    }
    Ok(copies)
}
