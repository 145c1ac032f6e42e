//! The constraint that a call means.
ghost use Rattle.rule_script.specs.Answers.{Answers};
ghost use Rattle.rule_script.specs.Calls.{constraint_of, groups_in, machine_in, machines_in, nodes_in, parts_in, resource_in};
ghost use Rattle.rule_script.specs.Values.{value_of};

use crate::bindings::Bindings;
use crate::elements::Elements;
use crate::faults::{Mistake, Refusal};
use crate::pass::value;
use crate::sets::{SetText, SetTexts};
use crate::statement::Call;
use crate::text::Text;
use catalogue::lists::{Groups, Parts};
use catalogue::{Constraint, Vms};
use cluster::{Cluster, NodeSet, VmId};
use std::alloc::Global;

/// What the words of a call mean: the cluster, and the variables as they stand.
#[derive(Drop)]
pub struct Scope<'a> {
    pub alloc: Global,
    pub cluster: &'a Cluster,
    pub bindings: Bindings<'a>,
}

impl<'a> Scope<'a> {
    /// The elements of a set.
    pub fn elements(&self, set: &SetText) -> Result<Elements, Refusal>
        ensures { Answers result (value_of self.now.cluster.now.given self.now.bindings set.now) }
    {
        value(self.alloc, self.cluster, &self.bindings, set)
    }

    /// The machines of a set that has no node.
    #[tactic(auto, unfolding(crate::specs::Calls::machines_in))]
    fn machines(&self, set: &SetText) -> Result<Vms, Refusal>
        ensures { Answers result (machines_in self.now.cluster.now.given self.now.bindings set.now) }
    {
        match self.elements(set)?.machines()? {
            Some(machines) => Ok(machines),
            None => Err(Refusal::Wrong(Mistake::WrongSort)),
        }
    }

    /// The nodes of a set that has no machine.
    #[tactic(auto, unfolding(crate::specs::Calls::nodes_in))]
    fn nodes(&self, set: &SetText) -> Result<NodeSet, Refusal>
        ensures { Answers result (nodes_in self.now.cluster.now.given self.now.bindings set.now) }
    {
        match self.elements(set)?.nodes() {
            Some(nodes) => Ok(nodes),
            None => Err(Refusal::Wrong(Mistake::WrongSort)),
        }
    }

    /// The machine that a set is.
    #[tactic(auto, unfolding(crate::specs::Calls::machine_in))]
    fn machine(&self, set: &SetText) -> Result<VmId, Refusal>
        ensures { Answers result (machine_in self.now.cluster.now.given self.now.bindings set.now) }
    {
        match self.elements(set)?.machine() {
            Some(machine) => Ok(machine),
            None => Err(Refusal::Wrong(Mistake::WrongSort)),
        }
    }

    /// The nodes of each set.
    fn groups(&self, sets: &SetTexts) -> Result<Groups, Refusal>
        ensures { Answers result (groups_in self.now.cluster.now.given self.now.bindings sets.now) }
    {
        let mut groups = Vec::new(self.alloc);
        let list = sets.items();
        for set in list {
            groups.push(self.nodes(set)?)?;
        }
        Ok(Groups::new(groups))
    }

    /// The machines of each set.
    fn parts(&self, sets: &SetTexts) -> Result<Parts, Refusal>
        ensures { Answers result (parts_in self.now.cluster.now.given self.now.bindings sets.now) }
    {
        let mut parts = Vec::new(self.alloc);
        let list = sets.items();
        for set in list {
            parts.push(self.machines(set)?)?;
        }
        Ok(Parts::new(parts))
    }

    /// The resource of that name.
    fn resource(&self, name: &Text) -> Result<u8, Refusal>
        ensures { Answers result (resource_in self.now.cluster.now.given name.now) }
    {
        match self.cluster.resource(name.bytes()) {
            Some(resource) => Ok(resource),
            None => Err(Refusal::Wrong(Mistake::NoSuch)),
        }
    }

    /// The constraint that a call means. Its arguments are valued from the left, each with its sort
    /// before the next.
    #[tactic(auto, unfolding(crate::specs::Calls::constraint_of))]
    pub fn constraint(&self, call: &Call) -> Result<Constraint, Refusal>
        ensures { Answers result (constraint_of self.now.cluster.now.given self.now.bindings call.now) }
    {
        match call {
            Call::Spread(set, always) => Ok(Constraint::Spread {
                machines: self.machines(set)?,
                continuous: *always,
            }),
            Call::Gather(set, always) => Ok(Constraint::Gather {
                machines: self.machines(set)?,
                continuous: *always,
            }),
            Call::Lonely(set, always) => Ok(Constraint::Lonely {
                machines: self.machines(set)?,
                continuous: *always,
            }),
            Call::Ban(set, on, always) => Ok(Constraint::Ban {
                machines: self.machines(set)?,
                nodes: self.nodes(on)?,
                continuous: *always,
            }),
            Call::Fence(set, on, always) => Ok(Constraint::Fence {
                machines: self.machines(set)?,
                nodes: self.nodes(on)?,
                continuous: *always,
            }),
            Call::Among(set, groups, always) => Ok(Constraint::Among {
                machines: self.machines(set)?,
                groups: self.groups(groups)?,
                continuous: *always,
            }),
            Call::Split(parts, always) => Ok(Constraint::Split {
                parts: self.parts(parts)?,
                continuous: *always,
            }),
            Call::Root(set) => Ok(Constraint::Root {
                machines: self.machines(set)?,
            }),
            Call::Precedence(before, after) => Ok(Constraint::Precedence {
                before: self.machine(before)?,
                after: self.machine(after)?,
            }),
            Call::Serialize(set) => Ok(Constraint::Serialize {
                machines: self.machines(set)?,
            }),
            Call::Preserve(set, resource, amount) => Ok(Constraint::Preserve {
                machines: self.machines(set)?,
                resource: self.resource(resource)?,
                amount: *amount,
            }),
            Call::ResourceCapacity(set, resource, amount, always) => {
                Ok(Constraint::ResourceCapacity {
                    nodes: self.nodes(set)?,
                    resource: self.resource(resource)?,
                    amount: *amount,
                    continuous: *always,
                })
            }
            Call::RunningCapacity(set, amount, always) => Ok(Constraint::RunningCapacity {
                nodes: self.nodes(set)?,
                amount: *amount,
                continuous: *always,
            }),
            Call::MaxOnline(set, amount, always) => Ok(Constraint::MaxOnline {
                nodes: self.nodes(set)?,
                amount: *amount,
                continuous: *always,
            }),
            Call::Overbook(set, resource, num, den) => Ok(Constraint::Overbook {
                nodes: self.nodes(set)?,
                resource: self.resource(resource)?,
                num: *num,
                den: *den,
            }),
            Call::Online(set) => Ok(Constraint::Online {
                nodes: self.nodes(set)?,
            }),
            Call::Offline(set) => Ok(Constraint::Offline {
                nodes: self.nodes(set)?,
            }),
            Call::Running(set) => Ok(Constraint::Running {
                machines: self.machines(set)?,
            }),
            Call::Sleeping(set) => Ok(Constraint::Sleeping {
                machines: self.machines(set)?,
            }),
            Call::Ready(set) => Ok(Constraint::Ready {
                machines: self.machines(set)?,
            }),
            Call::Killed(set) => Ok(Constraint::Killed {
                machines: self.machines(set)?,
            }),
        }
    }
}
