//! What no change of a region changes: the hosts of machines, what all have, and the most that any of them uses.
ghost use Rattle.std.specs.Prelude.{◌≡◌, ◌+◌, ◌<◌, [], IfOk, length};
ghost use Rattle.relax.specs.Prelude.{hosted_in, IsElement, machine_count, one, state_of};
ghost use Rattle.profiles.specs.Fixed.{AreHosts, AreMostUses, AreOrders, AreTotalBases, AreUses, IsFixed, IsMostUse, IsOrder, IsTotalBase, lists_of};

use base::Memory;
use catalogue::Problem;
use cluster::{Element, NodeId, VmId};
use slices::Weight;
use standings::host::{host_of, is_this};
use standings::uses::base;
use std::alloc::Global;
use std::marker::Model;

/// How many resources there are.
pub fn resource_total(p: &Problem) -> usize
    ensures { result ≡ length p.now.given.resources }
{
    p.cluster().resources().len()
}

/// The host of each machine, if it has one, and by resource the most that any machine has and brings, and what all
/// have at present.
#[derive(Drop)]
pub struct Fixed {
    hosts: Vec<Option<NodeId>>,
    most: Vec<u64>,
    bases: Vec<u64>,
    orders: Vec<Vec<MostUse>>,
}

/// The most that a machine uses of a resource on one node: what it has and what it brings.
#[derive(Clone, Copy)]
pub struct MostUse {
    pub most: u64,
    pub machine: VmId,
}

impl Model for Fixed {
    ghost use Rattle.std.specs.Prelude.{Vec, map};
    ghost use Rattle.{std.specs.declared.alloc.Global.Global, profiles.specs.Fixed.FixedView, profiles.specs.declared.fixed.MostUse.MostUse};

    ghost Value = { FixedView };

    ghost view = { λ m. record { hosts = m.hosts.items; most = m.most.items; bases = m.bases.items; orders = map (λ (o : Vec MostUse Global). o.items) m.orders.items } };
}

// the hosts of all machines
fn hosts_of(alloc: Global, p: &Problem) -> Result<Vec<Option<NodeId>>, Memory>
    ensures { IfOk result (λ xs. AreHosts p.now.given (machine_count p.now.given) xs.items) }
{
    let count = p.cluster().machines().len();
    let mut hosts = Vec::with_capacity(alloc, count)?;
    for i in 0..count {
        hosts.push(host_of(p, VmId(i as u32)))?;
    }
    Ok(hosts)
}

// the most that any machine has and brings of a resource
fn most_of(p: &Problem, r: u8) -> u64
    requires { r < length p.now.given.resources }
    ensures { IsMostUse p.now.given r (machine_count p.now.given) result }
{
    let mut most = 0u64;
    for i in 0..p.cluster().machines().len() {
        let v = VmId(i as u32);
        most = most.max(base(p, v, Weight::Amount(r)) + p.demand(v, r));
    }
    most
}

// of each resource
fn most_uses(alloc: Global, p: &Problem) -> Result<Vec<u64>, Memory>
    ensures { IfOk result (λ xs. AreMostUses p.now.given (length p.now.given.resources) xs.items) }
{
    let count = resource_total(p);
    let mut most = Vec::with_capacity(alloc, count)?;
    for r in 0..count {
        most.push(most_of(p, r as u8))?;
    }
    Ok(most)
}

// what all machines have at present of a resource
fn total_base(p: &Problem, r: u8) -> u64
    requires { r < length p.now.given.resources }
    ensures { IsTotalBase p.now.given r result }
{
    let mut total = 0;
    for i in 0..p.cluster().machines().len() {
        total += base(p, VmId(i as u32), Weight::Amount(r));
    }
    total
}

// of each resource
fn total_bases(alloc: Global, p: &Problem) -> Result<Vec<u64>, Memory>
    ensures { IfOk result (λ xs. AreTotalBases p.now.given (length p.now.given.resources) xs.items) }
{
    let count = resource_total(p);
    let mut bases = Vec::with_capacity(alloc, count)?;
    for r in 0..count {
        bases.push(total_base(p, r as u8))?;
    }
    Ok(bases)
}

// the machines by what they use of a resource at the most, the least first
fn order_of(alloc: Global, p: &Problem, r: u8) -> Result<Vec<MostUse>, Memory>
    requires { r < length p.now.given.resources }
    ensures { IfOk result (λ xs. IsOrder p.now.given r xs.items) }
{
    let mut order = uses_of(alloc, p, r)?;
    order.sort_unstable_by_key(|x| x.most);
    Ok(order)
}

// of each machine what it uses of a resource at the most
fn uses_of(alloc: Global, p: &Problem, r: u8) -> Result<Vec<MostUse>, Memory>
    requires { r < length p.now.given.resources }
    ensures { IfOk result (λ xs. AreUses p.now.given r (machine_count p.now.given) xs.items) }
{
    let count = p.cluster().machines().len();
    let mut order = Vec::with_capacity(alloc, count)?;
    for i in 0..count {
        let machine = VmId(i as u32);
        let most = base(p, machine, Weight::Amount(r)) + p.demand(machine, r);
        order.push(MostUse { most, machine })?;
    }
    Ok(order)
}

// of each resource the machines in that order
fn orders_of(alloc: Global, p: &Problem) -> Result<Vec<Vec<MostUse>>, Memory>
    ensures { IfOk result (λ xs. AreOrders p.now.given (length p.now.given.resources) (lists_of xs.items)) }
{
    let count = resource_total(p);
    let mut orders = Vec::with_capacity(alloc, count)?;
    for r in 0..count {
        orders.push(order_of(alloc, p, r as u8)?)?;
    }
    Ok(orders)
}

impl Fixed {
    /// Of no machine and no resource. It takes no memory.
    pub fn none(alloc: Global) -> Fixed
        ensures { result ≡ record { hosts = []; most = []; bases = []; orders = [] } }
    {
        Fixed {
            hosts: Vec::new(alloc),
            most: Vec::new(alloc),
            bases: Vec::new(alloc),
            orders: Vec::new(alloc),
        }
    }

    /// Of the machines of a problem. The only error is want of memory.
    pub fn of(alloc: Global, p: &Problem) -> Result<Fixed, Memory>
        ensures { IfOk result (IsFixed p.now.given) }
    {
        let hosts = hosts_of(alloc, p)?;
        let most = most_uses(alloc, p)?;
        let bases = total_bases(alloc, p)?;
        let orders = orders_of(alloc, p)?;
        Ok(Fixed {
            hosts,
            most,
            bases,
            orders,
        })
    }

    /// Whether a machine has its host at a node.
    #[tactic(auto, using(crate::proofs::FixedLemmas::host_tells))]
    pub fn is_host(&self, _p: &Problem, v: VmId, n: NodeId) -> bool
        requires fixed { IsFixed _p.now.given self.now }
        requires machine { IsElement _p.now.given (Element.Vm v) }
        ensures { result ≡ hosted_in (state_of _p.now.given v.0) (one n.0) }
    {
        is_this(self.hosts[v.0 as usize], n)
    }

    /// The machines by what they use of a resource at the most, the least first.
    pub fn order(&self, _p: &Problem, r: u8) -> &[MostUse]
        requires fixed { IsFixed _p.now.given self.now }
        requires resource { r < length _p.now.given.resources }
        ensures { IsOrder _p.now.given r result.now }
    {
        &self.orders[r as usize]
    }

    /// The most that any machine has and brings of a resource.
    pub fn most(&self, _p: &Problem, r: u8) -> u64
        requires fixed { IsFixed _p.now.given self.now }
        requires resource { r < length _p.now.given.resources }
        ensures { IsMostUse _p.now.given r (machine_count _p.now.given) result }
    {
        self.most[r as usize]
    }

    /// What all machines have at present of a resource.
    pub fn total_base(&self, _p: &Problem, r: u8) -> u64
        requires fixed { IsFixed _p.now.given self.now }
        requires resource { r < length _p.now.given.resources }
        ensures { IsTotalBase _p.now.given r result }
    {
        self.bases[r as usize]
    }
}
