//! What `StayFirst` works out once for a problem.
ghost use Rattle.std.specs.Prelude.{◌<◌, ◌≤◌, length};
ghost use Rattle.branching.specs.Prelude.{IsElement, max_capacity};

use crate::ends::first_end;
use crate::order::Order;
use catalogue::Problem;
use cluster::{Element, Instant, Kind, MachineSet, NodeId, Place, VmId};
use domains::Row;
use slices::actions::duration;

/// By what a problem is told from another.
#[derive(Clone, Copy, PartialEq, Eq)]
pub struct Size {
    machines: usize,
    nodes: usize,
    resources: usize,
    constraints: usize,
    horizon: Instant,
}

/// The size of a problem.
pub fn size_of(p: &Problem) -> Size {
    Size {
        machines: p.cluster().machines().len(),
        nodes: p.cluster().nodes().len(),
        resources: p.cluster().resources().len(),
        constraints: p.constraints().len(),
        horizon: p.horizon(),
    }
}

// weights of nodes are no less than this, and those of machines are less
const NODES: u64 = 1_125_899_906_842_624;

/// In which orders elements are looked at.
#[derive(Drop)]
pub struct Orders {
    /// The nodes, the longest change first, and then the machines that are not big, the longest move first.
    pub stayers: Order,
    /// The big machines, and then the others, the greatest demand first.
    pub machines: Order,
    /// How many machines are big.
    pub big: usize,
}

impl Orders {
    /// Orders of nothing.
    pub fn new() -> Orders {
        Orders {
            stayers: Order::new(),
            machines: Order::new(),
            big: 0,
        }
    }

    /// Becomes the orders of a problem.
    pub fn work_out(&mut self, p: &Problem) {
        self.stayers.clear();
        self.machines.clear();
        self.big = 0;
        self.add_nodes(p);
        self.add_machines(p, &big_machines(p));
        self.stayers.sort();
        self.machines.sort();
    }

    fn add_nodes(&mut self, p: &Problem) {
        for n in 0..p.cluster().nodes().len() {
            let e = Element::Node(NodeId(n as u32));
            let lasts = change(p, e);
            self.stayers
                .push(NODES.saturating_add(lasts), p.cluster().number(e));
        }
    }

    fn add_machines(&mut self, p: &Problem, big: &MachineSet) {
        for v in 0..p.cluster().machines().len() {
            let id = VmId(v as u32);
            if big.has(id) {
                self.big = self.big.saturating_add(1);
                self.machines.push(NODES, v);
            } else {
                let lasts = duration(p, Element::Vm(id), Kind::Migrate);
                self.stayers.push(lasts.min(NODES - 1), v);
                self.machines.push(demands(p, id).min(NODES - 1), v);
            }
        }
    }
}

// how long the change of a node lasts
fn change(p: &Problem, e: Element) -> u64
    requires { IsElement p.now.given e }
{
    first_end(
        p,
        e,
        Row {
            place: Place::Nowhere,
            lo: 0,
            hi: 0,
        },
    )
}

// the sum of the demands of a machine over all resources
fn demands(p: &Problem, v: VmId) -> u64
    requires { IsElement p.now.given (Element.Vm v) }
{
    let mut total: u64 = 0;
    for r in 0..p.cluster().resources().len() {
        total = total.saturating_add(p.demand(v, r as u8));
    }
    total
}

// the machines that want more than a third of the greatest node, in some resource
fn big_machines(p: &Problem) -> MachineSet {
    let mut big = MachineSet::new();
    for r in 0..p.cluster().resources().len() {
        let greatest = greatest_capacity(p, r as u8);
        for v in 0..p.cluster().machines().len() {
            if 3 * p.demand(VmId(v as u32), r as u8) > greatest {
                big.insert(VmId(v as u32));
            }
        }
    }
    big
}

// the capacity of the greatest node for a resource
fn greatest_capacity(p: &Problem, r: u8) -> u64
    requires { r < length p.now.given.resources }
{
    let mut greatest = 0;
    for n in 0..p.cluster().nodes().len() {
        greatest = p.capacity(NodeId(n as u32), r).max(greatest);
    }
    greatest
}
