//! A start region is made, narrowed by many cuts under one mark, and had back:
//! `bench_regions NODES MACHINES CUTS EACH ORDER`.
#![tactic(auto)]

ghost use Rattle.std.specs.Prelude.{◌≡◌, ◌<◌, ◌≤◌, ◌^◌, IfOk, OnOk, length};
ghost use Rattle.trail.specs.Logs.{Marked};

use base::Memory;
use cluster::{Element, NodeId, Place, VmId};
use domains::{Change, Domain, Part, Region, Row, Side};
use std::alloc::Global;
use std::env;
use std::process::ExitCode;
use trail::Trail;

// a domain with a row of 100 starts at each node
fn domain(alloc: Global, nodes: u32) -> Result<Domain, Memory> {
    let mut domain = Domain::new(alloc, true);
    for n in 0..nodes {
        domain.push(Row {
            place: Place::At(NodeId(n)),
            lo: 0,
            hi: 99,
        })?;
    }
    Ok(domain)
}

fn start(alloc: Global, nodes: u32, machines: u32) -> Result<Region, Memory>
    ensures { IfOk result (λ g. length g.machines ≡ machines) }
{
    let mut domains = Vec::new(alloc);
    for m in 0..machines {
        domains.push(domain(alloc, nodes)?)?;
    }
    Ok(Region::new(domains, Vec::new(alloc)))
}

/// In which order the cuts of a machine go over the nodes.
#[derive(Clone, Copy)]
enum Order {
    Ascending,
    Descending,
    Spread,
    Same,
}

fn order_of(word: &str) -> Order {
    match word {
        "descending" => Order::Descending,
        "spread" => Order::Spread,
        "same" => Order::Same,
        _ => Order::Ascending,
    }
}

// the node of a machine's cut of that number
fn node(order: Order, nodes: u32, machine: u32, number: u32) -> NodeId
    requires { 0 < nodes }
{
    let number = number % nodes;
    NodeId(match order {
        Order::Ascending => number,
        Order::Descending => nodes - 1 - number,
        Order::Spread => {
            let far = number.wrapping_mul(181);
            far.wrapping_add(machine.wrapping_mul(7)) % nodes
        }
        Order::Same => nodes / 2,
    })
}

// one of `each` cuts takes a row, the others a part of one
fn cut(
    trail: &mut Trail,
    order: Order,
    nodes: u32,
    machines: u32,
    each: u32,
    k: u32,
) -> Result<(), Memory>
    requires nodes { 0 < nodes }
    requires machines { 0 < machines }
    requires each { 0 < each }
    requires there { length trail.old.region.machines ≡ machines }
    ensures there { length trail.new.region.machines ≡ machines }
    ensures marks { trail.new.marks ≡ trail.old.marks }
{
    let machine = k % machines;
    let place = Place::At(node(order, nodes, machine, k / machines));
    trail.apply(Change {
        element: Element::Vm(VmId(machine)),
        part: Part::From(place, (k % each).min(3) * 30),
        side: Side::Outside,
    })
}

fn run(alloc: Global, order: Order, numbers: [u32; 4]) -> Result<(), Memory> {
    let [nodes, machines, cuts, each] = numbers;
    let mut trail = Trail::new(alloc, start(alloc, nodes, machines)?);
    if nodes > 0 && machines > 0 && each > 0 {
        trail.mark()?;
        for k in 0..cuts {
            cut(&mut trail, order, nodes, machines, each, k)?;
        }
        trail.back();
    }
    Ok(())
}

fn main(rt: HostRuntime) -> ExitCode {
    let mut numbers = [0; 4];
    let mut way = Order::Ascending;
    if let Ok(words) = env::args(&rt) {
        for (place, word) in words.skip(1).enumerate() {
            if place < 4 {
                numbers[place] = word.parse::<u32>().unwrap_or(0);
            } else {
                way = order_of(word.as_str());
            }
        }
    }
    match run(rt.alloc(), way, numbers) {
        Ok(()) => ExitCode::from(0),
        Err(_) => ExitCode::from(1),
    }
}
