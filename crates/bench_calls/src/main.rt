//! Makes a call on an instance so many times: `bench_calls PATH CALL COUNT`.
#![tactic(auto)]

ghost use Rattle.relax.specs.Areas.{IsSized};

use catalogue::Problem;
use closing::closed::closed;
use cluster::{NodeId, NodeSet, VmId};
use domains::Region;
use instance_json::read_instance;
use instance_make::print_instance;
use plan_io::{FileDesk, read_whole};
use reasons::Reason;
use relax::refutes::refutes;
use relax::start::start_region;
use std::alloc::Global;
use std::env;
use std::process::ExitCode;

const MOST_BYTES: u64 = 67_108_864;

// the first nodes, so many
fn first_nodes(count: usize) -> NodeSet {
    let mut nodes = NodeSet::new();
    for n in 0..count.min(512) {
        nodes.insert(NodeId(n as u32));
    }
    nodes
}

// the reason that is asked for, if one is
fn reason_of(p: &Problem, call: &str) -> Option<Reason> {
    match call {
        "load" => Some(Reason::Load(50, 0, first_nodes(1))),
        "total" => Some(Reason::Load(50, 0, first_nodes(p.cluster().nodes().len()))),
        "bound" => Some(Reason::Bound),
        "usable" => Some(Reason::Usable(50, VmId(3), NodeId(3))),
        _ => None,
    }
}

// whether a reason refutes the region
fn ask(p: &Problem, g: &Region, reason: &Reason, count: u32) -> bool
    requires { IsSized p.now.given g.now }
{
    let mut answer = false;
    for _ in 0..count {
        answer = refutes(p, Some(1), g, reason);
    }
    answer
}

// whether the region is closed
fn ask_closed(p: &Problem, g: &Region, count: u32) -> bool
    requires { IsSized p.now.given g.now }
{
    let mut answer = false;
    for _ in 0..count {
        answer = closed(p, g);
    }
    answer
}

// whether the instance was printed each time
fn print_often(alloc: Global, p: &Problem, count: u32) -> bool {
    for _ in 0..count {
        if print_instance(alloc, p).is_err() {
            return false;
        }
    }
    true
}

// what the call answers; None where there is no such region or call
fn tell(alloc: Global, p: &Problem, call: &str, count: u32) -> Option<bool> {
    if call == "print" {
        return Some(print_often(alloc, p, count));
    }
    let region = start_region(alloc, p).ok()?;
    if call == "closed" {
        return Some(ask_closed(p, &region, count));
    }
    let reason = reason_of(p, call)?;
    Some(ask(p, &region, &reason, count))
}

// the same of the instance in a file
fn tell_of(alloc: Global, bytes: &[u8], call: &str, count: u32) -> Option<bool> {
    let problem = read_instance(alloc, bytes).ok()?;
    tell(alloc, &problem, call, count)
}

fn main(rt: HostRuntime) -> ExitCode {
    let alloc = rt.alloc();
    let mut path = String::new(alloc);
    let mut call = String::new(alloc);
    let mut count = 0;
    if let Ok(words) = env::args(&rt) {
        for (place, word) in words.skip(1).take(3).enumerate() {
            if place == 0 {
                path = word;
            } else if place == 1 {
                call = word;
            } else {
                count = word.parse::<u32>().unwrap_or(0);
            }
        }
    }
    let mut desk = FileDesk::new(&rt, alloc);
    let answer = match read_whole(alloc, &mut desk, &path, MOST_BYTES) {
        Ok(bytes) => tell_of(alloc, &bytes, &call, count),
        Err(_) => None,
    };
    match answer {
        Some(true) => ExitCode::from(0),
        Some(false) => ExitCode::from(1),
        None => ExitCode::from(2),
    }
}
