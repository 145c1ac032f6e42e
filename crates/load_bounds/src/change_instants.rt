//! The instants at which what is surely used changes, by where machines surely stand.
ghost use Rattle.std.specs.Prelude.{◌≡◌, ◌+◌, ◌<◌, ◌≤◌, length};
ghost use Rattle.load_bounds.specs.Prelude.{AreKeptAt, AreMachines, IsElement, IsFixed, IsSized, machine_count, node_count, sets};

use crate::{Fixed, Kept, Standing};
use catalogue::Problem;
use cluster::{Choice, Element, Instant, NodeId, VmId};
use domains::{Region, Row};
use relax::measures::end;

// the sooner of what is found and an instant, if that is later than `after`
fn sooner(after: u64, best: u64, at: u64) -> u64
    requires { after < best }
    ensures later { after < result }
    ensures less { result ≤ best }
{
    if at > after && at < best { at } else { best }
}

// the first instant of these at which a machine surely leaves a node or comes to it
fn next_of_machine(
    p: &Problem,
    f: &Fixed,
    v: VmId,
    k: Standing,
    n: NodeId,
    after: u64,
    best: u64,
) -> u64
    requires fixed { IsFixed p.now.given f.now }
    requires machine { IsElement p.now.given (Element.Vm v) }
    requires later { after < best }
    ensures later { after < result }
    ensures less { result ≤ best }
{
    let mut next = best;
    if f.is_host(p, v, n) {
        next = sooner(after, next, k.leave);
    }
    match k.come {
        Some(a) => if a.node.0 == n.0 {
            sooner(after, next, u64::from(a.last))
        } else {
            next
        },
        None => next,
    }
}

// the first instant of these at which an end of a node's choices starts or ends
fn next_of_rows(p: &Problem, e: Element, rows: &[Row], after: u64, best: u64) -> u64
    requires element { IsElement p.now.given e }
    requires later { after < best }
    ensures later { after < result }
    ensures less { result ≤ best }
{
    let mut next = best;
    for row in rows {
        let first = act(*row, row.lo);
        let last = act(*row, row.hi);
        next = sooner(after, next, u64::from(row.lo));
        next = sooner(after, next, u64::from(row.hi));
        next = sooner(after, next, end(p, e, first));
        next = sooner(after, next, end(p, e, last));
    }
    next
}

fn act(row: Row, start: Instant) -> Choice {
    Choice::Act {
        place: row.place,
        start,
    }
}

/// The first instant after one at which what is sure of a node changes, or the one after the horizon.
pub fn next_change(p: &Problem, g: &Region, kept: Kept<'_>, n: NodeId, after: u64) -> u64
    requires region { IsSized p.now.given g.now }
    requires kept { AreKeptAt p.now.given (sets g.now) n.0 kept.fixed.now kept.standings.now kept.near.now kept.firsts.now }
    requires node { n.0 < node_count p.now.given }
    requires within { after ≤ p.now.given.horizon }
    ensures later { after < result }
    ensures most { result ≤ p.now.given.horizon + 1 }
{
    let e = Element::Node(n);
    let mut next = u64::from(p.horizon()) + 1;
    for i in 0..kept.near.len() {
        let v = kept.near[i];
        next = next_of_machine(
            p,
            kept.fixed,
            VmId(v),
            kept.standings[v as usize],
            n,
            after,
            next,
        );
    }
    next_of_rows(p, e, g.domain(e).rows(), after, next)
}

// the first instant of these at which a machine surely leaves its host or comes to a node
fn next_anywhere(k: Standing, after: u64, best: u64) -> u64
    requires { after < best }
    ensures later { after < result }
    ensures less { result ≤ best }
{
    let next = sooner(after, best, k.leave);
    match k.come {
        Some(a) => sooner(after, next, u64::from(a.last)),
        None => next,
    }
}

// the first instant of these at which an end of some node's choices starts or ends
fn next_of_nodes(p: &Problem, g: &Region, after: u64, best: u64) -> u64
    requires region { IsSized p.now.given g.now }
    requires later { after < best }
    ensures later { after < result }
    ensures less { result ≤ best }
{
    let mut next = best;
    for i in 0..p.cluster().nodes().len() {
        let e = Element::Node(NodeId(i as u32));
        next = next_of_rows(p, e, g.domain(e).rows(), after, next);
    }
    next
}

/// The first instant after one at which what is sure of all nodes together changes, or the one after the horizon.
/// Of the machines only those of a list are asked.
pub fn next_change_anywhere(
    p: &Problem,
    g: &Region,
    ks: &[Standing],
    machines: &[u32],
    after: u64,
) -> u64
    requires region { IsSized p.now.given g.now }
    requires count { length ks.now ≡ machine_count p.now.given }
    requires machines { AreMachines p.now.given machines.now }
    requires within { after ≤ p.now.given.horizon }
    ensures later { after < result }
    ensures most { result ≤ p.now.given.horizon + 1 }
{
    let mut next = u64::from(p.horizon()) + 1;
    for i in 0..machines.len() {
        next = next_anywhere(ks[machines[i] as usize], after, next);
    }
    next_of_nodes(p, g, after, next)
}
