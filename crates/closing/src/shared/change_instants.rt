//! The instants at which what is sure in a region can grow.
ghost use Rattle.std.specs.Prelude.{◌≡◌, ℕ, ◌+◌, ◌<◌, ◌≤◌, length, nat_lt, true};
ghost use Rattle.std.specs.List.{list_all};
ghost use Rattle.closing.specs.Prelude.{AreListed, AreRowsPast, HasElement, IsNotBetween, IsSized, IsTurn, machine_count, node, node_count, only_of, sets, StartsPast, changing, vm};

use crate::shared::counts::{machines_of, nodes_of};
use catalogue::Problem;
use cluster::{Element, Instant, NodeId, VmId};
use domains::{Region, Row};

/// At which starts a look looks: what starts elsewhere cannot break it.
#[derive(Clone, Copy)]
pub enum ChangeInstants<'a> {
    /// Those of all elements.
    OfAll,
    /// Those of these machines alone.
    Of(&'a [VmId]),
}

// the sooner of what is found and an instant, if that is later than `after`
fn sooner(after: Instant, best: u64, at: Instant) -> u64
    requires { after < best }
    ensures later { after < result }
    ensures less { result ≤ best }
    ensures past { IsNotBetween after result at }
{
    if at > after && u64::from(at) < best {
        u64::from(at)
    } else {
        best
    }
}

// the first instant of these at which a row starts or ends, later than `after`
fn next_of_rows(after: Instant, best: u64, rows: &[Row]) -> u64
    requires { after < best }
    ensures later { after < result }
    ensures less { result ≤ best }
    ensures past { AreRowsPast after result (length rows.now) rows.now }
{
    let mut next = best;
    for i in 0..rows.len() {
        next = sooner(after, next, rows[i].lo);
        next = sooner(after, next, rows[i].hi);
    }
    next
}

// the first instant of these at which an end of an element's choices starts
fn next_of_element(g: &Region, e: Element, after: Instant, best: u64) -> u64
    requires later { after < best }
    requires element { HasElement g.now e }
    ensures later { after < result }
    ensures less { result ≤ best }
    ensures past { StartsPast (sets g.now e) after result }
{
    // nothing is sooner than the instant after
    if best == u64::from(after) + 1 {
        return best;
    }
    next_of_rows(after, best, g.domain(e).rows())
}

// the horizon, or where an instant is that, the one after it
fn last_instant(p: &Problem, after: Instant) -> u64
    requires within { after ≤ p.now.given.horizon }
    ensures later { after < result }
    ensures last { after < p.now.given.horizon → result ≤ p.now.given.horizon }
    ensures most { result ≤ p.now.given.horizon + 1 }
{
    let horizon = p.horizon();
    if after < horizon {
        u64::from(horizon)
    } else {
        u64::from(horizon) + 1
    }
}

// the next instant after one at which an end of some element's choices starts, or the horizon, or the instant
// after the horizon
fn next_of_all(p: &Problem, g: &Region, after: Instant) -> u64
    requires region { IsSized p.now.given g.now }
    requires within { after ≤ p.now.given.horizon }
    ensures later { after < result }
    ensures most { result ≤ p.now.given.horizon + 1 }
    ensures change_instants { (t : ℕ) → after < t → t < result → ¬ IsTurn p.now.given (sets g.now) t }
{
    let last = last_instant(p, after);
    let mut next = last;
    for v in 0..machines_of(p) {
        next = next_of_element(g, Element::Vm(VmId(v as u32)), after, next);
    }
    for n in 0..nodes_of(p) {
        next = next_of_element(g, Element::Node(NodeId(n as u32)), after, next);
    }
    next
}

// as `next_of_all`, with the starts of these machines alone
fn next_of_some(p: &Problem, g: &Region, machines: &[VmId], after: Instant) -> u64
    requires region { IsSized p.now.given g.now }
    requires machines { list_all (λ x. nat_lt x.0 (machine_count p.now.given)) machines.now ≡ true }
    requires within { after ≤ p.now.given.horizon }
    ensures later { after < result }
    ensures most { result ≤ p.now.given.horizon + 1 }
    ensures change_instants { (t : ℕ) → after < t → t < result → ¬ IsTurn p.now.given (only_of machines.now (sets g.now)) t }
{
    let last = last_instant(p, after);
    let mut next = last;
    for i in 0..machines.len() {
        next = next_of_element(g, Element::Vm(machines[i]), after, next);
    }
    next
}

/// The next change instant after an instant: a start of an end of a choice of those whose starts are change instants, or the horizon,
/// or the instant after the horizon.
pub fn next_change_instant(
    p: &Problem,
    g: &Region,
    change_instants: &ChangeInstants,
    after: Instant,
) -> u64
    requires region { IsSized p.now.given g.now }
    requires machines { AreListed p.now.given change_instants.now }
    requires within { after ≤ p.now.given.horizon }
    ensures later { after < result }
    ensures most { result ≤ p.now.given.horizon + 1 }
    ensures change_instants { (t : ℕ) → after < t → t < result → ¬ IsTurn p.now.given (changing change_instants.now (sets g.now)) t }
{
    match change_instants {
        ChangeInstants::OfAll => next_of_all(p, g, after),
        ChangeInstants::Of(machines) => next_of_some(p, g, machines, after),
    }
}
