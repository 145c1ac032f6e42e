//! What machines use at the most on all nodes together during a period.
ghost use Rattle.std.specs.Prelude.{◌≡◌, ◌-◌, ◌*◌, ◌<◌, ◌≤◌, IfSome, length, slice_index_or};
ghost use Rattle.std.specs.List.{sum_by};
ghost use Rattle.load_bounds.specs.NodeRooms.{always};
ghost use Rattle.load_bounds.specs.Prelude.{Amount as AmountOf, AreMachines, AreMovers, base as the_base, is_nought, IsElement, IsFixed, IsSized, machine_count, max_amount, max_machines, may_wait as the_may_wait, most_anywhere as the_most_anywhere, no_standing, sets, sum_to};

use crate::measures::Hurries;
use crate::{Fixed, Period, Standing, base};
use catalogue::Problem;
use cluster::{Element, Instant, VmId};
use domains::view::lowest_seen;
use domains::{Lens, Region, View};
use slices::Weight;

// whether a value, if there is one, is 0
fn is_zero(lowest: Option<u64>) -> bool
    ensures { result ≡ is_nought lowest }
{
    match lowest {
        None => false,
        Some(x) => x == 0,
    }
}

/// Whether a machine may wait until a period is over; where that is the last instant, only as it is.
pub(crate) fn may_wait(p: &Problem, g: &Region, v: VmId, x: Period) -> bool
    requires { v.0 < length g.now.machines }
    ensures { result ≡ the_may_wait p.now.given (sets g.now) x v.0 }
{
    let last = p.horizon();
    if last <= x.to {
        return g.domain(Element::Vm(v)).idle();
    }
    let view = View {
        region: g,
        lens: Lens::Whole,
    };
    let hurries = Hurries { by: x.to, last };
    is_zero(lowest_seen(&view, Element::Vm(v), &hurries))
}

/// What a machine with these numbers surely uses at the most.
pub(crate) fn most_anywhere(p: &Problem, v: VmId, r: u8, x: Period, waits: bool, k: Standing) -> u64
    requires machine { IsElement p.now.given (Element.Vm v) }
    requires resource { r < length p.now.given.resources }
    ensures most { result ≡ the_most_anywhere p.now.given v.0 r x waits k }
    ensures small { result ≤ 2 * max_amount }
{
    let had = base(p, v, Weight::Amount(r));
    if waits {
        return had;
    }
    let demand = p.demand(v, r);
    if k.leave <= u64::from(x.from) {
        demand
    } else {
        had + demand
    }
}

/// How much more machines surely use at the most than they have at present, and how much less.
#[derive(Clone, Copy)]
pub(crate) struct Beside {
    pub more: u64,
    pub less: u64,
}

// of a machine with these numbers; what it has is looked up only where it may be gone
fn beside_base(p: &Problem, v: VmId, r: u8, x: Period, waits: bool, k: Standing) -> Beside
    requires machine { IsElement p.now.given (Element.Vm v) }
    requires resource { r < length p.now.given.resources }
    ensures more { result.more ≡ the_most_anywhere p.now.given v.0 r x waits k - the_base p.now.given v.0 (AmountOf r) }
    ensures less { result.less ≡ the_base p.now.given v.0 (AmountOf r) - the_most_anywhere p.now.given v.0 r x waits k }
    ensures few_more { result.more ≤ max_amount }
    ensures few_less { result.less ≤ max_amount }
{
    if waits {
        return Beside { more: 0, less: 0 };
    }
    let demand = p.demand(v, r);
    if k.leave <= u64::from(x.from) {
        let had = base(p, v, Weight::Amount(r));
        Beside {
            more: demand.saturating_sub(had),
            less: had.saturating_sub(demand),
        }
    } else {
        Beside {
            more: demand,
            less: 0,
        }
    }
}

// of the machines of a list
fn beside_bases(
    p: &Problem,
    g: &Region,
    ks: &[Standing],
    machines: &[u32],
    r: u8,
    x: Period,
) -> Beside
    requires region { IsSized p.now.given g.now }
    requires count { length ks.now ≡ machine_count p.now.given }
    requires machines { AreMachines p.now.given machines.now }
    requires resource { r < length p.now.given.resources }
    ensures more { result.more ≡ sum_by (λ v. the_most_anywhere p.now.given v r x (the_may_wait p.now.given (sets g.now) x v) (slice_index_or ks.now v no_standing) - the_base p.now.given v (AmountOf r)) machines.now }
    ensures less { result.less ≡ sum_by (λ v. the_base p.now.given v (AmountOf r) - the_most_anywhere p.now.given v r x (the_may_wait p.now.given (sets g.now) x v) (slice_index_or ks.now v no_standing)) machines.now }
    ensures small { result.more ≤ max_machines * max_amount }
{
    let mut more = 0;
    let mut less = 0;
    for i in 0..machines.len() {
        let v = VmId(machines[i]);
        let one = beside_base(p, v, r, x, may_wait(p, g, v, x), ks[v.0 as usize]);
        more += one.more;
        less += one.less;
    }
    Beside { more, less }
}

/// What the machines with these numbers surely use of a resource on all nodes at the most during a period, in the units of
/// the resource: what they have at present, but for those that may not stay.
pub fn most_total(
    p: &Problem,
    f: &Fixed,
    g: &Region,
    ks: &[Standing],
    movers: &[u32],
    r: u8,
    x: Period,
) -> u64
    requires fixed { IsFixed p.now.given f.now }
    requires region { IsSized p.now.given g.now }
    requires count { length ks.now ≡ machine_count p.now.given }
    requires movers { AreMovers p.now.given (sets g.now) movers.now }
    requires resource { r < length p.now.given.resources }
    ensures sum { result ≡ sum_to (machine_count p.now.given) (λ v. the_most_anywhere p.now.given v r x (the_may_wait p.now.given (sets g.now) x v) (slice_index_or ks.now v no_standing)) }
    ensures small { result ≤ max_machines * (2 * max_amount) }
{
    let beside = beside_bases(p, g, ks, movers, r, x);
    f.total_base(p, r) + beside.more - beside.less
}

/// A bound of that at all times that takes no look at a machine: what all have at present, and for each machine that may not
/// stay the most that any one uses. `None` where it is too large a number.
pub fn most_at_once(
    p: &Problem,
    f: &Fixed,
    _g: &Region,
    _ks: &[Standing],
    movers: &[u32],
    r: u8,
) -> Option<u64>
    requires fixed { IsFixed p.now.given f.now }
    requires movers { AreMovers p.now.given (sets _g.now) movers.now }
    requires resource { r < length p.now.given.resources }
    ensures { IfSome result (λ used. sum_to (machine_count p.now.given) (λ v. the_most_anywhere p.now.given v r (always p.now.given) (the_may_wait p.now.given (sets _g.now) (always p.now.given) v) (slice_index_or _ks.now v no_standing)) ≤ used) }
{
    let more = (movers.len() as u64).checked_mul(f.most(p, r))?;
    let used = f.total_base(p, r).checked_add(more)?;
    Some(used)
}
