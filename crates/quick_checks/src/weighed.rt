//! Whether some machines alone are seen to hold too much on the nodes of a set.
ghost use Rattle.std.specs.Prelude.{◌≡◌, ◌<◌, length, IfSome, IsTrue};
ghost use Rattle.quick_checks.specs.Prelude.{Amount as AmountOf, AreKnown, AreLegal, BoundsAmount, has_node, IsOverload, IsSized, IsTally, IsWeighed, IsWeight, machine_count, nodes_of, room as room_of, seen, sets, sure, total};

use crate::known::{Known, held};
use crate::tally::{Tally, exceeds};
use catalogue::Problem;
use cluster::{Instant, NodeSet, VmId};
use domains::{Lens, View};
use relax::{Area, area_of, narrowed, room};
use slices::Weight;
use standings::numbers::Standing;
use standings::seen::room_seen;

/// What some of the machines before a number surely hold together, or less.
#[derive(Clone, Copy)]
pub struct Weighed {
    pub next: usize,
    pub total: u64,
}

/// The number of no machine.
pub(crate) const NO_OTHER: u32 = u32::MAX;

// how many machines there are
pub(crate) fn machine_total(p: &Problem) -> usize
    ensures { result ≡ machine_count p.now.given }
{
    p.cluster().machines().len()
}

// the number of the machine of which a lens may not show all choices; past all machines where there is none
fn other_of(p: &Problem, lens: Lens) -> u32 {
    match narrowed(lens) {
        Some(v) => v.0,
        None => machine_total(p) as u32,
    }
}

// with a machine more, if there is such a one and it is not before the number
fn with(
    p: &Problem,
    view: &View,
    ks: &[Standing],
    weight: Weight,
    area: &Area,
    t: Instant,
    sum: Weighed,
    v: u32,
) -> Weighed
    requires region { IsSized p.now.given view.now.region.now }
    requires weight { IsWeight p.now.given weight }
    requires legal { AreLegal p.now.given (sets view.now.region.now) }
    requires known { AreKnown p.now.given (sets view.now.region.now) ks.now }
    requires sum { IsWeighed p.now.given (sure p.now.given (seen view.now.region.now view.now.lens) t) weight (nodes_of p.now.given area.now) sum }
    ensures { IsWeighed p.now.given (sure p.now.given (seen view.now.region.now view.now.lens) t) weight (nodes_of p.now.given area.now) result }
{
    let i = v as usize;
    if i < sum.next || i >= machine_total(p) {
        return sum;
    }
    Weighed {
        next: i + 1,
        total: sum.total + held(p, view, ks, weight, area, t, VmId(v)),
    }
}

// what the machines of a list and one other hold, if there is such a one; those out of order are left out
pub(crate) fn listed(
    p: &Problem,
    view: &View,
    ks: &[Standing],
    weight: Weight,
    area: &Area,
    t: Instant,
    list: &[u32],
    other: u32,
) -> Weighed
    requires region { IsSized p.now.given view.now.region.now }
    requires weight { IsWeight p.now.given weight }
    requires legal { AreLegal p.now.given (sets view.now.region.now) }
    requires known { AreKnown p.now.given (sets view.now.region.now) ks.now }
    ensures { IsWeighed p.now.given (sure p.now.given (seen view.now.region.now view.now.lens) t) weight (nodes_of p.now.given area.now) result }
{
    let mut sum = Weighed { next: 0, total: 0 };
    for i in 0..list.len() {
        if other < list[i] {
            sum = with(p, view, ks, weight, area, t, sum, other);
        }
        sum = with(p, view, ks, weight, area, t, sum, list[i]);
    }
    with(p, view, ks, weight, area, t, sum, other)
}

// what all machines use
fn all_used(p: &Problem, view: &View, ks: &[Standing], r: u8, area: &Area, t: Instant) -> Weighed
    requires region { IsSized p.now.given view.now.region.now }
    requires resource { r < length p.now.given.resources }
    requires legal { AreLegal p.now.given (sets view.now.region.now) }
    requires known { AreKnown p.now.given (sets view.now.region.now) ks.now }
    ensures { IsWeighed p.now.given (sure p.now.given (seen view.now.region.now view.now.lens) t) (AmountOf r) (nodes_of p.now.given area.now) result }
{
    let mut sum = Weighed { next: 0, total: 0 };
    for i in 0..machine_total(p) {
        sum = with(p, view, ks, Weight::Amount(r), area, t, sum, i as u32);
    }
    sum
}

// what the machines use that count: those near the first node of a set, or all of them where it has all nodes
fn used_in(
    p: &Problem,
    view: &View,
    known: &Known,
    r: u8,
    set: &NodeSet,
    area: &Area,
    t: Instant,
) -> Weighed
    requires region { IsSized p.now.given view.now.region.now }
    requires resource { r < length p.now.given.resources }
    requires legal { AreLegal p.now.given (sets view.now.region.now) }
    requires known { AreKnown p.now.given (sets view.now.region.now) known.now.standings.now }
    ensures { IsWeighed p.now.given (sure p.now.given (seen view.now.region.now view.now.lens) t) (AmountOf r) (nodes_of p.now.given area.now) result }
{
    if matches!(area, Area::All) {
        return all_used(p, view, known.standings, r, area, t);
    }
    let list = known.nearby.of_first(set);
    listed(
        p,
        view,
        known.standings,
        Weight::Amount(r),
        area,
        t,
        list,
        other_of(p, view.lens),
    )
}

// the room of an area; that of one node is told without its choices, where it may stay as it is
fn room_in(p: &Problem, view: &View, r: u8, area: &Area, t: Instant) -> u64
    requires region { IsSized p.now.given view.now.region.now }
    requires resource { r < length p.now.given.resources }
    ensures { result ≡ room_of p.now.given (sure p.now.given (seen view.now.region.now view.now.lens) t) r (nodes_of p.now.given area.now) }
{
    if let Area::One(n) = area {
        if (n.0 as usize) < p.cluster().nodes().len() {
            return room_seen(p, view, r, *n, t);
        }
    }
    room(p, view, r, area, t)
}

/// Whether machines use more of a resource on the nodes of a set than there is room for: those near its first node, or all.
pub fn is_over(p: &Problem, view: &View, known: &Known, r: u8, set: &NodeSet, t: Instant) -> bool
    requires region { IsSized p.now.given view.now.region.now }
    requires resource { r < length p.now.given.resources }
    requires legal { AreLegal p.now.given (sets view.now.region.now) }
    requires known { AreKnown p.now.given (sets view.now.region.now) known.now.standings.now }
    ensures { IsTrue result → IsOverload p.now.given (sure p.now.given (seen view.now.region.now view.now.lens) t) r (has_node set.now) }
{
    let area = area_of(p, set);
    let sum = used_in(p, view, known, r, set, &area, t);
    room_in(p, view, r, &area, t) < sum.total
}

// whether that is told by what is known to be held together there
fn is_tallied(
    p: &Problem,
    view: &View,
    tally: Option<Tally>,
    c: u32,
    weight: Weight,
    set: &NodeSet,
    area: &Area,
    amount: u64,
    t: Instant,
) -> bool
    requires region { IsSized p.now.given view.now.region.now }
    requires weight { IsWeight p.now.given weight }
    requires tally { IfSome tally (IsTally p.now.given (sets view.now.region.now)) }
    requires area { nodes_of p.now.given area.now ≡ has_node set.now }
    requires bounds { BoundsAmount p.now.given c weight set.now amount }
    ensures { IsTrue result → amount < total p.now.given (sure p.now.given (seen view.now.region.now view.now.lens) t) weight (nodes_of p.now.given area.now) }
{
    match tally {
        None => false,
        Some(x) => {
            x.constraint == c && x.at == t && exceeds(p, view, x.total, weight, area, amount, t)
        }
    }
}

/// Whether the machines that are near the nodes of a constraint hold more there than its amount: by what is known to be held together
/// there, or else one after the other.
pub fn is_above(
    p: &Problem,
    view: &View,
    known: &Known,
    c: u32,
    weight: Weight,
    set: &NodeSet,
    amount: u64,
    t: Instant,
) -> bool
    requires region { IsSized p.now.given view.now.region.now }
    requires weight { IsWeight p.now.given weight }
    requires legal { AreLegal p.now.given (sets view.now.region.now) }
    requires known { AreKnown p.now.given (sets view.now.region.now) known.now.standings.now }
    requires tally { IfSome known.now.tally (IsTally p.now.given (sets view.now.region.now)) }
    requires bounds { BoundsAmount p.now.given c weight set.now amount }
    ensures { IsTrue result → amount < total p.now.given (sure p.now.given (seen view.now.region.now view.now.lens) t) weight (has_node set.now) }
{
    let area = area_of(p, set);
    if is_tallied(p, view, known.tally, c, weight, set, &area, amount, t) {
        return true;
    }
    let list = known.nearby.of_constraint(c);
    let other = other_of(p, view.lens);
    let sum = listed(p, view, known.standings, weight, &area, t, list, other);
    amount < sum.total
}
