//! Whether all nodes together are overloaded, told by the machines that may not stay.
ghost use Rattle.std.specs.Prelude.{◌≡◌, ◌≢◌, ℕ, ◌+◌, ◌-◌, ◌*◌, ◌<◌, ◌≤◌, IfNone, IfSome, IsTrue, length};
ghost use Rattle.std.specs.List.{Contains, sum_by};
ghost use Rattle.load_bounds.specs.HoldOn.{StayersHoldOn};
ghost use Rattle.load_bounds.specs.Prelude.{all_nodes, Amount as AmountOf, AreMachines, AreMovers, base as the_base, IsFixed, IsOverload, IsSized, load as load_of, machine_count, max_amount, max_held, max_machines, RegionView, seen, sets, sum_to, sure, vm};

use crate::total_uses::Beside;
use crate::{Fixed, base};
use catalogue::Problem;
use cluster::{Instant, VmId};
use domains::View;
use profiles::movers::Movers;
use relax::Area;
use relax::sure::least_held;
use relax::totals::room;
use slices::Weight;
use standings::seen::narrowed;

// how much more a machine surely uses on all nodes than at present, or less
fn beside_one(p: &Problem, view: &View, v: VmId, r: u8, t: Instant) -> Beside
    requires region { IsSized p.now.given view.now.region.now }
    requires machine { v.0 < machine_count p.now.given }
    requires resource { r < length p.now.given.resources }
    ensures more { result.more ≡ (sure p.now.given (seen view.now.region.now view.now.lens) t).held v.0 (AmountOf r) (all_nodes p.now.given) - the_base p.now.given v.0 (AmountOf r) }
    ensures less { result.less ≡ the_base p.now.given v.0 (AmountOf r) - (sure p.now.given (seen view.now.region.now view.now.lens) t).held v.0 (AmountOf r) (all_nodes p.now.given) }
    ensures few_more { result.more ≤ max_held }
    ensures few_less { result.less ≤ max_amount }
{
    let had = base(p, v, Weight::Amount(r));
    let held = least_held(p, view, v, Weight::Amount(r), &Area::All, t);
    Beside {
        more: held.saturating_sub(had),
        less: had.saturating_sub(held),
    }
}

// those of a list
fn beside_all(p: &Problem, view: &View, machines: &[u32], r: u8, t: Instant) -> Beside
    requires region { IsSized p.now.given view.now.region.now }
    requires machines { AreMachines p.now.given machines.now }
    requires resource { r < length p.now.given.resources }
    ensures more { result.more ≡ sum_by (λ v. (sure p.now.given (seen view.now.region.now view.now.lens) t).held v (AmountOf r) (all_nodes p.now.given) - the_base p.now.given v (AmountOf r)) machines.now }
    ensures less { result.less ≡ sum_by (λ v. the_base p.now.given v (AmountOf r) - (sure p.now.given (seen view.now.region.now view.now.lens) t).held v (AmountOf r) (all_nodes p.now.given)) machines.now }
    ensures few_more { result.more ≤ max_machines * max_held }
    ensures few_less { result.less ≤ max_machines * max_amount }
{
    let mut more = 0;
    let mut less = 0;
    for i in 0..machines.len() {
        let one = beside_one(p, view, VmId(machines[i]), r, t);
        more += one.more;
        less += one.less;
    }
    Beside { more, less }
}

// the machine of which a lens may not show all choices, where it is not listed
fn left_out(p: &Problem, view: &View, movers: &Movers) -> Option<VmId>
    ensures none { IfNone result ((g : RegionView) (v : ℕ) → v < machine_count p.now.given → ¬ Contains movers.now.top v → seen g view.now.lens (vm v) ≡ sets g (vm v)) }
    ensures some { IfSome result (λ x. (x.0 < machine_count p.now.given) × (¬ Contains movers.now.top x.0)) }
    ensures others { IfSome result (λ x. (g : RegionView) (v : ℕ) → v ≢ x.0 → seen g view.now.lens (vm v) ≡ sets g (vm v)) }
{
    let v = narrowed(view.lens)?;
    if v.0 as usize >= p.cluster().machines().len() {
        return None;
    }
    if movers.has(v) {
        return None;
    }
    Some(v)
}

// those of all machines: who may stay, and of whom all choices are seen, uses what it has
fn beside_seen(p: &Problem, view: &View, movers: &Movers, r: u8, t: Instant) -> Beside
    requires region { IsSized p.now.given view.now.region.now }
    requires movers { AreMovers p.now.given (sets view.now.region.now) movers.now.top }
    requires hold { StayersHoldOn p.now.given (sets view.now.region.now) }
    requires resource { r < length p.now.given.resources }
    ensures all { load_of p.now.given (sure p.now.given (seen view.now.region.now view.now.lens) t) r (all_nodes p.now.given) + result.less ≡ sum_to (machine_count p.now.given) (λ v. the_base p.now.given v (AmountOf r)) + result.more }
    ensures few_more { result.more ≤ max_machines * max_held + max_held }
{
    let listed = beside_all(p, view, movers.machines(), r, t);
    match left_out(p, view, movers) {
        None => listed,
        Some(v) => {
            let one = beside_one(p, view, v, r, t);
            Beside {
                more: listed.more + one.more,
                less: listed.less + one.less,
            }
        }
    }
}

/// Whether machines surely use more of a resource than all nodes have room for, at an instant, in what is seen. A no may be
/// one too many.
pub fn is_over_all(p: &Problem, view: &View, f: &Fixed, movers: &Movers, r: u8, t: Instant) -> bool
    requires region { IsSized p.now.given view.now.region.now }
    requires fixed { IsFixed p.now.given f.now }
    requires movers { AreMovers p.now.given (sets view.now.region.now) movers.now.top }
    requires hold { StayersHoldOn p.now.given (sets view.now.region.now) }
    requires resource { r < length p.now.given.resources }
    ensures { IsTrue result → IsOverload p.now.given (sure p.now.given (seen view.now.region.now view.now.lens) t) r (all_nodes p.now.given) }
{
    let beside = beside_seen(p, view, movers, r, t);
    let room = room(p, view, r, &Area::All, t);
    room.saturating_add(beside.less) < f.total_base(p, r) + beside.more
}
