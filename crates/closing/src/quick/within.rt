//! What machines hold together, within an amount at every instant.
ghost use Rattle.std.specs.Prelude.{◌≡◌, ℕ, ◌+◌, ◌<◌, ◌≤◌, ◌*◌, IsTrue};
ghost use Rattle.closing.specs.Prelude.{AreWithin, IsMostOf, IsMostSure, IsSized, IsWeight, machine_count, max_amount, max_machines, nodes_of, sets, StaysWithin};

use crate::shared::counts::machines_of;
use crate::shared::most::{most_ever, most_of, most_sure};
use catalogue::Problem;
use cluster::VmId;
use domains::Region;
use relax::Area;
use slices::Weight;

// how much more than what it surely holds a machine may hold, or what others may, where that is more; its rows are
// read only where that matters
fn more_with(
    p: &Problem,
    g: &Region,
    v: VmId,
    weight: Weight,
    area: &Area,
    held: u64,
    more: u64,
) -> u64
    requires region { IsSized p.now.given g.now }
    requires machine { v.0 < machine_count p.now.given }
    requires weight { IsWeight p.now.given weight }
    requires small { held ≤ 2 * max_amount }
    requires small_more { more ≤ 2 * max_amount }
    ensures more { more ≤ result }
    ensures most { IsMostOf p.now.given (sets g.now) weight (nodes_of p.now.given area.now) v.0 (held + result) }
    ensures small { result ≤ 2 * max_amount }
{
    if most_ever(p, v, weight, area) <= held + more {
        return more;
    }
    let most = most_of(p, g, v, weight, area);
    if most <= held + more {
        more
    } else {
        most - held
    }
}

/// Whether it is seen that what machines hold stays within an amount at every instant, with any one set to any of
/// its choices.
pub fn stays_within(p: &Problem, g: &Region, weight: Weight, area: &Area, amount: u64) -> bool
    requires region { IsSized p.now.given g.now }
    requires weight { IsWeight p.now.given weight }
    ensures { IsTrue result → StaysWithin p.now.given (sets g.now) weight (nodes_of p.now.given area.now) amount }
{
    let mut total = 0;
    let mut more = 0;
    for i in 0..machines_of(p) {
        let v = VmId(i as u32);
        let held = most_sure(p, g, v, weight, area);
        total += held;
        more = more_with(p, g, v, weight, area, held, more);
        if total + more > amount {
            return false;
        }
    }
    true
}
