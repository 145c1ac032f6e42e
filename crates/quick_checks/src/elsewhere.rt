//! Machines that run and are in an area wherever they go, which is told without what they hold under each choice.
ghost use Rattle.std.specs.Prelude.{◌≡◌, ℕ, ◌<◌, length, slice_index_or, IsTrue};
ghost use Rattle.quick_checks.specs.Prelude.{GoesInto, IsSized, machine_count, never, no_row, nodes_of, seen, sets, sure};

use catalogue::Problem;
use cluster::{Element, Instant, NodeId, Place, VmId};
use domains::{Region, Row, View};
use relax::{Area, has};
use standings::leaves::{leaves_of, runs_on};
use standings::seen::is_narrowed;

// whether a place is a node of an area other than a host
fn goes_into(p: &Problem, h: NodeId, area: &Area, place: Place) -> bool
    ensures { IsTrue result → GoesInto p.now.given h (nodes_of p.now.given area.now) place }
{
    match place {
        Place::Nowhere => false,
        Place::At(n) => {
            (n.0 as usize) < p.cluster().nodes().len() && n.0 != h.0 && has(p, area, n)
        }
    }
}

// whether so is the place of each row
fn rows_go_into(p: &Problem, h: NodeId, area: &Area, rows: &[Row]) -> bool
    ensures { IsTrue result → (k : ℕ) → k < length rows.now → GoesInto p.now.given h (nodes_of p.now.given area.now) (slice_index_or rows.now k no_row).place }
{
    for k in 0..rows.len() {
        if !goes_into(p, h, area, rows[k].place) {
            return false;
        }
    }
    true
}

// whether a machine that runs in an area, and is to run on, goes to nodes of it alone: then it is there at all times
fn stays_within(p: &Problem, g: &Region, v: VmId, area: &Area) -> bool
    requires region { IsSized p.now.given g.now }
    requires machine { v.0 < machine_count p.now.given }
    ensures { IsTrue result → (t : ℕ) → t < never → IsTrue ((sure p.now.given (sets g.now) t).present v.0 (nodes_of p.now.given area.now)) }
{
    let Some(h) = runs_on(p, v) else {
        return false;
    };
    let Some(leaves) = leaves_of(p, v) else {
        return false;
    };
    if h.0 != leaves.host.0 || !has(p, area, h) {
        return false;
    }
    rows_go_into(p, h, area, g.domain(Element::Vm(v)).rows())
}

/// Whether a machine, of which all choices are seen, is told to be in an area by the places where it goes.
pub fn is_always_in(p: &Problem, view: &View, v: VmId, area: &Area, _t: Instant) -> bool
    requires region { IsSized p.now.given view.now.region.now }
    requires machine { v.0 < machine_count p.now.given }
    ensures { IsTrue result → IsTrue ((sure p.now.given (seen view.now.region.now view.now.lens) _t).present v.0 (nodes_of p.now.given area.now)) }
{
    if is_narrowed(view.lens, v) {
        return false;
    }
    stays_within(p, view.region, v, area)
}
