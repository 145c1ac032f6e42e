//! On which nodes a machine may be under a choice, whenever a constraint is due.
ghost use Rattle.std.specs.Prelude.{◌≡◌, ◌<◌, ◌≤◌, IfSome, IsTrue};
ghost use Rattle.rule_group.specs.Prelude.{AreLeaves, AreSpots, Choice as AnyChoice, HasHost, IsElement, IsPlaceSpot, leave_of, machine_count};

use domains::measure::Measure;
use rule_constraint::host;
use rule_frame::{Choice, Element, NodeId, Place, Problem, Row, VmId};
use standings::leaves::{Leaves, left_by};
use standings::numbers::Leaving;

/// The nodes on which a machine may be: its host, as long as that may count, and the place of its action.
#[derive(Clone, Copy)]
pub struct Spots {
    pub host: Option<NodeId>,
    pub place: Option<NodeId>,
}

// until when a choice keeps what a machine has on its host; how it leaves is mostly known
fn left(p: &Problem, v: VmId, leaves: Option<Leaves>, c: Choice) -> u64
    requires machine { IsElement p.now.given (Element.Vm v) }
    requires leaves { IfSome leaves (AreLeaves p.now.given v.0) }
    ensures { result ≡ leave_of p.now.given v.0 c }
{
    if let Some(known) = leaves {
        if let Some(left) = left_by(p, v, known, c) {
            return left;
        }
    }
    let leaving = Leaving {
        problem: p,
        machine: v,
        leaves,
    };
    leaving.value(c)
}

// whether a machine leaves its host by the horizon under both ends of a row
fn leaves_in_time(p: &Problem, v: VmId, leaves: Option<Leaves>, row: Row) -> bool
    requires machine { IsElement p.now.given (Element.Vm v) }
    requires leaves { IfSome leaves (AreLeaves p.now.given v.0) }
    ensures { IsTrue result → (leave_of p.now.given v.0 (AnyChoice.Act row.place row.lo) ≤ p.now.given.horizon) × (leave_of p.now.given v.0 (AnyChoice.Act row.place row.hi) ≤ p.now.given.horizon) }
{
    let first = Choice::Act {
        place: row.place,
        start: row.lo,
    };
    let last = Choice::Act {
        place: row.place,
        start: row.hi,
    };
    let end = u64::from(p.horizon());
    left(p, v, leaves, first) <= end && left(p, v, leaves, last) <= end
}

// the host of a machine, where it may be there under an end of a row when the constraint is due
#[tactic(auto, using(crate::proofs::SpotLemmas::no_host, crate::proofs::SpotLemmas::has_left, crate::proofs::SpotLemmas::has_host))]
fn host_spot(p: &Problem, always: bool, v: VmId, leaves: Option<Leaves>, row: Row) -> Option<NodeId>
    requires machine { v.0 < machine_count p.now.given }
    requires leaves { IfSome leaves (AreLeaves p.now.given v.0) }
    ensures first { HasHost p.now.given always v.0 (AnyChoice.Act row.place row.lo) result }
    ensures last { HasHost p.now.given always v.0 (AnyChoice.Act row.place row.hi) result }
{
    if !always && leaves_in_time(p, v, leaves, row) {
        return None;
    }
    let Some(h) = host(p, v) else {
        return None;
    };
    Some(h)
}

/// The node of a place.
pub fn place_spot(place: Place) -> Option<NodeId>
    ensures { IsPlaceSpot place result }
{
    match place {
        Place::Nowhere => None,
        Place::At(n) => Some(n),
    }
}

/// Where a machine may be under an end of a row.
pub fn spots_of_row(p: &Problem, always: bool, v: VmId, leaves: Option<Leaves>, row: Row) -> Spots
    requires machine { v.0 < machine_count p.now.given }
    requires leaves { IfSome leaves (AreLeaves p.now.given v.0) }
    ensures first { AreSpots p.now.given always v.0 (AnyChoice.Act row.place row.lo) result }
    ensures last { AreSpots p.now.given always v.0 (AnyChoice.Act row.place row.hi) result }
{
    Spots {
        host: host_spot(p, always, v, leaves, row),
        place: place_spot(row.place),
    }
}

// the host of a machine that stays
#[tactic(auto, using(crate::proofs::SpotLemmas::no_host, crate::proofs::SpotLemmas::has_host))]
fn kept_host(p: &Problem, always: bool, v: VmId) -> Option<NodeId>
    requires { v.0 < machine_count p.now.given }
    ensures { HasHost p.now.given always v.0 AnyChoice.Idle result }
{
    let Some(h) = host(p, v) else {
        return None;
    };
    Some(h)
}

/// Where it may be that stays as it is.
#[tactic(auto, using(crate::proofs::SpotLemmas::idle_spots))]
pub fn spots_of_idle(p: &Problem, always: bool, v: VmId) -> Spots
    requires { v.0 < machine_count p.now.given }
    ensures { AreSpots p.now.given always v.0 AnyChoice.Idle result }
{
    Spots {
        host: kept_host(p, always, v),
        place: None,
    }
}
