//! How soon a machine gives up its host, and until when it may be there.
ghost use Rattle.std.specs.Prelude.{◌≡◌, ◌<◌, ◌≤◌, IfSome, IsTrue, ℕ};
ghost use Rattle.std.specs.List.{Contains};
ghost use Rattle.cluster.specs.declared.choices.Choice.{Choice as AnyChoice};
ghost use Rattle.machine_bounds.specs.Prelude.{Act, AreFewer, AreLeaves, choices, domain_before, IsElement, IsEnd, least, leave_of, machine_count};

use catalogue::Problem;
use cluster::{Choice, Element, Instant, Place, VmId};
use domains::measure::{Measure, lowest, lowest_lost};
use domains::{Before, Domain, Row};
use standings::leaves::{Leaves, leaves_of};
use standings::numbers::{Leaving, LeavingFrom, NEVER, leave};

// how a machine leaves its host, where all its starts are at nodes; a row at no node comes before all others
fn leaves_for_nodes(p: &Problem, v: VmId, domain: &Domain) -> Option<Leaves>
    requires { IsElement p.now.given (Element.Vm v) }
    ensures { IfSome result (AreLeaves p.now.given v.0) }
{
    match domain.rows() {
        [] => None,
        [first, ..] => {
            if first.place == Place::Nowhere {
                None
            } else {
                leaves_of(p, v)
            }
        }
    }
}

/// Until when a machine may surely be on its host: as long as each of its choices keeps it there, or longer.
pub fn leave_or_later(p: &Problem, v: VmId, domain: &Domain) -> u64
    requires { IsElement p.now.given (Element.Vm v) }
    ensures { least (leave_of p.now.given v.0) (choices domain.now) ≤ result }
{
    if domain.rows().len() == 0 {
        return NEVER;
    }
    match leaves_for_nodes(p, v, domain) {
        None => leave(p, v, domain),
        Some(leaves) => {
            let leaving = Leaving {
                problem: p,
                machine: v,
                leaves: Some(leaves),
            };
            let floor = leaves.lasts;
            lowest(domain, None, &LeavingFrom { leaving, floor }).unwrap_or(0)
        }
    }
}

// until when a machine keeps its host under the last start of a row
fn kept_at_last(p: &Problem, v: VmId, row: Row) -> u64
    requires machine { IsElement p.now.given (Element.Vm v) }
    ensures { result ≡ leave_of p.now.given v.0 (Act row.place row.hi) }
{
    let leaving = Leaving {
        problem: p,
        machine: v,
        leaves: None,
    };
    leaving.value(Choice::Act {
        place: row.place,
        start: row.hi,
    })
}

/// Whether under no end of its choices a machine keeps its host past an instant.
pub fn leaves_by(p: &Problem, v: VmId, domain: &Domain, t: Instant) -> bool
    requires machine { IsElement p.now.given (Element.Vm v) }
    ensures { IsTrue result → (c : AnyChoice) → IsEnd (choices domain.now) c → leave_of p.now.given v.0 c ≤ t }
{
    if domain.idle() {
        return false;
    }
    let rows = domain.rows();
    for i in 0..rows.len() {
        if kept_at_last(p, v, rows[i]) > u64::from(t) {
            return false;
        }
    }
    true
}

/// Whether under some choice a machine gives its host up by an instant: the places are read up to one under which it does.
pub fn may_leave_by(p: &Problem, v: VmId, domain: &Domain, by: u64) -> bool
    requires machine { v.0 < machine_count p.now.given }
    ensures { IsTrue result → (c : AnyChoice) × Contains (choices domain.now) c × (leave_of p.now.given v.0 c ≤ by) }
{
    let leaving = Leaving {
        problem: p,
        machine: v,
        leaves: leaves_of(p, v),
    };
    let rows = domain.rows();
    // places are mostly taken away from the first one on, so the last one is asked first
    for i in 0..rows.len() {
        let row = rows[rows.len() - 1 - i];
        let start = Choice::Act {
            place: row.place,
            start: row.lo,
        };
        if leaving.value(start) <= by {
            return true;
        }
    }
    false
}

/// Whether it is seen that a machine gives its host up no later than before it lost some choices.
#[tactic(auto, using(crate::proofs::LeavingLemmas::as_soon, crate::proofs::LeavingLemmas::none_lost))]
pub fn leaves_as_soon(p: &Problem, v: VmId, domain: &Domain, before: Before, _kept: &Domain) -> bool
    requires machine { v.0 < machine_count p.now.given }
    requires fewer { AreFewer (choices domain.now) (choices (domain_before before _kept.now domain.now)) }
    ensures { IsTrue result → least (leave_of p.now.given v.0) (choices domain.now) ≤ least (leave_of p.now.given v.0) (choices (domain_before before _kept.now domain.now)) }
{
    let Before::Lost(lost) = before else {
        return false;
    };
    let leaving = Leaving {
        problem: p,
        machine: v,
        leaves: leaves_of(p, v),
    };
    match lowest_lost(lost, &leaving) {
        None => true,
        Some(first) => may_leave_by(p, v, domain, first),
    }
}
