//! What the machines near the nodes of a bounded amount are known to hold together, so that it is not added up at each question.
ghost use Rattle.std.specs.Prelude.{◌≡◌, ◌≤◌, ◌<◌, ◌*◌, IfSome, IsTrue};
ghost use Rattle.quick_checks.specs.Prelude.{AreKnown, AreLegal, IsSized, IsTally, IsWeight, machine_count, max_held, nodes_of, seen, sets, sure, total};

use crate::known::Known;
use crate::weighed::{NO_OTHER, listed, machine_total};
use catalogue::Problem;
use cluster::Instant;
use domains::{Lens, Region, View};
use relax::{Area, area_of, least_held, narrowed};
use slices::form::form_of;
use slices::{Form, Weight};

/// What the machines of a region surely hold together at an instant on the nodes of a constraint, or less.
#[derive(Clone, Copy)]
pub struct Tally {
    pub constraint: u32,
    pub at: Instant,
    pub total: u64,
}

/// What the machines near the nodes of the constraint of a number hold there; none where it bounds no amount.
pub fn tally_of(p: &Problem, region: &Region, known: &Known, c: u32, t: Instant) -> Option<Tally>
    requires region { IsSized p.now.given region.now }
    requires legal { AreLegal p.now.given (sets region.now) }
    requires known { AreKnown p.now.given (sets region.now) known.now.standings.now }
    ensures { IfSome result (IsTally p.now.given (sets region.now)) }
{
    let i = c as usize;
    if i >= p.constraints().len() {
        return None;
    }
    let Form::Bounded(weight, nodes, _) = form_of(&p.constraints()[i]) else {
        return None;
    };
    let view = View {
        region,
        lens: Lens::Whole,
    };
    let area = area_of(p, nodes);
    let list = known.nearby.of_constraint(c);
    let sum = listed(p, &view, known.standings, weight, &area, t, list, NO_OTHER);
    Some(Tally {
        constraint: c,
        at: t,
        total: sum.total,
    })
}

/// Whether more is held than an amount by what is known to be held in the region, once the machine that a lens narrows is counted as it is seen.
pub fn exceeds(
    p: &Problem,
    view: &View,
    known_total: u64,
    weight: Weight,
    area: &Area,
    amount: u64,
    t: Instant,
) -> bool
    requires region { IsSized p.now.given view.now.region.now }
    requires weight { IsWeight p.now.given weight }
    requires total { known_total ≤ total p.now.given (sure p.now.given (sets view.now.region.now) t) weight (nodes_of p.now.given area.now) }
    requires small { known_total ≤ machine_count p.now.given * max_held }
    ensures { IsTrue result → amount < total p.now.given (sure p.now.given (seen view.now.region.now view.now.lens) t) weight (nodes_of p.now.given area.now) }
{
    let Some(v) = narrowed(view.lens) else {
        return amount < known_total;
    };
    if v.0 as usize >= machine_total(p) {
        return amount < known_total;
    }
    let whole = View {
        region: view.region,
        lens: Lens::Whole,
    };
    let before = least_held(p, &whole, v, weight, area, t);
    let sum = known_total + least_held(p, view, v, weight, area, t);
    before <= sum && amount < sum - before
}
