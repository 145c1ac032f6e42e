//! What a machine holds more under an end of its choices than at least.
ghost use Rattle.std.specs.Prelude.{◌≡◌, ℕ, ◌+◌, ◌<◌, ◌≤◌, ◌*◌, ◌^◌, IfNone, IfSome};
ghost use Rattle.relax.specs.Prelude.{held_at, IsElement, IsSized, IsWeight, machine_count, max_amount, Nodes, nodes_of, sets, vm};
ghost use Rattle.{cluster.specs.declared.choices.Choice.Choice as AnyChoice, closing.specs.Parts.HoldsAbove as IsHeldAbove, closing.specs.Parts.IsAbove, closing.specs.Parts.IsSpared};

use crate::shared::counts::machines_of;
use crate::shared::ends::{Test, end_that};
use crate::shared::most::{most_ever, most_of};
use catalogue::Problem;
use cluster::{Choice, Element, Instant, VmId};
use domains::{Lens, Region, View};
use relax::{Area, held, least_held};
use slices::Weight;

/// Whether a machine holds more on the nodes of an area at an instant than a bound.
#[derive(Drop)]
pub struct HoldsAbove<'a> {
    pub problem: &'a Problem,
    pub machine: VmId,
    pub weight: Weight,
    pub area: &'a Area,
    pub at: Instant,
    pub bound: u64,
}

impl Test for HoldsAbove<'_> {
    ghost ready = { λ m. IsElement m.problem.now.given (vm m.machine.0) × IsWeight m.problem.now.given m.weight };

    ghost meant = { λ m. IsHeldAbove m.problem.now.given m.machine.0 m.weight (nodes_of m.problem.now.given m.area.now) m.at m.bound };

    fn passes(&self, c: Choice) -> bool {
        held(
            self.problem,
            self.machine,
            self.weight,
            self.area,
            c,
            self.at,
        ) > self.bound
    }
}

// an end of a machine's choices under which it holds more than its least and what is spare
fn end_above(
    p: &Problem,
    g: &Region,
    v: VmId,
    weight: Weight,
    area: &Area,
    t: Instant,
    spare: u64,
) -> Option<Choice>
    requires region { IsSized p.now.given g.now }
    requires machine { v.0 < machine_count p.now.given }
    requires weight { IsWeight p.now.given weight }
    ensures none { IfNone result (IsSpared p.now.given (sets g.now) weight (nodes_of p.now.given area.now) t spare v.0) }
    ensures some { IfSome result (IsAbove p.now.given (sets g.now) weight (nodes_of p.now.given area.now) t spare v.0) }
{
    if most_ever(p, v, weight, area) <= spare {
        return None;
    }
    let most = most_of(p, g, v, weight, area);
    if most <= spare {
        return None;
    }
    let view = View {
        region: g,
        lens: Lens::Whole,
    };
    let bound = spare + least_held(p, &view, v, weight, area, t);
    if most <= bound {
        return None;
    }
    let test = HoldsAbove {
        problem: p,
        machine: v,
        weight,
        area,
        at: t,
        bound,
    };
    end_that(g.domain(Element::Vm(v)), &test)
}

/// A machine and an end of its choices under which it holds more than its least and what is spare.
pub fn machine_above(
    p: &Problem,
    g: &Region,
    weight: Weight,
    area: &Area,
    t: Instant,
    spare: u64,
) -> Option<(VmId, Choice)>
    requires region { IsSized p.now.given g.now }
    requires weight { IsWeight p.now.given weight }
    ensures none { IfNone result ((v : ℕ) → v < machine_count p.now.given → IsSpared p.now.given (sets g.now) weight (nodes_of p.now.given area.now) t spare v) }
    ensures some { IfSome result (λ x. (x.0.0 < machine_count p.now.given) × IsAbove p.now.given (sets g.now) weight (nodes_of p.now.given area.now) t spare x.0.0 x.1) }
{
    for i in 0..machines_of(p) {
        let v = VmId(i as u32);
        if let Some(c) = end_above(p, g, v, weight, area, t, spare) {
            return Some((v, c));
        }
    }
    None
}
