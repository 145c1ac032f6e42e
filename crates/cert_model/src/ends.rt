//! The sum of the least ends of a region, kept from step to step.
ghost use Rattle.std.specs.Prelude.{◌≡◌, ◌≤◌};
ghost use Rattle.cert_model.specs.Prelude.{AreLegal, end_of, inside, IsElement, IsSized, keeping, least_cost as least_cost_of, lowest, max_cost, on_side, outside, seen, sets};

use bound::ends::after_loss;
use catalogue::Problem;
use cluster::Element;
use domains::{Lens, Part, Region, Side, View};
use relax::sure::least_end;

/// The sum of the least ends of a region with one element narrowed to one side of a part, from the sum
/// of the region.
pub fn sum_seen(p: &Problem, g: &Region, sum: u64, x: Element, part: Part, side: Side) -> u64
    requires region { IsSized p.now.given g.now }
    requires legal { AreLegal p.now.given (sets g.now) }
    requires sum { sum ≡ least_cost_of p.now.given (sets g.now) }
    requires element { IsElement p.now.given x }
    ensures { result ≡ least_cost_of p.now.given (keeping x (on_side side part) (sets g.now)) }
{
    match side {
        Side::Inside => sum_inside(p, g, sum, x, part),
        Side::Outside => sum_outside(p, g, sum, x, part),
    }
}

// the sum with one element narrowed to a part
fn sum_inside(p: &Problem, g: &Region, sum: u64, x: Element, part: Part) -> u64
    requires region { IsSized p.now.given g.now }
    requires legal { AreLegal p.now.given (sets g.now) }
    requires sum { sum ≡ least_cost_of p.now.given (sets g.now) }
    requires element { IsElement p.now.given x }
    ensures { result ≡ least_cost_of p.now.given (inside x part (sets g.now)) }
{
    let old = end_seen(p, g, x, Lens::Whole).unwrap_or(0);
    let new = end_seen(p, g, x, Lens::Inside(x, part)).unwrap_or(0);
    (sum - old) + new
}

// the sum with one element narrowed to what is not in a part, told by what it loses
fn sum_outside(p: &Problem, g: &Region, sum: u64, x: Element, part: Part) -> u64
    requires region { IsSized p.now.given g.now }
    requires legal { AreLegal p.now.given (sets g.now) }
    requires sum { sum ≡ least_cost_of p.now.given (sets g.now) }
    requires element { IsElement p.now.given x }
    ensures { result ≡ least_cost_of p.now.given (outside x part (sets g.now)) }
{
    let gone = end_seen(p, g, x, Lens::Inside(x, part));
    after_loss(p, x, gone, g.domain(x), Some(part), sum)
}

// the least end of an element under a lens, if it has a choice
fn end_seen(p: &Problem, g: &Region, x: Element, lens: Lens) -> Option<u64>
    requires region { IsSized p.now.given g.now }
    requires element { IsElement p.now.given x }
    ensures { result ≡ lowest (end_of p.now.given x) (seen g.now lens x) }
{
    let view = View { region: g, lens };
    least_end(p, &view, x)
}
