//! What a step claims of the region that is due, tried in order.
ghost use Rattle.std.specs.Prelude.{filter, ◌≡◌, ◌↔◌, [], false, IfOk, IfSome, IsTrue};
ghost use Rattle.cert_model.specs.Prelude.{AreKnown, AreLegal, HasElement, inside, IsElement, IsFault, IsPlanLeaf, IsSized, IsSplit, IsTally, least_cost, on_side, PartHolds, PlanHolds, ReasonHolds, Refutes, seen, sets, StepHolds};

use crate::ends::sum_seen;
use crate::why::Why;
use base::Memory;
use catalogue::Problem;
use cluster::Element;
use domains::{Change, Lens, Part, Region, Side, View};
use judge::judge;
use quick_checks::known::Known;
use quick_checks::quick::is_seen;
use reasons::Reason;
use relax::plan::plan_of;
use relax::refutes::refutes_seen;
use slices::elements::has_element;
use std::alloc::Global;
use trees::Step;

/// What is wrong with a step at a region, whose least ends have that sum; None where it holds.
pub fn fault(
    alloc: Global,
    p: &Problem,
    known: &Known,
    bound: Option<u64>,
    g: &Region,
    sum: u64,
    step: &Step,
) -> Result<Option<Why>, Memory>
    requires region { IsSized p.now.given g.now }
    requires known { AreKnown p.now.given (sets g.now) known.now.standings.now }
    requires tally { IfSome known.now.tally (IsTally p.now.given (sets g.now)) }
    requires legal { AreLegal p.now.given (sets g.now) }
    requires sum { sum ≡ least_cost p.now.given (sets g.now) }
    ensures holds { IfOk result (λ why. why ≡ None → StepHolds p.now.given bound (sets g.now) step.now) }
    ensures refused { IfOk result (λ why. IfSome why (IsFault p.now.given bound (sets g.now) step.now)) }
{
    if !part_holds(p, g, step) {
        return Ok(Some(Why::Part));
    }
    if !reason_holds(p, known, bound, g, sum, step) {
        return Ok(Some(Why::Reason));
    }
    if !plan_holds(alloc, p, bound, g, sum, step)? {
        return Ok(Some(Why::Plan));
    }
    Ok(None)
}

// whether the element is there, and a decision parts its choices
fn part_holds(p: &Problem, g: &Region, step: &Step) -> bool
    requires region { IsSized p.now.given g.now }
    ensures yes { IsTrue result → PartHolds p.now.given (sets g.now) step.now }
    ensures no { result ≡ false → ¬ PartHolds p.now.given (sets g.now) step.now }
{
    match step {
        Step::Decide(x, part) => is_split(p, g, *x, *part),
        Step::Cut(x, _, _) => has_element(p, *x),
        Step::Fail(_) | Step::Plan(_) | Step::Left => true,
    }
}

// whether an element has a choice inside the part and one outside
fn is_split(p: &Problem, g: &Region, x: Element, part: Part) -> bool
    requires region { IsSized p.now.given g.now }
    ensures yes { IsTrue result → IsSplit p.now.given (sets g.now) x part }
    ensures no { result ≡ false → ¬ IsSplit p.now.given (sets g.now) x part }
{
    if !has_element(p, x) {
        return false;
    }
    if leaves_none(g, x, part, Side::Inside) {
        return false;
    }
    !leaves_none(g, x, part, Side::Outside)
}

// whether an element has no choice on a side of the part
fn leaves_none(g: &Region, element: Element, part: Part, side: Side) -> bool
    requires { HasElement g.now element }
    ensures { IsTrue result ↔ (filter (on_side side part) (sets g.now element) ≡ []) }
{
    g.leaves_none(Change {
        element,
        part,
        side,
    })
}

// whether the reason of a step refutes
fn reason_holds(
    p: &Problem,
    known: &Known,
    bound: Option<u64>,
    g: &Region,
    sum: u64,
    step: &Step,
) -> bool
    requires region { IsSized p.now.given g.now }
    requires known { AreKnown p.now.given (sets g.now) known.now.standings.now }
    requires tally { IfSome known.now.tally (IsTally p.now.given (sets g.now)) }
    requires legal { AreLegal p.now.given (sets g.now) }
    requires sum { sum ≡ least_cost p.now.given (sets g.now) }
    requires part { PartHolds p.now.given (sets g.now) step.now }
    ensures yes { IsTrue result → ReasonHolds p.now.given bound (sets g.now) step.now }
    ensures no { result ≡ false → ¬ ReasonHolds p.now.given bound (sets g.now) step.now }
{
    match step {
        Step::Fail(reason) => refutes_all(p, known, bound, g, sum, reason),
        Step::Cut(x, part, reason) => refutes_inside(p, known, bound, g, sum, *x, *part, reason),
        Step::Decide(_, _) | Step::Plan(_) | Step::Left => true,
    }
}

// whether a reason refutes what is seen of the region; the machines near a node are asked first
fn is_refuted(
    p: &Problem,
    known: &Known,
    bound: Option<u64>,
    least: Option<u128>,
    view: &View,
    reason: &Reason,
) -> bool
    requires region { IsSized p.now.given view.now.region.now }
    requires legal { AreLegal p.now.given (sets view.now.region.now) }
    requires known { AreKnown p.now.given (sets view.now.region.now) known.now.standings.now }
    requires tally { IfSome known.now.tally (IsTally p.now.given (sets view.now.region.now)) }
    requires least { IfSome least (λ n. n ≡ least_cost p.now.given (seen view.now.region.now view.now.lens)) }
    ensures yes { IsTrue result → Refutes p.now.given bound (seen view.now.region.now view.now.lens) reason.now }
    ensures no { result ≡ false → ¬ Refutes p.now.given bound (seen view.now.region.now view.now.lens) reason.now }
{
    if is_seen(p, known, view, reason) {
        return true;
    }
    refutes_seen(p, bound, least, view, reason)
}

// whether a reason refutes the region, whose least ends have that sum
fn refutes_all(
    p: &Problem,
    known: &Known,
    bound: Option<u64>,
    g: &Region,
    sum: u64,
    reason: &Reason,
) -> bool
    requires region { IsSized p.now.given g.now }
    requires legal { AreLegal p.now.given (sets g.now) }
    requires known { AreKnown p.now.given (sets g.now) known.now.standings.now }
    requires tally { IfSome known.now.tally (IsTally p.now.given (sets g.now)) }
    requires sum { sum ≡ least_cost p.now.given (sets g.now) }
    ensures yes { IsTrue result → Refutes p.now.given bound (sets g.now) reason.now }
    ensures no { result ≡ false → ¬ Refutes p.now.given bound (sets g.now) reason.now }
{
    let view = View {
        region: g,
        lens: Lens::Whole,
    };
    is_refuted(p, known, bound, Some(u128::from(sum)), &view, reason)
}

// whether a reason refutes what is inside a part; the sum there is asked for by one reason alone
fn refutes_inside(
    p: &Problem,
    known: &Known,
    bound: Option<u64>,
    g: &Region,
    sum: u64,
    x: Element,
    part: Part,
    reason: &Reason,
) -> bool
    requires region { IsSized p.now.given g.now }
    requires known { AreKnown p.now.given (sets g.now) known.now.standings.now }
    requires tally { IfSome known.now.tally (IsTally p.now.given (sets g.now)) }
    requires legal { AreLegal p.now.given (sets g.now) }
    requires sum { sum ≡ least_cost p.now.given (sets g.now) }
    requires element { IsElement p.now.given x }
    ensures yes { IsTrue result → Refutes p.now.given bound (inside x part (sets g.now)) reason.now }
    ensures no { result ≡ false → ¬ Refutes p.now.given bound (inside x part (sets g.now)) reason.now }
{
    let mut least = None;
    if let Reason::Bound = reason {
        least = Some(u128::from(sum_seen(p, g, sum, x, part, Side::Inside)));
    }
    let view = View {
        region: g,
        lens: Lens::Inside(x, part),
    };
    is_refuted(p, known, bound, least, &view, reason)
}

// whether a plan that a step names is there
fn plan_holds(
    alloc: Global,
    p: &Problem,
    bound: Option<u64>,
    g: &Region,
    sum: u64,
    step: &Step,
) -> Result<bool, Memory>
    requires region { IsSized p.now.given g.now }
    requires legal { AreLegal p.now.given (sets g.now) }
    requires sum { sum ≡ least_cost p.now.given (sets g.now) }
    ensures yes { IfOk result (λ b. IsTrue b → PlanHolds p.now.given bound (sets g.now) step.now) }
    ensures no { IfOk result (λ b. b ≡ false → ¬ PlanHolds p.now.given bound (sets g.now) step.now) }
{
    match step {
        Step::Plan(cost) => is_plan_leaf(alloc, p, bound, g, sum, *cost),
        Step::Decide(_, _) | Step::Cut(_, _, _) | Step::Fail(_) | Step::Left => Ok(true),
    }
}

// whether the region is one valid plan of that cost, no less than that of the plan handed in
fn is_plan_leaf(
    alloc: Global,
    p: &Problem,
    bound: Option<u64>,
    g: &Region,
    sum: u64,
    cost: u64,
) -> Result<bool, Memory>
    requires region { IsSized p.now.given g.now }
    requires legal { AreLegal p.now.given (sets g.now) }
    requires sum { sum ≡ least_cost p.now.given (sets g.now) }
    ensures yes { IfOk result (λ b. IsTrue b → IsPlanLeaf p.now.given bound (sets g.now) cost) }
    ensures no { IfOk result (λ b. b ≡ false → ¬ IsPlanLeaf p.now.given bound (sets g.now) cost) }
{
    let Some(known) = bound else {
        return Ok(false);
    };
    if cost < known {
        return Ok(false);
    }
    // the sum of the ends of a plan is its cost
    if sum != cost {
        return Ok(false);
    }
    if !g.is_fixed() {
        return Ok(false);
    }
    let plan = plan_of(alloc, p, g)?;
    Ok(judge(p, &plan).is_none())
}
