//! How many actions are under way, and how many nodes are powered, at each instant at which something
//! starts or ends.
ghost use Rattle.std.specs.Prelude.{◌≡◌, ◌≤◌, true, length, IfOk};
ghost use Rattle.std.specs.List.{count_by};
ghost use Rattle.picture.specs.Prelude.{choices_of, IsActingCurve, IsPlanOf, IsPoweredCurve, is_under_way, powered_nodes, snapshot_at};

use crate::curves::peak_of;
use crate::marks::{Curve, Step};
use crate::sheet::{MARGIN, RIGHT, Sheet};
use crate::style::Style;
use base::Memory;
use catalogue::Problem;
use cluster::{Instant, NodeId};
use show::Action;
use slices::Plan;
use slices::snapshot::powered;
use std::alloc::Global;

/// How high a curve of counts is.
const COUNT_TALL: u64 = 36;

/// How many actions are under way at an instant.
#[tactic(auto, using(std::proofs::lemmas::List::Sums::count_by_more_yes, std::proofs::lemmas::List::Sums::count_by_more_no))]
fn acting_at(actions: &[Action], t: Instant) -> usize
    ensures count { result ≡ count_by (is_under_way t) actions.now }
{
    let mut count = 0;
    for action in actions {
        let is_under_way = action.start <= t && t < action.end;
        if is_under_way {
            count += 1;
        }
    }
    count
}

/// How many nodes are powered at an instant.
fn powered_at(p: &Problem, plan: &Plan, t: Instant) -> usize
    requires { IsPlanOf p.now.given plan.now }
    ensures { result ≡ powered_nodes p.now.given (snapshot_at p.now.given (choices_of plan.now) t) (λ n. true) }
{
    let mut count = 0;
    for n in 0..p.cluster().nodes().len() {
        if powered(p, plan, NodeId(n as u32), t) {
            count += 1;
        }
    }
    count
}

/// A curve of counts above a base.
fn curve_of(steps: Vec<Step>, base: u64) -> Curve
    ensures { result.steps.items ≡ steps.items }
{
    let most = peak_of(&steps).max(1);
    Curve {
        base,
        tall: COUNT_TALL,
        most,
        steps,
    }
}

/// How many actions are under way, a step for each instant.
#[tactic(auto, using(crate::proofs::Lists::map_more))]
pub(crate) fn acting(
    alloc: Global,
    actions: &[Action],
    instants: &[Instant],
    base: u64,
) -> Result<Curve, Memory>
    ensures { IfOk result (IsActingCurve actions.now instants.now) }
{
    let mut steps = Vec::new(alloc);
    for t in instants {
        let amount = acting_at(actions, *t) as u64;
        steps.push(Step { at: *t, amount })?;
    }
    Ok(curve_of(steps, base))
}

/// How many nodes are powered, a step for each instant.
#[tactic(auto, using(crate::proofs::Lists::map_more))]
pub(crate) fn powered_curve(
    alloc: Global,
    p: &Problem,
    plan: &Plan,
    instants: &[Instant],
    base: u64,
) -> Result<Curve, Memory>
    requires { IsPlanOf p.now.given plan.now }
    ensures { IfOk result (IsPoweredCurve p.now.given (choices_of plan.now) instants.now) }
{
    let mut steps = Vec::new(alloc);
    for t in instants {
        let amount = powered_at(p, plan, *t) as u64;
        steps.push(Step { at: *t, amount })?;
    }
    Ok(curve_of(steps, base))
}

/// What stands beside a curve of counts: what it counts, the most and the least.
pub(crate) fn beside_count(sheet: &mut Sheet, curve: &Curve, words: &str) -> Result<(), Memory> {
    let top = curve.base.saturating_sub(COUNT_TALL);
    sheet.text(Style::Name, MARGIN, top.saturating_add(20), words)?;
    let most = peak_of(&curve.steps);
    let least = curve
        .steps
        .iter()
        .fold(most, |least, step| step.amount.min(least));
    let most_words = format!(in sheet.alloc; "{most} at most")?;
    sheet.words(Style::Tick, RIGHT + 8, top.saturating_add(10), most_words)?;
    if least > 0 {
        let least_words = format!(in sheet.alloc; "{least} at least")?;
        sheet.words(Style::Tick, RIGHT + 8, top.saturating_add(24), least_words)?;
    }
    Ok(())
}
