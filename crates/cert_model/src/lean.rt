//! Whether a step is lean.
ghost use Rattle.std.specs.Prelude.{◌≡◌, ◌↔◌, ◌<◌, false, List, IfSome, IsTrue};
ghost use Rattle.cert_model.specs.Prelude.{FollowFrontier, HaveChoices, IsClosed, IsSized, IsUndecided, LeanAt, least_cost, lowest, plan_costs, sets, Step as AnyStep};

use crate::frontier::Frontier;
use catalogue::Problem;
use closing::closed::closed;
use cluster::{Element, NodeId, VmId};
use domains::Region;
use prop_core::propagator::Propagator;
use trees::Step;

/// Whether a step is lean at the region, which is due, after steps with that cheapest plan.
pub fn is_lean(
    p: &Problem,
    cheapest: Option<u64>,
    frontier: &Frontier,
    rules: &mut Vec<Box<dyn Propagator>>,
    step: &Step,
) -> bool
    requires region { IsSized p.now.given frontier.now.trail.region }
    requires sum { frontier.now.sum ≡ least_cost p.now.given (sets frontier.now.trail.region) }
    requires follow { FollowFrontier (λ b. meaning b) p.now.given frontier.now rules.old.items }
    ensures yes { IsTrue result → (e : List AnyStep) → cheapest ≡ lowest (λ cost. cost) (plan_costs e)
        → LeanAt p.now.given e (sets frontier.now.trail.region) step.now }
    ensures no { result ≡ false → (e : List AnyStep) → cheapest ≡ lowest (λ cost. cost) (plan_costs e)
        → ¬ LeanAt p.now.given e (sets frontier.now.trail.region) step.now }
    ensures follow { FollowFrontier (λ b. meaning b) p.now.given frontier.now rules.new.items }
{
    match step {
        Step::Decide(_, _) | Step::Left => is_undecided(p, cheapest, frontier, rules),
        Step::Cut(_, _, _) | Step::Fail(_) | Step::Plan(_) => true,
    }
}

// whether the region is closed, not one plan, and below each plan so far; the dearest is tried last
fn is_undecided(
    p: &Problem,
    cheapest: Option<u64>,
    frontier: &Frontier,
    rules: &mut Vec<Box<dyn Propagator>>,
) -> bool
    requires region { IsSized p.now.given frontier.now.trail.region }
    requires sum { frontier.now.sum ≡ least_cost p.now.given (sets frontier.now.trail.region) }
    requires follow { FollowFrontier (λ b. meaning b) p.now.given frontier.now rules.old.items }
    ensures yes { IsTrue result → (e : List AnyStep) → cheapest ≡ lowest (λ cost. cost) (plan_costs e)
        → IsUndecided p.now.given e (sets frontier.now.trail.region) }
    ensures no { result ≡ false → (e : List AnyStep) → cheapest ≡ lowest (λ cost. cost) (plan_costs e)
        → ¬ IsUndecided p.now.given e (sets frontier.now.trail.region) }
    ensures follow { FollowFrontier (λ b. meaning b) p.now.given frontier.now rules.new.items }
{
    if !is_below(frontier.sum, cheapest) {
        return false;
    }
    if frontier.trail.region().is_fixed() {
        return false;
    }
    is_closed(p, frontier, rules)
}

// whether the region is closed: as the propagators that follow it say, or else by a look at all of it
fn is_closed(p: &Problem, frontier: &Frontier, rules: &mut Vec<Box<dyn Propagator>>) -> bool
    requires region { IsSized p.now.given frontier.now.trail.region }
    requires follow { FollowFrontier (λ b. meaning b) p.now.given frontier.now rules.old.items }
    ensures closed { IsTrue result ↔ IsClosed p.now.given (sets frontier.now.trail.region) }
    ensures follow { FollowFrontier (λ b. meaning b) p.now.given frontier.now rules.new.items }
{
    if is_seen_closed(p, frontier, rules) {
        return true;
    }
    closed(p, frontier.trail.region())
}

// whether the propagators that follow the region are quiet, and each element has a choice
fn is_seen_closed(p: &Problem, frontier: &Frontier, rules: &mut Vec<Box<dyn Propagator>>) -> bool
    requires region { IsSized p.now.given frontier.now.trail.region }
    requires follow { FollowFrontier (λ b. meaning b) p.now.given frontier.now rules.old.items }
    ensures closed { IsTrue result → IsClosed p.now.given (sets frontier.now.trail.region) }
    ensures follow { FollowFrontier (λ b. meaning b) p.now.given frontier.now rules.new.items }
{
    if !frontier.followers.are_quiet(p, &frontier.trail, rules) {
        return false;
    }
    have_choices(p, frontier.trail.region())
}

// whether each element has a choice
fn have_choices(p: &Problem, g: &Region) -> bool
    requires { IsSized p.now.given g.now }
    ensures { IsTrue result → HaveChoices p.now.given (sets g.now) }
{
    for v in 0..p.cluster().machines().len() {
        if g.domain(Element::Vm(VmId(v as u32))).is_empty() {
            return false;
        }
    }
    for n in 0..p.cluster().nodes().len() {
        if g.domain(Element::Node(NodeId(n as u32))).is_empty() {
            return false;
        }
    }
    true
}

// whether a number is below another, if there is another
fn is_below(n: u64, known: Option<u64>) -> bool
    ensures { IsTrue result ↔ IfSome known (λ m. n < m) }
{
    match known {
        None => true,
        Some(m) => n < m,
    }
}
