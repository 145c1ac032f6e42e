//! The walk.
ghost use Rattle.std.specs.Prelude.{◌≡◌, ◌++◌, [], true, List, map, IfOk, IfSome, OnErr, OnOk};
ghost use Rattle.std.specs.Option.{option_copied};
ghost use Rattle.base.specs.Least.{lowest};
ghost use Rattle.trees.specs.Prelude.{bound_of, children, Instance, IsPlanOf, least_cost, plan_costs, sets};
ghost use Rattle.trees.specs.declared.steps.Step.{Step as AnyStep};
ghost use Rattle.relax.specs.Areas.{AreLegal, IsSized};
ghost use Rattle.quick_checks.specs.Prelude.{IsTally};
ghost use Rattle.cert_model.specs.{Following.AreCounted, Frontiers.AreSame, Frontiers.AreSameSize, Frontiers.FollowFrontier, Frontiers.IsKept, Frontiers.later_sets, Frontiers.later_sums, Frontiers.open_sets, Frontiers.open_sums, Walks.Answers, Walks.Ends, Walks.FollowWalk, Walks.IsLeast, Walks.IsStanding, Walks.IsUnchanged, Walks.IsWholeAt, Walks.IsWrong, Walks.PartHolds, Walks.Stands, Walks.WalkAt, Walks.choices_handed};

use crate::claims::fault;
use crate::counts::{cheaper, counted, goal_shown, is_same_goal, least_with, lower};
use crate::ends::sum_seen;
use crate::followers::Followers;
use crate::frontier::{Due, Frontier, Outer};
use crate::lean::is_lean;
use crate::why::Why;
use base::Memory;
use bound::lower_bound::sum_of;
use catalogue::Problem;
use domains::Side;
use hints::{Nearby, Seats};
use prop_core::propagator::Propagator;
use quick_checks::known::Known;
use quick_checks::tally::{Tally, tally_of};
use reasons::Reason;
use relax::start::start_region;
use slices::Plan;
use slices::plan::cost;
use std::alloc::Global;
use std::marker::Model;
use trees::{Goal, Step};

/// A walk over the steps of a certificate, in their order.
///
/// It keeps one region and what undoes the changes since each open decision, so a step costs what its
/// change and its reason cost. Where the walk is strict, propagators that are handed in follow that region,
/// and are asked first whether it is closed; what is promised of an answer is the same whichever they are.
#[derive(Drop)]
pub struct Walk {
    frontier: Frontier,
    decisions: u64,
    cheapest: Option<u64>,
    least_left: Option<u64>,
    bound: Option<u64>,
    strict: bool,
}

impl Model for Walk {
    ghost use Rattle.std.specs.Prelude.{reverse};
    ghost use Rattle.cert_model.specs.{Frontiers.IsKept, Walks.Kept};

    ghost Value = { Kept };

    ghost view = { λ w. record {
      region = w.frontier.trail.region;
      due = w.frontier.due;
      sum = w.frontier.sum;
      marks = w.frontier.trail.marks;
      outers = reverse w.frontier.outers.items;
      decisions = w.decisions;
      cheapest = w.cheapest;
      least_left = w.least_left;
      bound = w.bound;
      strict = w.strict;
      follow = w.frontier.followers.follow;
      counted = w.frontier.followers.counted;
      table = w.frontier.followers.table;
      tally = w.frontier.followers.tally;
    } };

    ghost invariant = { λ w. IsKept w.frontier };
}

impl Walk {
    /// A walk that has taken no step, for the plan that is handed in, or for none. `strict` asks for a
    /// lean tree, and posts the propagators, which are then handed in with each step. The only error is
    /// want of memory.
    pub fn new(
        alloc: Global,
        p: &Problem,
        plan: Option<&Plan>,
        strict: bool,
        rules: &mut Vec<Box<dyn Propagator>>,
    ) -> Result<Walk, Memory>
        requires { IfSome plan (λ a. IsPlanOf p.now.given a.now) }
        ensures stands { IfOk result (Stands p.now.given (bound_of p.now.given (choices_handed (option_copied plan.entry))) strict []) }
        ensures follow { IfOk result (λ w. FollowWalk (λ b. meaning b) p.now.given w rules.new.items) }
    {
        let bound = match plan {
            None => None,
            Some(a) => Some(cost(p, a)),
        };
        let region = start_region(alloc, p)?;
        let sum = sum_of(p, &region);
        let nearby = Nearby::of(alloc, p)?;
        let seats = Seats::of(alloc, p)?;
        let followers = Followers::new(alloc, p, &region, strict, rules);
        Ok(Walk {
            frontier: Frontier::new(alloc, region, sum, nearby, seats, followers),
            decisions: 0,
            cheapest: None,
            least_left: None,
            bound,
            strict,
        })
    }

    /// Takes a step, where it is due and holds; else says why not: the first of structure, part,
    /// reason or plan, and leanness where that is asked. Where it is not taken the walk is as it was,
    /// also after want of memory. The propagators are those that were handed in before.
    pub fn step(
        &mut self,
        p: &Problem,
        step: &Step,
        rules: &mut Vec<Box<dyn Propagator>>,
    ) -> Result<Option<Why>, Memory>
        requires stands { IsStanding p.now.given self.old }
        requires follow { FollowWalk (λ b. meaning b) p.now.given self.old rules.old.items }
        ensures ok { IfOk result (Answers p.now.given self.old self.new step.now) }
        ensures err { OnErr result (IsUnchanged self.old self.new) }
        ensures follow { FollowWalk (λ b. meaning b) p.now.given self.new rules.new.items }
    {
        self.frontier.enter(p, rules)?;
        let Due::Whole = self.frontier.due else {
            return Ok(Some(Why::Structure));
        };
        self.frontier.followers.tally = tally_for(p, &self.frontier, step);
        let sum = self.frontier.sum;
        if let Some(why) = refusal(
            p,
            &self.frontier,
            rules,
            self.bound,
            self.strict,
            self.cheapest,
            step,
        )? {
            return Ok(Some(why));
        }
        advance(p, &mut self.frontier, rules, step)?;
        self.decisions = counted(self.decisions, step);
        self.cheapest = cheaper(self.cheapest, step);
        self.least_left = least_with(self.least_left, sum, step);
        Ok(None)
    }

    /// Whether nothing is open: the steps so far are a whole tree.
    pub fn is_whole(&self) -> bool
        ensures { (p : Instance) → IsWholeAt p self.now result }
    {
        matches!(self.frontier.due, Due::Nothing)
    }

    /// None exactly where the steps are a whole tree, and the goal is the one that it shows; else
    /// `Structure` where the tree is not whole, and `Goal` where another goal is shown.
    pub fn finish(&self, goal: Goal) -> Option<Why>
        ensures { (p : Instance) → Ends p self.now goal result }
    {
        if !self.is_whole() {
            return Some(Why::Structure);
        }
        let shown = goal_shown(self.least_left.is_some(), self.decisions, self.bound);
        if is_same_goal(goal, shown) {
            None
        } else {
            Some(Why::Goal)
        }
    }

    /// The cost that no valid plan undercuts as far as the steps show, None exactly where nothing was
    /// left: the least of the sums of least ends of what was left, and of the cost of the plan that was
    /// handed in.
    pub fn least(&self) -> Option<u64>
        ensures { (p : Instance) → IsLeast p self.now result }
    {
        match self.least_left {
            None => None,
            Some(sum) => Some(lower(self.bound, sum)),
        }
    }
}

// what is known to be held together, of the amount that a step gives as its reason where it gives one
fn tally_for(p: &Problem, frontier: &Frontier, step: &Step) -> Option<Tally>
    requires region { IsSized p.now.given frontier.now.trail.region }
    requires legal { AreLegal p.now.given (sets frontier.now.trail.region) }
    requires counting { frontier.now.followers.counted ≡ true → AreCounted p.now.given frontier.now.trail frontier.now.followers.table }
    requires telling { IfSome frontier.now.followers.tally (IsTally p.now.given (sets frontier.now.trail.region)) }
    ensures { IfSome result (IsTally p.now.given (sets frontier.now.trail.region)) }
{
    let told = frontier.followers.tally;
    let Some(Reason::SetLoad(c, t)) = reason_of(step) else {
        return told;
    };
    if told.is_some_and(|x| x.constraint == *c && x.at == *t) {
        return told;
    }
    let known = Known {
        nearby: &frontier.nearby,
        seats: &frontier.seats,
        standings: frontier.followers.standings(),
        tally: None,
    };
    tally_of(p, frontier.trail.region(), &known, *c, *t)
}

// the reason that a step gives, if it gives one
fn reason_of(step: &Step) -> Option<&Reason> {
    match step {
        Step::Cut(_, _, reason) | Step::Fail(reason) => Some(reason),
        Step::Decide(_, _) | Step::Plan(_) | Step::Left => None,
    }
}

// what is wrong with a step at the region, which is due; None where it holds and is lean if that is asked
fn refusal(
    p: &Problem,
    frontier: &Frontier,
    rules: &mut Vec<Box<dyn Propagator>>,
    bound: Option<u64>,
    strict: bool,
    cheapest: Option<u64>,
    step: &Step,
) -> Result<Option<Why>, Memory>
    requires region { IsSized p.now.given frontier.now.trail.region }
    requires legal { AreLegal p.now.given (sets frontier.now.trail.region) }
    requires sum { frontier.now.sum ≡ least_cost p.now.given (sets frontier.now.trail.region) }
    requires follow { FollowFrontier (λ b. meaning b) p.now.given frontier.now rules.old.items }
    ensures holds { IfOk result (λ why. why ≡ None → (e : List AnyStep) → cheapest ≡ lowest (λ c. c) (plan_costs e)
        → WalkAt p.now.given bound strict e (sets frontier.now.trail.region) step.now) }
    ensures refused { IfOk result (λ why. (e : List AnyStep) → cheapest ≡ lowest (λ c. c) (plan_costs e)
        → IfSome why (IsWrong p.now.given bound strict e (sets frontier.now.trail.region) step.now)) }
    ensures follow { FollowFrontier (λ b. meaning b) p.now.given frontier.now rules.new.items }
{
    let alloc = *frontier.outers.allocator();
    let region = frontier.trail.region();
    let known = Known {
        nearby: &frontier.nearby,
        seats: &frontier.seats,
        standings: frontier.followers.standings(),
        tally: frontier.followers.tally,
    };
    if let Some(why) = fault(alloc, p, &known, bound, region, frontier.sum, step)? {
        return Ok(Some(why));
    }
    if !strict {
        return Ok(None);
    }
    if !is_lean(p, cheapest, frontier, rules, step) {
        return Ok(Some(Why::Lean));
    }
    Ok(None)
}

// puts in the place of what is due what a step that holds leaves open there
fn advance(
    p: &Problem,
    frontier: &mut Frontier,
    rules: &mut Vec<Box<dyn Propagator>>,
    step: &Step,
) -> Result<(), Memory>
    requires kept { IsKept frontier.old }
    requires due { frontier.old.due ≡ Due.Whole }
    requires region { IsSized p.now.given frontier.old.trail.region }
    requires legal { AreLegal p.now.given (sets frontier.old.trail.region) }
    requires sum { frontier.old.sum ≡ least_cost p.now.given (sets frontier.old.trail.region) }
    requires part { PartHolds p.now.given (sets frontier.old.trail.region) step.now }
    requires follow { FollowFrontier (λ b. meaning b) p.now.given frontier.old rules.old.items }
    ensures kept { IsKept frontier.new }
    ensures size { AreSameSize frontier.old frontier.new }
    ensures sets { OnOk result (open_sets frontier.new ≡ children (sets frontier.old.trail.region) step.now ++ later_sets frontier.old) }
    ensures sums { OnOk result (open_sums frontier.new ≡ map (least_cost p.now.given) (children (sets frontier.old.trail.region) step.now) ++ later_sums frontier.old) }
    ensures err { OnErr result (AreSame frontier.old frontier.new) }
    ensures follow { FollowFrontier (λ b. meaning b) p.now.given frontier.new rules.new.items }
{
    let sum = frontier.sum;
    match step {
        Step::Decide(x, part) => {
            let region = frontier.trail.region();
            let inner_sum = sum_seen(p, region, sum, *x, *part, Side::Inside);
            let outer_sum = sum_seen(p, region, sum, *x, *part, Side::Outside);
            let outer = Outer {
                element: *x,
                part: *part,
                sum: outer_sum,
            };
            frontier.decide(p, rules, inner_sum, outer)
        }
        Step::Cut(x, part, _) => {
            let left = sum_seen(p, frontier.trail.region(), sum, *x, *part, Side::Outside);
            frontier.cut(p, rules, *x, *part, left)
        }
        Step::Fail(_) | Step::Plan(_) | Step::Left => {
            frontier.close(p, rules);
            Ok(())
        }
    }
}
