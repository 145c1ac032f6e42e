//! What is counted of steps: decisions, the cheapest plan, and the least of what is left.
ghost use Rattle.std.specs.Prelude.{◌≡◌, ◌↔◌, ℕ, ◌+◌, ◌<◌, ◌^◌, ◌++◌, ◌∷◌, [], List, IsTrue};
ghost use Rattle.base.specs.Least.{lower as the_lower, lowest};
ghost use Rattle.cert_model.specs.Prelude.{decisions, goal_of, left_set, lower_of, plan_costs, Sets, Step as AnyStep};

use trees::{Goal, Step};

/// How many decisions there are with a step.
pub fn counted(count: u64, step: &Step) -> u64
    requires { count + 1 < 2 ^ 64 }
    ensures { result ≡ count + decisions (step.now ∷ []) }
{
    match step {
        Step::Decide(_, _) => count + 1,
        Step::Cut(_, _, _) | Step::Fail(_) | Step::Plan(_) | Step::Left => count,
    }
}

/// The cost of the cheapest plan that is named with a step.
#[tactic(auto, using(crate::proofs::CountLemmas::cheapest_with, crate::proofs::CountLemmas::cheapest_same))]
pub fn cheaper(cheapest: Option<u64>, step: &Step) -> Option<u64>
    ensures { (e : List AnyStep) → cheapest ≡ lowest (λ cost. cost) (plan_costs e)
        → result ≡ lowest (λ cost. cost) (plan_costs (e ++ step.now ∷ [])) }
{
    match step {
        Step::Plan(cost) => Some(lower(cheapest, *cost)),
        Step::Decide(_, _) | Step::Cut(_, _, _) | Step::Fail(_) | Step::Left => cheapest,
    }
}

/// The least of the sums of what is left with a step, which is at a region with that sum.
#[tactic(auto, using(crate::proofs::CountLemmas::least_left_with))]
pub fn least_with(least: Option<u64>, sum: u64, step: &Step) -> Option<u64>
    ensures { (f : Sets → ℕ) (all : List Sets) (s : Sets) → least ≡ lowest f all → sum ≡ f s
        → result ≡ lowest f (all ++ left_set s step.now) }
{
    match step {
        Step::Left => Some(lower(least, sum)),
        Step::Decide(_, _) | Step::Cut(_, _, _) | Step::Fail(_) | Step::Plan(_) => least,
    }
}

/// The lower of a number and another, if there is another.
pub fn lower(known: Option<u64>, n: u64) -> u64
    ensures { result ≡ the_lower n known }
{
    match known {
        None => n,
        Some(m) => n.min(m),
    }
}

/// The goal that a tree shows.
pub fn goal_shown(is_left: bool, count: u64, bound: Option<u64>) -> Goal
    ensures { result ≡ goal_of is_left count bound }
{
    if is_left {
        return Goal::Undecided(count);
    }
    match bound {
        None => Goal::Infeasible,
        Some(cost) => Goal::Optimal(cost),
    }
}

/// Whether two goals are the same.
pub fn is_same_goal(a: Goal, b: Goal) -> bool
    ensures { IsTrue result ↔ (a ≡ b) }
{
    a == b
}
