//! What the goals of sections have in common, and what they show of the whole.

ghost use Rattle.std.specs.Prelude.{◌≡◌, ◌&&◌, [], List, IfSome};
ghost use Rattle.std.specs.Option.{option_copied};
ghost use Rattle.slices.specs.Plans.{IsPlanOf};
ghost use Rattle.trees.specs.declared.steps.Goal.{Goal as AnyGoal};
ghost use Rattle.part_check.specs.Judging.{seen_of};
ghost use Rattle.part_check.specs.Verdicts.{goal_of_all, is_infeasible_goal, is_optimal_goal};

use crate::verdict::WholeGoal;
use catalogue::Problem;
use slices::Plan;
use slices::plan::cost;
use trees::Goal;

/// Whether all goals so far are of one kind.
#[derive(Clone, Copy)]
pub(crate) struct Seen {
    all_optimal: bool,
    all_infeasible: bool,
}

impl Seen {
    /// Before the first goal.
    pub(crate) fn none() -> Seen
        ensures { result ≡ seen_of [] }
    {
        Seen {
            all_optimal: true,
            all_infeasible: true,
        }
    }

    /// With one goal more.
    pub(crate) fn with(self, goal: Goal) -> Seen
        ensures { result ≡ record { all_optimal = self.all_optimal && is_optimal_goal goal; all_infeasible = self.all_infeasible && is_infeasible_goal goal } }
    {
        Seen {
            all_optimal: self.all_optimal && matches!(goal, Goal::Optimal(_)),
            all_infeasible: self.all_infeasible && matches!(goal, Goal::Infeasible),
        }
    }
}

/// What all goals show of the whole, for the plan that is handed in, or for none.
pub(crate) fn whole_goal(p: &Problem, plan: Option<&Plan>, seen: Seen) -> WholeGoal
    requires plan { IfSome plan (λ a. IsPlanOf p.now.given a.now) }
    ensures { (goals : List AnyGoal) → seen ≡ seen_of goals → result ≡ goal_of_all p.now.given (option_copied plan.entry) goals }
{
    match plan {
        Some(plan) if seen.all_optimal => WholeGoal::Optimal(cost(p, plan)),
        None if seen.all_infeasible => WholeGoal::Infeasible,
        Some(_) | None => WholeGoal::Undecided,
    }
}
