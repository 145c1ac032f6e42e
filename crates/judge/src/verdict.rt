//! The verdict on a plan.
ghost use Rattle.std.specs.Prelude.{◌↔◌, IsNone, IfSome};
ghost use Rattle.judge.specs.Prelude.{choices_of, IsFirstBroken, IsPlanOf, IsValid};

use crate::first::first_broken_rule;
use crate::least::least_broken;
use catalogue::Problem;
use slices::Plan;
use slices::rule::Broken;

/// The least instant at which a rule is broken, with the first rule that is broken there: loads by
/// node and then resource, usable nodes by machine and then node, constraints by number. None
/// exactly where the plan is valid.
pub fn judge(p: &Problem, plan: &Plan) -> Option<Broken>
    requires plan { IsPlanOf p.now.given plan.now }
    ensures valid { IsNone result ↔ IsValid p.now.given (choices_of plan.now) }
    ensures broken { IfSome result (IsFirstBroken p.now.given (choices_of plan.now)) }
{
    let at = least_broken(p, plan);
    if at > p.horizon() {
        return None;
    }
    match first_broken_rule(p, plan, at) {
        Some(rule) => Some(Broken { at, rule }),
        None => None,
    }
}
