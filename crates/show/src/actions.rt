//! The actions of a plan in the order in which they start.
ghost use Rattle.std.specs.Prelude.{◌≡◌, ◌++◌, ◌<◌, ◌≤◌, length, IfOk, OnOk};
ghost use Rattle.std.specs.List.{All};
ghost use Rattle.show.specs.Prelude.{action_of, actions_of, choices_of, element_count, inventory_of, IsActionOf, IsListing, IsPlanOf};

use base::Memory;
use catalogue::Problem;
use cluster::{Choice, Instant};
use slices::Plan;
use slices::plan::end_in;
use std::alloc::Global;

/// An action of a plan: when it starts and when it ends, and the number of its element.
///
/// Actions compare by their starts, then by their ends, then by the numbers.
#[derive(Clone, Copy, Debug, PartialEq, Eq, PartialOrd, Ord)]
pub struct Action {
    pub start: Instant,
    pub end: Instant,
    pub number: usize,
}

/// Adds the action of the element of a number, if it has one.
#[tactic(auto, unfolding(crate::specs::Listing::action_of))]
fn push_action(
    actions: &mut Vec<Action>,
    p: &Problem,
    plan: &Plan,
    number: usize,
) -> Result<(), Memory>
    requires plan { IsPlanOf p.now.given plan.now }
    requires number { number < element_count (inventory_of p.now.given) }
    ensures { OnOk result (actions.new.items ≡ actions.old.items ++ action_of p.now.given (choices_of plan.now) number) }
{
    let e = p.cluster().element(number);
    if let Choice::Act { place: _, start } = plan.choice(e) {
        let end = end_in(p, plan, e);
        actions.push(Action { start, end, number })?;
    }
    Ok(())
}

/// The actions in the order of the elements.
#[tactic(auto, using(base::proofs::Ranges::pieces_more))]
fn actions_of(alloc: Global, p: &Problem, plan: &Plan) -> Result<Vec<Action>, Memory>
    requires { IsPlanOf p.now.given plan.now }
    ensures { IfOk result (λ actions. actions.items ≡ actions_of p.now.given (choices_of plan.now)) }
{
    let mut actions = Vec::new(alloc);
    for x in 0..p.cluster().element_count() {
        push_action(&mut actions, p, plan, x)?;
    }
    Ok(actions)
}

/// The actions of a plan in the order of their starts, then of their ends, then of the elements.
/// It sorts in place, and takes memory for the list alone.
pub fn listing(alloc: Global, p: &Problem, plan: &Plan) -> Result<Vec<Action>, Memory>
    requires { IsPlanOf p.now.given plan.now }
    ensures listing { IfOk result (λ actions. IsListing p.now.given (choices_of plan.now) actions.items) }
    ensures each { IfOk result (λ actions. All (IsActionOf p.now.given (choices_of plan.now)) actions.items) }
    ensures few { IfOk result (λ actions. length actions.items ≤ element_count (inventory_of p.now.given)) }
{
    let mut actions = actions_of(alloc, p, plan)?;
    actions.sort_unstable();
    Ok(actions)
}
