//! From actions to a choice for each element.

ghost use Rattle.std.specs.Prelude.{◌≡◌, IfOk, length, replicate, slice_set};
ghost use Rattle.plan_json.specs.Prelude.{AreActions, as_choice, choices_for, element_count, element_number, first_to_act, inventory_of, is_idle, IsElement};

use crate::actions::as_choice;
use crate::fields::Action;
use base::Memory;
use catalogue::Problem;
use cluster::{Choice, Element};
use slices::actions::is_legal;
use std::alloc::Global;

/// Idle for each element.
fn all_idle(alloc: Global, p: &Problem) -> Result<Vec<Choice>, Memory>
    ensures { IfOk result (λ choices. choices.items
        ≡ replicate (element_count (inventory_of p.now.given)) Choice.Idle) }
{
    Ok(vec![in alloc; Choice::Idle; p.cluster().element_count()]?)
}

/// Puts in the choice of an action.
fn choose(p: &Problem, choices: &mut Vec<Choice>, action: Action)
    requires element { IsElement p.now.given action.element }
    requires places { length choices.old.items ≡ element_count (inventory_of p.now.given) }
    ensures { choices.new.items
        ≡ slice_set choices.old.items (element_number (inventory_of p.now.given) action.element) (as_choice action) }
{
    let x = p.cluster().number(action.element);
    choices[x] = as_choice(action);
}

/// The choice of each element in order: its action, and Idle where it has none.
pub(crate) fn choices(alloc: Global, p: &Problem, actions: &[Action]) -> Result<Vec<Choice>, Memory>
    requires { AreActions p.now.given actions.now }
    ensures { IfOk result (λ choices. choices.items ≡ choices_for p.now.given actions.now) }
{
    let mut choices = all_idle(alloc, p)?;
    for action in actions {
        choose(p, &mut choices, *action);
    }
    Ok(choices)
}

fn is_idle(choice: Choice) -> bool
    ensures { result ≡ is_idle choice }
{
    matches!(choice, Choice::Idle)
}

/// The first element that is idle and may not be.
#[tactic(auto, using(base::proofs::Ranges::find_rules), unfolding(crate::specs::Plans::first_to_act))]
pub(crate) fn first_to_act(p: &Problem, choices: &[Choice]) -> Option<Element>
    requires { length choices.now ≡ element_count (inventory_of p.now.given) }
    ensures { result ≡ first_to_act p.now.given choices.now }
{
    for x in 0..choices.len() {
        let e = p.cluster().element(x);
        if is_idle(choices[x]) && !is_legal(p, e, Choice::Idle) {
            return Some(e);
        }
    }
    None
}
