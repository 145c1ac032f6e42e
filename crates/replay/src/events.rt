//! The instants at which something happens: 0, each start and each end of an action, and the horizon.
ghost use Rattle.std.specs.Prelude.{◌≡◌, ◌+◌, ◌||◌, ℕ, false, length, slice_index_or, IfOk};
ghost use Rattle.replay.specs.Prelude.{choices_of, element_count, events, inventory_of, is_event, IsElement, IsPlanOf, turns, turns_below};

use base::Memory;
use catalogue::Problem;
use cluster::{Choice, Element, Instant};
use slices::Plan;
use slices::plan::end_in;
use std::alloc::Global;

/// Marks the start and the end of an element's action, if it has one.
#[tactic(auto, unfolding(crate::specs::Events::turns))]
fn mark_element(marks: &mut [bool], p: &Problem, plan: &Plan, e: Element)
    requires plan { IsPlanOf p.now.given plan.now }
    requires element { IsElement p.now.given e }
    requires room { length marks.old ≡ p.now.given.horizon + 1 }
    ensures { (t : ℕ) → slice_index_or marks.new t false ≡ (slice_index_or marks.old t false || turns p.now.given e (choices_of plan.now e) t) }
{
    match plan.choice(e) {
        Choice::Idle => {}
        Choice::Act { place: _, start } => {
            marks[start as usize] = true;
            marks[end_in(p, plan, e) as usize] = true;
        }
    }
}

/// Marks the starts and the ends of all actions.
#[tactic(auto, using(base::proofs::Ranges::any_more))]
fn mark_elements(marks: &mut [bool], p: &Problem, plan: &Plan)
    requires plan { IsPlanOf p.now.given plan.now }
    requires room { length marks.old ≡ p.now.given.horizon + 1 }
    ensures { (t : ℕ) → slice_index_or marks.new t false ≡ (slice_index_or marks.old t false || turns_below p.now.given (choices_of plan.now) (element_count (inventory_of p.now.given)) t) }
{
    for x in 0..p.cluster().element_count() {
        mark_element(marks, p, plan, p.cluster().element(x));
    }
}

/// Which instants up to the horizon are event instants.
#[tactic(auto, using(crate::proofs::Marks::ends_marked), unfolding(crate::specs::Events::is_event))]
fn marks(alloc: Global, p: &Problem, plan: &Plan) -> Result<Vec<bool>, Memory>
    requires { IsPlanOf p.now.given plan.now }
    ensures room { IfOk result (λ marks. length marks.items ≡ p.now.given.horizon + 1) }
    ensures marks { IfOk result (λ marks. (t : ℕ) → slice_index_or marks.items t false ≡ is_event p.now.given (choices_of plan.now) t) }
{
    let horizon = p.horizon() as usize;
    let mut marks = vec![in alloc; false; horizon + 1]?;
    marks[0] = true;
    marks[horizon] = true;
    mark_elements(&mut marks, p, plan);
    Ok(marks)
}

/// The event instants, ascending and without repeats.
#[tactic(auto, using(base::proofs::Ranges::passes_more, base::proofs::Ranges::fails_more), unfolding(crate::specs::Events::events))]
pub fn events(alloc: Global, p: &Problem, plan: &Plan) -> Result<Vec<Instant>, Memory>
    requires { IsPlanOf p.now.given plan.now }
    ensures events { IfOk result (λ instants. instants.items ≡ events p.now.given (choices_of plan.now)) }
{
    let marks = marks(alloc, p, plan)?;
    let mut instants = Vec::new(alloc);
    for t in 0..marks.len() {
        if marks[t] {
            instants.push(t as u32)?;
        }
    }
    Ok(instants)
}
