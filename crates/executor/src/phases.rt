//! The table of phases, by the numbers of elements.
ghost use Rattle.std.specs.Prelude.{◌≡◌, ◌↔◌, ◌⊎◌, ℕ, ◌<◌, length, IfOk, IsTrue};
ghost use Rattle.executor.specs.Prelude.{choices_of, element_at, element_count, first_phase, inventory_of, IsElement, IsFirstPlace, IsPlanOf, Moves, phase_at, phases_in};
ghost use Rattle.executor.specs.declared.phase.Phase.TheVariants as Phase;

use crate::phase::Phase;
use base::Memory;
use catalogue::Problem;
use cluster::{Choice, Element};
use slices::Plan;
use std::alloc::Global;

/// The phase before the first event.
fn first_phase(choice: Choice) -> Phase
    ensures { result ≡ first_phase choice }
{
    match choice {
        Choice::Idle => Phase::None,
        Choice::Act { .. } => Phase::Waiting,
    }
}

fn first_of(p: &Problem, plan: &Plan, e: Element) -> Phase
    requires plan { IsPlanOf p.now.given plan.now }
    requires element { IsElement p.now.given e }
    ensures { result ≡ first_phase (choices_of plan.now e) }
{
    first_phase(plan.choice(e))
}

/// The phases before the first event.
pub(crate) fn first_phases(alloc: Global, p: &Problem, plan: &Plan) -> Result<Vec<Phase>, Memory>
    requires { IsPlanOf p.now.given plan.now }
    ensures rows { IfOk result (λ phases. length phases.items ≡ element_count (inventory_of p.now.given)) }
    ensures first { IfOk result (λ phases. (x : ℕ) → x < element_count (inventory_of p.now.given) → phase_at phases.items x ≡ first_phase (choices_of plan.now (element_at (inventory_of p.now.given) x))) }
{
    let mut phases = Vec::new(alloc);
    for x in 0..p.cluster().element_count() {
        phases.push(first_of(p, plan, p.cluster().element(x)))?;
    }
    Ok(phases)
}

/// How far the action of an element is.
#[tactic(auto, using(crate::proofs::TableLemmas::phase_by_number))]
pub(crate) fn phase_of(p: &Problem, phases: &[Phase], e: Element) -> Phase
    requires rows { length phases.now ≡ element_count (inventory_of p.now.given) }
    requires element { IsElement p.now.given e }
    ensures { result ≡ phases_in p.now.given phases.now e }
{
    phases[p.cluster().number(e)]
}

/// The action of an element goes on to another phase.
#[tactic(auto, using(crate::proofs::TableLemmas::moves_at))]
pub(crate) fn move_to(p: &Problem, phases: &mut Vec<Phase>, e: Element, phase: Phase)
    requires rows { length phases.old.items ≡ element_count (inventory_of p.now.given) }
    requires element { IsElement p.now.given e }
    ensures rows { length phases.new.items ≡ element_count (inventory_of p.now.given) }
    ensures moves { Moves (phases_in p.now.given phases.old.items) e phase (phases_in p.now.given phases.new.items) }
{
    let x = p.cluster().number(e);
    phases[x] = phase;
}

/// The first action that has failed.
pub(crate) fn first_failed(phases: &[Phase]) -> Option<usize>
    ensures { IsFirstPlace (length phases.now) (λ x. phase_at phases.now x ≡ Phase.Failed) result }
{
    for x in 0..phases.len() {
        if let Phase::Failed = phases[x] {
            return Some(x);
        }
    }
    None
}

fn is_over(phase: Phase) -> bool
    ensures { IsTrue result ↔ ((phase ≡ Phase.None) ⊎ (phase ≡ Phase.Ended)) }
{
    match phase {
        Phase::None | Phase::Ended => true,
        Phase::Waiting | Phase::Running | Phase::Failed => false,
    }
}

/// Whether each action has ended.
pub(crate) fn all_ended(phases: &[Phase]) -> bool
    ensures { IsTrue result ↔ ((x : ℕ) → x < length phases.now → (phase_at phases.now x ≡ Phase.None) ⊎ (phase_at phases.now x ≡ Phase.Ended)) }
{
    for x in 0..phases.len() {
        if !is_over(phases[x]) {
            return false;
        }
    }
    true
}
