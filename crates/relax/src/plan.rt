//! The plan of a region that is fixed.
ghost use Rattle.std.specs.Prelude.{◌≡◌, ℕ, ◌<◌, ◌∷◌, [], length, slice_index_or, IfOk};
ghost use Rattle.relax.specs.Prelude.{AreLegal, choices_of, element_at, element_count, HasElement, inventory_of, IsFixed, IsOnly, IsPlanOf, IsSized, sets};

use base::Memory;
use catalogue::Problem;
use cluster::{Choice, Element};
use domains::Region;
use slices::Plan;
use std::alloc::Global;

/// The one plan of a region in which each element has exactly one choice, a legal one. The only error
/// is want of memory.
pub fn plan_of(alloc: Global, p: &Problem, g: &Region) -> Result<Plan, Memory>
    requires region { IsSized p.now.given g.now }
    requires fixed { IsFixed g.now }
    requires legal { AreLegal p.now.given (sets g.now) }
    ensures plan { IfOk result (IsPlanOf p.now.given) }
    ensures only { IfOk result (λ plan. IsOnly (sets g.now) (choices_of plan)) }
{
    let choices = only_choices(alloc, p, g)?;
    Ok(Plan::idle_or(p, choices))
}

// the one choice of each element, in the order of the elements
fn only_choices(alloc: Global, p: &Problem, g: &Region) -> Result<Vec<Choice>, Memory>
    requires region { IsSized p.now.given g.now }
    requires fixed { IsFixed g.now }
    ensures count { IfOk result (λ cs. length cs.items ≡ element_count (inventory_of p.now.given)) }
    ensures each { IfOk result (λ cs. (x : ℕ) → x < element_count (inventory_of p.now.given) → sets g.now (element_at (inventory_of p.now.given) x) ≡ slice_index_or cs.items x Choice.Idle ∷ []) }
{
    let count = p.cluster().element_count();
    let mut choices = Vec::with_capacity(alloc, count)?;
    for x in 0..count {
        choices.push(only_choice(g, p.cluster().element(x)))?;
    }
    Ok(choices)
}

// the one choice of an element
fn only_choice(g: &Region, e: Element) -> Choice
    requires there { HasElement g.now e }
    requires fixed { length (sets g.now e) ≡ 1 }
    ensures { sets g.now e ≡ result ∷ [] }
{
    match g.domain(e).rows() {
        [] => Choice::Idle,
        [row, ..] => Choice::Act {
            place: row.place,
            start: row.lo,
        },
    }
}
