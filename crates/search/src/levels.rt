//! Each change, mark and return goes to the region, to the sum of its least ends and to every propagator.
ghost use Rattle.std.specs.Prelude.{◌≡◌, ◌∷◌, ◌<◌, OnOk, length};
ghost use Rattle.search.specs.Prelude.{AllFollow, Element as AnyElement, IsElement, IsGround, keeping, on_side, Pairs, SameRule, sets};

use crate::ground::Ground;
use base::Memory;
use catalogue::Problem;
use domains::Change;
use prop_core::all::{back_all, mark_all, tell_all};
use prop_core::propagator::Propagator;

/// Narrows one element, and tells every propagator. After want of memory the search is over.
pub fn narrow_all(
    p: &Problem,
    ground: &mut Ground,
    rules: &mut Vec<Box<dyn Propagator>>,
    change: Change,
) -> Result<(), Memory>
    requires ground { IsGround p.now.given ground.old }
    requires element { IsElement p.now.given change.element }
    requires follow { AllFollow (λ b. meaning b) p.now.given ground.old.trail rules.old.items }
    ensures same { Pairs (λ b. meaning b) SameRule rules.old.items rules.new.items }
    ensures ground { OnOk result (IsGround p.now.given ground.new) }
    ensures marks { OnOk result (ground.new.trail.marks ≡ ground.old.trail.marks) }
    ensures sets { OnOk result ((e : AnyElement) → sets ground.new.trail.region e
        ≡ keeping change.element (on_side change.side change.part) (sets ground.old.trail.region) e) }
    ensures follow { OnOk result (AllFollow (λ b. meaning b) p.now.given ground.new.trail rules.new.items) }
{
    let before = ground.narrow(p, change)?;
    tell_all(
        p,
        ground.trail.region(),
        rules,
        change,
        before,
        &ground.kept,
    )?;
    Ok(())
}

/// Makes a mark everywhere. After want of memory the search is over.
pub fn mark_levels(
    p: &Problem,
    ground: &mut Ground,
    rules: &mut Vec<Box<dyn Propagator>>,
) -> Result<(), Memory>
    requires ground { IsGround p.now.given ground.old }
    requires follow { AllFollow (λ b. meaning b) p.now.given ground.old.trail rules.old.items }
    ensures same { Pairs (λ b. meaning b) SameRule rules.old.items rules.new.items }
    ensures ground { OnOk result (IsGround p.now.given ground.new) }
    ensures trail { OnOk result (ground.new.trail ≡ record { region = ground.old.trail.region; marks = ground.old.trail.region ∷ ground.old.trail.marks }) }
    ensures follow { OnOk result (AllFollow (λ b. meaning b) p.now.given ground.new.trail rules.new.items) }
{
    ground.mark(p)?;
    mark_all(rules)?;
    Ok(())
}

/// Goes back to the last mark everywhere.
pub fn back_levels(p: &Problem, ground: &mut Ground, rules: &mut Vec<Box<dyn Propagator>>)
    requires ground { IsGround p.now.given ground.old }
    requires marked { 0 < length ground.old.trail.marks }
    requires follow { AllFollow (λ b. meaning b) p.now.given ground.old.trail rules.old.items }
    ensures same { Pairs (λ b. meaning b) SameRule rules.old.items rules.new.items }
    ensures ground { IsGround p.now.given ground.new }
    ensures marks { ground.old.trail.marks ≡ ground.new.trail.region ∷ ground.new.trail.marks }
    ensures follow { AllFollow (λ b. meaning b) p.now.given ground.new.trail rules.new.items }
{
    ground.back(p);
    back_all(rules);
}
