//! Which constraints are dirty after a change: those that look at its element, but for those that are seen to stay clean.
ghost use Rattle.std.specs.Prelude.{◌≡◌, ◌<◌, ◌≤◌, ℕ, false, IsTrue, List, length, slice_index_or};
ghost use Rattle.std.specs.List.{Contains};
ghost use Rattle.rule_constraint.specs.Prelude.{AreDirty, AreFewer, Choice as AnyChoice, IsDisturbed, IsElement, IsIndexOf, IsSized, IsSpared, machine_count, sets, watch_at};
ghost use Rattle.cluster.specs.declared.ids.Element.TheVariants.{Vm};

use crate::kinds::reason_kind;
use crate::{ConstraintIndex, Kinds};
use rule_frame::{DirtySet, Element, Problem, Region, VmId};

// whether a constraint gives no reasons of these kinds, or is seen to stay clean
#[tactic(auto, using(crate::proofs::DirtyLemmas::spared_covered, crate::proofs::DirtyLemmas::spared_settled, crate::proofs::DirtyLemmas::spared_of_others))]
fn is_spared<S: Kinds>(kinds: &S, p: &Problem, g: &Region, v: VmId, c: u32) -> bool
    requires region { IsSized p.now.given g.now }
    requires machine { v.0 < machine_count p.now.given }
    requires constraint { c < length p.now.given.constraints }
    ensures { IsTrue result → IsSpared (S.kinds kinds.now) p.now.given (sets g.now) (Vm v) c }
{
    match reason_kind(&p.constraints()[c as usize]) {
        None => true,
        Some(kind) => !kinds.covers(kind) || kinds.spares(p, g, c, v),
    }
}

// whether a constraint is dirty already, of which nothing has to be asked, or spared
fn needs_nothing<S: Kinds>(
    kinds: &S,
    p: &Problem,
    g: &Region,
    v: VmId,
    c: u32,
    dirty: &DirtySet,
) -> bool
    requires region { IsSized p.now.given g.now }
    requires machine { v.0 < machine_count p.now.given }
    requires constraint { c < length p.now.given.constraints }
    requires count { length p.now.given.constraints ≤ length dirty.now.top }
    ensures { IsTrue result → slice_index_or dirty.now.top c false ≡ false → IsSpared (S.kinds kinds.now) p.now.given (sets g.now) (Vm v) c }
{
    dirty.is_dirty(c as usize) || is_spared(kinds, p, g, v, c)
}

// sets dirty each of the watches of these numbers that is not spared
fn set_unspared_dirty<S: Kinds>(
    kinds: &S,
    p: &Problem,
    g: &Region,
    v: VmId,
    numbers: &[u32],
    dirty: &mut DirtySet,
)
    requires region { IsSized p.now.given g.now }
    requires machine { v.0 < machine_count p.now.given }
    requires numbers { (i : ℕ) → Contains numbers.now i → i < length p.now.given.constraints }
    requires count { length p.now.given.constraints ≤ length dirty.old.top }
    ensures { AreDirty (IsSpared (S.kinds kinds.now) p.now.given (sets g.now) (Vm v)) (length numbers.now) numbers.now dirty.old dirty.new }
{
    for k in 0..numbers.len() {
        if !needs_nothing(kinds, p, g, v, numbers[k], dirty) {
            dirty.set_dirty(numbers[k] as usize, true);
        }
    }
}

// sets dirty each of the watches of these numbers
fn set_each_dirty(numbers: &[u32], dirty: &mut DirtySet)
    requires { (i : ℕ) → Contains numbers.now i → i < length dirty.old.top }
    ensures { AreDirty (λ c. ⊥) (length numbers.now) numbers.now dirty.old dirty.new }
{
    for k in 0..numbers.len() {
        dirty.set_dirty(numbers[k] as usize, true);
    }
}

/// Sets dirty each constraint that looks at an element, by its number, but for those that stay clean: so each on which it
/// weighs that the element has lost choices. No other constraint is looked for.
pub fn set_looking_dirty<S: Kinds>(
    kinds: &S,
    index: &ConstraintIndex,
    p: &Problem,
    g: &Region,
    e: Element,
    dirty: &mut DirtySet,
)
    requires region { IsSized p.now.given g.now }
    requires right { IsIndexOf p.now.given (length p.now.given.constraints) index.now.lists }
    requires element { IsElement p.now.given e }
    requires count { length p.now.given.constraints ≤ length dirty.old.top }
    ensures { (old : List AnyChoice) → AreFewer (sets g.now e) old → IsDisturbed (watch_at (S.kinds kinds.now) p.now.given) p.now.given (sets g.now) e old dirty.old dirty.new }
{
    match e {
        Element::Vm(v) => {
            set_unspared_dirty(kinds, p, g, v, index.lists.of_machine(v), dirty);
            set_unspared_dirty(kinds, p, g, v, index.lists.everywhere(), dirty);
        }
        Element::Node(n) => set_each_dirty(index.lists.of_node(n), dirty),
    }
}
