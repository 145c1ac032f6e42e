//! Whether machines are members, found at once in a list that is in order.
ghost use Rattle.std.specs.Prelude.{◌≢◌, ℕ, ◌<◌, IfSome, IsTrue};
ghost use Rattle.quick_checks.specs.Prelude.{ForbidsPair, IsInPart, IsMember, Separates, separation_seen};

use catalogue::{Constraint, Vms};
use cluster::VmId;
use slices::Form;
use slices::form::{Separation, form_of};

// where a machine would stand in a list that is in order
fn place_in(machines: &[VmId], v: VmId) -> usize {
    let mut low = 0;
    let mut high = machines.len();
    while low < high {
        let middle = low + (high - low) / 2;
        if machines[middle].0 < v.0 {
            low = middle + 1;
        } else {
            high = middle;
        }
    }
    low
}

/// Whether a machine is at a place of a list.
pub(crate) fn is_at(machines: &[VmId], place: usize, v: VmId) -> bool
    ensures { IsTrue result → IsMember machines.now v.0 }
{
    place < machines.len() && machines[place].0 == v.0
}

// whether a machine is found in a list. In one that is not in order it may be missed
fn is_found(machines: &[VmId], v: VmId) -> bool
    ensures { IsTrue result → IsMember machines.now v.0 }
{
    is_at(machines, place_in(machines, v), v)
}

// whether it is in a list
fn is_listed(machines: &Vms, v: VmId) -> bool
    ensures { IsTrue result → IsMember machines.now v.0 }
{
    is_found(machines.items(), v) || machines.has(v)
}

// a part in which a machine is found
fn part_found(parts: &[Vms], v: VmId) -> Option<usize>
    ensures { IfSome result (λ i. IsInPart parts.now i v.0) }
{
    for i in 0..parts.len() {
        let machines = parts[i].items();
        if is_found(machines, v) {
            return Some(i);
        }
    }
    None
}

/// A part in which it is.
pub fn part_with(parts: &[Vms], v: VmId) -> Option<usize>
    ensures { IfSome result (λ i. IsInPart parts.now i v.0) }
{
    let found = part_found(parts, v);
    if found.is_some() {
        return found;
    }
    for i in 0..parts.len() {
        if parts[i].has(v) {
            return Some(i);
        }
    }
    None
}

// whether two machines are seen to be in two parts
fn are_in_two(parts: &[Vms], v: VmId, w: VmId) -> bool
    ensures { IsTrue result → (i : ℕ) × (j : ℕ) × (i ≢ j) × IsInPart parts.now i v.0 × IsInPart parts.now j w.0 }
{
    let Some(i) = part_with(parts, v) else {
        return false;
    };
    let Some(j) = part_with(parts, w) else {
        return false;
    };
    i != j
}

// whether two machines are seen to be kept apart
fn are_separated(separation: &Separation, v: VmId, w: VmId) -> bool
    ensures { IsTrue result → Separates (separation_seen separation.now) v.0 w.0 }
{
    match separation {
        Separation::Each(machines) => {
            v.0 != w.0 && is_listed(machines, v) && is_listed(machines, w)
        }
        Separation::Between(parts) => are_in_two(parts.items(), v, w),
        Separation::FromOthers(machines) => is_listed(machines, v) && !machines.has(w),
    }
}

/// Whether a constraint is seen to keep two machines apart: it is where no machine is in two parts.
pub fn keeps_apart(constraint: &Constraint, v: VmId, w: VmId) -> bool
    ensures { IsTrue result → ForbidsPair constraint.now v.0 w.0 }
{
    match form_of(constraint) {
        Form::Apart(separation) => are_separated(&separation, v, w),
        Form::Allowed(..)
        | Form::Together(..)
        | Form::Ordered(..)
        | Form::InTurn(..)
        | Form::Bounded(..)
        | Form::Powered(..)
        | Form::Settled => false,
    }
}
