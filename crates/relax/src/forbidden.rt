//! Which pairs of machines and which places a constraint forbids.
ghost use Rattle.std.specs.Prelude.{◌≡◌, ◌≢◌, ◌↔◌, ℕ, ◌<◌, false, IsTrue};
ghost use Rattle.relax.specs.Prelude.{ForbidsPair, ForbidsPlace, IsInPart, machine_count, Separates, separation_seen};

use catalogue::{Constraint, Problem, Vms};
use cluster::{NodeId, VmId};
use slices::Form;
use slices::form::{Separation, form_of, is_off_limits};

// whether a machine is in another part than that of a number
fn is_in_other(parts: &[Vms], i: usize, w: VmId) -> bool
    ensures yes { IsTrue result → (j : ℕ) × (i ≢ j) × IsInPart parts.now j w.0 }
    ensures no { result ≡ false → (j : ℕ) → i ≢ j → ¬ IsInPart parts.now j w.0 }
{
    for j in 0..parts.len() {
        if j != i && parts[j].has(w) {
            return true;
        }
    }
    false
}

// whether two machines are in two different parts
fn are_in_two(parts: &[Vms], v: VmId, w: VmId) -> bool
    ensures yes { IsTrue result → (i : ℕ) × (j : ℕ) × (i ≢ j) × IsInPart parts.now i v.0 × IsInPart parts.now j w.0 }
    ensures no { result ≡ false → (i j : ℕ) → i ≢ j → IsInPart parts.now i v.0 → ¬ IsInPart parts.now j w.0 }
{
    for i in 0..parts.len() {
        if parts[i].has(v) && is_in_other(parts, i, w) {
            return true;
        }
    }
    false
}

// whether two machines are kept apart
fn are_separated(separation: &Separation, v: VmId, w: VmId) -> bool
    ensures yes { IsTrue result → Separates (separation_seen separation.now) v.0 w.0 }
    ensures no { result ≡ false → ¬ Separates (separation_seen separation.now) v.0 w.0 }
{
    match separation {
        Separation::Each(machines) => machines.has(v) && machines.has(w) && v.0 != w.0,
        Separation::Between(parts) => are_in_two(parts.items(), v, w),
        Separation::FromOthers(machines) => machines.has(v) && !machines.has(w),
    }
}

/// Whether a constraint lets two machines share no node.
pub fn forbids_pair(constraint: &Constraint, v: VmId, w: VmId) -> bool
    ensures yes { IsTrue result → ForbidsPair constraint.now v.0 w.0 }
    ensures no { result ≡ false → ¬ ForbidsPair constraint.now v.0 w.0 }
{
    match form_of(constraint) {
        Form::Apart(separation) => are_separated(&separation, v, w),
        Form::Allowed(..)
        | Form::Together(..)
        | Form::Ordered(..)
        | Form::InTurn(..)
        | Form::Bounded(..)
        | Form::Powered(..)
        | Form::Settled => false,
    }
}

/// Whether a constraint lets a machine not be on a node.
pub fn forbids_place(p: &Problem, constraint: &Constraint, v: VmId, n: NodeId) -> bool
    requires { v.0 < machine_count p.now.given }
    ensures yes { IsTrue result → ForbidsPlace p.now.given constraint.now v.0 n.0 }
    ensures no { result ≡ false → ¬ ForbidsPlace p.now.given constraint.now v.0 n.0 }
{
    match form_of(constraint) {
        Form::Allowed(machines, places) => machines.has(v) && is_off_limits(p, &places, v, n),
        Form::Apart(..)
        | Form::Together(..)
        | Form::Ordered(..)
        | Form::InTurn(..)
        | Form::Bounded(..)
        | Form::Powered(..)
        | Form::Settled => false,
    }
}
