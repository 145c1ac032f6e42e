//! Whether a machine that can only stay does so beside another one of its part: then it breaks nothing that the other does not.
ghost use Rattle.std.specs.Prelude.{◌≡◌, ℕ, ◌<◌, [], ◌∷◌, nat_lt, true, length, IsTrue};
ghost use Rattle.std.specs.List.{list_all};
ghost use Rattle.cluster.specs.declared.choices.Choice.TheVariants.{Idle as Stays};
ghost use Rattle.rule_constraint.specs.Watches.{IsHarmless};
ghost use Rattle.rule_pair.specs.Prelude.{are_below, Between, constraint_watch, FromOthers, HasTwin, IsInPart, IsSized, IsTwin, machine_count, separated, separation_seen, sets, StandsFor, Vm, vm};

use crate::pairs::separation_of;
use quick_checks::members::part_with;
use rule_frame::{Element, Problem, Region, Separation, VmId, Vms};
use slices::elements::state_of;

// whether a machine can only stay
fn only_stays(p: &Problem, g: &Region, v: VmId) -> bool
    requires region { IsSized p.now.given g.now }
    requires machine { v.0 < machine_count p.now.given }
    ensures { IsTrue result → sets g.now (vm v.0) ≡ Stays ∷ [] }
{
    let domain = g.domain(Element::Vm(v));
    domain.idle() && domain.rows().is_empty()
}

// whether two machines are twins, of which the first can only stay
fn is_twin(p: &Problem, g: &Region, v: VmId, u: VmId) -> bool
    requires region { IsSized p.now.given g.now }
    requires first { v.0 < machine_count p.now.given }
    requires second { u.0 < machine_count p.now.given }
    requires stays { sets g.now (vm v.0) ≡ Stays ∷ [] }
    ensures { IsTrue result → IsTwin p.now.given (sets g.now) v.0 u.0 }
{
    u.0 != v.0 && state_of(p, u) == state_of(p, v) && only_stays(p, g, u)
}

// whether a machine is in no part but one
fn is_in_one(parts: &[Vms], i: usize, v: VmId) -> bool
    ensures { IsTrue result → (j : ℕ) → IsInPart parts.now j v.0 → j ≡ i }
{
    for j in 0..parts.len() {
        if j != i && parts[j].has(v) {
            return false;
        }
    }
    true
}

// whether a machine of a part has a twin in it, which is in no other part
fn has_twin_in(p: &Problem, g: &Region, parts: &[Vms], i: usize, v: VmId) -> bool
    requires region { IsSized p.now.given g.now }
    requires machine { v.0 < machine_count p.now.given }
    requires part { i < length parts.now }
    requires machines { list_all (list_all (λ x. nat_lt x.0 (machine_count p.now.given))) parts.now ≡ true }
    requires alone { (j : ℕ) → IsInPart parts.now j v.0 → j ≡ i }
    requires stays { sets g.now (vm v.0) ≡ Stays ∷ [] }
    ensures { IsTrue result → HasTwin p.now.given (sets g.now) (Between parts.now) v.0 }
{
    let machines = parts[i].items();
    for k in 0..machines.len() {
        let u = machines[k];
        if is_twin(p, g, v, u) && is_in_one(parts, i, u) {
            return true;
        }
    }
    false
}

// whether a machine of one part alone has a twin there
fn has_twin_beside(p: &Problem, g: &Region, parts: &[Vms], v: VmId) -> bool
    requires region { IsSized p.now.given g.now }
    requires machine { v.0 < machine_count p.now.given }
    requires machines { list_all (list_all (λ x. nat_lt x.0 (machine_count p.now.given))) parts.now ≡ true }
    requires stays { sets g.now (vm v.0) ≡ Stays ∷ [] }
    ensures { IsTrue result → HasTwin p.now.given (sets g.now) (Between parts.now) v.0 }
{
    match part_with(parts, v) {
        None => false,
        Some(i) => is_in_one(parts, i, v) && has_twin_in(p, g, parts, i, v),
    }
}

// whether a machine has a twin that is a member as it is, or none as it is
fn has_twin_alike(p: &Problem, g: &Region, machines: &Vms, v: VmId) -> bool
    requires region { IsSized p.now.given g.now }
    requires machine { v.0 < machine_count p.now.given }
    requires stays { sets g.now (vm v.0) ≡ Stays ∷ [] }
    ensures { IsTrue result → HasTwin p.now.given (sets g.now) (FromOthers machines.now) v.0 }
{
    let is_member = machines.has(v);
    for k in 0..p.cluster().machines().len() {
        let u = VmId(k as u32);
        if is_twin(p, g, v, u) && machines.has(u) == is_member {
            return true;
        }
    }
    false
}

// whether a machine that can only stay has a twin; of machines each of which is kept apart from all others none has one
fn has_twin(p: &Problem, g: &Region, separation: &Separation, v: VmId) -> bool
    requires region { IsSized p.now.given g.now }
    requires machine { v.0 < machine_count p.now.given }
    requires machines { are_below (machine_count p.now.given) (separated (separation_seen separation.now)) ≡ true }
    requires stays { sets g.now (vm v.0) ≡ Stays ∷ [] }
    ensures { IsTrue result → HasTwin p.now.given (sets g.now) (separation_seen separation.now) v.0 }
{
    match separation {
        Separation::Each(_) => false,
        Separation::Between(parts) => has_twin_beside(p, g, parts.items(), v),
        Separation::FromOthers(machines) => has_twin_alike(p, g, machines, v),
    }
}

/// Whether a constraint, where it was clean before a machine lost choices, is seen to be clean with those that it has now:
/// it can only stay, and so can another machine on the same node, from which the same ones are kept apart.
pub(crate) fn is_spared(p: &Problem, g: &Region, c: u32, v: VmId) -> bool
    requires region { IsSized p.now.given g.now }
    requires constraint { c < length p.now.given.constraints }
    requires machine { v.0 < machine_count p.now.given }
    ensures { IsTrue result → IsHarmless (constraint_watch p.now.given c) p.now.given (sets g.now) (Vm v) }
{
    if !only_stays(p, g, v) {
        return false;
    }
    match separation_of(&p.constraints()[c as usize]) {
        None => false,
        Some(separation) => has_twin(p, g, &separation, v),
    }
}
