//! Whether machines keep apart, told by where each stands: this is quick where nothing is found.
ghost use Rattle.std.specs.Prelude.{◌≡◌, ◌≢◌, ℕ, ◌<◌, nat_lt, true, IsTrue, length, slice_index_or, []};
ghost use Rattle.std.specs.List.{list_all};
ghost use Rattle.closing.specs.Prelude.{AreApart, has_node_of, IsMember, IsSized, machine_count, one, sets, StaysClear, sure};

use crate::shared::stands::{Stands, end_beside, standing};
use catalogue::{Problem, Vms};
use cluster::{Element, Instant, VmId};
use domains::Region;

// whether a machine has a choice, and is under no end of its choices on a node where another one stands
fn stays_clear(p: &Problem, g: &Region, v: VmId, stands: Stands, w: VmId, t: Instant) -> bool
    requires region { IsSized p.now.given g.now }
    requires other { w.0 < machine_count p.now.given }
    requires stands { (n : ℕ) → has_node_of stands n ≡ (sure p.now.given (sets g.now) t).present v.0 (one n) }
    ensures { IsTrue result → StaysClear p.now.given (sets g.now) t v.0 w.0 }
{
    if g.domain(Element::Vm(w)).is_empty() {
        return false;
    }
    match end_beside(p, g, w, stands, t) {
        None => true,
        Some(_) => false,
    }
}

// whether so is each of these machines but this one, where this one stands
fn keeps_clear(p: &Problem, g: &Region, v: VmId, machines: &[VmId], t: Instant) -> bool
    requires region { IsSized p.now.given g.now }
    requires machine { v.0 < machine_count p.now.given }
    requires machines { list_all (λ x. nat_lt x.0 (machine_count p.now.given)) machines.now ≡ true }
    ensures { IsTrue result → (w : ℕ) → IsMember machines.now w → v.0 ≢ w → StaysClear p.now.given (sets g.now) t v.0 w }
{
    let stands = standing(p, g, v, t);
    for i in 0..machines.len() {
        let w = machines[i];
        if w.0 != v.0 && !stays_clear(p, g, v, stands, w, t) {
            return false;
        }
    }
    true
}

/// Whether it is seen that machines keep others off the nodes where they stand.
pub fn are_apart(p: &Problem, g: &Region, machines: &[VmId], others: &[VmId], t: Instant) -> bool
    requires region { IsSized p.now.given g.now }
    requires machines { list_all (λ x. nat_lt x.0 (machine_count p.now.given)) machines.now ≡ true }
    requires others { list_all (λ x. nat_lt x.0 (machine_count p.now.given)) others.now ≡ true }
    ensures { IsTrue result → AreApart p.now.given (sets g.now) t machines.now others.now }
{
    for i in 0..machines.len() {
        if !keeps_clear(p, g, machines[i], others, t) {
            return false;
        }
    }
    true
}

// whether it is seen of these machines and those of each part but one
fn are_apart_of_others(
    p: &Problem,
    g: &Region,
    machines: &[VmId],
    parts: &[Vms],
    part: usize,
    t: Instant,
) -> bool
    requires region { IsSized p.now.given g.now }
    requires own { list_all (λ x. nat_lt x.0 (machine_count p.now.given)) machines.now ≡ true }
    requires machines { list_all (list_all (λ x. nat_lt x.0 (machine_count p.now.given))) parts.now ≡ true }
    ensures { IsTrue result → (j : ℕ) → j < length parts.now → part ≢ j → AreApart p.now.given (sets g.now) t machines.now (slice_index_or parts.now j []) }
{
    for j in 0..parts.len() {
        if j != part && !are_apart(p, g, machines, parts[j].items(), t) {
            return false;
        }
    }
    true
}

/// Whether it is seen of the machines of each part and those of each other part.
pub fn are_parts_apart(p: &Problem, g: &Region, parts: &[Vms], t: Instant) -> bool
    requires region { IsSized p.now.given g.now }
    requires machines { list_all (list_all (λ x. nat_lt x.0 (machine_count p.now.given))) parts.now ≡ true }
    ensures { IsTrue result → (i j : ℕ) → i < length parts.now → j < length parts.now → i ≢ j → AreApart p.now.given (sets g.now) t (slice_index_or parts.now i []) (slice_index_or parts.now j []) }
{
    for i in 0..parts.len() {
        if !are_apart_of_others(p, g, parts[i].items(), parts, i, t) {
            return false;
        }
    }
    true
}
