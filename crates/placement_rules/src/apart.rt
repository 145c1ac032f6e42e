//! Which machines share a node.
ghost use Rattle.std.specs.Prelude.{◌≡◌, ◌↔◌, ◌⊎◌, ◌≢◌, ℕ, ◌+◌, ◌<◌, ◌≤◌, false, true, Some, None, nat_lt, length, if◌then◌else◌, IsTrue, slice_index_or};
ghost use Rattle.std.specs.List.{list_all};
ghost use Rattle.placement_rules.specs.Prelude.{AreApart, AreNoted, Between, choices_of, Each, FromOthers, has_machine, is_in, is_member, IsClaim, IsHeldWithin, IsPlanOf, label_on, machine_count, max_nodes, one, separated, separation_seen, snapshot_at, split_labels};

use crate::counts::machines_of;
use catalogue::{Problem, Vms};
use cluster::limits::MAX_NODES;
use cluster::{Instant, MachineSet, VmId};
use slices::Plan;
use slices::form::Separation;
use slices::holding::{Held, Holding};
use slices::snapshot::holding_at;

/// A table of nodes without labels.
fn no_labels() -> [Option<usize>; MAX_NODES]
    ensures { (n : ℕ) → label_on result n ≡ None }
{
    [None; MAX_NODES]
}

/// Notes a label where something is held. False where another label is noted there.
fn claim(table: &mut [Option<usize>; MAX_NODES], held: Option<Held>, label: usize) -> bool
    requires within { IsHeldWithin max_nodes held }
    ensures others { (n : ℕ) → is_in (one n) held ≡ false → label_on table.new n ≡ label_on table.old n }
    ensures taken { IsTrue result → (n : ℕ) → IsTrue (is_in (one n) held) → label_on table.new n ≡ Some label }
    ensures free { IsTrue result → (n : ℕ) → IsTrue (is_in (one n) held) → (label_on table.old n ≡ None) ⊎ (label_on table.old n ≡ Some label) }
    ensures refused { result ≡ false → (n : ℕ) × (l : ℕ) × (n < max_nodes) × IsTrue (is_in (one n) held) × (label_on table.old n ≡ Some l) × (l ≢ label) }
{
    match held {
        Some(h) => {
            let n = h.node.0 as usize;
            match table[n] {
                Some(other) if other != label => false,
                _ => {
                    table[n] = Some(label);
                    true
                }
            }
        }
        None => true,
    }
}

/// Notes a label on the nodes of a machine. False where another label is noted on one of them.
fn claim_both(table: &mut [Option<usize>; MAX_NODES], now: Holding, label: usize) -> bool
    requires source { IsHeldWithin max_nodes now.source }
    requires target { IsHeldWithin max_nodes now.target }
    ensures { IsClaim now label table.old table.new result }
{
    claim(table, now.source, label) && claim(table, now.target, label)
}

/// Whether no node has presences of two of the machines.
fn is_spread(p: &Problem, plan: &Plan, machines: &[VmId], t: Instant) -> bool
    requires plan { IsPlanOf p.now.given plan.now }
    requires machines { list_all (λ x. nat_lt x.0 (machine_count p.now.given)) machines.now ≡ true }
    ensures { IsTrue result ↔ AreApart p.now.given (snapshot_at p.now.given (choices_of plan.now) t) (Each machines.now) }
{
    let mut table = no_labels();
    for v in machines {
        let now = holding_at(p, plan, *v, t);
        if !claim_both(&mut table, now, v.0 as usize) {
            return false;
        }
    }
    true
}

/// Notes the number of a part on the nodes of its machines. False where another number is noted
/// on one of them.
fn claim_part(
    table: &mut [Option<usize>; MAX_NODES],
    p: &Problem,
    plan: &Plan,
    parts: &[Vms],
    i: usize,
    t: Instant,
) -> bool
    requires plan { IsPlanOf p.now.given plan.now }
    requires machines { list_all (list_all (λ x. nat_lt x.0 (machine_count p.now.given))) parts.now ≡ true }
    requires part { i < length parts.now }
    requires noted { AreNoted (snapshot_at p.now.given (choices_of plan.now) t) (split_labels parts.now i) table.old }
    ensures noted { IsTrue result → AreNoted (snapshot_at p.now.given (choices_of plan.now) t) (split_labels parts.now (i + 1)) table.new }
    ensures met { result ≡ false → ¬ AreApart p.now.given (snapshot_at p.now.given (choices_of plan.now) t) (Between parts.now) }
{
    for v in parts[i].items() {
        let now = holding_at(p, plan, *v, t);
        if !claim_both(table, now, i) {
            return false;
        }
    }
    true
}

/// Whether no node has presences of machines of two parts.
fn is_split(p: &Problem, plan: &Plan, parts: &[Vms], t: Instant) -> bool
    requires plan { IsPlanOf p.now.given plan.now }
    requires machines { list_all (list_all (λ x. nat_lt x.0 (machine_count p.now.given))) parts.now ≡ true }
    ensures { IsTrue result ↔ AreApart p.now.given (snapshot_at p.now.given (choices_of plan.now) t) (Between parts.now) }
{
    let mut table = no_labels();
    for i in 0..parts.len() {
        if !claim_part(&mut table, p, plan, parts, i, t) {
            return false;
        }
    }
    true
}

/// The machines of a list.
fn members(p: &Problem, machines: &[VmId]) -> MachineSet
    requires machines { list_all (λ x. nat_lt x.0 (machine_count p.now.given)) machines.now ≡ true }
    ensures { (v : ℕ) → has_machine result v ≡ is_member machines.now v }
{
    let mut members = MachineSet::new();
    for v in machines {
        members.insert(*v);
    }
    members
}

/// The label of a member, and that of another machine.
fn label_of(is_member: bool) -> usize
    ensures { result ≡ (if is_member then 1 else 0) }
{
    if is_member { 1 } else { 0 }
}

/// Whether no node has presences of one of the machines and of another machine.
fn is_lonely(p: &Problem, plan: &Plan, machines: &[VmId], t: Instant) -> bool
    requires plan { IsPlanOf p.now.given plan.now }
    requires machines { list_all (λ x. nat_lt x.0 (machine_count p.now.given)) machines.now ≡ true }
    ensures { IsTrue result ↔ AreApart p.now.given (snapshot_at p.now.given (choices_of plan.now) t) (FromOthers machines.now) }
{
    let members = members(p, machines);
    let mut table = no_labels();
    for i in 0..machines_of(p) {
        let v = VmId(i as u32);
        let now = holding_at(p, plan, v, t);
        if !claim_both(&mut table, now, label_of(members.has(v))) {
            return false;
        }
    }
    true
}

/// Whether no node has presences of two machines that are kept apart.
pub fn are_apart(p: &Problem, plan: &Plan, separation: &Separation, t: Instant) -> bool
    requires plan { IsPlanOf p.now.given plan.now }
    requires machines { list_all (λ x. nat_lt x.0 (machine_count p.now.given)) (separated (separation_seen separation.now)) ≡ true }
    ensures { IsTrue result ↔ AreApart p.now.given (snapshot_at p.now.given (choices_of plan.now) t) (separation_seen separation.now) }
{
    match separation {
        Separation::Each(machines) => is_spread(p, plan, machines.items(), t),
        Separation::Between(parts) => is_split(p, plan, parts.items(), t),
        Separation::FromOthers(machines) => is_lonely(p, plan, machines.items(), t),
    }
}
