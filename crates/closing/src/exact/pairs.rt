//! Machines that a constraint keeps apart.
ghost use Rattle.std.specs.Prelude.{◌≡◌, ℕ, ◌<◌, nat_lt, true, length, slice_index_or, []};
ghost use Rattle.std.specs.List.{list_all};
ghost use Rattle.relax.specs.Prelude.{has_machine, is_member, IsSized, machine_count, sets};
ghost use Rattle.closing.specs.{Looks.IsFound, Stands.IsAnyOf, Stands.MeetsOtherPart, Stands.MeetsStranger, Stands.ShareNode};

use crate::exact::each::{OfMachine, found_in};
use crate::look::Look;
use crate::quick::apart::{are_apart, are_parts_apart};
use crate::shared::counts::machines_of;
use crate::shared::stands::{are_beside, end_beside, standing};
use catalogue::{Problem, Vms};
use cluster::{Element, Instant, MachineSet, VmId};
use domains::Region;

// a look at whether two machines are on one node
fn two_found(p: &Problem, g: &Region, v: VmId, w: VmId, t: Instant) -> Look
    requires region { IsSized p.now.given g.now }
    requires first { v.0 < machine_count p.now.given }
    requires second { w.0 < machine_count p.now.given }
    ensures { IsFound (ShareNode p.now.given v.0 w.0) p.now.given (sets g.now) t result }
{
    if v.0 == w.0 {
        return Look::Clean;
    }
    let first = standing(p, g, v, t);
    let second = standing(p, g, w, t);
    if are_beside(p, first, second) {
        return Look::Fail(t);
    }
    if let Some(c) = end_beside(p, g, w, first, t) {
        return Look::Cut(Element::Vm(w), c, t);
    }
    if let Some(c) = end_beside(p, g, v, second, t) {
        return Look::Cut(Element::Vm(v), c, t);
    }
    Look::Clean
}

// of each machine, whether it is on one node with this one
#[derive(Clone, Copy)]
struct Beside(VmId);

impl OfMachine for Beside {
    ghost ready = { λ b p. b.0.0 < machine_count p };

    ghost met = { λ b p w. ShareNode p b.0.0 w };

    fn found(&self, p: &Problem, g: &Region, v: VmId, t: Instant) -> Look {
        two_found(p, g, self.0, v, t)
    }
}

// of each machine, whether it is on one node with one of these
#[derive(Drop)]
struct BesideAny<'a> {
    machines: &'a [VmId],
}

impl OfMachine for BesideAny<'_> {
    ghost ready = { λ b p. list_all (λ x. nat_lt x.0 (machine_count p)) b.machines.now ≡ true };

    ghost met = { λ b p v. IsAnyOf b.machines.now (ShareNode p v) };

    fn found(&self, p: &Problem, g: &Region, v: VmId, t: Instant) -> Look {
        found_in(&Beside(v), p, g, self.machines, t)
    }
}

/// A look at whether two of the machines are on one node.
pub fn spread_found(p: &Problem, g: &Region, machines: &[VmId], t: Instant) -> Look
    requires region { IsSized p.now.given g.now }
    requires machines { list_all (λ x. nat_lt x.0 (machine_count p.now.given)) machines.now ≡ true }
    ensures { IsFound (IsAnyOf machines.now (λ v. IsAnyOf machines.now (ShareNode p.now.given v))) p.now.given (sets g.now) t result }
{
    if are_apart(p, g, machines, machines, t) {
        return Look::Clean;
    }
    found_in(&BesideAny { machines }, p, g, machines, t)
}

// a look at whether a machine is on one node with one of another part
fn other_part_found(
    p: &Problem,
    g: &Region,
    parts: &[Vms],
    part: usize,
    v: VmId,
    t: Instant,
) -> Look
    requires region { IsSized p.now.given g.now }
    requires machine { v.0 < machine_count p.now.given }
    requires machines { list_all (list_all (λ x. nat_lt x.0 (machine_count p.now.given))) parts.now ≡ true }
    ensures { IsFound (MeetsOtherPart p.now.given parts.now part v.0) p.now.given (sets g.now) t result }
{
    for j in 0..parts.len() {
        if j == part {
            continue;
        }
        match found_in(&Beside(v), p, g, parts[j].items(), t) {
            Look::Clean => {}
            Look::Fail(u) => return Look::Fail(u),
            Look::Cut(e, c, u) => return Look::Cut(e, c, u),
        }
    }
    Look::Clean
}

// of each machine of a part, whether it is on one node with one of another part
#[derive(Drop)]
struct OtherPart<'a> {
    parts: &'a [Vms],
    part: usize,
}

impl OfMachine for OtherPart<'_> {
    ghost ready = { λ b p. list_all (list_all (λ x. nat_lt x.0 (machine_count p))) b.parts.now ≡ true };

    ghost met = { λ b p v. MeetsOtherPart p b.parts.now b.part v };

    fn found(&self, p: &Problem, g: &Region, v: VmId, t: Instant) -> Look {
        other_part_found(p, g, self.parts, self.part, v, t)
    }
}

/// A look at whether machines of two parts are on one node.
pub fn split_found(p: &Problem, g: &Region, parts: &[Vms], t: Instant) -> Look
    requires region { IsSized p.now.given g.now }
    requires machines { list_all (list_all (λ x. nat_lt x.0 (machine_count p.now.given))) parts.now ≡ true }
    ensures { IsFound (λ s. (i : ℕ) × (i < length parts.now) × IsAnyOf (slice_index_or parts.now i []) (MeetsOtherPart p.now.given parts.now i) s) p.now.given (sets g.now) t result }
{
    if are_parts_apart(p, g, parts, t) {
        return Look::Clean;
    }
    for i in 0..parts.len() {
        match found_in(&OtherPart { parts, part: i }, p, g, parts[i].items(), t) {
            Look::Clean => {}
            Look::Fail(u) => return Look::Fail(u),
            Look::Cut(e, c, u) => return Look::Cut(e, c, u),
        }
    }
    Look::Clean
}

// the machines of a list
fn members(p: &Problem, machines: &[VmId]) -> MachineSet
    requires machines { list_all (λ x. nat_lt x.0 (machine_count p.now.given)) machines.now ≡ true }
    ensures { (v : ℕ) → has_machine result v ≡ is_member machines.now v }
{
    let mut members = MachineSet::new();
    for v in machines {
        members.insert(*v);
    }
    members
}

// a look at whether a machine is on one node with one that is not in a set
fn stranger_found(p: &Problem, g: &Region, members: &MachineSet, v: VmId, t: Instant) -> Look
    requires region { IsSized p.now.given g.now }
    requires machine { v.0 < machine_count p.now.given }
    ensures { IsFound (MeetsStranger p.now.given (has_machine members.now) v.0) p.now.given (sets g.now) t result }
{
    for i in 0..machines_of(p) {
        let w = VmId(i as u32);
        if members.has(w) {
            continue;
        }
        match two_found(p, g, v, w, t) {
            Look::Clean => {}
            Look::Fail(u) => return Look::Fail(u),
            Look::Cut(e, c, u) => return Look::Cut(e, c, u),
        }
    }
    Look::Clean
}

// of each machine, whether it is on one node with one that is not in a set
#[derive(Drop)]
struct Stranger<'a> {
    members: &'a MachineSet,
}

impl OfMachine for Stranger<'_> {
    ghost ready = { λ b p. Unit {0} };

    ghost met = { λ b p v. MeetsStranger p (has_machine b.members.now) v };

    fn found(&self, p: &Problem, g: &Region, v: VmId, t: Instant) -> Look {
        stranger_found(p, g, self.members, v, t)
    }
}

/// A look at whether one of the machines and another machine are on one node.
pub fn lonely_found(p: &Problem, g: &Region, machines: &[VmId], t: Instant) -> Look
    requires region { IsSized p.now.given g.now }
    requires machines { list_all (λ x. nat_lt x.0 (machine_count p.now.given)) machines.now ≡ true }
    ensures { IsFound (IsAnyOf machines.now (MeetsStranger p.now.given (is_member machines.now))) p.now.given (sets g.now) t result }
{
    let members = members(p, machines);
    found_in(&Stranger { members: &members }, p, g, machines, t)
}
