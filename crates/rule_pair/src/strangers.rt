//! Members that are to be alone: they keep off all other machines, and these off them.
ghost use Rattle.std.specs.Prelude.{◌≡◌, ◌≢◌, ℕ, ◌<◌, nat_lt, true, IsTrue};
ghost use Rattle.std.specs.List.{list_all};
ghost use Rattle.rule_pair.specs.Prelude.{AreGone, AreOrdered, AreRight, AreStayEnds, class_of as the_class_of, has_machine, is_member, IsSized, IsTold, KeepsClear, KeepsOff, machine_count, OnClear, sets};

use crate::clear::{Seen, machine_keeps_off, tell_machine};
use crate::longest::{NOBODY, Table};
use crate::reach::ends_of;
use cluster::MachineSet;
use cluster::limits::MAX_NODES;
use machine_bounds::ends::Ends;
use machine_bounds::gone::Gone;
use rule_frame::{Instant, Problem, Region, VmId};
use standings::numbers::Standing;

/// The machines of a list.
pub(crate) fn members(p: &Problem, machines: &[VmId]) -> MachineSet
    requires machines { list_all (λ x. nat_lt x.0 (machine_count p.now.given)) machines.now ≡ true }
    ensures { (v : ℕ) → has_machine result v ≡ is_member machines.now v }
{
    let mut members = MachineSet::new();
    for v in machines {
        members.insert(*v);
    }
    members
}

/// The part of a machine: members are one part, and all others one.
pub(crate) fn class_of(members: &MachineSet, v: VmId) -> usize
    ensures { result ≡ the_class_of (has_machine members.now) v.0 }
{
    if members.has(v) { 1 } else { 0 }
}

/// Tells of each machine where it surely stays from an instant on. False where that is not known.
pub(crate) fn tell_all(
    p: &Problem,
    g: &Region,
    kept: &[Standing],
    members: &MachineSet,
    from: Instant,
    table: &mut Table,
) -> bool
    requires region { IsSized p.now.given g.now }
    requires kept { AreRight p.now.given (sets g.now) kept.now }
    requires ordered { AreOrdered table.old }
    ensures { IsTrue result → (v : ℕ) → v < machine_count p.now.given → IsTold p.now.given (sets g.now) table.new from (the_class_of (has_machine members.now) v) v }
{
    for i in 0..p.cluster().machines().len() {
        let v = VmId(i as u32);
        if !tell_machine(p, g, kept, v, class_of(members, v), from, table) {
            return false;
        }
    }
    true
}

// whether a machine of a part is nowhere while one of the other part stays there
fn one_keeps_off(
    p: &Problem,
    g: &Region,
    kept: &[Standing],
    gone: &Gone,
    w: VmId,
    part: usize,
    from: Instant,
    strangers_ends: &Ends,
    members_ends: &Ends,
    table: &Table,
) -> Seen
    requires region { IsSized p.now.given g.now }
    requires kept { AreRight p.now.given (sets g.now) kept.now }
    requires gone { AreGone (sets g.now) gone.now.bounds gone.now.words.top }
    requires machine { w.0 < machine_count p.now.given }
    requires strangers { AreStayEnds table.now 0 from gone.now.bounds strangers_ends.now }
    requires members { AreStayEnds table.now 1 from gone.now.bounds members_ends.now }
    ensures { OnClear result (KeepsOff p.now.given (sets g.now) table.now part from w.0) }
{
    if part == 0 {
        return machine_keeps_off(p, g, kept, gone, w, 0, from, strangers_ends, table);
    }
    if part == 1 {
        return machine_keeps_off(p, g, kept, gone, w, 1, from, members_ends, table);
    }
    Seen::Unknown
}

// whether each machine is nowhere while one of the other part stays there
fn all_keep_off(
    p: &Problem,
    g: &Region,
    kept: &[Standing],
    gone: &Gone,
    members: &MachineSet,
    from: Instant,
    table: &Table,
) -> Seen
    requires region { IsSized p.now.given g.now }
    requires kept { AreRight p.now.given (sets g.now) kept.now }
    requires gone { AreGone (sets g.now) gone.now.bounds gone.now.words.top }
    ensures { OnClear result ((w : ℕ) → w < machine_count p.now.given → KeepsOff p.now.given (sets g.now) table.now (the_class_of (has_machine members.now) w) from w) }
{
    let strangers_ends = ends_of(table, 0, from, gone);
    let members_ends = ends_of(table, 1, from, gone);
    for i in 0..p.cluster().machines().len() {
        let w = VmId(i as u32);
        let part = class_of(members, w);
        match one_keeps_off(
            p,
            g,
            kept,
            gone,
            w,
            part,
            from,
            &strangers_ends,
            &members_ends,
            table,
        ) {
            Seen::Clear => {}
            Seen::Doubtful(d) => return Seen::Doubtful(d),
            Seen::Unknown => return Seen::Unknown,
        }
    }
    Seen::Clear
}

// whether no machine of a set meets one that is none of it
fn set_alone(
    p: &Problem,
    g: &Region,
    kept: &[Standing],
    gone: &Gone,
    members: &MachineSet,
    from: Instant,
) -> Seen
    requires region { IsSized p.now.given g.now }
    requires kept { AreRight p.now.given (sets g.now) kept.now }
    requires gone { AreGone (sets g.now) gone.now.bounds gone.now.words.top }
    ensures { OnClear result ((v w : ℕ) → v < machine_count p.now.given → w < machine_count p.now.given → the_class_of (has_machine members.now) v ≢ the_class_of (has_machine members.now) w → KeepsClear p.now.given (sets g.now) from v w) }
{
    let mut table = [NOBODY; MAX_NODES];
    if !tell_all(p, g, kept, members, from, &mut table) {
        return Seen::Unknown;
    }
    all_keep_off(p, g, kept, gone, members, from, &table)
}

/// Whether no member of a list meets a machine that is none.
pub(crate) fn strangers_alone(
    p: &Problem,
    g: &Region,
    kept: &[Standing],
    gone: &Gone,
    machines: &[VmId],
    from: Instant,
) -> Seen
    requires region { IsSized p.now.given g.now }
    requires kept { AreRight p.now.given (sets g.now) kept.now }
    requires gone { AreGone (sets g.now) gone.now.bounds gone.now.words.top }
    requires machines { list_all (λ x. nat_lt x.0 (machine_count p.now.given)) machines.now ≡ true }
    ensures { OnClear result ((v w : ℕ) → v < machine_count p.now.given → w < machine_count p.now.given → the_class_of (is_member machines.now) v ≢ the_class_of (is_member machines.now) w → KeepsClear p.now.given (sets g.now) from v w) }
{
    set_alone(p, g, kept, gone, &members(p, machines), from)
}
