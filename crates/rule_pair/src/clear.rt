//! Whether a constraint is kept, told at once for all instants from the first one at which it is to hold.
ghost use Rattle.std.specs.Prelude.{◌≡◌, ◌≢◌, ℕ, ◌<◌, ◌≤◌, ◌||◌, ◌==◌, nat_lt, true, length, slice_index_or, IfNone, IsTrue};
ghost use Rattle.std.specs.List.{list_all};
ghost use Rattle.cluster.specs.declared.choices.Choice.{Choice as AnyChoice};
ghost use Rattle.rule_pair.specs.Prelude.{are_below, AreClear, AreGone, AreLonger, AreOrdered, AreRight, AreStayEnds, AreUntils, choices, Climbs, ComesLate, hosted_in, inventory_of, is_continuous, is_rule, IsClean, IsEnd, IsInPart, IsLate, IsMember, IsSized, IsTold, KeepsClear, KeepsOff, leave_of, machine_count, no_row, no_standing, OnClear, one, part_of as the_part_of, rule_watch, separated, separation_seen, sets, state_of, told_until};

use crate::longest::{NOBODY, Stay, Table, stay_after, tell};
use crate::pairs::separation_of;
use crate::posts::{Post, last_before, posts_of};
use crate::reach::{all_ends, ends_of, first_met, stay_still};
use crate::strangers::strangers_alone;
use cluster::limits::MAX_NODES;
use machine_bounds::ends::Ends;
use machine_bounds::gone::Gone;
use machine_bounds::leaving::leaves_by;
use rule_constraint::host;
use rule_frame::{
    Constraint, Domain, Element, Instant, NodeId, Place, Problem, Region, Row, Separation, VmId,
    Vms,
};
use standings::numbers::Standing;

/// Two machines, of which the second one may be at a post of the first one.
#[derive(Clone, Copy)]
pub struct Doubt {
    pub first: VmId,
    pub second: VmId,
    pub post: Post,
}

/// What is seen of a constraint.
#[derive(Clone, Copy)]
pub enum Seen {
    /// It is kept.
    Clear,
    /// These two may not keep apart.
    Doubtful(Doubt),
    /// Nothing.
    Unknown,
}

/// A stay at a node.
#[derive(Clone, Copy)]
pub(crate) struct Met {
    pub node: NodeId,
    pub stay: Stay,
}

/// The first instant at which a constraint is to hold: one that is not to hold always is to at the horizon alone.
pub(crate) fn first_instant(p: &Problem, constraint: &Constraint) -> Instant
    ensures { (t : ℕ) → IsTrue (is_continuous constraint.now || (t == p.now.given.horizon)) → result ≤ t }
{
    if constraint.is_continuous() {
        0
    } else {
        p.horizon()
    }
}

/// The part of a machine: of machines that are each to be alone, its number.
pub(crate) fn part_of(part: Option<usize>, v: VmId) -> usize
    ensures { result ≡ the_part_of part v.0 }
{
    match part {
        None => v.0 as usize,
        Some(i) => i,
    }
}

/// Tells where a machine surely stays from an instant on. False where that is not known.
#[tactic(auto, using(crate::proofs::ApartLemmas::told_posts, crate::proofs::ApartLemmas::longer_both))]
pub(crate) fn tell_machine(
    p: &Problem,
    g: &Region,
    kept: &[Standing],
    v: VmId,
    part: usize,
    from: Instant,
    table: &mut Table,
) -> bool
    requires region { IsSized p.now.given g.now }
    requires kept { AreRight p.now.given (sets g.now) kept.now }
    requires machine { v.0 < machine_count p.now.given }
    requires ordered { AreOrdered table.old }
    ensures ordered { AreOrdered table.new }
    ensures longer { AreLonger table.old table.new }
    ensures told { IsTrue result → IsTold p.now.given (sets g.now) table.new from part v.0 }
{
    let posts = posts_of(p, g, kept, v, from);
    tell(table, v, part, posts.host) && tell(table, v, part, posts.come)
}

/// Tells it of each machine of a part, or of each of a list where no two are to meet.
pub(crate) fn tell_machines(
    p: &Problem,
    g: &Region,
    kept: &[Standing],
    machines: &[VmId],
    part: Option<usize>,
    from: Instant,
    table: &mut Table,
) -> bool
    requires region { IsSized p.now.given g.now }
    requires kept { AreRight p.now.given (sets g.now) kept.now }
    requires machines { list_all (λ x. nat_lt x.0 (machine_count p.now.given)) machines.now ≡ true }
    requires ordered { AreOrdered table.old }
    ensures ordered { AreOrdered table.new }
    ensures longer { AreLonger table.old table.new }
    ensures told { IsTrue result → (v : ℕ) → IsMember machines.now v → IsTold p.now.given (sets g.now) table.new from (the_part_of part v) v }
{
    for i in 0..machines.len() {
        let v = machines[i];
        if !tell_machine(p, g, kept, v, part_of(part, v), from, table) {
            return false;
        }
    }
    true
}

/// Tells it of each machine of each part.
pub(crate) fn tell_parts(
    p: &Problem,
    g: &Region,
    kept: &[Standing],
    parts: &[Vms],
    from: Instant,
    table: &mut Table,
) -> bool
    requires region { IsSized p.now.given g.now }
    requires kept { AreRight p.now.given (sets g.now) kept.now }
    requires machines { list_all (list_all (λ x. nat_lt x.0 (machine_count p.now.given))) parts.now ≡ true }
    requires ordered { AreOrdered table.old }
    ensures { IsTrue result → (i v : ℕ) → IsInPart parts.now i v → IsTold p.now.given (sets g.now) table.new from i v }
{
    for i in 0..parts.len() {
        if !tell_machines(p, g, kept, parts[i].items(), Some(i), from, table) {
            return false;
        }
    }
    true
}

// a stay of a machine of another part at the host of one, where it ends after an instant
fn host_met(
    p: &Problem,
    w: VmId,
    part: usize,
    from: Instant,
    ends: &Ends,
    table: &Table,
) -> Option<Met>
    requires machine { w.0 < machine_count p.now.given }
    requires ends { AreUntils table.now part ends.now.until }
    ensures { IfNone result ((n : ℕ) → IsTrue (hosted_in (state_of p.now.given w.0) (one n)) → told_until table.now part n ≤ from) }
{
    let node = host(p, w)?;
    let stay = stay_still(table, ends, node, part, from)?;
    Some(Met { node, stay })
}

// such a stay at the host of a machine that may not have left it by the instant
#[tactic(auto, using(crate::proofs::ApartLemmas::host_late, crate::proofs::ApartLemmas::host_left))]
fn host_doubt(
    p: &Problem,
    w: VmId,
    domain: &Domain,
    part: usize,
    from: Instant,
    ends: &Ends,
    table: &Table,
) -> Option<Met>
    requires machine { w.0 < machine_count p.now.given }
    requires climbs { Climbs 0 domain.now.rows }
    requires ends { AreUntils table.now part ends.now.until }
    ensures { IfNone result ((n t : ℕ) (c : AnyChoice) → from ≤ t → t < told_until table.now part n → IsTrue (hosted_in (state_of p.now.given w.0) (one n)) → IsEnd (choices domain.now) c → leave_of p.now.given w.0 c ≤ t) }
{
    let met = host_met(p, w, part, from, ends, table)?;
    if leaves_by(p, w, domain, from) {
        None
    } else {
        Some(met)
    }
}

/// A stay that may still last when a row starts, and after an instant.
pub(crate) fn row_met(row: Row, part: usize, from: Instant, table: &Table) -> Option<Met>
    ensures { IfNone result (IsLate table.now part from row.place row.lo) }
{
    match row.place {
        Place::Nowhere => None,
        Place::At(node) => {
            let stay = stay_after(table, node, part, row.lo.max(from))?;
            Some(Met { node, stay })
        }
    }
}

// the doubt whether a machine may be at a node while another one stays there
fn make_doubt(p: &Problem, w: VmId, met: Met) -> Doubt {
    Doubt {
        first: met.stay.machine,
        second: w,
        post: Post {
            node: met.node,
            last: last_before(p, met.stay.until).unwrap_or(0),
        },
    }
}

#[tactic(auto, using(crate::proofs::ApartLemmas::comes_late))]
// whether it is seen that all choices of a machine go to one node at which the stays of other parts end by an instant
fn comes_late(
    kept: &[Standing],
    w: VmId,
    part: usize,
    from: Instant,
    ends: &Ends,
    table: &Table,
) -> bool
    requires { AreUntils table.now part ends.now.until }
    ensures { IsTrue result → (w.0 < length kept.now) × ComesLate table.now part from (slice_index_or kept.now w.0 no_standing) }
{
    let i = w.0 as usize;
    if i >= kept.len() {
        return false;
    }
    let Some(a) = kept[i].come else {
        return false;
    };
    match stay_still(table, ends, a.node, part, from) {
        None => true,
        Some(_) => false,
    }
}

/// Whether a machine is nowhere while one of another part stays there, from an instant on. When such stays end is handed
/// in.
pub(crate) fn machine_keeps_off(
    p: &Problem,
    g: &Region,
    kept: &[Standing],
    gone: &Gone,
    w: VmId,
    part: usize,
    from: Instant,
    ends: &Ends,
    table: &Table,
) -> Seen
    requires region { IsSized p.now.given g.now }
    requires kept { AreRight p.now.given (sets g.now) kept.now }
    requires gone { AreGone (sets g.now) gone.now.bounds gone.now.words.top }
    requires machine { w.0 < machine_count p.now.given }
    requires ends { AreStayEnds table.now part from gone.now.bounds ends.now }
    ensures { OnClear result (KeepsOff p.now.given (sets g.now) table.now part from w.0) }
{
    let domain = g.domain(Element::Vm(w));
    if domain.is_empty() {
        return Seen::Unknown;
    }
    if let Some(met) = host_doubt(p, w, domain, part, from, ends, table) {
        return Seen::Doubtful(make_doubt(p, w, met));
    }
    if comes_late(kept, w, part, from, ends, table) {
        return Seen::Clear;
    }
    match first_met(domain.rows(), gone, w, part, from, ends, table) {
        None => Seen::Clear,
        Some(met) => Seen::Doubtful(make_doubt(p, w, met)),
    }
}

// whether so is each machine of a list where no two are to meet
fn machines_keep_off(
    p: &Problem,
    g: &Region,
    kept: &[Standing],
    gone: &Gone,
    machines: &[VmId],
    from: Instant,
    table: &Table,
) -> Seen
    requires region { IsSized p.now.given g.now }
    requires kept { AreRight p.now.given (sets g.now) kept.now }
    requires gone { AreGone (sets g.now) gone.now.bounds gone.now.words.top }
    requires machines { list_all (λ x. nat_lt x.0 (machine_count p.now.given)) machines.now ≡ true }
    requires ordered { AreOrdered table.now }
    ensures { OnClear result ((w : ℕ) → IsMember machines.now w → KeepsOff p.now.given (sets g.now) table.now w from w) }
{
    let ends = all_ends(table, from, gone);
    for i in 0..machines.len() {
        let w = machines[i];
        match machine_keeps_off(p, g, kept, gone, w, w.0 as usize, from, &ends, table) {
            Seen::Clear => {}
            Seen::Doubtful(d) => return Seen::Doubtful(d),
            Seen::Unknown => return Seen::Unknown,
        }
    }
    Seen::Clear
}

// whether so is each machine of a part
fn part_keeps_off(
    p: &Problem,
    g: &Region,
    kept: &[Standing],
    gone: &Gone,
    machines: &[VmId],
    part: usize,
    from: Instant,
    table: &Table,
) -> Seen
    requires region { IsSized p.now.given g.now }
    requires kept { AreRight p.now.given (sets g.now) kept.now }
    requires gone { AreGone (sets g.now) gone.now.bounds gone.now.words.top }
    requires machines { list_all (λ x. nat_lt x.0 (machine_count p.now.given)) machines.now ≡ true }
    ensures { OnClear result ((w : ℕ) → IsMember machines.now w → KeepsOff p.now.given (sets g.now) table.now part from w) }
{
    let ends = ends_of(table, part, from, gone);
    for i in 0..machines.len() {
        match machine_keeps_off(p, g, kept, gone, machines[i], part, from, &ends, table) {
            Seen::Clear => {}
            Seen::Doubtful(d) => return Seen::Doubtful(d),
            Seen::Unknown => return Seen::Unknown,
        }
    }
    Seen::Clear
}

// whether so is each machine of each part
fn parts_keep_off(
    p: &Problem,
    g: &Region,
    kept: &[Standing],
    gone: &Gone,
    parts: &[Vms],
    from: Instant,
    table: &Table,
) -> Seen
    requires region { IsSized p.now.given g.now }
    requires kept { AreRight p.now.given (sets g.now) kept.now }
    requires gone { AreGone (sets g.now) gone.now.bounds gone.now.words.top }
    requires machines { list_all (list_all (λ x. nat_lt x.0 (machine_count p.now.given))) parts.now ≡ true }
    ensures { OnClear result ((j w : ℕ) → IsInPart parts.now j w → KeepsOff p.now.given (sets g.now) table.now j from w) }
{
    for j in 0..parts.len() {
        match part_keeps_off(p, g, kept, gone, parts[j].items(), j, from, table) {
            Seen::Clear => {}
            Seen::Doubtful(d) => return Seen::Doubtful(d),
            Seen::Unknown => return Seen::Unknown,
        }
    }
    Seen::Clear
}

// whether no two of these machines meet
fn each_alone(
    p: &Problem,
    g: &Region,
    kept: &[Standing],
    gone: &Gone,
    machines: &[VmId],
    from: Instant,
) -> Seen
    requires region { IsSized p.now.given g.now }
    requires kept { AreRight p.now.given (sets g.now) kept.now }
    requires gone { AreGone (sets g.now) gone.now.bounds gone.now.words.top }
    requires machines { list_all (λ x. nat_lt x.0 (machine_count p.now.given)) machines.now ≡ true }
    ensures { OnClear result ((v w : ℕ) → IsMember machines.now v → IsMember machines.now w → v ≢ w → KeepsClear p.now.given (sets g.now) from v w) }
{
    let mut table = [NOBODY; MAX_NODES];
    if !tell_machines(p, g, kept, machines, None, from, &mut table) {
        return Seen::Unknown;
    }
    machines_keep_off(p, g, kept, gone, machines, from, &table)
}

// whether no two machines of different parts do
fn parts_alone(
    p: &Problem,
    g: &Region,
    kept: &[Standing],
    gone: &Gone,
    parts: &[Vms],
    from: Instant,
) -> Seen
    requires region { IsSized p.now.given g.now }
    requires kept { AreRight p.now.given (sets g.now) kept.now }
    requires gone { AreGone (sets g.now) gone.now.bounds gone.now.words.top }
    requires machines { list_all (list_all (λ x. nat_lt x.0 (machine_count p.now.given))) parts.now ≡ true }
    ensures { OnClear result ((i j v w : ℕ) → i ≢ j → IsInPart parts.now i v → IsInPart parts.now j w → KeepsClear p.now.given (sets g.now) from v w) }
{
    let mut table = [NOBODY; MAX_NODES];
    if !tell_parts(p, g, kept, parts, from, &mut table) {
        return Seen::Unknown;
    }
    parts_keep_off(p, g, kept, gone, parts, from, &table)
}

// whether no two machines meet that are kept apart
fn all_alone(
    p: &Problem,
    g: &Region,
    kept: &[Standing],
    gone: &Gone,
    separation: &Separation,
    from: Instant,
) -> Seen
    requires region { IsSized p.now.given g.now }
    requires kept { AreRight p.now.given (sets g.now) kept.now }
    requires gone { AreGone (sets g.now) gone.now.bounds gone.now.words.top }
    requires machines { are_below (machine_count p.now.given) (separated (separation_seen separation.now)) ≡ true }
    ensures { OnClear result (AreClear p.now.given (sets g.now) from (separation_seen separation.now)) }
{
    match separation {
        Separation::Each(machines) => each_alone(p, g, kept, gone, machines.items(), from),
        Separation::Between(parts) => parts_alone(p, g, kept, gone, parts.items(), from),
        Separation::FromOthers(machines) => strangers_alone(
            p,
            g,
            kept,
            gone,
            machines.items(),
            from,
        ),
    }
}

/// Whether a constraint is seen to be kept at all instants at which it is to hold. Of machines that are to keep apart it
/// is told where each surely stays, and then asked of each whether it may be anywhere that one of another part stays.
pub fn look_over(
    p: &Problem,
    g: &Region,
    kept: &[Standing],
    gone: &Gone,
    constraint: &Constraint,
) -> Seen
    requires region { IsSized p.now.given g.now }
    requires kept { AreRight p.now.given (sets g.now) kept.now }
    requires gone { AreGone (sets g.now) gone.now.bounds gone.now.words.top }
    requires rule { is_rule (inventory_of p.now.given) constraint.now ≡ true }
    ensures { OnClear result (IsClean (rule_watch p.now.given constraint.now) p.now.given (sets g.now)) }
{
    match separation_of(constraint) {
        None => Seen::Unknown,
        Some(separation) => all_alone(p, g, kept, gone, &separation, first_instant(p, constraint)),
    }
}
