//! Whether members are seen to be together, told for all instants at which the constraint is due at once: of the groups that
//! each member may be in, each choice of each member has one.
ghost use Rattle.std.specs.Prelude.{◌≡◌, ◌⊎◌, ℕ, ◌<◌, length, nat_lt, true, slice_index_or, IfSome, IsTrue};
ghost use Rattle.std.specs.List.{list_all};
ghost use Rattle.rule_group.specs.Prelude.{AreCommon, AreLeaves, AreNodesOf, Choice as AnyChoice, choices, Climbs, FitsAt, FitsMember, form_of as the_form_of, groups_seen, has_node, IsClean, IsFound, IsMember, IsSized, machine_count, no_row, rule_watch, sets, Together, vm};

use crate::places::{add_serving, all_groups, is_served, is_served_by, nodes_of};
use crate::spots::{spots_of_idle, spots_of_row};
use rule_frame::{Constraint, Domain, Element, NodeSet, Problem, Region, Row, VmId};
use slices::form::Groups;
use standings::leaves::{Leaves, leaves_of};

// those of some groups that a machine may be in that may stay
fn groups_of_idle(
    p: &Problem,
    always: bool,
    groups: &Groups,
    v: VmId,
    domain: &Domain,
    among: &NodeSet,
) -> NodeSet
    requires machine { v.0 < machine_count p.now.given }
    requires climbs { Climbs 0 domain.now.rows }
    ensures { (j : ℕ) → IsTrue (has_node result j) → IsFound p.now.given (choices domain.now) always v.0 (groups_seen groups.now) among.now j }
{
    let mut found = NodeSet::new();
    if !domain.idle() {
        return found;
    }
    let spots = spots_of_idle(p, always, v);
    add_serving(p, groups, spots, among, &mut found);
    found
}

// puts in those that it may be in under a row
fn add_row(
    p: &Problem,
    always: bool,
    groups: &Groups,
    v: VmId,
    leaves: Option<Leaves>,
    domain: &Domain,
    i: usize,
    among: &NodeSet,
    found: &mut NodeSet,
)
    requires machine { v.0 < machine_count p.now.given }
    requires leaves { IfSome leaves (AreLeaves p.now.given v.0) }
    requires row { i < length domain.now.rows }
    ensures { (j : ℕ) → IsTrue (has_node found.new j) → IsTrue (has_node found.old j) ⊎ IsFound p.now.given (choices domain.now) always v.0 (groups_seen groups.now) among.now j }
{
    let rows = domain.rows();
    let spots = spots_of_row(p, always, v, leaves, rows[i]);
    add_serving(p, groups, spots, among, found);
}

/// Those of some groups that a machine may be in under some choice, whenever what is asked is due.
pub fn groups_of(
    p: &Problem,
    g: &Region,
    always: bool,
    groups: &Groups,
    v: VmId,
    among: &NodeSet,
) -> NodeSet
    requires region { IsSized p.now.given g.now }
    requires machine { v.0 < machine_count p.now.given }
    ensures { (j : ℕ) → IsTrue (has_node result j) → IsFound p.now.given (sets g.now (vm v.0)) always v.0 (groups_seen groups.now) among.now j }
{
    let domain = g.domain(Element::Vm(v));
    let leaves = leaves_of(p, v);
    let mut found = groups_of_idle(p, always, groups, v, domain, among);
    for i in 0..domain.rows().len() {
        add_row(p, always, groups, v, leaves, domain, i, among, &mut found);
        if found == *among {
            break;
        }
    }
    found
}

/// The groups that each of these machines may be in.
pub fn common_groups(
    p: &Problem,
    g: &Region,
    always: bool,
    groups: &Groups,
    machines: &[VmId],
) -> NodeSet
    requires region { IsSized p.now.given g.now }
    requires machines { list_all (λ x. nat_lt x.0 (machine_count p.now.given)) machines.now ≡ true }
    ensures { AreCommon p.now.given (sets g.now) always (groups_seen groups.now) machines.now result }
{
    let mut common = all_groups(p, groups);
    for i in 0..machines.len() {
        common = groups_of(p, g, always, groups, machines[i], &common);
    }
    common
}

// whether one of them has all nodes on which a machine may be under an end of a row
fn row_fits(
    p: &Problem,
    always: bool,
    groups: &Groups,
    v: VmId,
    leaves: Option<Leaves>,
    row: Row,
    common: &NodeSet,
    nodes: &NodeSet,
) -> bool
    requires machine { v.0 < machine_count p.now.given }
    requires leaves { IfSome leaves (AreLeaves p.now.given v.0) }
    requires nodes { AreNodesOf p.now.given (groups_seen groups.now) common.now nodes.now }
    ensures first { IsTrue result → FitsAt p.now.given always (groups_seen groups.now) common.now v.0 (AnyChoice.Act row.place row.lo) }
    ensures last { IsTrue result → FitsAt p.now.given always (groups_seen groups.now) common.now v.0 (AnyChoice.Act row.place row.hi) }
{
    is_served_by(
        p,
        groups,
        spots_of_row(p, always, v, leaves, row),
        common,
        nodes,
    )
}

// so for each row
fn rows_fit(
    p: &Problem,
    always: bool,
    groups: &Groups,
    v: VmId,
    rows: &[Row],
    common: &NodeSet,
    nodes: &NodeSet,
) -> bool
    requires machine { v.0 < machine_count p.now.given }
    requires nodes { AreNodesOf p.now.given (groups_seen groups.now) common.now nodes.now }
    ensures first { IsTrue result → (i : ℕ) → i < length rows.now → FitsAt p.now.given always (groups_seen groups.now) common.now v.0 (AnyChoice.Act (slice_index_or rows.now i no_row).place (slice_index_or rows.now i no_row).lo) }
    ensures last { IsTrue result → (i : ℕ) → i < length rows.now → FitsAt p.now.given always (groups_seen groups.now) common.now v.0 (AnyChoice.Act (slice_index_or rows.now i no_row).place (slice_index_or rows.now i no_row).hi) }
{
    let leaves = leaves_of(p, v);
    for i in 0..rows.len() {
        if !row_fits(p, always, groups, v, leaves, rows[i], common, nodes) {
            return false;
        }
    }
    true
}

// so where a machine may stay as it is
fn idle_fits(
    p: &Problem,
    always: bool,
    groups: &Groups,
    v: VmId,
    domain: &Domain,
    common: &NodeSet,
) -> bool
    requires { v.0 < machine_count p.now.given }
    ensures { IsTrue result → domain.now.idle ≡ true → FitsAt p.now.given always (groups_seen groups.now) common.now v.0 AnyChoice.Idle }
{
    if !domain.idle() {
        return true;
    }
    is_served(p, groups, spots_of_idle(p, always, v), common)
}

// so for each end of the choices of a machine
fn machine_fits(
    p: &Problem,
    g: &Region,
    always: bool,
    groups: &Groups,
    v: VmId,
    common: &NodeSet,
    nodes: &NodeSet,
) -> bool
    requires region { IsSized p.now.given g.now }
    requires machine { v.0 < machine_count p.now.given }
    requires nodes { AreNodesOf p.now.given (groups_seen groups.now) common.now nodes.now }
    ensures { IsTrue result → FitsMember p.now.given (sets g.now) always (groups_seen groups.now) common.now v.0 }
{
    let domain = g.domain(Element::Vm(v));
    if domain.is_empty() {
        return false;
    }
    let rows = domain.rows();
    idle_fits(p, always, groups, v, domain, common)
        && rows_fit(p, always, groups, v, rows, common, nodes)
}

// so for each machine of a list
fn members_fit(
    p: &Problem,
    g: &Region,
    always: bool,
    groups: &Groups,
    machines: &[VmId],
    common: &NodeSet,
    nodes: &NodeSet,
) -> bool
    requires region { IsSized p.now.given g.now }
    requires machines { list_all (λ x. nat_lt x.0 (machine_count p.now.given)) machines.now ≡ true }
    requires nodes { AreNodesOf p.now.given (groups_seen groups.now) common.now nodes.now }
    ensures { IsTrue result → (v : ℕ) → IsMember machines.now v → FitsMember p.now.given (sets g.now) always (groups_seen groups.now) common.now v }
{
    for i in 0..machines.len() {
        if !machine_fits(p, g, always, groups, machines[i], common, nodes) {
            return false;
        }
    }
    true
}

/// Whether it is seen that one group has all members, whichever one of them is set to an end of its choices.
pub fn are_together(
    p: &Problem,
    g: &Region,
    constraint: &Constraint,
    groups: &Groups,
    machines: &[VmId],
) -> bool
    requires region { IsSized p.now.given g.now }
    requires machines { list_all (λ x. nat_lt x.0 (machine_count p.now.given)) machines.now ≡ true }
    requires form { the_form_of constraint.now ≡ Together machines.now (groups_seen groups.now) }
    ensures { IsTrue result → IsClean (rule_watch p.now.given constraint.now) p.now.given (sets g.now) }
{
    let always = constraint.is_continuous();
    let common = common_groups(p, g, always, groups, machines);
    let nodes = nodes_of(p, groups, &common);
    members_fit(p, g, always, groups, machines, &common, &nodes)
}
