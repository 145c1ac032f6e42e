//! Machines that run and are outside a group wherever they go, which is told without what they hold under each choice.
ghost use Rattle.std.specs.Prelude.{◌≡◌, ℕ, ◌<◌, length, not, slice_index_or, IsTrue};
ghost use Rattle.rule_group.specs.Prelude.{group_count as the_group_count, group_nodes, groups_seen, has_node, IsOut, IsSized, machine_count, never, no_row, sets, sure};

use crate::places::has;
use rule_frame::{Element, NodeId, NodeSet, Place, Problem, Region, Row, VmId};
use slices::form::Groups;
use standings::leaves::{leaves_of, runs_on};

// whether a place is a node other than a host, and not in a set
fn is_outside_set(p: &Problem, h: NodeId, set: &NodeSet, place: Place) -> bool
    ensures { IsTrue result → IsOut p.now.given h (has_node set.now) place }
{
    match place {
        Place::Nowhere => false,
        Place::At(n) => { (n.0 as usize) < p.cluster().nodes().len() && n.0 != h.0 && !set.has(n) }
    }
}

// whether so is the place of each row
fn rows_are_outside_set(p: &Problem, h: NodeId, set: &NodeSet, rows: &[Row]) -> bool
    ensures { IsTrue result → (k : ℕ) → k < length rows.now → IsOut p.now.given h (has_node set.now) (slice_index_or rows.now k no_row).place }
{
    for k in 0..rows.len() {
        if !is_outside_set(p, h, set, rows[k].place) {
            return false;
        }
    }
    true
}

// whether a place is a node other than a host, and outside the group of a number
fn is_out(p: &Problem, h: NodeId, groups: &Groups, i: usize, place: Place) -> bool
    requires { i < the_group_count p.now.given (groups_seen groups.now) }
    ensures { IsTrue result → IsOut p.now.given h (group_nodes (groups_seen groups.now) i) place }
{
    match place {
        Place::Nowhere => false,
        Place::At(n) => {
            (n.0 as usize) < p.cluster().nodes().len() && n.0 != h.0 && !has(p, groups, i, n)
        }
    }
}

// whether so is the place of each row; of a set it is asked at once
fn rows_are_out(p: &Problem, h: NodeId, groups: &Groups, i: usize, rows: &[Row]) -> bool
    requires { i < the_group_count p.now.given (groups_seen groups.now) }
    ensures { IsTrue result → (k : ℕ) → k < length rows.now → IsOut p.now.given h (group_nodes (groups_seen groups.now) i) (slice_index_or rows.now k no_row).place }
{
    if let Groups::AnyOf(sets) = groups {
        return rows_are_outside_set(p, h, &sets.items()[i], rows);
    }
    for k in 0..rows.len() {
        if !is_out(p, h, groups, i, rows[k].place) {
            return false;
        }
    }
    true
}

/// Whether a machine that runs outside the group of a number, and is to run on, goes to nodes outside it alone: then it is
/// there at all times.
pub fn stays_elsewhere(p: &Problem, g: &Region, v: VmId, groups: &Groups, i: usize) -> bool
    requires region { IsSized p.now.given g.now }
    requires machine { v.0 < machine_count p.now.given }
    requires group { i < the_group_count p.now.given (groups_seen groups.now) }
    ensures { IsTrue result → (t : ℕ) → t < never → IsTrue ((sure p.now.given (sets g.now) t).present v.0 (λ n. not (group_nodes (groups_seen groups.now) i n))) }
{
    let Some(h) = runs_on(p, v) else {
        return false;
    };
    let Some(leaves) = leaves_of(p, v) else {
        return false;
    };
    if h.0 != leaves.host.0 || has(p, groups, i, h) {
        return false;
    }
    rows_are_out(p, h, groups, i, g.domain(Element::Vm(v)).rows())
}
