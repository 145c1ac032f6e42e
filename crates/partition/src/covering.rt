//! In which group each node is, and whether each is in one.
ghost use Rattle.std.specs.Prelude.{◌≡◌, IfOk, map};
ghost use Rattle.std.specs.List.{range_with_len};
ghost use Rattle.parts.specs.Groups.{node_group};
ghost use Rattle.parts.specs.Splits.{first_uncovered as the_first_uncovered};
ghost use Rattle.slices.specs.Elements.{node_count};
ghost use Rattle.partition.specs.Division.{group_number};

use base::Memory;
use catalogue::Problem;
use cluster::{NodeId, NodeSet};
use std::alloc::Global;

/// The group of a node.
#[tactic(auto, using(base::proofs::Ranges::find_rules))]
fn group_of(groups: &[NodeSet], n: NodeId) -> Option<usize>
    ensures { result ≡ node_group groups.now n.0 }
{
    for i in 0..groups.len() {
        if groups[i].has(n) {
            return Some(i);
        }
    }
    None
}

/// The number of the first node that is in no group.
#[tactic(auto, using(base::proofs::Ranges::find_rules))]
pub(crate) fn first_uncovered(p: &Problem, groups: &[NodeSet]) -> Option<u32>
    ensures { result ≡ the_first_uncovered p.now.given groups.now }
{
    for n in 0..p.cluster().nodes().len() {
        if group_of(groups, NodeId(n as u32)).is_none() {
            return Some(n as u32);
        }
    }
    None
}

/// The number of the group of a node; 0 where it is in none.
fn number_of(groups: &[NodeSet], n: NodeId) -> usize
    ensures { result ≡ group_number groups.now n.0 }
{
    group_of(groups, n).unwrap_or(0)
}

/// The number of the group of each node.
pub(crate) fn node_groups(
    alloc: Global,
    p: &Problem,
    groups: &[NodeSet],
) -> Result<Vec<usize>, Memory>
    ensures { IfOk result (λ table. table.items ≡ map (group_number groups.now) (range_with_len 0 (node_count p.now.given))) }
{
    let table = (0..p.cluster().nodes().len())
        .map(|n| number_of(groups, NodeId(n as u32)))
        .collect(alloc)?;
    Ok(table)
}
