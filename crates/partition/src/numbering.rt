//! The number of each node and machine among those of its group.
ghost use Rattle.std.specs.Prelude.{◌≡◌, ◌<◌, ◌≤◌, ◌+◌, ◌==◌, ℕ, IfOk, length, slice_index_or, if◌then◌else◌};
ghost use Rattle.cluster.specs.Limits.{max_machines};
ghost use Rattle.partition.specs.Division.{Divides};
ghost use Rattle.partition.specs.Numbering.{AreNumbers, numbers_by};

use crate::faults::Division;
use base::Memory;
use catalogue::Problem;
use cluster::NodeSet;
use std::alloc::Global;

/// The number of each node and of each machine in its part.
#[derive(Drop)]
pub(crate) struct Numbers {
    pub(crate) nodes: Vec<u32>,
    pub(crate) machines: Vec<u32>,
}

/// Counts one more of a group: how many there were before.
fn count(counts: &mut [u32], group: usize) -> u32
    requires within { group < length counts.old }
    requires few { slice_index_or counts.old group 0 < max_machines }
    ensures before { result ≡ slice_index_or counts.old group 0 }
    ensures after { (g : ℕ) → slice_index_or counts.new g 0 ≡ slice_index_or counts.old g 0 + (if group == g then 1 else 0) }
{
    let before = counts[group];
    counts[group] = before + 1;
    before
}

/// How many before each have its group, with counts that are 0 at first.
fn count_all(alloc: Global, table: &[usize], counts: &mut [u32]) -> Result<Vec<u32>, Memory>
    requires within { (x : ℕ) → x < length table.now → slice_index_or table.now x 0 < length counts.old }
    requires few { length table.now ≤ max_machines }
    requires none { (g : ℕ) → slice_index_or counts.old g 0 ≡ 0 }
    ensures { IfOk result (λ numbers. numbers.items ≡ numbers_by table.now) }
{
    let mut numbers = Vec::new(alloc);
    for x in 0..table.len() {
        numbers.push(count(counts, table[x]))?;
    }
    Ok(numbers)
}

/// How many before each have its group, by a table of so many groups.
#[tactic(auto, using(base::proofs::Lists::copies_at))]
fn number_all(alloc: Global, table: &[usize], groups: usize) -> Result<Vec<u32>, Memory>
    requires within { (x : ℕ) → x < length table.now → slice_index_or table.now x 0 < groups }
    requires few { length table.now ≤ max_machines }
    ensures { IfOk result (λ numbers. numbers.items ≡ numbers_by table.now) }
{
    let mut counts = Vec::new(alloc);
    counts.resize(groups, 0)?;
    count_all(alloc, table, &mut counts)
}

/// The number of each node and machine in the part of its group.
pub(crate) fn number(
    alloc: Global,
    p: &Problem,
    groups: &[NodeSet],
    d: &Division,
) -> Result<Numbers, Memory>
    requires { Divides p.now.given groups.now d.now.nodes.items d.now.machines.items }
    ensures { IfOk result (λ numbers. AreNumbers p.now.given groups.now numbers.nodes.items numbers.machines.items) }
{
    let nodes = number_all(alloc, &d.nodes, groups.len())?;
    let machines = number_all(alloc, &d.machines, groups.len())?;
    Ok(Numbers { nodes, machines })
}
