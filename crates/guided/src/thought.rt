//! What is worked out at the root of a search.

use crate::ends::least_sum;
use crate::outlook::Outlook;
use crate::root::Root;
use crate::rows::{machine_domain, node_domain};
use crate::tables::Tables;
use crate::target::Target;
use base::Memory;
use catalogue::Problem;
use domains::{Domain, Region};
use std::alloc::Global;

// a root with no more ways is searched as soon as it is thought about
const FEW_WAYS: u64 = 64;

/// What is worked out at the root of a search.
#[derive(Drop)]
pub struct Thought {
    pub tables: Tables,
    /// What the order of a proof takes from the root; nothing where that is left to `StayFirst`.
    pub root: Root,
    pub target: Target,
    /// Whether the target costs the sum of the least ends of the root, so that nothing is cheaper.
    pub is_least: bool,
    /// Whether what is split first is left to `StayFirst`: nothing is cheaper than the target, or actions wait for others.
    pub is_plain: bool,
    /// The region that was looked at last. It counts in these tables alone, and so goes with them.
    pub outlook: Outlook,
}

impl Thought {
    /// What is worked out for a root; none where it has few ways, or no whole plan is found.
    pub fn of(alloc: Global, p: &Problem, region: &Region) -> Result<Option<Thought>, Memory> {
        if ways_of(region) <= FEW_WAYS {
            return Ok(None);
        }
        let mut tables = Tables::of(alloc, p)?;
        let sum = least_sum(&tables, region);
        let Some(target) = Target::seek(alloc, &tables, region, sum)? else {
            return Ok(None);
        };
        // which machines are apart is asked no more, and takes most of the memory
        tables.rules.apart.forget(alloc);
        let is_least = target.cost == sum;
        let is_plain = is_least || !tables.rules.orders.is_empty();
        let (root, outlook) = if is_plain {
            (Root::new(alloc), Outlook::new(alloc))
        } else {
            (
                Root::of(alloc, &tables, region)?,
                Outlook::of(alloc, &tables)?,
            )
        };
        Ok(Some(Thought {
            tables,
            root,
            target,
            is_least,
            is_plain,
            outlook,
        }))
    }

    /// Whether a region has as many machines and nodes.
    pub fn fits(&self, g: &Region) -> bool {
        self.tables.machines.len() == g.machine_count() && self.tables.nodes.len() == g.node_count()
    }
}

// in how many ways the elements of a region can go on together, where each place counts as one
fn ways_of(g: &Region) -> u64 {
    let mut ways: u64 = 1;
    for v in 0..g.machine_count() {
        ways = ways.saturating_mul(ways_in(machine_domain(g, v)));
    }
    for n in 0..g.node_count() {
        ways = ways.saturating_mul(ways_in(node_domain(g, n)));
    }
    ways
}

fn ways_in(domain: Option<&Domain>) -> u64 {
    match domain {
        Some(domain) => {
            let rows = domain.rows().len() as u64;
            rows.saturating_add(u64::from(domain.idle()))
        }
        None => 1,
    }
}
