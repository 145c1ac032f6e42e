//! How full nodes are at each instant at which something starts or ends.
ghost use Rattle.std.specs.Prelude.{◌≡◌, ℕ, ◌<◌, length, IfOk};
ghost use Rattle.picture.specs.Prelude.{AreLoads, cell, choices_of, fullness, heat_at, heats_of, IsPlanOf, loads_of, max_nodes, parts_of, power_of, snapshot_at};

use crate::marks::{Heat, Power};
use base::Memory;
use catalogue::Problem;
use cluster::{Instant, NodeId};
use judge::Loads;
use slices::Plan;
use slices::snapshot::{powered, usable};
use std::alloc::Global;

/// What a load is of a capacity, in parts of 100, rounded up.
fn parts_of(capacity: u64, load: u64) -> u64
    ensures { result ≡ parts_of capacity load }
{
    load.saturating_mul(100).div_ceil(capacity.max(1))
}

/// How full a node is by a table of loads: the parts of the resource of which least is left.
fn fullness(p: &Problem, table: &Loads, n: NodeId) -> u64
    requires { n.0 < length p.now.given.nodes }
    ensures { result ≡ fullness p.now.given (cell table.now) n.0 }
{
    let mut most = 0;
    for r in 0..p.cluster().resources().len() {
        let load = table[n.0 as usize][r];
        most = parts_of(p.capacity(n, r as u8), load).max(most);
    }
    most
}

/// What a node is that is powered or not, and usable or not.
fn power_of(powered: bool, usable: bool) -> Power
    ensures { result ≡ power_of powered usable }
{
    if usable {
        Power::On
    } else if powered {
        Power::Turning
    } else {
        Power::Off
    }
}

/// How full a node is at an instant, by the loads of that instant.
#[tactic(auto, using(crate::proofs::HeatLemmas::fullness_same))]
fn heat(p: &Problem, plan: &Plan, table: &Loads, n: NodeId, t: Instant) -> Heat
    requires plan { IsPlanOf p.now.given plan.now }
    requires node { n.0 < length p.now.given.nodes }
    requires loads { (r : ℕ) → r < length p.now.given.resources → cell table.now n.0 r ≡ loads_of p.now.given (snapshot_at p.now.given (choices_of plan.now) t) n.0 r }
    ensures { result ≡ heat_at p.now.given (choices_of plan.now) n.0 t }
{
    let power = power_of(powered(p, plan, n, t), usable(p, plan, n, t));
    let parts = fullness(p, table, n);
    Heat {
        at: t,
        power,
        parts,
    }
}

/// How full a node is, a step for each instant.
#[tactic(auto, using(crate::proofs::Lists::map_more))]
pub(crate) fn heats_of(
    alloc: Global,
    p: &Problem,
    plan: &Plan,
    instants: &[Instant],
    tables: &[Loads],
    n: NodeId,
) -> Result<Vec<Heat>, Memory>
    requires plan { IsPlanOf p.now.given plan.now }
    requires node { n.0 < length p.now.given.nodes }
    requires tables { AreLoads p.now.given (choices_of plan.now) instants.now tables.now }
    ensures { IfOk result (λ heats. heats.items ≡ heats_of p.now.given (choices_of plan.now) n.0 instants.now) }
{
    let mut heats = Vec::new(alloc);
    for i in 0..instants.len() {
        let heat = heat(p, plan, &tables[i], n, instants[i]);
        heats.push(heat)?;
    }
    Ok(heats)
}

/// The greatest part of some steps.
pub(crate) fn most_of(heats: &[Heat]) -> u64 {
    heats.iter().fold(0, |most, heat| heat.parts.max(most))
}
