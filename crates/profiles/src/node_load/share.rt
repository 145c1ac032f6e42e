//! What one machine adds to the profile of a node.
ghost use Rattle.std.specs.Prelude.{◌≡◌, ◌≤◌, ◌<◌, length, IfOk, slice_index_or};
ghost use Rattle.profiles.specs.Prelude.{AreShares, AreSmall, IsElement, IsShare, IsSmall, machine_count, no_standing, share_use as the_share_use, total_use as the_total_use};

use base::Memory;
use catalogue::Problem;
use cluster::{Element, Instant, NodeId, VmId};
use relax::is_host;
use slices::Weight;
use standings::numbers::Standing;
use standings::uses::{base, comes_by, gain};
use std::alloc::Global;

/// What a machine has of a resource on a node until it leaves, and what it brings there.
#[derive(Clone, Copy, Debug, PartialEq, Eq)]
pub struct Share {
    pub base: u64,
    pub gain: u64,
}

fn share_of(p: &Problem, v: VmId, n: NodeId, r: u8) -> Share
    requires machine { IsElement p.now.given (Element.Vm v) }
    requires resource { r < length p.now.given.resources }
    ensures share { IsShare p.now.given n.0 r v.0 result }
    ensures small { IsSmall result }
{
    let weight = Weight::Amount(r);
    let base = if is_host(p, v, n) {
        base(p, v, weight)
    } else {
        0
    };
    Share {
        base,
        gain: gain(p, v, weight, n),
    }
}

/// The shares of all machines.
pub fn shares_of(alloc: Global, p: &Problem, n: NodeId, r: u8) -> Result<Vec<Share>, Memory>
    requires { r < length p.now.given.resources }
    ensures shares { IfOk result (λ xs. AreShares p.now.given n.0 r (machine_count p.now.given) xs.items) }
    ensures small { IfOk result (λ xs. AreSmall xs.items) }
{
    let count = p.cluster().machines().len();
    let mut shares = Vec::with_capacity(alloc, count)?;
    for i in 0..count {
        shares.push(share_of(p, VmId(i as u32), n, r))?;
    }
    Ok(shares)
}

fn share_use(n: NodeId, t: Instant, share: Share, k: Standing) -> u64
    requires { IsSmall share }
    ensures use_at { result ≡ the_share_use n.0 t share k }
    ensures small { result ≤ 2_000_000_000 }
{
    let base = if u64::from(t) < k.leave {
        share.base
    } else {
        0
    };
    let gain = if comes_by(k.come, n, t) {
        share.gain
    } else {
        0
    };
    base + gain
}

// the numbers of a machine, if there are some
#[tactic(auto, using(std::proofs::lemmas::List::get_or_default))]
fn standing_at(standings: &[Standing], i: usize) -> Standing
    ensures { result ≡ slice_index_or standings.now i no_standing }
{
    if i < standings.len() {
        standings[i]
    } else {
        Standing {
            leave: 0,
            come: None,
        }
    }
}

/// What machines with these shares and numbers add up to at an instant.
pub fn total_use(n: NodeId, t: Instant, shares: &[Share], standings: &[Standing]) -> u64
    requires { AreSmall shares.now }
    ensures { result ≡ the_total_use n.0 t shares.now standings.now }
{
    let mut total = 0;
    for i in 0..shares.len() {
        total += share_use(n, t, shares[i], standing_at(standings, i));
    }
    total
}
