//! Tests of amounts and durations, in a cluster of so many resources.
ghost use Rattle.std.specs.Prelude.{◌≡◌, ◌≤◌, length, is_none, nat_le, ◌==◌};
ghost use Rattle.std.specs.List.{list_all};
ghost use Rattle.cluster.specs.Prelude.{amounts_fit, duration_fits, kind_count, machine_fits, machine_own_fits, max_amount, max_resources, node_fits, node_own_fits, own_fits};

use crate::durations::Duration;
use crate::kinds::MACHINE_KIND_COUNT;
use crate::limits::{MAX_AMOUNT, MAX_DURATION};
use crate::machines::Machine;
use crate::nodes::Node;

/// Whether each of a cluster's durations may stand there.
pub fn are_durations(count: usize, durations: &[Duration]) -> bool
    ensures { result ≡ list_all (duration_fits count) durations.now }
{
    durations.iter().all(|d| is_duration(count, *d))
}

/// Whether a node's capacity and its own durations may stand in the cluster.
pub fn is_fitting_node(count: usize, node: &Node) -> bool
    requires { count ≤ max_resources }
    ensures { result ≡ node_fits count node.now }
{
    are_amounts(count, &node.capacity) && are_node_durations(count, &node.own)
}

/// Whether a machine's use and its own durations may stand in the cluster.
pub fn is_fitting_machine(count: usize, machine: &Machine) -> bool
    requires { count ≤ max_resources }
    ensures { result ≡ machine_fits count machine.now }
{
    are_amounts(count, &machine.usage) && are_machine_durations(count, &machine.own)
}

fn is_duration(count: usize, duration: Duration) -> bool
    ensures { result ≡ duration_fits count duration }
{
    let known = match duration.resource {
        Some(r) => (r as usize) < count,
        None => duration.per == 0,
    };
    1 <= duration.base && duration.base <= MAX_DURATION && duration.per <= MAX_DURATION && known
}

fn is_own_duration(count: usize, own: Option<Duration>) -> bool
    ensures { result ≡ own_fits count own }
{
    match own {
        Some(duration) => is_duration(count, duration),
        None => true,
    }
}

fn are_own_durations(count: usize, own: &[Option<Duration>]) -> bool
    ensures { result ≡ list_all (own_fits count) own.now }
{
    own.iter().all(|d| is_own_duration(count, *d))
}

fn are_none(own: &[Option<Duration>]) -> bool
    ensures { result ≡ list_all is_none own.now }
{
    own.iter().all(|d| d.is_none())
}

fn are_node_durations(count: usize, own: &[Option<Duration>]) -> bool
    requires { length own.now ≡ kind_count }
    ensures { result ≡ node_own_fits count own.now }
{
    are_none(&own[..MACHINE_KIND_COUNT]) && are_own_durations(count, &own[MACHINE_KIND_COUNT..])
}

fn are_machine_durations(count: usize, own: &[Option<Duration>]) -> bool
    requires { length own.now ≡ kind_count }
    ensures { result ≡ machine_own_fits count own.now }
{
    are_own_durations(count, &own[..MACHINE_KIND_COUNT]) && are_none(&own[MACHINE_KIND_COUNT..])
}

fn are_amounts(count: usize, amounts: &[u64]) -> bool
    requires { count ≤ length amounts.now }
    ensures { result ≡ amounts_fit count amounts.now }
{
    are_small(amounts) && are_zero(&amounts[count..])
}

fn are_small(amounts: &[u64]) -> bool
    ensures { result ≡ list_all (λ a. nat_le a max_amount) amounts.now }
{
    amounts.iter().all(|a| *a <= MAX_AMOUNT)
}

fn are_zero(amounts: &[u64]) -> bool
    ensures { result ≡ list_all (λ a. a == 0) amounts.now }
{
    amounts.iter().all(|a| *a == 0)
}
