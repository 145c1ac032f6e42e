//! Whether a machine stands twice, by the set of those that stood so far.
ghost use Rattle.std.specs.Prelude.{◌≡◌, true, List, ◌++◌, ◌&&◌};
ghost use Rattle.std.specs.List.{list_all};
ghost use Rattle.catalogue.specs.Prelude.{all_of, are_below, are_new, differ, max_machines, VmId};

use crate::lists::Vms;
use cluster::{MachineSet, VmId};

/// Whether all machines of a list differ.
pub fn all_differ(ids: &[VmId]) -> bool
    requires { are_below max_machines ids.now ≡ true }
    ensures { result ≡ differ ids.now }
{
    let mut seen = MachineSet::new();
    mark_all(&mut seen, ids)
}

/// Whether all machines of the parts differ.
pub fn all_parts_differ(parts: &[Vms]) -> bool
    requires { are_below max_machines (all_of parts.now) ≡ true }
    ensures { result ≡ differ (all_of parts.now) }
{
    let mut seen = MachineSet::new();
    mark_parts(&mut seen, parts)
}

/// Puts machines into the set, up to the first that it has, and tells whether there was none. These
/// machines and any that follow are new to the old set exactly where it tells so and those that
/// follow are new to the new set.
fn mark_all(seen: &mut MachineSet, ids: &[VmId]) -> bool
    requires { are_below max_machines ids.now ≡ true }
    ensures { (rest : List VmId) → are_new seen.old (ids.now ++ rest) ≡ (result && are_new seen.new rest) }
{
    for id in ids {
        if seen.has(*id) {
            return false;
        }
        seen.insert(*id);
    }
    true
}

/// Puts the machines of all parts into the set, up to the first that it has, and tells whether
/// there was none.
fn mark_parts(seen: &mut MachineSet, parts: &[Vms]) -> bool
    requires { list_all (are_below max_machines) parts.now ≡ true }
    ensures { result ≡ are_new seen.old (all_of parts.now) }
{
    for part in parts {
        if !mark_all(seen, part.items()) {
            return false;
        }
    }
    true
}
