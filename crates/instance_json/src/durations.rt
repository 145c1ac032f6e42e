//! Durations.

ghost use Rattle.std.specs.Prelude.{◌≡◌, ◌≤◌, ◌&&◌, None, IfOk, codes, length, map, string_bytes, true, unwrap_or};
ghost use Rattle.std.specs.BTreeMap.{keys as map_keys};
ghost use Rattle.std.specs.List.{list_all};
ghost use Rattle.instance_json.specs.Prelude.{base_durations, duration_by_kind, duration_fits, duration_from, durations_from, given_duration, Gives, has_kind, instance_fault_of, is_kind_key, key_path, kind_fits, kinds, map_walk, max_resources, one_instant, optional_by, own_durations, own_fits, owner_fits, path_of, resource_fits, unit_from};
ghost use Rattle.serde_json.specs.Find.{get};
ghost use Rattle.serde_json.specs.View.{view};

use crate::fault::InstanceFault;
use crate::keys::DURATION_KEYS;
use crate::names;
use cluster::kinds::{KIND_COUNT, KINDS, MACHINE_KIND_COUNT};
use cluster::limits::MAX_DURATION;
use cluster::{Duration, Kind, Name};
use json_walk::{FaultKind, PathRef};
use serde_json::{Map, Value};
use std::alloc::Global;

/// The greatest base and amount per unit.
const LONGEST: u64 = MAX_DURATION as u64;

/// Whose durations an object has.
#[derive(Clone, Copy, Debug, PartialEq, Eq)]
pub(crate) enum Owner {
    Machine,
    Node,
    Either,
}

/// The resource whose amount is multiplied.
#[tactic(auto, unfolding(crate::specs::Durations::unit_from))]
fn unit(
    alloc: Global,
    resources: &[Name],
    per: u64,
    value: &Value,
    path: &PathRef,
) -> Result<Option<u8>, InstanceFault>
    requires { length resources.now ≤ max_resources }
    ensures gives { Gives instance_fault_of (λ r. r) result
        (unit_from resources.now per (get (codes "resource") (view value.now)) (key_path (path_of path.now) (codes "resource"))) }
    ensures fits { IfOk result (λ r. resource_fits (length resources.now) per r ≡ true) }
{
    let path = path.key("resource");
    let Some(found) = value.get("resource") else {
        if per == 0 {
            return Ok(None);
        }
        return Err(json_walk::fault_at(alloc, &path, FaultKind::Missing).into());
    };
    Ok(Some(names::resource(alloc, resources, found, &path)?))
}

/// A duration.
#[tactic(auto, unfolding(crate::specs::Durations::duration_from))]
fn duration(
    alloc: Global,
    resources: &[Name],
    value: &Value,
    path: &PathRef,
) -> Result<Duration, InstanceFault>
    requires { length resources.now ≤ max_resources }
    ensures gives { Gives instance_fault_of (λ d. d) result
        (duration_from resources.now (view value.now) (path_of path.now)) }
    ensures fits { IfOk result (λ d. duration_fits (length resources.now) d ≡ true) }
{
    let base = json_walk::number_field(alloc, value, path, "base", 1, LONGEST)?;
    let per = json_walk::optional_number(alloc, value, path, "per", 0, 0, LONGEST)?;
    let resource = unit(alloc, resources, per, value, path)?;
    json_walk::only_at(alloc, value, path, &DURATION_KEYS)?;
    Ok(Duration {
        base: base as u32,
        per: per as u32,
        resource,
    })
}

// ---- durations by kind

/// Whether an object of durations may have one of the kind.
fn has_kind(owner: Owner, kind: Kind) -> bool
    ensures { result ≡ has_kind owner kind }
{
    match owner {
        Owner::Machine => kind.number() < MACHINE_KIND_COUNT,
        Owner::Node => MACHINE_KIND_COUNT <= kind.number(),
        Owner::Either => true,
    }
}

/// A duration that may be absent.
#[tactic(auto, unfolding(crate::specs::Durations::given_duration, json_walk::specs::Walk::optional))]
fn optional_duration(
    alloc: Global,
    resources: &[Name],
    value: &Value,
    path: &PathRef,
    key: &str,
) -> Result<Option<Duration>, InstanceFault>
    requires { length resources.now ≤ max_resources }
    ensures gives { Gives instance_fault_of (λ o. o) result
        (optional_by None (given_duration resources.now) (view value.now) (path_of path.now) key.now) }
    ensures fits { IfOk result (λ o. own_fits (length resources.now) o ≡ true) }
{
    match value.get(key) {
        None => Ok(None),
        Some(found) => Ok(Some(duration(alloc, resources, found, &path.key(key))?)),
    }
}

/// The duration that an object has of a kind.
#[tactic(auto, unfolding(crate::specs::Durations::duration_by_kind))]
fn duration_by_kind(
    alloc: Global,
    resources: &[Name],
    owner: Owner,
    value: &Value,
    path: &PathRef,
    kind: Kind,
) -> Result<Option<Duration>, InstanceFault>
    requires { length resources.now ≤ max_resources }
    ensures gives { Gives instance_fault_of (λ o. o) result
        (duration_by_kind resources.now owner (view value.now) (path_of path.now) kind) }
    ensures fits { IfOk result (λ o. kind_fits (length resources.now) owner kind o ≡ true) }
{
    if has_kind(owner, kind) {
        optional_duration(alloc, resources, value, path, kind.word())
    } else {
        Ok(None)
    }
}

/// The durations of an object in the order of the ten kinds.
fn kind_durations(
    alloc: Global,
    resources: &[Name],
    owner: Owner,
    value: &Value,
    path: &PathRef,
) -> Result<[Option<Duration>; KIND_COUNT], InstanceFault>
    requires { length resources.now ≤ max_resources }
    ensures gives { Gives instance_fault_of (λ ds. ds) result
        (map_walk (duration_by_kind resources.now owner (view value.now) (path_of path.now)) kinds) }
    ensures fit { IfOk result (λ ds. owner_fits (length resources.now) owner ds ≡ true) }
{
    let mut durations = [None; KIND_COUNT];
    for (i, kind) in KINDS.iter().enumerate() {
        durations[i] = duration_by_kind(alloc, resources, owner, value, path, *kind)?;
    }
    Ok(durations)
}

#[tactic(auto, unfolding(cluster::specs::Kinds::kinds))]
fn is_kind_key(owner: Owner, key: &str) -> bool
    ensures { result ≡ is_kind_key owner key.now }
{
    KINDS
        .iter()
        .any(|kind| has_kind(owner, *kind) && key == kind.word())
}

fn are_kind_keys(owner: Owner, members: &Map<String, Value>) -> bool
    ensures { result ≡ list_all (λ key. is_kind_key owner (string_bytes key)) (map_keys members.now) }
{
    members.keys().all(|key| is_kind_key(owner, key.as_str()))
}

/// An object of durations by kind.
#[tactic(auto, using(json_walk::proofs::Public::known_rules), unfolding(crate::specs::Durations::durations_from))]
fn durations(
    alloc: Global,
    resources: &[Name],
    owner: Owner,
    value: &Value,
    path: &PathRef,
) -> Result<[Option<Duration>; KIND_COUNT], InstanceFault>
    requires { length resources.now ≤ max_resources }
    ensures gives { Gives instance_fault_of (λ ds. ds) result
        (durations_from resources.now owner (view value.now) (path_of path.now)) }
    ensures fit { IfOk result (λ ds. owner_fits (length resources.now) owner ds ≡ true) }
{
    let members = json_walk::object_at(alloc, value, path)?;
    let durations = kind_durations(alloc, resources, owner, value, path)?;
    if !are_kind_keys(owner, members) {
        return Err(json_walk::fault_at(alloc, path, FaultKind::Unknown).into());
    }
    Ok(durations)
}

/// The member `durations` of an object, which may be absent.
#[tactic(auto, using(crate::proofs::Fitting::none_fit), unfolding(json_walk::specs::Walk::optional))]
pub(crate) fn own_durations(
    alloc: Global,
    resources: &[Name],
    owner: Owner,
    value: &Value,
    path: &PathRef,
) -> Result<[Option<Duration>; KIND_COUNT], InstanceFault>
    requires { length resources.now ≤ max_resources }
    ensures gives { Gives instance_fault_of (λ ds. ds) result
        (own_durations resources.now owner (view value.now) (path_of path.now)) }
    ensures fit { IfOk result (λ ds. owner_fits (length resources.now) owner ds ≡ true) }
{
    match value.get("durations") {
        None => Ok([None; KIND_COUNT]),
        Some(found) => durations(alloc, resources, owner, found, &path.key("durations")),
    }
}

/// What stands for a duration that is not given.
const ONE_INSTANT: Duration = Duration {
    base: 1,
    per: 0,
    resource: None,
};

fn or_one_instant(durations: [Option<Duration>; KIND_COUNT]) -> [Duration; KIND_COUNT]
    ensures { result ≡ map (λ d. unwrap_or d one_instant) durations }
{
    durations.map(|duration| duration.unwrap_or(ONE_INSTANT))
}

/// The durations of the ten kinds, for elements without one of their own.
#[tactic(auto, using(crate::proofs::Fitting::all_durations_fit), unfolding(crate::specs::Durations::base_durations))]
pub(crate) fn base_durations(
    alloc: Global,
    resources: &[Name],
    value: &Value,
    path: &PathRef,
) -> Result<[Duration; KIND_COUNT], InstanceFault>
    requires { length resources.now ≤ max_resources }
    ensures gives { Gives instance_fault_of (λ ds. ds) result
        (base_durations resources.now (view value.now) (path_of path.now)) }
    ensures fit { IfOk result (λ ds. list_all (duration_fits (length resources.now)) ds ≡ true) }
{
    let durations = own_durations(alloc, resources, Owner::Either, value, path)?;
    Ok(or_one_instant(durations))
}
