//! Amounts and durations as objects.

ghost use Rattle.std.specs.Prelude.{◌≡◌, Some, None, IfOk, OnOk, codes, map, is_some, option_map};
ghost use Rattle.std.specs.List.{list_any};
ghost use Rattle.instance_make.specs.Prelude.{amounts_data, duration_data, duration_of_kind, durations_data, kind_word, members, own_data, put_if};
ghost use Rattle.serde_json.specs.View.{view};
ghost use Rattle.serde_json.specs.Find.{get_member};

use crate::names::resource_name;
use base::Memory;
use cluster::kinds::{KIND_COUNT, KINDS};
use cluster::limits::MAX_RESOURCES;
use cluster::{Cluster, Duration, Kind, Name};
use json_text::{ObjectOut, number};
use serde_json::Value;
use std::alloc::Global;

/// The amount of each resource.
pub(crate) fn amounts_value(
    alloc: Global,
    cluster: &Cluster,
    amounts: &[u64; MAX_RESOURCES],
) -> Result<Value, Memory>
    ensures { IfOk result (λ d. view d ≡ amounts_data cluster.now.given.resources amounts.now) }
{
    let mut object = ObjectOut::new(alloc);
    for (r, name) in cluster.resources().iter().enumerate() {
        object.put(name.as_text(), number(amounts[r]))?;
    }
    Ok(object.finish())
}

/// A duration.
#[tactic(auto, unfolding(crate::specs::Elements::duration_data))]
fn duration_value(alloc: Global, resources: &[Name], duration: &Duration) -> Result<Value, Memory>
    ensures { IfOk result (λ d. view d ≡ duration_data resources.now duration.now) }
{
    let mut object = ObjectOut::new(alloc);
    object.put("base", number(u64::from(duration.base)))?;
    if let Some(r) = duration.resource {
        object.put("per", number(u64::from(duration.per)))?;
        object.put("resource", resource_name(alloc, resources, r)?)?;
    }
    Ok(object.finish())
}

/// Adds the duration of a kind, if there is one.
fn put_duration(
    alloc: Global,
    resources: &[Name],
    durations: &[Option<Duration>; KIND_COUNT],
    kind: Kind,
    object: &mut ObjectOut,
) -> Result<(), Memory>
    requires { get_member (kind_word kind) (members object.old) ≡ None }
    ensures { let duration = duration_of_kind resources.now durations.now kind in
        OnOk result (members object.new ≡ put_if (kind_word kind) duration (members object.old)) }
{
    match &durations[kind.number()] {
        None => Ok(()),
        Some(duration) => { object.put(kind.word(), duration_value(alloc, resources, duration)?) }
    }
}

/// The durations of those kinds that have one.
pub(crate) fn durations_value(
    alloc: Global,
    resources: &[Name],
    durations: &[Option<Duration>; KIND_COUNT],
) -> Result<Value, Memory>
    ensures { IfOk result (λ d. view d ≡ durations_data resources.now durations.now) }
{
    let mut object = ObjectOut::new(alloc);
    for kind in &KINDS {
        put_duration(alloc, resources, durations, *kind, &mut object)?;
    }
    Ok(object.finish())
}

fn has_any(own: &[Option<Duration>; KIND_COUNT]) -> bool
    ensures { result ≡ list_any is_some own.now }
{
    own.iter().any(|duration| duration.is_some())
}

/// Adds an element's own durations, where it has one.
pub(crate) fn put_own(
    alloc: Global,
    resources: &[Name],
    own: &[Option<Duration>; KIND_COUNT],
    object: &mut ObjectOut,
) -> Result<(), Memory>
    requires { get_member (codes "durations") (members object.old) ≡ None }
    ensures { let durations = own_data resources.now own.now in
        OnOk result (members object.new ≡ put_if (codes "durations") durations (members object.old)) }
{
    if has_any(own) {
        object.put("durations", durations_value(alloc, resources, own)?)
    } else {
        Ok(())
    }
}

fn each_there(durations: &[Duration; KIND_COUNT]) -> [Option<Duration>; KIND_COUNT]
    ensures { result ≡ map Some durations.now }
{
    durations.map(Some)
}

/// The cluster's durations of the ten kinds.
pub(crate) fn base_durations_value(alloc: Global, cluster: &Cluster) -> Result<Value, Memory>
    ensures { let durations = map Some cluster.now.given.durations in
        IfOk result (λ d. view d ≡ durations_data cluster.now.given.resources durations) }
{
    durations_value(alloc, cluster.resources(), &each_there(cluster.durations()))
}
