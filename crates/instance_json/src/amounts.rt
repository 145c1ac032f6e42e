//! Amounts of the resources.

ghost use Rattle.std.specs.Prelude.{◌≡◌, ◌≤◌, IfOk, length, nat_le, string_bytes, true};
ghost use Rattle.std.specs.BTreeMap.{keys as map_keys};
ghost use Rattle.std.specs.List.{list_any, list_all};
ghost use Rattle.std.specs.Str.{bytes_eq};
ghost use Rattle.instance_json.specs.Prelude.{amounts_fit, amounts_from, amounts_in, Field, Gives, instance_fault_of, max_amount, max_resources, optional_number, path_of, resource_amounts};
ghost use Rattle.serde_json.specs.View.{view};

use crate::fault::InstanceFault;
use crate::names::is_among;
use cluster::Name;
use cluster::limits::{MAX_AMOUNT, MAX_RESOURCES};
use json_walk::PathRef;
use serde_json::{Map, Value};
use std::alloc::Global;

/// The amount of a resource, 0 where none is given.
fn amount(
    alloc: Global,
    value: &Value,
    path: &PathRef,
    resource: &Name,
) -> Result<u64, InstanceFault>
    ensures gives { Gives instance_fault_of (λ n. n) result
        (optional_number Field max_amount (view value.now) (path_of path.now) resource.now) }
    ensures small { IfOk result (λ n. nat_le n max_amount ≡ true) }
{
    let key = resource.as_text();
    Ok(json_walk::optional_number(alloc, value, path, key, 0, 0, MAX_AMOUNT)?)
}

/// An amount of each resource, and 0 at the places past the resources.
fn resource_amounts(
    alloc: Global,
    resources: &[Name],
    value: &Value,
    path: &PathRef,
) -> Result<[u64; MAX_RESOURCES], InstanceFault>
    requires { length resources.now ≤ max_resources }
    ensures gives { Gives instance_fault_of (λ a. a) result
        (resource_amounts resources.now (view value.now) (path_of path.now)) }
    ensures fit { IfOk result (λ a. amounts_fit (length resources.now) a ≡ true) }
{
    let mut amounts = [0; MAX_RESOURCES];
    for (i, resource) in resources.iter().enumerate() {
        amounts[i] = amount(alloc, value, path, resource)?;
    }
    Ok(amounts)
}

fn are_resources(members: &Map<String, Value>, resources: &[Name]) -> bool
    ensures { result ≡ list_all (λ key. list_any (bytes_eq (string_bytes key)) resources.now) (map_keys members.now) }
{
    members.keys().all(|key| is_among(key.as_str(), resources))
}

/// An object of amounts, and of no key that is no resource.
#[tactic(auto, using(json_walk::proofs::Public::known_rules), unfolding(crate::specs::Elements::amounts_from))]
fn amounts(
    alloc: Global,
    resources: &[Name],
    value: &Value,
    path: &PathRef,
) -> Result<[u64; MAX_RESOURCES], InstanceFault>
    requires { length resources.now ≤ max_resources }
    ensures gives { Gives instance_fault_of (λ a. a) result
        (amounts_from resources.now (view value.now) (path_of path.now)) }
    ensures fit { IfOk result (λ a. amounts_fit (length resources.now) a ≡ true) }
{
    let members = json_walk::object_at(alloc, value, path)?;
    let amounts = resource_amounts(alloc, resources, value, path)?;
    if !are_resources(members, resources) {
        return Err(InstanceFault::NoSuch(path.to_text(alloc)?));
    }
    Ok(amounts)
}

/// A member that may be absent, an object of amounts.
#[tactic(auto, using(crate::proofs::Fitting::no_amounts_fit), unfolding(json_walk::specs::Walk::optional))]
pub(crate) fn amounts_at(
    alloc: Global,
    resources: &[Name],
    value: &Value,
    path: &PathRef,
    key: &str,
) -> Result<[u64; MAX_RESOURCES], InstanceFault>
    requires { length resources.now ≤ max_resources }
    ensures gives { Gives instance_fault_of (λ a. a) result
        (amounts_in resources.now (view value.now) (path_of path.now) key.now) }
    ensures fit { IfOk result (λ a. amounts_fit (length resources.now) a ≡ true) }
{
    match value.get(key) {
        None => Ok([0; MAX_RESOURCES]),
        Some(found) => amounts(alloc, resources, found, &path.key(key)),
    }
}
