//! The tests of a value at a path whose text is there, each with its first fault.

ghost use Rattle.std.specs.Prelude.{◌≡◌, ◌≤◌, IfOk, map, string_bytes};
ghost use Rattle.std.specs.BTreeMap.{keys as map_keys};
ghost use Rattle.std.specs.List.{list_any, list_all};
ghost use Rattle.std.specs.Str.{bytes_eq};
ghost use Rattle.json_walk.specs.Walk.{Gives, fault_of, field_of, number_of, flag_of, text_of, list_of, only_of};
ghost use Rattle.serde_json.specs.View.{view};

use crate::at;
use crate::fault::{FaultKind, WalkFault};
use crate::keys::Keys;
use crate::path::PathText;
use crate::path_ref::PathRef;
use serde_json::{Map, Value};
use std::alloc::Global;

/// A member of an object.
pub fn field<'a>(
    alloc: Global,
    value: &'a Value,
    path: &PathText,
    key: &str,
) -> Result<&'a Value, WalkFault>
    ensures { Gives fault_of (λ v. view v.now) result
        (field_of (view value.now) path.now key.now) }
{
    at::field_at(alloc, value, &PathRef::Text(path), key)
}

/// A whole number from `least` to `most`.
pub fn number(
    alloc: Global,
    value: &Value,
    path: &PathText,
    least: u64,
    most: u64,
) -> Result<u64, WalkFault>
    ensures gives { Gives fault_of (λ n. n) result
        (number_of (view value.now) path.now least most) }
    ensures low { IfOk result (λ n. least ≤ n) }
    ensures high { IfOk result (λ n. n ≤ most) }
{
    at::number_at(alloc, value, &PathRef::Text(path), least, most)
}

/// A truth value.
pub fn flag(alloc: Global, value: &Value, path: &PathText) -> Result<bool, WalkFault>
    ensures { Gives fault_of (λ b. b) result (flag_of (view value.now) path.now) }
{
    at::flag_at(alloc, value, &PathRef::Text(path))
}

/// A text.
pub fn text<'a>(alloc: Global, value: &'a Value, path: &PathText) -> Result<&'a str, WalkFault>
    ensures { Gives fault_of (λ s. s.now) result (text_of (view value.now) path.now) }
{
    at::text_at(alloc, value, &PathRef::Text(path))
}

/// The items of a list.
pub fn list<'a>(alloc: Global, value: &'a Value, path: &PathText) -> Result<&'a [Value], WalkFault>
    ensures { Gives fault_of (λ s. map view s.now) result
        (list_of (view value.now) path.now) }
{
    at::list_at(alloc, value, &PathRef::Text(path))
}

/// An object without keys beside these.
#[tactic(auto, using(crate::proofs::Walks::known_rules), unfolding(crate::specs::Walk::only_of))]
pub fn only(alloc: Global, value: &Value, path: &PathText, keys: &Keys) -> Result<(), WalkFault>
    ensures { Gives fault_of (λ _. tt) result (only_of (view value.now) path.now keys.now) }
{
    let path = PathRef::Text(path);
    let Some(members) = value.as_object() else {
        return Err(at::fault_at(alloc, &path, FaultKind::WrongKind));
    };
    if are_known(members, keys) {
        Ok(())
    } else {
        Err(at::fault_at(alloc, &path, FaultKind::Unknown))
    }
}

fn are_known(members: &Map<String, Value>, keys: &Keys) -> bool
    ensures { result
        ≡ list_all (λ k. list_any (bytes_eq (string_bytes k)) keys.now) (map_keys members.now) }
{
    members.keys().all(|key| keys.has(key.as_str()))
}
