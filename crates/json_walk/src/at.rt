//! The tests of a value at a lent path, each with its first fault.

ghost use Rattle.std.specs.Prelude.{◌≡◌, ◌≤◌, IfOk, IfSome, map, string_bytes};
ghost use Rattle.std.specs.BTreeMap.{keys as map_keys};
ghost use Rattle.std.specs.List.{list_any, list_all};
ghost use Rattle.std.specs.Str.{bytes_eq};
ghost use Rattle.json_walk.specs.Prelude.{fault_at, fault_of, field_of, flag_of, Gives, list_of, number_of, object_of, only_of, path_of, text_of};
ghost use Rattle.serde_json.specs.View.{view, members_view};

use crate::fault::{Fault, FaultKind, WalkFault};
use crate::path_ref::PathRef;
use serde_json::{Map, Value};
use std::alloc::Global;

/// That fault at that path, or want of memory for the path's text.
pub fn fault_at(alloc: Global, path: &PathRef, kind: FaultKind) -> WalkFault
    ensures { IfSome (fault_of result) (λ f. f ≡ fault_at (path_of path.now) kind) }
{
    match path.to_text(alloc) {
        Ok(path) => WalkFault::Bad(Fault { path, kind }),
        Err(_) => WalkFault::Memory,
    }
}

/// The members of an object.
#[tactic(auto, unfolding(crate::specs::Walk::object_of))]
pub fn object_at<'a>(
    alloc: Global,
    value: &'a Value,
    path: &PathRef,
) -> Result<&'a Map<String, Value>, WalkFault>
    ensures { Gives fault_of (λ m. members_view m.now.entries) result
        (object_of (view value.now) (path_of path.now)) }
{
    match value.as_object() {
        Some(members) => Ok(members),
        None => Err(fault_at(alloc, path, FaultKind::WrongKind)),
    }
}

/// A member of an object.
#[tactic(auto, unfolding(crate::specs::Walk::object_of, crate::specs::Walk::field_of))]
pub fn field_at<'a>(
    alloc: Global,
    value: &'a Value,
    path: &PathRef,
    key: &str,
) -> Result<&'a Value, WalkFault>
    ensures { Gives fault_of (λ v. view v.now) result
        (field_of (view value.now) (path_of path.now) key.now) }
{
    let Some(_members) = value.as_object() else {
        return Err(fault_at(alloc, path, FaultKind::WrongKind));
    };
    match value.get(key) {
        Some(found) => Ok(found),
        None => Err(fault_at(alloc, &path.key(key), FaultKind::Missing)),
    }
}

/// A whole number from `least` to `most`.
#[tactic(auto, unfolding(crate::specs::Walk::number_of))]
pub fn number_at(
    alloc: Global,
    value: &Value,
    path: &PathRef,
    least: u64,
    most: u64,
) -> Result<u64, WalkFault>
    ensures gives { Gives fault_of (λ n. n) result
        (number_of (view value.now) (path_of path.now) least most) }
    ensures low { IfOk result (λ n. least ≤ n) }
    ensures high { IfOk result (λ n. n ≤ most) }
{
    let Some(number) = value.as_number() else {
        return Err(fault_at(alloc, path, FaultKind::WrongKind));
    };
    if !number.is_u64() && !number.is_i64() {
        return Err(fault_at(alloc, path, FaultKind::WrongKind));
    }
    let Some(n) = number.as_u64() else {
        return Err(fault_at(alloc, path, FaultKind::OutOfRange));
    };
    if n < least || most < n {
        return Err(fault_at(alloc, path, FaultKind::OutOfRange));
    }
    Ok(n)
}

/// A truth value.
#[tactic(auto, unfolding(crate::specs::Walk::flag_of))]
pub fn flag_at(alloc: Global, value: &Value, path: &PathRef) -> Result<bool, WalkFault>
    ensures { Gives fault_of (λ b. b) result (flag_of (view value.now) (path_of path.now)) }
{
    match value.as_bool() {
        Some(flag) => Ok(flag),
        None => Err(fault_at(alloc, path, FaultKind::WrongKind)),
    }
}

/// A text.
#[tactic(auto, unfolding(crate::specs::Walk::text_of))]
pub fn text_at<'a>(alloc: Global, value: &'a Value, path: &PathRef) -> Result<&'a str, WalkFault>
    ensures { Gives fault_of (λ s. s.now) result (text_of (view value.now) (path_of path.now)) }
{
    match value.as_str() {
        Some(text) => Ok(text),
        None => Err(fault_at(alloc, path, FaultKind::WrongKind)),
    }
}

/// The items of a list.
#[tactic(auto, using(crate::proofs::Walks::known_rules), unfolding(crate::specs::Walk::list_of))]
pub fn list_at<'a>(
    alloc: Global,
    value: &'a Value,
    path: &PathRef,
) -> Result<&'a [Value], WalkFault>
    ensures { Gives fault_of (λ s. map view s.now) result
        (list_of (view value.now) (path_of path.now)) }
{
    match value.as_array() {
        Some(items) => Ok(items.as_slice()),
        None => Err(fault_at(alloc, path, FaultKind::WrongKind)),
    }
}

/// An object without keys beside these.
#[tactic(auto, using(crate::proofs::Walks::known_rules), unfolding(crate::specs::Walk::only_of))]
pub fn only_at(alloc: Global, value: &Value, path: &PathRef, keys: &[&str]) -> Result<(), WalkFault>
    ensures { Gives fault_of (λ _. tt) result
        (only_of (view value.now) (path_of path.now) (map (λ k. k.now) keys.now)) }
{
    let Some(members) = value.as_object() else {
        return Err(fault_at(alloc, path, FaultKind::WrongKind));
    };
    if are_known(members, keys) {
        Ok(())
    } else {
        Err(fault_at(alloc, path, FaultKind::Unknown))
    }
}

fn are_known(members: &Map<String, Value>, keys: &[&str]) -> bool
    ensures { let known = map (λ s. s.now) keys.now in
        result ≡ list_all (λ k. list_any (bytes_eq (string_bytes k)) known) (map_keys members.now) }
{
    members.keys().all(|key| is_among(key.as_str(), keys))
}

#[tactic(auto, using(crate::proofs::Walks::known_rules))]
fn is_among(key: &str, keys: &[&str]) -> bool
    ensures { result ≡ list_any (bytes_eq key.now) (map (λ s. s.now) keys.now) }
{
    is_any(key, keys)
}

fn is_any(key: &str, keys: &[&str]) -> bool
    ensures { result ≡ list_any (λ s. bytes_eq key.now s.now) keys.now }
{
    keys.iter().any(|known| key == *known)
}
