//! Members of one kind, and members that may be absent.

ghost use Rattle.std.specs.Prelude.{◌≡◌, ◌≤◌, IfOk, map};
ghost use Rattle.json_walk.specs.Prelude.{fault_of, flag_of, Gives, key_path, list_field_of, number_field_of, number_of, optional, path_of, text_field_of};
ghost use Rattle.serde_json.specs.Find.{get};
ghost use Rattle.serde_json.specs.View.{view};

use crate::at;
use crate::fault::WalkFault;
use crate::path_ref::PathRef;
use serde_json::Value;
use std::alloc::Global;

/// A member that is a whole number from `least` to `most`.
#[tactic(auto, unfolding(crate::specs::Walk::number_field_of))]
pub fn number_field(
    alloc: Global,
    value: &Value,
    path: &PathRef,
    key: &str,
    least: u64,
    most: u64,
) -> Result<u64, WalkFault>
    ensures gives { Gives fault_of (λ n. n) result
        (number_field_of (view value.now) (path_of path.now) key.now least most) }
    ensures low { IfOk result (λ n. least ≤ n) }
    ensures high { IfOk result (λ n. n ≤ most) }
{
    let found = at::field_at(alloc, value, path, key)?;
    at::number_at(alloc, found, &path.key(key), least, most)
}

/// A member that is a text.
#[tactic(auto, unfolding(crate::specs::Walk::text_field_of))]
pub fn text_field<'a>(
    alloc: Global,
    value: &'a Value,
    path: &PathRef,
    key: &str,
) -> Result<&'a str, WalkFault>
    ensures { Gives fault_of (λ s. s.now) result
        (text_field_of (view value.now) (path_of path.now) key.now) }
{
    let found = at::field_at(alloc, value, path, key)?;
    at::text_at(alloc, found, &path.key(key))
}

/// A member that is a list.
#[tactic(auto, unfolding(crate::specs::Walk::list_field_of))]
pub fn list_field<'a>(
    alloc: Global,
    value: &'a Value,
    path: &PathRef,
    key: &str,
) -> Result<&'a [Value], WalkFault>
    ensures { Gives fault_of (λ s. map view s.now) result
        (list_field_of (view value.now) (path_of path.now) key.now) }
{
    let found = at::field_at(alloc, value, path, key)?;
    at::list_at(alloc, found, &path.key(key))
}

/// A whole number from `least` to `most`, or `absent` where there is no such member.
///
/// A value that is no object has no members.
#[tactic(auto, unfolding(crate::specs::Walk::optional))]
pub fn optional_number(
    alloc: Global,
    value: &Value,
    path: &PathRef,
    key: &str,
    absent: u64,
    least: u64,
    most: u64,
) -> Result<u64, WalkFault>
    ensures gives { Gives fault_of (λ n. n) result (optional absent
        (λ v. number_of v (key_path (path_of path.now) key.now) least most)
        (get key.now (view value.now))) }
    ensures low { least ≤ absent → IfOk result (λ n. least ≤ n) }
    ensures high { absent ≤ most → IfOk result (λ n. n ≤ most) }
{
    match value.get(key) {
        None => Ok(absent),
        Some(found) => at::number_at(alloc, found, &path.key(key), least, most),
    }
}

/// A truth value, or `absent` where there is no such member.
///
/// A value that is no object has no members.
#[tactic(auto, unfolding(crate::specs::Walk::optional))]
pub fn optional_flag(
    alloc: Global,
    value: &Value,
    path: &PathRef,
    key: &str,
    absent: bool,
) -> Result<bool, WalkFault>
    ensures { Gives fault_of (λ b. b) result (optional absent
        (λ v. flag_of v (key_path (path_of path.now) key.now))
        (get key.now (view value.now))) }
{
    match value.get(key) {
        None => Ok(absent),
        Some(found) => at::flag_at(alloc, found, &path.key(key)),
    }
}
