//! Words of a table.

ghost use Rattle.std.specs.Prelude.{◌≡◌, ◌<◌, IfOk, IfSome, length, map};
ghost use Rattle.std.specs.List.{position};
ghost use Rattle.std.specs.Str.{bytes_eq};
ghost use Rattle.json_walk.specs.Prelude.{fault_of, Gives, path_of, word_field_of, word_of};
ghost use Rattle.serde_json.specs.View.{view};

use crate::at;
use crate::fault::{FaultKind, WalkFault};
use crate::path_ref::PathRef;
use serde_json::Value;
use std::alloc::Global;

/// The place, from 0, of a text among the words of a table.
///
/// `WrongKind` where the value is no text, `Unknown` where the text is none of the words. Of equal
/// words the first counts.
#[tactic(auto, using(crate::proofs::Walks::known_rules), unfolding(crate::specs::Walk::word_of))]
pub fn word_at(
    alloc: Global,
    value: &Value,
    path: &PathRef,
    words: &[&str],
) -> Result<usize, WalkFault>
    ensures gives { Gives fault_of (λ place. place) result
        (word_of (view value.now) (path_of path.now) (map (λ w. w.now) words.now)) }
    ensures in_table { IfOk result (λ place. place < length words.now) }
{
    let text = at::text_at(alloc, value, path)?;
    match place_among(text, words) {
        Some(place) => Ok(place),
        None => Err(at::fault_at(alloc, path, FaultKind::Unknown)),
    }
}

/// A member that is a word of a table: the word's place there, from 0.
#[tactic(auto, unfolding(crate::specs::Walk::word_field_of))]
pub fn word_field(
    alloc: Global,
    value: &Value,
    path: &PathRef,
    key: &str,
    words: &[&str],
) -> Result<usize, WalkFault>
    ensures gives { Gives fault_of (λ place. place) result
        (word_field_of (view value.now) (path_of path.now) key.now (map (λ w. w.now) words.now)) }
    ensures in_table { IfOk result (λ place. place < length words.now) }
{
    let found = at::field_at(alloc, value, path, key)?;
    word_at(alloc, found, &path.key(key), words)
}

fn place_among(text: &str, words: &[&str]) -> Option<usize>
    ensures place { result ≡ position (λ w. bytes_eq text.now w.now) words.now }
    ensures in_table { IfSome result (λ place. place < length words.now) }
{
    words.iter().position(|word| text == *word)
}
