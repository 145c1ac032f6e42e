//! The compact text of a value, with one newline.

ghost use Rattle.std.specs.Prelude.{◌≡◌, ◌≤◌, [], ◌∷◌, ◌++◌, Some, false, OnOk, IfOk, IsUtf8};
ghost use Rattle.serde_json.specs.Data.{depth};
ghost use Rattle.serde_json.specs.Read.{max_depth};
ghost use Rattle.serde_json.specs.View.{view};
ghost use Rattle.serde_json.specs.Written.{has_float, compact_text};
ghost use Rattle.json_walk.specs.Json.{json_of};

use base::Memory;
use serde_json::Value;
use std::alloc::Global;

/// The compact text of a value without floats, and one newline.
///
/// The bytes read back to the value where it nests at most 127 lists and objects.
#[tactic(auto, using(json_walk::proofs::Public::text_rules))]
pub fn print(alloc: Global, value: &Value) -> Result<Vec<u8>, Memory>
    requires { has_float (view value.now) ≡ false }
    ensures text { IfOk result (λ b. b.items ≡ compact_text (view value.now) ++ 10 ∷ []) }
    ensures utf8 { IfOk result (λ b. IsUtf8 b.items) }
    ensures reads_back { IfOk result (λ b. depth (view value.now) ≤ max_depth
        → json_of b.items ≡ Some (view value.now)) }
{
    let mut bytes = value.to_vec(alloc)?;
    end_line(&mut bytes)?;
    Ok(bytes)
}

fn end_line(bytes: &mut Vec<u8>) -> Result<(), Memory>
    ensures { OnOk result (bytes.new.items ≡ bytes.old.items ++ 10 ∷ []) }
{
    bytes.push(b'\n')?;
    Ok(())
}
