//! From bytes to a value.

ghost use Rattle.std.specs.Option.{ok_or};
ghost use Rattle.json_walk.specs.Prelude.{Gives, json_fault_of, json_of, NotJson};
ghost use Rattle.serde_json.specs.View.{view};

use crate::fault::JsonFault;
use serde_json::Value;
use std::alloc::Global;

/// The most bytes that a file or a text of JSON has: 64 MiB.
///
/// `read_value` reads any number of bytes; its callers refuse what is longer.
pub const MAX_TEXT_BYTES: usize = 67_108_864;

/// The value that `serde_json` reads in the bytes.
///
/// `NotJson` exactly where they are not UTF-8, or no JSON that `serde_json` reads.
#[tactic(auto, using(crate::proofs::Texts::text_rules))]
pub fn read_value(alloc: Global, bytes: &[u8]) -> Result<Value, JsonFault>
    ensures { Gives json_fault_of view result (ok_or (json_of bytes.now) NotJson) }
{
    match Value::from_slice(alloc, bytes) {
        Ok(value) => Ok(value),
        Err(e) => {
            if e.is_memory() {
                Err(JsonFault::Memory)
            } else {
                Err(JsonFault::NotJson)
            }
        }
    }
}
