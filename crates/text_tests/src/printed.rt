//! Values that are printed and read back.

ghost use Rattle.std.specs.Prelude.{◌≡◌, false, IfOk};
ghost use Rattle.serde_json.specs.View.{view};
ghost use Rattle.serde_json.specs.Written.{has_float};

use base::Memory;
use json_text::{ListOut, ObjectOut, flag, number, print, word};
use json_walk::{JsonFault, read_value};
use serde_json::Value;
use std::alloc::Global;
use std::test::Fail;

/// Keys and texts with a quote, a backslash, control characters and a letter beyond ASCII, and a list in its own order.
fn odd(alloc: Global) -> Result<Value, Memory>
    ensures { IfOk result (λ v. has_float (view v) ≡ false) }
{
    let mut object = ObjectOut::new(alloc);
    object.put("é", word(alloc, "\u{1f}\"")?)?;
    object.put("\"\\\n\u{1}", flag(false))?;
    object.put("a", list(alloc)?)?;
    Ok(object.finish())
}

fn list(alloc: Global) -> Result<Value, Memory>
    ensures { IfOk result (λ v. has_float (view v) ≡ false) }
{
    let mut list = ListOut::new(alloc);
    list.push(number(u64::MAX))?;
    list.push(word(alloc, "")?)?;
    list.push(ObjectOut::new(alloc).finish())?;
    Ok(list.finish())
}

/// Lists in one another, as many as `depth` and one more.
fn nested(alloc: Global, depth: usize) -> Result<Value, Memory>
    ensures { IfOk result (λ v. has_float (view v) ≡ false) }
{
    let mut value = ListOut::new(alloc).finish();
    for _ in 0..depth {
        let mut list = ListOut::new(alloc);
        list.push(value)?;
        value = list.finish();
    }
    Ok(value)
}

/// Whether lists so deep are read back.
fn nests(alloc: Global, depth: usize) -> Result<bool, Memory> {
    let value = nested(alloc, depth)?;
    let bytes = print(alloc, &value)?;
    is_read_back(alloc, &bytes, &value)
}

/// Whether the text is that of the value.
fn is_read_back(alloc: Global, bytes: &[u8], value: &Value) -> Result<bool, Memory> {
    match read_value(alloc, bytes) {
        Ok(again) => Ok(again == *value),
        Err(JsonFault::NotJson) => Ok(false),
        Err(JsonFault::Memory) => Err(Memory),
    }
}

/// An object in the order of its keys.
#[test]
fn odd_values(rt: HostRuntime) -> Result<(), Fail> {
    let alloc = rt.alloc();
    let value = odd(alloc)?;
    let bytes = print(alloc, &value)?;
    let want =
        b"{\"\\\"\\\\\\n\\u0001\":false,\"a\":[18446744073709551615,\"\",{}],\"\xc3\xa9\":\"\\u001f\\\"\"}\n";
    assert_eq!(rt; bytes.as_slice(), want.as_slice());
    assert!(rt; is_read_back(alloc, &bytes, &value)?);
    Ok(())
}

#[test]
fn nesting(rt: HostRuntime) -> Result<(), Fail> {
    let alloc = rt.alloc();
    assert!(rt; nests(alloc, 126)?);
    assert!(rt; !nests(alloc, 127)?);
    Ok(())
}
