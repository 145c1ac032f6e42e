//! Values by paths whose text is there, and calls by lent paths that no reader makes.

use json_walk::{
    Keys, PathRef, PathText, WalkFault, field, field_at, flag, flag_at, list, list_field, number,
    only, read_value, text, text_field,
};
use serde_json::Value;
use std::alloc::{AllocError, Global};
use std::test::Fail;

fn line(alloc: Global, answer: Result<u64, WalkFault>) -> Result<String, AllocError> {
    match answer {
        Ok(n) => format!(in alloc; "{n}"),
        Err(WalkFault::Memory) => String::from_str(alloc, "memory"),
        Err(WalkFault::Bad(fault)) => {
            format!(in alloc; "{} {}", fault.path.as_text(), fault.kind.as_text())
        }
    }
}

/// The length of the first name.
fn first_name(alloc: Global, value: &Value) -> Result<u64, WalkFault> {
    let root = PathText::root(alloc);
    let path = root.key("names")?;
    let names = list(alloc, field(alloc, value, &root, "names")?, &path)?;
    match names.first() {
        None => Ok(0),
        Some(name) => Ok(text(alloc, name, &path.item(0)?)?.len() as u64),
    }
}

fn only_these(alloc: Global, value: &Value) -> Result<(), WalkFault> {
    let root = PathText::root(alloc);
    flag(alloc, field(alloc, value, &root, "on")?, &root.key("on")?)?;
    let mut keys = Keys::new(alloc);
    keys.push("names")?;
    keys.push("on")?;
    only(alloc, value, &root, &keys)
}

fn by_texts(alloc: Global, value: &Value) -> Result<u64, WalkFault> {
    let length = first_name(alloc, value)?;
    only_these(alloc, value)?;
    Ok(length)
}

/// The line of a text.
fn line_of(alloc: Global, text: &str) -> Result<String, Fail> {
    match read_value(alloc, text.as_bytes()) {
        Ok(value) => Ok(line(alloc, by_texts(alloc, &value))?),
        Err(_) => Err(Fail::new("no value")),
    }
}

/// Texts with their lines.
const LINES: &str = r#"{"on":true,"names":["ab"]} => 2
{"names":1,"names":[],"on":false} => 0
[] => $ wrong kind
{} => names missing
{"names":{}} => names wrong kind
{"names":[null]} => names[0] wrong kind
{"names":[],"z":1} => on missing
{"names":[],"on":1,"z":1} => on wrong kind
{"names":[],"on":true,"z":1} => $ unknown"#;

#[test]
fn first_faults(rt: HostRuntime) -> Result<(), Fail> {
    for case in LINES.lines() {
        if let Some((text, want)) = case.split_once(" => ") {
            assert_eq!(rt; line_of(rt.alloc(), text)?.as_str(), want, "at {text}");
        }
    }
    Ok(())
}

/// By lent paths: how many items there are, how long the text is, and the flag.
fn by_lent(alloc: Global, value: &Value) -> Result<(usize, usize, bool), WalkFault> {
    let root = PathRef::Root;
    let list = list_field(alloc, value, &root, "names")?.len();
    let text = text_field(alloc, value, &root, "state")?.len();
    let flag = flag_at(alloc, field_at(alloc, value, &root, "on")?, &root.key("on"))?;
    Ok((list, text, flag))
}

#[test]
fn lent_paths(rt: HostRuntime) -> Result<(), Fail> {
    let value = read_value(rt.alloc(), br#"{"names":[1,2],"state":"off","on":true}"#)?;
    assert!(rt; by_lent(rt.alloc(), &value).is_ok_and(|found| found == (2, 3, true)));
    Ok(())
}

/// No command reads a number of this size.
#[test]
fn the_greatest_number(rt: HostRuntime) -> Result<(), Fail> {
    let value = read_value(rt.alloc(), b"18446744073709551615")?;
    let root = PathText::root(rt.alloc());
    let read = number(rt.alloc(), &value, &root, 0, u64::MAX);
    assert!(rt; read.is_ok_and(|n| n == u64::MAX));
    assert_eq!(rt; root.key("groups")?.item(2)?.as_text(), "groups[2]");
    Ok(())
}
