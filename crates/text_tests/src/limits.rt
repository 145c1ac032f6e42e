//! The longest texts, which take too long in a row of commands.

use instance_json::read_instance;
use instance_make::generate;
use plan_json::read_plan;
use std::alloc::Global;
use std::test::Fail;

/// The fault of so many blanks as an instance.
fn instance_line(alloc: Global, count: usize) -> Result<String, Fail> {
    let text = " ".repeat(alloc, count)?;
    match read_instance(alloc, text.as_bytes()) {
        Ok(_) => Err(Fail::new("an instance")),
        Err(fault) => Ok(fault.text(alloc)?),
    }
}

/// The fault of so many blanks as a plan.
fn plan_line(alloc: Global, count: usize) -> Result<String, Fail> {
    let p = generate(alloc, 1)?;
    let text = " ".repeat(alloc, count)?;
    match read_plan(alloc, &p, text.as_bytes()) {
        Ok(_) => Err(Fail::new("a plan")),
        Err(fault) => Ok(fault.text(alloc, &p)?),
    }
}

#[test]
fn longest_instances(rt: HostRuntime) -> Result<(), Fail> {
    assert_eq!(rt; instance_line(rt.alloc(), 67_108_864)?.as_str(), "not json");
    assert_eq!(rt; instance_line(rt.alloc(), 67_108_865)?.as_str(), "too long");
    Ok(())
}

#[test]
fn a_plan_that_is_too_long(rt: HostRuntime) -> Result<(), Fail> {
    assert_eq!(rt; plan_line(rt.alloc(), 67_108_865)?.as_str(), "too long");
    Ok(())
}
