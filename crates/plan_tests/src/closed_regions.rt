//! Start regions that are closed, and ones beside them that are not by one amount or one constraint.

use closing::closed::closed;
use fixtures::problem_with;
use relax::start::start_region;
use std::alloc::Global;
use std::test::Fail;

/// Machine 0 runs on the node, which has 4, and machine 1 is ready.
const INSTANCE: &str = r#"{"horizon":10,"resources":["cpu"],
"nodes":[{"name":"n0","capacity":{"cpu":4}}],
"machines":[{"name":"v0","state":"running","node":"n0","use":{"cpu":2}},
{"name":"v1","state":"ready","use":{"cpu":2}}],
"constraints":[{"kind":"online","nodes":["n0"]},{"kind":"running","machines":["v1"]},RULES]}"#;

fn is_closed(alloc: Global, rules: &str) -> Result<bool, Fail> {
    let p = problem_with(alloc, INSTANCE, rules)?;
    let g = start_region(alloc, &p)?;
    Ok(closed(&p, &g))
}

#[test]
fn by_amounts(rt: HostRuntime) -> Result<(), Fail> {
    let alloc = rt.alloc();
    let half = r#"{"kind":"overbook","nodes":["n0"],"resource":"cpu","num":3,"den":4}"#;
    let whole = r#"{"kind":"overbook","nodes":["n0"],"resource":"cpu","num":4,"den":4}"#;
    assert!(rt; is_closed(alloc, whole)?);
    assert!(rt; !is_closed(alloc, half)?);
    Ok(())
}

#[test]
fn by_constraints(rt: HostRuntime) -> Result<(), Fail> {
    let alloc = rt.alloc();
    let alone = r#"{"kind":"spread","machines":["v1"]}"#;
    let both = r#"{"kind":"spread","machines":["v0","v1"]}"#;
    assert!(rt; is_closed(alloc, alone)?);
    assert!(rt; !is_closed(alloc, both)?);
    Ok(())
}
