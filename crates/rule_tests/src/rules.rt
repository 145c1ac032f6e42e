//! The rules cover all standard kinds, and give the same cuts again after going back.

mod driving;

use driving::run;
use fixtures::problem;
use prop_core::cover::covered;
use prop_core::propagator::Propagator;
use rule_group::rule::GroupRule;
use rule_load::rule::load_rule;
use rule_pair::rule::PairRule;
use rule_place::rule::{ForbiddenRule, NeededRule};
use rule_setload::rule::SetRule;
use std::alloc::Global;
use std::process::Abort;
use std::test::Fail;

/// Machines and nodes in most states, with a constraint of each kind of which a rule speaks.
const INSTANCE: &str =
    r#"{"horizon":8,"resources":["cpu"],"durations":{"migrate":{"base":2},"node_boot":{"base":3}},
"nodes":[{"name":"n0","capacity":{"cpu":4}},{"name":"n1","capacity":{"cpu":6}},
{"name":"n2","online":false,"capacity":{"cpu":4}},{"name":"n3","capacity":{"cpu":4}}],
"machines":[{"name":"v0","state":"running","node":"n0","use":{"cpu":2}},
{"name":"v1","state":"running","node":"n0","use":{"cpu":2}},
{"name":"v2","state":"running","node":"n1","use":{"cpu":1}},
{"name":"v3","state":"ready","use":{"cpu":1}},{"name":"v6","state":"running","node":"n0"}],
"constraints":[{"kind":"spread","machines":["v0","v1"]},{"kind":"ban","machines":["v0"],"nodes":["n2","n3"]},
{"kind":"fence","machines":["v3"],"nodes":["n1","n2"]},{"kind":"gather","machines":["v2","v3"]},
{"kind":"lonely","machines":["v1"]},{"kind":"among","machines":["v0","v2"],"groups":[["n0"],["n1"]]},
{"kind":"split","parts":[["v1"],["v3"]]},{"kind":"root","machines":["v2"]},
{"kind":"precedence","before":"v6","after":"v1"},{"kind":"serialize","machines":["v0","v1"]},
{"kind":"resourceCapacity","nodes":["n1"],"resource":"cpu","amount":5},
{"kind":"runningCapacity","nodes":["n2"],"amount":1},{"kind":"maxOnline","nodes":["n0","n1","n2","n3"],"amount":3},
{"kind":"online","nodes":["n0","n1","n2"]},{"kind":"running","machines":["v3"]},{"kind":"ready","machines":["v6"]}]}"#;

/// All of them cover the standard kinds, and without any one they do not.
fn check_cover(rt: &impl Abort, rules: &mut Vec<Box<dyn Propagator>>) -> Result<(), Fail> {
    assert_eq!(rt; covered(rules), true);
    for _ in 0..rules.len() {
        if let Some(rule) = rules.pop() {
            assert_eq!(rt; covered(rules), false);
            rules.insert(0, rule)?;
        }
    }
    Ok(())
}

/// The rules settle the region with cuts, and with the same ones once they are back at the mark.
fn check_again(
    rt: &impl Abort,
    alloc: Global,
    rules: &mut Vec<Box<dyn Propagator>>,
) -> Result<(), Fail> {
    let p = problem(alloc, INSTANCE)?;
    let cuts = run(alloc, &p, rules)?;
    assert!(rt; cuts.first.len() > 9);
    assert_eq!(rt; cuts.first.as_slice(), cuts.again.as_slice());
    Ok(())
}

#[test]
fn rules_go_back(rt: HostRuntime) -> Result<(), Fail> {
    let alloc = rt.alloc();
    let mut rules: Vec<Box<dyn Propagator>> = Vec::new(alloc);
    rules.push(Box::new(alloc, PairRule::new(alloc))?)?;
    rules.push(Box::new(alloc, ForbiddenRule::new(alloc))?)?;
    rules.push(Box::new(alloc, NeededRule::new(alloc))?)?;
    rules.push(Box::new(alloc, GroupRule::new(alloc))?)?;
    rules.push(Box::new(alloc, SetRule::new(alloc))?)?;
    rules.push(Box::new(alloc, load_rule(alloc))?)?;
    check_cover(&rt, &mut rules)?;
    check_again(&rt, alloc, &mut rules)
}
