//! Strict verdicts without propagators: the exact look alone decides.
ghost use Rattle.std.specs.Prelude.{IfSome};
ghost use Rattle.slices.specs.Plans.{IsPlanOf};

use catalogue::Problem;
use cert_check::{CheckFault, Verdict, check};
use cert_model::why::Why;
use cluster::{Choice, NodeId, Place};
use fixtures::problem;
use plan_io::DeskSure;
use prop_core::propagator::Propagator;
use slices::Plan;
use slices::plan::is_plan;
use std::alloc::Global;
use std::test::Fail;
use trees::Goal;

/// A ready machine that is to run, and a node that may shut down; actions last 1, and all end by 3.
const INSTANCE: &str = r#"{"horizon":3,"resources":["cpu"],
"nodes":[{"name":"n","capacity":{"cpu":1}}],
"machines":[{"name":"v","state":"ready","use":{"cpu":1}}],
"constraints":[{"kind":"running","machines":["v"]}]}"#;

const BOOT: Choice = Choice::Act {
    place: Place::At(NodeId(0)),
    start: 0,
};

fn desk_with(alloc: Global, text: &str) -> Result<DeskSure, Fail> {
    let mut desk = DeskSure::new(alloc);
    desk.put("c", text.as_bytes())?;
    Ok(desk)
}

fn verdict(
    alloc: Global,
    p: &Problem,
    plan: Option<&Plan>,
    text: &str,
) -> Result<Result<Verdict, CheckFault>, Fail>
    requires { IfSome plan (λ a. IsPlanOf p.now.given a.now) }
{
    let mut desk = desk_with(alloc, text)?;
    let mut none: Vec<Box<dyn Propagator>> = Vec::new(alloc);
    Ok(check(alloc, p, plan, &mut desk, "c", true, &mut none))
}

fn without_plan(alloc: Global, text: &str) -> Result<Result<Verdict, CheckFault>, Fail> {
    let p = problem(alloc, INSTANCE)?;
    verdict(alloc, &p, None, text)
}

/// With the plan that boots the machine at once.
fn with_plan(alloc: Global, text: &str) -> Result<Result<Verdict, CheckFault>, Fail> {
    let p = problem(alloc, INSTANCE)?;
    let choices = Vec::from_slice(alloc, &[BOOT, Choice::Idle])?;
    if !is_plan(&p, &choices) {
        return Err("the choices are no plan".into());
    }
    let plan = Plan::idle_or(&p, choices);
    verdict(alloc, &p, Some(&plan), text)
}

const OPEN: &str = "btrplan certificate 1\nleft\nend undecided 0\n";

/// At 3 the machine surely runs, so the node may not shut down.
const CLOSED: &str = "btrplan certificate 1\ncut n from - 0 usable 3 v n\nleft\nend undecided 0\n";

/// A region is left only where it is below each plan.
const TOO_DEAR: &str =
    "btrplan certificate 1\ncut n from - 0 usable 3 v n\ndecide v upto n 0\nplan 1\nleft\nend undecided 1\n";

const CHEAPEST: &str =
    "btrplan certificate 1\ncut n from - 0 usable 3 v n\ndecide v upto n 0\nplan 1\nfail bound\nend optimal 1\n";

#[test]
fn left_without_a_plan(rt: HostRuntime) -> Result<(), Fail> {
    let open = without_plan(rt.alloc(), OPEN)?;
    assert_eq!(rt;
        open,
        Ok(Verdict::No {
            line: 2,
            why: Why::Lean
        })
    );
    let closed = without_plan(rt.alloc(), CLOSED)?;
    let goal = Goal::Undecided(0);
    assert_eq!(rt;
        closed,
        Ok(Verdict::Yes {
            goal,
            least: Some(1)
        })
    );
    Ok(())
}

#[test]
fn beside_a_plan(rt: HostRuntime) -> Result<(), Fail> {
    let dear = with_plan(rt.alloc(), TOO_DEAR)?;
    assert_eq!(rt;
        dear,
        Ok(Verdict::No {
            line: 5,
            why: Why::Lean
        })
    );
    let cheapest = with_plan(rt.alloc(), CHEAPEST)?;
    let goal = Goal::Optimal(1);
    assert_eq!(rt; cheapest, Ok(Verdict::Yes { goal, least: None }));
    Ok(())
}
