//! Plans by the brancher that takes the least start, and by a solver without memory. Those of the program are rows.

use crate::tests::runs_on;
use crate::tests::solvers::{ByLeastStart, NoMemory};
use commands::status::Status;
use fixtures::instances::{
    ALONE, APART, APART_ALWAYS, APART_AT_THE_END, BANNED, CROSSED, CROWDED, HALVED, LIT, NO_TIME,
    OFFLINE, OVERBOOKED, OVERLOADED, RAISED, SHARED_ALWAYS, SHARED_AT_THE_END, SWAP, TURNS,
    UNFENCED,
};
use plan_io::{DeskMem, SinkMem};
use std::alloc::Global;
use std::process::Abort;
use std::test::Fail;

/// What a plan ends with, and what it prints with the check of its certificate.
type Wanted<'a> = (Status, &'a [u8]);

/// Plans an instance by the words and checks the certificate strictly, on the same desk and
/// sink, and sees the status of the plan and what is printed by both.
fn plans_and_checks(
    rt: &impl Abort,
    alloc: Global,
    words: &str,
    instance: &[u8],
    (status, printed): Wanted<'_>,
) -> Result<(), Fail> {
    let mut desk = DeskMem::new(Vec::new(alloc));
    desk.put("i", instance)?;
    let mut out = SinkMem::new(Vec::new(alloc));
    let planned = runs_on(alloc, words, &mut desk, &mut out, &ByLeastStart)?;
    let checked = runs_on(alloc, "check i p c strict", &mut desk, &mut out, &NoMemory)?;
    assert_eq!(rt; out.written(), printed);
    assert_eq!(rt; (planned, checked), (status, Status::Good));
    assert_eq!(rt; desk.get("i"), Some(instance));
    Ok(())
}

/// The same for each of these instances.
fn all_end(
    rt: &impl Abort,
    alloc: Global,
    words: &str,
    instances: &[&[u8]],
    wanted: Wanted<'_>,
) -> Result<(), Fail> {
    for instance in instances {
        plans_and_checks(rt, alloc, words, instance, wanted)?;
    }
    Ok(())
}

/// No plan of these instances costs less.
fn cost(rt: &impl Abort, alloc: Global, instances: &[&[u8]], printed: &[u8]) -> Result<(), Fail> {
    all_end(rt, alloc, "plan i p c", instances, (Status::Good, printed))
}

#[test]
fn plans_without_a_search(rt: HostRuntime) -> Result<(), Fail> {
    let free = [ALONE, UNFENCED, OFFLINE, OVERBOOKED];
    cost(&rt, rt.alloc(), &free, b"optimal 0\nyes optimal 0\n")
}

#[test]
fn plans_of_one_action(rt: HostRuntime) -> Result<(), Fail> {
    let once = [BANNED, TURNS, SHARED_AT_THE_END, LIT];
    cost(&rt, rt.alloc(), &[RAISED], b"optimal 1\nyes optimal 1\n")?;
    cost(&rt, rt.alloc(), &once, b"optimal 3\nyes optimal 3\n")
}

#[test]
fn plans_of_two_actions(rt: HostRuntime) -> Result<(), Fail> {
    let in_turn = [APART_ALWAYS, SWAP];
    cost(
        &rt,
        rt.alloc(),
        &[APART_AT_THE_END],
        b"optimal 6\nyes optimal 6\n",
    )?;
    cost(&rt, rt.alloc(), &in_turn, b"optimal 9\nyes optimal 9\n")
}

#[test]
fn no_plan(rt: HostRuntime) -> Result<(), Fail> {
    let instances = [
        APART,
        HALVED,
        SHARED_ALWAYS,
        CROSSED,
        OVERLOADED,
        CROWDED,
        NO_TIME,
    ];
    let wanted = (Status::Negative, b"infeasible\nyes infeasible\n".as_slice());
    all_end(&rt, rt.alloc(), "plan i p c", &instances, wanted)
}

/// Also with as many decisions as there are valid plans, and with one more.
#[test]
fn budgets_that_are_enough(rt: HostRuntime) -> Result<(), Fail> {
    let alloc = rt.alloc();
    let wanted = (Status::Good, b"optimal 3\nyes optimal 3\n".as_slice());
    all_end(&rt, alloc, "plan i p c budget 1", &[BANNED], wanted)?;
    all_end(&rt, alloc, "plan i p c budget 16", &[BANNED], wanted)?;
    all_end(&rt, alloc, "plan i p c budget 17", &[BANNED], wanted)?;
    all_end(
        &rt,
        alloc,
        "plan i p c budget 18446744073709551615",
        &[LIT],
        wanted,
    )
}

#[test]
fn no_budget(rt: HostRuntime) -> Result<(), Fail> {
    let alloc = rt.alloc();
    let words = "plan i p c budget 0";
    let least_3 = b"undecided least 3\nyes undecided 0 least 3\n".as_slice();
    let least_0 = b"undecided least 0\nyes undecided 0 least 0\n".as_slice();
    let none = b"infeasible\nyes infeasible\n".as_slice();
    all_end(&rt, alloc, words, &[BANNED], (Status::Undecided, least_3))?;
    all_end(&rt, alloc, words, &[LIT], (Status::Undecided, least_0))?;
    all_end(&rt, alloc, words, &[APART], (Status::Negative, none))?;
    let free = b"optimal 0\nyes optimal 0\n".as_slice();
    all_end(&rt, alloc, words, &[ALONE], (Status::Good, free))
}

#[test]
fn a_budget_of_one(rt: HostRuntime) -> Result<(), Fail> {
    let printed = b"undecided best 6 least 3\nyes undecided 1 least 3\n".as_slice();
    let words = "plan i p c budget 1";
    all_end(&rt, rt.alloc(), words, &[LIT], (Status::Undecided, printed))
}

#[test]
fn no_memory_for_a_search(rt: HostRuntime) -> Result<(), Fail> {
    let alloc = rt.alloc();
    let mut desk = DeskMem::new(Vec::new(alloc));
    desk.put("i", SWAP)?;
    desk.put("c", b"old")?;
    let mut out = SinkMem::new(Vec::new(alloc));
    let status = runs_on(alloc, "plan i p c", &mut desk, &mut out, &NoMemory)?;
    assert_eq!(rt; (status, out.written()), (Status::Memory, b"".as_slice()));
    assert_eq!(rt;
        (desk.get("p"), desk.get("c")),
        (None, Some(b"old".as_slice()))
    );
    Ok(())
}
