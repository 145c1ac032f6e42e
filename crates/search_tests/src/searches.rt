//! What searches count and write, and how they end where something fails.
ghost use Rattle.prop_core.specs.Lists.{Covered};

mod ends;
mod problems;

use branching::brancher::Brancher;
use branching::least_start::LeastStart;
use catalogue::Problem;
use cert_write::CertWriter;
use ends::Ends;
use fixtures::problem;
use plan_io::{DeskMem, OutFault};
use problems::{CROWDED, ROOMY, STEADY};
use prop_core::cover::covered;
use prop_core::propagator::Propagator;
use search::solve;
use std::alloc::Global;
use std::process::Abort;
use std::test::Fail;

/// Searches, and leaves the certificate on the desk.
fn searched(
    alloc: Global,
    p: &Problem,
    budget: u64,
    rules: &mut Vec<Box<dyn Propagator>>,
    brancher: &mut Box<dyn Brancher>,
    desk: &mut DeskMem,
) -> Result<(), OutFault>
    requires { Covered (λ b. meaning b) rules.old.items }
{
    let mut out = CertWriter::new(alloc, desk, "c")?;
    solve(alloc, p, budget, rules, brancher, desk, &mut out)?;
    Ok(())
}

/// How many cuts and fails the propagators have answered.
fn given(rules: &Vec<Box<dyn Propagator>>) -> u64 {
    let mut sum: u64 = 0;
    for rule in rules {
        sum = sum.saturating_add(rule.given());
    }
    sum
}

/// A search, and what was written.
#[derive(Drop)]
struct Run {
    fault: Option<OutFault>,
    desk: DeskMem,
    /// How many cuts and fails the propagators have answered in it.
    given: u64,
}

impl Run {
    /// The bytes of the certificate.
    fn text(&self) -> &[u8] {
        self.desk.get("c").unwrap_or_default()
    }

    /// How many lines are cuts, or fails by another reason than empty and bound.
    fn answered(&self) -> u64 {
        let mut count: u64 = 0;
        for line in self.text().split(|byte| *byte == b'\n') {
            let is_cut = line.starts_with(b"cut ");
            let is_fail = line.starts_with(b"fail ");
            let is_ours = line.starts_with(b"fail empty ") || line.starts_with(b"fail bound");
            if is_cut || is_fail && !is_ours {
                count = count.saturating_add(1);
            }
        }
        count
    }
}

/// Searches a problem on a desk.
fn run_on(
    alloc: Global,
    p: &Problem,
    budget: u64,
    rules: &mut Vec<Box<dyn Propagator>>,
    brancher: &mut Box<dyn Brancher>,
    mut desk: DeskMem,
) -> Run {
    let before = given(rules);
    let mut fault = None;
    if covered(rules) {
        fault = searched(alloc, p, budget, rules, brancher, &mut desk).err();
    }
    Run {
        fault,
        desk,
        given: given(rules).saturating_sub(before),
    }
}

/// Searches an instance. The desk's call 0 creates the file, call 1 appends the header; those with these numbers fail.
fn run_search(
    alloc: Global,
    instance: &str,
    budget: u64,
    rules: &mut Vec<Box<dyn Propagator>>,
    fails: Vec<u64>,
) -> Result<Run, Fail> {
    let desk = DeskMem::new(fails);
    let p = problem(alloc, instance)?;
    let mut brancher: Box<dyn Brancher> = Box::new(alloc, LeastStart)?;
    Ok(run_on(alloc, &p, budget, rules, &mut brancher, desk))
}

/// How many cuts are counted and written, where these are as many.
fn counted(
    alloc: Global,
    instance: &str,
    budget: u64,
    rules: &mut Vec<Box<dyn Propagator>>,
) -> Result<Option<u64>, Fail> {
    let run = run_search(alloc, instance, budget, rules, Vec::new(alloc))?;
    Ok(if run.answered() == run.given {
        Some(run.given)
    } else {
        None
    })
}

/// The counts of one propagator.
fn check_counts(
    rt: &impl Abort,
    alloc: Global,
    rules: &mut Vec<Box<dyn Propagator>>,
) -> Result<(), Fail> {
    assert_eq!(rt; counted(alloc, STEADY, 0, rules)?, Some(0));
    assert_eq!(rt; counted(alloc, CROWDED, 9, rules)?, Some(1));
    assert_eq!(rt; counted(alloc, ROOMY, 0, rules)?, Some(8));
    assert_eq!(rt; counted(alloc, ROOMY, 1, rules)?, Some(13));
    assert_eq!(rt; counted(alloc, ROOMY, 2, rules)?, Some(10));
    assert_eq!(rt; counted(alloc, ROOMY, 9, rules)?, Some(10));
    Ok(())
}

/// The counts of two, of which the one that is asked first leaves the other nothing to cut.
fn check_sum(
    rt: &impl Abort,
    alloc: Global,
    rules: &mut Vec<Box<dyn Propagator>>,
) -> Result<(), Fail> {
    let before = given(rules);
    assert_eq!(rt; counted(alloc, ROOMY, 9, rules)?, Some(10));
    assert_eq!(rt; given(rules).saturating_sub(before), 10);
    Ok(())
}

#[test]
fn as_many_are_written(rt: HostRuntime) -> Result<(), Fail> {
    let alloc = rt.alloc();
    let mut rules: Vec<Box<dyn Propagator>> = Vec::new(alloc);
    rules.push(Box::new(alloc, Ends::new())?)?;
    check_counts(&rt, alloc, &mut rules)?;
    rules.insert(0, Box::new(alloc, Ends::new())?)?;
    check_sum(&rt, alloc, &mut rules)
}

#[test]
fn a_question_without_memory_ends_the_search(rt: HostRuntime) -> Result<(), Fail> {
    let alloc = rt.alloc();
    let mut rules: Vec<Box<dyn Propagator>> = Vec::new(alloc);
    rules.push(Box::new(alloc, Ends::with_questions(2))?)?;
    let run = run_search(alloc, ROOMY, 9, &mut rules, Vec::new(alloc))?;
    assert_eq!(rt; run.fault, Some(OutFault::Memory));
    Ok(())
}

#[test]
fn each_propagator_is_posted_once(rt: HostRuntime) -> Result<(), Fail> {
    let alloc = rt.alloc();
    let mut rules: Vec<Box<dyn Propagator>> = Vec::new(alloc);
    rules.push(Box::new(alloc, Ends::new())?)?;
    rules.push(Box::new(alloc, Ends::silent(1))?)?;
    let beside = run_search(alloc, ROOMY, 9, &mut rules, Vec::new(alloc))?;
    assert_eq!(rt; beside.fault, None);
    assert!(rt;
        beside
            .text()
            .ends_with(b"\nplan 1\nfail bound\nfail bound\nend optimal 1\n")
    );
    assert_eq!(rt; beside.answered(), 10);
    Ok(())
}

#[test]
fn a_count_stops_at_its_end(rt: HostRuntime) -> Result<(), Fail> {
    let alloc = rt.alloc();
    let mut rules: Vec<Box<dyn Propagator>> = Vec::new(alloc);
    rules.push(Box::new(alloc, Ends::with_given(u64::MAX - 3))?)?;
    let run = run_search(alloc, ROOMY, 9, &mut rules, Vec::new(alloc))?;
    assert_eq!(rt; run.answered(), 10);
    assert_eq!(rt; run.given, 3);
    Ok(())
}

#[test]
fn a_cut_that_is_not_written_is_counted(rt: HostRuntime) -> Result<(), Fail> {
    let alloc = rt.alloc();
    let mut rules: Vec<Box<dyn Propagator>> = Vec::new(alloc);
    rules.push(Box::new(alloc, Ends::new())?)?;
    let run = run_search(alloc, ROOMY, 9, &mut rules, vec![in alloc; 4]?)?;
    assert_eq!(rt; run.fault, Some(OutFault::Failed));
    assert_eq!(rt; run.answered(), 1);
    assert_eq!(rt; run.given, 2);
    Ok(())
}
