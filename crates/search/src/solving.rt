//! The whole search.
ghost use Rattle.std.specs.Prelude.{◌≡◌, ◌∷◌, [], Some, IfOk, IfSome, IsTrue, MatchOption};
ghost use Rattle.cert_text.specs.Prelude.{IsGoal};
ghost use Rattle.search.specs.Prelude.{bytes_of, Covered, found_of, goal_in, Goes, HaveChoices, IsElement, IsPlanOf, IsShown, IsSized, IsStayed, IsTrueOf, LeavesLines, LeavesText, MayStay, none_yet, Pairs, plan_in, SameCover, sets, start_sets, WritesOn};

use crate::found::Found;
use crate::ground::Ground;
use crate::looks::fail;
use crate::progress::Progress;
use crate::rounds::run;
use crate::staying::{stay, staying_plan};
use branching::brancher::Brancher;
use catalogue::Problem;
use cert_write::CertWriter;
use cluster::{Element, NodeId, VmId};
use domains::Region;
use plan_io::{Desk, OutFault};
use prop_core::all::post_all;
use prop_core::propagator::Propagator;
use reasons::Reason;
use relax::start::start_region;
use slices::plan::cost;
use std::alloc::Global;
use trees::Goal;

// the first element without a choice
fn first_empty(p: &Problem, g: &Region) -> Option<Element>
    requires { IsSized p.now.given g.now }
    ensures { MatchOption result (HaveChoices p.now.given (sets g.now)) (λ x. IsElement p.now.given x × (sets g.now x ≡ [])) }
{
    for v in 0..p.cluster().machines().len() {
        let machine = Element::Vm(VmId(v as u32));
        if g.domain(machine).is_empty() {
            return Some(machine);
        }
    }
    for n in 0..p.cluster().nodes().len() {
        let node = Element::Node(NodeId(n as u32));
        if g.domain(node).is_empty() {
            return Some(node);
        }
    }
    None
}

/// Writes the lines of one tree over all legal choices.
fn write_tree<D: Desk>(
    alloc: Global,
    p: &Problem,
    budget: u64,
    rules: &mut Vec<Box<dyn Propagator>>,
    brancher: &mut Box<dyn Brancher>,
    desk: &mut D,
    out: &mut CertWriter,
) -> Result<Progress, OutFault>
    requires covered { Covered (λ b. meaning b) rules.old.items }
    requires writes { IsTrue (D.writes out.old) }
    requires current { D.current desk.old ≡ Some out.old }
    ensures writes { WritesOn D.tells D.files D.current D.read_faults D.write_faults desk.old desk.new out.old out.new (LeavesLines p.now.given D.tells) result }
    ensures covers { Pairs (λ b. meaning b) SameCover rules.old.items rules.new.items }
    ensures goes { IfOk result (λ progress. Goes (λ b. meaning b) p.now.given budget D.tells none_yet progress (bytes_of (D.files desk.old out.old)) (bytes_of (D.files desk.new out.old)) rules.old.items rules.new.items (start_sets p.now.given ∷ []) []) }
{
    let start = start_region(alloc, p)?;
    post_all(p, &start, rules)?;
    let mut ground = Ground::new(alloc, p, start)?;
    let mut progress = Progress {
        spent: 0,
        best: None,
        least: None,
    };
    if let Some(x) = first_empty(p, ground.trail.region()) {
        fail(p, Some(x), Reason::Empty(x), brancher, desk, out)?;
        return Ok(progress);
    }
    run(
        alloc,
        p,
        budget,
        &mut ground,
        &mut progress,
        rules,
        brancher,
        desk,
        out,
    )?;
    Ok(progress)
}

// the answer, by what was kept
fn found_of(progress: Progress) -> Found
    ensures { result ≡ found_of progress.best progress.least }
{
    let Some(sum) = progress.least else {
        return match progress.best {
            None => Found::Infeasible,
            Some(best) => Found::Optimal(best.plan),
        };
    };
    match progress.best {
        None => Found::Undecided {
            best: None,
            least: sum,
        },
        Some(best) => Found::Undecided {
            best: Some(best.plan),
            least: sum.min(best.cost),
        },
    }
}

// the goal of an answer
fn goal_of(p: &Problem, budget: u64, found: &Found) -> Goal
    requires { IfSome (plan_in found.now) (IsPlanOf p.now.given) }
    ensures is { result ≡ goal_in p.now.given budget found.now }
    ensures fits { IsGoal result }
{
    match found {
        Found::Optimal(plan) => Goal::Optimal(cost(p, plan)),
        Found::Infeasible => Goal::Infeasible,
        Found::Undecided { .. } => Goal::Undecided(budget),
    }
}

/// Writes one tree and its end line, and answers what it shows.
fn search<D: Desk>(
    alloc: Global,
    p: &Problem,
    budget: u64,
    rules: &mut Vec<Box<dyn Propagator>>,
    brancher: &mut Box<dyn Brancher>,
    desk: &mut D,
    out: &mut CertWriter,
) -> Result<Found, OutFault>
    requires covered { Covered (λ b. meaning b) rules.old.items }
    requires writes { IsTrue (D.writes out.old) }
    requires current { D.current desk.old ≡ Some out.old }
    ensures writes { WritesOn D.tells D.files D.current D.read_faults D.write_faults desk.old desk.new out.old out.new (LeavesText p.now.given D.tells) result }
    ensures covers { Pairs (λ b. meaning b) SameCover rules.old.items rules.new.items }
    ensures shown { IfOk result (IsShown (λ b. meaning b) p.now.given budget D.tells (bytes_of (D.files desk.old out.old)) (D.files desk.new out.old) rules.old.items rules.new.items) }
    ensures true_of { IfOk result (IsTrueOf p.now.given budget) }
{
    let progress = write_tree(alloc, p, budget, rules, brancher, desk, out)?;
    let found = found_of(progress);
    out.end(desk, goal_of(p, budget, &found))?;
    Ok(found)
}

/// Searches for a cheapest valid plan with at most so many decisions, and appends to the certificate the
/// lines of one tree that shows the answer, each when it is found, and its end line.
///
/// Where the plan in which nothing is done is legal and valid, it is answered before any propagator is
/// asked. `Failed` only where the desk's count of failed writes rose, `Memory` for want of memory: the file
/// then has its old bytes and a prefix of such lines, and the propagators are to be posted before they are
/// used again.
pub fn solve<D: Desk>(
    alloc: Global,
    p: &Problem,
    budget: u64,
    rules: &mut Vec<Box<dyn Propagator>>,
    brancher: &mut Box<dyn Brancher>,
    desk: &mut D,
    out: &mut CertWriter,
) -> Result<Found, OutFault>
    requires covered { Covered (λ b. meaning b) rules.old.items }
    requires writes { IsTrue (D.writes out.old) }
    requires current { D.current desk.old ≡ Some out.old }
    ensures writes { WritesOn D.tells D.files D.current D.read_faults D.write_faults desk.old desk.new out.old out.new (LeavesText p.now.given D.tells) result }
    ensures covers { Pairs (λ b. meaning b) SameCover rules.old.items rules.new.items }
    ensures shown { IfOk result (IsShown (λ b. meaning b) p.now.given budget D.tells (bytes_of (D.files desk.old out.old)) (D.files desk.new out.old) rules.old.items rules.new.items) }
    ensures true_of { IfOk result (IsTrueOf p.now.given budget) }
    ensures stayed { MayStay p.now.given → IfOk result (IsStayed p.now.given D.tells (bytes_of (D.files desk.old out.old)) (D.files desk.new out.old)) }
{
    if let Some(plan) = staying_plan(alloc, p)? {
        let found = stay(p, plan, desk, out)?;
        return Ok(found);
    }
    search(alloc, p, budget, rules, brancher, desk, out)
}
