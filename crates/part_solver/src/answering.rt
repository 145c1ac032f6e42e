//! What solved parts say of the whole.
ghost use Rattle.std.specs.Prelude.{◌≡◌, ◌<◌, None, IfOk, IfSome, length};
ghost use Rattle.partition.specs.Prelude.{IsSplitBy, IsUnion};
ghost use Rattle.part_solver.specs.Answers.{IsAnswered, IsSaid, IsTrueOfWhole, text_of};
ghost use Rattle.part_solver.specs.Solved.{are_optimal, first_infeasible as the_first_infeasible, first_without_plan as the_first_without_plan, plans_of as the_plans_of, WereSolved};

use crate::answer::{PartsAnswer, WholeAnswer};
use crate::part::SolvedPart;
use crate::sections::{all_sections, one_section};
use crate::solving::solve_all;
use base::Memory;
use catalogue::Problem;
use cluster::NodeSet;
use partition::SplitProblem;
use slices::Plan;
use solver::Solver;
use std::alloc::Global;

/// The number of the first part that is infeasible.
fn first_infeasible(solved: &[SolvedPart]) -> Option<usize>
    ensures place { result ≡ the_first_infeasible solved.now }
    ensures within { IfSome result (λ i. i < length solved.now) }
{
    solved.iter().position(|part| part.is_infeasible())
}

/// The number of the first part of which no plan was found.
fn first_without_plan(solved: &[SolvedPart]) -> Option<usize>
    ensures place { result ≡ the_first_without_plan solved.now }
    ensures within { IfSome result (λ i. i < length solved.now) }
{
    solved.iter().position(|part| part.has_no_plan())
}

/// Whether optimal plans of all parts were found.
fn all_optimal(solved: &[SolvedPart]) -> bool
    ensures { result ≡ are_optimal solved.now }
{
    solved.iter().all(|part| part.is_optimal())
}

/// The plans that were found of all parts.
fn plans_of(alloc: Global, solved: Vec<SolvedPart>) -> Result<Vec<Plan>, Memory>
    requires { the_first_without_plan solved.items ≡ None }
    ensures { IfOk result (λ plans. plans.items ≡ the_plans_of solved.items) }
{
    let mut plans = Vec::new(alloc);
    for part in solved {
        plans.push(part.into_plan())?;
    }
    Ok(plans)
}

/// The union of the plans that were found of all parts.
fn union(
    alloc: Global,
    p: &Problem,
    groups: &[NodeSet],
    split: &SplitProblem,
    solved: Vec<SolvedPart>,
) -> Result<Plan, Memory>
    requires split { IsSplitBy p.now.given groups.now split.now }
    requires solved { WereSolved p.now.given groups.now solved.items }
    requires feasible { the_first_infeasible solved.items ≡ None }
    requires plans { the_first_without_plan solved.items ≡ None }
    ensures { IfOk result (IsUnion p.now.given groups.now (the_plans_of solved.items)) }
{
    let plans = plans_of(alloc, solved)?;
    split.union(alloc, p, groups, &plans)
}

/// The answer where plans of all parts were found.
fn answer_with_plans(
    alloc: Global,
    p: &Problem,
    groups: &[NodeSet],
    split: &SplitProblem,
    solved: Vec<SolvedPart>,
) -> Result<PartsAnswer, Memory>
    requires split { IsSplitBy p.now.given groups.now split.now }
    requires solved { WereSolved p.now.given groups.now solved.items }
    requires feasible { the_first_infeasible solved.items ≡ None }
    requires plans { the_first_without_plan solved.items ≡ None }
    ensures said { IfOk result (λ a. IsSaid p.now.given groups.now solved.items a.whole) }
    ensures text { IfOk result (λ a. a.certificate.items ≡ text_of a.whole solved.items) }
{
    let certificate = all_sections(alloc, &solved)?;
    let optimal = all_optimal(&solved);
    let plan = union(alloc, p, groups, split, solved)?;
    let whole = if optimal {
        WholeAnswer::Optimal(plan)
    } else {
        WholeAnswer::Valid(plan)
    };
    Ok(PartsAnswer { whole, certificate })
}

/// The answer by solved parts.
fn answer(
    alloc: Global,
    p: &Problem,
    groups: &[NodeSet],
    split: &SplitProblem,
    solved: Vec<SolvedPart>,
) -> Result<PartsAnswer, Memory>
    requires split { IsSplitBy p.now.given groups.now split.now }
    requires solved { WereSolved p.now.given groups.now solved.items }
    ensures said { IfOk result (λ a. IsSaid p.now.given groups.now solved.items a.whole) }
    ensures text { IfOk result (λ a. a.certificate.items ≡ text_of a.whole solved.items) }
{
    if let Some(i) = first_infeasible(&solved) {
        let certificate = one_section(alloc, &solved, i)?;
        return Ok(PartsAnswer {
            whole: WholeAnswer::Infeasible(i),
            certificate,
        });
    }
    if let Some(i) = first_without_plan(&solved) {
        let certificate = one_section(alloc, &solved, i)?;
        return Ok(PartsAnswer {
            whole: WholeAnswer::Unmet(i),
            certificate,
        });
    }
    answer_with_plans(alloc, p, groups, split, solved)
}

/// Solves the parts of a problem in order, each with at most so many decisions, up to the first that is infeasible, and
/// says what that means for the whole.
///
/// A part of which no plan was met does not end it, since a later one may be infeasible. The one error is want of
/// memory.
pub fn solve_parts<S: Solver>(
    alloc: Global,
    solver: &S,
    p: &Problem,
    groups: &[NodeSet],
    split: &SplitProblem,
    budget: u64,
) -> Result<PartsAnswer, Memory>
    requires { IsSplitBy p.now.given groups.now split.now }
    ensures answered { IfOk result (λ a. IsAnswered p.now.given groups.now budget a.whole a.certificate.items) }
    ensures true_of { IfOk result (λ a. IsTrueOfWhole p.now.given a.whole) }
{
    let solved = solve_all(alloc, solver, split, budget)?;
    let a = answer(alloc, p, groups, split, solved)?;
    Ok(a)
}
