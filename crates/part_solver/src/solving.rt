//! The parts of a problem are solved, one after the other.
ghost use Rattle.std.specs.Prelude.{◌≡◌, IfOk, List};
ghost use Rattle.cluster.specs.declared.sets.NodeSet.{NodeSet};
ghost use Rattle.partition.specs.Prelude.{IsSplitBy};
ghost use Rattle.solver.specs.Prelude.{Instance};
ghost use Rattle.part_solver.specs.Solved.{AreSolved, IsSolved};

use crate::part::SolvedPart;
use base::Memory;
use catalogue::Problem;
use partition::SplitProblem;
use solver::{Solver, solve_to_text};
use std::alloc::Global;

/// Solves one part, with at most so many decisions.
fn solve_part<S: Solver>(
    alloc: Global,
    solver: &S,
    part: &Problem,
    budget: u64,
) -> Result<SolvedPart, Memory>
    ensures { IfOk result (IsSolved part.now.given budget) }
{
    let (found, certificate) = solve_to_text(alloc, solver, part, budget)?;
    Ok(SolvedPart::new(found, certificate))
}

/// Solves the parts in order, each with at most so many decisions, up to the first that is infeasible. They are the parts
/// of any problem and groups that are split so.
pub(crate) fn solve_all<S: Solver>(
    alloc: Global,
    solver: &S,
    split: &SplitProblem,
    budget: u64,
) -> Result<Vec<SolvedPart>, Memory>
    ensures { IfOk result (λ solved. (p : Instance) (groups : List NodeSet) → IsSplitBy p groups split.now → AreSolved p groups budget solved.items) }
{
    let parts = split.parts();
    let mut solved = Vec::new(alloc);
    for i in 0..parts.len() {
        let part = solve_part(alloc, solver, &parts[i], budget)?;
        let ends = part.is_infeasible();
        solved.push(part)?;
        if ends {
            return Ok(solved);
        }
    }
    Ok(solved)
}
