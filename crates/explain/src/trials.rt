//! Searches of a problem, whole and without one of its constraints.
ghost use Rattle.std.specs.Prelude.{◌≡◌, IfOk};
ghost use Rattle.explain.specs.Prelude.{AreNeeded, AreNumbers, LossGives, RoundGives, TrialGives};

use crate::subs::{sub_problem, without};
use base::Memory;
use catalogue::Problem;
use search::Found;
use slices::Plan;
use slices::plan::cost;
use solver::{Solver, solve_to_text};
use std::alloc::Global;

/// What a search says of a problem.
#[derive(Drop)]
pub(crate) enum Trial {
    /// This plan is valid.
    Feasible(Plan),
    /// No plan is valid, as this certificate shows.
    Infeasible(Vec<u8>),
    /// The budget was spent before a valid plan was met. The certificate shows how far the search came.
    Undecided(Vec<u8>),
}

/// What becomes of a list of constraints where one is left out.
#[derive(Drop)]
pub(crate) enum Loss {
    /// There is a valid plan, of this cost.
    Needed(u64),
    /// There is still no valid plan.
    Lost {
        fewer: Vec<u32>,
        certificate: Vec<u8>,
    },
    /// The budget was spent.
    Open {
        fewer: Vec<u32>,
        certificate: Vec<u8>,
    },
}

/// How the trials of one list of constraints end.
#[derive(Drop)]
pub(crate) enum Round {
    /// Each is needed.
    AllNeeded,
    /// This one is not: there is no valid plan without it.
    Lost {
        c: u32,
        fewer: Vec<u32>,
        certificate: Vec<u8>,
    },
    /// Without one of them the budget was spent.
    Open {
        fewer: Vec<u32>,
        certificate: Vec<u8>,
    },
}

/// Searches once. A plan that was met is enough.
pub(crate) fn search<S: Solver>(
    alloc: Global,
    solver: &S,
    p: &Problem,
    budget: u64,
) -> Result<Trial, Memory>
    ensures { IfOk result (TrialGives p.now.given budget) }
{
    let (found, certificate) = solve_to_text(alloc, solver, p, budget)?;
    Ok(match found {
        Found::Optimal(plan) => Trial::Feasible(plan),
        Found::Infeasible => Trial::Infeasible(certificate),
        Found::Undecided { best, .. } => match best {
            Some(plan) => Trial::Feasible(plan),
            None => Trial::Undecided(certificate),
        },
    })
}

/// Searches without one of the constraints that are kept.
fn leave_out<S: Solver>(
    alloc: Global,
    solver: &S,
    p: &Problem,
    budget: u64,
    kept: &[u32],
    c: u32,
) -> Result<Loss, Memory>
    requires { AreNumbers p.now.given kept.now }
    ensures { IfOk result (LossGives p.now.given budget kept.now c) }
{
    let fewer = without(alloc, c, kept)?;
    let sub = sub_problem(alloc, p, &fewer)?;
    Ok(match search(alloc, solver, &sub, budget)? {
        Trial::Feasible(plan) => Loss::Needed(cost(&sub, &plan)),
        Trial::Infeasible(certificate) => Loss::Lost { fewer, certificate },
        Trial::Undecided(certificate) => Loss::Open { fewer, certificate },
    })
}

/// Leaves out one after the other, from the first that is not known to be needed on, until one is lost or open. The costs
/// are those of plans without each of the first so many.
#[tactic(auto, using(crate::proofs::CoreLemmas::one_more_needed))]
pub(crate) fn first_lost<S: Solver>(
    alloc: Global,
    solver: &S,
    p: &Problem,
    budget: u64,
    kept: &[u32],
    costs: &mut Vec<u64>,
) -> Result<Round, Memory>
    requires numbers { AreNumbers p.now.given kept.now }
    requires needed { AreNeeded p.now.given kept.now costs.old.items }
    ensures needed { AreNeeded p.now.given kept.now costs.new.items }
    ensures round { IfOk result (RoundGives p.now.given budget kept.now costs.new.items) }
{
    while costs.len() < kept.len() {
        let c = kept[costs.len()];
        match leave_out(alloc, solver, p, budget, kept, c)? {
            Loss::Needed(cost) => costs.push(cost)?,
            Loss::Lost { fewer, certificate } => {
                return Ok(Round::Lost {
                    c,
                    fewer,
                    certificate,
                });
            }
            Loss::Open { fewer, certificate } => return Ok(Round::Open { fewer, certificate }),
        }
    }
    Ok(Round::AllNeeded)
}
