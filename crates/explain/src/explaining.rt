//! The whole: from a problem to a core.
ghost use Rattle.std.specs.Prelude.{◌≡◌, ◌<◌, IfOk, length, List, slice_index, ℕ};
ghost use Rattle.explain.specs.Prelude.{all_numbers, AreNeeded, AreNumbers, Explains, IsDecided, IsEnough, IsRefuted, without};

use crate::subs::{all_numbers, is_settled};
use crate::trials::{Round, Trial, first_lost, search};
use base::Memory;
use catalogue::Problem;
use slices::Plan;
use solver::Solver;
use std::alloc::Global;

/// Why a problem has no valid plan, or that it has one.
#[derive(Drop)]
pub enum Explained {
    /// This plan is valid.
    Feasible(Plan),
    /// No plan is valid, and none is with these constraints alone.
    Core {
        /// The numbers of the constraints, in ascending order.
        kept: Vec<u32>,
        /// The certificate of the problem with these constraints alone, numbered anew in order.
        certificate: Vec<u8>,
        /// For each of them, what a valid plan costs of the problem with all others.
        costs: Vec<u64>,
    },
    /// With these constraints alone the budget was spent before a valid plan was met. They are all, or one fewer than
    /// leave no valid plan.
    Undecided {
        /// The numbers of the constraints, in ascending order.
        kept: Vec<u32>,
        /// The certificate of how far the search came.
        certificate: Vec<u8>,
    },
}

/// Keeps the costs of the plans that stay valid once a constraint is lost: all, or none where it is part of the demand, of
/// the capacity or of the legal choices.
fn keep_costs(p: &Problem, c: u32, costs: &mut Vec<u64>)
    requires { c < length p.now.given.constraints }
    ensures { (kept : List ℕ) → AreNumbers p.now.given kept → AreNeeded p.now.given kept costs.old.items → length costs.old.items < length kept → slice_index kept (length costs.old.items) ≡ c → AreNeeded p.now.given (without c kept) costs.new.items }
{
    if is_settled(&p.constraints()[c as usize]) {
        costs.clear();
    }
}

/// Leaves out constraints that are not needed, one after the other from the least number on, until each one is.
fn shrink<S: Solver>(
    alloc: Global,
    solver: &S,
    p: &Problem,
    budget: u64,
    whole: Vec<u8>,
) -> Result<Explained, Memory>
    requires { IsRefuted p.now.given budget whole.items }
    ensures { IfOk result (Explains p.now.given budget) }
{
    let mut kept = all_numbers(alloc, p)?;
    let mut shown = whole;
    let mut costs = Vec::new(alloc);
    loop {
        match first_lost(alloc, solver, p, budget, &kept, &mut costs)? {
            Round::AllNeeded => {
                return Ok(Explained::Core {
                    kept,
                    certificate: shown,
                    costs,
                });
            }
            Round::Lost {
                c,
                fewer,
                certificate,
            } => {
                keep_costs(p, c, &mut costs);
                kept = fewer;
                shown = certificate;
            }
            Round::Open { fewer, certificate } => {
                return Ok(Explained::Undecided {
                    kept: fewer,
                    certificate,
                });
            }
        }
    }
}

/// Why a problem has no valid plan: a core of constraints, none of which can be left out, with the certificate that they
/// leave no valid plan and a cost for each of them that shows it is needed. Each search has at most so many decisions.
///
/// Constraints are left out in turn, from the least number on. Fewer constraints do not always leave more plans: wishes,
/// `preserve` and `overbook` are part of the legal choices, of the demand and of the capacity. So a core is one of the
/// problem with the others left out, and a problem may be feasible where it has fewer or more. After one of these is lost,
/// all that were needed before are searched again; after another one, their plans are still valid.
///
/// Never `Undecided` where the budget tells apart all plans of each such problem.
pub fn explain<S: Solver>(
    alloc: Global,
    solver: &S,
    p: &Problem,
    budget: u64,
) -> Result<Explained, Memory>
    ensures explained { IfOk result (Explains p.now.given budget) }
    ensures decided { IsEnough p.now.given budget → IfOk result IsDecided }
{
    Ok(match search(alloc, solver, p, budget)? {
        Trial::Feasible(plan) => Explained::Feasible(plan),
        Trial::Infeasible(certificate) => shrink(alloc, solver, p, budget, certificate)?,
        Trial::Undecided(certificate) => Explained::Undecided {
            kept: all_numbers(alloc, p)?,
            certificate,
        },
    })
}
