//! The solvers of the tests.

use branching::brancher::Brancher;
use branching::least_start::LeastStart;
use catalogue::Problem;
use cert_check::{CheckFault, Verdict};
use plan_io::{Desk, OutFault};
use prop_core::propagator::Propagator;
use rule_solver::{RuleSolver, certify_by_rules};
use search::Found;
use slices::Plan;
use solver::Solver;
use std::alloc::Global;

/// Searches by the rules of the program and the brancher that takes the least start.
pub struct ByLeastStart;

impl Solver for ByLeastStart {
    #[tactic(auto, using(solver::proofs::Public::untouched))]
    fn certify<D: Desk>(
        &self,
        alloc: Global,
        desk: &mut D,
        p: &Problem,
        budget: u64,
        certificate: &str,
    ) -> Result<Found, OutFault> {
        let mut brancher: Box<dyn Brancher> = Box::new(alloc, LeastStart)?;
        certify_by_rules(alloc, desk, p, budget, &mut brancher, certificate)
    }

    fn check<D: Desk>(
        &self,
        alloc: Global,
        p: &Problem,
        plan: Option<&Plan>,
        desk: &mut D,
        certificate: &str,
        strict: bool,
    ) -> Result<Verdict, CheckFault> {
        RuleSolver.check(alloc, p, plan, desk, certificate, strict)
    }
}

/// Has no memory for a search, nor for rules. A command that does not search ends with it as with any other solver.
pub struct NoMemory;

impl Solver for NoMemory {
    #[tactic(auto, using(solver::proofs::Public::untouched))]
    fn certify<D: Desk>(
        &self,
        _alloc: Global,
        _desk: &mut D,
        _p: &Problem,
        _budget: u64,
        _certificate: &str,
    ) -> Result<Found, OutFault> {
        Err(OutFault::Memory)
    }

    fn check<D: Desk>(
        &self,
        alloc: Global,
        p: &Problem,
        plan: Option<&Plan>,
        desk: &mut D,
        certificate: &str,
        strict: bool,
    ) -> Result<Verdict, CheckFault> {
        let mut rules: Vec<Box<dyn Propagator>> = Vec::new(alloc);
        cert_check::check(alloc, p, plan, desk, certificate, strict, &mut rules)
    }
}
