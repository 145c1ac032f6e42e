//! The least cost that no valid plan undercuts, as a search knows it when it decides for the first time.

use advice::least::Least;
use bound::lower_bound::sum_of;
use branching::brancher::Brancher;
use catalogue::Problem;
use cert_check::{CheckFault, Verdict};
use cluster::Element;
use domains::{Part, Region};
use guided::guided::Guided;
use plan_io::{Desk, OutFault};
use reasons::Reason;
use rule_solver::{RuleSolver, certify_by_rules};
use search::Found;
use slices::Plan;
use solver::Solver;
use std::alloc::Global;

/// A brancher that is another one, and keeps the sum of the least ends of the region that it is asked for first: the search
/// has made no decision then, so no valid plan costs less.
#[derive(Drop)]
struct LeastBrancher {
    brancher: Guided,
    least: Least,
}

impl Brancher for LeastBrancher {
    fn choose(&mut self, p: &Problem, g: &Region) -> (Element, Part) {
        if self.least.get().is_none() {
            self.least.set(Some(sum_of(p, g)));
        }
        self.brancher.choose(p, g)
    }

    fn met_plan(&mut self, p: &Problem, plan: &Plan) {
        self.brancher.met_plan(p, plan);
    }

    fn failed(&mut self, p: &Problem, element: Option<Element>, reason: &Reason) {
        self.brancher.failed(p, element, reason);
    }
}

/// The solver of the program, by its rules and its brancher, which keeps what is known of the least cost.
#[derive(Drop)]
pub struct LeastSolver {
    least: Least,
}

impl LeastSolver {
    /// The solver, of which nothing was asked yet.
    pub fn new(least: Least) -> LeastSolver {
        LeastSolver { least }
    }
}

impl Solver for LeastSolver {
    #[tactic(auto, using(solver::proofs::Public::untouched))]
    fn certify<D: Desk>(
        &self,
        alloc: Global,
        desk: &mut D,
        p: &Problem,
        budget: u64,
        certificate: &str,
    ) -> Result<Found, OutFault> {
        self.least.set(None);
        let asked = LeastBrancher {
            brancher: Guided::new(alloc),
            least: self.least.share(),
        };
        let mut brancher: Box<dyn Brancher> = Box::new(alloc, asked)?;
        certify_by_rules(alloc, desk, p, budget, &mut brancher, certificate)
    }

    fn check<D: Desk>(
        &self,
        alloc: Global,
        p: &Problem,
        plan: Option<&Plan>,
        desk: &mut D,
        certificate: &str,
        strict: bool,
    ) -> Result<Verdict, CheckFault> {
        RuleSolver.check(alloc, p, plan, desk, certificate, strict)
    }
}
