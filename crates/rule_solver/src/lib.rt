//! The solver of the program: six rules, with forbidden places before all else, and a brancher.
#![tactic(auto)]

ghost use Rattle.std.specs.Prelude.{IsTrue};
ghost use Rattle.rule_solver.specs.Prelude.{Certifies};

use branching::brancher::Brancher;
use catalogue::Problem;
use cert_check::{CheckFault, Verdict};
use guided::guided::Guided;
use plan_io::{Desk, OutFault};
use prop_core::propagator::Propagator;
use rule_group::rule::GroupRule;
use rule_load::rule::load_rule;
use rule_pair::rule::PairRule;
use rule_place::rule::{ForbiddenRule, NeededRule};
use rule_setload::rule::SetRule;
use search::Found;
use slices::Plan;
use solver::{Solver, certify};
use std::alloc::Global;

/// Searches as a solver does, by the six rules and the brancher that is handed in. `Memory` also where there is no
/// memory for the rules, and then no file is touched.
#[tactic(auto, using(solver::proofs::Public::untouched))]
pub fn certify_by_rules<D: Desk>(
    alloc: Global,
    desk: &mut D,
    p: &Problem,
    budget: u64,
    brancher: &mut Box<dyn Brancher>,
    certificate: &str,
) -> Result<Found, OutFault>
    requires writes { IsTrue (D.writes certificate.now) }
    ensures { Certifies p.now.given budget certificate.now D.tells D.files D.read_faults D.write_faults desk.old desk.new result }
{
    let mut rules: Vec<Box<dyn Propagator>> = Vec::new(alloc);
    // The first that answers ends a round, so those that look at least come first. A place that is forbidden is cut for good,
    // and then fewer loads are to be looked at.
    rules.push(Box::new(alloc, ForbiddenRule::new(alloc))?)?;
    rules.push(Box::new(alloc, load_rule(alloc))?)?;
    rules.push(Box::new(alloc, NeededRule::new(alloc))?)?;
    rules.push(Box::new(alloc, PairRule::new(alloc))?)?;
    rules.push(Box::new(alloc, SetRule::new(alloc))?)?;
    rules.push(Box::new(alloc, GroupRule::new(alloc))?)?;
    certify(alloc, desk, p, budget, &mut rules, brancher, certificate)
}

/// Searches by the six rules and `Guided`.
#[derive(Clone, Copy, Debug, PartialEq, Eq)]
pub struct RuleSolver;

impl Solver for RuleSolver {
    #[tactic(auto, using(solver::proofs::Public::untouched))]
    fn certify<D: Desk>(
        &self,
        alloc: Global,
        desk: &mut D,
        p: &Problem,
        budget: u64,
        certificate: &str,
    ) -> Result<Found, OutFault> {
        let mut brancher: Box<dyn Brancher> = Box::new(alloc, Guided::new(alloc))?;
        certify_by_rules(alloc, desk, p, budget, &mut brancher, certificate)
    }

    fn check<D: Desk>(
        &self,
        alloc: Global,
        p: &Problem,
        plan: Option<&Plan>,
        desk: &mut D,
        certificate: &str,
        strict: bool,
    ) -> Result<Verdict, CheckFault> {
        let mut rules: Vec<Box<dyn Propagator>> = Vec::new(alloc);
        // where there is no memory for one, they do not cover all kinds, and are not asked
        if strict {
            if let Ok(rule) = Box::new(alloc, ForbiddenRule::new(alloc)) {
                let _ = rules.push(rule);
            }
            if let Ok(rule) = Box::new(alloc, load_rule(alloc)) {
                let _ = rules.push(rule);
            }
            if let Ok(rule) = Box::new(alloc, NeededRule::new(alloc)) {
                let _ = rules.push(rule);
            }
            if let Ok(rule) = Box::new(alloc, PairRule::new(alloc)) {
                let _ = rules.push(rule);
            }
            if let Ok(rule) = Box::new(alloc, SetRule::new(alloc)) {
                let _ = rules.push(rule);
            }
            if let Ok(rule) = Box::new(alloc, GroupRule::new(alloc)) {
                let _ = rules.push(rule);
            }
        }
        cert_check::check(alloc, p, plan, desk, certificate, strict, &mut rules)
    }
}
