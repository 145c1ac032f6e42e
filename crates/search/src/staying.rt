//! Staying as all is, where that is a valid plan.
ghost use Rattle.std.specs.Prelude.{◌≡◌, ◌↔◌, None, Some, IfOk, IfSome, IsTrue};
ghost use Rattle.search.specs.Prelude.{bytes_of, choices_of, IsPlanOf, IsStayed, IsStayingPlan, IsValid, LeavesText, MayStay, WritesOn};

use crate::found::Found;
use base::Memory;
use catalogue::Problem;
use cert_write::CertWriter;
use cluster::Choice;
use judge::judge;
use plan_io::{Desk, OutFault};
use reasons::Reason;
use slices::Plan;
use slices::plan::is_plan;
use std::alloc::Global;
use trees::{Goal, Step};

// whether the judge finds no broken rule in a plan
fn is_valid(p: &Problem, plan: &Plan) -> bool
    requires { IsPlanOf p.now.given plan.now }
    ensures { IsTrue result ↔ IsValid p.now.given (choices_of plan.now) }
{
    judge(p, plan).is_none()
}

/// The plan in which nothing is done, where it is one and valid. The only error is want of memory.
pub fn staying_plan(alloc: Global, p: &Problem) -> Result<Option<Plan>, Memory>
    ensures some { IfOk result (λ found. IfSome found (IsStayingPlan p.now.given)) }
    ensures none { IfOk result (λ found. found ≡ None → ¬ MayStay p.now.given) }
{
    let choices = vec![in alloc; Choice::Idle; p.cluster().element_count()]?;
    if !is_plan(p, &choices) {
        return Ok(None);
    }
    let plan = Plan::idle_or(p, choices);
    if !is_valid(p, &plan) {
        return Ok(None);
    }
    Ok(Some(plan))
}

/// Writes that nothing costs less than the plan in which nothing is done, and answers it.
pub fn stay<D: Desk>(
    p: &Problem,
    plan: Plan,
    desk: &mut D,
    out: &mut CertWriter,
) -> Result<Found, OutFault>
    requires plan { IsStayingPlan p.now.given plan }
    requires writes { IsTrue (D.writes out.old) }
    requires current { D.current desk.old ≡ Some out.old }
    ensures writes { WritesOn D.tells D.files D.current D.read_faults D.write_faults desk.old desk.new out.old out.new (LeavesText p.now.given D.tells) result }
    ensures stayed { IfOk result (IsStayed p.now.given D.tells (bytes_of (D.files desk.old out.old)) (D.files desk.new out.old)) }
{
    out.step(desk, p, &Step::Fail(Reason::Bound))?;
    out.end(desk, Goal::Optimal(0))?;
    Ok(Found::Optimal(plan))
}
