//! The plan that a command reads, where there has to be one and where there may be none.

ghost use Rattle.std.specs.Prelude.{◌≡◌, ◌≢◌, Result, IsTrue, IfOk, IfErr, IfSome, Err, option_map};
ghost use Rattle.command_frame.specs.Prelude.{any_plan_in, any_plan_reading_of, choices_of, inventory_of, IsOfReading, IsPlanOf, IsRefusal, needed, OnlyReads, plan_in, plan_line, Reads};
ghost use Rattle.plan_json.specs.Texts.{fault_text};

use crate::fault::Fault;
use crate::inputs::{bytes_at, refusal};
use base::Memory;
use catalogue::Problem;
use plan_io::Desk;
use plan_json::{PlanFault, read_plan};
use slices::Plan;
use std::alloc::Global;

/// The fault with the line of a plan's fault.
fn refusal_of(alloc: Global, p: &Problem, fault: &PlanFault) -> Fault
    ensures { IsRefusal result (plan_line (fault_text (inventory_of p.now.given) fault.now)) }
{
    match fault.text(alloc, p) {
        Ok(text) => refusal(alloc, "plan", &text),
        Err(Memory) => Fault::Memory,
    }
}

/// The plan that these bytes are for a problem, or none, or the line that refuses them.
#[tactic(auto, using(crate::proofs::Readings::any_plan, crate::proofs::Readings::first_fault_of_any_plan))]
fn any_plan_of(alloc: Global, p: &Problem, bytes: &[u8]) -> Result<Option<Plan>, Fault>
    ensures reading { Reads (option_map choices_of) result (any_plan_reading_of p.now.given bytes.now) }
    ensures plan { IfOk result (λ plan. IfSome plan (IsPlanOf p.now.given)) }
    ensures kind { IfErr result IsOfReading }
{
    match read_plan(alloc, p, bytes) {
        Ok(plan) => Ok(plan),
        Err(PlanFault::Memory) => Err(Fault::Memory),
        Err(fault) => Err(refusal_of(alloc, p, &fault)),
    }
}

/// The plan for a problem in the file of this name, or none, or the line that refuses it.
#[tactic(auto, using(crate::proofs::Readings::long_any_plan))]
pub fn any_plan_at<D: Desk>(
    alloc: Global,
    desk: &mut D,
    p: &Problem,
    name: &str,
) -> Result<Option<Plan>, Fault>
    requires { IsTrue (D.reads name.now) }
    ensures reading { IsTrue D.tells → result ≢ Err Fault.ReadFault
        → Reads (option_map choices_of) result (any_plan_in p.now.given (D.files desk.old) name.now) }
    ensures plan { IfOk result (λ plan. IfSome plan (IsPlanOf p.now.given)) }
    ensures desk { OnlyReads D.tells D.files D.read_faults D.write_faults desk.old desk.new result }
{
    let bytes = bytes_at(alloc, desk, name, "plan")?;
    any_plan_of(alloc, p, &bytes)
}

/// The plan that these bytes are for a problem, or the line that refuses them.
#[tactic(auto, using(crate::proofs::Readings::the_plan, crate::proofs::Readings::no_plan, crate::proofs::Readings::refused_plan))]
fn plan_of(alloc: Global, p: &Problem, bytes: &[u8]) -> Result<Plan, Fault>
    ensures reading { Reads choices_of result (needed (any_plan_reading_of p.now.given bytes.now)) }
    ensures plan { IfOk result (IsPlanOf p.now.given) }
    ensures kind { IfErr result IsOfReading }
{
    match any_plan_of(alloc, p, bytes)? {
        Some(plan) => Ok(plan),
        None => Err(refusal(alloc, "plan", "no plan")),
    }
}

/// The plan for a problem in the file of this name, or the line that refuses it.
#[tactic(auto, using(crate::proofs::Readings::long_plan))]
pub fn plan_at<D: Desk>(alloc: Global, desk: &mut D, p: &Problem, name: &str) -> Result<Plan, Fault>
    requires { IsTrue (D.reads name.now) }
    ensures reading { IsTrue D.tells → result ≢ Err Fault.ReadFault
        → Reads choices_of result (plan_in p.now.given (D.files desk.old) name.now) }
    ensures plan { IfOk result (IsPlanOf p.now.given) }
    ensures desk { OnlyReads D.tells D.files D.read_faults D.write_faults desk.old desk.new result }
{
    let bytes = bytes_at(alloc, desk, name, "plan")?;
    plan_of(alloc, p, &bytes)
}
