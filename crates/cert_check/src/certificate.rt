//! The check of a certificate.
ghost use Rattle.std.specs.Prelude.{◌≡◌, false, IfOk, IfSome, IsTrue};
ghost use Rattle.std.specs.Option.{option_copied};
ghost use Rattle.cert_check.specs.Prelude.{bytes_of, CheckGives, choices_handed, CountsCheck, IsFit, IsHandedIn, IsPlanOf, IsSound};

use crate::lines::check_lines;
use crate::verdict::{CheckFault, Verdict};
use catalogue::Problem;
use cert_model::why::Why;
use judge::judge;
use plan_io::Desk;
use prop_core::propagator::Propagator;
use slices::Plan;
use std::alloc::Global;

/// The verdict on the certificate of this name, for the plan that is handed in, or for none. `strict`
/// asks for a lean tree.
///
/// Where it is strict, the propagators, of which there may be none, are asked first whether a region is
/// closed. No clause speaks of them: what is promised is the same whichever they are.
///
/// A plan that is not valid is refused at line 0. Else the lines are taken in order, and the first that
/// cannot be read or does not hold decides. A yes says that the goal is so, whatever the desk tells of
/// its files. `Line(ReadFault)` comes only where the desk's count of failed reads rose, `Memory` and
/// `Line(Memory)` for want of memory. No file changes.
pub fn check<D: Desk>(
    alloc: Global,
    p: &Problem,
    plan: Option<&Plan>,
    desk: &mut D,
    name: &str,
    strict: bool,
    rules: &mut Vec<Box<dyn Propagator>>,
) -> Result<Verdict, CheckFault>
    requires plan { IfSome plan (λ a. IsPlanOf p.now.given a.now) }
    requires reads { IsTrue (D.reads name.now) }
    ensures verdict { IsTrue D.tells → CheckGives p.now.given (choices_handed (option_copied plan.entry)) strict (bytes_of (D.files desk.old name.now)) result }
    ensures sound { IfOk result (IsSound p.now.given (choices_handed (option_copied plan.entry))) }
    ensures files { IsTrue D.tells → D.files desk.new ≡ D.files desk.old }
    ensures current { D.current desk.new ≡ D.current desk.old }
    ensures cause { CountsCheck (D.read_faults desk.old) (D.read_faults desk.new) result }
    ensures writes_kept { D.write_faults desk.new ≡ D.write_faults desk.old }
{
    if !is_fit(p, plan) {
        return Ok(Verdict::No {
            line: 0,
            why: Why::Plan,
        });
    }
    check_lines(alloc, p, plan, desk, name, strict, rules)
}

// whether the plan that is handed in, if one is, is valid
fn is_fit(p: &Problem, plan: Option<&Plan>) -> bool
    requires { IfSome plan (λ a. IsPlanOf p.now.given a.now) }
    ensures handed_in { IsTrue result → IsHandedIn p.now.given (choices_handed (option_copied plan.entry)) }
    ensures yes { IsTrue result → IsFit p.now.given (choices_handed (option_copied plan.entry)) }
    ensures no { result ≡ false → ¬ IsFit p.now.given (choices_handed (option_copied plan.entry)) }
{
    match plan {
        None => true,
        Some(a) => judge(p, a).is_none(),
    }
}
