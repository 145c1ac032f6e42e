//! The search and the check that are asked for: by a solver, which makes its rules and its brancher when it is asked.

ghost use Rattle.std.specs.Prelude.{◌≡◌, IfOk, IfSome, IsTrue};
ghost use Rattle.std.specs.Option.{option_copied};
ghost use Rattle.solver.specs.Prelude.{bytes_of, Certifies, CheckGives, choices_handed, CountsCheck, IsPlanOf, IsSound};

use catalogue::Problem;
use cert_check::{CheckFault, Verdict};
use plan_io::{Desk, OutFault};
use search::Found;
use slices::Plan;
use std::alloc::Global;

/// Decides on problems. Whatever rules and brancher it asks are made in the call and dropped before it answers, so a
/// command that does not search needs no memory for them.
pub trait Solver {
    /// Searches for a cheapest valid plan with at most so many decisions, and writes the certificate of what is found,
    /// line by line. `Failed` where a write failed; `Memory` for want of memory.
    fn certify<D: Desk>(
        &self,
        alloc: Global,
        desk: &mut D,
        p: &Problem,
        budget: u64,
        certificate: &str,
    ) -> Result<Found, OutFault>
        requires writes { IsTrue (D.writes certificate.now) }
        ensures { Certifies p.now.given budget certificate.now D.tells D.files D.read_faults D.write_faults desk.old desk.new result };

    /// The verdict on a certificate, as `cert_check::check` gives it, with the same promises. Where it is strict, the rules of
    /// the search may be asked first whether a region is closed; where there is no memory for them it does without.
    fn check<D: Desk>(
        &self,
        alloc: Global,
        p: &Problem,
        plan: Option<&Plan>,
        desk: &mut D,
        certificate: &str,
        strict: bool,
    ) -> Result<Verdict, CheckFault>
        requires plan { IfSome plan (λ a. IsPlanOf p.now.given a.now) }
        requires reads { IsTrue (D.reads certificate.now) }
        ensures verdict { IsTrue D.tells → CheckGives p.now.given (choices_handed (option_copied plan.entry)) strict (bytes_of (D.files desk.old certificate.now)) result }
        ensures sound { IfOk result (IsSound p.now.given (choices_handed (option_copied plan.entry))) }
        ensures files { IsTrue D.tells → D.files desk.new ≡ D.files desk.old }
        ensures cause { CountsCheck (D.read_faults desk.old) (D.read_faults desk.new) result }
        ensures writes_kept { D.write_faults desk.new ≡ D.write_faults desk.old };
}
