//! Certificates in memory: what a solver writes, and what it says of one.

ghost use Rattle.std.specs.Prelude.{◌≡◌, ◌≢◌, Err, IfOk, IfSome};
ghost use Rattle.std.specs.Option.{option_copied};
ghost use Rattle.solver.specs.Prelude.{CheckFault as AnyFault, CheckGives, choices_handed, IsCertifiedText, IsPlanOf, IsSound, IsToStay, IsTrueOf, MayStay};
ghost use Rattle.cert_read.specs.declared.line.LineFault.{LineFault as AnyLineFault};

use crate::traits::Solver;
use base::Memory;
use catalogue::Problem;
use cert_check::{CheckFault, Verdict};
use plan_io::{DeskSure, OutFault};
use search::Found;
use slices::Plan;
use std::alloc::Global;

// The file in memory that a certificate is in.
const CERTIFICATE: &str = "certificate";

/// Searches with at most so many decisions, and gives what is found with the text of its certificate.
pub fn solve_to_text<S: Solver>(
    alloc: Global,
    solver: &S,
    p: &Problem,
    budget: u64,
) -> Result<(Found, Vec<u8>), Memory>
    ensures certified { IfOk result (λ x. IsCertifiedText p.now.given budget x.0 x.1.items) }
    ensures true_of { IfOk result (λ x. IsTrueOf p.now.given budget x.0) }
    ensures stays { MayStay p.now.given → IfOk result (λ x. IsToStay p.now.given x.0) }
{
    let mut desk = DeskSure::new(alloc);
    let found = match solver.certify(alloc, &mut desk, p, budget, CERTIFICATE) {
        Ok(found) => found,
        Err(OutFault::Memory) => return Err(Memory),
        // no write to memory fails
        Err(OutFault::Failed) => unreachable!(),
    };
    match desk.get(CERTIFICATE) {
        Some(text) => Ok((found, Vec::from_slice(alloc, text)?)),
        None => unreachable!(),
    }
}

/// The verdict on the text of a certificate, for the plan that is handed in, or for none. `strict` asks for a lean
/// tree.
///
/// A plan that is not valid is refused at line 0. Else the lines are taken in order, and the first that cannot be
/// read or does not hold decides. A yes says that the goal is so. `Memory` and `Line(Memory)` for want of memory, and
/// then nothing is said of the text.
pub fn check_text<S: Solver>(
    alloc: Global,
    solver: &S,
    p: &Problem,
    plan: Option<&Plan>,
    text: &[u8],
    strict: bool,
) -> Result<Verdict, CheckFault>
    requires plan { IfSome plan (λ a. IsPlanOf p.now.given a.now) }
    ensures verdict { result ≢ Err AnyFault.Memory
        → CheckGives p.now.given (choices_handed (option_copied plan.entry)) strict text.now result }
    ensures sound { IfOk result (IsSound p.now.given (choices_handed (option_copied plan.entry))) }
    ensures no_read_fault { result ≢ Err (AnyFault.Line AnyLineFault.ReadFault) }
{
    let mut desk = DeskSure::new(alloc);
    desk.put(CERTIFICATE, text)?;
    solver.check(alloc, p, plan, &mut desk, CERTIFICATE, strict)
}
