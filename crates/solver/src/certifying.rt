//! A search as a solver does it.

ghost use Rattle.std.specs.Prelude.{IsTrue};
ghost use Rattle.solver.specs.Prelude.{Certifies, Covered};

use branching::brancher::Brancher;
use catalogue::Problem;
use cert_write::CertWriter;
use plan_io::{Desk, OutFault};
use prop_core::propagator::Propagator;
use search::{Found, solve};
use std::alloc::Global;

/// Searches as a solver does, by the rules and the brancher that are handed in.
pub fn certify<D: Desk>(
    alloc: Global,
    desk: &mut D,
    p: &Problem,
    budget: u64,
    rules: &mut Vec<Box<dyn Propagator>>,
    brancher: &mut Box<dyn Brancher>,
    certificate: &str,
) -> Result<Found, OutFault>
    requires covered { Covered (λ b. meaning b) rules.old.items }
    requires writes { IsTrue (D.writes certificate.now) }
    ensures { Certifies p.now.given budget certificate.now D.tells D.files D.read_faults D.write_faults desk.old desk.new result }
{
    let mut writer = CertWriter::new(alloc, desk, certificate)?;
    let found = solve(alloc, p, budget, rules, brancher, desk, &mut writer)?;
    Ok(found)
}
