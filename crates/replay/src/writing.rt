//! The report on a plan.
ghost use Rattle.std.specs.Prelude.{◌≡◌, ◌++◌, IsTrue, IfOk, OnOk};
ghost use Rattle.std.specs.{Io.StartsWith, List.flat_map};
ghost use Rattle.replay.specs.Prelude.{at_line, choices_of, CountsWrites, IsPlanOf, IsPrefixOfReport, IsVerdict, report_text};

use crate::events::events;
use crate::lines::{at_line, verdict_line};
use catalogue::Problem;
use cluster::Instant;
use judge::{Broken, judge};
use plan_io::{OutFault, Sink, write_text};
use slices::Plan;
use std::alloc::Global;

/// Writes a line for each of some instants.
#[tactic(auto, using(crate::proofs::Texts::piece_prefix))]
fn write_instants<O: Sink>(
    alloc: Global,
    p: &Problem,
    plan: &Plan,
    instants: &[Instant],
    out: &mut O,
) -> Result<(), OutFault>
    requires { IsPlanOf p.now.given plan.now }
    ensures written { IsTrue O.tells → OnOk result (O.written out.new ≡ O.written out.old ++ flat_map (at_line p.now.given (choices_of plan.now)) instants.now) }
    ensures cut { IsTrue O.tells → StartsWith (O.written out.old ++ flat_map (at_line p.now.given (choices_of plan.now)) instants.now) (O.written out.new) }
    ensures stays { IsTrue O.tells → StartsWith (O.written out.new) (O.written out.old) }
    ensures cause { CountsWrites (O.faults out.old) (O.faults out.new) result }
{
    for t in instants {
        let line = at_line(alloc, p, plan, *t)?;
        write_text(out, line.as_bytes())?;
    }
    Ok(())
}

/// Writes the report on a plan, line by line, and gives what is broken first, if anything is.
///
/// For 0, each start and each end of an action and the horizon, in ascending order and each once,
/// there is a line `at T`, and after it for each node in order its name and its load of each
/// resource in order. The last line is `valid C` with the plan's cost, or `broken T RULE`. Each line
/// is offered to the sink whole.
///
/// After a refusal the sink has got a prefix of the report. `Failed` comes only where the sink's
/// count of faults rose.
#[tactic(auto, using(base::proofs::Prefixes::longer, base::proofs::Prefixes::longer_text, base::proofs::Prefixes::further), unfolding(crate::specs::Report::report_text))]
pub fn report<O: Sink>(
    alloc: Global,
    p: &Problem,
    plan: &Plan,
    out: &mut O,
) -> Result<Option<Broken>, OutFault>
    requires { IsPlanOf p.now.given plan.now }
    ensures verdict { IfOk result (IsVerdict p.now.given (choices_of plan.now)) }
    ensures written { IsTrue O.tells → IfOk result (λ answer. O.written out.new ≡ O.written out.old ++ report_text p.now.given (choices_of plan.now) answer) }
    ensures cut { IsTrue O.tells → IsPrefixOfReport p.now.given (choices_of plan.now) (O.written out.old) (O.written out.new) }
    ensures stays { IsTrue O.tells → StartsWith (O.written out.new) (O.written out.old) }
    ensures cause { CountsWrites (O.faults out.old) (O.faults out.new) result }
{
    let answer = judge(p, plan);
    let instants = events(alloc, p, plan)?;
    write_instants(alloc, p, plan, &instants, out)?;
    let line = verdict_line(alloc, p, plan, answer)?;
    write_text(out, line.as_bytes())?;
    Ok(answer)
}
