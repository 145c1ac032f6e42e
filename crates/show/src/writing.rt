//! The listing of a plan, written.
ghost use Rattle.std.specs.Prelude.{◌≡◌, ◌++◌, IsTrue, IfOk, OnOk};
ghost use Rattle.std.specs.Io.{StartsWith};
ghost use Rattle.std.specs.List.{All, flat_map};
ghost use Rattle.show.specs.Prelude.{action_line, choices_of, CountsWrites, IsActionOf, IsPartOfShown, IsPlanOf, IsShown, IsVerdict};

use crate::actions::{Action, listing};
use crate::lines::{action_line, last_line};
use catalogue::Problem;
use judge::{Broken, judge};
use plan_io::{OutFault, Sink, write_text};
use slices::Plan;
use std::alloc::Global;

/// Writes a line for each of some actions.
#[tactic(auto, using(crate::proofs::Texts::piece_prefix))]
fn write_actions<O: Sink>(
    alloc: Global,
    p: &Problem,
    plan: &Plan,
    actions: &[Action],
    out: &mut O,
) -> Result<(), OutFault>
    requires plan { IsPlanOf p.now.given plan.now }
    requires actions { All (IsActionOf p.now.given (choices_of plan.now)) actions.now }
    ensures written { IsTrue O.tells → OnOk result (O.written out.new ≡ O.written out.old ++ flat_map (action_line p.now.given (choices_of plan.now)) actions.now) }
    ensures cut { IsTrue O.tells → StartsWith (O.written out.old ++ flat_map (action_line p.now.given (choices_of plan.now)) actions.now) (O.written out.new) }
    ensures stays { IsTrue O.tells → StartsWith (O.written out.new) (O.written out.old) }
    ensures cause { CountsWrites (O.faults out.old) (O.faults out.new) result }
{
    for action in actions {
        let line = action_line(alloc, p, plan, action)?;
        write_text(out, line.as_bytes())?;
    }
    Ok(())
}

/// Writes the listing of a plan, line by line, and gives what is broken first, if anything is.
///
/// There is one line an action, `START END KIND ELEMENT FROM TO`, in the order of start, then end,
/// then element. FROM is the node on which a machine runs, or on which its image lies, at present,
/// and TO the node to which it goes; where there is none, and for nodes, stands `-`. The last line is
/// `actions N last T cost C`, or, for a plan that is not valid, `broken T RULE` as in a report.
///
/// After a refusal the sink has got a prefix of the listing. `Failed` comes only where the sink's
/// count of faults rose.
#[tactic(auto, using(base::proofs::Prefixes::longer, base::proofs::Prefixes::longer_text, base::proofs::Prefixes::further), unfolding(crate::specs::Shown::listing_text))]
pub fn show_plan<O: Sink>(
    alloc: Global,
    p: &Problem,
    plan: &Plan,
    out: &mut O,
) -> Result<Option<Broken>, OutFault>
    requires { IsPlanOf p.now.given plan.now }
    ensures verdict { IfOk result (IsVerdict p.now.given (choices_of plan.now)) }
    ensures written { IsTrue O.tells → IfOk result (λ answer. IsShown p.now.given (choices_of plan.now) answer (O.written out.old) (O.written out.new)) }
    ensures cut { IsTrue O.tells → IsPartOfShown p.now.given (choices_of plan.now) (O.written out.old) (O.written out.new) }
    ensures stays { IsTrue O.tells → StartsWith (O.written out.new) (O.written out.old) }
    ensures cause { CountsWrites (O.faults out.old) (O.faults out.new) result }
{
    let answer = judge(p, plan);
    let actions = listing(alloc, p, plan)?;
    write_actions(alloc, p, plan, &actions, out)?;
    let line = last_line(alloc, p, plan, &actions, answer)?;
    write_text(out, line.as_bytes())?;
    Ok(answer)
}
