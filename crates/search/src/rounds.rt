//! The loop over the regions: the one at hand, and the outer sides that wait.
ghost use Rattle.std.specs.Prelude.{◌≡◌, ℕ, ◌+◌, ◌*◌, ◌-◌, ◌<◌, ◌∷◌, [], true, IfOk, MatchOption, OnOk, IsTrue, Some, reverse, vec_len};
ghost use Rattle.search.specs.Prelude.{AllFollow, ArePaired, bytes_of, Covered, Goes, HaveChoices, IsElement, IsGround, IsRoundDone, IsSized, IsVisited, LeavesLines, Pairs, SameCover, sets, WritesOn};

use crate::ground::Ground;
use crate::leaves::{split, write_leaf};
use crate::levels::{back_levels, narrow_all};
use crate::looks::{close, fail};
use crate::progress::Progress;
use branching::brancher::Brancher;
use catalogue::Problem;
use cert_write::CertWriter;
use cluster::Element;
use domains::{Change, Part, Region, Side};
use plan_io::{Desk, OutFault};
use prop_core::propagator::Propagator;
use reasons::Reason;
use std::alloc::Global;

/// Closes the region and writes a leaf, or splits it and goes inside the part, which is answered.
fn at_region<D: Desk>(
    alloc: Global,
    p: &Problem,
    budget: u64,
    ground: &mut Ground,
    progress: &mut Progress,
    rules: &mut Vec<Box<dyn Propagator>>,
    brancher: &mut Box<dyn Brancher>,
    desk: &mut D,
    out: &mut CertWriter,
) -> Result<Option<(Element, Part)>, OutFault>
    requires covered { Covered (λ b. meaning b) rules.old.items }
    requires ground { IsGround p.now.given ground.old }
    requires some { HaveChoices p.now.given (sets ground.old.trail.region) }
    requires follow { AllFollow (λ b. meaning b) p.now.given ground.old.trail rules.old.items }
    requires writes { IsTrue (D.writes out.old) }
    requires current { D.current desk.old ≡ Some out.old }
    ensures writes { WritesOn D.tells D.files D.current D.read_faults D.write_faults desk.old desk.new out.old out.new (LeavesLines p.now.given D.tells) result }
    ensures covers { Pairs (λ b. meaning b) SameCover rules.old.items rules.new.items }
    ensures follow { OnOk result (AllFollow (λ b. meaning b) p.now.given ground.new.trail rules.new.items) }
    ensures ground { OnOk result (IsGround p.now.given ground.new) }
    ensures visited { IfOk result (λ s. IsVisited (λ b. meaning b) p.now.given budget D.tells progress.old progress.new (bytes_of (D.files desk.old out.old)) (bytes_of (D.files desk.new out.old)) rules.old.items rules.new.items ground.old.trail ground.new.trail s) }
{
    let is_clear = close(p, progress, ground, rules, brancher, desk, out)?;
    if !is_clear {
        return Ok(None);
    }
    let is_leaf = write_leaf(alloc, p, budget, ground, progress, brancher, desk, out)?;
    if is_leaf {
        return Ok(None);
    }
    let side = split(p, ground, progress, rules, brancher, desk, out)?;
    Ok(Some(side))
}

/// One round: the region is worked on, and where nothing is left open in it the next outer side is taken.
/// False where none is left.
fn round<D: Desk>(
    alloc: Global,
    p: &Problem,
    budget: u64,
    ground: &mut Ground,
    splits: &mut Vec<(Element, Part)>,
    progress: &mut Progress,
    rules: &mut Vec<Box<dyn Propagator>>,
    brancher: &mut Box<dyn Brancher>,
    desk: &mut D,
    out: &mut CertWriter,
) -> Result<bool, OutFault>
    requires paired { ArePaired p.now.given ground.old.trail.marks (reverse splits.old.items) }
    requires covered { Covered (λ b. meaning b) rules.old.items }
    requires ground { IsGround p.now.given ground.old }
    requires some { HaveChoices p.now.given (sets ground.old.trail.region) }
    requires follow { AllFollow (λ b. meaning b) p.now.given ground.old.trail rules.old.items }
    requires writes { IsTrue (D.writes out.old) }
    requires current { D.current desk.old ≡ Some out.old }
    ensures writes { WritesOn D.tells D.files D.current D.read_faults D.write_faults desk.old desk.new out.old out.new (LeavesLines p.now.given D.tells) result }
    ensures covers { Pairs (λ b. meaning b) SameCover rules.old.items rules.new.items }
    ensures follow { OnOk result (AllFollow (λ b. meaning b) p.now.given ground.new.trail rules.new.items) }
    ensures ground { OnOk result (IsGround p.now.given ground.new) }
    ensures done { IfOk result (λ yes. IsRoundDone (λ b. meaning b) p.now.given budget D.tells progress.old progress.new (bytes_of (D.files desk.old out.old)) (bytes_of (D.files desk.new out.old)) rules.old.items rules.new.items ground.old.trail ground.new.trail splits.old.items splits.new.items yes) }
    ensures smaller { IfOk result (λ yes. yes ≡ true → 2 * (budget - progress.new.spent) + vec_len splits.new < 2 * (budget - progress.old.spent) + vec_len splits.old) }
{
    if let Some(side) = at_region(
        alloc, p, budget, ground, progress, rules, brancher, desk, out,
    )? {
        splits.push(side)?;
        return Ok(true);
    }
    let Some((element, part)) = splits.pop() else {
        return Ok(false);
    };
    back_levels(p, ground, rules);
    let change = Change {
        element,
        part,
        side: Side::Outside,
    };
    narrow_all(p, ground, rules, change)?;
    Ok(true)
}

/// All rounds, until nothing is open.
pub fn run<D: Desk>(
    alloc: Global,
    p: &Problem,
    budget: u64,
    ground: &mut Ground,
    progress: &mut Progress,
    rules: &mut Vec<Box<dyn Propagator>>,
    brancher: &mut Box<dyn Brancher>,
    desk: &mut D,
    out: &mut CertWriter,
) -> Result<(), OutFault>
    requires unmarked { ground.old.trail.marks ≡ [] }
    requires covered { Covered (λ b. meaning b) rules.old.items }
    requires ground { IsGround p.now.given ground.old }
    requires some { HaveChoices p.now.given (sets ground.old.trail.region) }
    requires follow { AllFollow (λ b. meaning b) p.now.given ground.old.trail rules.old.items }
    requires writes { IsTrue (D.writes out.old) }
    requires current { D.current desk.old ≡ Some out.old }
    ensures writes { WritesOn D.tells D.files D.current D.read_faults D.write_faults desk.old desk.new out.old out.new (LeavesLines p.now.given D.tells) result }
    ensures covers { Pairs (λ b. meaning b) SameCover rules.old.items rules.new.items }
    ensures goes { OnOk result (Goes (λ b. meaning b) p.now.given budget D.tells progress.old progress.new (bytes_of (D.files desk.old out.old)) (bytes_of (D.files desk.new out.old)) rules.old.items rules.new.items (sets ground.old.trail.region ∷ []) []) }
{
    let mut splits = Vec::new(alloc);
    'rounds: loop {
        let more = round(
            alloc,
            p,
            budget,
            ground,
            &mut splits,
            progress,
            rules,
            brancher,
            desk,
            out,
        )?;
        if !more {
            return Ok(());
        }
    }
}
