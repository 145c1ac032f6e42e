//! What is written at a closed region: a leaf, or a split.
ghost use Rattle.std.specs.Prelude.{◌≡◌, ℕ, ◌+◌, ◌<◌, ◌^◌, IfOk, OnOk, IsTrue, Some};
ghost use Rattle.search.specs.Prelude.{AllFollow, bytes_of, IsClear, IsFixed, IsGround, IsLeafWritten, LeavesLines, lower as the_lower, Pairs, SameRule, sets, Splits, WritesOn};

use crate::ground::Ground;
use crate::levels::{mark_levels, narrow_all};
use crate::progress::{Best, Progress};
use branching::brancher::Brancher;
use catalogue::Problem;
use cert_write::CertWriter;
use cluster::Element;
use domains::{Change, Part, Side};
use plan_io::{Desk, OutFault};
use prop_core::propagator::Propagator;
use relax::plan::plan_of;
use std::alloc::Global;
use trees::Step;

/// The lower of a number and another, if there is another.
pub fn lower(n: u64, known: Option<u64>) -> u64
    ensures { result ≡ the_lower n known }
{
    match known {
        None => n,
        Some(m) => n.min(m),
    }
}

/// Writes a leaf where one is due at a closed region. False where it is to be split.
pub fn write_leaf<D: Desk>(
    alloc: Global,
    p: &Problem,
    budget: u64,
    ground: &Ground,
    progress: &mut Progress,
    brancher: &mut Box<dyn Brancher>,
    desk: &mut D,
    out: &mut CertWriter,
) -> Result<bool, OutFault>
    requires ground { IsGround p.now.given ground.now }
    requires clear { IsClear p.now.given progress.old.best (sets ground.now.trail.region) }
    requires writes { IsTrue (D.writes out.old) }
    requires current { D.current desk.old ≡ Some out.old }
    ensures writes { WritesOn D.tells D.files D.current D.read_faults D.write_faults desk.old desk.new out.old out.new (LeavesLines p.now.given D.tells) result }
    ensures spent { progress.new.spent ≡ progress.old.spent }
    ensures leaf { IfOk result (λ yes. IsLeafWritten p.now.given budget D.tells progress.old progress.new (bytes_of (D.files desk.old out.old)) (bytes_of (D.files desk.new out.old)) ground.now.trail.region yes) }
{
    let sum = ground.bound.sum();
    if ground.trail.region().is_fixed() {
        let plan = plan_of(alloc, p, ground.trail.region())?;
        out.step(desk, p, &Step::Plan(sum))?;
        brancher.met_plan(p, &plan);
        progress.best = Some(Best { plan, cost: sum });
        return Ok(true);
    }
    if progress.spent >= budget {
        out.step(desk, p, &Step::Left)?;
        progress.least = Some(lower(sum, progress.least));
        return Ok(true);
    }
    Ok(false)
}

/// Splits the region as the brancher says, and goes inside the part, behind a mark.
pub fn split<D: Desk>(
    p: &Problem,
    ground: &mut Ground,
    progress: &mut Progress,
    rules: &mut Vec<Box<dyn Propagator>>,
    brancher: &mut Box<dyn Brancher>,
    desk: &mut D,
    out: &mut CertWriter,
) -> Result<(Element, Part), OutFault>
    requires ground { IsGround p.now.given ground.old }
    requires clear { IsClear p.now.given progress.old.best (sets ground.old.trail.region) }
    requires free { ¬ IsFixed ground.old.trail.region }
    requires room { progress.old.spent + 1 < 2 ^ 64 }
    requires follow { AllFollow (λ b. meaning b) p.now.given ground.old.trail rules.old.items }
    requires writes { IsTrue (D.writes out.old) }
    requires current { D.current desk.old ≡ Some out.old }
    ensures writes { WritesOn D.tells D.files D.current D.read_faults D.write_faults desk.old desk.new out.old out.new (LeavesLines p.now.given D.tells) result }
    ensures same { Pairs (λ b. meaning b) SameRule rules.old.items rules.new.items }
    ensures follow { OnOk result (AllFollow (λ b. meaning b) p.now.given ground.new.trail rules.new.items) }
    ensures ground { OnOk result (IsGround p.now.given ground.new) }
    ensures split { IfOk result (λ s. Splits (λ b. meaning b) p.now.given D.tells progress.old progress.new (bytes_of (D.files desk.old out.old)) (bytes_of (D.files desk.new out.old)) rules.old.items rules.new.items ground.old.trail ground.new.trail s) }
{
    let (element, part) = brancher.choose(p, ground.trail.region());
    out.step(desk, p, &Step::Decide(element, part))?;
    progress.spent += 1;
    mark_levels(p, ground, rules)?;
    let change = Change {
        element,
        part,
        side: Side::Inside,
    };
    narrow_all(p, ground, rules, change)?;
    Ok((element, part))
}
