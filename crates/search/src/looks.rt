//! Closing a region: propagators are asked until none of them objects, or until it is refuted.
ghost use Rattle.std.specs.Prelude.{◌≡◌, ℕ, ◌<◌, ◌≤◌, ◌++◌, ◌∷◌, [], false, true, IfOk, OnOk, IfSome, IsTrue, Option, Some};
ghost use Rattle.std.specs.Option.{IsSomeAnd};
ghost use Rattle.search.specs.Prelude.{AllFollow, bytes_of, choice_count, cost_kept, Covered, cut_steps, CutHolds, Element as AnyElement, Fail as FailStep, HasReason, HaveChoices, IsClear, IsElement, IsGround, least_cost, LeavesLines, lines, machine_count, node_count, open_after, outside, Pairs, SameCover, SameRule, sets, step_line, still_open, Works, WritesOn};

use crate::ground::Ground;
use crate::levels::narrow_all;
use crate::progress::Progress;
use branching::brancher::Brancher;
use catalogue::Problem;
use cert_write::CertWriter;
use cluster::Element;
use domains::{Change, Part, Side};
use plan_io::{Desk, OutFault};
use prop_core::asking::ask_all;
use prop_core::propagator::{Answer, Propagator};
use reasons::Reason;
use trees::Step;

/// What one look at a region has found.
#[derive(Clone, Copy)]
pub enum Look {
    /// It is closed, and may hold a plan that is cheaper than the one that is kept.
    Clear,
    /// Some choices were cut away.
    Narrowed,
    /// It was refuted.
    Refuted,
}

// whether a sum reaches the cost of the plan that is kept, if one is
fn is_reached(progress: &Progress, sum: u64) -> bool
    ensures yes { IsTrue result → IsSomeAnd (cost_kept progress.now.best) (λ known. known ≤ sum) }
    ensures no { result ≡ false → IfSome (cost_kept progress.now.best) (λ known. sum < known) }
{
    match &progress.best {
        None => false,
        Some(best) => best.cost <= sum,
    }
}

/// Writes that the region at hand is refuted.
pub fn fail<D: Desk>(
    p: &Problem,
    element: Option<Element>,
    reason: Reason,
    brancher: &mut Box<dyn Brancher>,
    desk: &mut D,
    out: &mut CertWriter,
) -> Result<(), OutFault>
    requires reason { HasReason p.now.given reason }
    requires writes { IsTrue (D.writes out.old) }
    requires current { D.current desk.old ≡ Some out.old }
    ensures writes { WritesOn D.tells D.files D.current D.read_faults D.write_faults desk.old desk.new out.old out.new (LeavesLines p.now.given D.tells) result }
    ensures written { IsTrue D.tells → OnOk result (D.files desk.new out.old ≡ Some ((bytes_of (D.files desk.old out.old)) ++ lines p.now.given (FailStep reason ∷ []))) }
{
    out.step(desk, p, &Step::Fail(reason))?;
    brancher.failed(p, element, &reason);
    Ok(())
}

/// Writes a cut, and takes the choices away. False where its element has none left, which is written too.
fn cut<D: Desk>(
    p: &Problem,
    element: Element,
    part: Part,
    reason: Reason,
    ground: &mut Ground,
    rules: &mut Vec<Box<dyn Propagator>>,
    brancher: &mut Box<dyn Brancher>,
    desk: &mut D,
    out: &mut CertWriter,
) -> Result<bool, OutFault>
    requires holds { CutHolds p.now.given (sets ground.old.trail.region) element part reason }
    requires ground { IsGround p.now.given ground.old }
    requires some { HaveChoices p.now.given (sets ground.old.trail.region) }
    requires follow { AllFollow (λ b. meaning b) p.now.given ground.old.trail rules.old.items }
    requires writes { IsTrue (D.writes out.old) }
    requires current { D.current desk.old ≡ Some out.old }
    ensures writes { WritesOn D.tells D.files D.current D.read_faults D.write_faults desk.old desk.new out.old out.new (LeavesLines p.now.given D.tells) result }
    ensures same { Pairs (λ b. meaning b) SameRule rules.old.items rules.new.items }
    ensures follow { OnOk result (AllFollow (λ b. meaning b) p.now.given ground.new.trail rules.new.items) }
    ensures ground { OnOk result (IsGround p.now.given ground.new) }
    ensures marks { OnOk result (ground.new.trail.marks ≡ ground.old.trail.marks) }
    ensures sets { OnOk result ((e : AnyElement) → sets ground.new.trail.region e ≡ outside element part (sets ground.old.trail.region) e) }
    ensures some { IfOk result (λ yes. yes ≡ true → HaveChoices p.now.given (sets ground.new.trail.region)) }
    ensures none { IfOk result (λ yes. yes ≡ false → sets ground.new.trail.region element ≡ []) }
    ensures written { IsTrue D.tells → IfOk result (λ yes. bytes_of (D.files desk.new out.old) ≡ (bytes_of (D.files desk.old out.old)) ++ lines p.now.given (cut_steps yes element part reason)) }
{
    out.step(desk, p, &Step::Cut(element, part, reason))?;
    brancher.failed(p, Some(element), &reason);
    let change = Change {
        element,
        part,
        side: Side::Outside,
    };
    narrow_all(p, ground, rules, change)?;
    if ground.trail.region().domain(element).is_empty() {
        fail(
            p,
            Some(element),
            Reason::Empty(element),
            brancher,
            desk,
            out,
        )?;
        return Ok(false);
    }
    Ok(true)
}

/// Looks at the region once: by the sum of its least ends, and then by the propagators.
fn look_once<D: Desk>(
    p: &Problem,
    progress: &Progress,
    ground: &mut Ground,
    rules: &mut Vec<Box<dyn Propagator>>,
    brancher: &mut Box<dyn Brancher>,
    desk: &mut D,
    out: &mut CertWriter,
) -> Result<Look, OutFault>
    requires covered { Covered (λ b. meaning b) rules.old.items }
    requires ground { IsGround p.now.given ground.old }
    requires some { HaveChoices p.now.given (sets ground.old.trail.region) }
    requires follow { AllFollow (λ b. meaning b) p.now.given ground.old.trail rules.old.items }
    requires writes { IsTrue (D.writes out.old) }
    requires current { D.current desk.old ≡ Some out.old }
    ensures writes { WritesOn D.tells D.files D.current D.read_faults D.write_faults desk.old desk.new out.old out.new (LeavesLines p.now.given D.tells) result }
    ensures covers { Pairs (λ b. meaning b) SameCover rules.old.items rules.new.items }
    ensures follow { OnOk result (AllFollow (λ b. meaning b) p.now.given ground.new.trail rules.new.items) }
    ensures ground { OnOk result (IsGround p.now.given ground.new) }
    ensures marks { OnOk result (ground.new.trail.marks ≡ ground.old.trail.marks) }
    ensures clear { IfOk result (λ found. found ≡ Look.Clear → IsClear p.now.given progress.now.best (sets ground.new.trail.region)) }
    ensures some { IfOk result (λ found. found ≡ Look.Narrowed → HaveChoices p.now.given (sets ground.new.trail.region)) }
    ensures smaller { IfOk result (λ found. found ≡ Look.Narrowed → choice_count (machine_count p.now.given) (node_count p.now.given) (sets ground.new.trail.region) < choice_count (machine_count p.now.given) (node_count p.now.given) (sets ground.old.trail.region)) }
    ensures works { IfOk result (λ found. (budget : ℕ) → Works (λ b. meaning b) p.now.given budget D.tells progress.now progress.now (bytes_of (D.files desk.old out.old)) (bytes_of (D.files desk.new out.old)) rules.old.items rules.new.items (sets ground.old.trail.region) (open_after found (sets ground.new.trail.region))) }
{
    if is_reached(progress, ground.bound.sum()) {
        fail(p, None, Reason::Bound, brancher, desk, out)?;
        return Ok(Look::Refuted);
    }
    match ask_all(p, ground.trail.region(), rules)? {
        Answer::Quiet => Ok(Look::Clear),
        Answer::Fail(reason) => {
            fail(p, None, reason, brancher, desk, out)?;
            Ok(Look::Refuted)
        }
        Answer::Cut(element, part, reason) => {
            let is_left = cut(p, element, part, reason, ground, rules, brancher, desk, out)?;
            if !is_left {
                return Ok(Look::Refuted);
            }
            Ok(Look::Narrowed)
        }
    }
}

/// Looks at the region until it is closed and may hold a cheaper plan, which is answered by true, or until
/// it is refuted.
pub fn close<D: Desk>(
    p: &Problem,
    progress: &Progress,
    ground: &mut Ground,
    rules: &mut Vec<Box<dyn Propagator>>,
    brancher: &mut Box<dyn Brancher>,
    desk: &mut D,
    out: &mut CertWriter,
) -> Result<bool, OutFault>
    requires covered { Covered (λ b. meaning b) rules.old.items }
    requires ground { IsGround p.now.given ground.old }
    requires some { HaveChoices p.now.given (sets ground.old.trail.region) }
    requires follow { AllFollow (λ b. meaning b) p.now.given ground.old.trail rules.old.items }
    requires writes { IsTrue (D.writes out.old) }
    requires current { D.current desk.old ≡ Some out.old }
    ensures writes { WritesOn D.tells D.files D.current D.read_faults D.write_faults desk.old desk.new out.old out.new (LeavesLines p.now.given D.tells) result }
    ensures covers { Pairs (λ b. meaning b) SameCover rules.old.items rules.new.items }
    ensures follow { OnOk result (AllFollow (λ b. meaning b) p.now.given ground.new.trail rules.new.items) }
    ensures ground { OnOk result (IsGround p.now.given ground.new) }
    ensures marks { OnOk result (ground.new.trail.marks ≡ ground.old.trail.marks) }
    ensures clear { IfOk result (λ yes. yes ≡ true → IsClear p.now.given progress.now.best (sets ground.new.trail.region)) }
    ensures works { IfOk result (λ yes. (budget : ℕ) → Works (λ b. meaning b) p.now.given budget D.tells progress.now progress.now (bytes_of (D.files desk.old out.old)) (bytes_of (D.files desk.new out.old)) rules.old.items rules.new.items (sets ground.old.trail.region) (still_open yes (sets ground.new.trail.region))) }
{
    'looks: loop {
        match look_once(p, progress, ground, rules, brancher, desk, out)? {
            Look::Clear => return Ok(true),
            Look::Refuted => return Ok(false),
            Look::Narrowed => {}
        }
    }
}
