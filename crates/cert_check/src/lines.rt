//! The lines of a certificate, one after another, up to the one that decides.
ghost use Rattle.std.specs.Prelude.{◌≡◌, ◌<◌, ◌^◌, ℕ, Bool, List, true, IfOk, IfSome, IsTrue, Ok, Option as AnyOption};
ghost use Rattle.std.specs.Option.{option_copied};
ghost use Rattle.cert_check.specs.Prelude.{bound_of, bytes_of, choices_handed, Concludes, CountsCheck, End, FollowWalk, Instance, IsGoing, IsPlanOf, IsUnderway, Position, StandsIn, turn as read_at, TurnGives};

use crate::take::take;
use crate::verdict::{CheckFault, Verdict};
use catalogue::Problem;
use cert_model::walk::Walk;
use cert_read::{CertReader, Line};
use plan_io::Desk;
use prop_core::propagator::Propagator;
use slices::Plan;
use std::alloc::Global;
use trees::Goal;

/// What one line gives.
#[derive(Clone, Copy)]
pub enum Going {
    /// It is a step that was taken.
    GoesOn,
    /// It decides.
    Ends(Verdict),
}

/// What the lines of a certificate say, for a plan that is handed in, or for none.
pub fn check_lines<D: Desk>(
    alloc: Global,
    p: &Problem,
    plan: Option<&Plan>,
    desk: &mut D,
    name: &str,
    strict: bool,
    rules: &mut Vec<Box<dyn Propagator>>,
) -> Result<Verdict, CheckFault>
    requires plan { IfSome plan (λ a. IsPlanOf p.now.given a.now) }
    requires reads { IsTrue (D.reads name.now) }
    ensures verdict { Concludes p.now.given (bound_of p.now.given (choices_handed (option_copied plan.entry))) strict (IsTrue D.tells) (bytes_of (D.files desk.old name.now)) result }
    ensures files { IsTrue D.tells → D.files desk.new ≡ D.files desk.old }
    ensures current { D.current desk.new ≡ D.current desk.old }
    ensures cause { CountsCheck (D.read_faults desk.old) (D.read_faults desk.new) result }
    ensures writes_kept { D.write_faults desk.new ≡ D.write_faults desk.old }
{
    let mut walk = Walk::new(alloc, p, plan, strict, rules)?;
    let mut reader = CertReader::new(alloc, name)?;
    'lines: loop {
        if let Going::Ends(verdict) = turn(p, desk, &mut reader, &mut walk, rules)? {
            return Ok(verdict);
        }
    }
}

// takes the next line
fn turn<D: Desk>(
    p: &Problem,
    desk: &mut D,
    reader: &mut CertReader,
    walk: &mut Walk,
    rules: &mut Vec<Box<dyn Propagator>>,
) -> Result<Going, CheckFault>
    requires reads { IsTrue (D.reads reader.old.name) }
    requires stands { IsTrue D.tells → StandsIn (bytes_of (D.files desk.old reader.old.name)) reader.old }
    requires going { IsGoing p.now.given (IsTrue D.tells) (bytes_of (D.files desk.old reader.old.name)) reader.old.at walk.old }
    requires follow { FollowWalk (λ b. meaning b) p.now.given walk.old rules.old.items }
    ensures turn { (bound : AnyOption ℕ) (strict : Bool) (file : List ℕ) → (IsTrue D.tells → file ≡ bytes_of (D.files desk.old reader.old.name))
        → IsUnderway p.now.given bound strict (IsTrue D.tells) file reader.old.at walk.old
        → TurnGives p.now.given bound strict (IsTrue D.tells) file reader.new.at walk.new result }
    ensures stands { IsTrue D.tells → StandsIn (bytes_of (D.files desk.old reader.old.name)) reader.new }
    ensures follow { FollowWalk (λ b. meaning b) p.now.given walk.new rules.new.items }
    ensures moves { IfOk result (λ t. t ≡ Going.GoesOn → (reader.old.at.place < reader.new.at.place) × (reader.new.at.place < 2 ^ 64)) }
    ensures name { reader.new.name ≡ reader.old.name }
    ensures files { IsTrue D.tells → D.files desk.new ≡ D.files desk.old }
    ensures current { D.current desk.new ≡ D.current desk.old }
    ensures cause { CountsCheck (D.read_faults desk.old) (D.read_faults desk.new) result }
    ensures writes_kept { D.write_faults desk.new ≡ D.write_faults desk.old }
{
    match reader.next(desk)? {
        Line::Step(text) => match take(p, walk, rules, text)? {
            None => Ok(Going::GoesOn),
            Some(why) => Ok(Going::Ends(Verdict::No {
                line: reader.lines(),
                why,
            })),
        },
        Line::End(goal) => Ok(Going::Ends(end(desk, reader, walk, goal)?)),
        Line::Over => unreachable!(),
    }
}

// the verdict at the end line, whose goal this is; nothing may follow it
fn end<D: Desk>(
    desk: &mut D,
    reader: &mut CertReader,
    walk: &Walk,
    goal: Goal,
) -> Result<Verdict, CheckFault>
    requires reads { IsTrue (D.reads reader.old.name) }
    requires stands { IsTrue D.tells → StandsIn (bytes_of (D.files desk.old reader.old.name)) reader.old }
    requires ended { reader.old.at.ended ≡ true }
    ensures verdict { (p : Instance) (bound : AnyOption ℕ) (strict : Bool) (file : List ℕ) (at : Position) → (IsTrue D.tells → file ≡ bytes_of (D.files desk.old reader.old.name))
        → (IsTrue D.tells → read_at file at ≡ Ok (End goal, reader.old.at))
        → IsUnderway p bound strict (IsTrue D.tells) file at walk.now
        → Concludes p bound strict (IsTrue D.tells) file result }
    ensures stands { IsTrue D.tells → StandsIn (bytes_of (D.files desk.old reader.old.name)) reader.new }
    ensures name { reader.new.name ≡ reader.old.name }
    ensures files { IsTrue D.tells → D.files desk.new ≡ D.files desk.old }
    ensures current { D.current desk.new ≡ D.current desk.old }
    ensures cause { CountsCheck (D.read_faults desk.old) (D.read_faults desk.new) result }
    ensures writes_kept { D.write_faults desk.new ≡ D.write_faults desk.old }
{
    if let Some(why) = walk.finish(goal) {
        return Ok(Verdict::No {
            line: reader.lines(),
            why,
        });
    }
    drop(reader.next(desk)?);
    Ok(Verdict::Yes {
        goal,
        least: walk.least(),
    })
}
