//! One step of a certificate, taken by its names.
ghost use Rattle.std.specs.Prelude.{◌≡◌, IfOk, OnErr};
ghost use Rattle.cert_check.specs.Prelude.{FollowWalk, IsStanding, IsUnchanged, named_step, TextAnswers};

use crate::named::step_of;
use base::Memory;
use catalogue::Problem;
use cert_model::walk::Walk;
use cert_model::why::Why;
use cert_text::text::StepText;
use prop_core::propagator::Propagator;
use trees::Step;

/// Takes the step of a text where it is due, its names are the problem's, and it holds; else says the
/// first of these that is not so.
pub fn take(
    p: &Problem,
    walk: &mut Walk,
    rules: &mut Vec<Box<dyn Propagator>>,
    text: StepText,
) -> Result<Option<Why>, Memory>
    requires stands { IsStanding p.now.given walk.old }
    requires follow { FollowWalk (λ b. meaning b) p.now.given walk.old rules.old.items }
    ensures ok { IfOk result (TextAnswers p.now.given walk.old walk.new text) }
    ensures err { OnErr result (IsUnchanged walk.old walk.new) }
    ensures follow { FollowWalk (λ b. meaning b) p.now.given walk.new rules.new.items }
{
    let named = step_in(p, text);
    if walk.is_whole() {
        return Ok(Some(Why::Structure));
    }
    let Some(step) = named else {
        return Ok(Some(Why::Name));
    };
    walk.step(p, &step, rules)
}

// the step of a text, which is dropped
fn step_in(p: &Problem, text: StepText) -> Option<Step>
    ensures { result ≡ named_step p.now.given text }
{
    let step = step_of(p, &text);
    drop(text);
    step
}
