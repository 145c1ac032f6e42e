//! Asking the propagators of a list, one after the other.
ghost use Rattle.std.specs.Prelude.{◌≡◌, IfOk, MatchResult};
ghost use Rattle.prop_core.specs.Prelude.{AllRight, counted, Covered, HaveChoices, IsAsked, IsClosed, IsRegionOf, IsRight, Pairs, Rise, sets, steps_shown, TopAgrees, TopsAgree};

use crate::propagator::{Answer, Propagator};
use base::Memory;
use catalogue::Problem;
use domains::Region;

// asks one
fn ask(rule: &mut Box<dyn Propagator>, p: &Problem, g: &Region) -> Result<Answer, Memory>
    requires region { IsRegionOf p.now.given g.now }
    requires agreed { TopAgrees (meaning rule.old) p.now.given (sets g.now) }
    ensures asked { IsAsked p.now.given (sets g.now) (meaning rule.old) (meaning rule.new) }
    ensures answer { IfOk result (IsRight p.now.given (sets g.now) (meaning rule.old)) }
    ensures given { MatchResult result
        (λ a. (meaning rule.new).given ≡ counted (meaning rule.old).given a)
        (λ _. (meaning rule.new).given ≡ (meaning rule.old).given) }
{
    rule.propagate(p, g)
}

/// The first cut or fail that one of them answers, or quiet where all are. All levels stay, after `Memory`, for
/// want of memory, too.
pub fn ask_all(
    p: &Problem,
    g: &Region,
    rules: &mut Vec<Box<dyn Propagator>>,
) -> Result<Answer, Memory>
    requires region { IsRegionOf p.now.given g.now }
    requires agreed { TopsAgree (λ b. meaning b) p.now.given (sets g.now) rules.old.items }
    ensures asked { Pairs (λ b. meaning b) (IsAsked p.now.given (sets g.now)) rules.old.items rules.new.items }
    ensures answer { IfOk result (AllRight (λ b. meaning b) p.now.given (sets g.now) rules.new.items) }
    ensures given { Rise (λ b. meaning b) (steps_shown result) rules.old.items rules.new.items }
{
    for i in 0..rules.len() {
        match ask(&mut rules[i], p, g)? {
            Answer::Quiet => {}
            Answer::Cut(x, part, reason) => return Ok(Answer::Cut(x, part, reason)),
            Answer::Fail(reason) => return Ok(Answer::Fail(reason)),
        }
    }
    Ok(Answer::Quiet)
}

/// The law for who asks: where all were quiet, each standard kind is covered, and each element has a choice, the
/// region is closed. It does nothing.
pub fn closed_when_quiet(p: &Problem, g: &Region, rules: &Vec<Box<dyn Propagator>>)
    requires covered { Covered (λ b. meaning b) rules.now.items }
    requires quiet { AllRight (λ b. meaning b) p.now.given (sets g.now) rules.now.items Answer.Quiet }
    requires choices { HaveChoices p.now.given (sets g.now) }
    ensures { IsClosed p.now.given (sets g.now) }
{}
