//! Rules that follow a trail: posted, told of changes, marked, asked until they are quiet, and taken back.
ghost use Rattle.std.specs.Prelude.{◌≡◌, ◌∷◌, ◌<◌, [], IfOk, OnOk, length};
ghost use Rattle.catalogue.specs.Instance.{IsElement};
ghost use Rattle.domains.specs.Sets.{sets};
ghost use Rattle.prop_core.specs.Levels.{AllFollow, IsTrailOf};
ghost use Rattle.prop_core.specs.Lists.{AllRight};

use base::Memory;
use catalogue::Problem;
use domains::{Change, Domain, Side};
use prop_core::all::{back_all, mark_all, post_all, tell_all};
use prop_core::asking::ask_all;
use prop_core::propagator::{Answer, Propagator};
use relax::start::start_region;
use std::alloc::Global;
use trail::Trail;

/// A trail of the start region, on which the rules are posted.
fn started(
    alloc: Global,
    p: &Problem,
    rules: &mut Vec<Box<dyn Propagator>>,
) -> Result<Trail, Memory>
    ensures trail { IfOk result (IsTrailOf p.now.given) }
    ensures unmarked { IfOk result (λ t. t.marks ≡ []) }
    ensures follow { IfOk result (λ t. AllFollow (λ b. meaning b) p.now.given t rules.new.items) }
{
    let g = start_region(alloc, p)?;
    post_all(p, &g, rules)?;
    Ok(Trail::new(alloc, g))
}

/// Narrows an element, and tells the rules.
fn narrow(
    p: &Problem,
    trail: &mut Trail,
    rules: &mut Vec<Box<dyn Propagator>>,
    kept: &mut Domain,
    change: Change,
) -> Result<(), Memory>
    requires element { IsElement p.now.given change.element }
    requires trail { IsTrailOf p.now.given trail.old }
    requires follow { AllFollow (λ b. meaning b) p.now.given trail.old rules.old.items }
    ensures trail { OnOk result (IsTrailOf p.now.given trail.new) }
    ensures marks { OnOk result (trail.new.marks ≡ trail.old.marks) }
    ensures follow { OnOk result (AllFollow (λ b. meaning b) p.now.given trail.new rules.new.items) }
{
    let before = trail.apply_told(change, kept)?;
    tell_all(p, trail.region(), rules, change, before, kept)?;
    Ok(())
}

/// Makes the first mark.
fn mark(p: &Problem, trail: &mut Trail, rules: &mut Vec<Box<dyn Propagator>>) -> Result<(), Memory>
    requires trail { IsTrailOf p.now.given trail.old }
    requires unmarked { trail.old.marks ≡ [] }
    requires follow { AllFollow (λ b. meaning b) p.now.given trail.old rules.old.items }
    ensures trail { OnOk result (IsTrailOf p.now.given trail.new) }
    ensures marked { OnOk result (0 < length trail.new.marks) }
    ensures follow { OnOk result (AllFollow (λ b. meaning b) p.now.given trail.new rules.new.items) }
{
    mark_all(rules)?;
    trail.mark()?;
    Ok(())
}

/// Goes back to the last mark.
fn back(p: &Problem, trail: &mut Trail, rules: &mut Vec<Box<dyn Propagator>>)
    requires trail { IsTrailOf p.now.given trail.old }
    requires marked { 0 < length trail.old.marks }
    requires follow { AllFollow (λ b. meaning b) p.now.given trail.old rules.old.items }
    ensures trail { IsTrailOf p.now.given trail.new }
    ensures follow { AllFollow (λ b. meaning b) p.now.given trail.new rules.new.items }
{
    back_all(rules);
    trail.back();
}

/// What one question has led to.
#[derive(Clone, Copy)]
enum Answered {
    Settled,
    Narrowed(Change),
}

/// Asks the rules.
fn ask(p: &Problem, trail: &Trail, rules: &mut Vec<Box<dyn Propagator>>) -> Result<Answer, Memory>
    requires trail { IsTrailOf p.now.given trail.now }
    requires follow { AllFollow (λ b. meaning b) p.now.given trail.now rules.old.items }
    ensures follow { AllFollow (λ b. meaning b) p.now.given trail.now rules.new.items }
    ensures answer { IfOk result (AllRight (λ b. meaning b) p.now.given (sets trail.now.region) rules.new.items) }
{
    ask_all(p, trail.region(), rules)
}

/// Asks the rules, and makes the cut that they answer.
fn step(
    p: &Problem,
    trail: &mut Trail,
    rules: &mut Vec<Box<dyn Propagator>>,
    kept: &mut Domain,
) -> Result<Answered, Memory>
    requires trail { IsTrailOf p.now.given trail.old }
    requires follow { AllFollow (λ b. meaning b) p.now.given trail.old rules.old.items }
    ensures trail { OnOk result (IsTrailOf p.now.given trail.new) }
    ensures marks { OnOk result (trail.new.marks ≡ trail.old.marks) }
    ensures follow { OnOk result (AllFollow (λ b. meaning b) p.now.given trail.new rules.new.items) }
{
    match ask(p, trail, rules)? {
        Answer::Quiet | Answer::Fail(_) => Ok(Answered::Settled),
        Answer::Cut(element, part, _) => {
            let change = Change {
                element,
                part,
                side: Side::Outside,
            };
            narrow(p, trail, rules, kept, change)?;
            Ok(Answered::Narrowed(change))
        }
    }
}

/// Asks until nothing is cut any more.
fn settle(
    p: &Problem,
    trail: &mut Trail,
    rules: &mut Vec<Box<dyn Propagator>>,
    kept: &mut Domain,
    cuts: &mut Vec<Change>,
) -> Result<(), Memory>
    requires trail { IsTrailOf p.now.given trail.old }
    requires follow { AllFollow (λ b. meaning b) p.now.given trail.old rules.old.items }
    ensures trail { OnOk result (IsTrailOf p.now.given trail.new) }
    ensures marks { OnOk result (trail.new.marks ≡ trail.old.marks) }
    ensures follow { OnOk result (AllFollow (λ b. meaning b) p.now.given trail.new rules.new.items) }
{
    for _ in 0..1_000 {
        match step(p, trail, rules, kept)? {
            Answered::Settled => return Ok(()),
            Answered::Narrowed(change) => cuts.push(change)?,
        }
    }
    Ok(())
}

/// The cuts above a mark, and again after going back to it.
#[derive(Drop)]
pub struct Both {
    pub first: Vec<Change>,
    pub again: Vec<Change>,
}

/// Settles the start region twice, with a return to the mark between.
pub fn run(
    alloc: Global,
    p: &Problem,
    rules: &mut Vec<Box<dyn Propagator>>,
) -> Result<Both, Memory> {
    let mut kept = Domain::new(alloc, false);
    let mut cuts = Both {
        first: Vec::new(alloc),
        again: Vec::new(alloc),
    };
    let mut trail = started(alloc, p, rules)?;
    mark(p, &mut trail, rules)?;
    settle(p, &mut trail, rules, &mut kept, &mut cuts.first)?;
    back(p, &mut trail, rules);
    settle(p, &mut trail, rules, &mut kept, &mut cuts.again)?;
    Ok(cuts)
}
