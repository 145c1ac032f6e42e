//! Which kinds of reasons a list of propagators covers.
ghost use Rattle.std.specs.Prelude.{◌≡◌, ◌↔◌, ◌&&◌, IsTrue};
ghost use Rattle.prop_core.specs.Lists.{Covered, is_covered};

use crate::propagator::Propagator;
use reasons::ReasonKind;

// whether it covers a kind
fn covers_kind(rule: &Box<dyn Propagator>, kind: ReasonKind) -> bool
    ensures { result ≡ (meaning rule.now).covers kind }
{
    rule.covers(kind)
}

// whether one of them covers a kind
#[tactic(auto, using(std::proofs::lemmas::List::Folds::list_any_at, std::proofs::lemmas::List::Folds::list_any_more))]
fn some_covers(rules: &Vec<Box<dyn Propagator>>, kind: ReasonKind) -> bool
    ensures { result ≡ is_covered (λ b. meaning b) rules.now.items kind }
{
    for rule in rules {
        if covers_kind(rule, kind) {
            return true;
        }
    }
    false
}

// whether one of them covers the first of the standard kinds, one the second, and so on
fn covers_each(rules: &Vec<Box<dyn Propagator>>) -> bool
    ensures { result ≡ (is_covered (λ b. meaning b) rules.now.items ReasonKind.Load
        && (is_covered (λ b. meaning b) rules.now.items ReasonKind.Pair
        && (is_covered (λ b. meaning b) rules.now.items ReasonKind.Place
        && (is_covered (λ b. meaning b) rules.now.items ReasonKind.Group
        && (is_covered (λ b. meaning b) rules.now.items ReasonKind.SetLoad
        && (is_covered (λ b. meaning b) rules.now.items ReasonKind.Power
        && is_covered (λ b. meaning b) rules.now.items ReasonKind.Usable)))))) }
{
    some_covers(rules, ReasonKind::Load)
        && some_covers(rules, ReasonKind::Pair)
        && some_covers(rules, ReasonKind::Place)
        && some_covers(rules, ReasonKind::Group)
        && some_covers(rules, ReasonKind::SetLoad)
        && some_covers(rules, ReasonKind::Power)
        && some_covers(rules, ReasonKind::Usable)
}

/// Whether each of the seven kinds of standard reasons is covered by some propagator.
pub fn covered(rules: &Vec<Box<dyn Propagator>>) -> bool
    ensures { IsTrue result ↔ Covered (λ b. meaning b) rules.now.items }
{
    covers_each(rules)
}
