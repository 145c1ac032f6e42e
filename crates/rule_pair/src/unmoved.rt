//! Whether a machine that has lost choices surely is nowhere where it was not before.
ghost use Rattle.std.specs.Prelude.{◌≡◌, ℕ, ◌<◌, false, IsTrue};
ghost use Rattle.rule_pair.specs.Prelude.{AreFewer, choices, domain_at, domain_before, have_come, IsSized, IsUnmoved, machine_count, sets};

use machine_bounds::leaving::leaves_as_soon;
use rule_frame::{Before, Domain, Element, Problem, Region, VmId};

// whether not all choices of a domain go to one node
#[tactic(auto, using(crate::proofs::UnmovedLemmas::idle_apart, crate::proofs::UnmovedLemmas::rows_apart))]
fn goes_apart(domain: &Domain) -> bool
    ensures { IsTrue result → (n t : ℕ) → have_come n t (choices domain.now) ≡ false }
{
    if domain.idle() {
        return true;
    }
    domain.rows().len() > 1
}

// whether it is seen that a machine that has lost choices surely is nowhere where it was not before: its choices go to
// different places still, or it may stay, and it may leave its host as soon
#[tactic(auto, using(crate::proofs::UnmovedLemmas::unmoved))]
fn is_unmoved(p: &Problem, v: VmId, domain: &Domain, before: Before, kept: &Domain) -> bool
    requires machine { v.0 < machine_count p.now.given }
    requires fewer { AreFewer (choices domain.now) (choices (domain_before before kept.now domain.now)) }
    ensures { IsTrue result → IsUnmoved p.now.given v.0 (choices (domain_before before kept.now domain.now)) (choices domain.now) }
{
    !domain.is_empty() && goes_apart(domain) && leaves_as_soon(p, v, domain, before, kept)
}

/// Whether it is seen that a machine of a region that has lost choices surely is nowhere where it was not before: then
/// its choices go to different places still, or it may stay, and it may leave its host as soon.
pub(crate) fn is_unmoved_in(p: &Problem, g: &Region, v: VmId, before: Before, kept: &Domain) -> bool
    requires region { IsSized p.now.given g.now }
    requires machine { v.0 < machine_count p.now.given }
    requires fewer { AreFewer (sets g.now (Element.Vm v)) (choices (domain_before before kept.now (domain_at g.now (Element.Vm v)))) }
    ensures { IsTrue result → IsUnmoved p.now.given v.0 (choices (domain_before before kept.now (domain_at g.now (Element.Vm v)))) (sets g.now (Element.Vm v)) }
{
    is_unmoved(p, v, g.domain(Element::Vm(v)), before, kept)
}
