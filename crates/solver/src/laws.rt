//! A law of the definitions: the contract of a function that does nothing.
ghost use Rattle.solver.specs.Laws.{CertifiedIsAccepted};

/// The text of a certified answer has the verdict yes, strictly or not, and no other.
pub fn certified_is_accepted()
    ensures { CertifiedIsAccepted }
{}
