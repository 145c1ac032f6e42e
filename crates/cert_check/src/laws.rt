//! A law of the definitions: the contract of a function that does nothing, and a lemma of the same name
//! in proofs/Public proves it.
ghost use Rattle.cert_check.specs.Laws.{CertificateIsAccepted};

/// What is written of a tree that proves all legal choices for a valid plan, or for none, is accepted
/// with the goal and the least that it shows, also strictly where the tree is lean; no other verdict
/// on it is possible.
pub fn certificate_is_accepted()
    ensures { CertificateIsAccepted }
{}
