//! A law of certificates: it is the contract of a function that does nothing, and a lemma of the same
//! name in proofs/Public proves it.
ghost use Rattle.cert_read.specs.Laws.{CertificatesReadBack};

/// What was written of steps that can be written, and of a goal, is read back line by line.
pub fn certificates_read_back()
    ensures { CertificatesReadBack }
{}
