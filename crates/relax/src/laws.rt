//! Laws of legal regions: each is the contract of a function that does nothing, and a lemma of the same
//! name in proofs/Public proves it.
ghost use Rattle.relax.specs.Laws.{LegalStays};

/// A narrowing keeps choices legal.
pub fn legal_stays()
    ensures { LegalStays }
{}
