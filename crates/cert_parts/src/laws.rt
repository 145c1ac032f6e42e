//! The laws of sections: contracts of functions that do nothing. For each, a lemma of the same name
//! in proofs/Public proves it.
ghost use Rattle.cert_parts.specs.Laws.{CertificatesAreBodies, TextsAreCutOneWay, WrittenIsCut};

/// A text is cut into sections in one way at most.
pub fn texts_are_cut_one_way()
    ensures { TextsAreCutOneWay }
{}

/// The texts of sections of whole lines, one after the other, are cut into these sections again.
pub fn written_is_cut()
    ensures { WrittenIsCut }
{}

/// The text of a certificate is whole lines, and none of them names a part.
pub fn certificates_are_bodies()
    ensures { CertificatesAreBodies }
{}
