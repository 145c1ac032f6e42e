//! A law of the definitions: the contract of a function that does nothing, and a lemma of the same name
//! in proofs/Public proves it.
ghost use Rattle.part_laws.specs.Laws.{AnsweredIsAccepted};

/// The text of an answer by solved parts has the verdict yes, with what the answer says, and no other.
pub fn answered_is_accepted()
    ensures { AnsweredIsAccepted }
{}
