//! What is true of every generated problem: each law is the contract of a function that does nothing, and a
//! lemma of the same name in proofs/Public proves it.

ghost use Rattle.instance_make.specs.Emptying.{EmptyingIsValid};
ghost use Rattle.instance_make.specs.Laws.{GeneratedTextIsShort};

/// The plan in which the five machines of the node that is to be emptied migrate at 0, each to
/// another node, and the node shuts down when the last of them has come, is legal and valid.
pub fn emptying_is_valid()
    ensures { EmptyingIsValid }
{}

/// The text of a generated problem has at most 300,000 bytes, so it is never too long to be read.
pub fn generated_text_is_short()
    ensures { GeneratedTextIsShort }
{}
