//! The law of numbers in texts: the contract of a function that does nothing. A lemma of the same
//! name in proofs/Public proves it.
ghost use Rattle.numerals.specs.Laws.{NumbersAreExact};

/// What is read as a number is its decimal text, and the decimal text of a number is read as it.
pub fn numbers_are_exact()
    ensures { NumbersAreExact }
{}
