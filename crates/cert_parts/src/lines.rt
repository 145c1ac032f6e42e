//! The lines of a text, one by one, and which of them name parts.
ghost use Rattle.std.specs.Prelude.{◌≡◌, ◌≢◌, ◌<◌, ◌^◌, ◌==◌, ◌++◌, ℕ, false, IsTrue, MatchOption};
ghost use Rattle.std.specs.List.{position};
ghost use Rattle.cert_parts.specs.Sections.{part_line, part_word};
ghost use Rattle.cert_parts.specs.Cuts.{SplitsBody, SplitsLine, StartsPart};

use numerals::number;

/// The place of the first newline.
fn newline_at(bytes: &[u8]) -> Option<usize>
    ensures { result ≡ position (λ b. b == 10) bytes.now }
{
    bytes.iter().position(|b| *b == b'\n')
}

/// The first line without its newline, and what comes after it.
#[tactic(auto, using(crate::proofs::FoundLemmas::newline_rules))]
pub(crate) fn split_line(bytes: &[u8]) -> (&[u8], &[u8])
    ensures { SplitsLine bytes.now result.0.now result.1.now }
{
    match newline_at(bytes) {
        Some(at) => (&bytes[..at], &bytes[at + 1..]),
        None => (bytes, &bytes[bytes.len()..]),
    }
}

/// What comes after the word that a line begins with, if it names a part.
fn after_word(text: &[u8]) -> Option<&[u8]>
    ensures { MatchOption result (¬ StartsPart text.now) (λ after. text.now ≡ part_word ++ after.now) }
{
    match text {
        [b'p', b'a', b'r', b't', b' ', after @ ..] => Some(after),
        _ => None,
    }
}

/// Whether a text begins as a line that names a part.
pub(crate) fn names_a_part(text: &[u8]) -> bool
    ensures yes { IsTrue result → StartsPart text.now }
    ensures no { result ≡ false → ¬ StartsPart text.now }
{
    after_word(text).is_some()
}

/// The number of the part that a line names.
#[tactic(auto, using(crate::proofs::FoundLemmas::number_rules))]
pub(crate) fn part_named(line: &[u8]) -> Option<u64>
    ensures { MatchOption result ((part : ℕ) → part < 2 ^ 64 → line.now ≢ part_line part) (λ part. line.now ≡ part_line part) }
{
    match after_word(line) {
        Some(word) => number(word),
        None => None,
    }
}
