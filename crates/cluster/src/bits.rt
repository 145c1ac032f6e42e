//! Words of 64 bits, in which a set keeps its numbers.
ghost use Rattle.std.specs.Prelude.{◌≡◌, ◌<◌, ◌/◌, length, MatchOption};
ghost use Rattle.cluster.specs.Bits.{HasNoBit, IsFirstBit, has_bit, with_bit};

/// Sets the bit of a number.
#[tactic(auto, using(crate::proofs::BitLemmas::one_shl))]
pub(crate) fn set_bit(words: &mut [u64], n: u32)
    requires { n / 64 < length words.old }
    ensures { words.new ≡ with_bit words.old n }
{
    words[(n / 64) as usize] |= 1 << (n % 64);
}

/// Whether the bit of a number is set, which that of a number past the end never is.
pub(crate) fn is_set(words: &[u64], n: u32) -> bool
    ensures { result ≡ has_bit words.now n }
{
    match words.get((n / 64) as usize) {
        Some(word) => (*word >> (n % 64)) & 1 == 1,
        None => false,
    }
}

/// The first place, from one on, at which a bit of a word is set, if there is one.
pub(crate) fn first_set(word: u64, from: usize) -> Option<usize>
    ensures { MatchOption result (HasNoBit word from) (IsFirstBit word from) }
{
    if from >= 64 {
        return None;
    }
    let rest = word >> from;
    if rest == 0 {
        return None;
    }
    Some(from + rest.trailing_zeros() as usize)
}
