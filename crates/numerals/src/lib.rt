//! Numbers in texts: decimal, without a leading zero, below 2^64.
#![tactic(auto)]

ghost use Rattle.std.specs.Prelude.{◌≡◌};
ghost use Rattle.std.specs.Char.{is_ascii_digit};
ghost use Rattle.std.specs.List.{list_all};
ghost use Rattle.numerals.specs.Numbers.{is_numeral, number_of};

pub mod laws;

fn are_digits(word: &[u8]) -> bool
    ensures { result ≡ list_all is_ascii_digit word.now }
{
    word.iter().all(|b| b.is_ascii_digit())
}

/// Whether the bytes are digits without a leading zero.
#[tactic(auto, unfolding(crate::specs::Numbers::is_numeral))]
fn is_numeral(word: &[u8]) -> bool
    ensures { result ≡ is_numeral word.now }
{
    0 < word.len() && (word[0] != b'0' || word.len() == 1) && are_digits(word)
}

/// The number that the bytes are; `None` exactly where they are no decimal number, have a leading
/// zero, or are 2^64 or more.
pub fn number(word: &[u8]) -> Option<u64>
    ensures { result ≡ number_of word.now }
{
    if !is_numeral(word) {
        return None;
    }
    let text = match str::from_utf8(word) {
        Ok(text) => text,
        Err(_) => unreachable!(),
    };
    match text.parse::<u64>() {
        Ok(n) => Some(n),
        Err(_) => None,
    }
}
