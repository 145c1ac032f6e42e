//! Numbers as they are written.
ghost use Rattle.std.specs.Prelude.{◌≡◌, ◌+◌, ◌<◌, true};
ghost use Rattle.std.specs.Fmt.{decimal};
ghost use Rattle.numerals.specs.Numbers.{number_of};

use numerals::number;

/// The digit of a number below ten.
fn digit_of(number: u64) -> u8
    requires { number < 10 }
    ensures { result ≡ 48 + number }
{
    b'0' + number as u8
}

/// Whether the bytes are the decimal text of a number.
pub(crate) fn is_decimal(bytes: &[u8], number: u64) -> bool
    ensures { result ≡ true → bytes.now ≡ decimal number }
{
    let mut rest = bytes;
    let mut left = number;
    'digits: while let [front @ .., last] = rest {
        if *last != digit_of(left % 10) {
            return false;
        }
        if left < 10 {
            return front.is_empty();
        }
        rest = front;
        left /= 10;
    }
    false
}

/// The number that the bytes are; `None` exactly where they are none. Most have one digit.
pub(crate) fn read_number(bytes: &[u8]) -> Option<u64>
    ensures { result ≡ number_of bytes.now }
{
    match bytes {
        [digit] if digit.is_ascii_digit() => Some((*digit - b'0') as u64),
        _ => number(bytes),
    }
}
