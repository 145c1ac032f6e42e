//! Words: how wide they are, and words that are cut to a width.
ghost use Rattle.std.specs.Prelude.{◌≤◌};

use base::Memory;
use std::alloc::Global;

/// How many characters are counted of a text at most.
const MOST: usize = 200;

/// How many pixels a text takes at most, 7 for a character.
pub(crate) fn width_of(text: &str) -> u64
    ensures { result ≤ 1400 }
{
    7 * text.chars().count().min(MOST) as u64
}

/// The first characters of a text, and two dots where there are more.
pub(crate) fn cut(alloc: Global, text: &str, most: usize) -> Result<String, Memory> {
    if text.chars().count() <= most {
        return Ok(text.to_string(alloc)?);
    }
    let mut short = String::new(alloc);
    for c in text.chars().take(most.saturating_sub(2)) {
        short.push(c)?;
    }
    short.push_str("..")?;
    Ok(short)
}
