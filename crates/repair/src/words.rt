//! What event lines say of actions.
ghost use Rattle.std.specs.Prelude.{ℕ, List, MatchOption};
ghost use Rattle.repair.specs.Prelude.{IsEvent, Word as AWord};

use cluster::names::is_name_text;

/// What an event line says of an action.
#[derive(Clone, Copy, Debug, PartialEq, Eq)]
pub(crate) enum Word {
    Start,
    End,
    Fail,
}

/// What an event line says, and of which name; `None` where it is no event line.
pub(crate) fn word_of(line: &[u8]) -> Option<(Word, &[u8])>
    ensures { MatchOption result ((word : AWord) (name : List ℕ) → ¬ IsEvent line.now word name) (λ found. IsEvent line.now found.0 found.1.now) }
{
    let (word, name) = match line {
        [b's', b't', b'a', b'r', b't', b' ', name @ ..] => (Word::Start, name),
        [b'e', b'n', b'd', b' ', name @ ..] => (Word::End, name),
        [b'f', b'a', b'i', b'l', b' ', name @ ..] => (Word::Fail, name),
        _ => return None,
    };
    if is_name_text(name) {
        Some((word, name))
    } else {
        None
    }
}
