//! What event lines say of actions.
ghost use Rattle.std.specs.Prelude.{ℕ, List, MatchOption};
ghost use Rattle.transcript.specs.Prelude.{EventKind as AnEventKind, IsEvent};

use cluster::names::is_name_text;

/// What an event line says of an action.
#[derive(Clone, Copy, Debug, PartialEq, Eq)]
pub(crate) enum EventKind {
    End,
    Fail,
}

/// What an event line says, and of which name; `None` where it is no event line.
pub(crate) fn event_of(line: &[u8]) -> Option<(EventKind, &[u8])>
    ensures { MatchOption result ((kind : AnEventKind) (name : List ℕ) → ¬ IsEvent line.now kind name) (λ found. IsEvent line.now found.0 found.1.now) }
{
    let (kind, name) = match line {
        [b'e', b'n', b'd', b' ', name @ ..] => (EventKind::End, name),
        [b'f', b'a', b'i', b'l', b' ', name @ ..] => (EventKind::Fail, name),
        _ => return None,
    };
    if is_name_text(name) {
        Some((kind, name))
    } else {
        None
    }
}
