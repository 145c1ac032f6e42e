//! The kinds of constraints, by the words that calls begin with.
ghost use Rattle.std.specs.Prelude.{◌≡◌, ◌<◌, IfSome, Some, length, slice_get};
ghost use Rattle.std.specs.List.{position};
ghost use Rattle.std.specs.Str.{bytes_eq};
ghost use Rattle.rule_script.specs.Kinds.{kind_of};

use catalogue::constraint::CONSTRAINT_WORDS;

/// The kind of constraint that a call makes.
#[derive(Clone, Copy)]
pub enum RuleKind {
    Spread,
    Ban,
    Fence,
    Gather,
    Lonely,
    Among,
    Split,
    Root,
    Precedence,
    Serialize,
    Preserve,
    ResourceCapacity,
    RunningCapacity,
    MaxOnline,
    Overbook,
    Online,
    Offline,
    Running,
    Sleeping,
    Ready,
    Killed,
}

/// The kinds, in the order of `CONSTRAINT_WORDS`.
pub const RULE_KINDS: [RuleKind; 21] = [
    RuleKind::Spread,
    RuleKind::Ban,
    RuleKind::Fence,
    RuleKind::Gather,
    RuleKind::Lonely,
    RuleKind::Among,
    RuleKind::Split,
    RuleKind::Root,
    RuleKind::Precedence,
    RuleKind::Serialize,
    RuleKind::Preserve,
    RuleKind::ResourceCapacity,
    RuleKind::RunningCapacity,
    RuleKind::MaxOnline,
    RuleKind::Overbook,
    RuleKind::Online,
    RuleKind::Offline,
    RuleKind::Running,
    RuleKind::Sleeping,
    RuleKind::Ready,
    RuleKind::Killed,
];

/// The first place of the table that has the word.
fn place_of(words: &[&'static str], word: &[u8]) -> Option<usize>
    ensures place { result ≡ position (λ w. bytes_eq word.now w.now) words.now }
    ensures within { IfSome result (λ place. place < length words.now) }
{
    words.iter().position(|w| word == w.as_bytes())
}

fn kind_at(kinds: &[RuleKind], place: usize) -> RuleKind
    requires { place < length kinds.now }
    ensures { slice_get kinds.now place ≡ Some result }
{
    kinds[place]
}

/// The kind of a word; `None` exactly where no kind has it.
pub fn kind_of(word: &[u8]) -> Option<RuleKind>
    ensures { result ≡ kind_of word.now }
{
    let place = place_of(&CONSTRAINT_WORDS, word)?;
    Some(kind_at(&RULE_KINDS, place))
}
