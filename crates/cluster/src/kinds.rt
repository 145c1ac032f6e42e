//! The kinds of actions.
ghost use Rattle.std.specs.Prelude.{◌≡◌, ◌<◌, slice_get};
ghost use Rattle.cluster.specs.Kinds.{kind_count, kind_number, kind_of_word, kind_word};

use crate::words::{place_of_word, word_at};

/// The kinds of actions: eight of machines, then two of nodes.
#[derive(Clone, Copy, Debug, PartialEq, Eq)]
pub enum Kind {
    Forge,
    Boot,
    Shutdown,
    Suspend,
    Resume,
    Migrate,
    Allocate,
    Kill,
    NodeBoot,
    NodeShutdown,
}

/// How many kinds there are.
pub const KIND_COUNT: usize = 10;

/// How many of them, the first ones, are kinds of machines.
pub const MACHINE_KIND_COUNT: usize = 8;

/// The ten kinds in their order, which is that of each list of durations.
pub const KINDS: [Kind; KIND_COUNT] = [
    Kind::Forge,
    Kind::Boot,
    Kind::Shutdown,
    Kind::Suspend,
    Kind::Resume,
    Kind::Migrate,
    Kind::Allocate,
    Kind::Kill,
    Kind::NodeBoot,
    Kind::NodeShutdown,
];

/// The words of the kinds, in the order of `KINDS`.
pub const KIND_WORDS: [&str; KIND_COUNT] = [
    "forge",
    "boot",
    "shutdown",
    "suspend",
    "resume",
    "migrate",
    "allocate",
    "kill",
    "node_boot",
    "node_shutdown",
];

impl Kind {
    /// The word of the kind.
    pub fn word(self) -> &'static str
        ensures { result.now ≡ kind_word self }
    {
        word_at(&KIND_WORDS, self.number())
    }

    /// The kind of a word; `None` exactly where no kind has it.
    pub fn of_word(word: &str) -> Option<Kind>
        ensures { result ≡ kind_of_word word.now }
    {
        let place = place_of_word(&KIND_WORDS, word)?;
        KINDS.get(place).copied()
    }

    /// The place of a kind in the order of the ten, from 0 to 9. A machine's kind is below 8.
    pub fn number(self) -> usize
        ensures number { result ≡ kind_number self }
        ensures place { slice_get KINDS result ≡ Some self }
        ensures within { result < kind_count }
    {
        match self {
            Kind::Forge => 0,
            Kind::Boot => 1,
            Kind::Shutdown => 2,
            Kind::Suspend => 3,
            Kind::Resume => 4,
            Kind::Migrate => 5,
            Kind::Allocate => 6,
            Kind::Kill => 7,
            Kind::NodeBoot => 8,
            Kind::NodeShutdown => 9,
        }
    }
}
