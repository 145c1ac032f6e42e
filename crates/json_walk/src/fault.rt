//! What is wrong with a value, and where.

ghost use Rattle.std.specs.Prelude.{◌≡◌};
ghost use Rattle.json_walk.specs.declared.fault.WalkFault.TheVariants as walk_faults;
ghost use Rattle.json_walk.specs.declared.fault.JsonFault.TheVariants as json_faults;

use crate::path::PathText;
use base::Memory;

/// What is wrong with a value.
#[derive(Clone, Copy, Debug, PartialEq, Eq)]
pub enum FaultKind {
    /// A member that has to be there is absent.
    Missing,
    /// The value is of another kind: for a number, also one that is not whole.
    WrongKind,
    /// A whole number that is negative, too small or too great, or a text that is not well formed.
    OutOfRange,
    /// A word or a key that has no meaning here.
    Unknown,
}

impl FaultKind {
    ghost use Rattle.json_walk.specs.Texts.{kind_text};

    /// What is wrong, in the words that are printed after a path.
    #[tactic(auto, unfolding(crate::specs::Texts::kind_text))]
    pub fn as_text(self) -> &'static str
        ensures { result.now ≡ kind_text self }
    {
        match self {
            FaultKind::Missing => "missing",
            FaultKind::WrongKind => "wrong kind",
            FaultKind::OutOfRange => "out of range",
            FaultKind::Unknown => "unknown",
        }
    }
}

/// What is wrong, and the path at which it is.
#[derive(Drop)]
pub struct Fault {
    pub path: PathText,
    pub kind: FaultKind,
}

/// Why a test of a value has no answer.
#[derive(Drop)]
pub enum WalkFault {
    /// The value does not pass.
    Bad(Fault),
    /// Want of memory.
    Memory,
}

impl From<Memory> for WalkFault {
    ghost from_gives = { λ _ e. e ≡ walk_faults.Memory };

    fn from(_e: Memory) -> WalkFault {
        WalkFault::Memory
    }
}

/// Why bytes have no value.
#[derive(Clone, Copy, Debug, PartialEq, Eq)]
pub enum JsonFault {
    /// The bytes are not UTF-8, or no JSON that `serde_json` reads.
    NotJson,
    /// Want of memory.
    Memory,
}

impl From<Memory> for JsonFault {
    ghost from_gives = { λ _ e. e ≡ json_faults.Memory };

    fn from(_e: Memory) -> JsonFault {
        JsonFault::Memory
    }
}
