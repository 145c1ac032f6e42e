//! Why bytes are no groups of nodes.

ghost use Rattle.std.specs.Prelude.{◌≡◌, ◌++◌, IfOk, codes, string_bytes};

use base::Memory;
use json_walk::{Fault, PathText, WalkFault};
use std::alloc::{AllocFailed, Global};

/// The first fault of groups, with the path at which it stands.
#[derive(Drop)]
pub enum GroupsFault {
    /// More than `json_walk::MAX_TEXT_BYTES` bytes.
    TooLong,
    /// The bytes have no value that `serde_json` reads.
    NotJson,
    /// A value is missing, of the wrong kind, out of range or unknown; at `groups` also a list without a group.
    Field(Fault),
    /// A well-formed name that is no listed node.
    NoSuch(PathText),
    /// A node that stood before, in this group or in another one.
    Twice(PathText),
    /// More groups than there may be.
    Limit(PathText),
    /// Want of memory.
    Memory,
}

impl From<WalkFault> for GroupsFault {
    ghost use Rattle.partition.specs.GroupsWalk.{as_groups_fault};

    ghost from_gives = { λ w e. e ≡ as_groups_fault w };

    fn from(fault: WalkFault) -> GroupsFault {
        match fault {
            WalkFault::Bad(fault) => GroupsFault::Field(fault),
            WalkFault::Memory => GroupsFault::Memory,
        }
    }
}

impl From<Memory> for GroupsFault {
    ghost use Rattle.partition.specs.declared.groups_fault.GroupsFault.TheVariants.{Memory as NoMemory};

    ghost from_gives = { λ _ e. e ≡ NoMemory };

    fn from(_error: Memory) -> GroupsFault {
        GroupsFault::Memory
    }
}

/// The value that found no room is dropped.
impl<T: Drop> From<AllocFailed<T>> for GroupsFault {
    ghost use Rattle.partition.specs.declared.groups_fault.GroupsFault.TheVariants.{Memory as NoMemory};

    ghost from_gives = { λ _ e. e ≡ NoMemory };

    fn from(_error: AllocFailed<T>) -> GroupsFault {
        GroupsFault::Memory
    }
}

impl GroupsFault {
    ghost use Rattle.partition.specs.GroupsText.{fault_text};

    /// What is wrong, after its path where it has one: the text that a command prints.
    #[tactic(auto, unfolding(crate::specs::GroupsText::fault_text))]
    pub fn text(&self, alloc: Global) -> Result<String, Memory>
        ensures { IfOk result (λ s. string_bytes s ≡ fault_text self.now) }
    {
        match self {
            GroupsFault::TooLong => word(alloc, "too long"),
            GroupsFault::NotJson => word(alloc, "not json"),
            GroupsFault::Field(fault) => after(alloc, fault.path.as_text(), fault.kind.as_text()),
            GroupsFault::NoSuch(path) => after(alloc, path.as_text(), "no such name"),
            GroupsFault::Twice(path) => after(alloc, path.as_text(), "twice"),
            GroupsFault::Limit(path) => after(alloc, path.as_text(), "over limit"),
            GroupsFault::Memory => word(alloc, "out of memory"),
        }
    }
}

fn word(alloc: Global, what: &str) -> Result<String, Memory>
    ensures { IfOk result (λ s. string_bytes s ≡ what.now) }
{
    Ok(String::from_str(alloc, what)?)
}

/// Where, and what is wrong there.
fn after(alloc: Global, place: &str, what: &str) -> Result<String, Memory>
    ensures { IfOk result (λ s. string_bytes s ≡ place.now ++ codes " " ++ what.now) }
{
    Ok(format!(in alloc; "{place} {what}")?)
}
