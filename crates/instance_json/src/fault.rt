//! Why bytes are no instance.

ghost use Rattle.std.specs.Prelude.{◌≡◌, ◌++◌, IfOk, codes, string_bytes};

use base::Memory;
use json_walk::{Fault, PathText, WalkFault};
use std::alloc::{AllocFailed, Global};

/// The first fault of an instance, with the path at which it stands.
#[derive(Drop)]
pub enum InstanceFault {
    /// More than `json_walk::MAX_TEXT_BYTES` bytes.
    TooLong,
    /// The bytes have no value that `serde_json` reads.
    NotJson,
    /// A value is missing, of the wrong kind, out of range or unknown.
    Field(Fault),
    /// A name stands here for the second time.
    Twice(PathText),
    /// A well-formed name that is not listed, or is not of this sort.
    NoSuch(PathText),
    /// The host of a machine is offline.
    BadHost(PathText),
    /// A list is too long.
    Limit(PathText),
    /// Want of memory.
    Memory,
}

impl From<WalkFault> for InstanceFault {
    ghost use Rattle.std.specs.Prelude.{◌≡◌};
    ghost use Rattle.instance_json.specs.Walk.{as_instance_fault};

    ghost from_gives = { λ w e. e ≡ as_instance_fault w };

    fn from(fault: WalkFault) -> InstanceFault {
        match fault {
            WalkFault::Bad(fault) => InstanceFault::Field(fault),
            WalkFault::Memory => InstanceFault::Memory,
        }
    }
}

impl From<Memory> for InstanceFault {
    ghost use Rattle.std.specs.Prelude.{◌≡◌};
    ghost use Rattle.instance_json.specs.declared.fault.InstanceFault.TheVariants.{Memory as NoMemory};

    ghost from_gives = { λ _ e. e ≡ NoMemory };

    fn from(_error: Memory) -> InstanceFault {
        InstanceFault::Memory
    }
}

impl<T: Drop> From<AllocFailed<T>> for InstanceFault {
    ghost use Rattle.std.specs.Prelude.{◌≡◌};
    ghost use Rattle.instance_json.specs.declared.fault.InstanceFault.TheVariants.{Memory as NoMemory};

    ghost from_gives = { λ _ e. e ≡ NoMemory };

    fn from(_error: AllocFailed<T>) -> InstanceFault {
        InstanceFault::Memory
    }
}

impl InstanceFault {
    ghost use Rattle.std.specs.Prelude.{◌≡◌, IfOk, string_bytes};
    ghost use Rattle.instance_json.specs.Texts.{fault_text};

    /// What is wrong, after its path where it has one: the text that a command prints.
    #[tactic(auto, unfolding(crate::specs::Texts::fault_text))]
    pub fn text(&self, alloc: Global) -> Result<String, Memory>
        ensures { IfOk result (λ s. string_bytes s ≡ fault_text self.now) }
    {
        match self {
            InstanceFault::TooLong => word(alloc, "too long"),
            InstanceFault::NotJson => word(alloc, "not json"),
            InstanceFault::Field(fault) => after(alloc, &fault.path, fault.kind.as_text()),
            InstanceFault::Twice(path) => after(alloc, path, "twice"),
            InstanceFault::NoSuch(path) => after(alloc, path, "no such name"),
            InstanceFault::BadHost(path) => after(alloc, path, "bad host"),
            InstanceFault::Limit(path) => after(alloc, path, "over limit"),
            InstanceFault::Memory => word(alloc, "out of memory"),
        }
    }
}

fn word(alloc: Global, what: &str) -> Result<String, Memory>
    ensures { IfOk result (λ s. string_bytes s ≡ what.now) }
{
    Ok(String::from_str(alloc, what)?)
}

/// A path and what is wrong there.
fn after(alloc: Global, path: &PathText, what: &str) -> Result<String, Memory>
    ensures { IfOk result (λ s. string_bytes s ≡ path.now ++ codes " " ++ what.now) }
{
    let path = path.as_text();
    Ok(format!(in alloc; "{path} {what}")?)
}
