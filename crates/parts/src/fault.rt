//! Why groups of nodes do not split a problem.
ghost use Rattle.std.specs.Prelude.{◌≡◌};

use base::Memory;
use cluster::{NodeId, VmId};
use std::alloc::AllocFailed;

/// Why a problem is not split along groups of nodes. Where several hold, the first in this order is the answer.
#[derive(Clone, Copy, Debug, PartialEq, Eq)]
pub enum SplitFault {
    /// The node, the first such one, is in no group.
    Uncovered(NodeId),
    /// There are two groups or more, and nothing keeps the machine, the first such one, in its group.
    Free(VmId),
    /// The constraint of that number, the first such one, speaks of all that it names together, and names machines and nodes of several groups.
    Spans(u32),
    /// An allocation was refused.
    Memory,
}

impl From<Memory> for SplitFault {
    ghost use Rattle.parts.specs.declared.fault.SplitFault.TheVariants.{Memory as NoMemory};

    ghost from_gives = { λ _ e. e ≡ NoMemory };

    fn from(_error: Memory) -> SplitFault {
        SplitFault::Memory
    }
}

/// The value that found no room is dropped.
impl<T: Drop> From<AllocFailed<T>> for SplitFault {
    ghost use Rattle.parts.specs.declared.fault.SplitFault.TheVariants.{Memory as NoMemory};

    ghost from_gives = { λ _ e. e ≡ NoMemory };

    fn from(_error: AllocFailed<T>) -> SplitFault {
        SplitFault::Memory
    }
}
