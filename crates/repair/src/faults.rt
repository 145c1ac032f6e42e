//! Why there is nothing to go on with.
ghost use Rattle.std.specs.Prelude.{◌≡◌};

use base::Memory;
use cluster::Element;

/// Why an execution has no problem that is left.
#[derive(Clone, Copy, Debug, PartialEq, Eq)]
pub enum RestFault {
    /// The action of this element runs, and of none before it.
    Running(Element),
    /// An allocation was refused.
    Memory,
}

impl From<Memory> for RestFault {
    ghost use Rattle.repair.specs.declared.faults.RestFault.TheVariants.{Memory as NoMemory};

    ghost from_gives = { λ _ e. e ≡ NoMemory };

    fn from(_error: Memory) -> RestFault {
        RestFault::Memory
    }
}
