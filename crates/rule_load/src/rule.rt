//! The rule itself.
ghost use Rattle.std.specs.Prelude.{◌≡◌};

use crate::LoadKeeper;
use crate::watcher::Loads;
use rule_frame::Rule;
use std::alloc::Global;

/// The rule of the loads of nodes, of each one and of all together. It covers the one kind `Load`.
pub type LoadRule = Rule<Loads, LoadKeeper>;

/// A rule that has answered nothing yet. It takes no memory.
pub fn load_rule(alloc: Global) -> LoadRule
    ensures { result.given ≡ 0 }
{
    Rule::of(alloc, Loads, LoadKeeper::new(alloc))
}
