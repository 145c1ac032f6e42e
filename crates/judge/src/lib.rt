//! The judge of plans: the least instant at which a rule is broken, and the first rule broken there.
//!
//! Only 0, the horizon and the starts of actions are tried, each once, since between starts there is
//! only less to be borne. A constraint is tried at the starts of the elements alone of which it speaks.
#![tactic(auto)]

mod first;
mod least;
mod loads;
mod next;
mod standing;
mod verdict;

pub use loads::Loads;
pub use slices::rule::{Broken, Rule};
pub use standing::loads_at;
pub use verdict::judge;
