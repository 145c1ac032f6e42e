//! Closed regions: looks at all that can be broken in a region. `exact` says what is broken at an
//! instant, `quick` tells at once of some things that nothing is broken, and both stand on `shared`.
#![tactic(auto)]

pub mod closed;
mod exact;
pub mod look;
mod quick;
mod shared;
pub mod watch;
