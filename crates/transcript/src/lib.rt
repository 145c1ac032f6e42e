//! The transcript of a plan that is carried out: each action that may start is written, and lines are read
//! that say which action has ended or failed.
#![tactic(auto)]

mod conclusion;
pub mod laws;
mod lines;
mod running;

pub use conclusion::{Conclusion, ExecuteFault};
pub use event_lines::{EventFault, MAX_LINE_BYTES};
pub use running::execute;
