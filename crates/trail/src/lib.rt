//! A region that is narrowed, and can go back to where a mark was made.
//!
//! A mark costs a constant, and what is kept for going back is what was changed: the one row or the Idle that a
//! cut took, or the old domain, moved, where an element was narrowed to the inside of a part. While no mark
//! stands nothing is kept.
#![tactic(auto)]

mod log;
pub mod trail;

pub use trail::Trail;
