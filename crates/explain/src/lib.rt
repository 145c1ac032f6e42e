//! Why a problem has no valid plan: a core of constraints, each of them needed.
#![tactic(auto)]

mod explaining;
pub mod laws;
mod subs;
mod trials;

pub use explaining::{Explained, explain};
pub use subs::sub_problem;
