//! The check of a certificate, line by line.
#![tactic(auto)]

mod certificate;
pub mod laws;
mod lines;
mod named;
mod take;
mod verdict;

pub use certificate::check;
pub use verdict::{CheckFault, Verdict};
