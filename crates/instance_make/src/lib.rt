//! Problems as text, and the problem that is generated from a seed.
#![tactic(auto)]

mod amounts;
mod elements;
mod generated_cluster;
mod generating;
pub mod laws;
mod lists;
mod names;
mod printing;
mod rules;

pub use generating::generate;
pub use printing::print_instance;
