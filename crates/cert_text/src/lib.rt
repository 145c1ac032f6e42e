//! The lines of a certificate: what they say, how they are spelled, and what a line says.
#![tactic(auto)]

pub mod kinds;
pub mod laws;
pub mod parsing;
pub mod printing;
pub mod text;
mod words;
