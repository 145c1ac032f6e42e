//! Writes certificates to a desk, line by line.
#![tactic(auto)]

mod writer;

pub use writer::CertWriter;
