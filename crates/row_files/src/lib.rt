//! The files that rows of commands name, read from texts.
#![tactic(auto)]

pub mod files;
