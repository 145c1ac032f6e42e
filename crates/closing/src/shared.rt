//! What exact looks and quick tests go by: ends, instants, and where machines stand and what they hold.
pub mod change_instants;
pub mod counts;
pub mod ends;
pub mod most;
pub mod stands;
