//! Reads certificates from a desk, line by line, in pieces.
#![tactic(auto)]

mod cursor;
mod held;
pub mod laws;
mod line;
mod position;
mod reader;

pub use cursor::{MAX_LINE, PIECE};
pub use line::{Line, LineFault};
pub use position::Position;
pub use reader::CertReader;
