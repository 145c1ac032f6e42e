//! Texts of several parts: cut into sections, and put together of them.
#![tactic(auto)]

mod cutting;
pub mod laws;
mod lines;
mod section;
mod writing;

pub use cutting::cut_sections;
pub use section::Section;
pub use writing::put_section;
