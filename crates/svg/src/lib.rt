//! SVG, as it is written: the few elements that pictures use, each in one table of texts.
#![tactic(auto)]

mod elements;
mod paper;

pub use elements::Frame;
pub use paper::Paper;
