//! What a node surely holds of a resource at each instant, kept with levels.
pub mod profile;
pub mod share;
