//! Tests that tell at once that nothing is broken, and promise nothing where they do not.
pub mod apart;
pub mod ever;
pub mod steady;
pub mod within;
