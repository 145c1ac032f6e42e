//! Looks at one instant that say exactly what is broken.
pub mod above;
pub mod capacities;
pub mod constraint;
pub mod each;
pub mod groups;
pub mod loads;
pub mod pairs;
pub mod places;
pub mod usable;
