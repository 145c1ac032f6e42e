//! The calls over regions: what is surely there, and whether a reason refutes.
#![tactic(auto)]

pub mod amounts;
pub mod area;
pub mod elements;
pub mod floors;
pub mod forbidden;
pub mod groups;
pub mod hosts;
pub mod laws;
pub mod measures;
pub mod moves;
pub mod named;
pub mod one_node;
pub mod plan;
pub mod refutes;
pub mod start;
pub mod sure;
pub mod totals;
pub mod whole;

pub use area::{Area, area_of, has};
pub use hosts::{is_host, is_hosted};
pub use measures::held;
pub use one_node::narrowed;
pub use sure::{least_held, may_be_usable, surely_has_image, surely_in, surely_powered};
pub use totals::{powered_nodes, room, total};
