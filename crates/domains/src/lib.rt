//! Sets of choices: domains, parts of them, and regions of one domain for each element, which are narrowed in place.
//!
//! Contracts see a domain as its idle flag and its rows, and state every change on the set of choices that these are.
#![tactic(auto)]

pub mod domain;
pub mod laws;
mod listing;
pub mod measure;
pub mod parts;
pub mod region;
mod row_list;
mod rows;
pub mod undo;
pub mod view;

pub use domain::Domain;
pub use parts::{Change, Part, Row, Side};
pub use region::Region;
pub use undo::Before;
pub use view::{Lens, View};
