//! Rules as lists of watches, each dirty or clean. What each rule names is passed on from here.
#![tactic(auto)]

pub mod dirty;
pub mod keeper;
pub mod rule;
pub mod suggestion;
pub mod watcher;
pub mod widen;

pub use base::Memory;
pub use catalogue::{Constraint, Problem, Vms};
pub use closing::look::Look;
pub use cluster::{Choice, Element, Instant, NodeId, NodeSet, Place, VmId};
pub use dirty::DirtySet;
pub use domains::{Before, Change, Domain, Lens, Part, Region, Row, Side, View};
pub use keeper::Keeper;
pub use prop_core::propagator::{Answer, Propagator};
pub use reasons::{Reason, ReasonKind};
pub use relax::Area;
pub use rule::Rule;
pub use slices::elements::has_element;
pub use slices::form::{Separation, form_of};
pub use slices::{Form, Weight};
pub use suggestion::Suggestion;
pub use watcher::Watcher;
