//! Plans as text: the plan that a text has for a problem, or the text's first fault; and the text
//! of a plan.
#![tactic(auto)]

mod actions;
mod choosing;
mod fault;
mod fields;
mod marks;
mod names;
mod printing;
mod reading;

pub use fault::PlanFault;
pub use printing::print_plan;
pub use reading::read_plan;
