//! The picture of a plan, as marks: who acts when and where, and the loads of the nodes beside it.
//! A large plan is drawn as a heat map.
//!
//! Marks are whole numbers of pixels, with laws on bars, curves, lines and heat.
#![tactic(auto)]

mod axis;
mod bands;
mod bars;
mod counts;
mod curves;
mod drawing;
mod forms;
mod head;
mod heat_map;
mod heat_printing;
mod heat_rows;
mod heats;
mod labels;
mod lines;
pub mod marks;
mod nodes;
mod printing;
mod rows;
pub mod shade;
mod sheet;
mod strips;
pub mod style;
mod words;

pub use drawing::picture_of;
pub use forms::draw_plan;
pub use heat_map::heat_map_of;
pub use heat_printing::heat_map_text;
pub use printing::picture_text;
