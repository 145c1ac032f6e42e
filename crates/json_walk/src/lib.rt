//! Looking into a JSON value, with the first fault and its path.
#![tactic(auto)]

mod at;
mod fault;
mod fields;
mod keys;
mod path;
mod path_ref;
mod reading;
mod walk;
mod words;

pub use at::{fault_at, field_at, flag_at, list_at, number_at, object_at, only_at, text_at};
pub use fault::{Fault, FaultKind, JsonFault, WalkFault};
pub use fields::{list_field, number_field, optional_flag, optional_number, text_field};
pub use keys::Keys;
pub use path::PathText;
pub use path_ref::PathRef;
pub use reading::{MAX_TEXT_BYTES, read_value};
pub use walk::{field, flag, list, number, only, text};
pub use words::{word_at, word_field};
