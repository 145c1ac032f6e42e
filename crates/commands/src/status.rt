//! The status that the program ends with.

pub use command_frame::status::Status;
