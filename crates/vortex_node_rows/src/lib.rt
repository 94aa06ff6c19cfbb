//! Which rows the nodes of a body stand for.
#![tactic(auto)]

mod encoding;
mod laws;
mod worked;

pub use encoding::Encoding;
pub use laws::{bodies_are_bytes, rows_are_as_many, rows_fit};
pub use worked::{masks_are_worked, nested_rows_are_worked, rows_are_worked};
