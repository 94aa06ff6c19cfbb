//! How native types hold whole numbers, and the kinds of them.
#![tactic(auto)]

mod error;
mod little_endian;
mod ptype;
#[cfg(test)]
mod tests;
mod whole;

pub use error::ValueError;
pub use little_endian::{ToBytes, TryFromBytes};
pub use ptype::{PType, kinds_are_whole_kinds};
pub use whole::WholeNumber;
