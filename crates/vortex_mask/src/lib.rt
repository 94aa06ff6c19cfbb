//! Lists of truth values, eight in a byte.
#![tactic(auto)]

mod bits;
mod builder;
mod error;
mod laws;
mod mask;

pub use builder::MaskBuilder;
pub use error::MaskError;
pub use laws::{filters_keep_places, masks_are_worked, packed_masks_are_read};
pub use mask::Mask;

#[cfg(test)]
mod tests;
