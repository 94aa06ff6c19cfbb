//! Readers of the buffers of nodes without children, which check what they read and copy none of it,
//! and parts of what was read.
#![tactic(auto)]

mod buffers;
mod chunk;
mod constants;
mod decimals;
mod error;
mod format;
mod from_values;
mod numbers;
mod offsets;
mod offsets_builder;
mod select_chunks;
mod select_numbers;
mod select_offsets;
mod select_texts;
mod texts;

pub use buffers::{one_buffer, two_buffers};
pub use constants::{constant, constants_are_copies};
pub use decimals::Decimals;
pub use error::LeafError;
pub use format::NumberFormat;
pub use from_values::offsets_part;
pub use numbers::Numbers;
pub use offsets::Offsets;
pub use offsets_builder::OffsetsBuilder;
pub use texts::Texts;

#[cfg(test)]
mod tests;
