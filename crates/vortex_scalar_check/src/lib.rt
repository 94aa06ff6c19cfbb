//! Tests of values under types and of scalars: what fits, how rows compare and hash, views, casts,
//! arithmetic, bounds and texts, and messages as bytes written by hand. And which rows values are, and
//! which of two rows comes first.
#![tactic(auto)]

#[cfg(test)]
mod cast_tests;
mod laws;
#[cfg(test)]
mod leaf_tests;
#[cfg(test)]
mod message_tests;
#[cfg(test)]
mod operation_tests;
#[cfg(test)]
mod part_tests;
#[cfg(test)]
mod row_tests;
#[cfg(test)]
mod temporal_tests;
#[cfg(test)]
mod text_tests;

pub use laws::{orders_are_worked, values_are_worked};
