//! Tests of times, and in which order they are refused.
#![tactic(auto)]

mod laws;
#[cfg(test)]
mod metadata_tests;
#[cfg(test)]
mod value_tests;
#[cfg(test)]
mod zone_tests;

pub use laws::{refusals_are_worked, units_are_worked};
