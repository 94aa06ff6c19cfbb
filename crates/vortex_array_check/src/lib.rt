//! Tests of arrays from bodies and of what is made, compared and picked, and what rows, columns and refusals of arrays are.
#![tactic(auto)]

#[cfg(test)]
mod bodies;
#[cfg(test)]
mod canonical;
#[cfg(test)]
mod compared;
mod laws;
#[cfg(test)]
mod makers;
#[cfg(test)]
mod picked;
#[cfg(test)]
mod refused;
#[cfg(test)]
mod rows;
#[cfg(test)]
mod tests;

pub use laws::{columns_are_worked, refusals_are_worked, rows_are_worked};
